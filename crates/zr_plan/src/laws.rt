//! What holds of plans, for those who stand on them.

ghost use Rattle.std.specs.List.{list_any};
ghost use Rattle.std.specs.Prelude.{◌≡◌, List, None, Some, ℕ, false, is_some, true};
ghost use Rattle.zr_names.specs.declared.policy.Initial.{Initial};
ghost use Rattle.zr_plan.specs.Laws.{GoesOn, IsCaughtUp, IsResumeOf};
ghost use Rattle.zr_plan.specs.Plan.{can_go_on, has_nothing, own_version, plan_of};
ghost use Rattle.zr_plan.specs.Sides.{Onto};
ghost use Rattle.zr_command.specs.Kinds.{is_snap_of, newest};
ghost use Rattle.zr_plan.specs.declared.target.Planned.TheVariants.{Steps, UpToDate};
ghost use Rattle.zr_plan.specs.declared.target.Step.{Step};
ghost use Rattle.zr_plan.specs.declared.target.TokenInfo.{TokenInfo};
ghost use Rattle.zr_command.specs.declared.version.VersionRow.{VersionRow};

/// Where the source has an own version of the target's last snapshot, replication goes on.
pub fn a_known_last_snapshot_goes_on()
    ensures { (job : List ℕ) (source : List VersionRow) (target : Onto) (initial : Initial)
        (last : VersionRow) →
        target.there ≡ true → target.partial ≡ None → newest target.rows ≡ Some last →
        is_some (own_version job source last.guid) ≡ true
        → GoesOn (plan_of job source target initial) }
{}

/// A partial receive that can go on, of a snapshot that the source has, is resumed.
pub fn a_partial_receive_that_can_go_on_is_resumed()
    ensures { (job : List ℕ) (source : List VersionRow) (target : Onto) (initial : Initial)
        (partial : TokenInfo) →
        target.partial ≡ Some partial
        → can_go_on job source partial.from (newest target.rows) ≡ true →
        list_any (is_snap_of partial.to) source ≡ true →
        IsResumeOf partial.to (plan_of job source target initial) }
{}

/// An up-to-date target has all that the source could send after the target's last snapshot.
pub fn an_up_to_date_target_has_caught_up()
    ensures { (job : List ℕ) (source : List VersionRow) (target : Onto) (initial : Initial) →
        plan_of job source target initial ≡ UpToDate → IsCaughtUp job source target.rows }
{}

/// A target that has something is never sent a snapshot in full.
pub fn what_is_there_is_only_added_to()
    ensures { (job : List ℕ) (source : List VersionRow) (target : Onto) (initial : Initial)
        (steps : List Step) →
        has_nothing target ≡ false → plan_of job source target initial ≡ Steps steps →
        list_any (λ step. step.full) steps ≡ false }
{}

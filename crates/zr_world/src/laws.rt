//! What holds of effects, for those who stand on the relation and not on its table.

ghost use Rattle.std.specs.Prelude.{◌≡◌, ◌++◌, ◌∷◌, [], ℕ, All, Err, List, Ok, Option, Result, Some, None, map, ◌<◌, ◌^◌, IfSome};
ghost use Rattle.std.specs.List.{Contains};
ghost use Rattle.zr_world.specs.Effect.{after_since, Applies, Effect, Gives, row_at, shown_at, step_at};
ghost use Rattle.zr_world.specs.Pools.{IsWellFormed};
ghost use Rattle.zr_world.specs.Reasons.{refusal, refusal_since};
ghost use Rattle.zr_world.specs.Rows.{row_of_set, token_text};
ghost use Rattle.zr_world.specs.Tokens.{partial_of_token};
ghost use Rattle.zr_world.specs.declared.pools.Partial.{Partial};
ghost use Rattle.zr_names.specs.Names.{IsName, path_is_bad};
ghost use Rattle.zr_names.specs.declared.names.TheConstants.{PATH_LIMIT};
ghost use Rattle.zr_command.specs.declared.command.Cmd.{Cmd};
ghost use Rattle.zr_command.specs.declared.command.Cmd.TheVariants as cmd;
ghost use Rattle.zr_command.specs.declared.command.Reply.{Reply};
ghost use Rattle.zr_command.specs.declared.command.Reply.TheVariants as reply;
ghost use Rattle.zr_command.specs.declared.command.Transfer.{Transfer};
ghost use Rattle.zr_command.specs.declared.version.SetRow.{SetRow};
ghost use Rattle.zr_world.specs.declared.effects.ApplyFault.{ApplyFault};
ghost use Rattle.zr_world.specs.declared.effects.Extent.{Extent};
ghost use Rattle.zr_world.specs.declared.effects.Extent.TheVariants as extent;
ghost use Rattle.zr_world.specs.declared.effects.Refusal.{Refusal};
ghost use Rattle.zr_world.specs.declared.pools.Pools.{Pools};

/// What `apply` leaves and answers is an effect of the relation, whatever the moments since the command's issue were.
pub fn apply_makes_an_effect()
    ensures { (since : List Pools) (pools after : Pools) (command : Cmd) (some : Extent)
        (answer : Result Reply ApplyFault) →
        IsWellFormed pools → Applies pools (step_at pools command some) after answer →
        Gives since pools command some after answer }
{}

/// A refused command gives back why and changes nothing at any extent, and no command changes anything at the extent `None`.
pub fn refused_commands_change_nothing()
    ensures refused { (before after : Pools) (command : Cmd) (some : Extent) (why : Refusal)
        (got : Result Reply Refusal) →
        refusal before command ≡ Some why → Effect [] before command some after got
        → (got ≡ Err why) × (after ≡ before) }
    ensures none { (since : List Pools) (before after : Pools) (command : Cmd)
        (got : Result Reply Refusal) →
        Effect since before command extent.None after got → after ≡ before }
{}

/// Every effect leaves well-formed pools well formed, at whatever moment since the issue its sending end read the source.
pub fn effects_keep_pools_well_formed()
    ensures { (since : List Pools) (before after : Pools) (command : Cmd) (some : Extent)
        (got : Result Reply Refusal) →
        Effect since before command some after got → IsWellFormed before → IsWellFormed after }
{}

/// A transfer may have read its source at an earlier moment since its issue, also where the snapshot is gone by the effect.
pub fn a_transfer_may_have_read_its_source_earlier()
    ensures { (since : List Pools) (before earlier : Pools) (transfer : Transfer)
        → Contains since earlier →
        refusal_since earlier before (cmd.Transfer transfer) ≡ None →
        Effect since before (cmd.Transfer transfer) extent.Whole
        (after_since earlier before (cmd.Transfer transfer)) (Ok reply.Nothing) }
{}

/// A listing of all datasets shows a path as it was at all moments since the issue, where these agree on it; so where
/// nothing else runs it shows the rows of its moment.
pub fn a_listing_shows_what_stood_still()
    ensures still { (since : List Pools) (before after : Pools) (rows : List SetRow) (path : List ℕ)
        (row : Option SetRow) →
        All (λ moment. shown_at moment path ≡ row) (since ++ before ∷ []) →
        Effect since before cmd.Sets extent.Whole after (Ok (reply.Sets rows))
        → row_at rows path ≡ row }
    ensures alone { (before after : Pools) (rows : List SetRow) → IsWellFormed before →
        Effect [] before cmd.Sets extent.Whole after (Ok (reply.Sets rows))
        → rows ≡ map row_of_set before.sets }
{}

/// The token that a listing of the datasets shows for a partial receive is read as that partial receive.
pub fn a_shown_token_is_read_back()
    ensures { (partial : Partial) → IsName path_is_bad PATH_LIMIT partial.source →
        partial.to.0 < 2 ^ 64 → IfSome partial.from (λ guid. guid.0 < 2 ^ 64) →
        partial_of_token (token_text partial) ≡ Some partial }
{}

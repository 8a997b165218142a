//! What holds of knowledge, for those who stand on it.

ghost use Rattle.std.specs.Prelude.{◌≡◌, ◌≢◌, ◌++◌, ◌∷◌, [], ℕ, List, Some, filter, true};
ghost use Rattle.zr_command.specs.declared.command.Answer.{Answer};
ghost use Rattle.zr_command.specs.declared.command.Answer.TheVariants as answer;
ghost use Rattle.zr_command.specs.declared.command.Cmd.{Cmd};
ghost use Rattle.zr_command.specs.declared.command.Cmd.TheVariants as cmd;
ghost use Rattle.zr_command.specs.declared.command.Reply.TheVariants as reply;
ghost use Rattle.zr_command.specs.declared.command.Transfer.{Transfer};
ghost use Rattle.zr_command.specs.declared.version.VersionRow.{VersionRow};
ghost use Rattle.zr_known.specs.declared.known.Known.{Known};
ghost use Rattle.zr_jobs.specs.declared.pair.Pair.{Pair};
ghost use Rattle.zr_known.specs.declared.known.Receiving.TheVariants as receiving;
ghost use Rattle.zr_known.specs.Known.{arrival, is_own, known_of, nothing_known, target_rows, told_by};
ghost use Rattle.zr_known.specs.Replication.{MayGive, newest_known, plan_known};
ghost use Rattle.zr_known.specs.Straight.{is_straight, IsForward};
ghost use Rattle.zr_known.specs.declared.straight.TheConstants.{NOT_STRAIGHT};

/// What a unit knows is a fold of its turns: nothing at first, and after one turn more what that turn tells.
pub fn knowledge_is_told_turn_by_turn()
    ensures none { (pair : Pair) → known_of pair [] ≡ nothing_known }
    ensures more { (pair : Pair) (turns : List (Cmd × Answer)) (turn : Cmd × Answer) →
        known_of pair (turns ++ turn ∷ []) ≡ told_by pair turn.0 turn.1 (known_of pair turns) }
{}

/// A command that was not done tells nothing: it may have come or not.
pub fn what_was_not_done_tells_nothing()
    ensures failed { (pair : Pair) (command : Cmd) (known : Known) →
        told_by pair command answer.Failed known ≡ known }
    ensures garbled { (pair : Pair) (command : Cmd) (line : ℕ) (known : Known) →
        told_by pair command (answer.Garbled line) known ≡ known }
    ensures no_memory { (pair : Pair) (command : Cmd) (known : Known) →
        told_by pair command answer.NoMemory known ≡ known }
    ensures destroy { (pair : Pair) (path : List ℕ) (names : List (List ℕ)) (given : Answer)
        (known : Known) →
        told_by pair (cmd.DestroySnaps path names) given known ≡ known }
{}

/// A listing replaces what it lists, and nothing else; one of another dataset tells nothing.
pub fn a_listing_replaces_what_it_lists()
    ensures source { (pair : Pair) (rows : List VersionRow) (known : Known) →
        told_by pair (cmd.Versions pair.source) (answer.Done (reply.Versions rows)) known
        ≡ record known {
          source = record known.source { listing = Some rows };
          marks = filter
              (is_own pair.job) rows;
        } }
    ensures target { (pair : Pair) (rows : List VersionRow) (known : Known)
        → pair.target ≢ pair.source →
        told_by pair (cmd.Versions pair.target) (answer.Done (reply.Versions rows)) known
        ≡ record known { target = record known.target { listing = Some rows }; arrived = Some [] } }
    ensures other { (pair : Pair) (path : List ℕ) (rows : List VersionRow) (known : Known) →
        path ≢ pair.source → path ≢ pair.target →
        told_by pair (cmd.Versions path) (answer.Done (reply.Versions rows)) known ≡ known }
{}

/// A transfer that was done makes what it sent the target's newest snapshot, and leaves no partial receive; what is
/// known of the source stays.
pub fn a_done_transfer_makes_its_snapshot_the_newest()
    ensures newest { (pair : Pair) (transfer : Transfer) (rows : List VersionRow) (known : Known) →
        transfer.target ≡ pair.target → target_rows known ≡ Some rows →
        newest_known (told_by pair (cmd.Transfer transfer) (answer.Done reply.Nothing) known)
        ≡ Some (arrival transfer) }
    ensures whole { (pair : Pair) (transfer : Transfer) (known : Known)
        → transfer.target ≡ pair.target →
        (told_by pair (cmd.Transfer transfer) (answer.Done reply.Nothing) known).receiving
        ≡ receiving.Nothing }
    ensures source { (pair : Pair) (transfer : Transfer) (known : Known) →
        (told_by pair (cmd.Transfer transfer) (answer.Done reply.Nothing) known).marks
        ≡ known.marks }
{}

/// At most one transfer is allowed after a transcript, so a record in which it stands without its guids tells which.
pub fn at_most_one_transfer_is_allowed()
    ensures { (pair : Pair) (known : Known) (one other : Transfer) →
        MayGive pair known (cmd.Transfer one) → MayGive pair known (cmd.Transfer other)
        → one ≡ other }
{}

/// A straight pair has a plan that is done by transfers alone.
pub fn a_straight_pair_is_replicated_by_transfers()
    ensures { (pair : Pair) (known : Known) → is_straight pair known ≡ true
        → IsForward (plan_known pair known) }
{}

/// The number of the conflict of a pair that is not straight.
pub fn conflict_number()
    ensures { NOT_STRAIGHT ≡ 20 }
{}

//! The steps of a turn over the parts of a ledger.

ghost use Rattle.std.specs.Prelude.{◌≡◌, ◌==◌, ◌+◌, ◌-◌, ◌^◌, ◌<◌, [], ◌∷◌, ◌++◌, Some, if◌then◌else◌, length, remove, slice_get};
ghost use Rattle.std.specs.Vec.{vec_capacity, vec_len};
ghost use Rattle.zr_ledger.specs.Steps.{with_run};
ghost use Rattle.zr_ledger.specs.Turns.{idle, place_of};

use crate::counts::Counts;
use crate::queue::Queue;
use crate::state::Entry;
use crate::ticket::{Ticket, Turn};

/// The answer where nothing is ready.
pub(crate) fn idle(over: bool, is_there: bool, outs: &[Ticket]) -> Turn
    ensures { result ≡ idle (place_of over is_there) outs.now }
{
    if over {
        if outs.is_empty() {
            Turn::Ended
        } else {
            Turn::Wait
        }
    } else if is_there {
        Turn::TickYourself
    } else {
        Turn::Wait
    }
}

/// Hands out the unit at a place.
pub(crate) fn send_out(
    waiting: &mut Queue,
    outs: &mut Vec<Ticket>,
    counts: &mut Counts,
    place: usize,
) -> Ticket
    requires inside { place < length waiting.old.units }
    requires run { counts.old.given < 2 ^ 64 - 1 }
    requires room { vec_len outs.old < vec_capacity outs.old }
    ensures unit { slice_get waiting.old.units place ≡ Some result.unit }
    ensures run { result.run ≡ counts.old.given + 1 }
    ensures waiting { waiting.new.units ≡ remove waiting.old.units place }
    ensures outs { outs.new.items ≡ outs.old.items ++ result ∷ [] }
    ensures counts { counts.new ≡ with_run result.unit.work counts.old }
    ensures room { vec_capacity outs.new ≡ vec_capacity outs.old }
{
    let (unit, twin) = waiting.take_out(place);
    counts.start(&unit.work);
    outs.push_reserved(Ticket::new(twin, counts.given));
    Ticket::new(unit, counts.given)
}

/// Gives up all that is out, and tells how many these were.
pub(crate) fn give_up(outs: &mut Vec<Ticket>, history: &mut Vec<Entry>) -> u64
    requires { length history.old.items + length outs.old.items < vec_capacity history.old + 1 }
    ensures count { result ≡ length outs.old.items }
    ensures outs { outs.new.items ≡ [] }
    ensures history { history.new.items ≡ (if length outs.old.items == 0
        then history.old.items
        else (history.old.items ++ Entry.Recall ∷ [])) }
    ensures outs_room { vec_capacity outs.new ≡ vec_capacity outs.old }
    ensures history_room { vec_capacity history.new ≡ vec_capacity history.old }
{
    let count = outs.len();
    if count > 0 {
        outs.clear();
        history.push_reserved(Entry::Recall);
    }
    count as u64
}

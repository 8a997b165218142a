//! What `add` does: it takes all memory first, so that nothing can fail once the first unit is added.

ghost use Rattle.std.specs.Prelude.{◌≡◌, ◌+◌, ◌-◌, ◌*◌, ◌<◌, ◌≤◌, [], ◌∷◌, ◌++◌, All, IfOk, IfSome, OnOk, MatchOption, if◌then◌else◌, length, List, map};
ghost use Rattle.std.specs.Vec.{vec_capacity, vec_len};
ghost use Rattle.zr_names.specs.declared.unit.Unit.{Unit as TheUnit};
ghost use Rattle.zr_ledger.specs.Queue.{HasRoomFor};
ghost use Rattle.zr_ledger.specs.Steps.{coalesced_from, is_long, is_new, joined, joined_all, next_base, standing, with_coalesced, with_new, with_one};

use crate::counts::Counts;
use crate::limits::Limits;
use crate::queue::Queue;
use crate::ready::key_is_live;
use crate::seats::is_snap;
use crate::spare::Spare;
use crate::state::{Entry, HISTORY_LIMIT, State};
use crate::ticket::Ticket;
use std::alloc::{AllocError, Global};
use zr_names::{NoMemory, Unit, same_items};

pub(crate) fn spares_of(alloc: Global, units: Vec<Unit>) -> Result<Vec<Spare>, AllocError>
    ensures { IfOk result (λ spares. spares.items ≡ units.items) }
{
    let mut spares = Vec::with_capacity(alloc, units.len())?;
    for unit in units {
        spares.push(Spare::of(unit)?)?;
    }
    Ok(spares)
}

/// How many entries so many more units, and what waits and is out beside them, may come to.
fn entries_of(waiting: usize, outs: usize, more: usize) -> Option<usize>
    ensures { IfSome result (λ entries. entries ≡ 3 * more + (2 * waiting + outs)) }
{
    let adds = more.checked_mul(3)?;
    let starts = waiting.checked_mul(2)?;
    adds.checked_add(starts.checked_add(outs)?)
}

/// Makes room for these units, and for all that comes of them.
pub(crate) fn reserve_all(
    waiting: &mut Queue,
    outs: &mut Vec<Ticket>,
    history: &mut Vec<Entry>,
    jobs: usize,
    units: &[Spare],
) -> Result<(), NoMemory>
    requires { All (λ unit. unit.job < jobs) units.now }
    ensures waiting { waiting.new.units ≡ waiting.old.units }
    ensures outs { outs.new.items ≡ outs.old.items }
    ensures history { history.new.items ≡ history.old.items }
    ensures outs_room { vec_capacity outs.old ≤ vec_capacity outs.new }
    ensures history_room { vec_capacity history.old ≤ vec_capacity history.new }
    ensures waiting_ok { OnOk result (HasRoomFor waiting.new units.now) }
    ensures outs_ok { OnOk result
        (length waiting.old.units + length outs.old.items + length units.now
        ≤ vec_capacity outs.new) }
    ensures history_ok { OnOk result
        (length history.old.items
        + (3 * length units.now + (2 * length waiting.old.units + length outs.old.items))
        ≤ vec_capacity history.new) }
{
    let Some(starts) = waiting.len().checked_add(units.len()) else {
        return Err(NoMemory);
    };
    let Some(entries) = entries_of(waiting.len(), outs.len(), units.len()) else {
        return Err(NoMemory);
    };
    waiting.reserve(jobs, units)?;
    outs.reserve(starts)?;
    history.reserve(entries)?;
    Ok(())
}

/// A copy of the present state, where the history is long.
pub(crate) fn next_base(
    alloc: Global,
    limits: &Limits,
    waiting: &Queue,
    outs: &[Ticket],
    counts: &Counts,
    history: &[Entry],
) -> Result<Option<State>, AllocError>
    ensures { IfOk result (λ next. next
        ≡ next_base (is_long history.now)
        (standing limits.now waiting.now.units outs.now counts.now)) }
{
    if history.len() < HISTORY_LIMIT {
        return Ok(None);
    }
    Ok(Some(State {
        limits: limits.copy(alloc)?,
        waiting: waiting.copy(alloc)?,
        outs: same_items(alloc, outs)?,
        counts: *counts,
    }))
}

/// Begins the history anew, where there is a new base.
pub(crate) fn begin_anew(base: &mut State, history: &mut Vec<Entry>, next: Option<State>)
    ensures base { MatchOption next (base.new ≡ base.old) (λ state. base.new ≡ state) }
    ensures history { MatchOption next (history.new.items ≡ history.old.items)
        (λ _. history.new.items ≡ []) }
    ensures room { vec_capacity history.new ≡ vec_capacity history.old }
{
    if let Some(state) = next {
        *base = state;
        history.clear();
    }
}

/// Whether a unit is to wait and not to be coalesced.
fn is_new(limits: &Limits, waiting: &Queue, outs: &[Ticket], counts: &Counts, unit: &Unit) -> bool
    ensures { result ≡ is_new (standing limits.now waiting.now.units outs.now counts.now) unit.now }
{
    (limits.once && !is_snap(&unit.work)) || !key_is_live(waiting, outs, unit)
}

/// The unit waits, or is coalesced.
fn settle(waiting: &mut Queue, counts: &mut Counts, fresh: bool, unit: Unit, twin: Unit)
    requires room { HasRoomFor waiting.old (unit ∷ []) }
    requires same { twin ≡ unit }
    ensures waiting { waiting.new.units
        ≡ (if fresh then (waiting.old.units ++ unit ∷ []) else waiting.old.units) }
    ensures counts { counts.new
        ≡ (if fresh then with_new unit.work counts.old else with_coalesced unit.work counts.old) }
    ensures room { (rest : List TheUnit) → HasRoomFor waiting.old (unit ∷ rest)
        → HasRoomFor waiting.new rest }
{
    if fresh {
        counts.accept(&unit.work);
        waiting.push(unit, twin);
    } else {
        counts.coalesce(&unit.work);
    }
}

/// Adds one unit, and answers whether it is new.
fn join(
    limits: &Limits,
    waiting: &mut Queue,
    outs: &[Ticket],
    counts: &mut Counts,
    history: &mut Vec<Entry>,
    spare: Spare,
) -> bool
    requires room { HasRoomFor waiting.old (spare ∷ []) }
    requires history_room { vec_len history.old < vec_capacity history.old }
    ensures answer { result ≡ is_new (standing limits.now waiting.old.units outs.now counts.old)
        spare }
    ensures state { standing limits.now waiting.new.units outs.now counts.new
        ≡ joined (standing limits.now waiting.old.units outs.now counts.old) spare }
    ensures history { history.new.items ≡ history.old.items ++ Entry.Add spare ∷ [] }
    ensures room { (rest : List TheUnit) → HasRoomFor waiting.old (spare ∷ rest)
        → HasRoomFor waiting.new rest }
    ensures history_room { vec_capacity history.new ≡ vec_capacity history.old }
{
    let (unit, twin, noted) = spare.into_parts();
    let fresh = is_new(limits, waiting, outs, counts, &unit);
    history.push_reserved(Entry::Add(noted));
    settle(waiting, counts, fresh, unit, twin);
    fresh
}

/// One more, where a unit is not new.
fn count_on(before: u64, fresh: bool) -> u64
    ensures { result ≡ with_one before fresh }
{
    if fresh {
        before
    } else {
        before.saturating_add(1)
    }
}

/// Adds the units one after the other, and answers how many were coalesced.
pub(crate) fn join_all(
    limits: &Limits,
    waiting: &mut Queue,
    outs: &[Ticket],
    counts: &mut Counts,
    history: &mut Vec<Entry>,
    spares: Vec<Spare>,
) -> u64
    requires room { HasRoomFor waiting.old spares.items }
    requires history_room { length history.old.items + length spares.items
        ≤ vec_capacity history.old }
    ensures answer { result
        ≡ coalesced_from 0 (standing limits.now waiting.old.units outs.now counts.old)
        spares.items }
    ensures state { standing limits.now waiting.new.units outs.now counts.new
        ≡ joined_all (standing limits.now waiting.old.units outs.now counts.old) spares.items }
    ensures history { history.new.items ≡ history.old.items ++ map Entry.Add spares.items }
    ensures history_room { vec_capacity history.new ≡ vec_capacity history.old }
{
    let mut coalesced = 0;
    for spare in spares {
        let fresh = join(limits, waiting, outs, counts, history, spare);
        coalesced = count_on(coalesced, fresh);
    }
    coalesced
}

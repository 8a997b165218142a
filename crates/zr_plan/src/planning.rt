//! What a replication does next: the cases, in their order.

ghost use Rattle.std.specs.Prelude.{◌≡◌, ◌++◌, ◌&&◌, IfOk, OnOk, filter, find, is_some, nat_lt, option_to_list, option_map};
ghost use Rattle.std.specs.Option.{option_copied};
ghost use Rattle.zr_command.specs.declared.version.VersionRow.{VersionRow};
ghost use Rattle.zr_plan.specs.Plan.{can_go_on, conflict_plan, has_nothing, in_full, initial_plan, is_after_snaps, is_common, is_later, newest_common, own_version, partial_plan, plan_after, plan_from, plan_of, step_to, steps_of, steps_plan};
ghost use Rattle.zr_plan.specs.Sides.{onto, rows_of};
ghost use Rattle.zr_command.specs.Kinds.{is_cursor_of, is_snap, is_snap_of, is_tentative_of, newest};

use crate::source::Source;
use crate::target::{Conflict, Planned, Step, Target, TokenInfo};
use std::alloc::Global;
use zr_command::{
    VersionName, VersionRow, is_cursor_of, is_snap, is_snap_of, is_tentative_of, newest,
};
use zr_names::{Guid, Initial, JobName, NoMemory, Rows, Same};

fn cursor_of<'a>(job: &JobName, marks: &'a [VersionRow], guid: Guid) -> Option<&'a VersionRow>
    ensures { option_copied result ≡ find (is_cursor_of job.now guid) marks.now }
{
    marks.iter().find(|row| is_cursor_of(row, job, guid))
}

fn first_snap<'a>(rows: &'a [VersionRow], guid: Guid) -> Option<&'a VersionRow>
    ensures { option_copied result ≡ find (is_snap_of guid) rows.now }
{
    rows.iter().find(|row| is_snap_of(row, guid))
}

#[tactic(auto, using(crate::proofs::Sides::snap_found))]
fn snap_of<'a>(source: &Source<'a>, guid: Guid) -> Option<&'a VersionRow>
    ensures { option_copied result ≡ find (is_snap_of guid) (rows_of source.now) }
{
    if let Some(row) = first_snap(source.listing, guid) {
        Some(row)
    } else {
        first_snap(source.marks, guid)
    }
}

fn tentative_of<'a>(job: &JobName, marks: &'a [VersionRow], guid: Guid) -> Option<&'a VersionRow>
    ensures { option_copied result ≡ find (is_tentative_of job.now guid) marks.now }
{
    marks.iter().find(|row| is_tentative_of(row, job, guid))
}

/// What the source still has of the snapshot of a guid. No snapshot is a cursor, so a cursor is looked for among the marks
/// alone.
#[tactic(auto, using(crate::proofs::Sides::cursor_found, crate::proofs::Sides::tentative_found))]
fn own_version<'a>(job: &JobName, source: &Source<'a>, guid: Guid) -> Option<&'a VersionRow>
    ensures { option_copied result ≡ own_version job.now (rows_of source.now) guid }
{
    if let Some(cursor) = cursor_of(job, source.marks, guid) {
        Some(cursor)
    } else if let Some(snap) = snap_of(source, guid) {
        Some(snap)
    } else {
        tentative_of(job, source.marks, guid)
    }
}

#[tactic(auto, using(crate::proofs::Sides::newest_found))]
fn newest_of<'a>(source: &Source<'a>) -> Option<&'a VersionRow>
    ensures { option_copied result ≡ newest (rows_of source.now) }
{
    if let Some(row) = newest(source.marks) {
        Some(row)
    } else {
        newest(source.listing)
    }
}

#[tactic(auto, using(crate::proofs::Sides::newest_arrived))]
fn newest_onto<'a>(target: &Target<'a>) -> Option<&'a VersionRow>
    ensures { option_copied result ≡ newest (onto target.now).rows }
{
    if let Some(row) = newest(target.arrived) {
        Some(row)
    } else {
        newest(target.listing)
    }
}

fn is_common(job: &JobName, source: &Source<'_>, row: &VersionRow) -> bool
    ensures { result ≡ is_common job.now (rows_of source.now) row.now }
{
    is_snap(row) && own_version(job, source, row.guid).is_some()
}

fn last_common<'a>(
    job: &JobName,
    source: &Source<'_>,
    rows: &'a [VersionRow],
) -> Option<&'a VersionRow>
    ensures { option_copied result ≡ newest_common job.now (rows_of source.now) rows.now }
{
    rows.iter().rev().find(|row| is_common(job, source, row))
}

#[tactic(auto, using(crate::proofs::Sides::common_arrived))]
fn newest_common<'a>(
    job: &JobName,
    source: &Source<'_>,
    target: &Target<'a>,
) -> Option<&'a VersionRow>
    ensures { option_copied result
        ≡ newest_common job.now (rows_of source.now) (onto target.now).rows }
{
    if let Some(row) = last_common(job, source, target.arrived) {
        Some(row)
    } else {
        last_common(job, source, target.listing)
    }
}

/// The greatest of a transaction group and those of the snapshots with a guid.
fn latest_among(rows: &[VersionRow], guid: Guid, txg: u64) -> u64
    ensures { (row : VersionRow)
        → nat_lt result row.txg ≡ (nat_lt txg row.txg && is_after_snaps rows.now guid row) }
{
    let mut latest = txg;
    for row in rows {
        if is_snap_of(row, guid) {
            latest = latest.max(row.txg);
        }
    }
    latest
}

/// The greatest transaction group of a version of a guid and of the snapshots with this guid.
#[tactic(auto, using(crate::proofs::Sides::is_later_both))]
fn latest_txg(source: &Source<'_>, guid: Guid, own: &VersionRow) -> u64
    ensures { (row : VersionRow)
        → nat_lt result row.txg ≡ is_later (rows_of source.now) guid own.now row }
{
    let listed = latest_among(source.listing, guid, own.txg);
    latest_among(source.marks, guid, listed)
}

/// Adds the increment to a row, if it is a snapshot.
fn push_step(steps: &mut Rows<Step>, row: &VersionRow) -> Result<(), NoMemory>
    ensures { OnOk result (steps.new ≡ steps.old ++ step_to row.now row.now.name) }
{
    if let VersionName::Snap(name) = &row.name {
        steps.push(Step {
            to: name.same()?,
            guid: row.guid,
            full: false,
        })?;
    }
    Ok(())
}

/// Adds the increments to the snapshots among the rows.
fn push_steps(steps: &mut Rows<Step>, rows: &[VersionRow]) -> Result<(), NoMemory>
    ensures { OnOk result (steps.new ≡ steps.old ++ steps_of rows.now) }
{
    for row in rows {
        push_step(steps, row)?;
    }
    Ok(())
}

#[tactic(auto, using(crate::proofs::Sides::steps_both))]
fn steps_of(alloc: Global, source: &Source<'_>) -> Result<Rows<Step>, NoMemory>
    ensures { IfOk result (λ steps. steps ≡ steps_of (rows_of source.now)) }
{
    let mut steps = Rows::new(alloc);
    push_steps(&mut steps, source.listing)?;
    push_steps(&mut steps, source.marks)?;
    Ok(steps)
}

/// Adds the increments to the snapshots that come after a transaction group.
fn push_later(steps: &mut Rows<Step>, rows: &[VersionRow], latest: u64) -> Result<(), NoMemory>
    ensures { OnOk result (steps.new
        ≡ steps.old ++ steps_of (filter (λ row. nat_lt latest row.txg) rows.now)) }
{
    for row in rows {
        if latest < row.txg {
            push_step(steps, row)?;
        }
    }
    Ok(())
}

/// The increments to the snapshots that are later than the own version of a guid.
fn later_steps(
    alloc: Global,
    source: &Source<'_>,
    guid: Guid,
    own: &VersionRow,
) -> Result<Rows<Step>, NoMemory>
    ensures { IfOk result (λ steps. steps
        ≡ steps_of (filter (is_later (rows_of source.now) guid own.now) (rows_of source.now))) }
{
    let latest = latest_txg(source, guid, own);
    let mut steps = Rows::new(alloc);
    push_later(&mut steps, source.listing, latest)?;
    push_later(&mut steps, source.marks, latest)?;
    Ok(steps)
}

fn newest_step(alloc: Global, source: &Source<'_>) -> Result<Rows<Step>, NoMemory>
    ensures { IfOk result (λ steps. steps
        ≡ steps_of (option_to_list (newest (rows_of source.now)))) }
{
    let mut steps = Rows::new(alloc);
    if let Some(row) = newest_of(source) {
        push_step(&mut steps, row)?;
    }
    Ok(steps)
}

fn in_full(steps: Rows<Step>) -> Rows<Step>
    ensures { result ≡ in_full steps }
{
    let mut steps = steps.into_vec();
    if !steps.is_empty() {
        steps[0].full = true;
    }
    Rows::from_vec(steps)
}

fn initial_plan(alloc: Global, source: &Source<'_>, initial: Initial) -> Result<Planned, NoMemory>
    ensures { IfOk result (λ planned. planned ≡ initial_plan (rows_of source.now) initial) }
{
    match initial {
        Initial::Fail => Ok(Planned::Conflict(Conflict::InitialRefused)),
        Initial::MostRecent => Ok(Planned::Steps(in_full(newest_step(alloc, source)?))),
        Initial::All => Ok(Planned::Steps(in_full(steps_of(alloc, source)?))),
    }
}

fn can_go_on(
    job: &JobName,
    source: &Source<'_>,
    from: Option<Guid>,
    last: Option<&VersionRow>,
) -> bool
    ensures { result ≡ can_go_on job.now (rows_of source.now) from (option_copied last.entry) }
{
    match (from, last) {
        (None, None) => true,
        (Some(from), Some(last)) => {
            from.0 == last.guid.0 && own_version(job, source, from).is_some()
        }
        (None, Some(_)) | (Some(_), None) => false,
    }
}

fn partial_plan(
    job: &JobName,
    source: &Source<'_>,
    last: Option<&VersionRow>,
    partial: TokenInfo,
) -> Result<Planned, NoMemory>
    ensures { IfOk result (λ planned. planned ≡
        partial_plan job.now (rows_of source.now) (option_copied last.entry) partial) }
{
    if !can_go_on(job, source, partial.from, last) {
        return Ok(Planned::Abandon);
    }
    let Some(row) = snap_of(source, partial.to) else {
        return Ok(Planned::Abandon);
    };
    match &row.name {
        VersionName::Snap(name) => Ok(Planned::Resume {
            to: name.same()?,
            guid: row.guid,
        }),
        VersionName::Mark(_) => Ok(Planned::Abandon),
    }
}

fn steps_plan(steps: Rows<Step>) -> Planned
    ensures { result ≡ steps_plan steps }
{
    if steps.is_empty() {
        Planned::UpToDate
    } else {
        Planned::Steps(steps)
    }
}

fn conflict_plan(common: Option<&VersionRow>, last: &VersionRow) -> Planned
    ensures { result ≡ conflict_plan (option_copied common.entry) last.now }
{
    match common {
        Some(common) => Planned::Conflict(Conflict::Diverged {
            common: common.guid,
            newer: last.guid,
        }),
        None => Planned::Conflict(Conflict::NoCommon),
    }
}

/// The plan onto a target with this last snapshot, or none.
fn plan_after(
    alloc: Global,
    job: &JobName,
    source: &Source<'_>,
    target: &Target<'_>,
    last: Option<&VersionRow>,
) -> Result<Planned, NoMemory>
    ensures { IfOk result (λ planned. planned ≡
        plan_after job.now (rows_of source.now) (onto target.now).rows (option_copied last.entry)) }
{
    let Some(last) = last else {
        return Ok(Planned::Conflict(Conflict::TargetInUse));
    };
    match own_version(job, source, last.guid) {
        Some(own) => Ok(steps_plan(later_steps(alloc, source, last.guid, own)?)),
        None => Ok(conflict_plan(newest_common(job, source, target), last)),
    }
}

fn has_nothing(target: &Target<'_>) -> bool
    ensures { result ≡ has_nothing (onto target.now) }
{
    !target.there || (target.placeholder && newest_onto(target).is_none())
}

/// What a replication of a job does next, by the versions of its source and what is known of its target.
#[tactic(auto, unfolding(crate::specs::Plan::plan_of))]
pub fn plan(
    alloc: Global,
    job: &JobName,
    source: &Source<'_>,
    target: &Target<'_>,
    initial: Initial,
) -> Result<Planned, NoMemory>
    ensures { IfOk result (λ planned. planned
        ≡ plan_of job.now (rows_of source.now) (onto target.now) initial) }
{
    let last = newest_onto(target);
    if let Some(partial) = target.partial {
        partial_plan(job, source, last, partial)
    } else if newest_of(source).is_none() {
        Ok(Planned::Conflict(Conflict::NoSenderSnapshots))
    } else if has_nothing(target) {
        initial_plan(alloc, source, initial)
    } else {
        plan_after(alloc, job, source, target, last)
    }
}

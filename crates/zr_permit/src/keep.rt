//! Which snapshots of a listing the rules of a job doom.

ghost use Rattle.std.specs.Prelude.{◌≡◌, ◌++◌, IfOk, OnOk, length, true};
ghost use Rattle.zr_command.specs.Kinds.{is_snap};
ghost use Rattle.zr_permit.specs.Keep.{cursor_txg, doomed, gone, going_from, is_any_cursor, is_own_cursor, lesser, snaps_of, text_of};
ghost use Rattle.zr_permit.specs.Marked.{AreMarked};

use std::alloc::{AllocError, Global};
use zr_command::{VersionName, VersionRow, is_snap, kind_in};
use zr_names::{JobName, MarkKind, NoMemory, Same, SnapName};
use zr_rules::{RuleRow, Rules, kept};

fn is_any_cursor(kind: MarkKind) -> bool
    ensures { result ≡ is_any_cursor kind }
{
    match kind {
        MarkKind::Cursor(_) => true,
        MarkKind::Tentative(_) | MarkKind::OldCursor | MarkKind::Other => false,
    }
}

/// Whether a row is the job's own cursor.
fn is_own_cursor(row: &VersionRow, job: &JobName) -> bool
    ensures { result ≡ is_own_cursor job.now row.now }
{
    is_any_cursor(kind_in(&row.name, job))
}

fn lesser(txg: u64, least: Option<u64>) -> u64
    ensures { result ≡ lesser txg least }
{
    match least {
        Some(least) => txg.min(least),
        None => txg,
    }
}

/// The transaction group of the job's own cursor with the least one.
fn cursor_txg(job: &JobName, rows: &[VersionRow]) -> Option<u64>
    ensures { result ≡ cursor_txg job.now rows.now }
{
    let mut least = None;
    for row in rows {
        if is_own_cursor(row, job) {
            least = Some(lesser(row.txg, least));
        }
    }
    least
}

fn snap_name(row: &VersionRow) -> Result<SnapName, AllocError>
    requires { is_snap row.now ≡ true }
    ensures { IfOk result (λ name. name ≡ text_of row.now.name) }
{
    match &row.name {
        VersionName::Snap(name) => name.same(),
        VersionName::Mark(_) => unreachable!(),
    }
}

/// The snapshots of a listing, as keep rules see them.
fn snaps_of(alloc: Global, rows: &[VersionRow]) -> Result<Vec<RuleRow>, AllocError>
    ensures { IfOk result (λ snaps. snaps.items ≡ snaps_of rows.now) }
{
    let mut snaps = Vec::new(alloc);
    for row in rows {
        if is_snap(row) {
            snaps.push(RuleRow {
                name: snap_name(row)?,
                txg: row.txg,
                creation: row.creation,
            })?;
        }
    }
    Ok(snaps)
}

/// For each snapshot of a listing, whether a rule keeps it.
fn marks_of(
    alloc: Global,
    job: &JobName,
    rules: &mut Rules,
    rows: &[VersionRow],
) -> Result<Vec<bool>, NoMemory>
    ensures marked { IfOk result (λ marks. AreMarked rules.old job.now rows.now marks.items) }
    ensures rules { rules.new ≡ rules.old }
{
    let snaps = snaps_of(alloc, rows)?;
    let mut marks = vec![in alloc; false; snaps.len()]?;
    kept(
        alloc,
        rules,
        snaps.as_slice(),
        cursor_txg(job, rows),
        marks.as_mut_slice(),
    )?;
    Ok(marks)
}

/// Notes the name of a snapshot if it has no holds and is not kept.
fn note_gone(names: &mut Vec<SnapName>, kept: bool, row: &VersionRow) -> Result<(), AllocError>
    requires { is_snap row.now ≡ true }
    ensures { OnOk result (names.new.items ≡ names.old.items ++ gone kept row.now) }
{
    if row.refs == 0 && !kept {
        names.push(snap_name(row)?)?;
    }
    Ok(())
}

/// The snapshots with no holds that are not marked as kept, in the order of the listing.
fn going(alloc: Global, rows: &[VersionRow], marks: &[bool]) -> Result<Vec<SnapName>, AllocError>
    requires { length marks.now ≡ length (snaps_of rows.now) }
    ensures { IfOk result (λ names. (rules : _) (job : _) → AreMarked rules job rows.now marks.now
        → names.items ≡ going_from rules (snaps_of rows.now) (cursor_txg job rows.now) 0 rows.now) }
{
    let mut names = Vec::new(alloc);
    let mut place = 0;
    for row in rows {
        if is_snap(row) {
            note_gone(&mut names, marks[place], row)?;
            place += 1;
        }
    }
    Ok(names)
}

/// The snapshots of a listing that pruning by these rules of a job destroys, in the order of the listing.
pub fn doomed(
    alloc: Global,
    job: &JobName,
    rules: &mut Rules,
    rows: &[VersionRow],
) -> Result<Vec<SnapName>, NoMemory>
    ensures doomed { IfOk result (λ names. names.items ≡ doomed job.now rules.old rows.now) }
    ensures rules { rules.new ≡ rules.old }
{
    if rules.is_empty() {
        return Ok(Vec::new(alloc));
    }
    let marks = marks_of(alloc, job, rules, rows)?;
    Ok(going(alloc, rows, marks.as_slice())?)
}

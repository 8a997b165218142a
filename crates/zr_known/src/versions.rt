//! The versions that are a job's own, and what is looked up by name among rows.

ghost use Rattle.std.specs.Prelude.{◌≡◌, ◌&&◌, find};
ghost use Rattle.std.specs.List.{list_any};
ghost use Rattle.std.specs.Option.{option_copied};
ghost use Rattle.zr_command.specs.Names.{same_name};
ghost use Rattle.zr_command.specs.Kinds.{is_cursor_of, is_snap, kind_in};
ghost use Rattle.zr_known.specs.Known.{is_among, is_own, is_own_kind, is_row_of};
ghost use Rattle.zr_command.specs.declared.version.VersionName.TheVariants.{Mark, Snap};

use zr_command::{VersionName, VersionRow, is_cursor_of, is_snap, kind_in};
use zr_names::{Guid, JobName, MarkKind, MarkName, SnapName, mark_of};

fn is_own_kind(kind: MarkKind) -> bool
    ensures { result ≡ is_own_kind kind }
{
    match kind {
        MarkKind::Cursor(_) | MarkKind::Tentative(_) => true,
        MarkKind::OldCursor | MarkKind::Other => false,
    }
}

/// Whether a row is a cursor or a tentative cursor of the job.
pub(crate) fn is_own(row: &VersionRow, job: &JobName) -> bool
    ensures { result ≡ is_own job.now row.now }
{
    is_own_kind(kind_in(&row.name, job))
}

/// Whether a name is that of a cursor or a tentative cursor of the job.
pub(crate) fn is_own_mark(name: &MarkName, job: &JobName) -> bool
    ensures { result ≡ is_own_kind (kind_in job.now (Mark name.now)) }
{
    is_own_kind(mark_of(name, job))
}

/// Whether a row has this name.
pub(crate) fn is_row_of(row: &VersionRow, name: &VersionName) -> bool
    ensures { result ≡ is_row_of name.now row.now }
{
    match (name, &row.name) {
        (VersionName::Snap(one), VersionName::Snap(other)) => *other == *one,
        (VersionName::Mark(one), VersionName::Mark(other)) => *other == *one,
        (VersionName::Snap(_), VersionName::Mark(_))
        | (VersionName::Mark(_), VersionName::Snap(_)) => false,
    }
}

/// Whether a row is the bookmark of this name.
pub(crate) fn is_mark_of(row: &VersionRow, name: &MarkName) -> bool
    ensures { result ≡ is_row_of (Mark name.now) row.now }
{
    match &row.name {
        VersionName::Snap(_) => false,
        VersionName::Mark(other) => *other == *name,
    }
}

/// Whether a row is the snapshot of this name.
pub(crate) fn is_snap_named(row: &VersionRow, name: &SnapName) -> bool
    ensures { result ≡ is_row_of (Snap name.now) row.now }
{
    match &row.name {
        VersionName::Snap(other) => *other == *name,
        VersionName::Mark(_) => false,
    }
}

pub(crate) fn has_snap(rows: &[VersionRow], name: &SnapName) -> bool
    ensures { result ≡ list_any (is_row_of (Snap name.now)) rows.now }
{
    rows.iter().any(|row| is_snap_named(row, name))
}

pub(crate) fn is_among(names: &[SnapName], name: &SnapName) -> bool
    ensures { result ≡ is_among names.now name.now }
{
    names.iter().any(|other| *other == *name)
}

pub(crate) fn has_mark(marks: &[VersionRow], name: &MarkName) -> bool
    ensures { result ≡ list_any (is_row_of (Mark name.now)) marks.now }
{
    marks.iter().any(|row| is_mark_of(row, name))
}

pub(crate) fn has_cursor(marks: &[VersionRow], job: &JobName, guid: Guid) -> bool
    ensures { result ≡ list_any (is_cursor_of job.now guid) marks.now }
{
    marks.iter().any(|row| is_cursor_of(row, job, guid))
}

/// The first snapshot of a listing that has this name.
pub(crate) fn snap_row<'a>(rows: &'a [VersionRow], name: &VersionName) -> Option<&'a VersionRow>
    ensures { option_copied result ≡ find (λ row. is_snap row && is_row_of name.now row) rows.now }
{
    rows.iter().find(|row| is_snap(row) && is_row_of(row, name))
}

/// The first row that has this name.
pub(crate) fn row_of<'a>(rows: &'a [VersionRow], name: &VersionName) -> Option<&'a VersionRow>
    ensures { option_copied result ≡ find (is_row_of name.now) rows.now }
{
    rows.iter().find(|row| is_row_of(row, name))
}

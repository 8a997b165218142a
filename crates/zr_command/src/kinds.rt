//! What the rows of a listing are to a job.

ghost use Rattle.std.specs.Prelude.{◌≡◌};
ghost use Rattle.std.specs.Option.{option_copied};
ghost use Rattle.zr_command.specs.Kinds.{is_cursor, is_cursor_of, is_snap, is_snap_of, is_tentative, is_tentative_of, kind_in, newest};

use crate::version::{VersionName, VersionRow};
use zr_names::{Guid, JobName, MarkKind, mark_of};

/// Whether a row is a snapshot.
pub fn is_snap(row: &VersionRow) -> bool
    ensures { result ≡ is_snap row.now }
{
    matches!(row.name, VersionName::Snap(_))
}

/// Whether a row is a snapshot with this guid.
pub fn is_snap_of(row: &VersionRow, guid: Guid) -> bool
    ensures { result ≡ is_snap_of guid row.now }
{
    is_snap(row) && row.guid.0 == guid.0
}

/// What a version is to a job, by its name. A snapshot is no mark.
pub fn kind_in(name: &VersionName, job: &JobName) -> MarkKind
    ensures { result ≡ kind_in job.now name.now }
{
    match name {
        VersionName::Snap(_) => MarkKind::Other,
        VersionName::Mark(mark) => mark_of(mark, job),
    }
}

/// Whether a mark is the cursor of a guid.
pub fn is_cursor(kind: MarkKind, guid: Guid) -> bool
    ensures { result ≡ is_cursor guid kind }
{
    match kind {
        MarkKind::Cursor(own) => own.0 == guid.0,
        MarkKind::Tentative(_) | MarkKind::OldCursor | MarkKind::Other => false,
    }
}

/// Whether a mark is the tentative cursor of a guid.
pub fn is_tentative(kind: MarkKind, guid: Guid) -> bool
    ensures { result ≡ is_tentative guid kind }
{
    match kind {
        MarkKind::Tentative(own) => own.0 == guid.0,
        MarkKind::Cursor(_) | MarkKind::OldCursor | MarkKind::Other => false,
    }
}

/// Whether a row is the job's cursor of a guid.
pub fn is_cursor_of(row: &VersionRow, job: &JobName, guid: Guid) -> bool
    ensures { result ≡ is_cursor_of job.now guid row.now }
{
    is_cursor(kind_in(&row.name, job), guid)
}

/// Whether a row is the job's tentative cursor of a guid.
pub fn is_tentative_of(row: &VersionRow, job: &JobName, guid: Guid) -> bool
    ensures { result ≡ is_tentative_of job.now guid row.now }
{
    is_tentative(kind_in(&row.name, job), guid)
}

/// The last snapshot of a listing.
pub fn newest<'a>(rows: &'a [VersionRow]) -> Option<&'a VersionRow>
    ensures { option_copied result ≡ newest rows.now }
{
    rows.iter().rev().find(|row| is_snap(row))
}

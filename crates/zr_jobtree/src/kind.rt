//! The type of a job, which says which fields it has.

ghost use Rattle.std.specs.Prelude.{◌≡◌, ◌≢◌, IfErr, IfOk};
ghost use Rattle.zr_jobwalk.specs.Faults.{HasFault, IsBad, field_of};
ghost use Rattle.zr_jobwalk.specs.Tables.{section};
ghost use Rattle.zr_jobwalk.specs.Texts.{ReadsText};
ghost use Rattle.zr_jobwalk.specs.Values.{Has, IsText};
ghost use Rattle.zr_jobtree.specs.Kinds.{IsKind, fields_of};

use zr_jobset::JobKind;
use zr_jobwalk::{Field, JobFault, Table, Unread};

/// The fields that a job of this kind has.
pub(crate) fn fields_of(kind: JobKind) -> &'static [Field]
    ensures { result.now ≡ fields_of kind }
{
    match kind {
        JobKind::Push => &[
            Field::Name,
            Field::Type,
            Field::Connect,
            Field::Filesystems,
            Field::Snapshotting,
            Field::Replication,
            Field::ConflictResolution,
            Field::Pruning,
        ],
        JobKind::Pull => &[
            Field::Name,
            Field::Type,
            Field::Connect,
            Field::RootFs,
            Field::Interval,
            Field::Replication,
            Field::ConflictResolution,
            Field::Pruning,
        ],
        JobKind::Sink => &[Field::Name, Field::Type, Field::Serve, Field::RootFs],
        JobKind::Source => &[
            Field::Name,
            Field::Type,
            Field::Serve,
            Field::Filesystems,
            Field::Snapshotting,
        ],
        JobKind::Snap => &[
            Field::Name,
            Field::Type,
            Field::Filesystems,
            Field::Snapshotting,
            Field::Pruning,
        ],
    }
}

fn kind_in(text: &[u8]) -> Result<JobKind, Unread>
    ensures { ReadsText IsKind text.now result }
{
    if text == b"push".as_slice() {
        Ok(JobKind::Push)
    } else if text == b"pull".as_slice() {
        Ok(JobKind::Pull)
    } else if text == b"sink".as_slice() {
        Ok(JobKind::Sink)
    } else if text == b"source".as_slice() {
        Ok(JobKind::Source)
    } else if text == b"snap".as_slice() {
        Ok(JobKind::Snap)
    } else {
        Err(Unread::Bad)
    }
}

/// The kind of a job, its type.
pub(crate) fn kind_of(table: &Table<'_>) -> Result<JobKind, JobFault>
    ensures kind { IfOk result
        (λ kind. Has (IsText IsKind) (field_of (section table.now) Field.Type) kind) }
    ensures fault { IfErr result (λ fault. fault ≢ JobFault.NoMemory
        → HasFault (IsBad (IsText IsKind)) (section table.now) Field.Type fault) }
{
    let text = table.text(Field::Type)?;
    match kind_in(text) {
        Ok(kind) => Ok(kind),
        Err(unread) => Err(table.unread(Field::Type, unread)),
    }
}

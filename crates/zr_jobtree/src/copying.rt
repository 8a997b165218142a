//! How a client replicates: its fields `replication` and `conflict_resolution`.

ghost use Rattle.std.specs.Prelude.{◌≢◌, IfErr, IfOk};
ghost use Rattle.zr_jobwalk.specs.Tables.{section};
ghost use Rattle.zr_jobtree.specs.Copying.{CopyingFault, IsCopying};

use zr_jobwalk::{JobFault, Replication, Table, initial_of, replication_of};
use zr_names::Initial;

/// How a push or pull job replicates.
#[derive(Clone, Copy)]
pub(crate) struct Copying {
    pub(crate) replication: Replication,
    /// Which snapshots are replicated first.
    pub(crate) first: Initial,
}

pub(crate) fn copying_of(table: &Table<'_>) -> Result<Copying, JobFault>
    ensures copying { IfOk result (λ copying. IsCopying (section table.now).members copying) }
    ensures fault { IfErr result
        (λ fault. fault ≢ JobFault.NoMemory → CopyingFault (section table.now) fault) }
{
    let replication = replication_of(table)?;
    let first = initial_of(table)?;
    Ok(Copying { replication, first })
}

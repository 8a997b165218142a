//! A unit of work: what is done, on which dataset, of which job and when.

ghost use Rattle.std.specs.Prelude.{◌≡◌, IfOk};

use crate::moment::Moment;
use crate::names::{Path, Prefix};
use std::alloc::AllocError;

/// What ZFS gives each snapshot and what it keeps in each copy of it (zfs(8), property `guid`).
#[derive(Clone, Copy, PartialEq, Eq, PartialOrd, Ord)]
pub struct Guid(pub u64);

/// What a unit of work does, and on which dataset.
#[derive(Drop)]
pub enum Work {
    /// Lists the datasets and finds the job's other units.
    Scan,
    /// Makes the missing datasets between a root and its targets.
    Parents,
    /// Takes a snapshot of a dataset, named by the prefix.
    Snap(Path, Prefix),
    /// Replicates a source dataset to its target.
    Replicate(Path),
    /// Destroys the snapshots of a source dataset that no rule keeps.
    PruneSource(Path),
    /// Destroys the snapshots of the target of a source dataset that no rule keeps.
    PruneTarget(Path),
}

/// One piece of work of a job, by the job's place in the job file, and the moment of its scan.
#[derive(Drop)]
pub struct Unit {
    pub job: u32,
    pub moment: Moment,
    pub work: Work,
}

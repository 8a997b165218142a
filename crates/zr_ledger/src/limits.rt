//! How many units of a job and of all jobs may be out at one time.

ghost use Rattle.std.specs.Prelude.{◌≡◌, IfOk, slice_index};

use std::alloc::{AllocError, Global};
use zr_names::Rows;

/// How many replications may be out at the same time, and whether the ledger lists once.
#[derive(Drop)]
pub struct Limits {
    /// For each job of the job file, sinks among them: at most so many of its replications.
    pub steps: Rows<u32>,
    /// At most so many replications of all jobs.
    pub replicators: u32,
    /// Whether each unit that is no snapshot is added, though its like waits or is out. In a run that lists
    /// once no such unit comes twice.
    pub once: bool,
}

impl Limits {
    /// How many replications of a job may be out, none of a job that has no limit.
    pub(crate) fn steps_of(&self, job: u32) -> u32
        ensures { result ≡ slice_index self.now.steps job }
    {
        self.steps
            .as_slice()
            .get(job as usize)
            .copied()
            .unwrap_or(0)
    }

    /// The same limits in memory of their own.
    pub(crate) fn copy(&self, alloc: Global) -> Result<Limits, AllocError>
        ensures { IfOk result (λ limits. limits ≡ self.now) }
    {
        Ok(Limits {
            steps: Rows::from_vec(Vec::from_slice(alloc, self.steps.as_slice())?),
            replicators: self.replicators,
            once: self.once,
        })
    }
}

//! The job file: which bytes are accepted, and the jobs that they give.
#![tactic(auto)]

ghost use Rattle.zr_jobfile.specs.JobFile.{ReadsJobs};

mod building;
pub mod laws;
mod nodes;
mod push_shape;
mod shape;
mod snap_shape;

pub use nodes::node_of;
use std::alloc::{AllocError, AllocFailed, Global};
use toml::table_from_slice;
use zr_jobset::JobSet;

/// The longest job file, in bytes.
pub const FILE_LIMIT: usize = 1_048_576;

/// Why a file gives no jobs.
#[derive(Clone, Copy, PartialEq, Eq)]
pub enum JobFault {
    /// The file is longer than `FILE_LIMIT`.
    TooManyBytes,
    /// The bytes are no TOML document (TOML v1.0.0, which asks for UTF-8).
    NotToml,
    /// The document has another shape than the two job files that are read, or its jobs do not go together.
    NotBuilt,
    NoMemory,
}

impl From<AllocError> for JobFault {
    ghost use Rattle.std.specs.Prelude.{◌≡◌};
    ghost use Rattle.zr_jobfile.specs.declared.JobFault.TheVariants.{NoMemory};

    ghost from_gives = { λ _ fault. fault ≡ NoMemory };

    fn from(_error: AllocError) -> JobFault {
        JobFault::NoMemory
    }
}

impl<T: Drop> From<AllocFailed<T>> for JobFault {
    ghost use Rattle.std.specs.Prelude.{◌≡◌};
    ghost use Rattle.zr_jobfile.specs.declared.JobFault.TheVariants.{NoMemory};

    ghost from_gives = { λ _ fault. fault ≡ NoMemory };

    fn from(_error: AllocFailed<T>) -> JobFault {
        JobFault::NoMemory
    }
}

/// Reads a job file, as the documentation of zrepl writes it: with one snap job ("Job Type snap"), which has one
/// filesystem pattern, manual snapshotting, and one rule `last_n`; or with a push job of one filesystem, manual
/// snapshotting and no rules, and behind it the sink job whose listener it connects to ("Job Types push & sink").
pub fn read_jobs(alloc: Global, bytes: &[u8]) -> Result<JobSet, JobFault>
    ensures { ReadsJobs bytes.now result }
{
    if bytes.len() > FILE_LIMIT {
        return Err(JobFault::TooManyBytes);
    }
    match table_from_slice(alloc, bytes) {
        Ok(tree) => building::build(alloc, &tree),
        Err(error) => Err(if error.is_memory() {
            JobFault::NoMemory
        } else {
            JobFault::NotToml
        }),
    }
}

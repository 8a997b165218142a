//! A source with its target.

use zr_names::{JobName, Path};

/// What is replicated: the job, the source, the target, and the root below which the job's targets lie.
#[derive(Drop)]
pub struct Pair {
    pub job: JobName,
    pub source: Path,
    pub target: Path,
    pub root: Path,
}

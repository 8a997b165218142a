//! The job file as a tree: what its root and each kind of job take, and the walk that gives its jobs. Apart from the
//! tables inside a job, which `zr_jobwalk` and `zr_jobrules` read. The walk tells of the first fault in the order of the
//! documentation; only a tree without one is checked as a whole.
#![tactic(auto)]

mod copying;
mod file;
mod job;
mod kind;
mod kinds;
mod root;

pub use file::walk;
pub use zr_jobwalk::{DottedName, JobFault, Many};

//! The jobs of a file as a whole: their kinds and fields, the eight checks of a set, and where a job of a checked set
//! puts what it replicates. A set is checked once, when it is made; its type keeps that no check fails, so that what rests
//! on it (targets differ, no source lies in a root, each grid can be read) needs no condition at every call.
#![tactic(auto)]

mod checking;
mod checks;
mod fields;
mod job;
mod places;
mod set;
mod units;

pub use checking::{CheckFault, check};
pub use checks::Check;
pub use fields::{MAX_STEPS, are_jobs};
pub use job::{Job, JobKind, Policy};
pub use places::{filter_of, target_of};
pub use set::{JobSet, MAX_JOBS};
pub use zr_jobs::TargetFault;

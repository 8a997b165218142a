//! What a replication of one dataset does next, read off the versions of its source and its target.
#![tactic(auto)]

pub use planning::plan;
pub use source::Source;
pub use target::{Conflict, Planned, Step, Target, TokenInfo};

pub mod laws;
pub mod planning;
pub mod source;
pub mod target;

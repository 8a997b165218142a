//! Where a job puts what it replicates: the identity of a client, destinations, and the targets of sources.
#![tactic(auto)]

pub use identity::{Identity, IdentityFault, read_identity};
pub use pair::Pair;
pub use target::{Destination, LONGEST_PATH, TargetFault, target_length, target_of};

pub mod identity;
pub mod laws;
pub mod pair;
pub mod target;

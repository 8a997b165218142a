//! Which commands a unit of work may give, and units that give no others.
#![tactic(auto)]

pub use guarded::{Guarded, Unbegun};
pub use keep::doomed;
pub use log::Log;
pub use told::Told;

pub mod guarded;
pub mod keep;
pub mod laws;
pub mod log;
pub mod told;

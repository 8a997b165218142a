//! What a replication unit knows after each of its turns, and what it may give by that.
#![tactic(auto)]

pub use known::{Known, Presence, Receiving, Side};
pub use straight::NOT_STRAIGHT;

mod deciding;
pub mod known;
pub mod laws;
mod marking;
mod sending;
pub mod straight;
mod telling;
mod updates;
mod versions;

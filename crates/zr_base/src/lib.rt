//! What every crate stands on: byte texts, lists in fields, copies, and want of memory.
#![tactic(auto)]

pub use bytes::Bytes;
pub use memory::NoMemory;
pub use rows::{Rows, same_items};
pub use same::Same;

pub mod bytes;
pub mod memory;
pub mod rows;
pub mod same;

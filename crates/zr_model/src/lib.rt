//! Children in memory: a runner whose children work on pools that it holds.
#![tactic(auto)]

pub use formed::is_well_formed;
pub use mem::MemSpawn;

pub mod formed;
pub mod mem;
mod piping;
pub mod serving;

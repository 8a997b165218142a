//! Filters of filesystems: patterns, which entry counts for a path, and which roots a filter reaches.
#![tactic(auto)]

mod entry;
mod filter;
mod pattern;

pub use entry::FilterEntry;
pub use filter::{Filter, matches, reaches};
pub use pattern::read_pattern;

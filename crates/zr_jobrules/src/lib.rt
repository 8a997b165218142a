//! What the tables `filesystems`, `pruning` and those of rules take: which filesystems a job works on, and by which rules
//! their snapshots are kept. Apart from the other tables of a job, since patterns are built here.
#![tactic(auto)]

mod filesystems;
mod patterns;
mod pruning;
mod rule;
mod rules;

pub use filesystems::{MAX_FILTERS, filter_of};
pub use patterns::MAX_PATTERN;
pub use pruning::{Pruning, keep_of, pruning_of};
pub use rule::MAX_COUNT;
pub use rules::{MAX_RULES, rules_of};

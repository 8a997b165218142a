//! The rules by which snapshots are kept.
#![tactic(auto)]

mod compiling;
mod counting;
mod keeping;
mod marking;
mod ordering;
mod pattern;
mod patterns;
mod rule;
mod seeing;

pub use compiling::{RuleFault, Rules, compile, have_grids};
pub use keeping::kept;
pub use patterns::{BuildFault, Patterns, RegexPatterns};
pub use rule::{PatternText, RuleRow, RuleSpec};

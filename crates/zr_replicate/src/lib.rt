//! The unit of work that replicates a dataset to its target.
//!
//! It lists both sides (`listing`), and goes on only where the pair is straight. Then it goes step by step (`steps`): a
//! snapshot is held, sent and settled (`settlement`), and the next step is planned by what is known after it. Each command
//! stands in `stages` with what it wants and what is known after it. So at every moment either the target's newest snapshot
//! has its cursor and its hold, or what the step before it left is still there.
#![tactic(auto)]

pub use replication::replicate;

mod commands;
mod listing;
mod replication;
mod settlement;
mod stages;
mod steps;

//! The tests of plans, of what a replication knows, and of what a unit may do.
#![tactic(auto)]

#[cfg(test)]
mod tests;

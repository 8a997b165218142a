//! Tests of the crates that choose by time and by rules: spans and grids, keep rules, cron texts, stamps.
//! They go over public items alone, and stand apart since a crate with tests is proved twice.
#![tactic(auto)]

#[cfg(test)]
mod tests;

//! Tests of the checks of a set of jobs, and of the filters and targets of its jobs, over public items alone.
//! They stand apart since a crate with tests is proved twice.
#![tactic(auto)]

#[cfg(test)]
mod tests;

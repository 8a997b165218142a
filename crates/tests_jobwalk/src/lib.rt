//! Tests of the tables of a job file, over public items alone. They stand apart since a crate with tests is proved twice.
#![tactic(auto)]

#[cfg(test)]
mod tests;

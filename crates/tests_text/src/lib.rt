//! Tests of the crates that read and write texts, over their public items alone.
//! They stand apart since a crate with tests is proved twice.
#![tactic(auto)]

#[cfg(test)]
mod tests;

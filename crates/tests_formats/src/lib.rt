//! Tests of the crates that read and write what `zfs` and an administrator write: words, listings, job files.
//! They go over public items alone, and stand apart since a crate with tests is proved twice.
#![tactic(auto)]

#[cfg(test)]
mod tests;

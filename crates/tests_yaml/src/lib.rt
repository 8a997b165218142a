//! Tests of the reader of `zrepl.yml`, over its public items alone.
//! They stand apart since a crate with tests is proved twice.
#![tactic(auto)]

#[cfg(test)]
mod tests;

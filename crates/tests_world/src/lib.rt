//! The tests of the model and of the children that work on it.
#![tactic(auto)]

#[cfg(test)]
mod tests;

//! One module for what is asked of a set.
mod sets;

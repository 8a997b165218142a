//! One module for each crate under test.
mod grid;
mod rules;
mod schedule;
mod time;

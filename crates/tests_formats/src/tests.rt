//! One module for each crate under test.
mod cmd;
mod jobfile;
mod listing;
mod names;

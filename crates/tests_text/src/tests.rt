//! One module for each crate under test.
mod filter;
mod jobs;
mod names;
mod pipe;

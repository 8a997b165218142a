//! Children that run commands, how they end, and the runner of ZFS commands over them.
#![tactic(auto)]

pub use cli::CliZfs;
pub use spawn::{Call, LISTING_LIMIT, Line, PipeExit, Piped, RunExit, Spawn};

pub mod cli;
pub mod laws;
pub mod spawn;

//! The commands that are given to ZFS, what answers them, and what the rows of its listings are to a job.
#![tactic(auto)]

pub use command::{Answer, Base, Cmd, Entry, Reply, Transfer};
pub use kinds::{
    is_cursor, is_cursor_of, is_snap, is_snap_of, is_tentative, is_tentative_of, kind_in, newest,
};
pub use names::{NAMES_LIMIT, Names, NamesFault, read_names};
pub use version::{SetRow, TokenInfo, VersionName, VersionRow};

pub mod command;
pub mod kinds;
pub mod names;
pub mod version;

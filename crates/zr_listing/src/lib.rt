//! The listings of datasets, and of the snapshots and bookmarks of one dataset, as `zfs list -H -p` prints them, of the
//! holds of one snapshot, as `zfs holds -H` does, and of what a resume token says, as `zfs send -nvt` does.
#![tactic(auto)]

pub use faults::ListFault;
pub use holds::read_holds;
pub use print::{print_holds, print_sets, print_versions};
pub use sets::read_sets;
pub use token::{TokenLine, print_token, read_token};
pub use versions::read_versions;

mod columns;
pub mod faults;
pub mod holds;
mod lines;
mod names;
pub mod print;
pub mod sets;
pub mod token;
pub mod versions;

//! The one spelling of tests: pools, commands, planned failures, rows and answers as text.
//!
//! Pools are `now 9000 txg 100 guid 500;tank @a:11:1:1011 #a:11;` and so on: the counters and then each dataset, with a
//! `;` behind each. A dataset is its path, `placeholder`, `partial TO FROM SOURCE` and its versions. A version is
//! `@name:guid:txg:creation[tag,tag]`, or with one number where the three are the same; `~` in a tag stands for a blank.
#![tactic(auto)]

pub use answers::answer_text;
pub use blocks::{Asked, ask_of, before, difference, push_line, written};
pub use commands::{command_of, extent_of, failing_of, name_of};
pub use pools::{changed, pools_of};
pub use rows::{rows_of, tags_of};
pub use words::{job, number, path, shown, snap, word};

pub mod answers;
pub mod blocks;
pub mod commands;
pub mod pools;
pub mod rows;
pub mod words;

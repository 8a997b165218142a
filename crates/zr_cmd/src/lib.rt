//! The words of the calls of `zfs`, written and read.
#![tactic(auto)]

pub use argv::{Argv, ArgvFault, argv_of};
pub use forms::ZfsCall;
pub use reading::read_argv;
pub use words::Words;

pub mod argv;
pub mod cutting;
pub mod forms;
pub mod laws;
pub mod reading;
pub mod words;

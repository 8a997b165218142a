//! The calls that the program makes: a command line from its words to the printed lines and the status.
#![tactic(auto)]

pub use clock::{Clock, MemClock};
pub use files::{Files, MemFiles, ReadFault, StoredFile};
pub use report::totals_line;
pub use status::Status;
pub use top::zrepl;

pub mod clock;
pub mod files;
pub mod laws;
pub mod once;
pub mod printing;
pub mod report;
pub mod rules;
pub mod running;
pub mod status;
pub mod top;
pub mod words;

//! How a table of cases is gone through: a line for each case, `ask => want`, under headings `# ..`.

use std::alloc::{AllocError, AllocFailed};
use std::process::Abort;
use zr_names::{NameFault, NoMemory};

/// A line can't be read, or memory was refused.
#[derive(Clone, Copy)]
pub struct Unread;

impl From<AllocError> for Unread {
    fn from(_error: AllocError) -> Unread {
        Unread
    }
}

impl<T: Drop> From<AllocFailed<T>> for Unread {
    fn from(_error: AllocFailed<T>) -> Unread {
        Unread
    }
}

impl From<NoMemory> for Unread {
    fn from(_error: NoMemory) -> Unread {
        Unread
    }
}

impl From<NameFault> for Unread {
    fn from(_fault: NameFault) -> Unread {
        Unread
    }
}

fn halves(line: &str) -> (&str, &str) {
    line.split_once(" => ").unwrap_or((line, "an answer"))
}

/// What a line asks; a heading asks nothing.
pub fn ask_of(line: &str) -> Option<&str> {
    if line.is_empty() || line.starts_with("# ") {
        return None;
    }
    Some(halves(line).0)
}

/// What came out is what the line wants.
pub fn check<R: Abort>(rt: &R, line: &str, said: Result<String, Unread>) {
    match said {
        Ok(said) => assert!(rt; said.as_str() == halves(line).1, "{line}: {said}"),
        Err(Unread) => panic!(rt; "{line}: this can't be read, or memory was refused"),
    }
}

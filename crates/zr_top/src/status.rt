//! The status that a call ends with, as an exit code.

use zr_names::Totals;

/// How a call ends.
#[derive(Clone, Copy, PartialEq, Eq)]
pub enum Status {
    Clean,
    /// The words are no command.
    Usage,
    /// The job file is refused.
    JobFile,
    /// A unit ended in a conflict, or a name is too long.
    Conflict,
    /// A child failed and ended a unit.
    ChildFault,
    /// A listing was not in its grammar and ended a unit.
    Garbled,
    /// The job file can't be read.
    Unreadable,
    /// The output can't be written.
    Unwritable,
    OutOfMemory,
}

impl Status {
    ghost use Rattle.std.specs.Prelude.{◌≡◌, ◌≢◌};
    ghost use Rattle.zr_top.specs.Status.{code_of, status_of};

    /// The program's exit status.
    pub fn code(self) -> u8
        ensures { result ≡ code_of self }
    {
        match self {
            Status::Clean => 0,
            Status::Usage => 2,
            Status::JobFile => 3,
            Status::Conflict => 4,
            Status::ChildFault => 5,
            Status::Garbled => 6,
            Status::Unreadable => 7,
            Status::Unwritable => 8,
            Status::OutOfMemory => 9,
        }
    }

    /// How units ended, by their totals: the first of want of memory, a garbled listing, a failed child,
    /// and a conflict or a name too long.
    pub fn of(totals: &Totals) -> Status
        ensures of { result ≡ status_of totals.now }
        ensures no_output { result ≢ Status.Unwritable }
    {
        if totals.nomemory > 0 {
            Status::OutOfMemory
        } else if totals.garbled > 0 {
            Status::Garbled
        } else if totals.faults > 0 {
            Status::ChildFault
        } else if totals.conflicts > 0 || totals.toolong > 0 {
            Status::Conflict
        } else {
            Status::Clean
        }
    }
}

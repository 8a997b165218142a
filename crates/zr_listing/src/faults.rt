//! Why bytes are no listing.

use std::alloc::{AllocError, AllocFailed};
use zr_names::NameFault;

/// Why a listing gives no rows.
#[derive(Clone, Copy, PartialEq, Eq)]
pub enum ListFault {
    /// The line of this number, counted from 1, is the first that is not of its form.
    Garbled(u64),
    NoMemory,
}

/// Why one line gives no row.
#[derive(Clone, Copy, PartialEq, Eq)]
pub(crate) enum LineFault {
    Bad,
    NoMemory,
}

impl From<AllocError> for ListFault {
    ghost use Rattle.std.specs.Prelude.{◌≡◌};
    ghost use Rattle.zr_listing.specs.declared.faults.ListFault.TheVariants.{NoMemory};

    ghost from_gives = { λ _ fault. fault ≡ NoMemory };

    fn from(_error: AllocError) -> ListFault {
        ListFault::NoMemory
    }
}

impl<T: Drop> From<AllocFailed<T>> for ListFault {
    ghost use Rattle.std.specs.Prelude.{◌≡◌};
    ghost use Rattle.zr_listing.specs.declared.faults.ListFault.TheVariants.{NoMemory};

    ghost from_gives = { λ _ fault. fault ≡ NoMemory };

    fn from(_error: AllocFailed<T>) -> ListFault {
        ListFault::NoMemory
    }
}

impl From<NameFault> for LineFault {
    ghost use Rattle.std.specs.Prelude.{◌≡◌};
    ghost use Rattle.zr_listing.specs.Reading.{line_fault};

    ghost from_gives = { λ fault line. line ≡ line_fault fault };

    fn from(fault: NameFault) -> LineFault {
        match fault {
            NameFault::NoMemory => LineFault::NoMemory,
            NameFault::Empty | NameFault::BadByte(_) | NameFault::TooLong(_) => LineFault::Bad,
        }
    }
}

//! Why a tree is no job file.

use crate::name::DottedName;
use std::alloc::AllocError;
use zr_jobset::CheckFault;
use zr_names::NoMemory;

/// What a job file may not have too many of.
#[derive(Clone, Copy)]
pub enum Many {
    Bytes,
    Jobs,
    Filters,
    Rules,
}

/// Why a job file gives no jobs. The names are those of fields, with the tables that they stand in.
#[derive(Drop)]
pub enum JobFault {
    /// The bytes are no document of the format; told by the readers of formats alone.
    NotToml,
    Missing(DottedName),
    BadValue(DottedName),
    UnknownField(DottedName),
    /// The pattern of this field was refused.
    BadRegex(DottedName),
    Check(CheckFault),
    TooMany(Many),
    NoMemory,
}

impl From<AllocError> for JobFault {
    ghost use Rattle.std.specs.Prelude.{◌≡◌};
    ghost use Rattle.zr_jobwalk.specs.declared.fault.JobFault.TheVariants.{NoMemory};

    ghost from_gives = { λ _ fault. fault ≡ NoMemory };

    fn from(_error: AllocError) -> JobFault {
        JobFault::NoMemory
    }
}

//! Why a text, and a part of a line, was not read.

use std::alloc::{AllocError, AllocFailed};

/// Why a text is no document.
#[derive(Clone, Copy, PartialEq, Eq)]
pub enum YamlFault {
    /// The first line, counted from 1, with which the text can begin no document any more.
    BadYaml(u64),
    NoMemory,
}

/// Why a part of a line was not read.
#[derive(Clone, Copy)]
pub(crate) enum Stop {
    /// The line is none of the profile.
    Bad,
    NoMemory,
}

impl From<AllocError> for Stop {
    ghost use Rattle.std.specs.Prelude.{◌≡◌};
    ghost use Rattle.zr_yaml.specs.declared.fault.Stop.TheVariants.{NoMemory as Wanting};

    ghost from_gives = { λ _ stop. stop ≡ Wanting };

    fn from(_error: AllocError) -> Stop {
        Stop::NoMemory
    }
}

impl<T: Drop> From<AllocFailed<T>> for Stop {
    ghost use Rattle.std.specs.Prelude.{◌≡◌};
    ghost use Rattle.zr_yaml.specs.declared.fault.Stop.TheVariants.{NoMemory as Wanting};

    ghost from_gives = { λ _ stop. stop ≡ Wanting };

    fn from(_failed: AllocFailed<T>) -> Stop {
        Stop::NoMemory
    }
}

//! A unit that is to be added.

use std::alloc::AllocError;
use std::marker::Model;
use zr_names::{Same, Unit};

/// A unit with the copies that a ledger needs of it: two that wait, and one for the history.
#[derive(Drop)]
pub(crate) struct Spare {
    unit: Unit,
    twin: Unit,
    noted: Unit,
}

impl Model for Spare {
    ghost use Rattle.std.specs.Prelude.{◌≡◌};
    ghost use Rattle.zr_names.specs.declared.unit.Unit.{Unit as TheUnit};

    ghost Value = { TheUnit };

    ghost view = { λ s. s.unit };

    ghost invariant = { λ s. (s.twin ≡ s.unit) × (s.noted ≡ s.unit) };
}

impl Spare {
    ghost use Rattle.std.specs.Prelude.{◌≡◌, IfOk};

    pub(crate) fn of(unit: Unit) -> Result<Spare, AllocError>
        ensures { IfOk result (λ spare. spare ≡ unit) }
    {
        let twin = unit.same()?;
        let noted = unit.same()?;
        Ok(Spare { unit, twin, noted })
    }

    pub(crate) fn job(&self) -> usize
        ensures { result ≡ self.now.job }
    {
        self.unit.job as usize
    }

    pub(crate) fn into_parts(self) -> (Unit, Unit, Unit)
        ensures unit { result.0 ≡ self }
        ensures twin { result.1 ≡ self }
        ensures noted { result.2 ≡ self }
    {
        let Spare { unit, twin, noted } = self;
        (unit, twin, noted)
    }
}

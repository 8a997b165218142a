//! What a worker holds: the ticket of its unit.

use std::alloc::AllocError;
use std::marker::Model;
use zr_names::{Same, Unit};

/// The leave to run one unit, with the number of the run. No two runs of a ledger have one number.
#[derive(Drop)]
pub struct Ticket {
    unit: Unit,
    run: u64,
}

impl Model for Ticket {
    ghost use Rattle.zr_ledger.specs.Out.{Out};

    ghost Value = { Out };

    ghost view = { λ t. record { unit = t.unit; run = t.run } };
}

impl Ticket {
    ghost use Rattle.std.specs.Prelude.{◌≡◌};

    pub(crate) fn new(unit: Unit, run: u64) -> Ticket
        ensures unit { result.unit ≡ unit }
        ensures run { result.run ≡ run }
    {
        Ticket { unit, run }
    }

    pub fn unit(&self) -> &Unit
        ensures { result.now ≡ self.now.unit }
    {
        &self.unit
    }

    pub fn run(&self) -> u64
        ensures { result ≡ self.now.run }
    {
        self.run
    }
}

impl Same for Ticket {
    fn same(&self) -> Result<Ticket, AllocError> {
        Ok(Ticket {
            unit: self.unit.same()?,
            run: self.run,
        })
    }
}

/// What a worker does next.
#[derive(Drop)]
pub enum Turn {
    /// Run this unit, and give the ticket back.
    Work(Ticket),
    /// Nothing is ready, and the clock is here: take it, and find out what is due.
    TickYourself,
    /// Nothing is ready. What is out, the clock or a unit, may change that once it is back.
    Wait,
    /// Nothing comes any more.
    Ended,
}

/// A ticket whose unit isn't out here.
#[derive(Drop)]
pub struct Stranger(pub Ticket);

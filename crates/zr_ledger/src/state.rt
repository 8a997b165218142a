//! The state from which a ledger came, and what happened since.

use crate::counts::Counts;
use crate::limits::Limits;
use crate::ticket::Ticket;
use zr_names::{Outcome, Rows, Unit};

/// With so many entries or more, the history begins anew at the next `add`.
pub const HISTORY_LIMIT: usize = 65_536;

/// A ledger but for its clock.
#[derive(Drop)]
pub struct State {
    pub limits: Limits,
    /// The units that wait, in the order of adding.
    pub waiting: Rows<Unit>,
    /// The units that are out, in the order of taking.
    pub outs: Rows<Ticket>,
    pub counts: Counts,
}

/// What happened to a ledger.
#[derive(Drop)]
pub enum Entry {
    /// The first unit that was ready was taken.
    Take,
    /// The unit at this place among those that were out was given back.
    Give(usize, Outcome),
    /// A unit was added.
    Add(Unit),
    /// What was out was given up.
    Recall,
}

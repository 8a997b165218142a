//! The ledger that the workers share: which units of work wait, which are out, and whose turn it is.
//!
//! A worker asks it by `take` and runs the unit of the ticket that it gets; then it hands the ticket back by
//! `give`. A unit that waits may start where its seat is free and nothing that waits or is out has to come
//! before it (`specs/Ready.antt` has the list). The state is at each moment the replay of the history from the
//! base, so what workers share under one lock is what one thread would have done in the order of the lock.
//!
//! The one trap: only `new` and `add` take memory. `add` makes the room for all that later calls write down,
//! so a unit that was begun can always be given back.
#![tactic(auto)]

pub use counts::{Counts, Kinds};
pub use ledger::Ledger;
pub use limits::Limits;
pub use state::{Entry, HISTORY_LIMIT, State};
pub use ticket::{Stranger, Ticket, Turn};

mod adding;
mod counts;
pub mod laws;
mod ledger;
mod limits;
mod line;
mod outs;
mod queue;
mod ready;
mod seats;
mod slots;
mod spare;
mod state;
mod steps;
mod ticket;

//! The job file as a tree, in whichever format it is written: what each of its tables takes, and which fault is told of
//! the others. Each table has a function of its own here, and in `specs` what it takes and its first fault, in the order
//! of the documentation: a key that is none of its fields first, then the fields.
#![tactic(auto)]

mod array;
mod connecting;
mod fault;
mod field;
mod line;
mod name;
mod replicating;
mod scalars;
mod snapshotting;
mod table;
mod texts;

pub use array::Array;
pub use connecting::{Client, client_of, listener_of};
pub use fault::{JobFault, Many};
pub use field::Field;
pub use line::Line;
pub use name::DottedName;
pub use replicating::{Guarantees, Replication, initial_of, replication_of};
pub use snapshotting::{Taking, taking_of};
pub use table::Table;
pub use texts::Unread;

//! A relay of bytes between two ends: the traits of the ends, the relay, ends in memory, and ends over readers and
//! writers.
#![tactic(auto)]

mod ends;
mod input;
mod mem_sink;
mod mem_source;
mod output;
mod pieces;
mod reading;

pub use ends::{Failed, PutFault, Sink, Source};
pub use input::Input;
pub use mem_sink::MemSink;
pub use mem_source::MemSource;
pub use output::Output;
pub use pieces::{LIMIT, PIECE, RelayEnd, relay};
pub use reading::{Reading, read_up_to};

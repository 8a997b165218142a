//! A sink over any `Write`.

ghost use Rattle.std.specs.Prelude.{None};

use crate::ends::{PutFault, Sink};
use std::io;
use std::io::{ErrorKind, Write};

/// A writer as a sink. Each piece is flushed, so that a writer that takes nothing more is seen.
#[derive(Drop)]
pub struct Output<W> {
    writer: W,
    faults: u64,
}

impl<W: Write> Output<W> {
    pub fn new(writer: W) -> Output<W> {
        Output { writer, faults: 0 }
    }
}

/// Writes all of a piece, and out of the writer's own memory.
fn write_out<W: Write>(writer: &mut W, bytes: &[u8]) -> io::Result<()> {
    writer.write_all(bytes)?;
    writer.flush()
}

impl<W: Write> Sink for Output<W> {
    ghost faults = { λ s. s.faults };

    ghost written = { λ _. None };

    fn put(&mut self, bytes: &[u8]) -> Result<(), PutFault> {
        match write_out(&mut self.writer, bytes) {
            Ok(()) => Ok(()),
            Err(fault) if fault.kind() == ErrorKind::OutOfMemory => Err(PutFault::NoMemory),
            Err(_) => {
                self.faults = self.faults.saturating_add(1);
                Err(PutFault::Failed)
            }
        }
    }
}

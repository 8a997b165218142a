//! Relays, as bench/relay.sh times them.

use crate::ends::{Discard, Repeated};
use std::io;
use zr_pipe::{Input, Output, RelayEnd, relay};

/// How a relay ended, and how many bytes it had moved where that is told.
fn end_text(end: RelayEnd) -> (&'static str, u64) {
    match end {
        RelayEnd::Whole(moved) => ("whole", moved),
        RelayEnd::ReadFault(moved) => ("read fault behind", moved),
        RelayEnd::WriteFault(moved) => ("write fault behind", moved),
        RelayEnd::Limit => ("limit", 0),
        RelayEnd::NoMemory => ("no memory", 0),
    }
}

/// Relays, for each line of standard input, as many bytes as the line says from memory to a sink that discards them.
pub fn relay_memory(rt: &HostRuntime) -> io::Result<()> {
    let alloc = rt.alloc();
    for line in rt.lines(alloc) {
        let Ok(length) = line?.as_str().parse::<u64>() else {
            println!(rt; "not a number of bytes")?;
            continue;
        };
        let mut from = Repeated::new(alloc, length)?;
        let mut to = Discard::new();
        let (end, moved) = end_text(relay(alloc, &mut from, &mut to));
        let seen = to.seen();
        println!(rt; "{end} {moved}, last bytes of the pieces {seen}")?;
    }
    Ok(())
}

/// Relays standard input to standard output.
pub fn relay_pipe(rt: &HostRuntime) -> io::Result<()> {
    let mut from = Input::new(rt.stdin());
    let mut to = Output::new(rt.stdout());
    let (end, moved) = end_text(relay(rt.alloc(), &mut from, &mut to));
    eprintln!(rt; "{end} {moved}")
}

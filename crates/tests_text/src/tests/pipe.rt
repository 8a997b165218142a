//! Relays between ends in memory: how one ended, what was written and left, and how often each end was called.
//! A line has the bytes, or how many, and which take and which put fail; or that the sink has no memory at all.

use std::alloc::Global;
use tests_lines::{Unread, ask_of, bytes_of, column, counted, is_wanted, number, text, told};
use zr_pipe::{MemSink, MemSource, PutFault, RelayEnd, Sink, relay};

const CASES: &str = r"
# hello is whole, and nothing is whole
hello | 0 | 0 => whole 5; written 5, left 0; takes 2, of them failed 0; puts 1, of them failed 0
\e | 0 | 0 => whole 0; written 0, left 0; takes 1, of them failed 0; puts 0, of them failed 0
# a source that fails first gives a read fault, and a sink that does a write fault
hello | 1 | 0 => read fault 0; written 0, left 5; takes 1, of them failed 1; puts 0, of them failed 0
hello | 0 | 1 => write fault 0; written 0, left 0; takes 1, of them failed 0; puts 1, of them failed 1
# three pieces of 65,536 bytes and one of 3,392: each end fails at each of its calls in turn
200000 | 0 | 0 => whole 200000; written 200000, left 0; takes 5, of them failed 0; puts 4, of them failed 0
200000 | 1 | 0 => read fault 0; written 0, left 200000; takes 1, of them failed 1; puts 0, of them failed 0
200000 | 2 | 0 => read fault 65536; written 65536, left 134464; takes 2, of them failed 1; puts 1, of them failed 0
200000 | 3 | 0 => read fault 131072; written 131072, left 68928; takes 3, of them failed 1; puts 2, of them failed 0
200000 | 4 | 0 => read fault 196608; written 196608, left 3392; takes 4, of them failed 1; puts 3, of them failed 0
200000 | 5 | 0 => read fault 200000; written 200000, left 0; takes 5, of them failed 1; puts 4, of them failed 0
200000 | 6 | 0 => whole 200000; written 200000, left 0; takes 5, of them failed 0; puts 4, of them failed 0
200000 | 0 | 1 => write fault 0; written 0, left 134464; takes 1, of them failed 0; puts 1, of them failed 1
200000 | 0 | 2 => write fault 65536; written 65536, left 68928; takes 2, of them failed 0; puts 2, of them failed 1
200000 | 0 | 3 => write fault 131072; written 131072, left 3392; takes 3, of them failed 0; puts 3, of them failed 1
200000 | 0 | 4 => write fault 196608; written 196608, left 0; takes 4, of them failed 0; puts 4, of them failed 1
200000 | 0 | 5 => whole 200000; written 200000, left 0; takes 5, of them failed 0; puts 4, of them failed 0
200000 | 3 | 3 => read fault 131072; written 131072, left 68928; takes 3, of them failed 1; puts 2, of them failed 0
200000 | 3 | 2 => write fault 65536; written 65536, left 68928; takes 2, of them failed 0; puts 2, of them failed 1
# want of memory is no write fault
hello | full => no memory";

/// Bytes whose place shows: no two pieces are alike.
fn stream(alloc: Global, length: u64) -> Result<Vec<u8>, Unread> {
    let mut bytes = Vec::new(alloc);
    for place in 0..length {
        bytes.push((place % 251) as u8)?;
    }
    Ok(bytes)
}

fn bytes(alloc: Global, text: &str) -> Result<Vec<u8>, Unread> {
    match text.parse::<u64>() {
        Ok(length) => stream(alloc, length),
        Err(_) => bytes_of(alloc, text),
    }
}

fn end_text(alloc: Global, end: RelayEnd) -> Result<String, Unread> {
    match end {
        RelayEnd::Whole(bytes) => counted(alloc, "whole", bytes),
        RelayEnd::ReadFault(bytes) => counted(alloc, "read fault", bytes),
        RelayEnd::WriteFault(bytes) => counted(alloc, "write fault", bytes),
        RelayEnd::Limit => text(alloc, "limit"),
        RelayEnd::NoMemory => text(alloc, "no memory"),
    }
}

/// What is written is a front of the bytes, and what is left their end.
fn push_parts(out: &mut String, all: &[u8], written: &[u8], left: &[u8]) -> Result<(), Unread> {
    if !all.starts_with(written) || !all.ends_with(left) {
        out.push_str("; other bytes")?;
    }
    write!(out, "; written {}, left {}", written.len(), left.len())?;
    Ok(())
}

fn push_calls(out: &mut String, from: &MemSource, to: &MemSink) -> Result<(), Unread> {
    write!(
        out,
        "; takes {}, of them failed {}",
        from.calls(),
        from.faults()
    )?;
    write!(out, "; puts {}, of them failed {}", to.calls(), to.faults())?;
    Ok(())
}

fn relayed(
    alloc: Global,
    all: &[u8],
    from: &mut MemSource,
    to: &mut MemSink,
) -> Result<String, Unread> {
    let mut out = end_text(alloc, relay(alloc, from, to))?;
    push_parts(&mut out, all, to.written(), from.left())?;
    push_calls(&mut out, from, to)?;
    Ok(out)
}

/// A sink that has no memory at all.
#[derive(Drop)]
struct Full;

impl Sink for Full {
    ghost use Rattle.std.specs.Prelude.{None};

    ghost faults = { λ _. 0 };

    ghost written = { λ _. None };

    fn put(&mut self, _bytes: &[u8]) -> Result<(), PutFault> {
        Err(PutFault::NoMemory)
    }
}

fn source(alloc: Global, all: &[u8], take: &str) -> Result<MemSource, Unread> {
    let bytes = all.to_vec(alloc)?;
    match failing(alloc, take) {
        Ok(failing) => Ok(MemSource::new(bytes, failing)),
        Err(unread) => Err(unread),
    }
}

/// The number of the call that fails; 0 is none.
fn failing(alloc: Global, text: &str) -> Result<Vec<u64>, Unread> {
    let place = number(text)?;
    Ok(vec![in alloc; place; 1]?)
}

fn into_full(alloc: Global, all: &[u8]) -> Result<String, Unread> {
    let mut from = source(alloc, all, "0")?;
    end_text(alloc, relay(alloc, &mut from, &mut Full))
}

fn answer(alloc: Global, all: &[u8], take: &str, put: &str) -> Result<String, Unread> {
    let mut to = MemSink::new(alloc, failing(alloc, put)?);
    match source(alloc, all, take) {
        Ok(mut from) => relayed(alloc, all, &mut from, &mut to),
        Err(unread) => Err(unread),
    }
}

fn said(alloc: Global, ask: &str) -> Result<String, Unread> {
    let mut columns = ask.split(" | ");
    let all = bytes(alloc, column(&mut columns))?;
    match column(&mut columns) {
        "full" => into_full(alloc, all.as_slice()),
        take => answer(alloc, all.as_slice(), take, column(&mut columns)),
    }
}

#[test]
fn relays(rt: HostRuntime) {
    for line in CASES.lines() {
        if let Some(ask) = ask_of(line) {
            let said = said(rt.alloc(), ask);
            assert!(rt; is_wanted(line, &said), "{line}: {}", told(&said));
        }
    }
}

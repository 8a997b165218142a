//! The relay: brings what a source gives to a sink, a piece at a time.

ghost use Rattle.std.specs.Prelude.{◌≡◌, ℕ, ◌+◌, ◌<◌, ◌≤◌, false, List, Option, length, OnOk, IfOk, IfErr};
ghost use Rattle.zr_pipe.specs.Relay.{CountsFault, Carried, Relayed, Stopped, is_read_fault, is_write_fault, piece_max, relay_max};

use crate::ends::{PutFault, Sink, Source};
use std::alloc::Global;

/// The most bytes that are moved at once.
pub const PIECE: usize = 65_536;

/// The most bytes that one relay puts.
pub const LIMIT: u64 = 1 << 62;

/// How a relay ended. The numbers count the bytes of the pieces that were put whole.
#[derive(Clone, Copy, PartialEq, Eq)]
pub enum RelayEnd {
    /// The source came to its end, and all of it was put.
    Whole(u64),
    /// The source failed.
    ReadFault(u64),
    /// The sink failed. A front of one more piece may have been written.
    WriteFault(u64),
    /// `LIMIT` bytes were put, and the source has more. One piece more was taken.
    Limit,
    /// Memory is wanting for the buffer, or the sink has none.
    NoMemory,
}

/// Moves the bytes of `from` to `to`, piece by piece, until the source ends or either fails.
/// One buffer of `PIECE` bytes serves the whole relay: the source fills it, and the sink is lent what stands in it.
pub fn relay<F: Source, T: Sink>(alloc: Global, from: &mut F, to: &mut T) -> RelayEnd
    ensures relayed { Relayed (F.left from.old) (F.left from.new) (T.written to.old)
        (T.written to.new) result }
    ensures source_counts { CountsFault (is_read_fault result) (F.faults from.old)
        (F.faults from.new) }
    ensures sink_counts { CountsFault (is_write_fault result) (T.faults to.old) (T.faults to.new) }
{
    match vec![in alloc; 0u8; PIECE] {
        Ok(mut buffer) => relay_through(&mut buffer, from, to),
        Err(_) => RelayEnd::NoMemory,
    }
}

fn relay_through<F: Source, T: Sink>(buffer: &mut [u8], from: &mut F, to: &mut T) -> RelayEnd
    requires { length buffer.old ≡ piece_max }
    ensures relayed { Relayed (F.left from.old) (F.left from.new) (T.written to.old)
        (T.written to.new) result }
    ensures source_counts { CountsFault (is_read_fault result) (F.faults from.old)
        (F.faults from.new) }
    ensures sink_counts { CountsFault (is_write_fault result) (T.faults to.old) (T.faults to.new) }
{
    let mut moved = 0;
    while moved < LIMIT {
        let room = PIECE.min((LIMIT - moved) as usize);
        match move_piece(&mut buffer[..room], from, to, moved) {
            Ok(count) => moved += count,
            Err(end) => return end,
        }
    }
    end_at_limit(buffer, from)
}

// Takes one piece and puts it. The answer is how many bytes it had, or how the relay ends that moved `moved` bytes before.
fn move_piece<F: Source, T: Sink>(
    buffer: &mut [u8],
    from: &mut F,
    to: &mut T,
    moved: u64,
) -> Result<u64, RelayEnd>
    requires some { 0 < length buffer.old }
    requires small { length buffer.old ≤ piece_max }
    requires limited { moved + length buffer.old ≤ relay_max }
    ensures carried { IfOk result
        (Carried (F.left from.old) (F.left from.new) (T.written to.old) (T.written to.new)) }
    ensures some { IfOk result (λ count. 0 < count) }
    ensures limited { IfOk result (λ count. moved + count ≤ relay_max) }
    ensures source_keeps { OnOk result (F.faults from.new ≡ F.faults from.old) }
    ensures sink_keeps { OnOk result (T.faults to.new ≡ T.faults to.old) }
    ensures stopped { IfErr result
        (Stopped (F.left from.old) (F.left from.new) (T.written to.old) (T.written to.new) moved) }
    ensures source_counts { IfErr result
        (λ end. CountsFault (is_read_fault end) (F.faults from.old) (F.faults from.new)) }
    ensures sink_counts { IfErr result
        (λ end. CountsFault (is_write_fault end) (T.faults to.old) (T.faults to.new)) }
{
    let count = match from.take(buffer) {
        Ok(0) => return Err(RelayEnd::Whole(moved)),
        Ok(count) => count,
        Err(_) => return Err(RelayEnd::ReadFault(moved)),
    };
    match to.put(&buffer[..count]) {
        Ok(()) => Ok(count as u64),
        Err(PutFault::Failed) => Err(RelayEnd::WriteFault(moved)),
        Err(PutFault::NoMemory) => Err(RelayEnd::NoMemory),
    }
}

// How a relay ends that moved as much as it may: whole only where the source has no more.
fn end_at_limit<F: Source>(buffer: &mut [u8], from: &mut F) -> RelayEnd
    requires some { 0 < length buffer.old }
    requires small { length buffer.old ≤ piece_max }
    ensures stopped { (written : Option (List ℕ))
        → Stopped (F.left from.old) (F.left from.new) written written relay_max result }
    ensures source_counts { CountsFault (is_read_fault result) (F.faults from.old)
        (F.faults from.new) }
    ensures sink_held { is_write_fault result ≡ false }
{
    match from.take(buffer) {
        Ok(0) => RelayEnd::Whole(LIMIT),
        Ok(_) => RelayEnd::Limit,
        Err(_) => RelayEnd::ReadFault(LIMIT),
    }
}

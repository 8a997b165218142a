//! Reads a source up to a limit, as a file or a listing is read. Apart from the relay, which keeps
//! nothing.

ghost use Rattle.std.specs.Prelude.{◌≡◌, ◌≢◌, ◌≤◌, IfOk, Some, length, vec_len};

use crate::pieces::PIECE;
use std::alloc::{AllocError, Global};
use std::io;
use std::io::{ErrorKind, Read};

/// How the reading of a reader ended.
#[derive(Clone, Copy, PartialEq, Eq)]
pub enum Reading {
    /// At the reader's end.
    Whole,
    /// At the limit, with more bytes to come.
    TooLong,
    Failed,
    NoMemory,
}

/// Puts a piece behind what was read, up to a limit; the answer is `None` where it was put whole.
fn keep(read: &mut Vec<u8>, piece: &[u8], limit: usize) -> Option<Reading>
    requires { vec_len read.old ≤ limit }
    ensures within { vec_len read.new ≤ limit }
    ensures full { result ≡ Some Reading.TooLong → vec_len read.new ≡ limit }
    ensures not_whole { result ≢ Some Reading.Whole }
{
    let room = limit - read.len();
    let kept = piece.len().min(room);
    if read.extend_from_slice(&piece[..kept]).is_err() {
        return Some(Reading::NoMemory);
    }
    if kept < piece.len() {
        Some(Reading::TooLong)
    } else {
        None
    }
}

/// Reads once, and again where a signal came first.
pub fn read_some<R: Read>(from: &mut R, buffer: &mut [u8]) -> io::Result<usize>
    ensures { IfOk result (λ count. count ≤ length buffer.new) }
{
    for _ in 0..u64::MAX {
        match from.read(buffer) {
            Err(fault) if fault.kind() == ErrorKind::Interrupted => {}
            answer => return answer,
        }
    }
    Err(io::Error::from(ErrorKind::Interrupted))
}

/// Reads through a buffer to the reader's end, or up to a limit, behind what was read.
fn read_through<R: Read>(
    from: &mut R,
    buffer: &mut [u8],
    read: &mut Vec<u8>,
    limit: usize,
) -> Reading
    requires { vec_len read.old ≤ limit }
    ensures within { vec_len read.new ≤ limit }
    ensures full { result ≡ Reading.TooLong → vec_len read.new ≡ limit }
{
    for _ in 0..u64::MAX {
        match read_some(from, buffer) {
            Ok(0) => return Reading::Whole,
            Ok(count) => {
                if let Some(end) = keep(read, &buffer[..count], limit) {
                    return end;
                }
            }
            Err(_) => return Reading::Failed,
        }
    }
    Reading::Failed
}

fn buffer(alloc: Global) -> Result<Vec<u8>, AllocError> {
    vec![in alloc; 0u8; PIECE]
}

/// Reads to the reader's end, or up to a limit, in place of what was in `read`.
pub fn read_up_to<R: Read>(alloc: Global, from: &mut R, read: &mut Vec<u8>, limit: usize) -> Reading
    ensures within { vec_len read.new ≤ limit }
    ensures full { result ≡ Reading.TooLong → vec_len read.new ≡ limit }
{
    read.clear();
    match buffer(alloc) {
        Ok(mut buffer) => read_through(from, buffer.as_mut_slice(), read, limit),
        Err(_) => Reading::NoMemory,
    }
}

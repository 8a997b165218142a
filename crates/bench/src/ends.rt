//! Ends of a relay that never enter the kernel.

ghost use Rattle.std.specs.Prelude.{◌≡◌, ◌≤◌, None};

use std::alloc::{AllocError, Global};
use zr_pipe::{Failed, PutFault, Sink, Source};

const BLOCK: usize = 1 << 20;

/// A block of memory over and over, until so many bytes were taken.
#[derive(Drop)]
pub struct Repeated {
    block: Vec<u8>,
    left: u64,
}

impl Repeated {
    pub fn new(alloc: Global, left: u64) -> Result<Repeated, AllocError> {
        let block = vec![in alloc; 7u8; BLOCK]?;
        Ok(Repeated { block, left })
    }
}

impl Source for Repeated {
    ghost faults = { λ _. 0 };

    ghost left = { λ _. None };

    fn take(&mut self, buf: &mut [u8]) -> Result<usize, Failed> {
        let room = buf.len().min(self.block.len());
        let count = if self.left < room as u64 {
            self.left as usize
        } else {
            room
        };
        buf[..count].copy_from_slice(&self.block[..count]);
        self.left -= count as u64;
        Ok(count)
    }
}

/// Forgets what it is given, but for the last byte of each piece: so no copy can be left out.
#[derive(Drop)]
pub struct Discard {
    seen: u64,
}

impl Discard {
    pub fn new() -> Discard {
        Discard { seen: 0 }
    }

    pub fn seen(&self) -> u64 {
        self.seen
    }
}

impl Sink for Discard {
    ghost faults = { λ _. 0 };

    ghost written = { λ _. None };

    fn put(&mut self, bytes: &[u8]) -> Result<(), PutFault> {
        if let Some(last) = bytes.last() {
            self.seen = self.seen.wrapping_add(u64::from(*last));
        }
        Ok(())
    }
}

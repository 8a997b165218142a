//! A source in memory, which can fail.

ghost use Rattle.std.specs.Prelude.{◌≡◌, ◌<◌, ◌≤◌, ◌↔◌, ◌++◌, Some, min, length, take, drop, IsErr, OnOk, OnErr, IfOk, Contains};
ghost use Rattle.zr_pipe.specs.Faults.{raised};
ghost use Rattle.zr_pipe.specs.Ends.{IsNoneAtEnd};
ghost use Rattle.zr_pipe.specs.Memory.{SourceInMemory};

use crate::ends::{Failed, Source};
use std::marker::Model;

/// A source in memory that tells all it has left, and fails at the calls that it is told to fail at.
#[derive(Drop)]
pub struct MemSource {
    bytes: Vec<u8>,
    taken: usize,
    failing: Vec<u64>,
    calls: u64,
    faults: u64,
}

impl Model for MemSource {
    ghost Value = { SourceInMemory };

    ghost view = { λ s. record { left = drop s.taken s.bytes.items; failing = s.failing.items; calls = s.calls; faults = s.faults } };

    ghost invariant = { λ s. s.taken ≤ length s.bytes.items };
}

impl MemSource {
    /// `failing` has the numbers of the takes that fail, counted from 1.
    pub fn new(bytes: Vec<u8>, failing: Vec<u64>) -> MemSource
        ensures { result ≡ record
            { left = bytes.items; failing = failing.items; calls = 0; faults = 0 } }
    {
        MemSource {
            bytes,
            taken: 0,
            failing,
            calls: 0,
            faults: 0,
        }
    }

    pub fn left(&self) -> &[u8]
        ensures { result.now ≡ self.now.left }
    {
        &self.bytes[self.taken..]
    }

    pub fn calls(&self) -> u64
        ensures { result ≡ self.now.calls }
    {
        self.calls
    }

    pub fn faults(&self) -> u64
        ensures { result ≡ self.now.faults }
    {
        self.faults
    }
}

impl Source for MemSource {
    ghost faults = { λ s. s.faults };

    ghost left = { λ s. Some s.left };

    /// Takes as much as `buf` has room for.
    fn take(&mut self, buf: &mut [u8]) -> Result<usize, Failed>
        ensures listed { IsErr result ↔ Contains self.old.failing (raised self.old.calls) }
        ensures count { IfOk result (λ n. n ≡ min (length buf.new) (length self.old.left)) }
        ensures taken { IfOk result (λ n. self.old.left ≡ take n buf.new ++ self.new.left) }
        ensures fits { IfOk result (λ n. n ≤ length buf.new) }
        ensures end { 0 < length buf.old → IfOk result (IsNoneAtEnd (Some self.old.left)) }
        ensures untaken { OnErr result (self.new.left ≡ self.old.left) }
        ensures failed_counts { OnErr result (self.new.faults ≡ raised self.old.faults) }
        ensures ok_keeps { OnOk result (self.new.faults ≡ self.old.faults) }
        ensures never_falls { self.old.faults ≤ self.new.faults }
        ensures calls { self.new.calls ≡ raised self.old.calls }
        ensures failing { self.new.failing ≡ self.old.failing }
    {
        self.calls = self.calls.saturating_add(1);
        if self.failing.contains(&self.calls) {
            self.faults = self.faults.saturating_add(1);
            return Err(Failed);
        }
        let left = &self.bytes[self.taken..];
        let count = left.len().min(buf.len());
        buf[..count].copy_from_slice(&left[..count]);
        self.taken += count;
        Ok(count)
    }
}

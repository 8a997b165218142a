//! A sink in memory, which can fail or run out of room.

ghost use Rattle.std.specs.Prelude.{◌≡◌, ◌≢◌, ◌<◌, ◌≤◌, ◌↔◌, [], ◌++◌, Some, OnOk, OnErr, Contains};
ghost use Rattle.zr_pipe.specs.Faults.{raised, Rose};
ghost use Rattle.zr_pipe.specs.Ends.{WroteFront};
ghost use Rattle.zr_pipe.specs.Memory.{SinkInMemory};

use crate::ends::{PutFault, Sink};
use std::alloc::Global;
use std::marker::Model;

/// A sink in memory that tells all it was given, and fails at the calls that it is told to fail at.
#[derive(Drop)]
pub struct MemSink {
    written: Vec<u8>,
    failing: Vec<u64>,
    calls: u64,
    faults: u64,
}

impl Model for MemSink {
    ghost Value = { SinkInMemory };

    ghost view = { λ s. record { written = s.written.items; failing = s.failing.items; calls = s.calls; faults = s.faults } };
}

impl MemSink {
    /// `failing` has the numbers of the puts that fail, counted from 1.
    pub fn new(alloc: Global, failing: Vec<u64>) -> MemSink
        ensures { result ≡ record { written = []; failing = failing.items; calls = 0; faults = 0 } }
    {
        MemSink {
            written: Vec::new(alloc),
            failing,
            calls: 0,
            faults: 0,
        }
    }

    pub fn written(&self) -> &[u8]
        ensures { result.now ≡ self.now.written }
    {
        self.written.as_slice()
    }

    pub fn calls(&self) -> u64
        ensures { result ≡ self.now.calls }
    {
        self.calls
    }

    pub fn faults(&self) -> u64
        ensures { result ≡ self.now.faults }
    {
        self.faults
    }
}

impl Sink for MemSink {
    ghost faults = { λ s. s.faults };

    ghost written = { λ s. Some s.written };

    /// A put that fails, for whatever cause, writes nothing.
    fn put(&mut self, bytes: &[u8]) -> Result<(), PutFault>
        ensures listed { (result ≡ Err PutFault.Failed)
            ↔ Contains self.old.failing (raised self.old.calls) }
        ensures ok { OnOk result (self.new.written ≡ self.old.written ++ bytes.now) }
        ensures err { OnErr result (self.new.written ≡ self.old.written) }
        ensures front { OnErr result
            (WroteFront (Some self.old.written) (Some self.new.written) bytes.now) }
        ensures failed_counts { result ≡ Err PutFault.Failed
            → self.new.faults ≡ raised self.old.faults }
        ensures others_keep { result ≢ Err PutFault.Failed → self.new.faults ≡ self.old.faults }
        ensures never_falls { self.old.faults ≤ self.new.faults }
        ensures calls { self.new.calls ≡ raised self.old.calls }
        ensures failing { self.new.failing ≡ self.old.failing }
    {
        self.calls = self.calls.saturating_add(1);
        if self.failing.contains(&self.calls) {
            self.faults = self.faults.saturating_add(1);
            return Err(PutFault::Failed);
        }
        match self.written.extend_from_slice(bytes) {
            Ok(()) => Ok(()),
            Err(_) => Err(PutFault::NoMemory),
        }
    }
}

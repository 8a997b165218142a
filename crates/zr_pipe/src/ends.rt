//! What bytes are taken from and brought to. Traits of our own, since each counts its faults.

ghost use Rattle.std.specs.Prelude.{◌≡◌, ℕ, ◌<◌, ◌≤◌, List, Option, length, take, OnOk, OnErr, IfOk};
ghost use Rattle.std.specs.Io.KnownBytes.{append_known, prepend_known};
ghost use Rattle.zr_pipe.specs.Faults.{Rose};
ghost use Rattle.zr_pipe.specs.Ends.{IsNoneAtEnd, WroteFront};

/// A read that failed.
#[derive(Clone, Copy, PartialEq, Eq)]
pub struct Failed;

/// Where bytes come from.
pub trait Source {
    // how many calls failed; at the end of its type the count stands still
    ghost faults: { Self → ℕ };

    // the bytes that are left, where the source tells them
    ghost left: { Self → Option (List ℕ) };

    /// Takes the next bytes into the front of `buf`, and answers how many. What stands behind them in `buf` is free.
    fn take(&mut self, buf: &mut [u8]) -> Result<usize, Failed>
        ensures fits { IfOk result (λ n. n ≤ length buf.new) }
        ensures taken { IfOk result
            (λ n. left self.old ≡ prepend_known (take n buf.new) (left self.new)) }
        ensures end { 0 < length buf.old → IfOk result (IsNoneAtEnd (left self.old)) }

        // A take that fails takes nothing.
        ensures untaken { OnErr result (left self.new ≡ left self.old) }

        // The count rises where a take fails, and only there.
        ensures failed_rose { OnErr result (Rose (faults self.old) (faults self.new)) }
        ensures ok_keeps { OnOk result (faults self.new ≡ faults self.old) }
        ensures never_falls { faults self.old ≤ faults self.new };
}

/// Why a piece was not put whole.
#[derive(Clone, Copy, PartialEq, Eq)]
pub enum PutFault {
    Failed,
    NoMemory,
}

/// Where bytes go.
pub trait Sink {
    // how many calls failed; at the end of its type the count stands still
    ghost faults: { Self → ℕ };

    // the bytes that were written, where the sink tells them
    ghost written: { Self → Option (List ℕ) };

    /// Writes all of `bytes`, or fails and has written a front of them.
    fn put(&mut self, bytes: &[u8]) -> Result<(), PutFault>
        ensures whole { OnOk result (written self.new ≡ append_known (written self.old) bytes.now) }
        ensures front { OnErr result (WroteFront (written self.old) (written self.new) bytes.now) }

        // Where memory is wanting, nothing was written.
        ensures no_memory_writes_nothing { result ≡ Err PutFault.NoMemory
            → written self.new ≡ written self.old }

        // The count rises where a put fails, and only there: want of memory is no fault of the sink.
        ensures failed_rose { result ≡ Err PutFault.Failed
            → Rose (faults self.old) (faults self.new) }
        ensures ok_keeps { OnOk result (faults self.new ≡ faults self.old) }
        ensures no_memory_keeps { result ≡ Err PutFault.NoMemory
            → faults self.new ≡ faults self.old }
        ensures never_falls { faults self.old ≤ faults self.new };
}

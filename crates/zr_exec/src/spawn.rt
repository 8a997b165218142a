//! What can start children, and what its record shows: words, bytes and how a child ended. It knows
//! no ZFS.

ghost use Rattle.std.specs.Prelude.{◌≡◌, ◌≤◌, ℕ, [], ◌∷◌, List, Option, OnOk, OnErr, drop, length, map, string_bytes};
ghost use Rattle.zr_exec.specs.Exits.{HasExitCause, HasPipeCause};
ghost use Rattle.zr_exec.specs.Recording.{with_lines, RecordsChild, RecordsPipe};
ghost use Rattle.zr_exec.specs.Serving.{Serves, ServesPipe};
ghost use Rattle.zr_exec.specs.declared.spawn.Line.{Line as LineValue};
ghost use Rattle.zr_exec.specs.declared.spawn.Line.TheVariants.{Begin};
ghost use Rattle.zr_world.specs.declared.pools.Pools.{Pools as PoolsValue};

use zr_names::{Bytes, NoMemory, Rows, Unit};

/// How a child ended.
#[derive(Clone, Copy, PartialEq, Eq)]
pub enum RunExit {
    /// By itself, with status 0.
    Done,
    /// By itself, with another status.
    Nonzero,
    /// It did not start, a signal ended it, or what it wrote could not be read.
    Failed,
    /// It wrote more than `LISTING_LIMIT` bytes.
    TooLong,
    NoMemory,
}

/// How the two children of a pipe ended.
#[derive(Clone, Copy, PartialEq, Eq)]
pub enum PipeExit {
    /// Both by themselves, with status 0; all that the sending end wrote went into the pipe between them.
    Done,
    /// One of them did not start, or ended otherwise.
    Failed,
    NoMemory,
}

/// The most bytes of what a child writes that are kept.
pub const LISTING_LIMIT: usize = 33_554_432;

/// One entry of the record of a runner of children.
#[derive(Drop)]
pub enum Line {
    /// A run of a unit began, under this run number.
    Begin(Unit, u64),
    Call(Call),
    Pipe(Piped),
}

/// A child that was started, by its words, the program's name first, and how it ended.
#[derive(Drop)]
pub struct Call {
    pub words: Rows<Bytes>,
    pub exit: RunExit,
    pub written: Bytes,
}

/// A child whose output another one reads, each by its words, the program's name first, and how they ended.
#[derive(Drop)]
pub struct Piped {
    pub send: Rows<Bytes>,
    pub receive: Rows<Bytes>,
    pub exit: PipeExit,
}

/// Runs children, one at a time or two in a pipe. Nothing happens after the exit.
pub trait Spawn {
    /// How many children failed; it stays at `u64::MAX` once there.
    ghost faults: { Self → ℕ };

    /// The record of begun runs and calls, where it is told.
    ghost history: { Self → Option (List LineValue) };

    /// The pools on which the children work, where they are told.
    ghost pools: { Self → Option PoolsValue };

    /// Begins a run of a unit under a run number: the calls up to the next `begin` belong to it.
    fn begin(&mut self, unit: &Unit, run: u64) -> Result<(), NoMemory>
        ensures faults { faults self.new ≡ faults self.old }
        ensures pools { pools self.new ≡ pools self.old }
        ensures ok { OnOk result
            (history self.new ≡ with_lines (history self.old) (Begin unit.now run ∷ [])) }
        ensures err { OnErr result (history self.new ≡ history self.old) };

    /// Runs the program that the first word names with the other words, and leaves in `out` what it
    /// wrote, up to the limit, in place of what was there.
    fn run(&mut self, argv: &[String], out: &mut Vec<u8>) -> RunExit
        ensures cause { HasExitCause (faults self.old) (faults self.new) result }
        ensures within { length out.new.items ≤ LISTING_LIMIT }
        ensures full { result ≡ RunExit.TooLong → length out.new.items ≡ LISTING_LIMIT }
        ensures told { RecordsChild (history self.old) (history self.new)
            (map string_bytes argv.now) result out.new.items }
        ensures pools { Serves (drop 1 (map string_bytes argv.now))
            (pools self.old) (pools self.new) result out.new.items };

    /// Runs two programs, each named by its first word, the second one reading what the first one writes.
    fn pipe(&mut self, send: &[String], receive: &[String]) -> PipeExit
        ensures cause { HasPipeCause (faults self.old) (faults self.new) result }
        ensures told { RecordsPipe (history self.old) (history self.new)
            (map string_bytes send.now) (map string_bytes receive.now) result }
        ensures pools { ServesPipe (drop 1 (map string_bytes send.now))
            (drop 1 (map string_bytes receive.now))
            (pools self.old) (pools self.new) result };
}

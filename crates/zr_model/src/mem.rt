//! A runner of children over pools in memory, with a record and planned failures.

ghost use Rattle.std.specs.Prelude.{◌≡◌, ◌++◌, ◌∷◌, [], IfOk, OnOk, OnErr, map, string_bytes};
ghost use Rattle.zr_exec.specs.Recording.{call_line, pipe_line};
ghost use Rattle.zr_model.specs.Stored.{IsRecorded, IsRecordedPipe};

use crate::piping::serve_pipe;
use crate::serving::{behind_program, serve};
use std::alloc::{AllocError, Global};
use std::marker::Model;
use zr_exec::{Call, LISTING_LIMIT, Line, PipeExit, Piped, RunExit, Spawn};
use zr_names::{Bytes, NoMemory, Rows, Same, Unit};
use zr_world::{PlannedFailure, Pools};

/// A runner of children that work on pools in memory. It tells its pools and its record.
#[derive(Drop)]
pub struct MemSpawn {
    alloc: Global,
    pools: Pools,
    failing: Vec<PlannedFailure>,
    calls: u64,
    faults: u64,
    history: Vec<Line>,
}

impl Model for MemSpawn {
    ghost use Rattle.zr_model.specs.Stored.{Stored};
    ghost use Rattle.zr_world.specs.Pools.{IsWellFormed};

    ghost Value = { Stored };

    ghost view = { λ m. record {
      pools = m.pools;
      failing = m.failing.items;
      calls = m.calls;
      faults = m.faults;
      history = m.history.items;
    } };

    ghost invariant = { λ m. IsWellFormed m.pools };
}

impl MemSpawn {
    ghost use Rattle.std.specs.Prelude.{◌≡◌, ◌≤◌, ◌++◌, ◌∷◌, [], OnOk, OnErr, Some, drop, length, map, string_bytes};
    ghost use Rattle.zr_exec.specs.Exits.{HasExitCause, HasPipeCause};
    ghost use Rattle.zr_exec.specs.Recording.{RecordsChild, RecordsPipe};
    ghost use Rattle.zr_exec.specs.Serving.{DoesPipe, DoesWords};
    ghost use Rattle.zr_exec.specs.declared.spawn.Line.TheVariants.{Begin};
    ghost use Rattle.zr_model.specs.Stored.{RanChild, RanPipe};
    ghost use Rattle.zr_world.specs.Pools.{IsWellFormed};

    /// A runner whose n-th `run` or `pipe`, counted together from 1, fails where `failing` names n.
    /// `is_well_formed` tests pools.
    pub fn new(alloc: Global, pools: Pools, failing: Vec<PlannedFailure>) -> MemSpawn
        requires { IsWellFormed pools }
        ensures { result ≡ record {
          pools = pools;
          failing = failing.items;
          calls = 0;
          faults = 0;
          history = [];
        } }
    {
        MemSpawn {
            alloc,
            pools,
            failing,
            calls: 0,
            faults: 0,
            history: Vec::new(alloc),
        }
    }

    pub fn pools(&self) -> &Pools
        ensures { result.now ≡ self.now.pools }
    {
        &self.pools
    }

    /// Begins a run: it stands in the record, and nothing else changes.
    pub fn begin_run(&mut self, unit: &Unit, run: u64) -> Result<(), NoMemory>
        ensures ok { OnOk result
            (self.new ≡ record self.old { history = self.old.history ++ Begin unit.now run ∷ [] }) }
        ensures err { OnErr result (self.new ≡ self.old) }
    {
        push(&mut self.history, begin_line(unit, run)?)
    }

    /// Runs one child, or fails it where a failure is planned for the call of its number.
    pub fn child(&mut self, argv: &[String], out: &mut Vec<u8>) -> RunExit
        ensures ran { RanChild self.old (map string_bytes argv.now) self.new result out.new.items }
        ensures cause { HasExitCause self.old.faults self.new.faults result }
        ensures told { RecordsChild (Some self.old.history) (Some self.new.history)
            (map string_bytes argv.now) result out.new.items }
        ensures does { DoesWords (drop 1 (map string_bytes argv.now)) self.old.pools self.new.pools
            result out.new.items }
        ensures within { length out.new.items ≤ LISTING_LIMIT }
        ensures full { result ≡ RunExit.TooLong → length out.new.items ≡ LISTING_LIMIT }
    {
        self.calls = self.calls.saturating_add(1);
        let plan = PlannedFailure::find(self.failing.as_slice(), self.calls);
        let words = behind_program(argv);
        let exit = serve(
            self.alloc,
            &mut self.pools,
            &mut self.faults,
            words,
            plan,
            out,
        );
        recorded(self.alloc, &mut self.history, argv, exit, out.as_slice())
    }

    /// Runs two children with a pipe between them, or fails them where a failure is planned for the call of their number.
    pub fn pair(&mut self, send: &[String], receive: &[String]) -> PipeExit
        ensures ran { RanPipe self.old (map string_bytes send.now) (map string_bytes receive.now)
            self.new result }
        ensures cause { HasPipeCause self.old.faults self.new.faults result }
        ensures told { RecordsPipe (Some self.old.history) (Some self.new.history)
            (map string_bytes send.now) (map string_bytes receive.now) result }
        ensures does { DoesPipe (drop 1 (map string_bytes send.now))
            (drop 1 (map string_bytes receive.now)) self.old.pools self.new.pools result }
    {
        self.calls = self.calls.saturating_add(1);
        let plan = PlannedFailure::find(self.failing.as_slice(), self.calls);
        let sends = behind_program(send);
        let receives = behind_program(receive);
        let exit = serve_pipe(
            self.alloc,
            &mut self.pools,
            &mut self.faults,
            sends,
            receives,
            plan,
        );
        recorded_pipe(self.alloc, &mut self.history, send, receive, exit)
    }

    /// The begun runs and the calls so far.
    pub fn history(&self) -> &[Line]
        ensures { result.now ≡ self.now.history }
    {
        self.history.as_slice()
    }
}

fn begin_line(unit: &Unit, run: u64) -> Result<Line, AllocError>
    ensures { IfOk result (λ line. line ≡ Line.Begin unit.now run) }
{
    Ok(Line::Begin(unit.same()?, run))
}

fn words_of(alloc: Global, words: &[String]) -> Result<Rows<Bytes>, AllocError>
    ensures { IfOk result (λ copies. copies ≡ map string_bytes words.now) }
{
    let mut copies = Vec::with_capacity(alloc, words.len())?;
    for word in words {
        copies.push(Bytes::from_slice(alloc, word.as_bytes())?)?;
    }
    Ok(Rows::from_vec(copies))
}

fn call_line(alloc: Global, words: &[String], exit: RunExit, out: &[u8]) -> Result<Line, AllocError>
    ensures { IfOk result (λ line. line ≡ call_line (map string_bytes words.now) exit out.now) }
{
    Ok(Line::Call(Call {
        words: words_of(alloc, words)?,
        exit,
        written: Bytes::from_slice(alloc, out)?,
    }))
}

fn push(history: &mut Vec<Line>, line: Line) -> Result<(), NoMemory>
    ensures ok { OnOk result (history.new.items ≡ history.old.items ++ line ∷ []) }
    ensures err { OnErr result (history.new.items ≡ history.old.items) }
{
    history.push(line)?;
    Ok(())
}

/// Puts a call into the record, or answers want of memory in place of its exit.
fn recorded(
    alloc: Global,
    history: &mut Vec<Line>,
    words: &[String],
    exit: RunExit,
    out: &[u8],
) -> RunExit
    ensures { IsRecorded history.old.items history.new.items (map string_bytes words.now) exit
        out.now result }
{
    let Ok(line) = call_line(alloc, words, exit, out) else {
        return RunExit::NoMemory;
    };
    match push(history, line) {
        Ok(()) => exit,
        Err(NoMemory) => RunExit::NoMemory,
    }
}

fn pipe_line(
    alloc: Global,
    send: &[String],
    receive: &[String],
    exit: PipeExit,
) -> Result<Line, AllocError>
    ensures { IfOk result (λ line. line
        ≡ pipe_line (map string_bytes send.now) (map string_bytes receive.now) exit) }
{
    Ok(Line::Pipe(Piped {
        send: words_of(alloc, send)?,
        receive: words_of(alloc, receive)?,
        exit,
    }))
}

/// Puts a pipe into the record, or answers want of memory in place of its exit.
fn recorded_pipe(
    alloc: Global,
    history: &mut Vec<Line>,
    send: &[String],
    receive: &[String],
    exit: PipeExit,
) -> PipeExit
    ensures { IsRecordedPipe history.old.items history.new.items
        (map string_bytes send.now) (map string_bytes receive.now) exit result }
{
    let Ok(line) = pipe_line(alloc, send, receive, exit) else {
        return PipeExit::NoMemory;
    };
    match push(history, line) {
        Ok(()) => exit,
        Err(NoMemory) => PipeExit::NoMemory,
    }
}

impl Spawn for MemSpawn {
    ghost use Rattle.std.specs.Prelude.{Some};

    ghost faults = { λ m. m.faults };

    ghost history = { λ m. Some m.history };

    ghost pools = { λ m. Some m.pools };

    fn begin(&mut self, unit: &Unit, run: u64) -> Result<(), NoMemory> {
        self.begin_run(unit, run)
    }

    fn run(&mut self, argv: &[String], out: &mut Vec<u8>) -> RunExit {
        self.child(argv, out)
    }

    fn pipe(&mut self, send: &[String], receive: &[String]) -> PipeExit {
        self.pair(send, receive)
    }
}

//! A runner of commands over pools in memory, with a record and planned failures.

ghost use Rattle.std.specs.Prelude.{◌≡◌, ◌++◌, ◌∷◌, [], IfOk, OnOk, OnErr};
ghost use Rattle.zr_world.specs.Mem.{Recorded};
ghost use Rattle.zr_command.specs.Plain.{plain};

use crate::acting::act;
use crate::planned::PlannedFailure;
use crate::pools::Pools;
use crate::zfs::Zfs;
use std::alloc::{AllocError, Global};
use std::marker::Model;
use zr_command::{Answer, Cmd, Entry};
use zr_names::{NoMemory, Same, Unit};

/// A runner over pools in memory. It tells its pools and its record.
#[derive(Drop)]
pub struct MemZfs {
    alloc: Global,
    pools: Pools,
    failing: Vec<PlannedFailure>,
    calls: u64,
    faults: u64,
    history: Vec<Entry>,
}

impl Model for MemZfs {
    ghost use Rattle.zr_world.specs.Memory.{Memory};
    ghost use Rattle.zr_world.specs.Pools.{IsWellFormed};

    ghost Value = { Memory };

    ghost view = { λ m. record {
      pools = m.pools;
      failing = m.failing.items;
      calls = m.calls;
      faults = m.faults;
      history = m.history.items;
    } };

    ghost invariant = { λ m. IsWellFormed m.pools };
}

impl MemZfs {
    ghost use Rattle.std.specs.Prelude.{◌≡◌, ◌++◌, ◌∷◌, [], OnOk, OnErr, Some};
    ghost use Rattle.zr_command.specs.declared.command.Entry.TheVariants.{Begin};
    ghost use Rattle.zr_command.specs.Plain.{plain};
    ghost use Rattle.zr_world.specs.Answering.{AnswersWords, HasCause, IsReplyTo, Logs};
    ghost use Rattle.zr_world.specs.Planned.{Called};
    ghost use Rattle.zr_world.specs.Pools.{IsWellFormed};

    /// A runner whose n-th `run`, counted from 1, fails where `failing` names n.
    pub fn new(alloc: Global, pools: Pools, failing: Vec<PlannedFailure>) -> MemZfs
        requires { IsWellFormed pools }
        ensures { result ≡ record {
          pools = pools;
          failing = failing.items;
          calls = 0;
          faults = 0;
          history = [];
        } }
    {
        MemZfs {
            alloc,
            pools,
            failing,
            calls: 0,
            faults: 0,
            history: Vec::new(alloc),
        }
    }

    pub fn pools(&self) -> &Pools
        ensures { result.now ≡ self.now.pools }
    {
        &self.pools
    }

    /// Begins a run: it stands in the record, and nothing else changes.
    pub fn begin_run(&mut self, unit: &Unit, run: u64) -> Result<(), NoMemory>
        ensures ok { OnOk result
            (self.new ≡ record self.old { history = self.old.history ++ Begin unit.now run ∷ [] }) }
        ensures err { OnErr result (self.new ≡ self.old) }
    {
        push(&mut self.history, begin_entry(unit, run)?)
    }

    /// Answers a command as ZFS does, or fails it where a failure is planned for the call of its number.
    pub fn call(&mut self, cmd: &Cmd) -> Answer
        ensures called { Called self.old cmd.now self.new result }
        ensures cause { HasCause self.old.faults self.new.faults result }
        ensures logged { Logs (Some self.old.history) (Some self.new.history) (plain cmd.now)
            result }
        ensures answered { AnswersWords cmd.now self.old.pools self.new.pools result }
        ensures shape { IsReplyTo cmd.now result }
    {
        self.calls = self.calls.saturating_add(1);
        let plan = PlannedFailure::find(self.failing.as_slice(), self.calls);
        let answer = act(self.alloc, &mut self.pools, &mut self.faults, cmd, plan);
        recorded(&mut self.history, cmd, answer)
    }

    /// The begun runs and the calls so far.
    pub fn history(&self) -> &[Entry]
        ensures { result.now ≡ self.now.history }
    {
        self.history.as_slice()
    }
}

fn begin_entry(unit: &Unit, run: u64) -> Result<Entry, AllocError>
    ensures { IfOk result (λ entry. entry ≡ Entry.Begin unit.now run) }
{
    Ok(Entry::Begin(unit.same()?, run))
}

fn call_entry(alloc: Global, cmd: &Cmd, answer: &Answer) -> Result<Entry, AllocError>
    ensures { IfOk result (λ entry. entry ≡ Entry.Call (plain cmd.now) answer.now) }
{
    let answer = answer.same()?;
    match cmd.plain(alloc) {
        Ok(cmd) => Ok(Entry::Call(cmd, answer)),
        Err(fault) => {
            drop(answer);
            Err(fault)
        }
    }
}

fn push(history: &mut Vec<Entry>, entry: Entry) -> Result<(), NoMemory>
    ensures ok { OnOk result (history.new.items ≡ history.old.items ++ entry ∷ []) }
    ensures err { OnErr result (history.new.items ≡ history.old.items) }
{
    history.push(entry)?;
    Ok(())
}

/// Puts a call into the record, or answers want of memory in place of its answer.
fn recorded(history: &mut Vec<Entry>, cmd: &Cmd, answer: Answer) -> Answer
    ensures { Recorded history.old.items history.new.items (plain cmd.now) answer result }
{
    let Ok(entry) = call_entry(*history.allocator(), cmd, &answer) else {
        drop(answer);
        return Answer::NoMemory;
    };
    match push(history, entry) {
        Ok(()) => answer,
        Err(NoMemory) => {
            drop(answer);
            Answer::NoMemory
        }
    }
}

impl Zfs for MemZfs {
    ghost use Rattle.std.specs.Prelude.{Some};

    ghost faults = { λ m. m.faults };

    ghost pools = { λ m. Some m.pools };

    ghost history = { λ m. Some m.history };

    fn begin(&mut self, unit: &Unit, run: u64) -> Result<(), NoMemory> {
        self.begin_run(unit, run)
    }

    fn run(&mut self, cmd: &Cmd) -> Answer {
        self.call(cmd)
    }
}

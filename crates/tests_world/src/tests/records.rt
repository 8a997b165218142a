//! How commands are answered, and what a runner in memory keeps of them.

use super::{answered, is, run_text};
use std::alloc::Global;
use std::process::Abort;
use tests_pools::{
    Asked, answer_text, before, changed, command_of, extent_of, failing_of, pools_of, shown,
    written,
};
use zr_command::{Base, Cmd, Entry, Transfer};
use zr_model::is_well_formed;
use zr_world::{MemZfs, Pools, act};

/// Commands, each by itself, with the extents at which they are to fail: the answer, how many faults there are then, and
/// what has changed.
const ANSWERS: &str = "\
what_fails_may_have_come
now 9000 txg 100 guid 500;tank @a:11:1:1011 #a:11:1:1011 @b:12:2:1012[x];
  send tank a 11 full tank/new => done 0 now 9000 txg 101 guid 500;=;tank/new @a:11:100:1011;
  none send tank a 11 full tank/new => failed 1 =
  part send tank a 11 full tank/new => failed 1 =;=;tank/new partial 11 none tank;
  whole send tank a 11 full tank/new => failed 1 now 9000 txg 101 guid 500;=;tank/new @a:11:100:1011;
  destroy tank @b => failed 1 =
  whole destroy tank @b => failed 1 =

what_is_asked_is_answered
now 9000 txg 100 guid 500;tank @a:11:1:1011 #m:11:1:1011 @b:12:2:1012[x];tank/p placeholder;
  sets => tank -;tank/p on; 0 =
  versions tank => @a:11:1:1011:0;#m:11:1:1011:0;@b:12:2:1012:1; 0 =
  holds tank b => [x] 0 =
  holds tank c => failed 1 =
  none sets => failed 1 =
  whole versions tank => failed 1 =";

/// Pools of which each command sees a copy.
#[derive(Clone, Copy)]
struct Pool<'a> {
    text: &'a str,
}

/// The answer to a command, and how many faults there are then.
fn acted(alloc: Global, pools: &mut Pools, call: &str) -> Option<String> {
    let (extent, ask) = extent_of(call);
    let mut faults = 0;
    let cmd = command_of(alloc, ask)?;
    let answer = act(alloc, pools, &mut faults, &cmd, extent);
    drop(cmd);
    let text = answer_text(alloc, &answer);
    drop(answer);
    let text = text.ok()?;
    format!(in alloc; "{text} {faults}").ok()
}

impl Asked for Pool<'_> {
    fn came(&mut self, alloc: Global, ask: &str) -> Option<String> {
        let mut pools = pools_of(alloc, self.text)?;
        let answer = acted(alloc, &mut pools, ask)?;
        let changed = changed(alloc, self.text, &pools);
        drop(pools);
        let changed = changed.ok()?;
        format!(in alloc; "{answer} {changed}").ok()
    }
}

fn came_alone(alloc: Global, block: &str) -> Option<String> {
    let text = before(block);
    written(alloc, block, &mut Pool { text })
}

#[test]
fn commands_that_are_answered(rt: HostRuntime) {
    for block in ANSWERS.split("\n\n") {
        is(&rt, block, came_alone(rt.alloc(), block));
    }
}

/// Commands to a runner, one after the other: the answer, what has changed since the first, how many entries there are in
/// the record, and the last of them.
const BLOCKS: &str = "\
a_record_names_no_guids
now 9000 txg 100 guid 500;tank @a:11:1:1011;
  part send tank a 11 full tank/cut => failed =;=;tank/cut partial 11 none tank; 1: send tank a of guid 0 in full to tank/cut
  send tank a 11 full tank/new => done now 9000 txg 101 guid 500;=;tank/cut partial 11 none tank;tank/new @a:11:100:1011; 2: send tank a of guid 0 in full to tank/new

a_resume_stands_there_without_its_source_and_snapshot
now 9000 txg 100 guid 500;tank @a:11:1:1011;tank/cut partial 11 none tank;
  send tank a 11 resume 1-000000000000000b-none-tank none tank/cut => done now 9000 txg 101 guid 500;=;tank/cut @a:11:100:1011; 1: send - - of guid 0 by a token to tank/cut

a_begun_run_has_its_number
now 9000 txg 100 guid 500;tank @a:11:1:1011;
  begin 7 => begun = 1: run 7 of a scan of job 3 at 1000";

fn transfer_text(alloc: Global, transfer: &Transfer) -> Option<String> {
    let source = shown(transfer.source.as_bytes());
    let to = shown(transfer.to.as_bytes());
    let target = shown(transfer.target.as_bytes());
    let guid = transfer.guid.0;
    let base = match transfer.base {
        Base::Full => "in full",
        Base::From(_, _) => "from a bookmark",
        Base::Resume(_, _) => "by a token",
    };
    format!(in alloc; "send {source} {to} of guid {guid} {base} to {target}").ok()
}

/// The last entry of a record.
fn last_text(alloc: Global, told: &[Entry]) -> Option<String> {
    match told.last()? {
        Entry::Begin(unit, run) => run_text(alloc, unit, *run),
        Entry::Call(Cmd::Transfer(transfer), _) => transfer_text(alloc, transfer),
        Entry::Call(_, _) => String::from_str(alloc, "another command").ok(),
        Entry::Program(_) | Entry::Stray => String::from_str(alloc, "an entry of children").ok(),
    }
}

/// A runner, and the pools with which it began.
#[derive(Drop)]
struct Runner<'a> {
    zfs: MemZfs,
    before: &'a str,
}

impl Runner<'_> {
    /// What has changed, and the end of the record.
    fn state(&self, alloc: Global) -> Option<String> {
        let told = self.zfs.history();
        let changed = changed(alloc, self.before, self.zfs.pools()).ok()?;
        let last = last_text(alloc, told)?;
        format!(in alloc; "{changed} {}: {last}", told.len()).ok()
    }
}

impl Asked for Runner<'_> {
    fn came(&mut self, alloc: Global, ask: &str) -> Option<String> {
        let (_, ask) = extent_of(ask);
        let answer = answered(alloc, &mut self.zfs, ask)?;
        let state = self.state(alloc)?;
        format!(in alloc; "{answer} {state}").ok()
    }
}

/// A runner over the pools of a block, of whose calls those fail that say so.
fn runner_of<'a, R: Abort>(rt: &R, alloc: Global, block: &'a str) -> Option<Runner<'a>> {
    let before = before(block);
    let failing = failing_of(alloc, block)?;
    let pools = pools_of(alloc, before)?;
    assert!(rt; is_well_formed(&pools));
    let zfs = MemZfs::new(alloc, pools, failing);
    Some(Runner { zfs, before })
}

fn came<R: Abort>(rt: &R, alloc: Global, block: &str) -> Option<String> {
    let mut runner = runner_of(rt, alloc, block)?;
    written(alloc, block, &mut runner)
}

#[test]
fn what_a_runner_keeps(rt: HostRuntime) {
    for block in BLOCKS.split("\n\n") {
        is(&rt, block, came(&rt, rt.alloc(), block));
    }
}

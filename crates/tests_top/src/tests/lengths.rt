//! Paths that are too long, and many datasets.

use super::{Course, Given, children_of, in_line, is, written};
use std::alloc::Global;
use std::process::Abort;
use std::sync::Wait;
use std::thread::Threads;
use tests_pools::number;

/// Lengths in bytes of the path that is pruned, or of the source that is pushed, whose target has four bytes more: the status
/// and what is printed.
const LENGTHS: &str = "\
a_path_of_148_bytes_is_too_long
  snap 147 => status 0 due=2 done=2 coalesced=0 taken=0 fresh=0 steps=0 uptodate=0 conflicts=0 destroyed=1 busy=0 placeholders=0 toolong=0 faults=0 garbled=0 nomemory=0
  snap 148 => status 4 due=1 done=1 coalesced=0 taken=0 fresh=0 steps=0 uptodate=0 conflicts=0 destroyed=0 busy=0 placeholders=0 toolong=1 faults=0 garbled=0 nomemory=0

a_target_of_147_bytes_fits
  push 143 => status 0 due=2 done=2 coalesced=0 taken=0 fresh=0 steps=1 uptodate=0 conflicts=0 destroyed=0 busy=0 placeholders=0 toolong=0 faults=0 garbled=0 nomemory=0

a_target_of_148_bytes_is_too_long
  push 144 => status 4 due=1 done=1 coalesced=0 taken=0 fresh=0 steps=0 uptodate=0 conflicts=0 destroyed=0 busy=0 placeholders=0 toolong=1 faults=0 garbled=0 nomemory=0";

/// How many datasets are pruned, or how many increments are sent to one target, and what is printed: with enough memory no
/// number of units or steps is too many.
const MANY: &str = "\
many_datasets_are_as_many_units_and_a_scan
  prunes 40 => status 0 due=41 done=41 coalesced=0 taken=0 fresh=0 steps=0 uptodate=0 conflicts=0 destroyed=40 busy=0 placeholders=0 toolong=0 faults=0 garbled=0 nomemory=0
  prunes 200 => status 0 due=201 done=201 coalesced=0 taken=0 fresh=0 steps=0 uptodate=0 conflicts=0 destroyed=200 busy=0 placeholders=0 toolong=0 faults=0 garbled=0 nomemory=0

many_increments_are_sent_in_one_run
  steps 200 => status 0 due=2 done=2 coalesced=0 taken=0 fresh=0 steps=200 uptodate=0 conflicts=0 destroyed=0 busy=0 placeholders=0 toolong=0 faults=0 garbled=0 nomemory=0";

/// Three snapshots, of which the oldest goes.
const THREE: &str = "@a:11:11:100 @b:12:12:200 @c:13:13:300";

/// What stands before the snapshots that are not replicated yet.
const REPLICATED: &str =
    "now 1000 txg 1000 guid 1000;b;b/c;b/c/tank;b/c/tank/a @s3:19[zrepl_last_received_J_p];tank;tank/a #zrepl_CURSOR_G_0000000000000013_J_p:19";

/// The text of a path of so many bytes below `tank`.
fn long_path(alloc: Global, len: u64) -> Option<String> {
    let mut path = String::from_str(alloc, "tank/").ok()?;
    for _ in 5..len {
        path.push('x').ok()?;
    }
    Some(path)
}

/// The call with a job file of this word on these pools.
fn once<R: Abort + Threads + Wait + Sync>(
    rt: &R,
    alloc: Global,
    file: &str,
    pools: &str,
) -> Option<String> {
    let given = Given {
        words: "once f",
        file,
        failing_put: 0,
    };
    let mut children = children_of(rt, alloc, pools, Vec::new(alloc))?;
    in_line(rt, alloc, given, &mut children)
}

fn pruned<R: Abort + Threads + Wait + Sync>(rt: &R, alloc: Global, path: &str) -> Option<String> {
    let pools = format!(in alloc; "now 1000 txg 100 guid 100;{path} {THREE};").ok()?;
    once(rt, alloc, "snap", pools.as_str())
}

fn pushed<R: Abort + Threads + Wait + Sync>(rt: &R, alloc: Global, path: &str) -> Option<String> {
    let file = format!(in alloc; "push {path}").ok()?;
    let pools = format!(in alloc;
        "now 1000 txg 100 guid 100;b;b/c;b/c/tank;{path} @s1:17 @s2:18 @s3:19;"
    );
    let pools = pools.ok()?;
    once(rt, alloc, file.as_str(), pools.as_str())
}

/// A job on a path of so many bytes.
pub fn job<R: Abort + Threads + Wait + Sync>(rt: &R, alloc: Global, ask: &str) -> Option<String> {
    let (job, len) = ask.split_once(' ')?;
    let path = long_path(alloc, number(len)?)?;
    match job {
        "push" => pushed(rt, alloc, path.as_str()),
        _ => pruned(rt, alloc, path.as_str()),
    }
}

#[test]
fn long_paths(rt: HostRuntime) {
    for block in LENGTHS.split("\n\n") {
        is(&rt, block, written(&rt, rt.alloc(), block, Course::Length));
    }
}

/// So many datasets with three snapshots each.
fn datasets(alloc: Global, count: u64) -> Option<String> {
    let mut pools = String::from_str(alloc, "now 1000 txg 100 guid 100;").ok()?;
    for number in 0..count {
        // Three digits, so that the paths stand in byte order.
        write!(pools, "tank/{} {THREE};", number.saturating_add(100)).ok()?;
    }
    Some(pools)
}

/// A source with a replicated snapshot and so many that follow it.
fn snapshots(alloc: Global, count: u64) -> Option<String> {
    let mut pools = String::from_str(alloc, REPLICATED).ok()?;
    for number in 0..count {
        let guid = number.saturating_add(100);
        write!(pools, " @n{number}:{guid}").ok()?;
    }
    pools.push(';').ok()?;
    Some(pools)
}

/// A job on so many datasets or snapshots.
pub fn many<R: Abort + Threads + Wait + Sync>(rt: &R, alloc: Global, ask: &str) -> Option<String> {
    let (job, count) = ask.split_once(' ')?;
    let count = number(count)?;
    match job {
        "steps" => once(rt, alloc, "push tank/a", snapshots(alloc, count)?.as_str()),
        _ => once(rt, alloc, "snap", datasets(alloc, count)?.as_str()),
    }
}

#[test]
fn many_units_and_steps(rt: HostRuntime) {
    for block in MANY.split("\n\n") {
        is(&rt, block, written(&rt, rt.alloc(), block, Course::Many));
    }
}

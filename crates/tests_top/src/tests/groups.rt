//! Prunes of many snapshots, with how many names each destroy has.

use super::{Course, Given, children_of, is, ran, written};
use std::alloc::{AllocError, Global};
use std::process::Abort;
use std::sync::Wait;
use std::thread::Threads;
use tests_pools::{number, shown};
use zr_exec::Line;
use zr_world::{Extent, PlannedFailure};

/// How many snapshots the pruned dataset has, of which two stay, and the number of the call that fails, where one does: how many
/// names each destroy has and the last of them, the status and what is printed.
const GROUPS: &str = "\
sixty_four_names_are_one_child
  65 => 63 to n162, status 0 due=2 done=2 coalesced=0 taken=0 fresh=0 steps=0 uptodate=0 conflicts=0 destroyed=63 busy=0 placeholders=0 toolong=0 faults=0 garbled=0 nomemory=0
  66 => 64 to n163, status 0 due=2 done=2 coalesced=0 taken=0 fresh=0 steps=0 uptodate=0 conflicts=0 destroyed=64 busy=0 placeholders=0 toolong=0 faults=0 garbled=0 nomemory=0
  67 => 64 to n163, 1 to tank@n164, status 0 due=2 done=2 coalesced=0 taken=0 fresh=0 steps=0 uptodate=0 conflicts=0 destroyed=65 busy=0 placeholders=0 toolong=0 faults=0 garbled=0 nomemory=0

seven_names_are_the_last_of_five_children
  265 => 64 to n163, 64 to n227, 64 to n291, 64 to n355, 7 to n362, status 0 due=2 done=2 coalesced=0 taken=0 fresh=0 steps=0 uptodate=0 conflicts=0 destroyed=263 busy=0 placeholders=0 toolong=0 faults=0 garbled=0 nomemory=0

the_rest_is_destroyed_behind_a_destroy_that_fails
  135 fails at 4 => 64 to n163, 64 to n227, 5 to n232, status 0 due=2 done=2 coalesced=0 taken=0 fresh=0 steps=0 uptodate=0 conflicts=0 destroyed=69 busy=64 placeholders=0 toolong=0 faults=0 garbled=0 nomemory=0
  135 fails at 5 => 64 to n163, 64 to n227, 5 to n232, status 0 due=2 done=2 coalesced=0 taken=0 fresh=0 steps=0 uptodate=0 conflicts=0 destroyed=128 busy=5 placeholders=0 toolong=0 faults=0 garbled=0 nomemory=0";

/// A dataset with so many snapshots, the oldest first.
fn snapshots(alloc: Global, count: u64) -> Option<String> {
    let mut pools = String::from_str(alloc, "now 1000 txg 1000 guid 1000;tank").ok()?;
    for number in 100..count.saturating_add(100) {
        write!(pools, " @n{number}:{number}:{number}:{number}").ok()?;
    }
    pools.push(';').ok()?;
    Some(pools)
}

/// Adds how many names a destroy has, and the last of them.
fn push_group(text: &mut String, names: &str) -> Result<(), AllocError> {
    let count = names.split(',').count();
    let last = match names.rsplit_once(',') {
        Some((_, last)) => last,
        None => names,
    };
    write!(text, "{count} to {last}, ")
}

/// Adds the groups of the destroys, which are the calls of three words.
fn push_groups(text: &mut String, told: &[Line]) -> Result<(), AllocError> {
    for line in told {
        if let Line::Call(call) = line {
            let words = call.words.as_slice();
            if words.len() == 3 {
                push_group(text, shown(words[2].as_slice()))?;
            }
        }
    }
    Ok(())
}

/// The call that fails before its effect; none has the number 0.
fn failing(alloc: Global, call: u64) -> Option<Vec<PlannedFailure>> {
    let failure = PlannedFailure {
        call,
        extent: Extent::None,
    };
    vec![in alloc; failure].ok()
}

/// A prune of a dataset with so many snapshots.
pub fn prune<R: Abort + Threads + Wait + Sync>(rt: &R, alloc: Global, ask: &str) -> Option<String> {
    let (count, fails) = ask.split_once(" fails at ").unwrap_or((ask, "0"));
    let given = Given {
        words: "once f",
        file: "snap",
        failing_put: 0,
    };
    let failing = failing(alloc, number(fails)?)?;
    let pools = snapshots(alloc, number(count)?)?;
    let mut children = children_of(rt, alloc, pools.as_str(), failing)?;
    let ended = ran(rt, alloc, given, &mut children)?;
    let mut text = String::new(alloc);
    push_groups(&mut text, children.as_slice().first()?.history()).ok()?;
    let (status, printed) = (ended.status, ended.printed.trim_end());
    write!(text, "status {status} {printed}").ok()?;
    Some(text)
}

#[test]
fn groups(rt: HostRuntime) {
    for block in GROUPS.split("\n\n") {
        is(&rt, block, written(&rt, rt.alloc(), block, Course::Groups));
    }
}

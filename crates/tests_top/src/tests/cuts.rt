//! Calls of the program that are cut off by a failing child or a failing output.

use super::{Course, Given, children_of, is, ran, written};
use std::alloc::Global;
use std::process::Abort;
use std::sync::Wait;
use std::thread::Threads;
use tests_pools::{before, changed, extent_of, number};
use zr_model::MemSpawn;
use zr_world::PlannedFailure;

/// The pools; then for each call of the first step, which are the listings of the datasets, once each for the two units, and
/// of the source, the step hold, the transfer, the cursor, the last-received hold and the release of the step hold: the
/// status where it fails before its effect, after a part of it and after the whole, and what has changed in the pools; then the
/// status of a second call, after which nothing has changed again, or the step is done.
const FAILING: &str = "\
a_failing_call_ends_the_first_step
now 1000 txg 100 guid 100;b;b/c;b/c/tank;tank;tank/a @s1:17 @s2:18 @s3:19;
  none call 1 => status 5 =, then 0 done
  part call 1 => status 5 =, then 0 done
  whole call 1 => status 5 =, then 0 done
  none call 2 => status 5 =, then 0 done
  part call 2 => status 5 =, then 0 done
  whole call 2 => status 5 =, then 0 done
  none call 3 => status 5 =, then 0 done
  part call 3 => status 5 =, then 0 done
  whole call 3 => status 5 =, then 0 done
  none call 4 => status 5 =, then 0 done
  part call 4 => status 5 =, then 0 done
  whole call 4 => status 5 =;=;=;=;=;tank/a @s1:17 @s2:18 @s3:19[zrepl_STEP_J_p];, then 4 nothing changed
  none call 5 => status 5 =;=;=;=;=;tank/a @s1:17 @s2:18 @s3:19[zrepl_STEP_J_p];, then 4 nothing changed
  part call 5 => status 5 =;=;=;=;b/c/tank/a partial 19 none tank/a;=;tank/a @s1:17 @s2:18 @s3:19[zrepl_STEP_J_p];, then 4 nothing changed
  whole call 5 => status 5 now 1000 txg 101 guid 100;=;=;=;b/c/tank/a @s3:19:100:19;=;tank/a @s1:17 @s2:18 @s3:19[zrepl_STEP_J_p];, then 4 nothing changed
  none call 6 => status 5 now 1000 txg 101 guid 100;=;=;=;b/c/tank/a @s3:19:100:19;=;tank/a @s1:17 @s2:18 @s3:19[zrepl_STEP_J_p];, then 4 nothing changed
  part call 6 => status 5 now 1000 txg 101 guid 100;=;=;=;b/c/tank/a @s3:19:100:19;=;tank/a @s1:17 @s2:18 @s3:19[zrepl_STEP_J_p];, then 4 nothing changed
  whole call 6 => status 5 now 1000 txg 101 guid 100;=;=;=;b/c/tank/a @s3:19:100:19;=;tank/a @s1:17 @s2:18 @s3:19[zrepl_STEP_J_p] #zrepl_CURSOR_G_0000000000000013_J_p:19;, then 4 nothing changed
  none call 7 => status 5 now 1000 txg 101 guid 100;=;=;=;b/c/tank/a @s3:19:100:19;=;tank/a @s1:17 @s2:18 @s3:19[zrepl_STEP_J_p] #zrepl_CURSOR_G_0000000000000013_J_p:19;, then 4 nothing changed
  part call 7 => status 5 now 1000 txg 101 guid 100;=;=;=;b/c/tank/a @s3:19:100:19;=;tank/a @s1:17 @s2:18 @s3:19[zrepl_STEP_J_p] #zrepl_CURSOR_G_0000000000000013_J_p:19;, then 4 nothing changed
  whole call 7 => status 5 now 1000 txg 101 guid 100;=;=;=;b/c/tank/a @s3:19:100:19[zrepl_last_received_J_p];=;tank/a @s1:17 @s2:18 @s3:19[zrepl_STEP_J_p] #zrepl_CURSOR_G_0000000000000013_J_p:19;, then 4 nothing changed
  none call 8 => status 5 now 1000 txg 101 guid 100;=;=;=;b/c/tank/a @s3:19:100:19[zrepl_last_received_J_p];=;tank/a @s1:17 @s2:18 @s3:19[zrepl_STEP_J_p] #zrepl_CURSOR_G_0000000000000013_J_p:19;, then 4 nothing changed
  part call 8 => status 5 now 1000 txg 101 guid 100;=;=;=;b/c/tank/a @s3:19:100:19[zrepl_last_received_J_p];=;tank/a @s1:17 @s2:18 @s3:19[zrepl_STEP_J_p] #zrepl_CURSOR_G_0000000000000013_J_p:19;, then 4 nothing changed
  whole call 8 => status 5 now 1000 txg 101 guid 100;=;=;=;b/c/tank/a @s3:19:100:19[zrepl_last_received_J_p];=;tank/a @s1:17 @s2:18 @s3:19 #zrepl_CURSOR_G_0000000000000013_J_p:19;, then 0 nothing changed";

/// The same of an increment, whose calls are the listings of the datasets, once each for the two units, of the source and of
/// the target, and of the holds of the target's snapshot; the step hold, the transfer, the cursor, the last-received hold, and
/// what was kept for the step before: that hold's release, the old cursor, the step hold.
const FAILING_INCREMENT: &str = "\
a_failing_call_ends_the_increment
now 1000 txg 100 guid 100;b;b/c;b/c/tank;b/c/tank/a @s3:19[zrepl_last_received_J_p];tank;tank/a #zrepl_CURSOR_G_0000000000000013_J_p:19 @s4:20;
  none call 1 => status 5 =, then 0 done
  part call 1 => status 5 =, then 0 done
  whole call 1 => status 5 =, then 0 done
  none call 2 => status 5 =, then 0 done
  part call 2 => status 5 =, then 0 done
  whole call 2 => status 5 =, then 0 done
  none call 3 => status 5 =, then 0 done
  part call 3 => status 5 =, then 0 done
  whole call 3 => status 5 =, then 0 done
  none call 4 => status 5 =, then 0 done
  part call 4 => status 5 =, then 0 done
  whole call 4 => status 5 =, then 0 done
  none call 5 => status 5 =, then 0 done
  part call 5 => status 5 =, then 0 done
  whole call 5 => status 5 =, then 0 done
  none call 6 => status 5 =, then 0 done
  part call 6 => status 5 =, then 0 done
  whole call 6 => status 5 =;=;=;=;=;=;tank/a #zrepl_CURSOR_G_0000000000000013_J_p:19 @s4:20[zrepl_STEP_J_p];, then 4 nothing changed
  none call 7 => status 5 =;=;=;=;=;=;tank/a #zrepl_CURSOR_G_0000000000000013_J_p:19 @s4:20[zrepl_STEP_J_p];, then 4 nothing changed
  part call 7 => status 5 =;=;=;=;b/c/tank/a partial 20 19 tank/a @s3:19[zrepl_last_received_J_p];=;tank/a #zrepl_CURSOR_G_0000000000000013_J_p:19 @s4:20[zrepl_STEP_J_p];, then 4 nothing changed
  whole call 7 => status 5 now 1000 txg 101 guid 100;=;=;=;b/c/tank/a @s3:19[zrepl_last_received_J_p] @s4:20:100:20;=;tank/a #zrepl_CURSOR_G_0000000000000013_J_p:19 @s4:20[zrepl_STEP_J_p];, then 4 nothing changed
  none call 8 => status 5 now 1000 txg 101 guid 100;=;=;=;b/c/tank/a @s3:19[zrepl_last_received_J_p] @s4:20:100:20;=;tank/a #zrepl_CURSOR_G_0000000000000013_J_p:19 @s4:20[zrepl_STEP_J_p];, then 4 nothing changed
  part call 8 => status 5 now 1000 txg 101 guid 100;=;=;=;b/c/tank/a @s3:19[zrepl_last_received_J_p] @s4:20:100:20;=;tank/a #zrepl_CURSOR_G_0000000000000013_J_p:19 @s4:20[zrepl_STEP_J_p];, then 4 nothing changed
  whole call 8 => status 5 now 1000 txg 101 guid 100;=;=;=;b/c/tank/a @s3:19[zrepl_last_received_J_p] @s4:20:100:20;=;tank/a #zrepl_CURSOR_G_0000000000000013_J_p:19 @s4:20[zrepl_STEP_J_p] #zrepl_CURSOR_G_0000000000000014_J_p:20;, then 4 nothing changed
  none call 9 => status 5 now 1000 txg 101 guid 100;=;=;=;b/c/tank/a @s3:19[zrepl_last_received_J_p] @s4:20:100:20;=;tank/a #zrepl_CURSOR_G_0000000000000013_J_p:19 @s4:20[zrepl_STEP_J_p] #zrepl_CURSOR_G_0000000000000014_J_p:20;, then 4 nothing changed
  part call 9 => status 5 now 1000 txg 101 guid 100;=;=;=;b/c/tank/a @s3:19[zrepl_last_received_J_p] @s4:20:100:20;=;tank/a #zrepl_CURSOR_G_0000000000000013_J_p:19 @s4:20[zrepl_STEP_J_p] #zrepl_CURSOR_G_0000000000000014_J_p:20;, then 4 nothing changed
  whole call 9 => status 5 now 1000 txg 101 guid 100;=;=;=;b/c/tank/a @s3:19[zrepl_last_received_J_p] @s4:20:100:20[zrepl_last_received_J_p];=;tank/a #zrepl_CURSOR_G_0000000000000013_J_p:19 @s4:20[zrepl_STEP_J_p] #zrepl_CURSOR_G_0000000000000014_J_p:20;, then 4 nothing changed
  none call 10 => status 5 now 1000 txg 101 guid 100;=;=;=;b/c/tank/a @s3:19[zrepl_last_received_J_p] @s4:20:100:20[zrepl_last_received_J_p];=;tank/a #zrepl_CURSOR_G_0000000000000013_J_p:19 @s4:20[zrepl_STEP_J_p] #zrepl_CURSOR_G_0000000000000014_J_p:20;, then 4 nothing changed
  part call 10 => status 5 now 1000 txg 101 guid 100;=;=;=;b/c/tank/a @s3:19[zrepl_last_received_J_p] @s4:20:100:20[zrepl_last_received_J_p];=;tank/a #zrepl_CURSOR_G_0000000000000013_J_p:19 @s4:20[zrepl_STEP_J_p] #zrepl_CURSOR_G_0000000000000014_J_p:20;, then 4 nothing changed
  whole call 10 => status 5 now 1000 txg 101 guid 100;=;=;=;b/c/tank/a @s3:19 @s4:20:100:20[zrepl_last_received_J_p];=;tank/a #zrepl_CURSOR_G_0000000000000013_J_p:19 @s4:20[zrepl_STEP_J_p] #zrepl_CURSOR_G_0000000000000014_J_p:20;, then 4 nothing changed
  none call 11 => status 5 now 1000 txg 101 guid 100;=;=;=;b/c/tank/a @s3:19 @s4:20:100:20[zrepl_last_received_J_p];=;tank/a #zrepl_CURSOR_G_0000000000000013_J_p:19 @s4:20[zrepl_STEP_J_p] #zrepl_CURSOR_G_0000000000000014_J_p:20;, then 4 nothing changed
  part call 11 => status 5 now 1000 txg 101 guid 100;=;=;=;b/c/tank/a @s3:19 @s4:20:100:20[zrepl_last_received_J_p];=;tank/a #zrepl_CURSOR_G_0000000000000013_J_p:19 @s4:20[zrepl_STEP_J_p] #zrepl_CURSOR_G_0000000000000014_J_p:20;, then 4 nothing changed
  whole call 11 => status 5 now 1000 txg 101 guid 100;=;=;=;b/c/tank/a @s3:19 @s4:20:100:20[zrepl_last_received_J_p];=;tank/a @s4:20[zrepl_STEP_J_p] #zrepl_CURSOR_G_0000000000000014_J_p:20;, then 4 nothing changed
  none call 12 => status 5 now 1000 txg 101 guid 100;=;=;=;b/c/tank/a @s3:19 @s4:20:100:20[zrepl_last_received_J_p];=;tank/a @s4:20[zrepl_STEP_J_p] #zrepl_CURSOR_G_0000000000000014_J_p:20;, then 4 nothing changed
  part call 12 => status 5 now 1000 txg 101 guid 100;=;=;=;b/c/tank/a @s3:19 @s4:20:100:20[zrepl_last_received_J_p];=;tank/a @s4:20[zrepl_STEP_J_p] #zrepl_CURSOR_G_0000000000000014_J_p:20;, then 4 nothing changed
  whole call 12 => status 5 now 1000 txg 101 guid 100;=;=;=;b/c/tank/a @s3:19 @s4:20:100:20[zrepl_last_received_J_p];=;tank/a @s4:20 #zrepl_CURSOR_G_0000000000000014_J_p:20;, then 0 nothing changed";

/// The call that fails as the words say.
fn failing_in(alloc: Global, ask: &str) -> Option<Vec<PlannedFailure>> {
    let (extent, call) = extent_of(ask);
    let extent = extent?;
    let call = number(call.strip_prefix("call ")?)?;
    vec![in alloc; PlannedFailure { call, extent }].ok()
}

/// What has changed in the pools once the first step is done, and once the increment is.
const FIRST_STEP: &str =
    "now 1000 txg 101 guid 100;=;=;=;b/c/tank/a @s3:19:100:19[zrepl_last_received_J_p];=;tank/a @s1:17 @s2:18 @s3:19 #zrepl_CURSOR_G_0000000000000013_J_p:19;";

const INCREMENT: &str =
    "now 1000 txg 101 guid 100;=;=;=;b/c/tank/a @s3:19 @s4:20:100:20[zrepl_last_received_J_p];=;tank/a @s4:20 #zrepl_CURSOR_G_0000000000000014_J_p:20;";

/// What a second call did, by what had changed before it and after it.
fn second_text(first: &str, second: &str, done: &str) -> &'static str {
    if second == first {
        "nothing changed"
    } else if second == done {
        "done"
    } else {
        "not done"
    }
}

/// What has changed in the pools of the runner.
fn changed_in(alloc: Global, before: &str, children: &Vec<MemSpawn>) -> Option<String> {
    let child = children.as_slice().first()?;
    changed(alloc, before, child.pools()).ok()
}

/// A push that is cut, and the same call again.
pub fn push<R: Abort + Threads + Wait + Sync>(
    rt: &R,
    alloc: Global,
    before: &str,
    done: &str,
    ask: &str,
) -> Option<String> {
    let given = Given {
        words: "once f",
        file: "push tank/a",
        failing_put: 0,
    };
    let mut children = children_of(rt, alloc, before, failing_in(alloc, ask)?)?;
    let status = ran(rt, alloc, given, &mut children)?.status;
    let first = changed_in(alloc, before, &children)?;
    let again = ran(rt, alloc, given, &mut children)?.status;
    let second = changed_in(alloc, before, &children)?;
    drop(children);
    let end = second_text(first.as_str(), second.as_str(), done);
    drop(second);
    format!(in alloc; "status {status} {first}, then {again} {end}").ok()
}

#[test]
fn calls_that_fail(rt: HostRuntime) {
    for (block, done) in [(FAILING, FIRST_STEP), (FAILING_INCREMENT, INCREMENT)] {
        let before = before(block);
        let course = Course::Push { before, done };
        is(&rt, block, written(&rt, rt.alloc(), block, course));
    }
}

/// The status where a put of the output fails. The line is put at once, with its newline.
const PUTS: &str = "\
a_failing_output_is_status_8
  1 => status 8
  2 => status 0";

/// The pools before a call whose output is cut.
const THREE: &str = "now 1000 txg 100 guid 100;tank @a:11:11:100 @b:12:12:200 @c:13:13:300;";

/// A prune whose put of this number fails.
pub fn put<R: Abort + Threads + Wait + Sync>(rt: &R, alloc: Global, ask: &str) -> Option<String> {
    let given = Given {
        words: "once f",
        file: "snap",
        failing_put: number(ask)?,
    };
    let mut children = children_of(rt, alloc, THREE, Vec::new(alloc))?;
    let status = ran(rt, alloc, given, &mut children)?.status;
    drop(children);
    format!(in alloc; "status {status}").ok()
}

#[test]
fn outputs_that_fail(rt: HostRuntime) {
    is(&rt, PUTS, written(&rt, rt.alloc(), PUTS, Course::Output));
}

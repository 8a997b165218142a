//! Worked examples of `once`: the pools, the words of the program and of its job file; then the words of its children, a line a
//! call, with the extent at which it fails before one that fails; then what is printed, the status, and what has changed in
//! the pools.

use super::{Ended, Given, children_of, is, ran};
use std::alloc::{AllocError, Global};
use std::process::Abort;
use std::sync::Wait;
use std::thread::Threads;
use tests_pools::{before, changed, failing_of, shown};
use zr_base::Bytes;
use zr_exec::Line;
use zr_model::MemSpawn;
use zr_world::{Extent, PlannedFailure};

/// Calls that prune, or are refused.
const PRUNES: &str = "\
last_n_destroys_the_oldest
now 1000 txg 100 guid 100;tank @a:11:11:100 @b:12:12:200 @c:13:13:300;
once f of snap
  zfs list -H -p -t filesystem,volume -o name,zrepl:placeholder,receive_resume_token
  zfs list -H -p -d 1 -t snapshot,bookmark -s createtxg -o name,guid,createtxg,creation,userrefs tank
  zfs destroy tank@a
due=2 done=2 coalesced=0 taken=0 fresh=0 steps=0 uptodate=0 conflicts=0 destroyed=1 busy=0 placeholders=0 toolong=0 faults=0 garbled=0 nomemory=0
status 0
=;tank @b:12:12:200 @c:13:13:300;

nothing_to_prune
now 1000 txg 100 guid 100;tank;
once f of snap
  zfs list -H -p -t filesystem,volume -o name,zrepl:placeholder,receive_resume_token
  zfs list -H -p -d 1 -t snapshot,bookmark -s createtxg -o name,guid,createtxg,creation,userrefs tank
due=2 done=2 coalesced=0 taken=0 fresh=0 steps=0 uptodate=0 conflicts=0 destroyed=0 busy=0 placeholders=0 toolong=0 faults=0 garbled=0 nomemory=0
status 0
=

equal_creation_goes_by_txg
now 1000 txg 100 guid 100;tank @q:11:11:100 @p:12:12:100 @r:13:13:200;
once f of snap
  zfs list -H -p -t filesystem,volume -o name,zrepl:placeholder,receive_resume_token
  zfs list -H -p -d 1 -t snapshot,bookmark -s createtxg -o name,guid,createtxg,creation,userrefs tank
  zfs destroy tank@q
due=2 done=2 coalesced=0 taken=0 fresh=0 steps=0 uptodate=0 conflicts=0 destroyed=1 busy=0 placeholders=0 toolong=0 faults=0 garbled=0 nomemory=0
status 0
=;tank @p:12:12:100 @r:13:13:200;

held_snapshot_stays
now 1000 txg 100 guid 100;tank @a:11:11:100[backup~tag] @b:12:12:200 @c:13:13:300;
once f of snap
  zfs list -H -p -t filesystem,volume -o name,zrepl:placeholder,receive_resume_token
  zfs list -H -p -d 1 -t snapshot,bookmark -s createtxg -o name,guid,createtxg,creation,userrefs tank
due=2 done=2 coalesced=0 taken=0 fresh=0 steps=0 uptodate=0 conflicts=0 destroyed=0 busy=0 placeholders=0 toolong=0 faults=0 garbled=0 nomemory=0
status 0
=

those_that_go_are_named_in_the_order_of_the_listing
now 1000 txg 100 guid 100;tank @a:11:11:100 @b:12:12:200 @c:13:13:300 @d:14:14:400 @e:15:15:500;
once f of snap
  zfs list -H -p -t filesystem,volume -o name,zrepl:placeholder,receive_resume_token
  zfs list -H -p -d 1 -t snapshot,bookmark -s createtxg -o name,guid,createtxg,creation,userrefs tank
  zfs destroy tank@a,b,c
due=2 done=2 coalesced=0 taken=0 fresh=0 steps=0 uptodate=0 conflicts=0 destroyed=3 busy=0 placeholders=0 toolong=0 faults=0 garbled=0 nomemory=0
status 0
=;tank @d:14:14:400 @e:15:15:500;

a_held_snapshot_is_not_named_among_those_that_go
now 1000 txg 100 guid 100;tank @a:11:11:100 @b:12:12:200[tag] @c:13:13:300 @d:14:14:400 @e:15:15:500;
once f of snap
  zfs list -H -p -t filesystem,volume -o name,zrepl:placeholder,receive_resume_token
  zfs list -H -p -d 1 -t snapshot,bookmark -s createtxg -o name,guid,createtxg,creation,userrefs tank
  zfs destroy tank@a,c
due=2 done=2 coalesced=0 taken=0 fresh=0 steps=0 uptodate=0 conflicts=0 destroyed=2 busy=0 placeholders=0 toolong=0 faults=0 garbled=0 nomemory=0
status 0
=;tank @b:12:12:200[tag] @d:14:14:400 @e:15:15:500;

each_name_of_a_destroy_that_fails_counts_as_busy
now 1000 txg 100 guid 100;tank @a:11:11:100 @b:12:12:200 @c:13:13:300 @d:14:14:400;
once f of snap
  zfs list -H -p -t filesystem,volume -o name,zrepl:placeholder,receive_resume_token
  zfs list -H -p -d 1 -t snapshot,bookmark -s createtxg -o name,guid,createtxg,creation,userrefs tank
  none zfs destroy tank@a,b
due=2 done=2 coalesced=0 taken=0 fresh=0 steps=0 uptodate=0 conflicts=0 destroyed=0 busy=2 placeholders=0 toolong=0 faults=0 garbled=0 nomemory=0
status 0
=

a_destroy_that_comes_in_part
now 1000 txg 100 guid 100;tank @a:11:11:100 @b:12:12:200 @c:13:13:300 @d:14:14:400 @e:15:15:500;
once f of snap
  zfs list -H -p -t filesystem,volume -o name,zrepl:placeholder,receive_resume_token
  zfs list -H -p -d 1 -t snapshot,bookmark -s createtxg -o name,guid,createtxg,creation,userrefs tank
  chosen 5 zfs destroy tank@a,b,c
due=2 done=2 coalesced=0 taken=0 fresh=0 steps=0 uptodate=0 conflicts=0 destroyed=0 busy=3 placeholders=0 toolong=0 faults=0 garbled=0 nomemory=0
status 0
=;tank @b:12:12:200 @d:14:14:400 @e:15:15:500;

once_alone_is_a_usage_fault
now 1000 txg 100 guid 100;tank;
once of snap
usage: zrepl once|daemon|configcheck|status|plan FILE, or drill NUMBER; options --workers N --ticks N --zfs PROGRAM
status 2
=

refused_calls_start_no_child
now 1000 txg 100 guid 100;tank @a:11:11:100 @b:12:12:200 @c:13:13:300;
once f of [[jobs
job file: NotToml
status 3
=

refused_calls_start_no_child
now 1000 txg 100 guid 100;tank @a:11:11:100 @b:12:12:200 @c:13:13:300;
once f of jobs = []
job file: NotBuilt
status 3
=

refused_calls_start_no_child
now 1000 txg 100 guid 100;tank @a:11:11:100 @b:12:12:200 @c:13:13:300;
once x.toml of snap
cannot read x.toml
status 7
=

a_failed_listing_ends_its_unit
now 1000 txg 100 guid 100;tank @a:11:11:100 @b:12:12:200 @c:13:13:300;
once f of snap
  zfs list -H -p -t filesystem,volume -o name,zrepl:placeholder,receive_resume_token
  whole zfs list -H -p -d 1 -t snapshot,bookmark -s createtxg -o name,guid,createtxg,creation,userrefs tank
due=2 done=2 coalesced=0 taken=0 fresh=0 steps=0 uptodate=0 conflicts=0 destroyed=0 busy=0 placeholders=0 toolong=0 faults=1 garbled=0 nomemory=0
status 5
=

a_filter_that_matches_nothing_gives_no_units
now 1000 txg 100 guid 100;tankx @a:11:11:100 @b:12:12:200 @c:13:13:300;
once f of snap
  zfs list -H -p -t filesystem,volume -o name,zrepl:placeholder,receive_resume_token
due=1 done=1 coalesced=0 taken=0 fresh=0 steps=0 uptodate=0 conflicts=0 destroyed=0 busy=0 placeholders=0 toolong=0 faults=0 garbled=0 nomemory=0
status 0
=";

/// Replication to a local sink.
const PUSHES: &str = "\
first_step_in_full
now 1000 txg 100 guid 100;b;b/c;b/c/tank;tank;tank/a @s1:17 @s2:18 @s3:19;
once f of push tank/a
  zfs list -H -p -t filesystem,volume -o name,zrepl:placeholder,receive_resume_token
  zfs list -H -p -t filesystem,volume -o name,zrepl:placeholder,receive_resume_token
  zfs list -H -p -d 1 -t snapshot,bookmark -s createtxg -o name,guid,createtxg,creation,userrefs tank/a
  zfs hold zrepl_STEP_J_p tank/a@s3
  zfs send tank/a@s3 | zfs receive -s -u b/c/tank/a
  zfs bookmark tank/a@s3 tank/a#zrepl_CURSOR_G_0000000000000013_J_p
  zfs hold zrepl_last_received_J_p b/c/tank/a@s3
  zfs release zrepl_STEP_J_p tank/a@s3
due=2 done=2 coalesced=0 taken=0 fresh=0 steps=1 uptodate=0 conflicts=0 destroyed=0 busy=0 placeholders=0 toolong=0 faults=0 garbled=0 nomemory=0
status 0
now 1000 txg 101 guid 100;=;=;=;b/c/tank/a @s3:19:100:19[zrepl_last_received_J_p];=;tank/a @s1:17 @s2:18 @s3:19 #zrepl_CURSOR_G_0000000000000013_J_p:19;

the_cursor_is_made_from_the_first_listed_snapshot_of_its_guid
now 1000 txg 100 guid 100;b;b/c;b/c/tank;tank;tank/a @s1:17 @s3:19:18:18 @s4:19;
once f of push tank/a
  zfs list -H -p -t filesystem,volume -o name,zrepl:placeholder,receive_resume_token
  zfs list -H -p -t filesystem,volume -o name,zrepl:placeholder,receive_resume_token
  zfs list -H -p -d 1 -t snapshot,bookmark -s createtxg -o name,guid,createtxg,creation,userrefs tank/a
  zfs hold zrepl_STEP_J_p tank/a@s4
  zfs send tank/a@s4 | zfs receive -s -u b/c/tank/a
  zfs bookmark tank/a@s3 tank/a#zrepl_CURSOR_G_0000000000000013_J_p
  zfs hold zrepl_last_received_J_p b/c/tank/a@s4
  zfs release zrepl_STEP_J_p tank/a@s4
due=2 done=2 coalesced=0 taken=0 fresh=0 steps=1 uptodate=0 conflicts=0 destroyed=0 busy=0 placeholders=0 toolong=0 faults=0 garbled=0 nomemory=0
status 0
now 1000 txg 101 guid 100;=;=;=;b/c/tank/a @s4:19:100:19[zrepl_last_received_J_p];=;tank/a @s1:17 @s3:19:18:18 #zrepl_CURSOR_G_0000000000000013_J_p:19:18:18 @s4:19;

nothing_follows_the_first_step
now 1000 txg 100 guid 100;b;b/c;b/c/tank;b/c/tank/a @s3:19[zrepl_last_received_J_p];tank;tank/a @s1:17 @s2:18 @s3:19 #zrepl_CURSOR_G_0000000000000013_J_p:19;
once f of push tank/a
  zfs list -H -p -t filesystem,volume -o name,zrepl:placeholder,receive_resume_token
  zfs list -H -p -t filesystem,volume -o name,zrepl:placeholder,receive_resume_token
  zfs list -H -p -d 1 -t snapshot,bookmark -s createtxg -o name,guid,createtxg,creation,userrefs tank/a
  zfs list -H -p -d 1 -t snapshot,bookmark -s createtxg -o name,guid,createtxg,creation,userrefs b/c/tank/a
  zfs holds -H b/c/tank/a@s3
due=2 done=2 coalesced=0 taken=0 fresh=0 steps=0 uptodate=1 conflicts=0 destroyed=0 busy=0 placeholders=0 toolong=0 faults=0 garbled=0 nomemory=0
status 0
=

increment_from_the_cursor
now 1000 txg 100 guid 100;b;b/c;b/c/tank;b/c/tank/a @s3:19[zrepl_last_received_J_p];tank;tank/a #zrepl_CURSOR_G_0000000000000013_J_p:19 @s4:20;
once f of push tank/a
  zfs list -H -p -t filesystem,volume -o name,zrepl:placeholder,receive_resume_token
  zfs list -H -p -t filesystem,volume -o name,zrepl:placeholder,receive_resume_token
  zfs list -H -p -d 1 -t snapshot,bookmark -s createtxg -o name,guid,createtxg,creation,userrefs tank/a
  zfs list -H -p -d 1 -t snapshot,bookmark -s createtxg -o name,guid,createtxg,creation,userrefs b/c/tank/a
  zfs holds -H b/c/tank/a@s3
  zfs hold zrepl_STEP_J_p tank/a@s4
  zfs send -i tank/a#zrepl_CURSOR_G_0000000000000013_J_p tank/a@s4 | zfs receive -s -u b/c/tank/a
  zfs bookmark tank/a@s4 tank/a#zrepl_CURSOR_G_0000000000000014_J_p
  zfs hold zrepl_last_received_J_p b/c/tank/a@s4
  zfs release zrepl_last_received_J_p b/c/tank/a@s3
  zfs destroy tank/a#zrepl_CURSOR_G_0000000000000013_J_p
  zfs release zrepl_STEP_J_p tank/a@s4
due=2 done=2 coalesced=0 taken=0 fresh=0 steps=1 uptodate=0 conflicts=0 destroyed=0 busy=0 placeholders=0 toolong=0 faults=0 garbled=0 nomemory=0
status 0
now 1000 txg 101 guid 100;=;=;=;b/c/tank/a @s3:19 @s4:20:100:20[zrepl_last_received_J_p];=;tank/a @s4:20 #zrepl_CURSOR_G_0000000000000014_J_p:20;

nothing_follows_the_increment
now 1000 txg 100 guid 100;b;b/c;b/c/tank;b/c/tank/a @s3:19 @s4:20[zrepl_last_received_J_p];tank;tank/a @s4:20 #zrepl_CURSOR_G_0000000000000014_J_p:20;
once f of push tank/a
  zfs list -H -p -t filesystem,volume -o name,zrepl:placeholder,receive_resume_token
  zfs list -H -p -t filesystem,volume -o name,zrepl:placeholder,receive_resume_token
  zfs list -H -p -d 1 -t snapshot,bookmark -s createtxg -o name,guid,createtxg,creation,userrefs tank/a
  zfs list -H -p -d 1 -t snapshot,bookmark -s createtxg -o name,guid,createtxg,creation,userrefs b/c/tank/a
  zfs holds -H b/c/tank/a@s4
due=2 done=2 coalesced=0 taken=0 fresh=0 steps=0 uptodate=1 conflicts=0 destroyed=0 busy=0 placeholders=0 toolong=0 faults=0 garbled=0 nomemory=0
status 0
=

the_holds_of_the_source_are_listed_before_those_of_the_target
now 1000 txg 100 guid 100;b;b/c;b/c/tank;b/c/tank/a @s3:19[zrepl_last_received_J_p];tank;tank/a @s2:18[x] @s3:19[y] #zrepl_CURSOR_G_0000000000000013_J_p:19;
once f of push tank/a
  zfs list -H -p -t filesystem,volume -o name,zrepl:placeholder,receive_resume_token
  zfs list -H -p -t filesystem,volume -o name,zrepl:placeholder,receive_resume_token
  zfs list -H -p -d 1 -t snapshot,bookmark -s createtxg -o name,guid,createtxg,creation,userrefs tank/a
  zfs list -H -p -d 1 -t snapshot,bookmark -s createtxg -o name,guid,createtxg,creation,userrefs b/c/tank/a
  zfs holds -H tank/a@s2
  zfs holds -H tank/a@s3
  zfs holds -H b/c/tank/a@s3
due=2 done=2 coalesced=0 taken=0 fresh=0 steps=0 uptodate=1 conflicts=0 destroyed=0 busy=0 placeholders=0 toolong=0 faults=0 garbled=0 nomemory=0
status 0
=

a_newer_snapshot_of_the_target_is_a_conflict
now 1000 txg 100 guid 100;b;b/c;b/c/tank;b/c/tank/a @s3:19[zrepl_last_received_J_p] @x:99;tank;tank/a @s3:19 #zrepl_CURSOR_G_0000000000000013_J_p:19 @s4:20;
once f of push tank/a
  zfs list -H -p -t filesystem,volume -o name,zrepl:placeholder,receive_resume_token
  zfs list -H -p -t filesystem,volume -o name,zrepl:placeholder,receive_resume_token
  zfs list -H -p -d 1 -t snapshot,bookmark -s createtxg -o name,guid,createtxg,creation,userrefs tank/a
  zfs list -H -p -d 1 -t snapshot,bookmark -s createtxg -o name,guid,createtxg,creation,userrefs b/c/tank/a
  zfs holds -H b/c/tank/a@s3
due=2 done=2 coalesced=0 taken=0 fresh=0 steps=0 uptodate=0 conflicts=1 destroyed=0 busy=0 placeholders=0 toolong=0 faults=0 garbled=0 nomemory=0
status 4
=

a_partial_receive_is_a_conflict
now 1000 txg 100 guid 100;b;b/c;b/c/tank;b/c/tank/a partial 19 none tank/a;tank;tank/a @s3:19[zrepl_STEP_J_p];
once f of push tank/a
  zfs list -H -p -t filesystem,volume -o name,zrepl:placeholder,receive_resume_token
  zfs list -H -p -t filesystem,volume -o name,zrepl:placeholder,receive_resume_token
  zfs list -H -p -d 1 -t snapshot,bookmark -s createtxg -o name,guid,createtxg,creation,userrefs tank/a
  zfs list -H -p -d 1 -t snapshot,bookmark -s createtxg -o name,guid,createtxg,creation,userrefs b/c/tank/a
  zfs holds -H tank/a@s3
due=2 done=2 coalesced=0 taken=0 fresh=0 steps=0 uptodate=0 conflicts=1 destroyed=0 busy=0 placeholders=0 toolong=0 faults=0 garbled=0 nomemory=0
status 4
=";

/// Adds the extent at which a call fails.
fn push_extent(text: &mut String, extent: Option<Extent>) -> Result<(), AllocError> {
    match extent {
        Some(Extent::None) => text.push_str("none "),
        Some(Extent::Part) => text.push_str("part "),
        Some(Extent::Chosen(bits)) => write!(text, "chosen {bits} "),
        Some(Extent::Whole) => text.push_str("whole "),
        None => Ok(()),
    }
}

/// Adds words with a blank between them.
fn push_words(text: &mut String, words: &[Bytes]) -> Result<(), AllocError> {
    let mut front = "";
    for word in words {
        write!(text, "{front}{}", shown(word.as_slice()))?;
        front = " ";
    }
    Ok(())
}

/// Adds a call and the extent at which it fails. The two ends of a pipe are one call.
fn push_call(text: &mut String, fails: Option<Extent>, line: &Line) -> Result<(), AllocError> {
    text.push_str("\n  ")?;
    push_extent(text, fails)?;
    match line {
        Line::Begin(_, _) => text.push_str("a run"),
        Line::Call(call) => push_words(text, call.words.as_slice()),
        Line::Pipe(piped) => {
            push_words(text, piped.send.as_slice())?;
            text.push_str(" | ")?;
            push_words(text, piped.receive.as_slice())
        }
    }
}

fn push_calls(
    text: &mut String,
    told: &[Line],
    failing: &[PlannedFailure],
) -> Result<(), AllocError> {
    let mut number = 0_u64;
    for line in told {
        if !matches!(line, Line::Begin(_, _)) {
            number = number.saturating_add(1);
            push_call(text, PlannedFailure::find(failing, number), line)?;
        }
    }
    Ok(())
}

/// What the program is given by the third line of a block.
fn given_of(block: &str) -> Option<Given<'_>> {
    let mut lines = block.lines();
    let _ = lines.next();
    let _ = lines.next();
    let (words, file) = lines.next()?.split_once(" of ")?;
    Some(Given {
        words,
        file,
        failing_put: 0,
    })
}

/// The block anew: what there was before, the calls of a child, how the program ended, and what has changed.
fn text_after(alloc: Global, block: &str, ended: &Ended, child: &MemSpawn) -> Option<String> {
    let (given, before) = (given_of(block)?, before(block));
    let name = block.lines().next()?;
    let (words, file) = (given.words, given.file);
    let mut text = format!(in alloc; "{name}\n{before}\n{words} of {file}").ok()?;
    let failing = failing_of(alloc, block)?;
    push_calls(&mut text, child.history(), failing.as_slice()).ok()?;
    drop(failing);
    let changed = changed(alloc, before, child.pools()).ok()?;
    let (status, printed) = (ended.status, ended.printed.as_str());
    write!(text, "\n{printed}status {status}\n{changed}").ok()?;
    Some(text)
}

fn came<R: Abort + Threads + Wait + Sync>(rt: &R, alloc: Global, block: &str) -> Option<String> {
    let failing = failing_of(alloc, block)?;
    let mut children = children_of(rt, alloc, before(block), failing)?;
    let ended = ran(rt, alloc, given_of(block)?, &mut children)?;
    text_after(alloc, block, &ended, children.as_slice().first()?)
}

#[test]
fn prunes(rt: HostRuntime) {
    for block in PRUNES.split("\n\n") {
        is(&rt, block, came(&rt, rt.alloc(), block));
    }
}

#[test]
fn pushes(rt: HostRuntime) {
    for block in PUSHES.split("\n\n") {
        is(&rt, block, came(&rt, rt.alloc(), block));
    }
}

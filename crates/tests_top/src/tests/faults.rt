//! Children that write what they are told to.

use super::{Course, Given, in_line, is, written};
use std::alloc::Global;
use std::process::Abort;
use std::sync::Wait;
use std::thread::Threads;
use zr_base::NoMemory;
use zr_exec::{LISTING_LIMIT, PipeExit, RunExit, Spawn};
use zr_names::Unit;

/// How the first children end and what they write, `~` for a tab and `$` for the end of a line, or a listing by its
/// name; the status and what is printed.
const BLOCKS: &str = "\
faults_and_garbled_listings_end_their_unit: the first child fails, with a good listing or a bad one
  fails tank~-~-$, then ends tank~-~-$ => status 5 due=1 done=1 coalesced=0 taken=0 fresh=0 steps=0 uptodate=0 conflicts=0 destroyed=0 busy=0 placeholders=0 toolong=0 faults=1 garbled=0 nomemory=0
  fails bad, then ends tank~-~-$ => status 5 due=1 done=1 coalesced=0 taken=0 fresh=0 steps=0 uptodate=0 conflicts=0 destroyed=0 busy=0 placeholders=0 toolong=0 faults=1 garbled=0 nomemory=0

faults_and_garbled_listings_end_their_unit: the listing of the datasets is garbled: a line too many, and a last line that was cut
  ends tank~-~-$bad$, then ends tank~-~-$ => status 6 due=1 done=1 coalesced=0 taken=0 fresh=0 steps=0 uptodate=0 conflicts=0 destroyed=0 busy=0 placeholders=0 toolong=0 faults=0 garbled=1 nomemory=0
  ends tank~-~-$tan, then ends tank~-~-$ => status 6 due=1 done=1 coalesced=0 taken=0 fresh=0 steps=0 uptodate=0 conflicts=0 destroyed=0 busy=0 placeholders=0 toolong=0 faults=0 garbled=1 nomemory=0

faults_and_garbled_listings_end_their_unit: the second child fails
  ends tank~-~-$, then fails  => status 5 due=2 done=2 coalesced=0 taken=0 fresh=0 steps=0 uptodate=0 conflicts=0 destroyed=0 busy=0 placeholders=0 toolong=0 faults=1 garbled=0 nomemory=0

faults_and_garbled_listings_end_their_unit: the listing of the versions is garbled: a column too few, and a last line that was cut
  ends tank~-~-$, then ends tank@a~1~1~1$ => status 6 due=2 done=2 coalesced=0 taken=0 fresh=0 steps=0 uptodate=0 conflicts=0 destroyed=0 busy=0 placeholders=0 toolong=0 faults=0 garbled=1 nomemory=0
  ends tank~-~-$, then ends tank@a~1~1~1~0$tank@b~2~2~2~0 => status 6 due=2 done=2 coalesced=0 taken=0 fresh=0 steps=0 uptodate=0 conflicts=0 destroyed=0 busy=0 placeholders=0 toolong=0 faults=0 garbled=1 nomemory=0

a_child_without_memory_ends_its_unit: the first child, and the second one
  wants , then ends tank~-~-$ => status 9 due=1 done=1 coalesced=0 taken=0 fresh=0 steps=0 uptodate=0 conflicts=0 destroyed=0 busy=0 placeholders=0 toolong=0 faults=0 garbled=0 nomemory=1
  ends tank~-~-$, then wants  => status 9 due=2 done=2 coalesced=0 taken=0 fresh=0 steps=0 uptodate=0 conflicts=0 destroyed=0 busy=0 placeholders=0 toolong=0 faults=0 garbled=0 nomemory=1

a_replication_lists_both_sides: nothing is left to do
  push: ends sets, then ends sets, then ends source, then ends target, then ends source holds, then ends target holds => status 0 due=2 done=2 coalesced=0 taken=0 fresh=0 steps=0 uptodate=1 conflicts=0 destroyed=0 busy=0 placeholders=0 toolong=0 faults=0 garbled=0 nomemory=0

a_garbled_listing_ends_the_replication: each of its listings, one after the other
  push: ends sets, then ends bad => status 6 due=2 done=2 coalesced=0 taken=0 fresh=0 steps=0 uptodate=0 conflicts=0 destroyed=0 busy=0 placeholders=0 toolong=0 faults=0 garbled=1 nomemory=0
  push: ends sets, then ends sets, then ends bad => status 6 due=2 done=2 coalesced=0 taken=0 fresh=0 steps=0 uptodate=0 conflicts=0 destroyed=0 busy=0 placeholders=0 toolong=0 faults=0 garbled=1 nomemory=0
  push: ends sets, then ends sets, then ends source, then ends bad => status 6 due=2 done=2 coalesced=0 taken=0 fresh=0 steps=0 uptodate=0 conflicts=0 destroyed=0 busy=0 placeholders=0 toolong=0 faults=0 garbled=1 nomemory=0
  push: ends sets, then ends sets, then ends source, then ends target, then ends bad => status 6 due=2 done=2 coalesced=0 taken=0 fresh=0 steps=0 uptodate=0 conflicts=0 destroyed=0 busy=0 placeholders=0 toolong=0 faults=0 garbled=1 nomemory=0
  push: ends sets, then ends sets, then ends source, then ends target, then ends source holds, then ends bad => status 6 due=2 done=2 coalesced=0 taken=0 fresh=0 steps=0 uptodate=0 conflicts=0 destroyed=0 busy=0 placeholders=0 toolong=0 faults=0 garbled=1 nomemory=0";

/// The datasets of a pair that was replicated.
const SETS: &str = "b~-~-$b/c~on~-$b/c/tank~on~-$b/c/tank/a~-~-$tank~-~-$tank/a~-~-$";

/// Its source: a snapshot with a hold, and the cursor of it.
const SOURCE: &str = "tank/a@s3~19~19~19~1$tank/a#zrepl_CURSOR_G_0000000000000013_J_p~19~19~19~-$";

const TARGET: &str = "b/c/tank/a@s3~19~19~19~1$";

const SOURCE_HOLDS: &str = "tank/a@s3~backup~Thu Jan  1 00:00 1970$";

const TARGET_HOLDS: &str = "b/c/tank/a@s3~zrepl_last_received_J_p~Thu Jan  1 00:00 1970$";

/// A listing by its name, or another text.
fn listing(spelled: &str) -> &str {
    match spelled {
        "sets" => SETS,
        "source" => SOURCE,
        "target" => TARGET,
        "source holds" => SOURCE_HOLDS,
        "target holds" => TARGET_HOLDS,
        other => other,
    }
}

/// A runner whose children write what they are told to, one after the other, and end so. After the last of them each child
/// fails.
#[derive(Drop)]
struct Scripted {
    script: Vec<Says>,
    calls: usize,
    faults: u64,
}

/// How a child ends.
#[derive(Clone, Copy)]
enum End {
    Well,
    Badly,
    /// Memory is wanting.
    Short,
}

/// What a child writes, and how it ends.
#[derive(Drop)]
struct Says {
    end: End,
    text: String,
}

impl Scripted {
    /// How the next child ends, and what it writes.
    fn next(&self) -> (End, &[u8]) {
        match self.script.as_slice().get(self.calls) {
            Some(says) => (says.end, says.text.as_bytes()),
            None => (End::Badly, &[]),
        }
    }
}

impl Spawn for Scripted {
    ghost use Rattle.std.specs.Prelude.{None};

    ghost faults = { λ s. s.faults };

    ghost history = { λ s. None };

    ghost pools = { λ s. None };

    fn begin(&mut self, _unit: &Unit, _run: u64) -> Result<(), NoMemory> {
        Ok(())
    }

    fn run(&mut self, _argv: &[String], out: &mut Vec<u8>) -> RunExit {
        out.clear();
        let (end, text) = self.next();
        if text.len() > LISTING_LIMIT || out.extend_from_slice(text).is_err() {
            return RunExit::NoMemory;
        }
        self.calls = self.calls.saturating_add(1);
        match end {
            End::Well => RunExit::Done,
            End::Badly => {
                self.faults = self.faults.saturating_add(1);
                RunExit::Nonzero
            }
            End::Short => RunExit::NoMemory,
        }
    }

    fn pipe(&mut self, _send: &[String], _receive: &[String]) -> PipeExit {
        self.faults = self.faults.saturating_add(1);
        PipeExit::Failed
    }
}

/// What a child does, by its words.
fn says_of(alloc: Global, words: &str) -> Option<Says> {
    let (end, spelled) = words.split_once(' ')?;
    let mut text = String::new(alloc);
    for letter in listing(spelled).chars() {
        let letter = match letter {
            '~' => '\t',
            '$' => '\n',
            _ => letter,
        };
        text.push(letter).ok()?;
    }
    let end = match end {
        "ends" => End::Well,
        "wants" => End::Short,
        _ => End::Badly,
    };
    Some(Says { end, text })
}

fn script_of(alloc: Global, ask: &str) -> Option<Vec<Scripted>> {
    let mut script = Vec::new(alloc);
    for words in ask.split(", then ") {
        script.push(says_of(alloc, words)?).ok()?;
    }
    let child = Scripted {
        script,
        calls: 0,
        faults: 0,
    };
    vec![in alloc; child].ok()
}

/// A prune, or a replication, whose children say what the words say.
pub fn script<R: Abort + Threads + Wait + Sync>(
    rt: &R,
    alloc: Global,
    ask: &str,
) -> Option<String> {
    let (file, script) = match ask.strip_prefix("push: ") {
        Some(script) => ("push tank/a", script),
        None => ("snap", ask),
    };
    let given = Given {
        words: "once f",
        file,
        failing_put: 0,
    };
    let mut children = script_of(alloc, script)?;
    in_line(rt, alloc, given, &mut children)
}

#[test]
fn children_that_fail(rt: HostRuntime) {
    for block in BLOCKS.split("\n\n") {
        is(&rt, block, written(&rt, rt.alloc(), block, Course::Script));
    }
}

//! Cases stand in blocks, with an empty line between them, as `tests_pools` reads them. A test writes each block anew with what
//! came, and compares the two.

mod calls;
mod clocks;
mod cuts;
mod faults;
mod groups;
mod lengths;

use std::alloc::Global;
use std::process::Abort;
use std::sync::Wait;
use std::thread::Threads;
use tests_pools::{ask_of, difference, pools_of, push_line};
use zr_exec::Spawn;
use zr_model::{MemSpawn, is_well_formed};
use zr_names::Moment;
use zr_pipe::MemSink;
use zr_top::{Clock, MemClock, MemFiles, StoredFile, zrepl};
use zr_world::PlannedFailure;

/// A job that keeps the newest two snapshots of each dataset of `tank`.
const SNAP: &str = r#"
[[jobs]]
name = "s"
type = "snap"
[jobs.filesystems]
"tank<" = true
[jobs.snapshotting]
type = "manual"
[[jobs.pruning.keep]]
type = "last_n"
count = 2
"#;

/// What stands before the dataset that a push job `p` replicates.
const PUSH: &str = r#"
[[jobs]]
name = "p"
type = "push"
[jobs.connect]
type = "local"
listener_name = "l"
client_identity = "c"
[jobs.filesystems]
"#;

/// What stands behind it, with the sink that it pushes to.
const TO_LOCAL_SINK: &str = r#" = true
[jobs.snapshotting]
type = "manual"
[jobs.pruning]
keep_sender = []
keep_receiver = []

[[jobs]]
name = "k"
type = "sink"
root_fs = "b"
[jobs.serve]
type = "local"
listener_name = "l"
"#;

/// The block came out as it stands.
fn is<R: Abort>(rt: &R, block: &str, came: Option<String>) {
    let (line, said) = difference(block, &came);
    assert!(rt; said == line, "{line}\ncame out as\n{said}");
}

/// A job file by its word: `snap`, `push` and the dataset that is pushed, or a text that is no job file.
fn file_of(alloc: Global, word: &str) -> Option<String> {
    if word == "snap" {
        return String::from_str(alloc, SNAP).ok();
    }
    match word.strip_prefix("push ") {
        Some(source) => format!(in alloc; "{PUSH}\"{source}\"{TO_LOCAL_SINK}").ok(),
        None => String::from_str(alloc, word).ok(),
    }
}

/// Words with a blank between them.
fn words_of(alloc: Global, text: &str) -> Option<Vec<String>> {
    let mut words = Vec::new(alloc);
    for word in text.split(' ') {
        words.push(String::from_str(alloc, word).ok()?).ok()?;
    }
    Some(words)
}

/// The file `f`.
fn files_of(alloc: Global, word: &str) -> Option<MemFiles> {
    let text = file_of(alloc, word)?;
    let file = StoredFile::new(alloc, "f", text.as_bytes()).ok()?;
    drop(text);
    let files = vec![in alloc; file].ok()?;
    Some(MemFiles::new(alloc, files, Vec::new(alloc)))
}

/// An output of which this put fails, if there is one of that number.
fn output_of(alloc: Global, failing_put: u64) -> Option<MemSink> {
    let failing = vec![in alloc; failing_put].ok()?;
    Some(MemSink::new(alloc, failing))
}

fn clock(alloc: Global) -> Option<MemClock> {
    let moment = Moment::new(1_709_210_096_789)?;
    let moments = vec![in alloc; moment].ok()?;
    Some(MemClock::new(moments))
}

/// One runner of children over these pools.
fn children_of<R: Abort>(
    rt: &R,
    alloc: Global,
    before: &str,
    failing: Vec<PlannedFailure>,
) -> Option<Vec<MemSpawn>> {
    let pools = pools_of(alloc, before)?;
    assert!(rt; is_well_formed(&pools));
    let child = MemSpawn::new(alloc, pools, failing);
    vec![in alloc; child].ok()
}

/// What the questions of a block are about.
#[derive(Clone, Copy)]
enum Course<'a> {
    /// A push on these pools that is cut; this has changed once it is done.
    Push { before: &'a str, done: &'a str },
    /// A prune whose output is cut.
    Output,
    /// A prune or a push whose children say what they were told to.
    Script,
    /// Paths of these lengths.
    Length,
    /// So many datasets or snapshots.
    Many,
    /// A prune of so many snapshots.
    Groups,
}

/// What comes of a question. A function and no trait's method: the bounds on the runtime stand here.
fn came<R: Abort + Threads + Wait + Sync>(
    rt: &R,
    alloc: Global,
    course: Course<'_>,
    ask: &str,
) -> Option<String> {
    match course {
        Course::Push { before, done } => cuts::push(rt, alloc, before, done, ask),
        Course::Output => cuts::put(rt, alloc, ask),
        Course::Script => faults::script(rt, alloc, ask),
        Course::Length => lengths::job(rt, alloc, ask),
        Course::Many => lengths::many(rt, alloc, ask),
        Course::Groups => groups::prune(rt, alloc, ask),
    }
}

/// A block up to its last question, with what came.
fn written<R: Abort + Threads + Wait + Sync>(
    rt: &R,
    alloc: Global,
    block: &str,
    course: Course<'_>,
) -> Option<String> {
    let (head, _) = block.split_once("\n  ")?;
    let mut text = String::from_str(alloc, head).ok()?;
    for line in block.lines() {
        if let Some(line) = line.strip_prefix("  ") {
            let ask = ask_of(line);
            let came = came(rt, alloc, course, ask)?;
            push_line(&mut text, ask, came.as_str()).ok()?;
        }
    }
    Some(text)
}

/// What the program is given: its words, the word of the job file `f`, and the number of the put that fails, or 0.
#[derive(Clone, Copy)]
struct Given<'a> {
    words: &'a str,
    file: &'a str,
    failing_put: u64,
}

/// The status of the program, and what it printed.
#[derive(Drop)]
struct Ended {
    status: u8,
    printed: String,
}

fn ran<R: Abort + Threads + Wait + Sync, S: Spawn + Send + Drop>(
    rt: &R,
    alloc: Global,
    given: Given<'_>,
    children: &mut Vec<S>,
) -> Option<Ended> {
    let clock = clock(alloc)?;
    ran_at(rt, alloc, given, clock, children)
}

/// The same with another clock.
fn ran_at<R: Abort + Threads + Wait + Sync, C: Clock + Send + Drop, S: Spawn + Send + Drop>(
    rt: &R,
    alloc: Global,
    given: Given<'_>,
    clock: C,
    children: &mut Vec<S>,
) -> Option<Ended> {
    let words = words_of(alloc, given.words)?;
    let mut files = files_of(alloc, given.file)?;
    let mut out = output_of(alloc, given.failing_put)?;
    assert!(rt; children.len() == 1);
    let words_given = words.as_slice();
    let status = zrepl(
        rt,
        alloc,
        words_given,
        &mut files,
        children,
        clock,
        &mut out,
    );
    drop(words);
    drop(files);
    let printed = String::from_str(alloc, tests_pools::shown(out.written()));
    drop(out);
    let printed = printed.ok()?;
    Some(Ended { status, printed })
}

/// The status and what was printed, in one line.
fn in_line<R: Abort + Threads + Wait + Sync, S: Spawn + Send + Drop>(
    rt: &R,
    alloc: Global,
    given: Given<'_>,
    children: &mut Vec<S>,
) -> Option<String> {
    let ended = ran(rt, alloc, given, children)?;
    let (status, printed) = (ended.status, ended.printed.trim_end());
    format!(in alloc; "status {status} {printed}").ok()
}

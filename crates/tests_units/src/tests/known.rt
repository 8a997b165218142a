//! What a replication unit knows after each of its turns, by what it may give then.

use super::is;
use std::alloc::{AllocError, Global};
use tests_pools::{Asked, command_of, job, path, rows_of, shown, snap, tags_of, written};
use zr_base::Rows;
use zr_command::{Answer, Reply, SetRow, Transfer};
use zr_jobs::Pair;
use zr_known::Known;
use zr_names::{Guid, SnapName, cursor_name};

/// Turns that were done, one after the other, with what a listing gave: whether then all is listed, the pair is straight, and
/// nothing is left to settle; and what may be given, of the snapshots `a` and `b` and the guids 1 and 2. A transfer that
/// comes next is `send` where it may come now, else `next`.
const BLOCKS: &str = "\
an_increment_is_sent_and_settled
The target has `a` alone, held and with its cursor.
  sets: p/a q q/p q/p/a => is; may
  versions p/a: @a:1:1:10:0 #zrepl_CURSOR_G_0000000000000001_J_push:1:1:10:0 @b:2:2:20:0 => is; may stepa stepb
  versions q/p/a: @a:1:1:10:1 => is; may nextb-1 stepa stepb
  holds q/p/a a: zrepl_last_received_J_push => is listed straight rest; may nextb-1 stepa stepb
  hold p/a b step push => is listed; may sendb-1 stepa unstepb
  send p/a b 2 zrepl_CURSOR_G_0000000000000001_J_push 1 q/p/a => is listed; may stepa mark2
  bookmark p/a @b zrepl_CURSOR_G_0000000000000002_J_push => is listed; may stepa lastb
  hold q/p/a b last push => is listed; may stepa unlasta unstepb unmark1
  release q/p/a a last push => is listed; may stepa unstepb unmark1
  destroy p/a #zrepl_CURSOR_G_0000000000000001_J_push => is listed; may stepa unstepb
  release p/a b step push => is listed straight rest; may stepa stepb

to_a_target_that_is_absent_all_is_sent
The target is not there.
  sets: p/a q q/p => is; may
  versions p/a: @a:1:1:10:0 @b:2:2:20:0 => is listed straight; may nextb stepa stepb
  hold p/a b step push => is listed; may sendb stepa unstepb
  send p/a b 2 full q/p/a => is listed; may stepa mark2
  bookmark p/a @b zrepl_CURSOR_G_0000000000000002_J_push => is listed; may stepa lastb
  hold q/p/a b last push => is listed; may stepa unstepb
  release p/a b step push => is listed straight rest; may stepa stepb

nothing_is_cleaned_up_where_the_root_is_not_listed
The pool of the target is not imported.
  sets: p/a => is; may
  versions p/a: @a:1:1:10:0 #zrepl_CURSOR_G_0000000000000001_J_push:1:1:10:0 @b:2:2:20:1 => is; may nextb stepa
  holds p/a b: zrepl_STEP_J_push => is listed; may sendb stepa
  sets: p/a q => is listed; may sendb stepa unstepb unmark1

what_is_known_of_a_target_goes_with_its_row
The target is gone, and comes back without the hold that it had.
  sets: p/a q q/p q/p/a => is; may
  versions p/a: @a:1:1:10:0 #zrepl_CURSOR_G_0000000000000001_J_push:1:1:10:0 @b:2:2:20:0 => is; may stepa stepb
  versions q/p/a: @a:1:1:10:1 => is; may nextb-1 stepa stepb
  holds q/p/a a: zrepl_last_received_J_push => is listed straight rest; may nextb-1 stepa stepb
  sets: p/a q q/p => is listed; may nextb stepa stepb unmark1
  sets: p/a q q/p q/p/a => is; may stepa stepb
  versions q/p/a: @a:1:1:10:0 => is listed; may nextb-1 stepa lasta stepb

holds_count_where_the_job_puts_them
A step hold counts on the source alone, and a last-received hold on the target alone.
  sets: p/a q q/p q/p/a => is; may
  versions p/a: @a:1:1:10:0 #zrepl_CURSOR_G_0000000000000001_J_push:1:1:10:0 => is; may stepa
  versions q/p/a: @a:1:1:10:0 => is listed; may stepa lasta
  hold q/p/a a step push => is listed; may stepa lasta
  hold p/a a last push => is listed; may stepa lasta

a_pair_with_a_cursor_and_no_target_is_not_straight
The target is not there, and the source has the cursor of an earlier one.
  sets: p/a q q/p => is; may
  versions p/a: @a:1:1:10:0 #zrepl_CURSOR_G_0000000000000001_J_push:1:1:10:0 => is listed; may nexta stepa unmark1

a_pair_with_a_step_hold_is_not_straight
The target is not there, and the source has the step hold of an earlier run.
  sets: p/a q q/p => is; may
  versions p/a: @a:1:1:10:1 => is straight; may nexta
  holds p/a a: zrepl_STEP_J_push,backup => is listed; may senda unstepa

a_pair_with_a_newer_target_is_not_straight
The target has a snapshot of its own that is newer.
  sets: p/a q q/p q/p/a => is; may
  versions p/a: @a:1:1:10:0 #zrepl_CURSOR_G_0000000000000001_J_push:1:1:10:0 => is; may stepa
  versions q/p/a: @a:1:1:10:1 @x:9:9:20:0 => is; may stepa
  holds q/p/a a: zrepl_last_received_J_push => is listed; may stepa

a_source_without_a_snapshot_is_not_straight
The source has the cursor of what the target has.
  sets: p/a q q/p q/p/a => is; may
  versions p/a: #zrepl_CURSOR_G_0000000000000001_J_push:1:1:10:0 => is; may
  versions q/p/a: @a:1:1:10:1 => is; may
  holds q/p/a a: zrepl_last_received_J_push => is listed rest; may";

/// The job `push` replicates `p/a` to `q/p/a` below `q`.
fn pair(alloc: Global) -> Option<Pair> {
    let job = job(alloc, "push")?;
    let source = path(alloc, "p/a")?;
    let target = path(alloc, "q/p/a")?;
    let root = path(alloc, "q")?;
    Some(Pair {
        job,
        source,
        target,
        root,
    })
}

fn set_of(alloc: Global, text: &str) -> Option<SetRow> {
    Some(SetRow {
        path: path(alloc, text)?,
        placeholder: false,
        token: None,
    })
}

fn sets_of(alloc: Global, paths: &str) -> Option<Rows<SetRow>> {
    let mut rows = Rows::new(alloc);
    for text in paths.split(' ') {
        rows.push(set_of(alloc, text)?).ok()?;
    }
    Some(rows)
}

/// What a command that was done gave back.
fn reply_of(alloc: Global, ask: &str, listed: &str) -> Option<Reply> {
    if ask == "sets" {
        return Some(Reply::Sets(sets_of(alloc, listed)?));
    }
    if ask.starts_with("versions ") {
        return Some(Reply::Versions(rows_of(alloc, listed)?));
    }
    if ask.starts_with("holds ") {
        return Some(Reply::Holds(tags_of(alloc, listed)?));
    }
    Some(Reply::Nothing)
}

/// The turn with these words was done.
fn tell(alloc: Global, known: &mut Known, pair: &Pair, turn: &str) -> Option<()> {
    let (ask, listed) = turn.split_once(": ").unwrap_or((turn, ""));
    let answer = Answer::Done(reply_of(alloc, ask, listed)?);
    match command_of(alloc, ask) {
        Some(cmd) => {
            let told = known.tell(alloc, pair, &cmd, &answer);
            drop(cmd);
            drop(answer);
            told.ok()
        }
        None => {
            drop(answer);
            None
        }
    }
}

fn push_transfer(
    text: &mut String,
    known: &Known,
    pair: &Pair,
    transfer: &Transfer,
) -> Result<(), AllocError> {
    let may = known.is_step_held(&transfer.to) && known.newest_is_safe(pair);
    let word = if may { "send" } else { "next" };
    let to = shown(transfer.to.as_bytes());
    match transfer.base.guid() {
        Some(from) => write!(text, " {word}{to}-{}", from.0),
        None => write!(text, " {word}{to}"),
    }
}

/// Adds the transfer that comes next.
fn push_next(alloc: Global, text: &mut String, known: &Known, pair: &Pair) -> Option<()> {
    match known.next_transfer(alloc, pair).ok()? {
        Some(transfer) => {
            let pushed = push_transfer(text, known, pair, &transfer);
            drop(transfer);
            pushed.ok()
        }
        None => Some(()),
    }
}

/// Adds a word and a name, where it may be given.
fn push_word(text: &mut String, may: bool, word: &str, name: &SnapName) -> Result<(), AllocError> {
    if may {
        write!(text, " {word}{}", shown(name.as_bytes()))?;
    }
    Ok(())
}

/// Adds whether a snapshot's hold may be put or taken off.
fn push_holds(
    text: &mut String,
    known: &Known,
    pair: &Pair,
    name: &SnapName,
) -> Result<(), AllocError> {
    push_word(text, known.may_hold_step(name), "step", name)?;
    push_word(text, known.may_release_step(pair, name), "unstep", name)?;
    push_word(text, known.may_hold_last(pair, name), "last", name)?;
    push_word(text, known.may_release_last(name), "unlast", name)
}

fn is_newest(known: &Known, guid: u64) -> bool {
    match known.newest() {
        Some(last) => last.guid.0 == guid,
        None => false,
    }
}

/// `mark` where the cursor of a guid may be made, and `unmark` where it may be destroyed.
fn mark_word(alloc: Global, known: &Known, pair: &Pair, guid: u64) -> Option<&'static str> {
    let has_source = known.cursor_source(pair, Guid(guid)).is_some();
    let cursor = cursor_name(alloc, Guid(guid), &pair.job).ok()?;
    let may_make = is_newest(known, guid) && !known.has_mark(&cursor) && has_source;
    let may_destroy = known.may_destroy_mark(pair, &cursor);
    match (may_make, may_destroy) {
        (true, true) => Some("mark and unmark"),
        (true, false) => Some("mark"),
        (false, true) => Some("unmark"),
        (false, false) => Some(""),
    }
}

fn push_mark(text: &mut String, word: &str, guid: u64) -> Result<(), AllocError> {
    if word.is_empty() {
        return Ok(());
    }
    write!(text, " {word}{guid}")
}

/// The three that hold after a turn, in words.
fn push_state(text: &mut String, known: &Known, pair: &Pair) -> Result<(), AllocError> {
    let listed = if known.has_listed(pair) {
        " listed"
    } else {
        ""
    };
    let straight = if known.is_straight(pair) {
        " straight"
    } else {
        ""
    };
    let rest = if known.is_at_rest(pair) { " rest" } else { "" };
    write!(text, "is{listed}{straight}{rest}; may")
}

/// Adds whether the holds of a snapshot may be put or taken off.
fn push_snap(
    alloc: Global,
    text: &mut String,
    known: &Known,
    pair: &Pair,
    name: &str,
) -> Option<()> {
    let name = snap(alloc, name)?;
    push_holds(text, known, pair, &name).ok()
}

/// What is known, and the pair.
#[derive(Drop)]
struct Replication {
    known: Known,
    pair: Pair,
}

impl Replication {
    fn push_given(&self, alloc: Global, text: &mut String) -> Option<()> {
        let (known, pair) = (&self.known, &self.pair);
        push_next(alloc, text, known, pair)?;
        push_snap(alloc, text, known, pair, "a")?;
        push_snap(alloc, text, known, pair, "b")?;
        push_mark(text, mark_word(alloc, known, pair, 1)?, 1).ok()?;
        push_mark(text, mark_word(alloc, known, pair, 2)?, 2).ok()
    }
}

impl Asked for Replication {
    fn came(&mut self, alloc: Global, ask: &str) -> Option<String> {
        tell(alloc, &mut self.known, &self.pair, ask)?;
        let mut text = String::new(alloc);
        push_state(&mut text, &self.known, &self.pair).ok()?;
        self.push_given(alloc, &mut text)?;
        Some(text)
    }
}

fn came(alloc: Global, block: &str) -> Option<String> {
    let pair = pair(alloc)?;
    let known = Known::new(alloc);
    let mut replication = Replication { known, pair };
    written(alloc, block, &mut replication)
}

#[test]
fn turns(rt: HostRuntime) {
    for block in BLOCKS.split("\n\n") {
        is(&rt, block, came(rt.alloc(), block));
    }
}

/// What a listing of the source shows: of `a` on the source, on the target and its last hold, of the root, and of the cursors
/// of 1 and 2.
const SHOWN: &str = "true false false false true false";

fn shows(alloc: Global, known: &Known, pair: &Pair) -> Option<String> {
    let name = snap(alloc, "a")?;
    let (source, target) = (known.shows_source(&name), known.shows_target(&name));
    let (held, root) = (known.is_last_held(&name), known.shows_set(&pair.root));
    drop(name);
    let first = known.knows_cursor(pair, Guid(1));
    let second = known.knows_cursor(pair, Guid(2));
    format!(in alloc; "{source} {target} {held} {root} {first} {second}").ok()
}

fn shown_after(alloc: Global, turn: &str) -> Option<String> {
    let pair = pair(alloc)?;
    let mut known = Known::new(alloc);
    let told = tell(alloc, &mut known, &pair, turn);
    let text = shows(alloc, &known, &pair);
    drop(known);
    drop(pair);
    told?;
    text
}

#[test]
fn what_the_listings_show(rt: HostRuntime) {
    let turn = "versions p/a: @a:1:1:10 #zrepl_CURSOR_G_0000000000000001_J_push:1:1:10";
    is(&rt, SHOWN, shown_after(rt.alloc(), turn));
}

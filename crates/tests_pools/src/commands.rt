//! Commands by their words, and which of the calls of a block are to fail.

use crate::words::{job, mark, number, path, snap, token, word};
use std::alloc::Global;
use std::str::Split;
use zr_command::{Base, Cmd, Names, Transfer, VersionName, read_names};
use zr_names::{Guid, TagKind};
use zr_world::{Extent, PlannedFailure};

/// `@` and a snapshot's name or `#` and a bookmark's.
pub fn name_of(alloc: Global, text: &str) -> Option<VersionName> {
    if let Some(text) = text.strip_prefix('@') {
        return Some(VersionName::Snap(snap(alloc, text)?));
    }
    let text = text.strip_prefix('#')?;
    Some(VersionName::Mark(mark(alloc, text)?))
}

fn kind(text: &str) -> Option<TagKind> {
    match text {
        "step" => Some(TagKind::Step),
        "last" => Some(TagKind::Last),
        _ => None,
    }
}

fn versions(alloc: Global, set: &str) -> Option<Cmd> {
    Some(Cmd::Versions(path(alloc, set)?))
}

fn holds(alloc: Global, set: &str, name: &str) -> Option<Cmd> {
    let set = path(alloc, set)?;
    Some(Cmd::Holds(set, snap(alloc, name)?))
}

fn snapshot(alloc: Global, set: &str, name: &str) -> Option<Cmd> {
    let set = path(alloc, set)?;
    Some(Cmd::Snapshot(set, snap(alloc, name)?))
}

fn create(alloc: Global, set: &str) -> Option<Cmd> {
    Some(Cmd::Create(path(alloc, set)?))
}

fn abort(alloc: Global, set: &str) -> Option<Cmd> {
    Some(Cmd::Abort(path(alloc, set)?))
}

/// The snapshot, the kind of the hold and its job.
fn hold(alloc: Global, set: &str, words: &mut Split<'_, char>) -> Option<Cmd> {
    let (name, of, by) = (word(words), kind(word(words))?, word(words));
    let set = path(alloc, set)?;
    let name = snap(alloc, name)?;
    Some(Cmd::Hold(of, job(alloc, by)?, set, name))
}

fn release(alloc: Global, set: &str, words: &mut Split<'_, char>) -> Option<Cmd> {
    let (name, of, by) = (word(words), kind(word(words))?, word(words));
    let set = path(alloc, set)?;
    let name = snap(alloc, name)?;
    Some(Cmd::Release(of, job(alloc, by)?, set, name))
}

/// What the bookmark is of, and its name.
fn bookmark(alloc: Global, set: &str, of: &str, name: &str) -> Option<Cmd> {
    let set = path(alloc, set)?;
    let of = name_of(alloc, of)?;
    Some(Cmd::Bookmark(set, of, mark(alloc, name)?))
}

/// Names of snapshots, parted by commas.
fn group(alloc: Global, text: &str) -> Option<Names> {
    let mut names = Vec::new(alloc);
    for name in text.split(',') {
        names.push(snap(alloc, name)?).ok()?;
    }
    read_names(names).ok()
}

/// `@` and the names of snapshots or `#` and a bookmark's.
fn destroy(alloc: Global, set: &str, names: &str) -> Option<Cmd> {
    let set = path(alloc, set)?;
    if let Some(names) = names.strip_prefix('@') {
        return Some(Cmd::DestroySnaps(set, group(alloc, names)?));
    }
    let name = names.strip_prefix('#')?;
    Some(Cmd::DestroyMark(set, mark(alloc, name)?))
}

/// What a transfer starts from: `full`, a token and its guid or `none` behind `resume`, or a bookmark and its guid.
fn base(alloc: Global, start: &str, of: &str, guid: &str) -> Option<Base> {
    match start {
        "full" => Some(Base::Full),
        "resume" => Some(Base::Resume(token(alloc, of)?, from(guid)?)),
        name => Some(Base::From(mark(alloc, name)?, Guid(number(of)?))),
    }
}

/// The guid of what a stream goes on from, or `none`.
fn from(text: &str) -> Option<Option<Guid>> {
    if text == "none" {
        return Some(None);
    }
    Some(Some(Guid(number(text)?)))
}

/// The words behind the first one of a base.
fn base_words<'a>(start: &str, words: &mut Split<'a, char>) -> (&'a str, &'a str) {
    match start {
        "full" => ("", ""),
        "resume" => (word(words), word(words)),
        _ => (word(words), ""),
    }
}

/// The snapshot and its guid, the base, the target and whether it is forced.
fn send(alloc: Global, set: &str, words: &mut Split<'_, char>) -> Option<Cmd> {
    let (to, guid) = (word(words), Guid(number(word(words))?));
    let start = word(words);
    let (of, from) = base_words(start, words);
    let (target, force) = (word(words), word(words) == "force");
    let target = path(alloc, target)?;
    let source = path(alloc, set)?;
    let to = snap(alloc, to)?;
    Some(Cmd::Transfer(Transfer {
        source,
        to,
        guid,
        base: base(alloc, start, of, from)?,
        target,
        force,
    }))
}

/// A command by its words: what it does, the dataset to which it does it, and the rest.
pub fn command_of(alloc: Global, line: &str) -> Option<Cmd> {
    let mut words = line.split(' ');
    let verb = word(&mut words);
    let set = word(&mut words);
    match verb {
        "sets" => Some(Cmd::Sets),
        "versions" => versions(alloc, set),
        "holds" => holds(alloc, set, word(&mut words)),
        "token" => Some(Cmd::Token(token(alloc, set)?)),
        "snapshot" => snapshot(alloc, set, word(&mut words)),
        "hold" => hold(alloc, set, &mut words),
        "release" => release(alloc, set, &mut words),
        "bookmark" => bookmark(alloc, set, word(&mut words), word(&mut words)),
        "destroy" => destroy(alloc, set, word(&mut words)),
        "create" => create(alloc, set),
        "send" => send(alloc, set, &mut words),
        "abort" => abort(alloc, set),
        _ => None,
    }
}

/// The bits that choose names, and the call behind them.
fn chosen_of(rest: &str) -> Option<(Extent, &str)> {
    let (bits, call) = rest.split_once(' ')?;
    Some((Extent::Chosen(number(bits)?), call))
}

/// The extent that stands before a call, which is to fail at it, and the call.
pub fn extent_of(call: &str) -> (Option<Extent>, &str) {
    match call.split_once(' ') {
        Some(("none", call)) => (Some(Extent::None), call),
        Some(("part", call)) => (Some(Extent::Part), call),
        Some(("chosen", rest)) => match chosen_of(rest) {
            Some((extent, call)) => (Some(extent), call),
            None => (None, call),
        },
        Some(("whole", call)) => (Some(Extent::Whole), call),
        _ => (None, call),
    }
}

/// The calls of a block that are to fail. Its calls are the lines that begin with two blanks.
pub fn failing_of(alloc: Global, block: &str) -> Option<Vec<PlannedFailure>> {
    let mut failing = Vec::new(alloc);
    let mut call = 0_u64;
    for line in block.lines() {
        if let Some(asked) = line.strip_prefix("  ") {
            call = call.saturating_add(1);
            if let (Some(extent), _) = extent_of(asked) {
                failing.push(PlannedFailure { call, extent }).ok()?;
            }
        }
    }
    Some(failing)
}

//! Pools from text and as text.

use crate::answers::{push_name, push_tags};
use crate::commands::name_of;
use crate::rows::{numbers_of, tags_of};
use crate::words::{number, path, shown, word};
use std::alloc::{AllocError, Global};
use std::str::Split;
use zr_base::Rows;
use zr_names::Guid;
use zr_world::{Dataset, Partial, Pools, Version};

fn version(alloc: Global, text: &str) -> Option<Version> {
    let (stands, held) = text.split_once('[').unwrap_or((text, ""));
    let mut words = stands.split(':');
    let name = word(&mut words);
    let numbers = numbers_of(&mut words)?;
    let tags = tags_of(alloc, held)?;
    Some(Version {
        name: name_of(alloc, name)?,
        guid: numbers.guid,
        txg: numbers.txg,
        creation: numbers.creation,
        tags,
    })
}

fn versions(alloc: Global, text: &str) -> Option<Rows<Version>> {
    let mut versions = Rows::new(alloc);
    for word in text.split(' ') {
        if word.starts_with('@') || word.starts_with('#') {
            versions.push(version(alloc, word)?).ok()?;
        }
    }
    Some(versions)
}

/// The guids and the source of a partial receive.
fn partial(alloc: Global, text: &str) -> Option<Partial> {
    let mut words = text.split(' ');
    let to = Guid(number(word(&mut words))?);
    let from = match word(&mut words) {
        "none" => None,
        text => Some(Guid(number(text)?)),
    };
    let source = path(alloc, word(&mut words))?;
    Some(Partial { to, from, source })
}

/// The partial receive of a dataset, if it has one.
fn partial_in(alloc: Global, text: &str) -> Option<Option<Partial>> {
    match text.split_once(" partial ") {
        Some((_, text)) => Some(Some(partial(alloc, text)?)),
        None => Some(None),
    }
}

fn dataset(alloc: Global, text: &str) -> Option<Dataset> {
    let path = path(alloc, word(&mut text.split(' ')))?;
    let partial = partial_in(alloc, text)?;
    Some(Dataset {
        path,
        placeholder: text.contains(" placeholder"),
        partial,
        versions: versions(alloc, text)?,
    })
}

/// A counter behind its name.
fn counter(words: &mut Split<'_, char>) -> Option<u64> {
    let _ = word(words);
    number(word(words))
}

/// The counters, as `now 9000 txg 100 guid 500`, over these datasets.
fn over(text: &str, sets: Rows<Dataset>) -> Option<Pools> {
    let mut words = text.split(' ');
    let now = counter(&mut words)?;
    let next_txg = counter(&mut words)?;
    let next_guid = counter(&mut words)?;
    Some(Pools {
        sets,
        now,
        next_txg,
        next_guid,
    })
}

pub fn pools_of(alloc: Global, text: &str) -> Option<Pools> {
    let (counters, texts) = text.split_once(';')?;
    let mut sets = Rows::new(alloc);
    for text in texts.split(';') {
        if !text.is_empty() {
            sets.push(dataset(alloc, text)?).ok()?;
        }
    }
    over(counters, sets)
}

/// One number where all are the same.
fn push_numbers(text: &mut String, version: &Version) -> Result<(), AllocError> {
    let (guid, txg, creation) = (version.guid.0, version.txg, version.creation);
    if txg == guid && creation == txg {
        write!(text, ":{guid}")
    } else {
        write!(text, ":{guid}:{txg}:{creation}")
    }
}

fn push_version(text: &mut String, version: &Version) -> Result<(), AllocError> {
    text.push(' ')?;
    push_name(text, &version.name)?;
    push_numbers(text, version)?;
    push_tags(text, version.tags.as_slice())
}

fn push_partial(text: &mut String, partial: &Partial) -> Result<(), AllocError> {
    let (to, source) = (partial.to.0, shown(partial.source.as_bytes()));
    match partial.from {
        Some(from) => write!(text, " partial {to} {} {source}", from.0),
        None => write!(text, " partial {to} none {source}"),
    }
}

fn push_set(text: &mut String, set: &Dataset) -> Result<(), AllocError> {
    text.push_str(shown(set.path.as_bytes()))?;
    text.push_str(if set.placeholder { " placeholder" } else { "" })?;
    if let Some(partial) = &set.partial {
        push_partial(text, partial)?;
    }
    for version in set.versions.as_slice() {
        push_version(text, version)?;
    }
    text.push(';')
}

/// Pools as they are read.
fn text_of(alloc: Global, pools: &Pools) -> Result<String, AllocError> {
    let (now, txg, guid) = (pools.now, pools.next_txg, pools.next_guid);
    let mut text = format!(in alloc; "now {now} txg {txg} guid {guid};")?;
    for set in pools.sets.as_slice() {
        push_set(&mut text, set)?;
    }
    Ok(text)
}

/// A part of the text of pools, or `=` where it stood there before.
fn change<'a>(before: &str, part: &'a str) -> &'a str {
    for old in before.split(';') {
        if old == part {
            return "=";
        }
    }
    part
}

/// The text of pools, with `=` for each part that stood there before, and one `=` alone where all parts are the same.
fn changes(alloc: Global, before: &str, after: &str) -> Result<String, AllocError> {
    if before == after {
        return String::from_str(alloc, "=");
    }
    let mut text = String::new(alloc);
    for part in after.trim_end_matches(';').split(';') {
        write!(text, "{};", change(before, part))?;
    }
    Ok(text)
}

/// What has changed in pools since they had this text.
pub fn changed(alloc: Global, before: &str, pools: &Pools) -> Result<String, AllocError> {
    let after = text_of(alloc, pools)?;
    changes(alloc, before, after.as_str())
}

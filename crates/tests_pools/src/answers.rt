//! Answers as text.

use crate::words::shown;
use std::alloc::{AllocError, Global};
use zr_command::{Answer, Reply, SetRow, TokenInfo, VersionName, VersionRow};
use zr_names::Tag;

pub fn push_name(text: &mut String, name: &VersionName) -> Result<(), AllocError> {
    match name {
        VersionName::Snap(name) => write!(text, "@{}", shown(name.as_bytes())),
        VersionName::Mark(name) => write!(text, "#{}", shown(name.as_bytes())),
    }
}

/// A tag, with `~` for a blank.
fn push_tag(text: &mut String, tag: &str) -> Result<(), AllocError> {
    for letter in tag.chars() {
        text.push(if letter == ' ' { '~' } else { letter })?;
    }
    Ok(())
}

/// Tags in brackets, of which none stand for no tags.
pub fn push_tags(text: &mut String, tags: &[Tag]) -> Result<(), AllocError> {
    let mut front = "[";
    for tag in tags {
        text.push_str(front)?;
        push_tag(text, shown(tag.as_bytes()))?;
        front = ",";
    }
    text.push_str(if tags.is_empty() { "" } else { "]" })
}

/// A row as `path on token;`, with `-` where it is no placeholder.
fn push_set_row(text: &mut String, row: &SetRow) -> Result<(), AllocError> {
    let path = shown(row.path.as_bytes());
    let on = if row.placeholder { "on" } else { "-" };
    match &row.token {
        Some(token) => write!(text, "{path} {on} {};", shown(token.as_bytes())),
        None => write!(text, "{path} {on};"),
    }
}

fn push_set_rows(text: &mut String, rows: &[SetRow]) -> Result<(), AllocError> {
    for row in rows {
        push_set_row(text, row)?;
    }
    Ok(())
}

/// A row as `@name:guid:txg:creation:holds;`.
fn push_version_row(text: &mut String, row: &VersionRow) -> Result<(), AllocError> {
    push_name(text, &row.name)?;
    let (guid, txg, creation, refs) = (row.guid.0, row.txg, row.creation, row.refs);
    write!(text, ":{guid}:{txg}:{creation}:{refs};")
}

fn push_version_rows(text: &mut String, rows: &[VersionRow]) -> Result<(), AllocError> {
    for row in rows {
        push_version_row(text, row)?;
    }
    Ok(())
}

/// The guid of what is sent, and that of what the stream goes on from.
fn push_info(text: &mut String, info: &TokenInfo) -> Result<(), AllocError> {
    match info.from {
        Some(from) => write!(text, "to {} from {}", info.to.0, from.0),
        None => write!(text, "to {} in full", info.to.0),
    }
}

fn push_reply(text: &mut String, reply: &Reply) -> Result<(), AllocError> {
    match reply {
        Reply::Nothing => text.push_str("done"),
        Reply::Sets(rows) => push_set_rows(text, rows.as_slice()),
        Reply::Versions(rows) => push_version_rows(text, rows.as_slice()),
        Reply::Holds(tags) => push_tags(text, tags.as_slice()),
        Reply::Token(info) => push_info(text, info),
    }
}

fn push_answer(text: &mut String, answer: &Answer) -> Result<(), AllocError> {
    match answer {
        Answer::Done(reply) => push_reply(text, reply),
        Answer::Failed => text.push_str("failed"),
        Answer::Garbled(line) => write!(text, "garbled {line}"),
        Answer::NoMemory => text.push_str("no memory"),
    }
}

/// What came: the rows or tags of a listing or `no rows`, `done`, `failed`, `garbled` and the line, or `no memory`.
pub fn answer_text(alloc: Global, answer: &Answer) -> Result<String, AllocError> {
    let mut text = String::new(alloc);
    push_answer(&mut text, answer)?;
    text.push_str(if text.is_empty() { "no rows" } else { "" })?;
    Ok(text)
}

//! The words of a line, and the names that they are. What can't be read, or wants memory, is `None`.

use std::alloc::Global;
use std::str::Split;
use zr_names::{
    JobName, MarkName, Path, SnapName, Tag, TokenText, read_job, read_mark, read_path, read_snap,
    read_tag, read_token_text,
};

/// The next word, which is empty where none is left.
pub fn word<'a>(words: &mut Split<'a, char>) -> &'a str {
    words.next().unwrap_or("")
}

pub fn number(text: &str) -> Option<u64> {
    text.parse::<u64>().ok()
}

/// A number, or another one where the word is missing.
pub fn number_or(text: &str, other: u64) -> Option<u64> {
    if text.is_empty() {
        return Some(other);
    }
    number(text)
}

pub fn path(alloc: Global, text: &str) -> Option<Path> {
    read_path(alloc, text.as_bytes()).ok()
}

pub fn snap(alloc: Global, text: &str) -> Option<SnapName> {
    read_snap(alloc, text.as_bytes()).ok()
}

pub fn mark(alloc: Global, text: &str) -> Option<MarkName> {
    read_mark(alloc, text.as_bytes()).ok()
}

pub fn job(alloc: Global, text: &str) -> Option<JobName> {
    read_job(alloc, text.as_bytes()).ok()
}

/// A tag, in which `~` stands for a blank.
pub fn tag(alloc: Global, text: &str) -> Option<Tag> {
    let text = text.replace(alloc, "~", " ").ok()?;
    read_tag(alloc, text.as_bytes()).ok()
}

pub fn token(alloc: Global, text: &str) -> Option<TokenText> {
    read_token_text(alloc, text.as_bytes()).ok()
}

/// A name as text.
pub fn shown(name: &[u8]) -> &str {
    str::from_utf8(name).unwrap_or("?")
}

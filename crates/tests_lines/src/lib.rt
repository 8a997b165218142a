//! How a table of cases is read: a text with a line for each case, `ask => want`, under headings `# ..`.
//! A case says what came out and one function compares it, since a test is proved as any code is and a line is not.
#![tactic(auto)]

use std::alloc::{AllocError, AllocFailed, Global};
use std::str::{Split, Utf8Error};
use zr_names::{
    JobName, MarkName, NameFault, NoMemory, Path, SnapName, read_job, read_mark, read_path,
    read_snap,
};

/// A line can't be read, or memory was refused.
#[derive(Clone, Copy)]
pub struct Unread;

impl From<AllocError> for Unread {
    fn from(_error: AllocError) -> Unread {
        Unread
    }
}

impl<T: Drop> From<AllocFailed<T>> for Unread {
    fn from(_error: AllocFailed<T>) -> Unread {
        Unread
    }
}

impl From<NoMemory> for Unread {
    fn from(_error: NoMemory) -> Unread {
        Unread
    }
}

impl From<NameFault> for Unread {
    fn from(_fault: NameFault) -> Unread {
        Unread
    }
}

impl From<Utf8Error> for Unread {
    fn from(_error: Utf8Error) -> Unread {
        Unread
    }
}

fn halves(line: &str) -> (&str, &str) {
    line.split_once(" => ").unwrap_or((line, "an answer"))
}

/// What a line asks; a heading asks nothing.
pub fn ask_of(line: &str) -> Option<&str> {
    if line.is_empty() || line.starts_with("# ") {
        return None;
    }
    Some(halves(line).0)
}

/// Whether what came out is what the line wants.
pub fn is_wanted(line: &str, said: &Result<String, Unread>) -> bool {
    match said {
        Ok(said) => said.as_str() == halves(line).1,
        Err(Unread) => false,
    }
}

/// What came out, for the message of a test.
pub fn told(said: &Result<String, Unread>) -> &str {
    match said {
        Ok(said) => said.as_str(),
        Err(Unread) => "this can't be read, or memory was refused",
    }
}

/// A number of 32 bits.
pub fn count(text: &str) -> Result<u32, Unread> {
    text.parse::<u32>().ok().ok_or(Unread)
}

/// A number of 64 bits.
pub fn number(text: &str) -> Result<u64, Unread> {
    text.parse::<u64>().ok().ok_or(Unread)
}

fn push(out: &mut Vec<u8>, bytes: &[u8]) -> Result<(), Unread> {
    match out.extend_from_slice(bytes) {
        Ok(()) => Ok(()),
        Err(_) => Err(Unread),
    }
}

fn push_byte(out: &mut Vec<u8>, byte: Option<u8>, rest: &str) -> Result<(), Unread> {
    push(out, &[byte.ok_or(Unread)?])?;
    push(out, rest.as_bytes())
}

fn push_hex(out: &mut Vec<u8>, piece: &str) -> Result<(), Unread> {
    let (digits, rest) = piece.split_at_checked(2).ok_or(Unread)?;
    push_byte(out, u8::from_str_radix(digits, 16).ok(), rest)
}

/// A letter as many times as the number behind it says, which ends with `;`.
fn push_run(out: &mut Vec<u8>, piece: &str) -> Result<(), Unread> {
    let (letter, piece) = piece.split_at_checked(1).ok_or(Unread)?;
    let (number, rest) = piece.split_once(';').ok_or(Unread)?;
    for _ in 0..count(number)? {
        push(out, letter.as_bytes())?;
    }
    push(out, rest.as_bytes())
}

fn escaped_byte(sign: &str) -> Option<u8> {
    match sign {
        "n" => Some(b'\n'),
        "r" => Some(b'\r'),
        "s" => Some(b' '),
        "t" => Some(b'\t'),
        _ => None,
    }
}

/// What a `\` and the text behind it stand for.
fn push_escape(out: &mut Vec<u8>, piece: &str) -> Result<(), Unread> {
    let (sign, rest) = piece.split_at_checked(1).ok_or(Unread)?;
    match sign {
        "x" => push_hex(out, rest),
        "*" => push_run(out, rest),
        "e" => push(out, rest.as_bytes()),
        _ => push_byte(out, escaped_byte(sign), rest),
    }
}

fn push_unescaped(out: &mut Vec<u8>, text: &str) -> Result<(), Unread> {
    let mut pieces = text.split('\\');
    push(out, pieces.next().unwrap_or("").as_bytes())?;
    for piece in pieces {
        push_escape(out, piece)?;
    }
    Ok(())
}

/// The bytes of a text with `\n`, `\r`, `\t`, `\s` for a blank and `\e` for nothing, with two hexadecimal digits
/// behind `\x`, and with 64 times the letter `a` as `\*a64;`.
pub fn bytes_of(alloc: Global, text: &str) -> Result<Vec<u8>, Unread> {
    let mut out = Vec::new(alloc);
    push_unescaped(&mut out, text)?;
    Ok(out)
}

/// Bytes as a text with `\n` and `\t`.
pub fn escaped(alloc: Global, bytes: &[u8]) -> Result<String, Unread> {
    let tabs = shown(bytes).replace(alloc, "\t", "\\t")?;
    Ok(tabs.as_str().replace(alloc, "\n", "\\n")?)
}

/// A text as a `String`.
pub fn text(alloc: Global, text: &str) -> Result<String, Unread> {
    Ok(String::from_str(alloc, text)?)
}

/// A word and a number.
pub fn counted(alloc: Global, word: &str, number: u64) -> Result<String, Unread> {
    Ok(format!(in alloc; "{word} {number}")?)
}

/// A word and a place.
pub fn placed(alloc: Global, word: &str, place: usize) -> Result<String, Unread> {
    Ok(format!(in alloc; "{word} {place}")?)
}

/// `true` or `false`.
pub fn answer(alloc: Global, answer: bool) -> Result<String, Unread> {
    text(alloc, if answer { "true" } else { "false" })
}

/// Why a text is no name.
pub fn fault(alloc: Global, fault: NameFault) -> Result<String, Unread> {
    match fault {
        NameFault::Empty => text(alloc, "empty"),
        NameFault::BadByte(place) => placed(alloc, "bad byte", place),
        NameFault::TooLong(len) => placed(alloc, "too long:", len),
        NameFault::NoMemory => Err(Unread),
    }
}

/// The next part of what a line asks, which is empty where none is left.
pub fn column<'a>(columns: &mut Split<'a, &'static str>) -> &'a str {
    columns.next().unwrap_or("")
}

/// The bytes of a name as text.
pub fn shown(bytes: &[u8]) -> &str {
    str::from_utf8(bytes).unwrap_or("no UTF-8")
}

pub fn path(alloc: Global, text: &str) -> Result<Path, Unread> {
    Ok(read_path(alloc, text.as_bytes())?)
}

pub fn snap(alloc: Global, text: &str) -> Result<SnapName, Unread> {
    Ok(read_snap(alloc, text.as_bytes())?)
}

pub fn mark(alloc: Global, text: &str) -> Result<MarkName, Unread> {
    Ok(read_mark(alloc, text.as_bytes())?)
}

pub fn job(alloc: Global, text: &str) -> Result<JobName, Unread> {
    Ok(read_job(alloc, text.as_bytes())?)
}

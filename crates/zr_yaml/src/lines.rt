//! The lines of a text. Apart from what they say.

ghost use Rattle.std.specs.Prelude.{◌≡◌, ◌+◌, ◌<◌, ◌≤◌, ◌∷◌, length};
ghost use Rattle.zr_yaml.specs.Lines.{content_from, first_length, is_text, lines_of, without_return};

use crate::scalar::ends_with;
use std::str;

fn first_length(text: &[u8]) -> usize
    ensures { result ≡ first_length text.now }
{
    let mut size = 0;
    for byte in text {
        if *byte == b'\n' {
            return size;
        }
        size += 1;
    }
    size
}

/// The first line, and what comes after it.
pub(crate) fn first_line(text: &[u8]) -> (&[u8], &[u8])
    requires { 0 < length text.now }
    ensures lines { lines_of text.now ≡ result.0.now ∷ lines_of result.1.now }
    ensures shorter { length result.0.now + length result.1.now ≤ length text.now }
    ensures rest { length result.1.now < length text.now }
{
    let size = first_length(text);
    if size < text.len() {
        (&text[..size], &text[size + 1..])
    } else {
        (text, &[])
    }
}

/// A line without a carriage return at its end.
fn without_return(line: &[u8]) -> &[u8]
    ensures { result.now ≡ without_return line.now }
{
    if ends_with(line, b'\r') {
        &line[..line.len() - 1]
    } else {
        line
    }
}

/// What a line has in it.
pub(crate) fn content_of(line: &[u8], first: bool) -> &[u8]
    ensures content { result.now ≡ content_from first line.now }
    ensures within { length result.now ≤ length line.now }
{
    let text = without_return(line);
    if first && text == b"---".as_slice() {
        &[]
    } else {
        text
    }
}

/// The line is UTF-8.
pub(crate) fn is_text(line: &[u8]) -> bool
    ensures { result ≡ is_text line.now }
{
    match str::from_utf8(line) {
        Ok(_) => true,
        Err(_) => false,
    }
}

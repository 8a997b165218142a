//! Reads the text of an entry, as a job file has it.

ghost use Rattle.std.specs.Prelude.{◌≡◌};
ghost use Rattle.zr_filter.specs.Patterns.{ReadsPattern, ends_in_mark, stem};

use crate::entry::FilterEntry;
use std::alloc::Global;
use zr_names::{NameFault, read_path};

fn ends_in_mark(text: &[u8]) -> bool
    ensures { result ≡ ends_in_mark text.now }
{
    text.last() == Some(&b'<')
}

fn stem(text: &[u8]) -> &[u8]
    ensures { result.now ≡ stem text.now }
{
    if ends_in_mark(text) {
        &text[..text.len() - 1]
    } else {
        text
    }
}

/// Reads a pattern with its answer: `<` alone, a path, or a path followed by `<`. A fault is the one of
/// `read_path` on the text without the final `<`.
pub fn read_pattern(alloc: Global, text: &[u8], allow: bool) -> Result<FilterEntry, NameFault>
    ensures { ReadsPattern text.now allow result }
{
    if text == b"<".as_slice() {
        return Ok(FilterEntry {
            path: None,
            subtree: true,
            allow,
        });
    }
    Ok(FilterEntry {
        path: Some(read_path(alloc, stem(text))?),
        subtree: ends_in_mark(text),
        allow,
    })
}

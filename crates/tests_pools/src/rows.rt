//! The rows of listings.

use crate::commands::name_of;
use crate::words::{number, number_or, tag, word};
use std::alloc::Global;
use std::str::Split;
use zr_base::Rows;
use zr_command::VersionRow;
use zr_names::{Guid, Tag};

/// Tags with a comma between them and a bracket after the last.
pub fn tags_of(alloc: Global, text: &str) -> Option<Rows<Tag>> {
    let mut tags = Rows::new(alloc);
    for word in text.trim_end_matches(']').split(',') {
        if !word.is_empty() {
            tags.push(tag(alloc, word)?).ok()?;
        }
    }
    Some(tags)
}

/// A guid, a transaction group and a creation.
#[derive(Clone, Copy)]
pub struct Numbers {
    pub guid: Guid,
    pub txg: u64,
    pub creation: u64,
}

/// A missing number is the one before it.
pub fn numbers_of(words: &mut Split<'_, char>) -> Option<Numbers> {
    let guid = number(word(words))?;
    let txg = number_or(word(words), guid)?;
    let creation = number_or(word(words), txg)?;
    let guid = Guid(guid);
    Some(Numbers {
        guid,
        txg,
        creation,
    })
}

/// A row as `@name:guid:txg:creation:holds`, which are none where the number is missing.
fn row(alloc: Global, text: &str) -> Option<VersionRow> {
    let mut words = text.split(':');
    let name = word(&mut words);
    let numbers = numbers_of(&mut words)?;
    let refs = number_or(word(&mut words), 0)?;
    Some(VersionRow {
        name: name_of(alloc, name)?,
        guid: numbers.guid,
        txg: numbers.txg,
        creation: numbers.creation,
        refs,
    })
}

/// Rows with blanks between them, or `nothing`.
pub fn rows_of(alloc: Global, text: &str) -> Option<Rows<VersionRow>> {
    let mut rows = Rows::new(alloc);
    for word in text.split(' ') {
        if word != "nothing" {
            rows.push(row(alloc, word)?).ok()?;
        }
    }
    Some(rows)
}

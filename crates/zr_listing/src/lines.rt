//! Reads a listing line by line, whatever its rows are, and finds the first bad line.

ghost use Rattle.std.specs.Prelude.{◌≡◌, [], ◌∷◌, ◌++◌, ℕ, List, IfOk, IfErr, IsErrOf, OnOk, cond, not, true};
ghost use Rattle.zr_listing.specs.Lines.{IsBadAt, Lines, NamesDiffer};
ghost use Rattle.zr_listing.specs.Steps.{Begins, BeginsBad};
ghost use Rattle.zr_listing.specs.declared.faults.LineFault.TheVariants.{Bad};
ghost use Rattle.zr_listing.specs.Reading.{ReadsOr};
ghost use Rattle.zr_listing.specs.Met.{was_met};
ghost use Rattle.zr_listing.specs.Names.{ties};

use crate::columns::cut;
use crate::faults::{LineFault, ListFault};
use crate::names::Names;
use std::alloc::{AllocError, Global};

/// One kind of listing.
pub(crate) trait Kind {
    type Row: Drop;

    /// Whether a line spells a row.
    ghost spells: { Self → List ℕ → Self.Row → Type 0 };

    /// The text by which two rows of one listing differ.
    ghost name: { Self → Self.Row → List ℕ };

    /// Reads a line.
    fn row(&self, alloc: Global, line: &[u8]) -> Result<Self::Row, LineFault>
        ensures { ReadsOr (spells self.now line.now) result };

    /// The name in a line that spells a row.
    fn name_in<'a>(&self, line: &'a [u8]) -> &'a [u8]
        ensures { (row : Self.Row) → spells self.now line.now row
            → result.now ≡ name self.now row };
}

/// A row, its name, and what follows its line.
struct FirstRow<'a, R> {
    row: R,
    name: &'a [u8],
    after: &'a [u8],
}

/// Reads the first line of a text that is not empty.
fn first_row<'a, K: Kind>(
    alloc: Global,
    kind: &K,
    text: &'a [u8],
) -> Result<FirstRow<'a, K::Row>, LineFault>
    ensures row { IfOk result (λ f.
        Begins (K.spells kind.now) (K.name kind.now) text.now f.row f.name.now f.after.now) }
    ensures bad { IsErrOf result Bad → BeginsBad (K.spells kind.now) text.now }
{
    let Some((line, after)) = cut(text, b'\n') else {
        return Err(LineFault::Bad);
    };
    let row = kind.row(alloc, line)?;
    Ok(FirstRow {
        row,
        name: kind.name_in(line),
        after,
    })
}

/// Adds a row, if its name was not met before, and tells whether it was not.
fn push_row<'a, R: Drop>(
    rows: &mut Vec<R>,
    names: &mut Names<'a>,
    row: R,
    name: &'a [u8],
) -> Result<bool, AllocError>
    ensures added { IfOk result (λ added. added ≡ not (was_met names.old name.now)) }
    ensures met { OnOk result
        ((q : List ℕ) → was_met names.new q ≡ cond (ties name.now q) true (was_met names.old q)) }
    ensures row { IfOk result
        (λ added. added ≡ true → rows.new.items ≡ rows.old.items ++ row ∷ []) }
{
    if !names.insert(name)? {
        return Ok(false);
    }
    rows.push(row)?;
    Ok(true)
}

/// Reads the rows of a listing, a line for each.
pub(crate) fn read_lines<K: Kind>(
    alloc: Global,
    kind: &K,
    bytes: &[u8],
) -> Result<Vec<K::Row>, ListFault>
    ensures rows { IfOk result (λ rows. Lines (K.spells kind.now) bytes.now rows.items) }
    ensures differ { IfOk result (λ rows. NamesDiffer (K.name kind.now) rows.items) }
    ensures garbled { IfErr result (IsBadAt (K.spells kind.now) (K.name kind.now) bytes.now) }
{
    let mut rows = Vec::new(alloc);
    let mut names = Names::new(alloc);
    let mut rest = bytes;
    while !rest.is_empty() {
        let number = rows.len() as u64 + 1;
        match first_row(alloc, kind, rest) {
            Ok(FirstRow { row, name, after }) => {
                if !push_row(&mut rows, &mut names, row, name)? {
                    return Err(ListFault::Garbled(number));
                }
                rest = after;
            }
            Err(LineFault::Bad) => return Err(ListFault::Garbled(number)),
            Err(LineFault::NoMemory) => return Err(ListFault::NoMemory),
        }
    }
    Ok(rows)
}

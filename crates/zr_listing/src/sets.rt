//! The listing of all datasets (zfs-list(8)).

ghost use Rattle.std.specs.Prelude.{◌≡◌, List, Some, None, IfOk, IfErr};
ghost use Rattle.std.specs.Option.{option_copied};
ghost use Rattle.zr_names.specs.Names.{IsName, path_is_bad, token_is_bad};
ghost use Rattle.zr_names.specs.declared.names.TheConstants.{PATH_LIMIT};
ghost use Rattle.zr_listing.specs.Columns.{IsSetLine, IsPath, IsToken};
ghost use Rattle.zr_listing.specs.Lines.{IsBadAt};
ghost use Rattle.zr_listing.specs.Listing.{IsGarbled, IsSetListing};
ghost use Rattle.zr_listing.specs.Reading.{ReadsOr};
ghost use Rattle.zr_command.specs.Listings.{IsSetList};

use crate::columns::{first_column, three_columns};
use crate::faults::{LineFault, ListFault};
use crate::lines::{Kind, read_lines};
use std::alloc::Global;
use zr_command::SetRow;
use zr_names::{Path, Rows, TokenText, read_path, read_token_text};

/// Reads the column of a path.
fn path_of(alloc: Global, column: &[u8]) -> Result<Path, LineFault>
    ensures { ReadsOr (IsPath column.now) result }
{
    Ok(read_path(alloc, column)?)
}

/// Reads the column of a resume token.
fn token_of(alloc: Global, column: &[u8]) -> Result<Option<TokenText>, LineFault>
    ensures { ReadsOr (IsToken column.now) result }
{
    if column == b"-".as_slice() {
        return Ok(None);
    }
    Ok(Some(read_token_text(alloc, column)?))
}

/// Reads a line of a listing of datasets.
pub(crate) fn set_row(alloc: Global, line: &[u8]) -> Result<SetRow, LineFault>
    ensures { ReadsOr (IsSetLine line.now) result }
{
    let (path, flag, token) = three_columns(line).ok_or(LineFault::Bad)?;
    if flag.is_empty() {
        return Err(LineFault::Bad);
    }
    Ok(SetRow {
        path: path_of(alloc, path)?,
        placeholder: flag == b"on".as_slice(),
        token: token_of(alloc, token)?,
    })
}

/// The kind of a listing of datasets.
struct Sets;

impl Kind for Sets {
    ghost use Rattle.zr_listing.specs.Columns.{IsSetLine};

    type Row = SetRow;

    ghost spells = { λ _. IsSetLine };

    ghost name = { λ _ row. row.path };

    fn row(&self, alloc: Global, line: &[u8]) -> Result<SetRow, LineFault> {
        set_row(alloc, line)
    }

    fn name_in<'a>(&self, line: &'a [u8]) -> &'a [u8] {
        first_column(line)
    }
}

/// Reads a listing of datasets (zfs-list(8), with `-H -p -o name,zrepl:placeholder,receive_resume_token`).
pub fn read_sets(alloc: Global, bytes: &[u8]) -> Result<Rows<SetRow>, ListFault>
    ensures rows { IfOk result (IsSetListing bytes.now) }
    ensures names_differ { IfOk result IsSetList }
    ensures only { IfOk result
        (λ rows. (others : List SetRow) → IsSetListing bytes.now others → others ≡ rows) }
    ensures garbled { IfErr result (IsBadAt IsSetLine (λ row. row.path) bytes.now) }
    ensures none { IsGarbled result → (rows : List SetRow) → IsSetListing bytes.now rows → ⊥ }
{
    Ok(Rows::from_vec(read_lines(alloc, &Sets, bytes)?))
}

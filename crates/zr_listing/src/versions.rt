//! The listing of a dataset's snapshots and bookmarks (zfs-list(8)).

ghost use Rattle.std.specs.Prelude.{◌≡◌, ◌++◌, ℕ, List, IfSome, IfNone, IfOk, IfErr, OnOk, IsPermutation};
ghost use Rattle.std.specs.List.Sorted.{IsSortedBy};
ghost use Rattle.std.specs.Ordering.{is_lt};
ghost use Rattle.zr_listing.specs.Columns.{full_name, IsBareName, IsNumber, IsRefs, IsSuffix, IsVersionLine, IsVersionName};
ghost use Rattle.zr_listing.specs.Lines.{IsBadAt};
ghost use Rattle.zr_listing.specs.Listing.{IsGarbled, IsVersionListing};
ghost use Rattle.zr_listing.specs.Order.{row_cmp};
ghost use Rattle.zr_listing.specs.Reading.{ReadsOr};
ghost use Rattle.zr_command.specs.Listings.{IsVersionList};

use crate::columns::{first_column, read_number, version_columns};
use crate::faults::{LineFault, ListFault};
use crate::lines::{Kind, read_lines};
use std::alloc::{AllocError, Global};
use std::cmp::Ordering;
use zr_command::{VersionName, VersionRow};
use zr_names::{Guid, MarkName, Path, Rows, SnapName, read_mark, read_snap};

/// Reads the name of a snapshot, without the `@`.
fn snap_of(alloc: Global, text: &[u8]) -> Result<SnapName, LineFault>
    ensures { ReadsOr (IsBareName text.now) result }
{
    Ok(read_snap(alloc, text)?)
}

/// Reads the name of a bookmark, without the `#`.
fn mark_of(alloc: Global, text: &[u8]) -> Result<MarkName, LineFault>
    ensures { ReadsOr (IsBareName text.now) result }
{
    Ok(read_mark(alloc, text)?)
}

/// Reads what follows the path in a full name.
fn suffix_of(alloc: Global, text: &[u8]) -> Result<VersionName, LineFault>
    ensures { ReadsOr (IsSuffix text.now) result }
{
    let Some((kind, name)) = text.split_first() else {
        return Err(LineFault::Bad);
    };
    match *kind {
        b'@' => Ok(VersionName::Snap(snap_of(alloc, name)?)),
        b'#' => Ok(VersionName::Mark(mark_of(alloc, name)?)),
        _ => Err(LineFault::Bad),
    }
}

/// What follows the path in a column.
pub(crate) fn without_path<'a>(path: &Path, column: &'a [u8]) -> Option<&'a [u8]>
    ensures some { IfSome result (λ suffix. column.now ≡ path.now ++ suffix.now) }
    ensures none { IfNone result ((suffix : List ℕ) → column.now ≡ path.now ++ suffix → ⊥) }
{
    column.strip_prefix(path.as_bytes())
}

/// Reads the column of a full name, whose dataset is the one that was asked for.
fn name_of(alloc: Global, path: &Path, column: &[u8]) -> Result<VersionName, LineFault>
    ensures { ReadsOr (IsVersionName path.now column.now) result }
{
    let Some(suffix) = without_path(path, column) else {
        return Err(LineFault::Bad);
    };
    suffix_of(alloc, suffix)
}

/// Reads the column of a number.
fn number_of(column: &[u8]) -> Result<u64, LineFault>
    ensures { ReadsOr (IsNumber column.now) result }
{
    read_number(column).ok_or(LineFault::Bad)
}

/// Reads the column of the number of holds, which a bookmark has as `-`.
fn refs_of(name: &VersionName, column: &[u8]) -> Result<u64, LineFault>
    ensures { ReadsOr (IsRefs name.now column.now) result }
{
    match name {
        VersionName::Snap(_) => number_of(column),
        VersionName::Mark(_) if column == b"-".as_slice() => Ok(0),
        VersionName::Mark(_) => Err(LineFault::Bad),
    }
}

/// Reads a line of a listing of the versions of a dataset.
pub(crate) fn version_row(alloc: Global, path: &Path, line: &[u8]) -> Result<VersionRow, LineFault>
    ensures { ReadsOr (IsVersionLine path.now line.now) result }
{
    let Some(columns) = version_columns(line) else {
        return Err(LineFault::Bad);
    };
    let name = name_of(alloc, path, columns.name)?;
    let refs = refs_of(&name, columns.refs)?;
    Ok(VersionRow {
        name,
        guid: Guid(number_of(columns.guid)?),
        txg: number_of(columns.txg)?,
        creation: number_of(columns.creation)?,
        refs,
    })
}

/// The kind of a listing of the versions of the dataset at this path.
#[derive(Clone, Copy)]
struct Versions<'a> {
    path: &'a Path,
}

impl<'a> Kind for Versions<'a> {
    ghost use Rattle.zr_listing.specs.Columns.{full_name, IsVersionLine};

    type Row = VersionRow;

    ghost spells = { λ kind. IsVersionLine kind.path.now };

    ghost name = { λ kind row. full_name kind.path.now row.name };

    fn row(&self, alloc: Global, line: &[u8]) -> Result<VersionRow, LineFault> {
        version_row(alloc, self.path, line)
    }

    fn name_in<'b>(&self, line: &'b [u8]) -> &'b [u8] {
        first_column(line)
    }
}

/// The order of two rows: by transaction group, then snapshots before bookmarks, then by name.
fn compare(a: &VersionRow, b: &VersionRow) -> Ordering
    ensures { result ≡ row_cmp a.now b.now }
{
    a.txg.cmp(&b.txg).then(a.name.cmp(&b.name))
}

/// Sorts rows by `compare`.
fn sort_rows(rows: &mut Vec<VersionRow>) -> Result<(), AllocError>
    ensures same_rows { IsPermutation rows.old.items rows.new.items }
    ensures in_order { OnOk result (IsSortedBy (λ a b. is_lt (row_cmp a b)) rows.new.items) }
{
    rows.sort_by(|a, b| compare(a, b))?;
    Ok(())
}

/// Reads a listing of the snapshots and bookmarks of the dataset at this path (zfs-list(8), with
/// `-H -p -d 1 -t snapshot,bookmark -o name,guid,createtxg,creation,userrefs`).
pub fn read_versions(
    alloc: Global,
    path: &Path,
    bytes: &[u8],
) -> Result<Rows<VersionRow>, ListFault>
    ensures rows { IfOk result (IsVersionListing path.now bytes.now) }
    ensures in_order { IfOk result IsVersionList }
    ensures only { IfOk result
        (λ rows. (others : List VersionRow) → IsVersionListing path.now bytes.now others
        → others ≡ rows) }
    ensures garbled { IfErr result
        (IsBadAt (IsVersionLine path.now) (λ row. full_name path.now row.name) bytes.now) }
    ensures none { IsGarbled result → (rows : List VersionRow)
        → IsVersionListing path.now bytes.now rows → ⊥ }
{
    let mut rows = read_lines(alloc, &Versions { path }, bytes)?;
    sort_rows(&mut rows)?;
    Ok(Rows::from_vec(rows))
}

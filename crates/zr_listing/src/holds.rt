//! The listing of a snapshot's holds (zfs-holds(8)).

ghost use Rattle.std.specs.Prelude.{◌≡◌, ◌≢◌, ◌∷◌, ℕ, List, AllPairs, IfOk, IfErr, IsFalse, IsTrue};
ghost use Rattle.zr_listing.specs.Columns.{full_name, IsHoldLine, IsTag};
ghost use Rattle.zr_listing.specs.Lines.{IsBadAt};
ghost use Rattle.zr_listing.specs.Listing.{IsGarbled, IsHoldListing};
ghost use Rattle.zr_listing.specs.Reading.{ReadsOr};
ghost use Rattle.zr_command.specs.declared.version.VersionName.TheVariants.{Snap};

use crate::columns::{second_column, three_columns};
use crate::faults::{LineFault, ListFault};
use crate::lines::{Kind, read_lines};
use crate::versions::without_path;
use std::alloc::Global;
use zr_names::{Path, Rows, SnapName, Tag, read_tag};

/// Whether the text is `@` and the name of the snapshot.
fn is_at_snap(text: &[u8], snap: &SnapName) -> bool
    ensures yes { IsTrue result → text.now ≡ 64 ∷ snap.now }
    ensures no { IsFalse result → text.now ≢ 64 ∷ snap.now }
{
    match text.split_first() {
        Some((at, name)) => *at == b'@' && name == snap.as_bytes(),
        None => false,
    }
}

/// Whether the column is the full name of the snapshot that was asked for.
fn is_asked(path: &Path, snap: &SnapName, column: &[u8]) -> bool
    ensures yes { IsTrue result → column.now ≡ full_name path.now (Snap snap.now) }
    ensures no { IsFalse result → column.now ≢ full_name path.now (Snap snap.now) }
{
    match without_path(path, column) {
        Some(suffix) => is_at_snap(suffix, snap),
        None => false,
    }
}

/// Reads the column of a tag.
fn tag_of(alloc: Global, column: &[u8]) -> Result<Tag, LineFault>
    ensures { ReadsOr (IsTag column.now) result }
{
    Ok(read_tag(alloc, column)?)
}

/// Reads a line of a listing of the holds of a snapshot.
pub(crate) fn hold_row(
    alloc: Global,
    path: &Path,
    snap: &SnapName,
    line: &[u8],
) -> Result<Tag, LineFault>
    ensures { ReadsOr (IsHoldLine path.now snap.now line.now) result }
{
    let (full, tag, date) = three_columns(line).ok_or(LineFault::Bad)?;
    if date.is_empty() || !is_asked(path, snap, full) {
        return Err(LineFault::Bad);
    }
    tag_of(alloc, tag)
}

/// The kind of a listing of the holds of the snapshot of this name at this path.
#[derive(Clone, Copy)]
struct Holds<'a> {
    path: &'a Path,
    snap: &'a SnapName,
}

impl<'a> Kind for Holds<'a> {
    ghost use Rattle.zr_listing.specs.Columns.{IsHoldLine};

    type Row = Tag;

    ghost spells = { λ kind. IsHoldLine kind.path.now kind.snap.now };

    ghost name = { λ _ tag. tag };

    fn row(&self, alloc: Global, line: &[u8]) -> Result<Tag, LineFault> {
        hold_row(alloc, self.path, self.snap, line)
    }

    fn name_in<'b>(&self, line: &'b [u8]) -> &'b [u8] {
        second_column(line)
    }
}

/// Reads a listing of the holds of the snapshot of this name at this path (zfs-holds(8), with `-H`), in the order of its
/// lines; what it shows of when they were placed is passed over.
pub fn read_holds(
    alloc: Global,
    path: &Path,
    snap: &SnapName,
    bytes: &[u8],
) -> Result<Rows<Tag>, ListFault>
    ensures rows { IfOk result (IsHoldListing path.now snap.now bytes.now) }
    ensures tags_differ { IfOk result (λ tags. AllPairs (λ a b. a ≢ b) tags) }
    ensures only { IfOk result
        (λ tags. (others : List (List ℕ)) → IsHoldListing path.now snap.now bytes.now others
        → others ≡ tags) }
    ensures garbled { IfErr result (IsBadAt (IsHoldLine path.now snap.now) (λ tag. tag) bytes.now) }
    ensures none { IsGarbled result → (tags : List (List ℕ))
        → IsHoldListing path.now snap.now bytes.now tags → ⊥ }
{
    Ok(Rows::from_vec(read_lines(alloc, &Holds { path, snap }, bytes)?))
}

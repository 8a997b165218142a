//! The snapshots that a grid keeps.

ghost use Rattle.std.specs.Prelude.{◌≡◌, ℕ, ◌+◌, ◌<◌, ◌||◌, false, length, fold, max, filter, slice_get, slice_index_or, IsTrue, ◌↔◌};
ghost use Rattle.zr_grid.specs.declared.kept.GridRow.{GridRow as RowValue};
ghost use Rattle.zr_grid.specs.Grid.{IsGrid};
ghost use Rattle.zr_grid.specs.Kept.{newest, grid_kept, slots, slots_keep, age_of, has_room, comes_before, IsAscending};
ghost use Rattle.zr_grid.specs.Sweep.{Sweeps};

use crate::grid::{GridSpec, Interval, Keep};
use crate::sweep::{Place, beyond, moved};

/// A snapshot, as a grid sees it.
#[derive(Clone, Copy, PartialEq, Eq)]
pub struct GridRow {
    /// In seconds since 1970.
    pub creation: u64,
    /// The transaction group in which it was made (createtxg of zfsprops(7)).
    pub txg: u64,
    /// Whether the rule's pattern matches its name. A grid counts and keeps no other rows.
    pub matches: bool,
}

fn newest_creation(rows: &[GridRow]) -> u64
    ensures { result ≡ newest rows.now }
{
    rows.iter()
        .filter(|row| row.matches)
        .fold(0, |greatest, row| greatest.max(row.creation))
}

fn age(newest: u64, row: &GridRow) -> u64
    ensures { result ≡ age_of newest row.now }
{
    newest.saturating_sub(row.creation)
}

fn has_room(keep: Keep, older: usize) -> bool
    ensures { result ≡ has_room keep older }
{
    match keep {
        Keep::All => true,
        Keep::Most(most) => older < most as usize,
    }
}

fn comes_before(first: &GridRow, second: &GridRow) -> bool
    ensures { result ≡ comes_before first.now second.now }
{
    first.creation < second.creation
        || (first.creation == second.creation && first.txg <= second.txg)
}

/// Whether rows stand by creation, and then by txg.
pub fn is_ascending(rows: &[GridRow]) -> bool
    ensures { IsTrue result ↔ IsAscending rows.now }
{
    for i in 1..rows.len() {
        if !comes_before(&rows[i - 1], &rows[i]) {
            return false;
        }
    }
    true
}

/// Whether the grid keeps row `i`, to which the sweep has come. The sweep goes on behind it.
fn keeps_next(
    intervals: &[Interval],
    top: u64,
    rows: &[GridRow],
    i: usize,
    place: &mut Place,
) -> bool
    requires grid { IsGrid intervals.now }
    requires top { top ≡ newest rows.now }
    requires rows { IsAscending rows.now }
    requires index { i < length rows.now }
    requires swept { Sweeps intervals.now top rows.now i place.old }
    ensures kept { (row : RowValue) → slice_get rows.now i ≡ Some row
        → result ≡ slots_keep (slots intervals.now) top rows.now i row }
    ensures swept { Sweeps intervals.now top rows.now (i + 1) place.new }
{
    let row = &rows[i];
    if !row.matches {
        return false;
    }
    *place = moved(intervals, *place, age(top, row));
    let kept = has_room(place.keep, place.older);
    place.older += 1;
    kept
}

/// Sets the mark of each row that the grid keeps, and leaves the others (zrepl's prune policy `grid`).
pub fn grid_keeps(spec: &GridSpec, rows: &[GridRow], marks: &mut [bool])
    requires marks { length marks.old ≡ length rows.now }
    requires rows { IsAscending rows.now }
    requires grid { IsGrid spec.now.intervals }
    ensures kept { (i : ℕ) (row : RowValue) → slice_get rows.now i ≡ Some row
        → slice_index_or marks.new i false
        ≡ (slice_index_or marks.old i false || grid_kept spec.now.intervals rows.now i row) }
    ensures length { length marks.new ≡ length marks.old }
{
    let intervals = spec.intervals.as_slice();
    let newest = newest_creation(rows);
    let mut place = beyond(intervals);
    for i in 0..rows.len() {
        if keeps_next(intervals, newest, rows, i, &mut place) {
            marks[i] = true;
        }
    }
}

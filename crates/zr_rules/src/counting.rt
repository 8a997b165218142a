//! The rules that count: a grid the older snapshots of an interval, `last_n` the newer ones.

ghost use Rattle.std.specs.Prelude.{◌≡◌, ℕ, false, Some, length, map, slice_get, slice_index_or, OnOk, IfOk};
ghost use Rattle.zr_grid.specs.declared.kept.GridRow.{GridRow as RowValue};
ghost use Rattle.zr_grid.specs.Grid.{IsGrid};
ghost use Rattle.zr_grid.specs.Kept.{grid_kept, IsAscending};
ghost use Rattle.zr_rules.specs.Keeps.{seen, is_of_newest};
ghost use Rattle.zr_rules.specs.Marks.{AlsoMarks};
ghost use Rattle.zr_rules.specs.Order.{IsOrder};

use crate::ordering::{Placed, mark_places};
use crate::pattern::Pattern;
use crate::rule::RuleRow;
use crate::seeing::seen_in_order;
use std::alloc::{AllocError, Global};
use zr_grid::{GridRow, GridSpec, grid_keeps};

/// A flag for each row, set where the grid keeps it.
fn grid_flags(alloc: Global, spec: &GridSpec, rows: &[GridRow]) -> Result<Vec<bool>, AllocError>
    requires rows { IsAscending rows.now }
    requires grid { IsGrid spec.now.intervals }
    ensures kept { IfOk result (λ flags. (i : ℕ) (row : RowValue) → slice_get rows.now i ≡ Some row
        → slice_index_or flags.items i false ≡ grid_kept spec.now.intervals rows.now i row) }
    ensures as_long { IfOk result (λ flags. length flags.items ≡ length rows.now) }
{
    let mut flags = vec![in alloc; false; rows.len()]?;
    grid_keeps(spec, rows, flags.as_mut_slice());
    Ok(flags)
}

/// Sets the flags of the newest matching rows, of so many.
fn flag_newest(count: u32, rows: &[GridRow], flags: &mut [bool])
    requires flags { length flags.old ≡ length rows.now }
    requires rows { IsAscending rows.now }
    ensures { AlsoMarks (is_of_newest count rows.now) rows.now flags.old flags.new }
{
    let mut left = count;
    for i in (0..rows.len()).rev() {
        if left > 0 && rows[i].matches {
            flags[i] = true;
            left -= 1;
        }
    }
}

/// A flag for each row, set where it is one of the newest matching rows, of so many.
fn newest_flags(alloc: Global, count: u32, rows: &[GridRow]) -> Result<Vec<bool>, AllocError>
    requires { IsAscending rows.now }
    ensures kept { IfOk result (λ flags. (i : ℕ) (row : RowValue) → slice_get rows.now i ≡ Some row
        → slice_index_or flags.items i false ≡ is_of_newest count rows.now i row) }
    ensures as_long { IfOk result (λ flags. length flags.items ≡ length rows.now) }
{
    let mut flags = vec![in alloc; false; rows.len()]?;
    flag_newest(count, rows, flags.as_mut_slice());
    Ok(flags)
}

/// Marks the snapshots that a grid keeps of those whose names match.
pub(crate) fn mark_grid(
    alloc: Global,
    spec: &GridSpec,
    pattern: &Option<Pattern>,
    rows: &[RuleRow],
    order: &[Placed],
    marks: &mut [bool],
) -> Result<(), AllocError>
    requires marks { length marks.old ≡ length rows.now }
    requires order { IsOrder rows.now order.now }
    requires grid { IsGrid spec.now.intervals }
    ensures marked { OnOk result
        (AlsoMarks (λ i row. grid_kept spec.now.intervals (map (seen pattern.now) rows.now) i
        (seen pattern.now row)) rows.now marks.old marks.new) }
    ensures as_long { length marks.new ≡ length marks.old }
{
    let rows_seen = seen_in_order(alloc, pattern, rows, order)?;
    let flags = grid_flags(alloc, spec, rows_seen.as_slice())?;
    mark_places(order, flags.as_slice(), marks);
    Ok(())
}

/// Marks the newest snapshots of those whose names match, of so many.
pub(crate) fn mark_newest(
    alloc: Global,
    count: u32,
    pattern: &Option<Pattern>,
    rows: &[RuleRow],
    order: &[Placed],
    marks: &mut [bool],
) -> Result<(), AllocError>
    requires marks { length marks.old ≡ length rows.now }
    requires order { IsOrder rows.now order.now }
    ensures marked { OnOk result
        (AlsoMarks (λ i row. is_of_newest count (map (seen pattern.now) rows.now) i
        (seen pattern.now row)) rows.now marks.old marks.new) }
    ensures as_long { length marks.new ≡ length marks.old }
{
    let rows_seen = seen_in_order(alloc, pattern, rows, order)?;
    let flags = newest_flags(alloc, count, rows_seen.as_slice())?;
    mark_places(order, flags.as_slice(), marks);
    Ok(())
}

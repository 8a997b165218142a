//! The snapshots that some rule keeps.

ghost use Rattle.std.specs.Prelude.{◌≡◌, ℕ, false, Some, length, map, slice_get, slice_index_or, All, OnOk};
ghost use Rattle.zr_rules.specs.declared.rule.RuleRow.{RuleRow as RowValue};
ghost use Rattle.zr_rules.specs.Specs.{HasGrid};
ghost use Rattle.zr_rules.specs.Rules.{spec_of};
ghost use Rattle.zr_rules.specs.Keeps.{keeps, retained};
ghost use Rattle.zr_rules.specs.Marks.{AlsoMarks};
ghost use Rattle.zr_rules.specs.Order.{IsOrder};

use crate::compiling::{Rule, Rules};
use crate::counting::{mark_grid, mark_newest};
use crate::marking::{mark_matching, mark_unreplicated};
use crate::ordering::{Placed, in_order};
use crate::rule::RuleRow;
use std::alloc::{AllocError, Global};
use zr_names::NoMemory;

/// Marks the rows that a rule keeps.
fn mark(
    alloc: Global,
    rule: &Rule,
    rows: &[RuleRow],
    order: &[Placed],
    cursor: Option<u64>,
    marks: &mut [bool],
) -> Result<(), AllocError>
    requires marks { length marks.old ≡ length rows.now }
    requires order { IsOrder rows.now order.now }
    requires grid { HasGrid (spec_of rule.now) }
    ensures marked { OnOk result
        (AlsoMarks (λ i row. keeps rows.now cursor i row (spec_of rule.now)) rows.now marks.old
        marks.new) }
    ensures as_long { length marks.new ≡ length marks.old }
{
    match rule {
        Rule::Grid { spec, pattern } => mark_grid(alloc, spec, pattern, rows, order, marks),
        Rule::LastN { count, pattern } => mark_newest(alloc, *count, pattern, rows, order, marks),
        Rule::NotReplicated { at_cursor } => {
            mark_unreplicated(*at_cursor, cursor, rows, marks);
            Ok(())
        }
        Rule::Regex { pattern, negate } => mark_matching(alloc, pattern, *negate, rows, marks),
    }
}

/// Marks the rows that one of these rules keeps.
fn mark_all(
    alloc: Global,
    rules: &[Rule],
    rows: &[RuleRow],
    order: &[Placed],
    cursor: Option<u64>,
    marks: &mut [bool],
) -> Result<(), AllocError>
    requires marks { length marks.old ≡ length rows.now }
    requires order { IsOrder rows.now order.now }
    requires grids { All HasGrid (map spec_of rules.now) }
    ensures marked { OnOk result
        (AlsoMarks (retained (map spec_of rules.now) rows.now cursor) rows.now marks.old
        marks.new) }
    ensures as_long { length marks.new ≡ length marks.old }
{
    for rule in rules {
        mark(alloc, rule, rows, order, cursor, marks)?;
    }
    Ok(())
}

/// Takes all marks away.
fn clear(marks: &mut [bool])
    ensures cleared { (i : ℕ) → slice_index_or marks.new i false ≡ false }
    ensures as_long { length marks.new ≡ length marks.old }
{
    for i in 0..marks.len() {
        marks[i] = false;
    }
}

/// Sets each mark to whether some rule keeps the row (zrepl's documentation, "Pruning Policies"). `cursor` is the
/// transaction group of the replication cursor. After `NoMemory` the marks are of no use.
pub fn kept(
    alloc: Global,
    rules: &mut Rules,
    rows: &[RuleRow],
    cursor: Option<u64>,
    marks: &mut [bool],
) -> Result<(), NoMemory>
    requires { length marks.old ≡ length rows.now }
    ensures marks { OnOk result ((i : ℕ) (row : RowValue) → slice_get rows.now i ≡ Some row
        → slice_get marks.new i ≡ Some (retained rules.old rows.now cursor i row)) }
    ensures as_long { length marks.new ≡ length marks.old }
    ensures rules { rules.new ≡ rules.old }
{
    clear(marks);
    let order = in_order(alloc, rows)?;
    mark_all(
        alloc,
        rules.rules.as_slice(),
        rows,
        order.as_slice(),
        cursor,
        marks,
    )?;
    Ok(())
}

//! Snapshots from the oldest to the newest, each with its place in the list. Rules that count older or newer ones go over
//! this one order, forwards or backwards.

ghost use Rattle.std.specs.Prelude.{◌≡◌, ◌<◌, length, All, IsPermutation, OnOk, IfOk};
ghost use Rattle.std.specs.List.Sorted.{IsSortedBy};
ghost use Rattle.std.specs.Ordering.{is_lt};
ghost use Rattle.zr_rules.specs.Order.{placed_from, placed_cmp, IsOrder, MarksPlaces};

use crate::rule::RuleRow;
use std::alloc::{AllocError, Global};
use std::cmp::Ordering;

/// A snapshot's place in the list, with what it is ordered by.
#[derive(Clone, Copy)]
pub(crate) struct Placed {
    pub creation: u64,
    pub txg: u64,
    pub place: usize,
}

/// The order of creation, then of transaction group, then of place.
fn compare(a: &Placed, b: &Placed) -> Ordering
    ensures { result ≡ placed_cmp a.now b.now }
{
    let by_creation = a.creation.cmp(&b.creation);
    let by_txg = a.txg.cmp(&b.txg);
    by_creation.then(by_txg.then(a.place.cmp(&b.place)))
}

fn with_places(alloc: Global, rows: &[RuleRow]) -> Result<Vec<Placed>, AllocError>
    ensures { IfOk result (λ placed. placed.items ≡ placed_from 0 rows.now) }
{
    let mut placed = Vec::with_capacity(alloc, rows.len())?;
    for (place, row) in rows.iter().enumerate() {
        placed.push(Placed {
            creation: row.creation,
            txg: row.txg,
            place,
        })?;
    }
    Ok(placed)
}

fn sort(placed: &mut Vec<Placed>) -> Result<(), AllocError>
    ensures same_rows { IsPermutation placed.old.items placed.new.items }
    ensures in_order { OnOk result (IsSortedBy (λ a b. is_lt (placed_cmp a b)) placed.new.items) }
{
    placed.sort_by(|a, b| compare(a, b))?;
    Ok(())
}

/// The snapshots from the oldest to the newest.
pub(crate) fn in_order(alloc: Global, rows: &[RuleRow]) -> Result<Vec<Placed>, AllocError>
    ensures { IfOk result (λ order. IsOrder rows.now order.items) }
{
    let mut placed = with_places(alloc, rows)?;
    sort(&mut placed)?;
    Ok(placed)
}

/// Marks the place of each row whose flag is set.
pub(crate) fn mark_places(order: &[Placed], flags: &[bool], marks: &mut [bool])
    requires flags { length flags.now ≡ length order.now }
    requires places { All (λ one. one.place < length marks.old) order.now }
    ensures { MarksPlaces order.now flags.now (length order.now) marks.old marks.new }
{
    for (k, one) in order.iter().enumerate() {
        if flags[k] {
            marks[one.place] = true;
        }
    }
}

//! The rules that look at each snapshot for itself: its transaction group, or its name.

ghost use Rattle.std.specs.Prelude.{◌≡◌, ◌<◌, not, if◌then◌else◌, length, OnOk};
ghost use Rattle.zr_rules.specs.Keeps.{is_unreplicated};
ghost use Rattle.zr_rules.specs.Marks.{AlsoMarks};
ghost use Rattle.zr_rules.specs.Matching.{finds};

use crate::pattern::Pattern;
use crate::rule::RuleRow;
use crate::seeing::{is_found, text_of};
use std::alloc::{AllocError, Global};

fn is_unreplicated(at_cursor: bool, cursor: Option<u64>, txg: u64) -> bool
    ensures { result ≡ is_unreplicated at_cursor cursor txg }
{
    match cursor {
        None => true,
        Some(cursor) => cursor < txg || (at_cursor && txg == cursor),
    }
}

/// Marks the rows that are newer than the replication cursor, or at it.
pub(crate) fn mark_unreplicated(
    at_cursor: bool,
    cursor: Option<u64>,
    rows: &[RuleRow],
    marks: &mut [bool],
)
    requires { length marks.old ≡ length rows.now }
    ensures { AlsoMarks (λ i row. is_unreplicated at_cursor cursor row.txg) rows.now marks.old
        marks.new }
{
    for (i, row) in rows.iter().enumerate() {
        if is_unreplicated(at_cursor, cursor, row.txg) {
            marks[i] = true;
        }
    }
}

/// Marks the rows whose names match, or with `negate` the others.
pub(crate) fn mark_matching(
    alloc: Global,
    pattern: &Pattern,
    negate: bool,
    rows: &[RuleRow],
    marks: &mut [bool],
) -> Result<(), AllocError>
    requires { length marks.old ≡ length rows.now }
    ensures marked { OnOk result
        (AlsoMarks (λ i row. if negate then not (finds pattern.now row.name)
        else finds pattern.now row.name) rows.now marks.old marks.new) }
    ensures as_long { length marks.new ≡ length marks.old }
{
    let mut matcher = pattern.matcher(alloc)?;
    for (i, row) in rows.iter().enumerate() {
        if is_found(&mut matcher, text_of(&row.name)) != negate {
            marks[i] = true;
        }
    }
    Ok(())
}

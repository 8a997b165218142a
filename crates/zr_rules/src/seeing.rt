//! Snapshots under the pattern of a rule.

ghost use Rattle.std.specs.Prelude.{◌≡◌, ◌<◌, length, map, All, IfOk, Some, None};
ghost use Rattle.zr_rules.specs.Keeps.{seen};
ghost use Rattle.zr_rules.specs.Matching.{finds, FindsAs};
ghost use Rattle.zr_rules.specs.Order.{in_places};
ghost use Rattle.regex.specs.Strings.{matcher_pattern};

use crate::ordering::Placed;
use crate::pattern::Pattern;
use crate::rule::RuleRow;
use regex::Matcher;
use std::alloc::{AllocError, Global};
use zr_grid::GridRow;
use zr_names::SnapName;

#[tactic(auto, using(crate::proofs::Texts::utf8_name))]
pub(crate) fn text_of(name: &SnapName) -> &str
    ensures { result.now ≡ name.now }
{
    match str::from_utf8(name.as_bytes()) {
        Ok(text) => text,
        Err(_) => unreachable!(),
    }
}

pub(crate) fn is_found(matcher: &mut Matcher<'_>, name: &str) -> bool
    ensures found { (text : _) → FindsAs (matcher_pattern matcher.old) text
        → result ≡ finds text name.now }
    ensures same { matcher_pattern matcher.new ≡ matcher_pattern matcher.old }
{
    matcher.is_match(name)
}

fn all_in_order(
    alloc: Global,
    rows: &[RuleRow],
    order: &[Placed],
) -> Result<Vec<GridRow>, AllocError>
    requires { All (λ one. one.place < length rows.now) order.now }
    ensures { IfOk result (λ rows_seen. rows_seen.items
        ≡ in_places (map (seen None) rows.now) order.now) }
{
    let mut rows_seen = Vec::with_capacity(alloc, order.len())?;
    for one in order {
        let row = &rows[one.place];
        rows_seen.push(GridRow {
            creation: row.creation,
            txg: row.txg,
            matches: true,
        })?;
    }
    Ok(rows_seen)
}

fn found_in_order(
    alloc: Global,
    pattern: &Pattern,
    rows: &[RuleRow],
    order: &[Placed],
) -> Result<Vec<GridRow>, AllocError>
    requires { All (λ one. one.place < length rows.now) order.now }
    ensures { IfOk result (λ rows_seen. rows_seen.items
        ≡ in_places (map (seen (Some pattern.now)) rows.now) order.now) }
{
    let mut matcher = pattern.matcher(alloc)?;
    let mut rows_seen = Vec::with_capacity(alloc, order.len())?;
    for one in order {
        let row = &rows[one.place];
        rows_seen.push(GridRow {
            creation: row.creation,
            txg: row.txg,
            matches: is_found(&mut matcher, text_of(&row.name)),
        })?;
    }
    Ok(rows_seen)
}

/// The snapshots in an order, with whether each name matches. Without a pattern every name does.
pub(crate) fn seen_in_order(
    alloc: Global,
    pattern: &Option<Pattern>,
    rows: &[RuleRow],
    order: &[Placed],
) -> Result<Vec<GridRow>, AllocError>
    requires { All (λ one. one.place < length rows.now) order.now }
    ensures { IfOk result (λ rows_seen. rows_seen.items
        ≡ in_places (map (seen pattern.now) rows.now) order.now) }
{
    match pattern {
        Some(pattern) => found_in_order(alloc, pattern, rows, order),
        None => all_in_order(alloc, rows, order),
    }
}

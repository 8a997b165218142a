//! The shapes of tables that job files have in common, member by member.
ghost use Rattle.std.specs.Prelude.{◌≡◌, ◌≢◌, ◌↔◌, ℕ, List, IsTrue, codes, IfSome, IfNone, option_map};
ghost use Rattle.toml.specs.Data.{
  array,
  as_table,
  Data,
  item,
  member,
  Members,
  no_items,
  no_members,
  string,
};
ghost use Rattle.toml.specs.View.{members_view, view};
ghost use Rattle.zr_jobfile.specs.Trees.{filter_tree, job_end, manual_tree, only, type_end};

use std::collections::btree_map::Iter;
use toml::Value;

/// The value of the next member, where it has this key.
pub(crate) fn next_member<'a>(members: &mut Iter<'a, String, Value>, key: &str) -> Option<&'a Value>
    ensures found { IfSome result
        (λ value. members_view members.old
        ≡ member key.now (view value.now) (members_view members.new)) }
    ensures missing { IfNone result
        ((inner : Data) (rest : Members) → members_view members.old ≢ member key.now inner rest) }
{
    match members.next() {
        Some((name, value)) if name.as_str() == key => Some(value),
        _ => None,
    }
}

/// The members of a table.
pub(crate) fn members_of<'a>(value: &'a Value) -> Option<Iter<'a, String, Value>>
    ensures { option_map members_view result ≡ as_table (view value.now) }
{
    match value {
        Value::Table(table) => Some(table.iter()),
        _ => None,
    }
}

pub(crate) fn is_done(members: &mut Iter<'_, String, Value>) -> bool
    ensures { IsTrue result ↔ (members_view members.old ≡ no_members) }
{
    members.next().is_none()
}

fn is_text(value: &Value, text: &str) -> bool
    ensures { IsTrue result ↔ (view value.now ≡ string text.now) }
{
    value.as_str() == Some(text)
}

/// The value of a table's only member, where it has this key.
pub(crate) fn only_member<'a>(value: &'a Value, key: &str) -> Option<&'a Value>
    ensures found { IfSome result (λ inner. view value.now ≡ only key.now (view inner.now)) }
    ensures missing { IfNone result ((inner : Data) → view value.now ≢ only key.now inner) }
{
    let mut members = members_of(value)?;
    let inner = next_member(&mut members, key)?;
    if is_done(&mut members) {
        Some(inner)
    } else {
        None
    }
}

/// The only item of an array.
pub(crate) fn only_item<'a>(value: &'a Value) -> Option<&'a Value>
    ensures found { IfSome result
        (λ inner. view value.now ≡ array (item (view inner.now) no_items)) }
    ensures missing { IfNone result
        ((inner : Data) → view value.now ≢ array (item inner no_items)) }
{
    let items = value.as_array()?;
    if items.len() == 1 {
        items.first()
    } else {
        None
    }
}

/// The only pattern of a filter, where it is included.
fn sole_pattern<'a>(value: &'a Value) -> Option<&'a str>
    ensures found { IfSome result (λ pattern. view value.now ≡ filter_tree pattern.now) }
    ensures missing { IfNone result ((pattern : List ℕ) → view value.now ≢ filter_tree pattern) }
{
    let mut members = members_of(value)?;
    match members.next() {
        Some((pattern, Value::Boolean(true))) if is_done(&mut members) => Some(pattern.as_str()),
        _ => None,
    }
}

/// Whether nothing is left but this type.
pub(crate) fn is_last_type(members: &mut Iter<'_, String, Value>, kind: &str) -> bool
    ensures { IsTrue result ↔ (members_view members.old ≡ type_end kind.now) }
{
    match next_text(members, "type") {
        Some(text) => text == kind && is_done(members),
        None => false,
    }
}

fn is_manual(value: &Value) -> bool
    ensures { IsTrue result ↔ (view value.now ≡ manual_tree) }
{
    match only_member(value, "type") {
        Some(kind) => is_text(kind, "manual"),
        None => false,
    }
}

/// The pattern of a job's filter, where the filter comes next.
pub(crate) fn next_pattern<'a>(members: &mut Iter<'a, String, Value>) -> Option<&'a str>
    ensures found { IfSome result
        (λ pattern. members_view members.old
        ≡ member (codes "filesystems") (filter_tree pattern.now) (members_view members.new)) }
    ensures missing { IfNone result
        ((pattern : List ℕ) (rest : Members)
        → members_view members.old ≢ member (codes "filesystems") (filter_tree pattern) rest) }
{
    match next_member(members, "filesystems") {
        Some(filter) => sole_pattern(filter),
        None => None,
    }
}

/// The text of the next member, where it has this key.
pub(crate) fn next_text<'a>(members: &mut Iter<'a, String, Value>, key: &str) -> Option<&'a str>
    ensures found { IfSome result
        (λ text. members_view members.old
        ≡ member key.now (string text.now) (members_view members.new)) }
    ensures missing { IfNone result
        ((text : List ℕ) (rest : Members)
        → members_view members.old ≢ member key.now (string text) rest) }
{
    match next_member(members, key) {
        Some(value) => value.as_str(),
        None => None,
    }
}

/// Whether a job of this type ends here, with manual snapshotting.
pub(crate) fn is_end(members: &mut Iter<'_, String, Value>, kind: &str) -> bool
    ensures { IsTrue result ↔ (members_view members.old ≡ job_end kind.now) }
{
    match next_member(members, "snapshotting") {
        Some(taking) => is_manual(taking) && is_last_type(members, kind),
        None => false,
    }
}

//! The shape of a job file with one snap job.
ghost use Rattle.std.specs.Prelude.{◌≡◌, ◌≢◌, ◌<◌, ◌≤◌, ℕ, List, codes, IfSome, IfNone, pos};
ghost use Rattle.toml.specs.Data.{Data, integer, member, Members};
ghost use Rattle.toml.specs.View.{members_view, table_view, view};
ghost use Rattle.zr_jobfile.specs.SnapFile.{job_tree, one_job_file, pruning_tree, rule_tree, snap_file};

use crate::shape::{
    is_done, is_end, is_last_type, members_of, next_member, next_pattern, next_text, only_item,
    only_member,
};
use std::collections::btree_map::Iter;
use toml::{Table, Value};

/// What is free in the file of a snap job.
#[derive(Clone, Copy)]
pub(crate) struct Parts<'a> {
    pub(crate) name: &'a str,
    pub(crate) pattern: &'a str,
    pub(crate) count: u32,
}

/// How many snapshots a rule `last_n` keeps.
fn count_of(value: &Value) -> Option<u32>
    ensures found { IfSome result (λ count. (view value.now ≡ integer (pos count)) × (0 < count)) }
    ensures missing { IfNone result
        ((count : ℕ) → 0 < count → count ≤ 4294967295 → view value.now ≢ integer (pos count)) }
{
    match value {
        Value::Integer(count) if *count > 0 => match u32::try_from(*count) {
            Ok(count) => Some(count),
            Err(_) => None,
        },
        _ => None,
    }
}

fn rule_count(value: &Value) -> Option<u32>
    ensures found { IfSome result (λ count. (view value.now ≡ rule_tree count) × (0 < count)) }
    ensures missing { IfNone result
        ((count : ℕ) → 0 < count → count ≤ 4294967295 → view value.now ≢ rule_tree count) }
{
    let mut members = members_of(value)?;
    let count = count_of(next_member(&mut members, "count")?)?;
    if is_last_type(&mut members, "last_n") {
        Some(count)
    } else {
        None
    }
}

fn pruning_count(value: &Value) -> Option<u32>
    ensures found { IfSome result (λ count. (view value.now ≡ pruning_tree count) × (0 < count)) }
    ensures missing { IfNone result
        ((count : ℕ) → 0 < count → count ≤ 4294967295 → view value.now ≢ pruning_tree count) }
{
    rule_count(only_item(only_member(value, "keep")?)?)
}

/// How many snapshots a job keeps, where its pruning comes next.
fn next_count(members: &mut Iter<'_, String, Value>) -> Option<u32>
    ensures found { IfSome result
        (λ count. (members_view members.old
        ≡ member (codes "pruning") (pruning_tree count) (members_view members.new)) × (0 < count)) }
    ensures missing { IfNone result
        ((count : ℕ) (rest : Members) → 0 < count → count ≤ 4294967295
        → members_view members.old ≢ member (codes "pruning") (pruning_tree count) rest) }
{
    match next_member(members, "pruning") {
        Some(pruning) => pruning_count(pruning),
        None => None,
    }
}

/// The parts of a snap job.
fn job_parts<'a>(value: &'a Value) -> Option<Parts<'a>>
    ensures found { IfSome result
        (λ parts. (view value.now ≡ job_tree parts.name.now parts.pattern.now parts.count)
        × (0 < parts.count)) }
    ensures missing { IfNone result
        ((name pattern : List ℕ) (count : ℕ) → 0 < count → count ≤ 4294967295
        → view value.now ≢ job_tree name pattern count) }
{
    let mut members = members_of(value)?;
    let pattern = next_pattern(&mut members)?;
    let name = next_text(&mut members, "name")?;
    let count = next_count(&mut members)?;
    if is_end(&mut members, "snap") {
        Some(Parts {
            name,
            pattern,
            count,
        })
    } else {
        None
    }
}

/// The only job of a file.
fn only_job<'a>(tree: &'a Table) -> Option<&'a Value>
    ensures found { IfSome result (λ job. table_view tree.now ≡ one_job_file (view job.now)) }
    ensures missing { IfNone result ((job : Data) → table_view tree.now ≢ one_job_file job) }
{
    let mut members = tree.iter();
    let jobs = next_member(&mut members, "jobs")?;
    if is_done(&mut members) {
        only_item(jobs)
    } else {
        None
    }
}

/// The parts of a file with one snap job.
pub(crate) fn file_parts<'a>(tree: &'a Table) -> Option<Parts<'a>>
    ensures found { IfSome result
        (λ parts. (table_view tree.now ≡ snap_file parts.name.now parts.pattern.now parts.count)
        × (0 < parts.count)) }
    ensures missing { IfNone result
        ((name pattern : List ℕ) (count : ℕ) → 0 < count → count ≤ 4294967295
        → table_view tree.now ≢ snap_file name pattern count) }
{
    match only_job(tree) {
        Some(job) => job_parts(job),
        None => None,
    }
}

//! Which snapshots the rules of a job doom, and which paths are too long.

use super::is;
use std::alloc::{AllocError, Global};
use tests_pools::{Asked, before, number, path, rows_of, shown, written};
use zr_jobset::{JobSet, are_jobs, check};
use zr_names::{SnapName, read_job};
use zr_permit::doomed;
use zr_rules::{RegexPatterns, RuleSpec, Rules, compile, have_grids};

/// Rows; then the counts of `last_n` rules, and the snapshots that go, in one word.
const BLOCKS: &str = "\
last_n_keeps_the_newest
@a:11:11:100 @b:12:12:200 @c:13:13:300
  2 => a
  1 => ab

last_n_keeps_the_newest: a snapshot that one of the rules keeps stays
@a:11:11:100 @b:12:12:200 @c:13:13:300
  1 2 => a

last_n_keeps_the_newest: with no rules nothing goes
@a:11:11:100 @b:12:12:200 @c:13:13:300
  no rules => nothing

holds: a held snapshot stays, and counts as one of the newest
@a:11:11:100:1 @b:12:12:200 @c:13:13:300:1
  1 => b

bookmarks: one never goes, and counts for nothing
@a:11:11:100 @b:12:12:200 #m:13:13:300
  1 => a

equal_creation: the greater creation is newer, whatever the transaction groups
@a:11:11:300 @b:12:12:200
  1 => b

equal_creation: then the greater transaction group
@q:11:11:100 @p:12:12:100 @r:13:13:200
  2 => q";

fn specs_of(alloc: Global, counts: &str) -> Option<Vec<RuleSpec>> {
    let mut rules = Vec::new(alloc);
    if counts != "no rules" {
        for count in counts.split(' ') {
            let count = count.parse::<u32>().ok()?;
            rules.push(RuleSpec::LastN { count, regex: None }).ok()?;
        }
    }
    Some(rules)
}

fn rules_of(alloc: Global, counts: &str) -> Option<Rules> {
    let specs = specs_of(alloc, counts)?;
    if !have_grids(specs.as_slice()) {
        return None;
    }
    compile(alloc, &mut RegexPatterns::new(alloc), specs.as_slice()).ok()
}

/// Names one behind the other, or `nothing`.
fn names_text(alloc: Global, names: &[SnapName]) -> Result<String, AllocError> {
    let mut text = String::new(alloc);
    for name in names {
        text.push_str(shown(name.as_bytes()))?;
    }
    text.push_str(if text.is_empty() { "nothing" } else { "" })?;
    Ok(text)
}

/// A listing of snapshots.
#[derive(Clone, Copy)]
struct Listing<'a> {
    text: &'a str,
}

impl Asked for Listing<'_> {
    fn came(&mut self, alloc: Global, ask: &str) -> Option<String> {
        let mut rules = rules_of(alloc, ask)?;
        let rows = rows_of(alloc, self.text)?;
        let job = read_job(alloc, b"p").ok()?;
        let names = doomed(alloc, &job, &mut rules, rows.as_slice());
        drop(job);
        drop(rows);
        drop(rules);
        let names = names.ok()?;
        let text = names_text(alloc, names.as_slice());
        drop(names);
        text.ok()
    }
}

fn came(alloc: Global, block: &str) -> Option<String> {
    let text = before(block);
    written(alloc, block, &mut Listing { text })
}

#[test]
fn snapshots_that_go(rt: HostRuntime) {
    for block in BLOCKS.split("\n\n") {
        is(&rt, block, came(rt.alloc(), block));
    }
}

/// Lengths of paths in bytes, and whether units work on them.
const LENGTHS: &str = "\
units_work_on_paths_of_147_bytes_at_most
  146 => true
  147 => true
  148 => false";

/// Jobs that may have units on a path.
#[derive(Drop)]
struct Jobs {
    jobs: JobSet,
}

fn long_text(alloc: Global, len: u64) -> Option<String> {
    let mut text = String::new(alloc);
    for _ in 0..len {
        text.push('x').ok()?;
    }
    Some(text)
}

impl Asked for Jobs {
    fn came(&mut self, alloc: Global, ask: &str) -> Option<String> {
        let text = long_text(alloc, number(ask)?)?;
        let path = path(alloc, text.as_str())?;
        let fits = self.jobs.fits(0, &path);
        format!(in alloc; "{fits}").ok()
    }
}

fn no_jobs(alloc: Global) -> Option<JobSet> {
    let jobs = Vec::new(alloc);
    if !are_jobs(&[], jobs.as_slice()) {
        return None;
    }
    check(alloc, &[], jobs).ok()
}

fn lengths(alloc: Global) -> Option<String> {
    let jobs = no_jobs(alloc)?;
    written(alloc, LENGTHS, &mut Jobs { jobs })
}

#[test]
fn paths_that_are_too_long(rt: HostRuntime) {
    is(&rt, LENGTHS, lengths(rt.alloc()));
}

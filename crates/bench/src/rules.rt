//! Keep rules over the snapshots of a large dataset, as bench/rules.sh times them.

ghost use Rattle.std.specs.Prelude.{◌≡◌, length};

use std::alloc::Global;
use std::io::{self, Read};
use zr_grid::read_grid;
use zr_names::read_snap;
use zr_rules::{PatternText, RegexPatterns, RuleRow, RuleSpec, Rules, compile, have_grids, kept};

/// Some 20 years: each snapshot of the last hour, then one an hour, a day and a week.
const GRID: &[u8] = b"1x1h(keep=all) | 24x1h | 365x1d | 1000x1w";

const NEWEST: u32 = 100;

const PATTERN: &str = "^manual_[0-9]*7$";

/// The snapshot of a line: its name, its creation and its transaction group.
fn row_of(alloc: Global, line: &str) -> Option<RuleRow> {
    let (name, numbers) = line.split_once(' ')?;
    let (creation, txg) = numbers.split_once(' ')?;
    let (creation, txg) = (creation.parse().ok()?, txg.parse().ok()?);
    match read_snap(alloc, name.as_bytes()) {
        Ok(name) => Some(RuleRow {
            name,
            txg,
            creation,
        }),
        Err(_) => None,
    }
}

fn rows_of(alloc: Global, text: &str) -> Option<Vec<RuleRow>> {
    let mut rows = Vec::new(alloc);
    for line in text.lines() {
        rows.push(row_of(alloc, line)?).ok()?;
    }
    Some(rows)
}

fn spec_of(alloc: Global, word: &str) -> Option<RuleSpec> {
    match word {
        "grid" => Some(RuleSpec::Grid {
            spec: read_grid(alloc, GRID).ok()?,
            regex: None,
        }),
        "last_n" => Some(RuleSpec::LastN {
            count: NEWEST,
            regex: None,
        }),
        "regex" => Some(RuleSpec::Regex {
            regex: PatternText::from_text(alloc, PATTERN).ok()?,
            negate: false,
        }),
        _ => None,
    }
}

fn specs_of(alloc: Global, words: &str) -> Option<Vec<RuleSpec>> {
    let mut specs = Vec::new(alloc);
    for word in words.split(' ') {
        specs.push(spec_of(alloc, word)?).ok()?;
    }
    Some(specs)
}

/// Asks the rules so many times.
fn ask(
    alloc: Global,
    rules: &mut Rules,
    rows: &[RuleRow],
    times: u64,
    marks: &mut [bool],
) -> Option<()>
    requires { length marks.old ≡ length rows.now }
{
    for _ in 0..times {
        kept(alloc, rules, rows, None, marks).ok()?;
    }
    Some(())
}

/// How many rows the rules keep.
fn count_kept(alloc: Global, specs: &[RuleSpec], rows: &[RuleRow], times: u64) -> Option<usize> {
    if !have_grids(specs) {
        return None;
    }
    let mut patterns = RegexPatterns::new(alloc);
    let mut rules = compile(alloc, &mut patterns, specs).ok()?;
    let mut marks = vec![in alloc; false; rows.len()].ok()?;
    ask(alloc, &mut rules, rows, times, marks.as_mut_slice())?;
    Some(marks.iter().filter(|mark| **mark).count())
}

/// How many rows there are, and how many of them are kept.
fn counts_of(alloc: Global, text: &str) -> Option<(usize, usize)> {
    let (asked, rows) = text.split_once('\n')?;
    let (times, words) = asked.split_once(' ')?;
    let times = times.parse().ok()?;
    let specs = specs_of(alloc, words)?;
    let rows = rows_of(alloc, rows)?;
    let kept = count_kept(alloc, specs.as_slice(), rows.as_slice(), times)?;
    Some((rows.len(), kept))
}

/// The first line of standard input says how many times, and which rules: `grid`, `last_n`, `regex`; each other line is
/// a snapshot. Asks the rules so many times, and prints how many rows they keep.
pub fn keep_rows(rt: &HostRuntime) -> io::Result<()> {
    let alloc = rt.alloc();
    let mut bytes = Vec::new(alloc);
    rt.stdin().read_to_end(&mut bytes)?;
    let text = str::from_utf8(bytes.as_slice()).unwrap_or("");
    match counts_of(alloc, text) {
        Some((rows, kept)) => println!(rt; "{kept} of {rows}"),
        None => println!(rt; "no rules and rows, or no memory"),
    }
}

//! Rules by which snapshots are kept: the names that they keep of rows, each `name:creation:txg`.
//! A line has the rules, the rows and, where there is one, the transaction group of the cursor.

use std::alloc::Global;
use tests_lines::{
    Unread, ask_of, column, count, counted, is_wanted, number, shown, snap, text, told,
};
use zr_grid::{GridSpec, Intervals, read_grid};
use zr_rules::{
    BuildFault, PatternText, Patterns, RegexPatterns, RuleFault, RuleRow, RuleSpec, Rules, compile,
    have_grids, kept,
};

const CASES: &str = r"
# last_n keeps the newest
last 2 ; a:100:11, b:200:12, c:300:13 => keeps: b; c;
last 1 ; a:100:11, b:200:12, c:300:13 => keeps: c;
last 3 ; a:100:11, b:200:12, c:300:13 => keeps: a; b; c;
last 4294967295 ; a:100:11, b:200:12, c:300:13 => keeps: a; b; c;
# with equal creation the greater txg is newer, wherever it stands
last 2 ; p:100:12, q:100:11, r:200:13 => keeps: p; r;
last 1 ; p:100:11, q:100:12, r:50:13 => keeps: q;
# with equal creation and txg the later in the list is newer
last 1 ; x:100:11, y:100:11, z:99:12 => keeps: y;
# a greater creation is newer whatever the txg
last 1 ; a:300:11, b:200:12, c:100:13 => keeps: a;
# last_n counts matching names alone
last 2 of /^z_/ ; z_a:100:11, m:400:14, z_b:200:12, z_c:300:13 => keeps: z_b; z_c;
# not_replicated keeps what is newer than the cursor, and with the cursor also what stands at it
newer than the cursor or at it ; a:100:11, b:200:12, c:300:13 ; 12 => keeps: b; c;
newer than the cursor ; a:100:11, b:200:12, c:300:13 ; 12 => keeps: c;
newer than the cursor or at it ; a:100:11, b:200:12, c:300:13 ; 13 => keeps: c;
newer than the cursor ; a:100:11, b:200:12, c:300:13 ; 13 => keeps:
newer than the cursor or at it ; a:100:11, b:200:12, c:300:13 ; 5 => keeps: a; b; c;
newer than the cursor or at it ; a:100:11, b:200:12, c:300:13 ; 99 => keeps:
newer than the cursor or at it ; a:100:11, b:200:12, c:300:13 => keeps: a; b; c;
newer than the cursor ; a:100:11, b:200:12, c:300:13 => keeps: a; b; c;
# regex keeps what matches
regex /^zrepl_/ ; zrepl_1:100:11, manual:200:12, zrepl_2 old:300:13, v1.0:400:14 => keeps: zrepl_1; zrepl_2 old;
regex /zrepl_[0-9]$/ ; zrepl_1:100:11, manual:200:12, zrepl_2 old:300:13, v1.0:400:14 => keeps: zrepl_1;
regex /an/ ; zrepl_1:100:11, manual:200:12, zrepl_2 old:300:13, v1.0:400:14 => keeps: manual;
regex // ; zrepl_1:100:11, manual:200:12, zrepl_2 old:300:13, v1.0:400:14 => keeps: zrepl_1; manual; zrepl_2 old; v1.0;
regex / / ; zrepl_1:100:11, manual:200:12, zrepl_2 old:300:13, v1.0:400:14 => keeps: zrepl_2 old;
regex /1\.0|ual$/ ; zrepl_1:100:11, manual:200:12, zrepl_2 old:300:13, v1.0:400:14 => keeps: manual; v1.0;
regex /^$/ ; zrepl_1:100:11, manual:200:12, zrepl_2 old:300:13, v1.0:400:14 => keeps:
regex /(?i)^ZREPL/ ; zrepl_1:100:11, manual:200:12, zrepl_2 old:300:13, v1.0:400:14 => keeps: zrepl_1; zrepl_2 old;
# negate keeps the others
negate /^zrepl_/ ; zrepl_1:100:11, manual:200:12, zrepl_2 old:300:13, v1.0:400:14 => keeps: manual; v1.0;
negate /zrepl_[0-9]$/ ; zrepl_1:100:11, manual:200:12, zrepl_2 old:300:13, v1.0:400:14 => keeps: manual; zrepl_2 old; v1.0;
negate /an/ ; zrepl_1:100:11, manual:200:12, zrepl_2 old:300:13, v1.0:400:14 => keeps: zrepl_1; zrepl_2 old; v1.0;
negate // ; zrepl_1:100:11, manual:200:12, zrepl_2 old:300:13, v1.0:400:14 => keeps:
negate / / ; zrepl_1:100:11, manual:200:12, zrepl_2 old:300:13, v1.0:400:14 => keeps: zrepl_1; manual; v1.0;
negate /1\.0|ual$/ ; zrepl_1:100:11, manual:200:12, zrepl_2 old:300:13, v1.0:400:14 => keeps: zrepl_1; zrepl_2 old;
negate /^$/ ; zrepl_1:100:11, manual:200:12, zrepl_2 old:300:13, v1.0:400:14 => keeps: zrepl_1; manual; zrepl_2 old; v1.0;
negate /(?i)^ZREPL/ ; zrepl_1:100:11, manual:200:12, zrepl_2 old:300:13, v1.0:400:14 => keeps: manual; v1.0;
# a grid keeps the oldest in a list in any order: ages 1,800, 10,800, 0, 3,600, 7,200 and 5,400
grid 1x1h(keep=all) | 2x1h ; a:18200:15, b:9200:16, c:20000:11, d:16400:12, e:12800:14, f:14600:13 => keeps: a; c; e; f;
# a grid takes the smaller txg of equal ages, and of equal rows the earlier in the list
grid 1x1h ; a:100:13, b:100:11, c:100:12 => keeps: b;
grid 1x1h ; a:100:11, b:100:11, c:100:12 => keeps: a;
grid 1x1h ; a:100:12, b:99:13, c:99:13 => keeps: b;
# a grid sees matching names alone: the newest row does not match, gives no age, and is neither kept nor counted
grid 1x10s(keep=2) of /^g/ ; m:100:1, g1:110:2, g2:110:3, g3:119:4, n:130:5 => keeps: g1; g2;
# of one list a grid keeps the oldest, and `last_n` the newest: ages 0, 50, 50 and 110
grid 1x100s & last 1 of /^a/ ; b:150:3, a1:100:2, a2:100:1, c:40:9 => keeps: a1; a2;
# a row stays that one of several rules keeps: the last, the first by its name, those above the cursor, and the
# oldest `[b-e]` of ages below 250
last 1 & regex /^keep_/ & newer than the cursor & grid 1x250s of /^[b-e]$/ ; keep_a:100:11, b:200:12, c:300:13, d:400:14, e:500:15 ; 13 => keeps: keep_a; c; d; e;
last 1 & regex /^keep_/ & newer than the cursor & grid 1x250s of /^[b-e]$/ ; keep_a:100:11, b:200:12, c:300:13, d:400:14, e:500:15 ; 14 => keeps: keep_a; c; e;
# no rules keep nothing, and of no rows none is kept
(none) ; a:100:11, b:200:12, c:300:13 => keeps:
last 1 ; (none) => keeps:
# a bad pattern is named, and the first of a list
regex /(/ ; (none) => rule 0 is refused: (; in all 1
last 1 & regex /a/ & last 1 of /[/ & negate /(/ ; (none) => rule 2 is refused: [; in all 1
# a pattern too big is refused
build (a{1000}){1000000} => refused; in all 1
# a pattern hands its text back
text ^a => ^a; ^a
# a grid that no text spells is told
grid 1x1h ; (none) => keeps:
grid 1x1h & grid (none) ; (none) => a grid that no text spells";

/// Numbers first: while the name is owned nothing fails.
fn row(alloc: Global, text: &str) -> Result<RuleRow, Unread> {
    let (name, numbers) = text.split_once(':').ok_or(Unread)?;
    let (creation, txg) = numbers.split_once(':').ok_or(Unread)?;
    let (creation, txg) = (number(creation)?, number(txg)?);
    Ok(RuleRow {
        name: snap(alloc, name)?,
        txg,
        creation,
    })
}

fn rows(alloc: Global, list: &str) -> Result<Vec<RuleRow>, Unread> {
    let mut rows = Vec::new(alloc);
    if list != "(none)" {
        for text in list.split(", ") {
            rows.push(row(alloc, text)?)?;
        }
    }
    Ok(rows)
}

/// A pattern stands between slashes.
fn pattern(alloc: Global, text: &str) -> Result<PatternText, Unread> {
    let inside = text
        .strip_prefix('/')
        .and_then(|text| text.strip_suffix('/'));
    Ok(PatternText::from_text(alloc, inside.ok_or(Unread)?)?)
}

/// What stands before ` of `, and the text of the pattern behind it.
fn parts(text: &str) -> (&str, Option<&str>) {
    match text.split_once(" of ") {
        Some((front, regex)) => (front, Some(regex)),
        None => (text, None),
    }
}

fn optional(alloc: Global, regex: Option<&str>) -> Result<Option<PatternText>, Unread> {
    match regex {
        Some(regex) => Ok(Some(pattern(alloc, regex)?)),
        None => Ok(None),
    }
}

fn newest(alloc: Global, text: &str) -> Result<RuleSpec, Unread> {
    let (front, regex) = parts(text);
    let count = count(front)?;
    let regex = optional(alloc, regex)?;
    Ok(RuleSpec::LastN { count, regex })
}

fn grid_of(alloc: Global, text: &str) -> Result<GridSpec, Unread> {
    if text == "(none)" {
        let intervals = Intervals::from_vec(Vec::new(alloc));
        return Ok(GridSpec { intervals });
    }
    read_grid(alloc, text.as_bytes()).ok().ok_or(Unread)
}

fn grid(alloc: Global, text: &str) -> Result<RuleSpec, Unread> {
    let (spec, regex) = parts(text);
    let regex = optional(alloc, regex)?;
    match grid_of(alloc, spec) {
        Ok(spec) => Ok(RuleSpec::Grid { spec, regex }),
        Err(unread) => Err(unread),
    }
}

fn matching(alloc: Global, text: &str, negate: bool) -> Result<RuleSpec, Unread> {
    let regex = pattern(alloc, text)?;
    Ok(RuleSpec::Regex { regex, negate })
}

fn rule(alloc: Global, text: &str) -> Result<RuleSpec, Unread> {
    let (verb, rest) = text.split_once(' ').ok_or(Unread)?;
    match verb {
        "last" => newest(alloc, rest),
        "newer" => Ok(RuleSpec::NotReplicated {
            at_cursor: rest == "than the cursor or at it",
        }),
        "grid" => grid(alloc, rest),
        "regex" => matching(alloc, rest, false),
        "negate" => matching(alloc, rest, true),
        _ => Err(Unread),
    }
}

fn rules(alloc: Global, list: &str) -> Result<Vec<RuleSpec>, Unread> {
    let mut rules = Vec::new(alloc);
    if list != "(none)" {
        for text in list.split(" & ") {
            rules.push(rule(alloc, text)?)?;
        }
    }
    Ok(rules)
}

fn push_kept(out: &mut String, row: &RuleRow, mark: bool) -> Result<(), Unread> {
    if mark {
        write!(out, " {};", shown(row.name.as_bytes()))?;
    }
    Ok(())
}

fn kept_text(alloc: Global, rows: &[RuleRow], marks: &[bool]) -> Result<String, Unread> {
    let mut out = String::from_str(alloc, "keeps:")?;
    for (row, mark) in rows.iter().zip(marks) {
        push_kept(&mut out, row, *mark)?;
    }
    Ok(out)
}

/// What rules keep of rows whose marks are all set before.
fn marked(
    alloc: Global,
    rules: &mut Rules,
    rows: &[RuleRow],
    cursor: Option<u64>,
) -> Result<String, Unread> {
    let mut marks = vec![in alloc; true; rows.len()]?;
    kept(alloc, rules, rows, cursor, marks.as_mut_slice())?;
    kept_text(alloc, rows, marks.as_slice())
}

fn refused(alloc: Global, fault: RuleFault, patterns: &RegexPatterns) -> Result<String, Unread> {
    match fault {
        RuleFault::BadRegex(place) => {
            let told = patterns.refused_last().unwrap_or("none");
            let count = patterns.refusals();
            Ok(format!(in alloc; "rule {place} is refused: {told}; in all {count}")?)
        }
        RuleFault::NoMemory => Err(Unread),
    }
}

fn answer(
    alloc: Global,
    specs: &[RuleSpec],
    rows: &[RuleRow],
    cursor: Option<u64>,
) -> Result<String, Unread> {
    if !have_grids(specs) {
        return text(alloc, "a grid that no text spells");
    }
    let mut patterns = RegexPatterns::new(alloc);
    match compile(alloc, &mut patterns, specs) {
        Ok(_) if patterns.refusals() > 0 => text(alloc, "compiled, but a pattern was refused"),
        Ok(mut rules) => marked(alloc, &mut rules, rows, cursor),
        Err(fault) => refused(alloc, fault, &patterns),
    }
}

fn built(alloc: Global, pattern: &str) -> Result<String, Unread> {
    let mut patterns = RegexPatterns::new(alloc);
    match patterns.build(pattern) {
        Ok(_) => text(alloc, "built"),
        Err(BuildFault::Refused) => counted(alloc, "refused; in all", patterns.refusals()),
        Err(BuildFault::NoMemory) => Err(Unread),
    }
}

fn given_back(alloc: Global, ask: &str) -> Result<String, Unread> {
    let pattern = PatternText::new(text(alloc, ask)?);
    let mut out = text(alloc, pattern.as_str())?;
    write!(out, "; {}", pattern.into_text())?;
    Ok(out)
}

fn kept_of(alloc: Global, ask: &str) -> Result<String, Unread> {
    let mut columns = ask.split(" ; ");
    let specs = rules(alloc, column(&mut columns))?;
    let rows = rows(alloc, column(&mut columns))?;
    let cursor = number(column(&mut columns)).ok();
    answer(alloc, specs.as_slice(), rows.as_slice(), cursor)
}

fn said(alloc: Global, ask: &str) -> Result<String, Unread> {
    match ask.split_once(' ') {
        Some(("build", pattern)) => built(alloc, pattern),
        Some(("text", pattern)) => given_back(alloc, pattern),
        _ => kept_of(alloc, ask),
    }
}

#[test]
fn rules_keep(rt: HostRuntime) {
    for line in CASES.lines() {
        if let Some(ask) = ask_of(line) {
            let said = said(rt.alloc(), ask);
            assert!(rt; is_wanted(line, &said), "{line}: {}", told(&said));
        }
    }
}

//! Filters: which paths they match, which roots they reach, and what their patterns read as.
//! Answers were worked out from the rule by hand.

use std::alloc::Global;
use tests_lines::{Unread, answer, ask_of, bytes_of, fault, is_wanted, path, shown, text, told};
use zr_filter::{Filter, FilterEntry, matches, reaches, read_pattern};
use zr_names::{NameFault, Rows};

/// A filter has a sign before each pattern: `+` takes, `-` leaves.
const CASES: &str = r"
# a pool without its temporary datasets
+tank<, -tank/tmp<, +tank/tmp/keep matches tank => true
+tank<, -tank/tmp<, +tank/tmp/keep matches tank/a => true
+tank<, -tank/tmp<, +tank/tmp/keep matches tank/tmp/keep => true
+tank<, -tank/tmp<, +tank/tmp/keep matches tank/tmp => false
+tank<, -tank/tmp<, +tank/tmp/keep matches tank/tmp/x => false
+tank<, -tank/tmp<, +tank/tmp/keep matches tank/tmp/keep/y => false
+tank<, -tank/tmp<, +tank/tmp/keep matches tankx => false
+tank<, -tank/tmp<, +tank/tmp/keep matches tank/tmpx => true
+tank<, -tank/tmp<, +tank/tmp/keep matches tank/a/tmp/keep => true
+tank<, -tank/tmp<, +tank/tmp/keep matches tan => false
+tank<, -tank/tmp<, +tank/tmp/keep matches pool/tank => false
# exact first, then the longest subtree, and of equals the last
(none) matches tank => false
+< matches tank => true
+< matches a/b/c => true
+<, -tank< matches tank => false
+<, -tank< matches tank/a => false
+<, -tank< matches tankx => true
+<, -tank<, +tank matches tank => true
+<, -tank<, +tank matches tank/a => false
+tank matches tank/a => false
+tank, -tank matches tank => false
-tank, +tank matches tank => true
+tank<, -tank< matches tank/a => false
-tank<, +tank< matches tank/a => true
+<, -< matches x => false
+tank/a/b<, -tank< matches tank/a/b/c => true
-tank<, +tank/a/b< matches tank/a => false
+tank/a< matches tank => false
+tank/a< matches tank/ab => false
+tank/a< matches tank/a => true
-tank/a, +tank/a< matches tank/a => false
+tank/a<, -tank/a matches tank/a/b => true
+tank, -tank< matches tank => true
-tank<, +< matches tank/x => false
-tank<, +< matches pool => true
+Tank< matches tank => false
-tank/tmp, +tank< matches tank/tmp/x => true
-tank/tmp, +tank< matches tank/tmp => false
+a b< matches a b/c => true
+tank< matches tank-a => false
+tank< matches tank.a => false
-a<, +a<, -a< matches a/b => false
+a/b<, -a<, -< matches a/b => true
# a filter reaches a root
(none) reaches backup => false
+< reaches backup => true
-< reaches backup => false
+<, -backup< reaches backup => false
+<, -backup<, +backup/a reaches backup => true
+backup/x/y< reaches backup => true
+backup<, -backup< reaches backup => true
-backup<, +< reaches backup/a => false
+tank< reaches backup => false
+tank< reaches tank/backup => true
+tank<, -tank/backup< reaches tank/backup => false
+tank reaches tank/backup => false
+tank/backup reaches tank/backup => true
-tank/backup, +tank< reaches tank/backup => true
+tank/backupx< reaches tank/backup => false
+tank<, -< reaches tank/a/b => true
+tank/a<, -tank/a< reaches tank/a/b => false
# patterns are read
read -tank => -tank
read +tank => +tank
read -tank< => -tank and below
read +tank< => +tank and below
read -tank/a b< => -tank/a b and below
read +tank/a b< => +tank/a b and below
read - < => -  and below
read + < => +  and below
read -a => -a
read +a => +a
read -\*a255; => -aaaaaaaaaaaaaaaaaaaaaaaaaaaaaaaaaaaaaaaaaaaaaaaaaaaaaaaaaaaaaaaaaaaaaaaaaaaaaaaaaaaaaaaaaaaaaaaaaaaaaaaaaaaaaaaaaaaaaaaaaaaaaaaaaaaaaaaaaaaaaaaaaaaaaaaaaaaaaaaaaaaaaaaaaaaaaaaaaaaaaaaaaaaaaaaaaaaaaaaaaaaaaaaaaaaaaaaaaaaaaaaaaaaaaaaaaaaaaaaaaaaaaaaaaaaaaaa
read +\*a255; => +aaaaaaaaaaaaaaaaaaaaaaaaaaaaaaaaaaaaaaaaaaaaaaaaaaaaaaaaaaaaaaaaaaaaaaaaaaaaaaaaaaaaaaaaaaaaaaaaaaaaaaaaaaaaaaaaaaaaaaaaaaaaaaaaaaaaaaaaaaaaaaaaaaaaaaaaaaaaaaaaaaaaaaaaaaaaaaaaaaaaaaaaaaaaaaaaaaaaaaaaaaaaaaaaaaaaaaaaaaaaaaaaaaaaaaaaaaaaaaaaaaaaaaaaaaaaaaa
read -< => - and below
# what is no pattern is refused at its place
read + => empty
read +<< => bad byte 0
read +tank<< => bad byte 4
read +<tank => bad byte 0
read +ta<nk => bad byte 2
read +ta<nk< => bad byte 2
read +tank/< => bad byte 4
read +/< => bad byte 0
read +tank//a< => bad byte 5
read +tank/../a => bad byte 5
read +. => bad byte 0
read +tank@a< => bad byte 4
read +\*<257; => too long: 256
# the mark is not counted in the length: the longest path with `<`, and one byte more
read +\*a255;< => +aaaaaaaaaaaaaaaaaaaaaaaaaaaaaaaaaaaaaaaaaaaaaaaaaaaaaaaaaaaaaaaaaaaaaaaaaaaaaaaaaaaaaaaaaaaaaaaaaaaaaaaaaaaaaaaaaaaaaaaaaaaaaaaaaaaaaaaaaaaaaaaaaaaaaaaaaaaaaaaaaaaaaaaaaaaaaaaaaaaaaaaaaaaaaaaaaaaaaaaaaaaaaaaaaaaaaaaaaaaaaaaaaaaaaaaaaaaaaaaaaaaaaaaaaaaaaaa and below
read +\*a256;< => too long: 256
# an entry without a path or subtree, which no text gives, counts for nothing
+(nothing) matches tank => false
+(nothing) reaches tank => false";

fn entry(alloc: Global, text: &str) -> Result<FilterEntry, NameFault> {
    match text.strip_prefix('-') {
        Some(pattern) => read_pattern(alloc, pattern.as_bytes(), false),
        None => read_pattern(alloc, text.trim_start_matches('+').as_bytes(), true),
    }
}

fn push_entry(entries: &mut Rows<FilterEntry>, alloc: Global, text: &str) -> Result<(), Unread> {
    if text != "+(nothing)" {
        entries.push(entry(alloc, text)?)?;
        return Ok(());
    }
    entries.push(FilterEntry {
        path: None,
        subtree: false,
        allow: true,
    })?;
    Ok(())
}

fn filter(alloc: Global, list: &str) -> Result<Filter, Unread> {
    let mut entries = Rows::new(alloc);
    if list != "(none)" {
        for text in list.split(", ") {
            push_entry(&mut entries, alloc, text)?;
        }
    }
    Ok(Filter { entries })
}

fn matches_text(alloc: Global, list: &str, on: &str) -> Result<String, Unread> {
    let on = path(alloc, on)?;
    let filter = filter(alloc, list)?;
    answer(alloc, matches(&filter, &on))
}

fn reaches_text(alloc: Global, list: &str, root: &str) -> Result<String, Unread> {
    let root = path(alloc, root)?;
    let filter = filter(alloc, list)?;
    answer(alloc, reaches(&filter, &root))
}

fn entry_text(alloc: Global, entry: &FilterEntry) -> Result<String, Unread> {
    let sign = if entry.allow { "+" } else { "-" };
    let below = if entry.subtree { " and below" } else { "" };
    let name = match &entry.path {
        Some(path) => shown(path.as_bytes()),
        None => "",
    };
    Ok(format!(in alloc; "{sign}{name}{below}")?)
}

fn read_text(alloc: Global, read: &Result<FilterEntry, NameFault>) -> Result<String, Unread> {
    match read {
        Ok(entry) => entry_text(alloc, entry),
        Err(why) => fault(alloc, *why),
    }
}

fn pattern_text(alloc: Global, ask: &str) -> Result<String, Unread> {
    let bytes = bytes_of(alloc, ask)?;
    let read = entry(alloc, shown(bytes.as_slice()));
    read_text(alloc, &read)
}

fn said(alloc: Global, ask: &str) -> Result<String, Unread> {
    if let Some(pattern) = ask.strip_prefix("read ") {
        return pattern_text(alloc, pattern);
    }
    match ask.split_once(" matches ") {
        Some((list, on)) => matches_text(alloc, list, on),
        None => {
            let (list, root) = ask.split_once(" reaches ").ok_or(Unread)?;
            reaches_text(alloc, list, root)
        }
    }
}

#[test]
fn filters(rt: HostRuntime) {
    for line in CASES.lines() {
        if let Some(ask) = ask_of(line) {
            let said = said(rt.alloc(), ask);
            assert!(rt; is_wanted(line, &said), "{line}: {}", told(&said));
        }
    }
}

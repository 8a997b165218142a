//! Names of snapshots that one command names together: how many there are, or why they are no group.

use std::alloc::Global;
use tests_lines::{Unread, ask_of, count, is_wanted, placed, shown, snap, told};
use zr_command::{Names, NamesFault, read_names};
use zr_names::{Same, SnapName};

const CASES: &str = "\
# names, in their order
a => a;
c a b => c;a;b;
b a B ab => b;a;B;ab;
# none, and one that stands before
(none) => count 0
a a => repeated 1
a b a => repeated 2
a b b a => repeated 2
a b c d b e a => repeated 4
# so many different names, and one of them again: their number is looked at first
many 1 => 1
many 64 => 64
many 65 => count 65
many 200 => count 200
twice 64 => count 65
twice 63 => repeated 63
";

fn listed(alloc: Global, words: &str) -> Result<Vec<SnapName>, Unread> {
    let mut names = Vec::new(alloc);
    if words != "(none)" {
        for word in words.split(' ') {
            names.push(snap(alloc, word)?)?;
        }
    }
    Ok(names)
}

fn many(alloc: Global, number: u32) -> Result<Vec<SnapName>, Unread> {
    let mut names = Vec::new(alloc);
    for n in 0..number {
        let name = format!(in alloc; "s{n}")?;
        names.push(snap(alloc, name.as_str())?)?;
    }
    Ok(names)
}

fn twice(alloc: Global, number: u32) -> Result<Vec<SnapName>, Unread> {
    let mut names = many(alloc, number)?;
    names.push(snap(alloc, "s0")?)?;
    Ok(names)
}

fn joined(alloc: Global, names: &Names) -> Result<String, Unread> {
    let mut out = String::new(alloc);
    for name in names.as_slice() {
        write!(out, "{};", shown(name.as_bytes()))?;
    }
    Ok(out)
}

fn fault_text(alloc: Global, fault: NamesFault) -> Result<String, Unread> {
    match fault {
        NamesFault::Count(number) => placed(alloc, "count", number),
        NamesFault::Repeated(place) => placed(alloc, "repeated", place),
    }
}

fn number_of(alloc: Global, names: Vec<SnapName>) -> Result<String, Unread> {
    match read_names(names) {
        Ok(names) => Ok(format!(in alloc; "{}", names.as_slice().len())?),
        Err(fault) => fault_text(alloc, fault),
    }
}

fn said(alloc: Global, ask: &str) -> Result<String, Unread> {
    if let Some(number) = ask.strip_prefix("many ") {
        return number_of(alloc, many(alloc, count(number)?)?);
    }
    if let Some(number) = ask.strip_prefix("twice ") {
        return number_of(alloc, twice(alloc, count(number)?)?);
    }
    match read_names(listed(alloc, ask)?) {
        Ok(names) => joined(alloc, &names),
        Err(fault) => fault_text(alloc, fault),
    }
}

#[test]
fn groups_of_names(rt: HostRuntime) {
    for line in CASES.lines() {
        if let Some(ask) = ask_of(line) {
            let said = said(rt.alloc(), ask);
            assert!(rt; is_wanted(line, &said), "{line}: {}", told(&said));
        }
    }
}

fn copied(alloc: Global) -> Result<String, Unread> {
    let names = Names::one(alloc, snap(alloc, "a")?)?;
    joined(alloc, &names.same()?)
}

#[test]
fn one_name_is_a_group(rt: HostRuntime) {
    let said = copied(rt.alloc());
    assert!(rt; is_wanted(" => a;", &said), "{}", told(&said));
}

//! Listings: how many rows they have or which of their lines is bad, their rows, and the same printed.
//! The listings are of all datasets, of the versions of `tank/a`, of the holds of `tank/a@s` and of what a token says.

use std::alloc::Global;
use tests_lines::{
    Unread, ask_of, bytes_of, counted, escaped, is_wanted, path, placed, shown, snap, told,
};
use zr_command::{SetRow, TokenInfo, VersionName, VersionRow};
use zr_listing::{
    ListFault, print_holds, print_sets, print_token, print_versions, read_holds, read_sets,
    read_token, read_versions,
};
use zr_names::Tag;

const CASES: &str = r"
# listings of datasets, good ones and the same with a byte changed, added or taken away: their rows, or the bad line
sets \e => rows: 0
sets \n => bad line 1
sets tank\t-\t-\n => rows: 1
sets tank\t-\t- => bad line 1
sets tank\t-\t-\n\n => bad line 2
sets tank\t-\t-\r\n => bad line 1
sets tank \t-\t-\n => rows: 1
sets tank\t-\t-\t\n => bad line 1
sets tank\t-\n => bad line 1
sets tank\t-\t\n => bad line 1
sets tank\t\t-\n => bad line 1
sets tank\t\t-\t-\n => bad line 1
sets \t-\t-\n => bad line 1
sets tank -\t-\n => bad line 1
sets /tank\t-\t-\n => bad line 1
sets tank/\t-\t-\n => bad line 1
sets tank//a\t-\t-\n => bad line 1
sets tank/.\t-\t-\n => bad line 1
sets tank/..a\t-\t-\n => rows: 1
sets tank@a\t-\t-\n => bad line 1
sets t\xc3\xa4nk\t-\t-\n => bad line 1
sets tank\t-\t1-a b\n => rows: 1
sets tank\t-\t1-a\x7fb\n => bad line 1
sets tank\t-\t--\n => rows: 1
sets tank\t\xff\x00\t-\n => rows: 1
sets tank\t-\t-\ntank/a\ton\t-\n => rows: 2
sets tank/a\t-\t-\ntank\t-\t-\n => rows: 2
sets tank\t-\t-\ntank\ton\tx\n => bad line 2
sets tank\t-\t-\na\t-\t-\ntank\t-\n => bad line 3
sets tank\t-\t-\ntank\t-\t-\nbad\n => bad line 2
sets tank\t-\t-\nb\t-\t-\nc\t-\t- => bad line 3
sets tank\t-\t-\nb\t-\t-\t-\n => bad line 2
# the same for the versions of tank/a
versions \e => rows: 0
versions tank/a@s\t1\t2\t3\t0\n => rows: 1
versions tank/a@s\t1\t2\t3\t0 => bad line 1
versions tank/a@s\t1\t2\t3\t0\n\n => bad line 2
versions tank/a@s\t1\t2\t3\t00\n => bad line 1
versions tank/a@s\t01\t2\t3\t0\n => bad line 1
versions tank/a@s\t0\t2\t3\t0\n => rows: 1
versions tank/a@s\t+1\t2\t3\t0\n => bad line 1
versions tank/a@s\t-1\t2\t3\t0\n => bad line 1
versions tank/a@s\t1 \t2\t3\t0\n => bad line 1
versions tank/a@s\t\t2\t3\t0\n => bad line 1
versions tank/a@s\t1a\t2\t3\t0\n => bad line 1
versions tank/a@s\t18446744073709551615\t2\t3\t0\n => rows: 1
versions tank/a@s\t18446744073709551616\t2\t3\t0\n => bad line 1
versions tank/a@s\t1\t99999999999999999999\t3\t0\n => bad line 1
versions tank/a@s\t1\t2\t03\t0\n => bad line 1
versions tank/a@s\t1\t2\t3\t-\n => bad line 1
versions tank/a#m\t1\t2\t3\t-\n => rows: 1
versions tank/a#m\t1\t2\t3\t0\n => bad line 1
versions tank/a#m\t1\t2\t3\t--\n => bad line 1
versions tank/a@s\t1\t2\t3\n => bad line 1
versions tank/a@s\t1\t2\t3\t0\t\n => bad line 1
versions tank/a@s\t1\t2\t3\t\n => bad line 1
versions tank/b@s\t1\t2\t3\t0\n => bad line 1
versions tank/aa@s\t1\t2\t3\t0\n => bad line 1
versions tank/a/b@s\t1\t2\t3\t0\n => bad line 1
versions tank@s\t1\t2\t3\t0\n => bad line 1
versions tank/a\t1\t2\t3\t0\n => bad line 1
versions tank/a@\t1\t2\t3\t0\n => bad line 1
versions tank/a@s@t\t1\t2\t3\t0\n => bad line 1
versions tank/a@s/t\t1\t2\t3\t0\n => bad line 1
versions tank/a@s t\t1\t2\t3\t0\n => rows: 1
versions tank/a@s\t1\t2\t3\t7\ntank/a#s\t1\t2\t3\t-\n => rows: 2
versions tank/a@s\t1\t2\t3\t7\ntank/a@s\t4\t5\t6\t0\n => bad line 2
versions tank/a@s\t1\t2\t3\t7\ntank/a@t\t1\t2\t3\t7\n => rows: 2
versions tank/a@s\t1\t2\t3\t7\ntank/b@t\t1\t2\t3\t7\nx\n => bad line 2
versions tank/a@s\t1\t2\t3\t7\ntank/a@t\t1\t2\t3\t7\ntank/a@s => bad line 3
# the same for the holds of tank/a@s
holds \e => rows: 0
holds \n => bad line 1
holds tank/a@s\tx\tFri Nov 27 10:00 2026\n => rows: 1
holds tank/a@s\tx\t-\ntank/a@s\ty\t-\n => rows: 2
holds tank/a@s\tback up\t-\n => rows: 1
holds tank/a@s\t\xff\x00\r\t\xfe\x00\r\n => rows: 1
holds tank/a@s\tx\t-\ntank/a@s\tx\t0\n => bad line 2
holds tank/a@s\tx\t-\ntank/a@s\ty\t-\ntank/a@s\tx\t-\n => bad line 3
holds tank/a@s\tx\t-\ntank/a@s\tx \t-\n => rows: 2
holds tank/a@t\tx\t-\n => bad line 1
holds tank/a@ss\tx\t-\n => bad line 1
holds tank/a@\tx\t-\n => bad line 1
holds tank/a#s\tx\t-\n => bad line 1
holds tank/a\tx\t-\n => bad line 1
holds tank/b@s\tx\t-\n => bad line 1
holds tank/aa@s\tx\t-\n => bad line 1
holds tank/a@s\tx\t-\ntank/a@t\ty\t-\n => bad line 2
holds tank/a@s\tx\t\n => bad line 1
holds tank/a@s\t\t-\n => bad line 1
holds \tx\t-\n => bad line 1
holds tank/a@s\tx\n => bad line 1
holds tank/a@s\tx\t-\t\n => bad line 1
holds tank/a@s\tx\t-\t-\n => bad line 1
holds tank/a@s\tx\t- => bad line 1
holds tank/a@s\tx\t-\ntank/a@s\ty\t- => bad line 2
holds tank/a@s\tx\t-\n\n => bad line 2
# a name that stands twice: behind names that rise, the last, the first or one between; and behind names that do not
sets a\t-\t-\nb\t-\t-\nc\t-\t-\nd\t-\t-\n => rows: 4
sets a\t-\t-\nb\t-\t-\nc\t-\t-\nc\t-\t-\n => bad line 4
sets a\t-\t-\nb\t-\t-\nc\t-\t-\na\t-\t-\n => bad line 4
sets a\t-\t-\nb\t-\t-\nc\t-\t-\nb\t-\t-\n => bad line 4
sets a\t-\t-\nab\t-\t-\nb\t-\t-\n => rows: 3
sets a\t-\t-\nab\t-\t-\nb\t-\t-\nab\t-\t-\n => bad line 4
sets ab\t-\t-\na\t-\t-\nb\t-\t-\na\t-\t-\n => bad line 4
sets b\t-\t-\na\t-\t-\na\t-\t-\n => bad line 3
sets b\t-\t-\na\t-\t-\nc\t-\t-\na\t-\t-\n => bad line 4
sets b\t-\t-\na\t-\t-\nc\t-\t-\nb\t-\t-\n => bad line 4
sets b\t-\t-\na\t-\t-\nc\t-\t-\nc\t-\t-\n => bad line 4
sets b\t-\t-\na\t-\t-\nd\t-\t-\nc\t-\t-\n => rows: 4
sets b\t-\t-\na\t-\t-\nd\t-\t-\nc\t-\t-\nc\t-\t-\n => bad line 5
sets b\t-\t-\na\t-\t-\nd\t-\t-\nc\t-\t-\na\t-\t-\n => bad line 5
sets d\t-\t-\nc\t-\t-\nb\t-\t-\na\t-\t-\n => rows: 4
sets d\t-\t-\nc\t-\t-\nb\t-\t-\na\t-\t-\nc\t-\t-\n => bad line 5
sets d\t-\t-\nc\t-\t-\nb\t-\t-\na\t-\t-\nd\t-\t-\n => bad line 5
versions tank/a@s\t1\t2\t3\t0\ntank/a@t\t1\t2\t3\t0\ntank/a#s\t1\t2\t3\t-\ntank/a#t\t1\t2\t3\t-\n => rows: 4
versions tank/a@s\t1\t2\t3\t0\ntank/a#s\t1\t2\t3\t-\ntank/a@t\t1\t2\t3\t0\ntank/a#s\t1\t2\t3\t-\n => bad line 4
versions tank/a@s\t1\t2\t3\t0\ntank/a#s\t1\t2\t3\t-\ntank/a@t\t1\t2\t3\t0\ntank/a@s\t1\t2\t3\t0\n => bad line 4
versions tank/a#s\t1\t2\t3\t-\ntank/a@s\t1\t2\t3\t0\ntank/a#t\t1\t2\t3\t-\ntank/a#s\t1\t2\t3\t-\n => bad line 4
holds tank/a@s\ty\t-\ntank/a@s\tx\t-\n => rows: 2
holds tank/a@s\ty\t-\ntank/a@s\tx\t-\ntank/a@s\tx\t-\n => bad line 3
holds tank/a@s\ty\t-\ntank/a@s\tx\t-\ntank/a@s\tz\t-\ntank/a@s\ty\t-\n => bad line 4
# the contents of a resume token: two keys are read, each once, and the first of them has to be there
token resume token contents:\nnvlist version: 0\n\tobject = 0x6\n\ttoguid = 0x13\n\ttoname = tank/a@s3\n => to 19
token \e => bad line 1
token \n => bad line 2
token resume token contents:\nnvlist version: 0\n => bad line 3
token toguid = 0x13 => bad line 1
token \ttoguid = 0x13\n\tfromguid = 0x1f\n => to 19 from 31
token \tfromguid = 0x1f\n\ttoguid = 0x13\n => to 19 from 31
token \tfromguid = 0x1f\n => bad line 2
token toguid = 0x13\ntoguid = 0x13\n => bad line 2
token toguid = 0x13\nfromguid = 0x1\nx\nfromguid = 0x2\n => bad line 4
token toguid = 0x13\ntoname = tank/a@s3 => bad line 2
token \s\t\s\ttoguid = 0x0\n => to 0
token \rtoguid = 0x0\n => bad line 2
token toguid = 0xffffffffffffffff\n => to 18446744073709551615
token toguid = 0xFfFfFfFfFfFfFfFf\n => to 18446744073709551615
token toguid = 0x0000000000000013\n => to 19
token toguid = 0x00000000000000013\n => bad line 1
token toguid = 0x\n => bad line 1
token toguid = 13\n => bad line 1
token toguid = 0X13\n => bad line 1
token toguid = 0x+1\n => bad line 1
token toguid = 0x1g\n => bad line 1
token toguid = 0x13 \n => bad line 1
token toguid =  0x13\n => bad line 1
token toguid = \n => bad line 1
token x\nfromguid = 0x1h\ntoguid = 0x13\n => bad line 2
token toguid =\ntoguid = 0x13\n => to 19
token toguid: 0x1\nmytoguid = 0x2\nTOGUID = 0x3\ntoguid = 0x13\n => to 19
print of token \ttoguid = 0xAB0\n => resume token contents:\n\ttoguid = 0xab0\n
print of token \ttoguid = 0x0\n\tfromguid = 0x0C\n => resume token contents:\n\tfromguid = 0xc\n\ttoguid = 0x0\n
# rows of datasets in the order of the lines, and the same printed
rows of sets tank/b\ton\t-\ntank\toff\t1-e2-x\n => tank/b placeholder;tank token 1-e2-x;
print of sets tank/b\ton\t-\ntank\toff\t1-e2-x\n => tank/b\ton\t-\ntank\t-\t1-e2-x\n
# lines in any order: the rows by transaction group, then snapshots before bookmarks, then by name
rows of versions tank/a#a\t11\t5\t100\t-\ntank/a@c\t12\t9\t300\t2\ntank/a@b\t11\t5\t100\t0\ntank/a@a\t10\t5\t90\t1\n => @a:10:5:90:1;@b:11:5:100:0;#a:11:5:100:0;@c:12:9:300:2;
print of versions tank/a#a\t11\t5\t100\t-\ntank/a@c\t12\t9\t300\t2\ntank/a@b\t11\t5\t100\t0\ntank/a@a\t10\t5\t90\t1\n => tank/a@a\t10\t5\t90\t1\ntank/a@b\t11\t5\t100\t0\ntank/a#a\t11\t5\t100\t-\ntank/a@c\t12\t9\t300\t2\n
# the tags in the order of the lines, and the same printed, without the dates
rows of holds tank/a@s\tzrepl_STEP_J_prod\tFri Nov 27 10:00 2026\ntank/a@s\tback up\tThu Nov 26  9:30 2026\n => zrepl_STEP_J_prod;back up;
print of holds tank/a@s\tzrepl_STEP_J_prod\tFri Nov 27 10:00 2026\ntank/a@s\tback up\tThu Nov 26  9:30 2026\n => tank/a@s\tzrepl_STEP_J_prod\t0\ntank/a@s\tback up\t0\n";

/// What is told of a listing.
#[derive(Clone, Copy)]
enum Told {
    Count,
    Rows,
    Print,
}

fn fault_text(alloc: Global, fault: ListFault) -> Result<String, Unread> {
    match fault {
        ListFault::Garbled(line) => counted(alloc, "bad line", line),
        ListFault::NoMemory => Err(Unread),
    }
}

fn push_set(out: &mut String, row: &SetRow) -> Result<(), Unread> {
    out.push_str(shown(row.path.as_bytes()))?;
    out.push_str(if row.placeholder { " placeholder" } else { "" })?;
    if let Some(token) = &row.token {
        write!(out, " token {}", shown(token.as_bytes()))?;
    }
    out.push_str(";")?;
    Ok(())
}

fn set_rows(alloc: Global, rows: &[SetRow]) -> Result<String, Unread> {
    let mut out = String::new(alloc);
    for row in rows {
        push_set(&mut out, row)?;
    }
    Ok(out)
}

fn sets_text(alloc: Global, told: Told, rows: &[SetRow]) -> Result<String, Unread> {
    match told {
        Told::Count => placed(alloc, "rows:", rows.len()),
        Told::Rows => set_rows(alloc, rows),
        Told::Print => escaped(alloc, print_sets(alloc, rows)?.as_slice()),
    }
}

fn sets(alloc: Global, told: Told, bytes: &[u8]) -> Result<String, Unread> {
    match read_sets(alloc, bytes) {
        Ok(rows) => sets_text(alloc, told, rows.as_slice()),
        Err(fault) => fault_text(alloc, fault),
    }
}

fn push_name(out: &mut String, name: &VersionName) -> Result<(), Unread> {
    match name {
        VersionName::Snap(name) => write!(out, "@{}", shown(name.as_bytes()))?,
        VersionName::Mark(name) => write!(out, "#{}", shown(name.as_bytes()))?,
    }
    Ok(())
}

fn push_version(out: &mut String, row: &VersionRow) -> Result<(), Unread> {
    push_name(out, &row.name)?;
    write!(out, ":{}:{}", row.guid.0, row.txg)?;
    write!(out, ":{}:{};", row.creation, row.refs)?;
    Ok(())
}

fn version_rows(alloc: Global, rows: &[VersionRow]) -> Result<String, Unread> {
    let mut out = String::new(alloc);
    for row in rows {
        push_version(&mut out, row)?;
    }
    Ok(out)
}

fn print_rows(alloc: Global, rows: &[VersionRow]) -> Result<String, Unread> {
    let asked = path(alloc, "tank/a")?;
    escaped(alloc, print_versions(alloc, &asked, rows)?.as_slice())
}

fn versions_text(alloc: Global, told: Told, rows: &[VersionRow]) -> Result<String, Unread> {
    match told {
        Told::Count => placed(alloc, "rows:", rows.len()),
        Told::Rows => version_rows(alloc, rows),
        Told::Print => print_rows(alloc, rows),
    }
}

fn versions(alloc: Global, told: Told, bytes: &[u8]) -> Result<String, Unread> {
    match read_versions(alloc, &path(alloc, "tank/a")?, bytes) {
        Ok(rows) => versions_text(alloc, told, rows.as_slice()),
        Err(fault) => fault_text(alloc, fault),
    }
}

fn tag_rows(alloc: Global, tags: &[Tag]) -> Result<String, Unread> {
    let mut out = String::new(alloc);
    for tag in tags {
        write!(out, "{};", shown(tag.as_bytes()))?;
    }
    Ok(out)
}

fn print_tags(alloc: Global, tags: &[Tag]) -> Result<String, Unread> {
    let asked = path(alloc, "tank/a")?;
    let snap = snap(alloc, "s")?;
    escaped(alloc, print_holds(alloc, &asked, &snap, tags)?.as_slice())
}

fn holds_text(alloc: Global, told: Told, tags: &[Tag]) -> Result<String, Unread> {
    match told {
        Told::Count => placed(alloc, "rows:", tags.len()),
        Told::Rows => tag_rows(alloc, tags),
        Told::Print => print_tags(alloc, tags),
    }
}

fn holds(alloc: Global, told: Told, bytes: &[u8]) -> Result<String, Unread> {
    let asked = path(alloc, "tank/a")?;
    match read_holds(alloc, &asked, &snap(alloc, "s")?, bytes) {
        Ok(tags) => holds_text(alloc, told, tags.as_slice()),
        Err(fault) => fault_text(alloc, fault),
    }
}

fn guids(alloc: Global, info: &TokenInfo) -> Result<String, Unread> {
    let mut out = counted(alloc, "to", info.to.0)?;
    if let Some(from) = info.from {
        write!(out, " from {}", from.0)?;
    }
    Ok(out)
}

fn token(alloc: Global, told: Told, bytes: &[u8]) -> Result<String, Unread> {
    match (read_token(bytes), told) {
        (Ok(info), Told::Print) => escaped(alloc, print_token(alloc, &info)?.as_slice()),
        (Ok(info), Told::Count | Told::Rows) => guids(alloc, &info),
        (Err(fault), _) => fault_text(alloc, fault),
    }
}

/// What is told, and the rest of what a line asks.
fn told_of(ask: &str) -> (Told, &str) {
    if let Some(rest) = ask.strip_prefix("rows of ") {
        return (Told::Rows, rest);
    }
    match ask.strip_prefix("print of ") {
        Some(rest) => (Told::Print, rest),
        None => (Told::Count, ask),
    }
}

fn said(alloc: Global, ask: &str) -> Result<String, Unread> {
    let (told, rest) = told_of(ask);
    let (verb, listing) = rest.split_once(' ').ok_or(Unread)?;
    let bytes = bytes_of(alloc, listing)?;
    match verb {
        "sets" => sets(alloc, told, bytes.as_slice()),
        "versions" => versions(alloc, told, bytes.as_slice()),
        "holds" => holds(alloc, told, bytes.as_slice()),
        "token" => token(alloc, told, bytes.as_slice()),
        _ => Err(Unread),
    }
}

#[test]
fn listings(rt: HostRuntime) {
    for line in CASES.lines() {
        if let Some(ask) = ask_of(line) {
            let said = said(rt.alloc(), ask);
            assert!(rt; is_wanted(line, &said), "{line}: {}", told(&said));
        }
    }
}

//! Names and their faults, what bookmarks and tags are to a job, and what totals count of outcomes.
//! Answers were worked out from the rules by hand.

use std::alloc::Global;
use tests_lines::{
    Unread, answer, ask_of, bytes_of, count, counted, fault, is_wanted, job, mark, number, path,
    shown, text, told,
};
use zr_names::{
    Guid, MarkKind, Moment, NameFault, Outcome, Rows, TagKind, Totals, Work, cursor_name, is_tag,
    mark_of, read_job, read_mark, read_path, read_prefix, read_snap, read_tag, read_token_text,
    same_items, tag_of, tentative_name,
};

/// A kind of name and a text: the name is that text, or the fault.
const NAMES: &str = r"
# paths
path tank => ok
path tank/a b_c-d.e:F9 => ok
path a/b/c => ok
path .../.a/..b/c.. => ok
path \e => empty
path / => bad byte 0
path /tank => bad byte 0
path tank/ => bad byte 4
path tank//a => bad byte 5
path tank/.. => bad byte 5
path tank/. => bad byte 5
path . => bad byte 0
path .. => bad byte 0
path ./a => bad byte 0
path a/./b => bad byte 2
path a/../b => bad byte 2
path a/../b@ => bad byte 2
path a@/.. => bad byte 1
path tank#a => bad byte 4
path a/b\tc => bad byte 3
path a/\x00 => bad byte 2
path caf\xc3\xa9 => bad byte 3
path a[ => bad byte 1
path a` => bad byte 1
path a{ => bad byte 1
path a; => bad byte 1
# snapshot names
snap zrepl_20260101_000000_000 => ok
snap .. => ok
snap  -: => ok
snap \e => empty
snap a/b => bad byte 1
snap tank@s1 => bad byte 4
snap a% => bad byte 1
snap \na => bad byte 0
snap s\xff => bad byte 1
# bookmark names
mark zrepl_CURSOR_G_0000000000000013_J_p => ok
mark zrepl_replication_cursor => ok
mark \e => empty
mark a#b => bad byte 1
mark a/ => bad byte 1
# job names
job p => ok
job push to backup-1 => ok
job \e => empty
job p/q => bad byte 1
job push\n => bad byte 4
# prefixes
prefix zrepl_ => ok
prefix . => ok
prefix \e => empty
prefix zrepl@ => bad byte 5
# tags
tag backup tag => ok
tag zrepl_STEP_J_p => ok
tag a/b@c#d\r => ok
tag \x00\xff => ok
tag \e => empty
tag \t => bad byte 0
tag a\n\t => bad byte 1
tag ab\tc => bad byte 2
# tokens
token 1-c740b4779-b0-789c636064 => ok
token -- => ok
token -a => ok
token  ~ => ok
token \e => empty
token - => bad byte 0
token a\x7f => bad byte 1
token a\x1f => bad byte 1
token \xc3\xa9 => bad byte 0
# longest names
path \*a255; => ok
path \*a256; => too long: 256
snap \*a255; => ok
snap \*a256; => too long: 256
mark \*a255; => ok
mark \*a256; => too long: 256
tag \*a255; => ok
tag \*a256; => too long: 256
# longest short names and tokens
job \*a64; => ok
job \*a65; => too long: 65
prefix \*a64; => ok
prefix \*a65; => too long: 65
token \*a4096; => ok
token \*a4097; => too long: 4097";

fn path_is(alloc: Global, text: &[u8]) -> Result<bool, NameFault> {
    Ok(read_path(alloc, text)?.as_bytes() == text)
}

fn snap_is(alloc: Global, text: &[u8]) -> Result<bool, NameFault> {
    Ok(read_snap(alloc, text)?.as_bytes() == text)
}

fn mark_is(alloc: Global, text: &[u8]) -> Result<bool, NameFault> {
    Ok(read_mark(alloc, text)?.as_bytes() == text)
}

fn job_is(alloc: Global, text: &[u8]) -> Result<bool, NameFault> {
    Ok(read_job(alloc, text)?.as_bytes() == text)
}

fn prefix_is(alloc: Global, text: &[u8]) -> Result<bool, NameFault> {
    Ok(read_prefix(alloc, text)?.as_bytes() == text)
}

fn tag_is(alloc: Global, text: &[u8]) -> Result<bool, NameFault> {
    Ok(read_tag(alloc, text)?.as_bytes() == text)
}

fn token_is(alloc: Global, text: &[u8]) -> Result<bool, NameFault> {
    Ok(read_token_text(alloc, text)?.as_bytes() == text)
}

/// Whether the name is the text.
fn is_name(alloc: Global, kind: &str, text: &[u8]) -> Result<bool, NameFault> {
    match kind {
        "path" => path_is(alloc, text),
        "snap" => snap_is(alloc, text),
        "mark" => mark_is(alloc, text),
        "job" => job_is(alloc, text),
        "prefix" => prefix_is(alloc, text),
        "tag" => tag_is(alloc, text),
        "token" => token_is(alloc, text),
        _ => Ok(false),
    }
}

fn read_answer(alloc: Global, read: Result<bool, NameFault>) -> Result<String, Unread> {
    match read {
        Ok(true) => text(alloc, "ok"),
        Ok(false) => text(alloc, "another name"),
        Err(why) => fault(alloc, why),
    }
}

fn name_said(alloc: Global, ask: &str) -> Result<String, Unread> {
    let (kind, name) = ask.split_once(' ').ok_or(Unread)?;
    let read = is_name(alloc, kind, bytes_of(alloc, name)?.as_slice());
    read_answer(alloc, read)
}

#[test]
fn names(rt: HostRuntime) {
    for line in NAMES.lines() {
        if let Some(ask) = ask_of(line) {
            let said = name_said(rt.alloc(), ask);
            assert!(rt; is_wanted(line, &said), "{line}: {}", told(&said));
        }
    }
}

/// Numbers, and the names that stand for a job.
const MARKS: &str = "
# moments end before the year 3000
moment 0 => 0
moment 32503679999999 => 32503679999999
moment 32503680000000 => none
moment 18446744073709551615 => none
# a guid has 16 lower case digits
guid 19 => 0000000000000013
guid 18364758544493064720 => fedcba9876543210
guid 18446744073709551615 => ffffffffffffffff
# what bookmarks are to a job
bookmark zrepl_CURSOR_G_0000000000000013_J_p of p => cursor 19
bookmark zrepl_CURSOR_G_0000000000000013_J_p of q => other
bookmark zrepl_CURSOR_G_000000000000001A_J_p of p => other
bookmark zrepl_CURSOR_G_000000000000001a_J_p of p => cursor 26
bookmark zrepl_CURSOR_G_000000000000001g_J_p of p => other
bookmark zrepl_CURSOR_G_000000000000001:_J_p of p => other
bookmark zrepl_CURSOR_G_ffffffffffffffff_J_p q of p q => cursor 18446744073709551615
bookmark zrepl_CURSOR_G_0123456789abcdef_J_a_J_b of a_J_b => cursor 81985529216486895
bookmark zrepl_CURSOR_G_0123456789abcdef_J_a_J_b of b => other
bookmark zrepl_CURSOR_G_0000000000000013_J_pp of p => other
bookmark zrepl_CURSOR_G_0000000000000013_J_p of pp => other
bookmark zrepl_CURSOR_G_00000000000000013_J_p of p => other
bookmark zrepl_CURSOR_G_000000000000013_J_p of p => other
bookmark zrepl_CURSOR_G_13 of p => other
bookmark zrepl_CURSOR_G_0000000000000013_j_p of p => other
bookmark zrepl_CURSORTENTATIVE_G_0000000000000013_J_p of p => tentative 19
bookmark zrepl_CURSORTENTATIVE_G_0000000000000013_J_p of q => other
bookmark zrepl_replication_cursor of p => old cursor
bookmark zrepl_replication_cursor of zrepl_replication_cursor => old cursor
bookmark zrepl_replication_cursor_J_p of p => other
bookmark zrepl_STEP_J_p of p => other
bookmark p of p => other
# names of marks, and what they are to their job
cursor 19 of p q => zrepl_CURSOR_G_0000000000000013_J_p q
tentative 171 of p q => zrepl_CURSORTENTATIVE_G_00000000000000ab_J_p q
bookmark zrepl_CURSOR_G_0000000000000013_J_p q of p q => cursor 19
bookmark zrepl_CURSORTENTATIVE_G_00000000000000ab_J_p q of p q => tentative 171
# tags of a job
step of p => zrepl_STEP_J_p
last of p => zrepl_last_received_J_p
zrepl_STEP_J_p is step of p => true
zrepl_last_received_J_p is last of p => true
zrepl_STEP_J_p is last of p => false
zrepl_last_received_J_p is step of p => false
zrepl_STEP_J_p is step of pp => false
zrepl_last_received_J_p is last of pp => false
# copies are equal
copies scan, parents, snap, replicate, prune source, prune target => 6 copies: scan () (); parents () (); snap (tank/a) (zrepl_); replicate (tank/a) (); prune source (tank/a) (); prune target (tank/a) ();";

fn moment_text(alloc: Global, ask: &str) -> Result<String, Unread> {
    match Moment::new(number(ask)?) {
        Some(moment) => Ok(format!(in alloc; "{}", moment.ms())?),
        None => text(alloc, "none"),
    }
}

fn hex_text(alloc: Global, ask: &str) -> Result<String, Unread> {
    let guid = Guid(number(ask)?);
    let mut out = Vec::new(alloc);
    guid.push_hex(&mut out)?;
    text(alloc, shown(out.as_slice()))
}

fn kind_text(alloc: Global, kind: MarkKind) -> Result<String, Unread> {
    match kind {
        MarkKind::Cursor(guid) => counted(alloc, "cursor", guid.0),
        MarkKind::Tentative(guid) => counted(alloc, "tentative", guid.0),
        MarkKind::OldCursor => text(alloc, "old cursor"),
        MarkKind::Other => text(alloc, "other"),
    }
}

fn mark_text(alloc: Global, name: &str, of: &str) -> Result<String, Unread> {
    let job = job(alloc, of)?;
    let kind = mark_of(&mark(alloc, name)?, &job);
    kind_text(alloc, kind)
}

fn cursor_text(alloc: Global, guid: &str, of: &str) -> Result<String, Unread> {
    let guid = Guid(number(guid)?);
    let name = cursor_name(alloc, guid, &job(alloc, of)?)?;
    text(alloc, shown(name.as_bytes()))
}

fn tentative_text(alloc: Global, guid: &str, of: &str) -> Result<String, Unread> {
    let guid = Guid(number(guid)?);
    let name = tentative_name(alloc, guid, &job(alloc, of)?)?;
    text(alloc, shown(name.as_bytes()))
}

fn tag_text(alloc: Global, kind: TagKind, of: &str) -> Result<String, Unread> {
    let tag = tag_of(alloc, kind, &job(alloc, of)?)?;
    text(alloc, shown(tag.as_bytes()))
}

fn tag_kind(word: &str) -> TagKind {
    if word == "last" {
        TagKind::Last
    } else {
        TagKind::Step
    }
}

fn tests_tag(alloc: Global, tag: &str, kind: TagKind, of: &str) -> Result<String, Unread> {
    let tag = read_tag(alloc, tag.as_bytes())?;
    let is = is_tag(&tag, kind, &job(alloc, of)?);
    answer(alloc, is)
}

fn of_job(alloc: Global, front: &str, of: &str) -> Result<String, Unread> {
    if let Some((tag, kind)) = front.split_once(" is ") {
        return tests_tag(alloc, tag, tag_kind(kind), of);
    }
    match front.split_once(' ') {
        Some(("bookmark", name)) => mark_text(alloc, name, of),
        Some(("cursor", guid)) => cursor_text(alloc, guid, of),
        Some(("tentative", guid)) => tentative_text(alloc, guid, of),
        _ => tag_text(alloc, tag_kind(front), of),
    }
}

fn work(alloc: Global, verb: &str) -> Result<Work, Unread> {
    match verb {
        "scan" => Ok(Work::Scan),
        "parents" => Ok(Work::Parents),
        "replicate" => Ok(Work::Replicate(path(alloc, "tank/a")?)),
        "prune source" => Ok(Work::PruneSource(path(alloc, "tank/a")?)),
        "prune target" => Ok(Work::PruneTarget(path(alloc, "tank/a")?)),
        _ => snap_work(alloc),
    }
}

fn snap_work(alloc: Global) -> Result<Work, Unread> {
    let set = path(alloc, "tank/a")?;
    match read_prefix(alloc, b"zrepl_") {
        Ok(prefix) => Ok(Work::Snap(set, prefix)),
        Err(_) => Err(Unread),
    }
}

fn parts(work: &Work) -> (&'static str, &[u8], &[u8]) {
    match work {
        Work::Scan => ("scan", b"", b""),
        Work::Parents => ("parents", b"", b""),
        Work::Snap(set, prefix) => ("snap", set.as_bytes(), prefix.as_bytes()),
        Work::Replicate(set) => ("replicate", set.as_bytes(), b""),
        Work::PruneSource(set) => ("prune source", set.as_bytes(), b""),
        Work::PruneTarget(set) => ("prune target", set.as_bytes(), b""),
    }
}

fn push_work(out: &mut String, work: &Work) -> Result<(), Unread> {
    let (verb, set, prefix) = parts(work);
    write!(out, " {verb} ({}) ({});", shown(set), shown(prefix))?;
    Ok(())
}

fn works(alloc: Global, list: &str) -> Result<Rows<Work>, Unread> {
    let mut works = Rows::new(alloc);
    for verb in list.split(", ") {
        works.push(work(alloc, verb)?)?;
    }
    Ok(works)
}

fn works_text(alloc: Global, works: &[Work]) -> Result<String, Unread> {
    let mut out = format!(in alloc; "{} copies:", works.len())?;
    for work in works {
        push_work(&mut out, work)?;
    }
    Ok(out)
}

/// The works, copied.
fn copies_text(alloc: Global, list: &str) -> Result<String, Unread> {
    let works = works(alloc, list)?;
    if works.is_empty() || works.len() != works.as_slice().len() {
        return text(alloc, "no works");
    }
    let again = same_items(alloc, works.as_slice())?.into_vec();
    works_text(alloc, again.as_slice())
}

fn mark_said(alloc: Global, ask: &str) -> Result<String, Unread> {
    if let Some((front, of)) = ask.split_once(" of ") {
        return of_job(alloc, front, of);
    }
    match ask.split_once(' ') {
        Some(("moment", number)) => moment_text(alloc, number),
        Some(("guid", number)) => hex_text(alloc, number),
        Some(("copies", list)) => copies_text(alloc, list),
        _ => Err(Unread),
    }
}

#[test]
fn marks_and_tags(rt: HostRuntime) {
    for line in MARKS.lines() {
        if let Some(ask) = ask_of(line) {
            let said = mark_said(rt.alloc(), ask);
            assert!(rt; is_wanted(line, &said), "{line}: {}", told(&said));
        }
    }
}

/// Outcomes, and the totals that are not 0.
const TOTALS: &str = "
# an outcome and the totals that count it alone
scanned 7 2 => done 1; toolong 2;
parents 3 => done 1; placeholders 3;
taken => done 1; taken 1;
fresh => done 1; fresh 1;
uptodate => done 1; uptodate 1;
replicated 4 => done 1; steps 4;
pruned 5 6 => done 1; destroyed 5; busy 6;
conflict 9 => done 1; conflicts 1;
fault 8 => done 1; faults 1;
garbled 2 3 => done 1; garbled 1;
nomemory => done 1; nomemory 1;
# the totals of parts are added
scanned 7 2, parents 3, taken, fresh, uptodate, replicated 4, pruned 5 6, conflict 9, fault 8, garbled 2 3, nomemory => done 11; taken 1; fresh 1; steps 4; uptodate 1; conflicts 1; destroyed 5; busy 6; placeholders 3; toolong 2; faults 1; garbled 1; nomemory 1;
# totals stay at their greatest
greatest counted => due 18446744073709551614; done 18446744073709551615; steps 18446744073709551615;
greatest added => due 18446744073709551615; done 18446744073709551615; coalesced 1; steps 18446744073709551615;";

/// The numbers of an outcome; one that can't be read is 0.
fn numbers(text: &str) -> (u32, u32) {
    let (one, other) = text.split_once(' ').unwrap_or((text, ""));
    (count(one).unwrap_or(0), count(other).unwrap_or(0))
}

fn outcome(text: &str) -> Result<Outcome, Unread> {
    let (verb, rest) = text.split_once(' ').unwrap_or((text, ""));
    let (one, other) = numbers(rest);
    match verb {
        "scanned" => Ok(Outcome::Scanned {
            found: one,
            too_long: other,
        }),
        "parents" => Ok(Outcome::Parents(one)),
        "taken" => Ok(Outcome::Taken),
        "fresh" => Ok(Outcome::FreshEnough),
        "uptodate" => Ok(Outcome::UpToDate),
        "replicated" => Ok(Outcome::Replicated(one)),
        "pruned" => Ok(Outcome::Pruned {
            destroyed: one,
            busy: other,
        }),
        "conflict" => Ok(Outcome::Conflict(u8::try_from(one).unwrap_or(0))),
        "fault" => Ok(Outcome::ChildFault(one)),
        "garbled" => Ok(Outcome::Garbled {
            at: one,
            line: u64::from(other),
        }),
        "nomemory" => Ok(Outcome::NoMemory),
        _ => Err(Unread),
    }
}

fn push_total(out: &mut String, name: &str, total: u64) -> Result<(), Unread> {
    if total > 0 {
        write!(out, "{name} {total}; ")?;
    }
    Ok(())
}

fn push_runs(out: &mut String, totals: &Totals) -> Result<(), Unread> {
    push_total(out, "due", totals.due)?;
    push_total(out, "done", totals.done)?;
    push_total(out, "coalesced", totals.coalesced)?;
    push_total(out, "taken", totals.taken)?;
    push_total(out, "fresh", totals.fresh)
}

fn push_works(out: &mut String, totals: &Totals) -> Result<(), Unread> {
    push_total(out, "steps", totals.steps)?;
    push_total(out, "uptodate", totals.uptodate)?;
    push_total(out, "conflicts", totals.conflicts)?;
    push_total(out, "destroyed", totals.destroyed)?;
    push_total(out, "busy", totals.busy)
}

fn push_faults(out: &mut String, totals: &Totals) -> Result<(), Unread> {
    push_total(out, "placeholders", totals.placeholders)?;
    push_total(out, "toolong", totals.toolong)?;
    push_total(out, "faults", totals.faults)?;
    push_total(out, "garbled", totals.garbled)?;
    push_total(out, "nomemory", totals.nomemory)
}

/// Each outcome is counted alone, and then added.
fn totals_of(list: &str) -> Result<Totals, Unread> {
    let mut all = Totals::default();
    for text in list.split(", ") {
        let mut one = Totals::default();
        one.count(&outcome(text)?);
        all.add(&one);
    }
    Ok(all)
}

/// Totals near their greatest, after one more outcome.
fn near_greatest() -> Totals {
    let mut totals = Totals {
        done: u64::MAX,
        steps: u64::MAX - 3,
        due: u64::MAX - 1,
        ..Totals::default()
    };
    totals.count(&Outcome::Replicated(4));
    totals
}

fn greatest() -> Totals {
    let mut totals = near_greatest();
    totals.add(&Totals {
        due: 2,
        coalesced: 1,
        ..Totals::default()
    });
    totals
}

fn totals_asked(ask: &str) -> Result<Totals, Unread> {
    match ask {
        "greatest counted" => Ok(near_greatest()),
        "greatest added" => Ok(greatest()),
        _ => totals_of(ask),
    }
}

fn totals_said(alloc: Global, ask: &str) -> Result<String, Unread> {
    let totals = totals_asked(ask)?;
    let mut out = String::new(alloc);
    push_runs(&mut out, &totals)?;
    push_works(&mut out, &totals)?;
    push_faults(&mut out, &totals)?;
    text(alloc, out.as_str().trim_end())
}

#[test]
fn totals(rt: HostRuntime) {
    for line in TOTALS.lines() {
        if let Some(ask) = ask_of(line) {
            let said = totals_said(rt.alloc(), ask);
            assert!(rt; is_wanted(line, &said), "{line}: {}", told(&said));
        }
    }
}

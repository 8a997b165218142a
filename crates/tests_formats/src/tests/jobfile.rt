//! Job files: which are read, and the jobs that they give.
//! A case is a file by its parts with one text changed, or the text of the whole; before it stands what it shows.

use std::alloc::Global;
use tests_lines::{Unread, ask_of, bytes_of, column, is_wanted, shown, text, told};
use zr_filter::{Filter, FilterEntry};
use zr_jobfile::{JobFault, read_jobs};
use zr_jobset::{Job, JobKind, JobSet};
use zr_names::JobName;
use zr_rules::RuleSpec;

// Each part as a person writes it, and the snap job once more in one line.
const FILE: &str = r#"[[jobs]]
name = "s"
type = "snap"
[jobs.filesystems]
"tank<" = true
[jobs.snapshotting]
type = "manual"
[[jobs.pruning.keep]]
type = "last_n"
count = 2
"#;

const SNAP: &str =
    r#"jobs = [{ name = "s", type = "snap", filesystems = { "tank<" = true }, snapshotting = { type = "manual" }, pruning = { keep = [{ type = "last_n", count = 2 }] } }]"#;

const PUSH: &str = r#"[[jobs]]
name = "p"
type = "push"
[jobs.connect]
type = "local"
listener_name = "l"
client_identity = "c"
[jobs.filesystems]
"tank/a" = true
[jobs.snapshotting]
type = "manual"
[jobs.pruning]
keep_sender = []
keep_receiver = []

"#;

const SINK: &str = r#"[[jobs]]
name = "k"
type = "sink"
root_fs = "b"
[jobs.serve]
type = "local"
listener_name = "l"
"#;

const CASES: &str = r#"
# a file as a person writes it, inline tables and the ends of each range
a snap job with a subtree | file => snap s; takes tank<; keeps last 2
the same tree in one line | snap => snap s; takes tank<; keeps last 2
a filesystem alone | snap | "tank<" | tank => snap s; takes tank; keeps last 2
a path with a blank, and the least count | snap | tank<" = true }, snapshotting = { type = "manual" }, pruning = { keep = [{ type = "last_n", count = 2 | tank/a b<" = true }, snapshotting = { type = "manual" }, pruning = { keep = [{ type = "last_n", count = 1 => snap s; takes tank/a b<; keeps last 1
every filesystem, and the greatest count | snap | tank<" = true }, snapshotting = { type = "manual" }, pruning = { keep = [{ type = "last_n", count = 2 | <" = true }, snapshotting = { type = "manual" }, pruning = { keep = [{ type = "last_n", count = 4294967295 => snap s; takes <; keeps last 4294967295
a name of 64 bytes | snap | "s" | "\*a64;" => snap aaaaaaaaaaaaaaaaaaaaaaaaaaaaaaaaaaaaaaaaaaaaaaaaaaaaaaaaaaaaaaaa; takes tank<; keeps last 2
# no TOML
a header that does not end | text | [[jobs => no TOML
a key that stands twice | text | jobs = []\njobs = [] => no TOML
no UTF-8 | text | jobs = []\n# \xff => no TOML
YAML | text | jobs:\n- name: s\n => no TOML
# another shape
an empty document | text | \e => not built
no jobs | text | jobs = [] => not built
a table in place of the jobs | text | [jobs]\nname = "s" => not built
an unknown key of the file | snap | } }] | } }]\nglobal = {} => not built
an unknown key of the job | snap | ] } } | ] }, zzz = 1 } => not built
an unknown key of the job that comes first | snap | ] } } | ] }, aaa = 1 } => not built
an unknown key of the snapshotting | snap | "manual" | "manual", prefix = "z" => not built
an unknown key of the pruning | snap | 2 }] | 2 }], zzz = 1 => not built
an unknown key of the rule | snap | count = 2 | count = 2, regex = "a" => not built
two jobs | snap |  } }] |  } }, { name = "t", type = "snap", filesystems = { "tank<" = true }, snapshotting = { type = "manual" }, pruning = { keep = [{ type = "last_n", count = 2 }] } }] => not built
two rules | snap | { type = "last_n", count = 2 } | { type = "last_n", count = 2 }, { type = "last_n", count = 2 } => not built
no rule | snap | { type = "last_n", count = 2 } | \e => not built
no pattern | snap | "tank<" = true | \e => not built
two patterns | snap | "tank<" = true | "tank<" = true, zoo = true => not built
a pattern that excludes | snap | true | false => not built
a pattern with a text | snap | true | "true" => not built
a bad path | snap | "tank<" | "tank//a<" => not built
two marks | snap | "tank<" | "tank<<" => not built
an empty pattern | snap | "tank<" | "" => not built
a bad name | snap | "s" | "p/q" => not built
an empty name | snap | "s" | "" => not built
a name of 65 bytes | snap | "s" | "\*a65;" => not built
a number in place of the name | snap | "s" | 1 => not built
a missing name | snap | name = "s" | zzz = 1 => not built
another type of job | snap | "snap" | "push" => not built
periodic snapshotting | snap | "manual" | "periodic" => not built
another rule | snap | "last_n" | "grid" => not built
a rule with no count | snap | , count = 2 | \e => not built
a count of none | snap | count = 2 | count = 0 => not built
a count above 32 bits | snap | count = 2 | count = 4294967296 => not built
a negative count | snap | count = 2 | count = -2 => not built
a fraction in place of the count | snap | count = 2 | count = 2.0 => not built
# the longest file
an empty document of the greatest length | text | \* 1048576; => not built
one byte more | text | \* 1048577; => too many bytes
# a push job and its sink
a push job and its sink | push sink => push p; takes tank/a; at l as c / sink k; root b; at l
# names are free
a name with a blank | push sink | name = "p" | name = "job 1" => push job 1; takes tank/a; at l as c / sink k; root b; at l
a name with a dot of the sink job | push sink | name = "k" | name = "sink.k" => push p; takes tank/a; at l as c / sink sink.k; root b; at l
one name for the job and the listener | push sink | name = "p" | name = "l" => push l; takes tank/a; at l as c / sink k; root b; at l
a listener with a colon | push sink | "l" | "port:8" => push p; takes tank/a; at port:8 as c / sink k; root b; at port:8
an identity of three dots | push sink | "c" | "..." => push p; takes tank/a; at l as ... / sink k; root b; at l
a filesystem that is a pool | push sink | "tank/a" | tank => push p; takes tank; at l as c / sink k; root b; at l
a filesystem with a blank | push sink | "tank/a" | "tank/a b/c" => push p; takes tank/a b/c; at l as c / sink k; root b; at l
a root of two components | push sink | "b" | "backup/sinks" => push p; takes tank/a; at l as c / sink k; root backup/sinks; at l
a root beside the filesystem | push sink | "b" | "tank/b" => push p; takes tank/a; at l as c / sink k; root tank/b; at l
a root below the filesystem | push sink | "b" | "tank/a/b" => push p; takes tank/a; at l as c / sink k; root tank/a/b; at l
a root with a name that the filesystem's begins with | push sink | "b" | "tan" => push p; takes tank/a; at l as c / sink k; root tan; at l
another order of keys, and a comment | push sink | type = "sink"\nroot_fs = "b"\n | root_fs = "b" # there already\ntype = "sink"\n => push p; takes tank/a; at l as c / sink k; root b; at l
# each single fault
two jobs of one name | push sink | name = "k" | name = "p" => not built
a listener that nobody serves | push sink | listener_name = "l"\nclient | listener_name = "m"\nclient => not built
a bad name of the push job | push sink | name = "p" | name = "p/q" => not built
an empty name of the push job | push sink | name = "p" | name = "" => not built
a number in place of a name | push sink | name = "p" | name = 1 => not built
a bad name of the sink job | push sink | name = "k" | name = "k@1" => not built
a bad name of the listener | push sink | "l" | "l/m" => not built
an empty name of the listener | push sink | "l" | "" => not built
an identity that is a dot | push sink | "c" | "." => not built
an identity that is two dots | push sink | "c" | ".." => not built
an identity of two components | push sink | "c" | "c/d" => not built
an empty identity | push sink | "c" | "" => not built
a filesystem that is the root | push sink | "b" | "tank/a" => not built
a filesystem below the root | push sink | "b" | "tank" => not built
a root with an empty component | push sink | "b" | "b//c" => not built
an empty root | push sink | "b" | "" => not built
a root with the mark of a subtree | push sink | "b" | "b<" => not built
a filesystem that is left out | push sink | true | false => not built
a text in place of the answer | push sink | true | "true" => not built
two filesystems | push sink | "tank/a" = true | "tank/a" = true\n"tank/b" = true => not built
no filesystem | push sink | "tank/a" = true\n | \e => not built
a subtree | push sink | "tank/a" | "tank/a<" => not built
every filesystem | push sink | "tank/a" | "<" => not built
a bad path | push sink | "tank/a" | "tank//a" => not built
a path of dots | push sink | "tank/a" | "tank/.." => not built
a table of replication | push sink | [jobs.pruning] | [jobs.replication]\n[jobs.pruning] => not built
a table of conflicts | push sink | [jobs.pruning] | [jobs.conflict_resolution]\n[jobs.pruning] => not built
a rule for the source | push sink | keep_sender = [] | keep_sender = [{ type = "not_replicated" }] => not built
a rule for the target | push sink | keep_receiver = [] | keep_receiver = [{ type = "last_n", count = 2 }] => not built
a table in place of the rules | push sink | keep_sender = [] | keep_sender = {} => not built
the rules of a snap job | push sink | keep_sender = []\nkeep_receiver = [] | keep = [] => not built
periodic snapshotting | push sink | type = "manual" | type = "periodic"\nprefix = "z_"\ninterval = "10m" => not built
another type of the first job | push sink | type = "push" | type = "source" => not built
a snap job in place of the push job | push sink | type = "push" | type = "snap" => not built
another type of the second job | push sink | type = "sink" | type = "pull" => not built
another transport | push sink | type = "local"\nlistener_name = "l"\nclient | type = "tcp"\nlistener_name = "l"\nclient => not built
another transport of the sink job | push sink | [jobs.serve]\ntype = "local" | [jobs.serve]\ntype = "tcp" => not built
a push job without its name | push sink | name = "p"\n | \e => not built
a push job without its type | push sink | type = "push"\n | \e => not built
a connection without its type | push sink | [jobs.connect]\ntype = "local"\n | [jobs.connect]\n => not built
a connection without its listener | push sink | listener_name = "l"\nclient | client => not built
a connection without its identity | push sink | client_identity = "c"\n | \e => not built
snapshotting without its type | push sink | type = "manual"\n | \e => not built
no snapshotting | push sink | [jobs.snapshotting]\ntype = "manual"\n | \e => not built
no list of rules for the source | push sink | keep_sender = []\n | \e => not built
no list of rules for the target | push sink | keep_receiver = []\n | \e => not built
no pruning | push sink | [jobs.pruning]\nkeep_sender = []\nkeep_receiver = []\n | \e => not built
a sink job without its name | push sink | name = "k"\n | \e => not built
a sink job without its type | push sink | type = "sink"\n | \e => not built
a sink job without its root | push sink | root_fs = "b"\n | \e => not built
a sink job without its listener | push sink | [jobs.serve]\ntype = "local"\nlistener_name = "l"\n | [jobs.serve]\ntype = "local"\n => not built
a sink job that serves nothing | push sink | [jobs.serve]\ntype = "local"\nlistener_name = "l"\n | \e => not built
an unknown key of the push job | push sink | name = "p" | name = "p"\nzzz = 1 => not built
an unknown key of the connection | push sink | client_identity = "c" | client_identity = "c"\nzzz = 1 => not built
an unknown key of the snapshotting | push sink | type = "manual" | type = "manual"\nprefix = "z_" => not built
an unknown key of the pruning | push sink | keep_sender = [] | keep_sender = []\nkeep = [] => not built
an unknown key of the sink job | push sink | root_fs = "b" | root_fs = "b"\nzzz = 1 => not built
an unknown key of the sink's serving | push sink | [jobs.serve] | [jobs.serve]\nzzz = 1 => not built
an unknown key of the file | push sink | [[jobs]]\nname = "p" | [global]\n[[jobs]]\nname = "p" => not built
# other jobs in the file
the sink job first | sink push => not built
no sink job | push => not built
no push job | sink => not built
the sink job twice | push sink sink => not built
a snap job behind them | push sink file => not built"#;

fn part(name: &str) -> &'static str {
    match name {
        "file" => FILE,
        "snap" => SNAP,
        "push" => PUSH,
        "sink" => SINK,
        _ => "no part",
    }
}

fn whole(alloc: Global, parts: &str) -> Result<String, Unread> {
    let mut whole = String::new(alloc);
    for name in parts.split(' ') {
        whole.push_str(part(name))?;
    }
    Ok(whole)
}

fn unchanged(alloc: Global, parts: &str) -> Result<Vec<u8>, Unread> {
    Ok(whole(alloc, parts)?.into_bytes())
}

/// The file with another text in place of each `from`.
fn changed(alloc: Global, whole: &str, from: &[u8], to: &[u8]) -> Result<Vec<u8>, Unread> {
    let text = whole.replace(alloc, shown(from), shown(to))?;
    Ok(text.into_bytes())
}

fn change(alloc: Global, parts: &str, from: &str, to: &str) -> Result<Vec<u8>, Unread> {
    let from = bytes_of(alloc, from)?;
    let to = bytes_of(alloc, to)?;
    let whole = whole(alloc, parts)?;
    changed(alloc, whole.as_str(), from.as_slice(), to.as_slice())
}

fn file(alloc: Global, ask: &str) -> Result<Vec<u8>, Unread> {
    let mut columns = ask.split(" | ");
    let _why = column(&mut columns);
    let parts = column(&mut columns);
    let from = column(&mut columns);
    match parts {
        "text" => bytes_of(alloc, from),
        _ if from.is_empty() => unchanged(alloc, parts),
        _ => change(alloc, parts, from, column(&mut columns)),
    }
}

fn push_entry(out: &mut String, entry: &FilterEntry) -> Result<(), Unread> {
    out.push_str(if entry.allow { "; takes " } else { "; leaves " })?;
    if let Some(path) = &entry.path {
        out.push_str(shown(path.as_bytes()))?;
    }
    out.push_str(if entry.subtree { "<" } else { "" })?;
    Ok(())
}

fn push_rule(out: &mut String, rule: &RuleSpec) -> Result<(), Unread> {
    match rule {
        RuleSpec::LastN { count, regex: None } => write!(out, "; keeps last {count}")?,
        _ => write!(out, "; keeps by another rule")?,
    }
    Ok(())
}

/// Where a job has something at another end: a root, a listener, an identity.
fn push_ends(out: &mut String, job: &Job) -> Result<(), Unread> {
    if let Some(root) = &job.root {
        write!(out, "; root {}", shown(root.as_bytes()))?;
    }
    if let Some(listener) = &job.listener {
        write!(out, "; at {}", shown(listener.as_bytes()))?;
    }
    if let Some(identity) = &job.identity {
        write!(out, " as {}", shown(identity.as_bytes()))?;
    }
    Ok(())
}

fn kind_text(kind: JobKind) -> &'static str {
    match kind {
        JobKind::Push => "push",
        JobKind::Pull => "pull",
        JobKind::Sink => "sink",
        JobKind::Source => "source",
        JobKind::Snap => "snap",
    }
}

fn push_entries(out: &mut String, filter: &Filter) -> Result<(), Unread> {
    for entry in filter.entries.as_slice() {
        push_entry(out, entry)?;
    }
    Ok(())
}

fn push_rules(out: &mut String, rules: &[RuleSpec]) -> Result<(), Unread> {
    for rule in rules {
        push_rule(out, rule)?;
    }
    Ok(())
}

fn push_job(out: &mut String, name: &JobName, job: &Job) -> Result<(), Unread> {
    write!(out, "{} {}", kind_text(job.kind), shown(name.as_bytes()))?;
    push_entries(out, &job.filter)?;
    push_rules(out, job.keep_source.as_slice())?;
    push_ends(out, job)
}

fn set_text(alloc: Global, set: &JobSet) -> Result<String, Unread> {
    let mut out = String::new(alloc);
    for (name, job) in set.names().iter().zip(set.jobs().iter()) {
        out.push_str(if out.is_empty() { "" } else { " / " })?;
        push_job(&mut out, name, job)?;
    }
    Ok(out)
}

fn read_text(alloc: Global, read: &Result<JobSet, JobFault>) -> Result<String, Unread> {
    match read {
        Ok(set) => set_text(alloc, set),
        Err(JobFault::TooManyBytes) => text(alloc, "too many bytes"),
        Err(JobFault::NotToml) => text(alloc, "no TOML"),
        Err(JobFault::NotBuilt) => text(alloc, "not built"),
        Err(JobFault::NoMemory) => Err(Unread),
    }
}

fn said(alloc: Global, ask: &str) -> Result<String, Unread> {
    let read = read_jobs(alloc, file(alloc, ask)?.as_slice());
    read_text(alloc, &read)
}

#[test]
fn job_files(rt: HostRuntime) {
    for line in CASES.lines() {
        if let Some(ask) = ask_of(line) {
            let said = said(rt.alloc(), ask);
            assert!(rt; is_wanted(line, &said), "{line}: {}", told(&said));
        }
    }
}

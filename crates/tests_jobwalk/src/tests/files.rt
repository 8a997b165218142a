//! Whole job files: the jobs that each gives, or its first fault. A line is a file, as YAML; a part `%N%line` stands for N
//! lines with their number for `#`. Answers were worked out by hand from the documentation of a job file.

use super::shown::{fault_text, filter_text, node, rules_text};
use super::tables::{initial_name, protection_name};
use std::alloc::Global;
use tests_lines::{Unread, ask_of, is_wanted, shown, text, told};
use zr_jobs::Identity;
use zr_jobset::{Job, JobKind, JobSet, Policy};
use zr_jobtree::walk;
use zr_names::{JobName, Path, Prefix};
use zr_rules::RegexPatterns;
use zr_schedule::When;

const CASES: &str = r#"
# the root
\e => missing jobs
1 => missing jobs
- a => missing jobs
{} => missing jobs
jobs: ~ => missing jobs
jobs: 1 => bad value jobs
jobs: {} => bad value jobs
jobs: [] => nothing
global: 1 => missing jobs
global: {logging: 1}\njobs: [] => nothing
jobs: []\nglobal: ~ => nothing
jobs: []\nglobal: 1 => bad value global
jobs: []\nglobal: [] => bad value global
jobs: [1]\nglobal: 1 => bad value global
jobs: 1\nglobal: 1 => bad value jobs
job: []\njobs: 1 => unknown field job
jobs: 1\nglobal: 1\nJobs: 1 => unknown field Jobs
jobs: 1\nj\xc3\xa4: 1 => unknown field j??
jobs:%64%- {name: j#, type: snap, filesystems: {}, snapshotting: {type: manual}, pruning: {keep: []}} => 64 jobs
jobs:%65%- {name: j#, type: snap, filesystems: {}, snapshotting: {type: manual}, pruning: {keep: []}} => too many jobs
global: 1\njobs:%65%- 1 => too many jobs
# a part of the array that is no table; and the first part with a fault is told, with its index
jobs: [1] => bad value jobs[0]
jobs: [~] => bad value jobs[0]
jobs: [[]] => bad value jobs[0]
jobs: [{name: a, type: snap, filesystems: {}, snapshotting: {type: manual}, pruning: {keep: []}}, 1] => bad value jobs[1]
jobs: [{type: snap}, 1] => missing jobs[0].name
jobs: [1, {}] => bad value jobs[0]
jobs: [{name: a, type: snap, filesystems: {}, snapshotting: {type: manual}, pruning: {keep: []}}, {type: sink}] => missing jobs[1].name
jobs:\n- {name: a, type: snap, filesystems: {}, snapshotting: {type: manual}, pruning: {keep: []}}\n- {name: b, type: snap, filesystems: {}, snapshotting: {type: manual}, pruning: {keep: []}}\n- {name: c} => missing jobs[2].type
# the type of a job comes first, then what is none of its fields, then the name
jobs: [{}] => missing jobs[0].type
jobs: [{x: 1, name: a/b}] => missing jobs[0].type
jobs: [{type: local, name: a/b, x: 1}] => bad value jobs[0].type
jobs: [{type: 1}] => bad value jobs[0].type
jobs: [{type: Push}] => bad value jobs[0].type
jobs: [{type: snap, x: 1, name: a/b}] => unknown field jobs[0].x
jobs: [{type: snap, connect: 1}] => unknown field jobs[0].connect
jobs: [{type: sink, pruning: 1}] => unknown field jobs[0].pruning
jobs: [{type: source, root_fs: 1}] => unknown field jobs[0].root_fs
jobs: [{type: pull, filesystems: 1, snapshotting: 1}] => unknown field jobs[0].filesystems
jobs: [{type: push, interval: 1}] => unknown field jobs[0].interval
jobs: [{type: push, x: ~, z: 1, y: 1}] => unknown field jobs[0].y
jobs: [{type: snap, name: a/b}] => bad value jobs[0].name
jobs: [{type: snap, name: 1}] => bad value jobs[0].name
jobs: [{type: snap}] => missing jobs[0].name
# each kind with what it must have alone
jobs: [{name: a, type: snap, filesystems: {}, snapshotting: {type: manual}, pruning: {keep: []}}] => a snap nothing by hand - - - - most recent resumability resumability 1 false nothing nothing
jobs: [{name: s, type: sink, serve: {type: local, listener_name: l}, root_fs: b}] => s sink nothing by hand - b l - most recent resumability resumability 1 false nothing nothing
jobs: [{name: o, type: source, serve: {type: local, listener_name: m}, filesystems: {data: true}, snapshotting: {type: manual}}] => o source (data true) by hand - - m - most recent resumability resumability 1 false nothing nothing
jobs: [{name: p, type: push, connect: {type: local, listener_name: l, client_identity: c}, filesystems: {tank: true}, snapshotting: {type: manual}, pruning: {keep_sender: [], keep_receiver: []}}, {name: s, type: sink, serve: {type: local, listener_name: l}, root_fs: b}] => p push (tank true) by hand - - l c most recent resumability resumability 1 false nothing nothing; s sink nothing by hand - b l - most recent resumability resumability 1 false nothing nothing
jobs: [{name: o, type: source, serve: {type: local, listener_name: m}, filesystems: {data: true}, snapshotting: {type: manual}}, {name: q, type: pull, connect: {type: local, listener_name: m, client_identity: d}, root_fs: r, interval: manual, pruning: {keep_sender: [], keep_receiver: []}}] => o source (data true) by hand - - m - most recent resumability resumability 1 false nothing nothing; q pull nothing by hand - r m d most recent resumability resumability 1 false nothing nothing
# and with all that it may have
jobs:\n- name: p\n  type: push\n  connect: {type: local, listener_name: l, client_identity: c}\n  filesystems: {"tank<": true, tank/tmp: false}\n  snapshotting: {type: periodic, prefix: z_, interval: 10m}\n  replication:\n    protection: {initial: guarantee_nothing, incremental: guarantee_incremental}\n    concurrency: {steps: 4}\n    migrate_old_cursor: true\n  conflict_resolution: {initial_replication: all}\n  pruning:\n    keep_sender:\n    - type: not_replicated\n      keep_snapshot_at_cursor: false\n    - type: last_n\n      count: 10\n    keep_receiver:\n    - type: grid\n      grid: 1x1h(keep=all) | 24x1h\n      regex: ^z_\n- {name: s, type: sink, serve: {type: local, listener_name: l}, root_fs: b} => p push (tank/tmp false)(tank< true) every 600000 z_ - l c all nothing incremental 4 true (not replicated false)(last 10 of all) (grid 1x3600s(keep=all) | 24x3600s of ^z_); s sink nothing by hand - b l - most recent resumability resumability 1 false nothing nothing
jobs:\n- name: q\n  type: pull\n  connect: {type: local, listener_name: m, client_identity: d}\n  root_fs: r\n  interval: 1h\n  replication: {protection: {incremental: guarantee_nothing}}\n  conflict_resolution: {initial_replication: fail}\n  pruning:\n    keep_sender: []\n    keep_receiver:\n    - {type: regex, regex: ^c_, negate: true}\n- name: o\n  type: source\n  serve: {type: local, listener_name: m}\n  filesystems: {"data<": true}\n  snapshotting: {type: cron, prefix: c_, cron: '0 * * * *'}\nglobal: {} => q pull nothing every 3600000 - r m d fail resumability nothing 1 false nothing (regex ^c_ true); o source (data< true) cron c_ - m - most recent resumability resumability 1 false nothing nothing
jobs:\n- name: n\n  type: snap\n  filesystems: {home: true}\n  snapshotting: {type: periodic, prefix: n_, interval: 1 d}\n  pruning:\n    keep:\n    - {type: last_n, count: 2, regex: ^n_} => n snap (home true) every 86400000 n_ - - - most recent resumability resumability 1 false (last 2 of ^n_) nothing
# each field of a push in its turn
jobs: [{name: a, type: push, pruning: 1, filesystems: 1}] => missing jobs[0].connect
jobs: [{name: a, type: push, connect: {type: tcp}, filesystems: 1}] => bad value jobs[0].connect.type
jobs: [{name: a, type: push, connect: {type: local, listener_name: l, client_identity: c}, pruning: 1}] => missing jobs[0].filesystems
jobs: [{name: a, type: push, connect: {type: local, listener_name: l, client_identity: c}, filesystems: {a@: true}, snapshotting: 1}] => bad value jobs[0].filesystems.a@
jobs: [{name: a, type: push, connect: {type: local, listener_name: l, client_identity: c}, filesystems: {}, replication: 1}] => missing jobs[0].snapshotting
jobs: [{name: a, type: push, connect: {type: local, listener_name: l, client_identity: c}, filesystems: {}, snapshotting: {type: manual, prefix: a}, replication: 1}] => unknown field jobs[0].snapshotting.prefix
jobs: [{name: a, type: push, connect: {type: local, listener_name: l, client_identity: c}, filesystems: {}, snapshotting: {type: manual}, replication: 1, conflict_resolution: 1}] => bad value jobs[0].replication
jobs: [{name: a, type: push, connect: {type: local, listener_name: l, client_identity: c}, filesystems: {}, snapshotting: {type: manual}, replication: {concurrency: {steps: 17}}, pruning: 1}] => bad value jobs[0].replication.concurrency.steps
jobs: [{name: a, type: push, connect: {type: local, listener_name: l, client_identity: c}, filesystems: {}, snapshotting: {type: manual}, conflict_resolution: 1, pruning: 1}] => bad value jobs[0].conflict_resolution
jobs: [{name: a, type: push, connect: {type: local, listener_name: l, client_identity: c}, filesystems: {}, snapshotting: {type: manual}}] => missing jobs[0].pruning
jobs: [{name: a, type: push, connect: {type: local, listener_name: l, client_identity: c}, filesystems: {}, snapshotting: {type: manual}, pruning: {keep: []}}] => unknown field jobs[0].pruning.keep
jobs: [{name: a, type: push, connect: {type: local, listener_name: l, client_identity: c}, filesystems: {}, snapshotting: {type: manual}, pruning: {keep_sender: []}}] => missing jobs[0].pruning.keep_receiver
jobs: [{name: a, type: push, connect: {type: local, listener_name: l, client_identity: c}, filesystems: {}, snapshotting: {type: manual}, pruning: {keep_sender: [{type: regex, regex: '('}], keep_receiver: 1}}] => bad regex jobs[0].pruning.keep_sender[0].regex
# of a pull
jobs: [{name: a, type: pull, root_fs: 1}] => missing jobs[0].connect
jobs: [{name: a, type: pull, connect: {type: local, listener_name: l, client_identity: c}, interval: 1}] => missing jobs[0].root_fs
jobs: [{name: a, type: pull, connect: {type: local, listener_name: l, client_identity: c}, root_fs: a//b, interval: 1}] => bad value jobs[0].root_fs
jobs: [{name: a, type: pull, connect: {type: local, listener_name: l, client_identity: c}, root_fs: r, replication: 1}] => missing jobs[0].interval
jobs: [{name: a, type: pull, connect: {type: local, listener_name: l, client_identity: c}, root_fs: r, interval: 1, pruning: 1}] => bad value jobs[0].interval
jobs: [{name: a, type: pull, connect: {type: local, listener_name: l, client_identity: c}, root_fs: r, interval: Manual}] => bad value jobs[0].interval
jobs: [{name: a, type: pull, connect: {type: local, listener_name: l, client_identity: c}, root_fs: r, interval: 1h, conflict_resolution: {x: 1}}] => unknown field jobs[0].conflict_resolution.x
jobs: [{name: a, type: pull, connect: {type: local, listener_name: l, client_identity: c}, root_fs: r, interval: 1h}] => missing jobs[0].pruning
# of a sink, a source and a snap job
jobs: [{name: a, type: sink, root_fs: 1}] => missing jobs[0].serve
jobs: [{name: a, type: sink, serve: {type: local}, root_fs: 1}] => missing jobs[0].serve.listener_name
jobs: [{name: a, type: sink, serve: {type: local, listener_name: l}}] => missing jobs[0].root_fs
jobs: [{name: a, type: sink, serve: {type: local, listener_name: l}, root_fs: 'b/'}] => bad value jobs[0].root_fs
jobs: [{name: a, type: source, filesystems: 1}] => missing jobs[0].serve
jobs: [{name: a, type: source, serve: {type: local, listener_name: l}, filesystems: 1, snapshotting: 1}] => bad value jobs[0].filesystems
jobs: [{name: a, type: source, serve: {type: local, listener_name: l}, filesystems: {}}] => missing jobs[0].snapshotting
jobs: [{name: a, type: snap, pruning: 1}] => missing jobs[0].filesystems
jobs: [{name: a, type: snap, filesystems: {}, pruning: 1}] => missing jobs[0].snapshotting
jobs: [{name: a, type: snap, filesystems: {}, snapshotting: {type: manual}, pruning: {keep_sender: []}}] => unknown field jobs[0].pruning.keep_sender
jobs: [{name: a, type: snap, filesystems: {}, snapshotting: {type: manual}, pruning: {keep: [{type: not_replicated}, {type: regex, regex: '['}]}}] => bad regex jobs[0].pruning.keep[1].regex
# a file without a fault is checked as a whole
jobs: [{name: a, type: snap, filesystems: {}, snapshotting: {type: manual}, pruning: {keep: []}}, {name: a, type: snap, filesystems: {}, snapshotting: {type: manual}, pruning: {keep: []}}] => DuplicateName job 1
jobs: [{name: s, type: sink, serve: {type: local, listener_name: l}, root_fs: b}, {name: t, type: sink, serve: {type: local, listener_name: l}, root_fs: c}] => DuplicateName job 1
jobs: [{name: p, type: push, connect: {type: local, listener_name: l, client_identity: c}, filesystems: {}, snapshotting: {type: manual}, pruning: {keep_sender: [], keep_receiver: []}}] => NoListener job 0
jobs: [{name: o, type: source, serve: {type: local, listener_name: l}, filesystems: {}, snapshotting: {type: manual}}, {name: p, type: push, connect: {type: local, listener_name: l, client_identity: c}, filesystems: {}, snapshotting: {type: manual}, pruning: {keep_sender: [], keep_receiver: []}}] => WrongListenerType job 1
jobs: [{name: s, type: sink, serve: {type: local, listener_name: l}, root_fs: b}, {name: q, type: pull, connect: {type: local, listener_name: l, client_identity: c}, root_fs: r, interval: manual, pruning: {keep_sender: [], keep_receiver: []}}] => WrongListenerType job 1
jobs: [{name: s, type: sink, serve: {type: local, listener_name: l}, root_fs: b}, {name: p, type: push, connect: {type: local, listener_name: l, client_identity: c}, filesystems: {}, snapshotting: {type: manual}, pruning: {keep_sender: [], keep_receiver: []}}, {name: q, type: push, connect: {type: local, listener_name: l, client_identity: c}, filesystems: {}, snapshotting: {type: manual}, pruning: {keep_sender: [], keep_receiver: []}}] => SameIdentity job 2
jobs: [{name: s, type: sink, serve: {type: local, listener_name: l}, root_fs: b}, {name: t, type: sink, serve: {type: local, listener_name: m}, root_fs: b/c}] => RootsNested job 1
jobs: [{name: s, type: sink, serve: {type: local, listener_name: l}, root_fs: b}, {name: a, type: snap, filesystems: {"<": true}, snapshotting: {type: manual}, pruning: {keep: []}}] => SourceInRoot job 1
jobs: [{name: a, type: snap, filesystems: {}, snapshotting: {type: manual}, pruning: {keep: [{type: not_replicated}]}}] => RuleNotHere job 0
jobs: [{name: s, type: sink, serve: {type: local, listener_name: l}, root_fs: b}, {name: p, type: push, connect: {type: local, listener_name: l, client_identity: c}, filesystems: {}, snapshotting: {type: manual}, pruning: {keep_sender: [], keep_receiver: []}, replication: {migrate_old_cursor: true}}, {name: q, type: push, connect: {type: local, listener_name: l, client_identity: d}, filesystems: {}, snapshotting: {type: manual}, pruning: {keep_sender: [], keep_receiver: []}, replication: {migrate_old_cursor: true}}] => MigrateTwice job 2
# and no check comes before a fault of the tree
jobs: [{name: a, type: snap, filesystems: {}, snapshotting: {type: manual}, pruning: {keep: []}}, {name: a, type: snap, filesystems: {}, snapshotting: {type: manual}, pruning: {keep: []}}, {type: snap}] => missing jobs[2].name
jobs: [{name: p, type: push, connect: {type: local, listener_name: l, client_identity: c}, filesystems: {}, snapshotting: {type: manual}, pruning: {keep_sender: [], keep_receiver: []}}, {name: a, type: snap, filesystems: {}, snapshotting: {type: manual}, pruning: {keep: [{type: regex, regex: '('}]}}] => bad regex jobs[1].pruning.keep[0].regex"#;

fn kind_name(kind: JobKind) -> &'static str {
    match kind {
        JobKind::Push => "push",
        JobKind::Pull => "pull",
        JobKind::Sink => "sink",
        JobKind::Source => "source",
        JobKind::Snap => "snap",
    }
}

fn when_text(alloc: Global, when: &When) -> Result<String, Unread> {
    match when {
        When::Never => text(alloc, "by hand"),
        When::Every(ms) => Ok(format!(in alloc; "every {ms}")?),
        When::Cron(_) => text(alloc, "cron"),
    }
}

fn prefix_text(prefix: &Option<Prefix>) -> &str {
    match prefix {
        Some(prefix) => shown(prefix.as_bytes()),
        None => "-",
    }
}

fn path_text(path: &Option<Path>) -> &str {
    match path {
        Some(path) => shown(path.as_bytes()),
        None => "-",
    }
}

fn listener_text(listener: &Option<JobName>) -> &str {
    match listener {
        Some(listener) => shown(listener.as_bytes()),
        None => "-",
    }
}

fn identity_text(identity: &Option<Identity>) -> &str {
    match identity {
        Some(identity) => shown(identity.as_bytes()),
        None => "-",
    }
}

/// The kind, the filesystems and when a job is at work on them.
fn work_text(alloc: Global, job: &Job) -> Result<String, Unread> {
    let kind = kind_name(job.kind);
    let filter = filter_text(alloc, &job.filter)?;
    let when = when_text(alloc, &job.when)?;
    let prefix = prefix_text(&job.prefix);
    Ok(format!(in alloc; "{kind} {filter} {when} {prefix}")?)
}

fn ends_text(alloc: Global, job: &Job) -> Result<String, Unread> {
    let root = path_text(&job.root);
    let listener = listener_text(&job.listener);
    let identity = identity_text(&job.identity);
    Ok(format!(in alloc; "{root} {listener} {identity}")?)
}

fn policy_text(alloc: Global, policy: Policy) -> Result<String, Unread> {
    let initial = initial_name(policy.initial);
    let first = protection_name(policy.first);
    let later = protection_name(policy.later);
    Ok(format!(in alloc; "{initial} {first} {later}")?)
}

fn kept_text(alloc: Global, job: &Job) -> Result<String, Unread> {
    let (steps, migrate) = (job.steps, job.migrate);
    let sender = rules_text(alloc, job.keep_source.as_slice())?;
    let receiver = rules_text(alloc, job.keep_target.as_slice())?;
    Ok(format!(in alloc; "{steps} {migrate} {sender} {receiver}")?)
}

fn job_text(alloc: Global, name: &JobName, job: &Job) -> Result<String, Unread> {
    let name = shown(name.as_bytes());
    let work = work_text(alloc, job)?;
    let ends = ends_text(alloc, job)?;
    let policy = policy_text(alloc, job.policy)?;
    let kept = kept_text(alloc, job)?;
    Ok(format!(in alloc; "{name} {work} {ends} {policy} {kept}")?)
}

/// The jobs of a set, or how many there are where they are many.
fn set_text(alloc: Global, set: &JobSet) -> Result<String, Unread> {
    let number = set.jobs().len();
    if number > 8 {
        return Ok(format!(in alloc; "{number} jobs")?);
    }
    if number == 0 {
        return text(alloc, "nothing");
    }
    let mut out = String::new(alloc);
    for (name, job) in set.names().iter().zip(set.jobs()) {
        if !out.is_empty() {
            out.push_str("; ")?;
        }
        out.push_str(job_text(alloc, name, job)?.as_str())?;
    }
    Ok(out)
}

fn said(alloc: Global, yaml: &str) -> Result<String, Unread> {
    let node = node(alloc, yaml)?;
    let mut patterns = RegexPatterns::new(alloc);
    match walk(alloc, &mut patterns, &node) {
        Ok(set) => set_text(alloc, &set),
        Err(fault) => fault_text(alloc, &fault),
    }
}

#[test]
fn files(rt: HostRuntime) {
    for line in CASES.lines() {
        if let Some(ask) = ask_of(line) {
            let said = said(rt.alloc(), ask);
            assert!(rt; is_wanted(line, &said), "{line}: {}", told(&said));
        }
    }
}

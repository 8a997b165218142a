//! Sets of jobs: which check refuses each, and the filter and the targets of a job. A line has the jobs, each with its name,
//! its kind and its fields, and then perhaps a question about the job of a number. Answers were worked out by hand.

use std::alloc::Global;
use tests_lines::{
    Unread, answer, ask_of, bytes_of, count, is_wanted, job as job_name, number, path, placed,
    shown, text, told,
};
use zr_filter::{Filter, matches, read_pattern};
use zr_grid::{GridSpec, Intervals, read_grid};
use zr_jobs::{Identity, read_identity};
use zr_jobset::{
    CheckFault, Job, JobKind, JobSet, Policy, TargetFault, are_jobs, check, filter_of, target_of,
};
use zr_names::{
    Initial, JobName, Moment, Path, Protection, Rows, Same, Unit, Work, read_path, read_prefix,
};
use zr_rules::RuleSpec;
use zr_schedule::When;

const CASES: &str = r"
# a set of each kind
p push listener=l identity=c filter=tank< ; k sink listener=l root=b => accepted
q pull listener=l identity=c root=b every=600000 ; s source listener=l filter=tank< => accepted
n snap filter=tank< every=600000 prefix=z_ source=last => accepted
k sink listener=l root=b => accepted
p push listener=l identity=c filter=tank< every=1 prefix=z_ steps=16 source=newer target=grid migrate=yes ; k sink listener=l root=b => accepted
# a job and a listener may have one name; a listener may be served for nobody
l sink listener=l root=b ; m source listener=m filter=tank => accepted
# nested roots are refused
k sink listener=l root=b ; m sink listener=m root=b/x => RootsNested job 1
k sink listener=l root=b/x ; m sink listener=m root=b => RootsNested job 1
k sink listener=l root=b ; m sink listener=m root=b => RootsNested job 1
k sink listener=l root=b ; m sink listener=m root=bx => accepted
k sink listener=l root=a ; m sink listener=m root=b ; o sink listener=o root=a/y => RootsNested job 2
# one set for each other check
n snap filter=tank< ; n snap filter=tank< => DuplicateName job 1
k sink listener=l root=b ; m source listener=l filter=tank< => DuplicateName job 1
p push listener=l identity=c filter=tank< => NoListener job 0
p push listener=l identity=c filter=tank< ; s source listener=l filter=tank< => WrongListenerType job 0
k sink listener=l root=b ; q pull listener=l identity=c root=d => WrongListenerType job 1
p push listener=l identity=c filter=tank< ; k sink listener=l root=b ; o push listener=l identity=c filter=pool< => SameIdentity job 2
p push listener=l identity=c filter=tank< ; k sink listener=l root=b ; o push listener=l identity=d filter=pool< => accepted
p push listener=l identity=c filter=b< ; k sink listener=l root=b => SourceInRoot job 1
k sink listener=l root=b ; n snap filter=b/x => SourceInRoot job 1
k sink listener=l root=b ; n snap filter=<,-b< => accepted
n snap filter=tank< source=newer => RuleNotHere job 0
p push listener=l identity=c filter=tank< target=newer ; k sink listener=l root=b => RuleNotHere job 0
p push listener=l identity=c filter=tank< migrate=yes ; k sink listener=l root=b ; o push listener=l identity=d filter=pool< migrate=yes => MigrateTwice job 2
# of two checks the earlier in the order is told, though its job is the later one
p push listener=x identity=c filter=tank< ; k sink listener=l root=b ; k snap filter=tank< => DuplicateName job 2
p push listener=l identity=c filter=tank< ; s source listener=l filter=tank< ; q pull listener=x identity=c root=b => NoListener job 2
k sink listener=l root=b ; p push listener=l identity=c filter=tank< ; o push listener=l identity=c filter=tank< ; q pull listener=l identity=c root=d => WrongListenerType job 3
k sink listener=l root=b ; m sink listener=m root=b/x ; p push listener=l identity=c filter=tank< ; o push listener=l identity=c filter=tank< => SameIdentity job 3
k sink listener=l root=b ; n snap filter=b ; m sink listener=m root=b/x => RootsNested job 2
n snap filter=b source=newer ; k sink listener=l root=b => SourceInRoot job 1
p push listener=l identity=c filter=tank< migrate=yes ; k sink listener=l root=b ; o push listener=l identity=d filter=tank< migrate=yes ; n snap filter=tank< source=newer => RuleNotHere job 3
# a pull goes by the filter of its source, every other job by its own
q pull listener=l identity=c root=b ; s source listener=l filter=tank<,-tank/tmp< | filter 0 tank/a => true
q pull listener=l identity=c root=b ; s source listener=l filter=tank<,-tank/tmp< | filter 0 tank/tmp/x => false
q pull listener=m identity=c root=b ; s source listener=l filter=pool< ; t source listener=m filter=tank< | filter 0 tank/a => true
q pull listener=m identity=c root=b ; s source listener=l filter=pool< ; t source listener=m filter=tank< | filter 0 pool/a => false
p push listener=l identity=c filter=tank ; k sink listener=l root=b | filter 0 tank => true
p push listener=l identity=c filter=tank ; k sink listener=l root=b | filter 1 tank => false
# a push goes below its sink's root and its identity, a pull below its own root
p push listener=l identity=c filter=tank< ; k sink listener=l root=b | target 0 tank/a => b/c/tank/a
p push listener=m identity=c filter=tank< ; k sink listener=l root=b ; m sink listener=m root=d/e | target 0 tank/a => d/e/c/tank/a
q pull listener=l identity=c root=b ; s source listener=l filter=tank< | target 0 tank/a => b/tank/a
p push listener=l identity=c filter=tank< ; k sink listener=l root=b | target 1 tank/a => no push or pull
# a source of 145 bytes
p push listener=l identity=c filter=tank< ; k sink listener=l root=b | target 0 \*a145; => too long: 149
p push listener=l identity=c filter=tank< ; k sink listener=l root=b | target 0 \*a144; => too long: 148
p push listener=l identity=c filter=tank< ; k sink listener=l root=b | target 0 \*a143; => b/c/aaaaaaaaaaaaaaaaaaaaaaaaaaaaaaaaaaaaaaaaaaaaaaaaaaaaaaaaaaaaaaaaaaaaaaaaaaaaaaaaaaaaaaaaaaaaaaaaaaaaaaaaaaaaaaaaaaaaaaaaaaaaaaaaaaaaaaaaaaaaaaa
q pull listener=l identity=c root=b ; s source listener=l filter=tank< | target 0 \*a146; => too long: 148
# the units of a job: a sink is never scanned, and a source replicates nothing by itself
p push listener=l identity=c filter=tank< source=last ; k sink listener=l root=b | units 0 tank/a => scan replicate prune
p push listener=l identity=c filter=tank< ; k sink listener=l root=b | units 0 tank/a => scan replicate
p push listener=l identity=c filter=tank< ; k sink listener=l root=b | units 0 pool => scan
p push listener=l identity=c filter=tank< ; k sink listener=l root=b | units 1 tank/a => none
p push listener=l identity=c filter=tank< ; k sink listener=l root=b | units 2 tank/a => none
q pull listener=l identity=c root=b source=last ; s source listener=l filter=tank< | units 0 tank/a => scan replicate prune
q pull listener=l identity=c root=b ; s source listener=l filter=tank< | units 1 tank/a => scan
n snap filter=tank< source=last | units 0 tank/a => scan prune
# nor has a job units on a path or a target that is too long
p push listener=l identity=c filter=tank< ; k sink listener=l root=b | units 0 tank/\*a138; => scan replicate
p push listener=l identity=c filter=tank< ; k sink listener=l root=b | units 0 tank/\*a139; => scan
n snap filter=tank< source=last | units 0 tank/\*a142; => scan prune
n snap filter=tank< source=last | units 0 tank/\*a143; => scan
# what a job file does not give is no set
n snap filter=tank< root=b => not whole
k sink listener=l => not whole
p push listener=l filter=tank< => not whole
q pull listener=l identity=c root=b filter=tank => not whole
s source listener=l filter=tank< source=last => not whole
n snap filter=tank< target=last => not whole
n snap filter=tank< migrate=yes => not whole
n snap filter=tank< every=1 => not whole
n snap filter=tank< source=nothing => not whole
p push listener=l identity=c filter=tank< steps=17 ; k sink listener=l root=b => not whole";

/// What stands behind a key among the words of a job.
fn field<'a>(job: &'a str, key: &str) -> Option<&'a str> {
    for word in job.split(' ') {
        if let Some(value) = word.strip_prefix(key) {
            return Some(value);
        }
    }
    None
}

fn kind_of(job: &str) -> Result<JobKind, Unread> {
    let (_, rest) = job.split_once(' ').ok_or(Unread)?;
    match rest.split(' ').next().unwrap_or("") {
        "push" => Ok(JobKind::Push),
        "pull" => Ok(JobKind::Pull),
        "sink" => Ok(JobKind::Sink),
        "source" => Ok(JobKind::Source),
        "snap" => Ok(JobKind::Snap),
        _ => Err(Unread),
    }
}

fn root_of(alloc: Global, job: &str) -> Result<Option<Path>, Unread> {
    match field(job, "root=") {
        Some(value) => Ok(Some(path(alloc, value)?)),
        None => Ok(None),
    }
}

fn listener_of(alloc: Global, job: &str) -> Result<Option<JobName>, Unread> {
    match field(job, "listener=") {
        Some(value) => Ok(Some(job_name(alloc, value)?)),
        None => Ok(None),
    }
}

fn identity_of(alloc: Global, job: &str) -> Result<Option<Identity>, Unread> {
    match field(job, "identity=") {
        Some(value) => match read_identity(alloc, value.as_bytes()) {
            Ok(identity) => Ok(Some(identity)),
            Err(_) => Err(Unread),
        },
        None => Ok(None),
    }
}

fn when_of(job: &str) -> Result<When, Unread> {
    match field(job, "every=") {
        Some(value) => Ok(When::Every(number(value)?)),
        None => Ok(When::Never),
    }
}

fn steps_of(job: &str) -> Result<u32, Unread> {
    count(field(job, "steps=").unwrap_or("1"))
}

fn filter_read(alloc: Global, job: &str) -> Result<Filter, Unread> {
    let mut entries = Rows::new(alloc);
    if let Some(list) = field(job, "filter=") {
        for pattern in list.split(',') {
            let allow = !pattern.starts_with('-');
            let pattern = pattern.trim_start_matches('-');
            entries.push(read_pattern(alloc, pattern.as_bytes(), allow)?)?;
        }
    }
    Ok(Filter { entries })
}

fn grid_of(alloc: Global, grid: &str) -> Result<GridSpec, Unread> {
    match read_grid(alloc, grid.as_bytes()) {
        Ok(spec) => Ok(spec),
        Err(_) => Err(Unread),
    }
}

fn rule_of(alloc: Global, rule: &str) -> Result<RuleSpec, Unread> {
    match rule {
        "last" => Ok(RuleSpec::LastN {
            count: 1,
            regex: None,
        }),
        "newer" => Ok(RuleSpec::NotReplicated { at_cursor: true }),
        "grid" => Ok(RuleSpec::Grid {
            spec: grid_of(alloc, "1x1h")?,
            regex: None,
        }),
        "nothing" => Ok(RuleSpec::Grid {
            spec: GridSpec {
                intervals: Intervals::from_vec(Vec::new(alloc)),
            },
            regex: None,
        }),
        _ => Err(Unread),
    }
}

fn rules_of(alloc: Global, rule: Option<&str>) -> Result<Rows<RuleSpec>, Unread> {
    let mut rules = Rows::new(alloc);
    if let Some(rule) = rule {
        rules.push(rule_of(alloc, rule)?)?;
    }
    Ok(rules)
}

const DEFAULT: Policy = Policy {
    initial: Initial::MostRecent,
    first: Protection::Resumability,
    later: Protection::Resumability,
};

fn read_job(alloc: Global, job: &str) -> Result<Job, Unread> {
    let (kind, when, steps) = (kind_of(job)?, when_of(job)?, steps_of(job)?);
    let prefix = match field(job, "prefix=") {
        Some(value) => Some(read_prefix(alloc, value.as_bytes())?),
        None => None,
    };
    Ok(Job {
        kind,
        when,
        prefix,
        steps,
        policy: DEFAULT,
        migrate: field(job, "migrate=").is_some(),
        root: root_of(alloc, job)?,
        listener: listener_of(alloc, job)?,
        identity: identity_of(alloc, job)?,
        filter: filter_read(alloc, job)?,
        keep_source: rules_of(alloc, field(job, "source="))?,
        keep_target: rules_of(alloc, field(job, "target="))?,
    })
}

fn read_names(alloc: Global, set: &str) -> Result<Vec<JobName>, Unread> {
    let mut names = Vec::new(alloc);
    for job in set.split(" ; ") {
        names.push(job_name(alloc, job.split(' ').next().unwrap_or(""))?)?;
    }
    Ok(names)
}

fn read_jobs(alloc: Global, set: &str) -> Result<Vec<Job>, Unread> {
    let mut jobs = Vec::new(alloc);
    for job in set.split(" ; ") {
        jobs.push(read_job(alloc, job)?)?;
    }
    Ok(jobs)
}

fn target_text(alloc: Global, set: &JobSet, job: u32, source: &Path) -> Result<String, Unread> {
    if !set.replicates(job) {
        return text(alloc, "no push or pull");
    }
    match target_of(alloc, set, job, source) {
        Ok(target) => text(alloc, shown(target.as_bytes())),
        Err(TargetFault::NameTooLong(bytes)) => placed(alloc, "too long:", bytes),
        Err(TargetFault::NoMemory) => Err(Unread),
    }
}

fn filter_text(alloc: Global, set: &JobSet, job: u32, path: &Path) -> Result<String, Unread> {
    if job as usize >= set.jobs().len() {
        return Err(Unread);
    }
    answer(alloc, matches(filter_of(set, job), path))
}

fn has(set: &JobSet, job: u32, work: Work) -> Result<bool, Unread> {
    let moment = Moment::new(0).ok_or(Unread)?;
    Ok(set.has_unit(&Unit { job, moment, work }))
}

fn push_word(out: &mut String, there: bool, word: &str) -> Result<(), Unread> {
    if there {
        out.push_str(if out.is_empty() { "" } else { " " })?;
        out.push_str(word)?;
    }
    Ok(())
}

fn units_text(alloc: Global, set: &JobSet, job: u32, path: &Path) -> Result<String, Unread> {
    let mut out = String::new(alloc);
    push_word(&mut out, has(set, job, Work::Scan)?, "scan")?;
    push_word(
        &mut out,
        has(set, job, Work::Replicate(path.same()?))?,
        "replicate",
    )?;
    push_word(
        &mut out,
        has(set, job, Work::PruneSource(path.same()?))?,
        "prune",
    )?;
    out.push_str(if out.is_empty() { "none" } else { "" })?;
    Ok(out)
}

fn asked(alloc: Global, set: &JobSet, question: &str) -> Result<String, Unread> {
    let Some((word, rest)) = question.split_once(' ') else {
        return text(alloc, "accepted");
    };
    let (job, source) = rest.split_once(' ').ok_or(Unread)?;
    let job = count(job)?;
    let source = read_path(alloc, bytes_of(alloc, source)?.as_slice())?;
    match word {
        "target" => target_text(alloc, set, job, &source),
        "filter" => filter_text(alloc, set, job, &source),
        "units" => units_text(alloc, set, job, &source),
        _ => Err(Unread),
    }
}

fn fault_text(alloc: Global, fault: CheckFault) -> Result<String, Unread> {
    match fault {
        CheckFault::NoMemory => Err(Unread),
        fault => Ok(format!(in alloc; "{fault}")?),
    }
}

fn said(alloc: Global, ask: &str) -> Result<String, Unread> {
    let (set, question) = ask.split_once(" | ").unwrap_or((ask, ""));
    let names = read_names(alloc, set)?;
    let jobs = read_jobs(alloc, set)?;
    if !are_jobs(names.as_slice(), jobs.as_slice()) {
        return text(alloc, "not whole");
    }
    match check(alloc, names.as_slice(), jobs) {
        Ok(set) => asked(alloc, &set, question),
        Err(fault) => fault_text(alloc, fault),
    }
}

#[test]
fn sets(rt: HostRuntime) {
    for line in CASES.lines() {
        if let Some(ask) = ask_of(line) {
            let said = said(rt.alloc(), ask);
            assert!(rt; is_wanted(line, &said), "{line}: {}", told(&said));
        }
    }
}

//! How a replication of the dataset `p/a` to `q/p/a` ends, over pools in memory.

use super::is;
use std::alloc::{AllocError, Global};
use tests_pools::{Asked, before, extent_of, job, number, path, pools_of, written};
use zr_base::Rows;
use zr_filter::{Filter, read_pattern};
use zr_jobs::read_identity;
use zr_jobset::{Job, JobKind, JobSet, Policy, are_jobs, check};
use zr_model::is_well_formed;
use zr_names::{Initial, Moment, Outcome, Protection, Unit, Work};
use zr_permit::Guarded;
use zr_replicate::replicate;
use zr_schedule::When;
use zr_world::{MemZfs, PlannedFailure, Pools};

/// Pools; then the command that fails, if any, by its number, with how much of it comes; and how the unit ends. The
/// number 20 of a conflict says that the pair is left as it is.
const BLOCKS: &str = "\
a_target_that_is_absent_gets_the_newest_snapshot
now 1000 txg 100 guid 100;p;p/a @a:11:1:1011 @b:12:2:1012;q;q/p;
  well => replicated 1
  none 1 => child fault 1
  none 2 => child fault 2
  none 3 => child fault 3
  whole 3 => child fault 3
  none 4 => child fault 4
  part 4 => child fault 4
  whole 4 => child fault 4
  none 5 => child fault 5
  none 6 => child fault 6
  none 7 => child fault 7
  none 8 => replicated 1

each_snapshot_after_the_last_one_is_a_step
now 1000 txg 100 guid 100;p;p/a @a:11:1:1011 #zrepl_CURSOR_G_000000000000000b_J_j:11:1:1011 @b:12:2:1012 @c:13:3:1013;q;q/p;q/p/a @a:11:1:1011[zrepl_last_received_J_j];
  well => replicated 2
  none 4 => child fault 4

nothing_is_left_to_send
now 1000 txg 100 guid 100;p;p/a @a:11:1:1011 #zrepl_CURSOR_G_000000000000000b_J_j:11:1:1011;q;q/p;q/p/a @a:11:1:1011[zrepl_last_received_J_j];
  well => up to date

a_newer_snapshot_of_the_target_is_conflict_20
now 1000 txg 100 guid 100;p;p/a @a:11:1:1011 #zrepl_CURSOR_G_000000000000000b_J_j:11:1:1011;q;q/p;q/p/a @a:11:1:1011[zrepl_last_received_J_j] @z:99:5:1099;
  well => conflict 20
  none 3 => child fault 3

a_partial_receive_is_conflict_20
now 1000 txg 100 guid 100;p;p/a @a:11:1:1011;q;q/p;q/p/a partial 11 none p/a;
  well => conflict 20

a_target_that_was_never_settled_is_conflict_20
now 1000 txg 100 guid 100;p;p/a @a:11:1:1011;q;q/p;q/p/a @a:11:1:1011;
  well => conflict 20";

/// How the job replicates, in words.
const DEFAULT: &str = "most recent, resumability, resumability";

fn initial_of(word: &str) -> Option<Initial> {
    match word {
        "most recent" => Some(Initial::MostRecent),
        "all" => Some(Initial::All),
        "fail" => Some(Initial::Fail),
        _ => None,
    }
}

fn protection_of(word: &str) -> Option<Protection> {
    match word {
        "resumability" => Some(Protection::Resumability),
        "incremental" => Some(Protection::Incremental),
        "nothing" => Some(Protection::Nothing),
        _ => None,
    }
}

/// What is replicated first, and the protection of the first replication and of each later one.
fn policy_of(words: &str) -> Option<Policy> {
    let mut words = words.split(", ");
    Some(Policy {
        initial: initial_of(words.next()?)?,
        first: protection_of(words.next()?)?,
        later: protection_of(words.next()?)?,
    })
}

/// A job of this kind at one listener, that is by default in all that its ends do not say.
fn job_of(alloc: Global, kind: JobKind, policy: Policy, filter: Filter) -> Option<Job> {
    Some(Job {
        kind,
        filter,
        when: When::Never,
        prefix: None,
        root: None,
        listener: Some(job(alloc, "l")?),
        identity: None,
        policy,
        steps: 1,
        migrate: false,
        keep_source: Rows::new(alloc),
        keep_target: Rows::new(alloc),
    })
}

/// A job that pulls below a root what its source has.
fn pull_of(alloc: Global, policy: Policy) -> Option<Job> {
    let none = Filter {
        entries: Rows::new(alloc),
    };
    let mut pull = job_of(alloc, JobKind::Pull, policy, none)?;
    pull.root = Some(path(alloc, "q")?);
    pull.identity = Some(read_identity(alloc, b"c").ok()?);
    Some(pull)
}

/// The source, with one dataset.
fn source_of(alloc: Global) -> Option<Job> {
    let mut entries = Rows::new(alloc);
    entries.push(read_pattern(alloc, b"p/a", true).ok()?).ok()?;
    job_of(
        alloc,
        JobKind::Source,
        policy_of(DEFAULT)?,
        Filter { entries },
    )
}

fn jobs_of(alloc: Global, policy: &str) -> Option<JobSet> {
    let mut jobs = Vec::new(alloc);
    jobs.push(pull_of(alloc, policy_of(policy)?)?).ok()?;
    jobs.push(source_of(alloc)?).ok()?;
    let mut names = Vec::new(alloc);
    names.push(job(alloc, "j")?).ok()?;
    names.push(job(alloc, "s")?).ok()?;
    if !are_jobs(names.as_slice(), jobs.as_slice()) {
        return None;
    }
    check(alloc, names.as_slice(), jobs).ok()
}

/// The call of a question that is to fail.
fn failing_of(alloc: Global, ask: &str) -> Option<Vec<PlannedFailure>> {
    let mut failing = Vec::new(alloc);
    if let (Some(extent), call) = extent_of(ask) {
        let call = number(call)?;
        failing.push(PlannedFailure { call, extent }).ok()?;
    }
    Some(failing)
}

/// A runner over pools that are well formed.
fn runner_of(alloc: Global, pools: &str, ask: &str) -> Option<MemZfs> {
    let failing = failing_of(alloc, ask)?;
    let pools = pools_of(alloc, pools)?;
    if !is_well_formed(&pools) {
        return None;
    }
    Some(MemZfs::new(alloc, pools, failing))
}

/// How the replication of a dataset ends, where it is one of the job file.
fn end_of(alloc: Global, jobs: &JobSet, source: &str, runner: &mut MemZfs) -> Option<Outcome> {
    let unit = Unit {
        job: 0,
        moment: Moment::new(2000)?,
        work: Work::Replicate(path(alloc, source)?),
    };
    if !jobs.has_unit(&unit) {
        return None;
    }
    let mut unit = Guarded::begin(alloc, unit, 1, jobs, runner).ok()?;
    Some(replicate(alloc, &mut unit))
}

fn end_text(alloc: Global, outcome: Outcome) -> Result<String, AllocError> {
    match outcome {
        Outcome::Replicated(steps) => format!(in alloc; "replicated {steps}"),
        Outcome::UpToDate => format!(in alloc; "up to date"),
        Outcome::Conflict(number) => format!(in alloc; "conflict {number}"),
        Outcome::ChildFault(number) => format!(in alloc; "child fault {number}"),
        _ => format!(in alloc; "another end"),
    }
}

/// Pools of which each question sees a copy.
#[derive(Clone, Copy)]
struct Pair<'a> {
    pools: &'a str,
}

impl Asked for Pair<'_> {
    fn came(&mut self, alloc: Global, ask: &str) -> Option<String> {
        let jobs = jobs_of(alloc, DEFAULT)?;
        let mut runner = runner_of(alloc, self.pools, ask)?;
        let outcome = end_of(alloc, &jobs, "p/a", &mut runner)?;
        end_text(alloc, outcome).ok()
    }
}

fn came(alloc: Global, block: &str) -> Option<String> {
    let pools = before(block);
    written(alloc, block, &mut Pair { pools })
}

#[test]
fn ends_of_a_replication(rt: HostRuntime) {
    for block in BLOCKS.split("\n\n") {
        is(&rt, block, came(rt.alloc(), block));
    }
}

/// Pools; then how the job replicates (first what, then the protection of the first replication and of later ones), and how
/// the unit ends.
const POLICIES: &str = "\
what_is_not_replicated_as_by_default_is_conflict_20
now 1000 txg 100 guid 100;p;p/a @a:11:1:1011;q;q/p;
  most recent, resumability, resumability => replicated 1
  all, resumability, resumability => conflict 20
  fail, resumability, resumability => conflict 20
  most recent, incremental, resumability => conflict 20
  most recent, nothing, resumability => conflict 20
  most recent, resumability, incremental => conflict 20
  most recent, resumability, nothing => conflict 20";

/// Pools of which each job sees a copy.
#[derive(Clone, Copy)]
struct Policies<'a> {
    pools: &'a str,
}

impl Asked for Policies<'_> {
    fn came(&mut self, alloc: Global, ask: &str) -> Option<String> {
        let jobs = jobs_of(alloc, ask)?;
        let mut runner = runner_of(alloc, self.pools, "well")?;
        let outcome = end_of(alloc, &jobs, "p/a", &mut runner)?;
        end_text(alloc, outcome).ok()
    }
}

#[test]
fn other_policies(rt: HostRuntime) {
    let alloc = rt.alloc();
    let pools = before(POLICIES);
    is(
        &rt,
        POLICIES,
        written(alloc, POLICIES, &mut Policies { pools }),
    );
}

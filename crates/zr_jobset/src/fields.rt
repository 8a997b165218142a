//! Whether a job has the fields of its kind and no others. Apart from `job`, since only what makes a set asks it.

ghost use Rattle.std.specs.Prelude.{◌≡◌, ◌↔◌, IsTrue, All};
ghost use Rattle.zr_jobset.specs.Fields.{AreJobs, IsWhole, has_ends, has_lists, has_replication};
ghost use Rattle.zr_jobset.specs.Fields.{has_times, is_cron, is_default, is_most_recent};
ghost use Rattle.zr_jobset.specs.Fields.{is_never, is_resumability, is_there, takes_snapshots};

use crate::job::{Job, JobKind, Policy};
use crate::set::MAX_JOBS;
use zr_names::{Initial, JobName, Protection};
use zr_rules::have_grids;
use zr_schedule::When;

/// How many steps of a job may run at once.
pub const MAX_STEPS: u32 = 16;

fn is_there<T>(wanted: bool, field: &Option<T>) -> bool
    ensures { result ≡ is_there wanted field.now }
{
    if wanted {
        field.is_some()
    } else {
        field.is_none()
    }
}

fn has_ends(job: &Job) -> bool
    ensures { result ≡ has_ends job.now }
{
    let kind = job.kind;
    is_there(kind.is_client() || kind.is_server(), &job.listener)
        && is_there(kind.is_pull() || kind.is_sink(), &job.root)
        && is_there(kind.is_client(), &job.identity)
}

fn takes_snapshots(kind: JobKind) -> bool
    ensures { result ≡ takes_snapshots kind }
{
    kind.is_push() || kind.is_source() || kind.is_snap()
}

fn is_never(when: &When) -> bool
    ensures { result ≡ is_never when.now }
{
    match when {
        When::Never => true,
        When::Every(_) | When::Cron(_) => false,
    }
}

fn is_cron(when: &When) -> bool
    ensures { result ≡ is_cron when.now }
{
    match when {
        When::Cron(_) => true,
        When::Never | When::Every(_) => false,
    }
}

fn has_times(job: &Job) -> bool
    ensures { result ≡ has_times job.now }
{
    if takes_snapshots(job.kind) {
        return is_there(!is_never(&job.when), &job.prefix);
    }
    job.prefix.is_none() && (is_never(&job.when) || job.kind.is_pull() && !is_cron(&job.when))
}

fn is_most_recent(initial: Initial) -> bool
    ensures { result ≡ is_most_recent initial }
{
    match initial {
        Initial::MostRecent => true,
        Initial::All | Initial::Fail => false,
    }
}

fn is_resumability(protection: Protection) -> bool
    ensures { result ≡ is_resumability protection }
{
    match protection {
        Protection::Resumability => true,
        Protection::Incremental | Protection::Nothing => false,
    }
}

/// Whether a job with this policy replicates as by default.
pub(crate) fn is_default(policy: Policy) -> bool
    ensures { result ≡ is_default policy }
{
    is_most_recent(policy.initial) && is_resumability(policy.first) && is_resumability(policy.later)
}

fn has_replication(job: &Job) -> bool
    ensures { result ≡ has_replication job.now }
{
    if job.kind.is_client() {
        return 1 <= job.steps && job.steps <= MAX_STEPS;
    }
    is_default(job.policy) && job.steps == 1 && !job.migrate
}

fn has_lists(job: &Job) -> bool
    ensures { result ≡ has_lists job.now }
{
    let kind = job.kind;
    (takes_snapshots(kind) || job.filter.entries.is_empty())
        && (kind.is_client() || kind.is_snap() || job.keep_source.is_empty())
        && (kind.is_client() || job.keep_target.is_empty())
}

fn is_whole(job: &Job) -> bool
    ensures { IsTrue result ↔ IsWhole job.now }
{
    has_ends(job)
        && has_times(job)
        && has_replication(job)
        && has_lists(job)
        && have_grids(job.keep_source.as_slice())
        && have_grids(job.keep_target.as_slice())
}

fn are_whole(jobs: &[Job]) -> bool
    ensures { IsTrue result ↔ All IsWhole jobs.now }
{
    for job in jobs {
        if !is_whole(job) {
            return false;
        }
    }
    true
}

/// Whether there is a name for each job, there are at most 64, each has the fields of its kind, and `read_grid` can
/// give its grids. A job file gives no others.
pub fn are_jobs(names: &[JobName], jobs: &[Job]) -> bool
    ensures { IsTrue result ↔ AreJobs names.now jobs.now }
{
    names.len() == jobs.len() && jobs.len() <= MAX_JOBS && are_whole(jobs)
}

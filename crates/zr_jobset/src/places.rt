//! Whose filter a job of a checked set goes by, and the target of a source.

ghost use Rattle.std.specs.Prelude.{◌≡◌, ◌<◌, IfOk, Some, length, true};
ghost use Rattle.std.specs.List.{find};
ghost use Rattle.std.specs.Option.{option_copied};
ghost use Rattle.zr_jobset.specs.Kinds.{serves};
ghost use Rattle.zr_jobs.specs.declared.target.Destination.TheVariants.{Push};
ghost use Rattle.zr_jobset.specs.Places.{IsTargetOf, filter_at, filter_of, place_at};
ghost use Rattle.zr_jobset.specs.Places.{filter_or, place_of, pulled_to, pushed_to, root_of_server};
ghost use Rattle.zr_jobset.specs.Places.{replicates, server_of};
ghost use Rattle.zr_jobset.specs.Sets.{IsChecked};

use crate::job::Job;
use crate::set::JobSet;
use std::alloc::Global;
use zr_filter::Filter;
use zr_jobs::{Destination, Identity, TargetFault, read_identity};
use zr_names::{JobName, NoMemory, Path, Same};

fn first_server<'a>(jobs: &'a [Job], name: &JobName) -> Option<&'a Job>
    ensures { option_copied result ≡ find (serves name.now) jobs.now }
{
    jobs.iter().find(|job| job.serves(name))
}

fn server_of<'a>(jobs: &'a [Job], listener: &Option<JobName>) -> Option<&'a Job>
    ensures { option_copied result ≡ server_of jobs.now listener.now }
{
    match listener {
        Some(name) => first_server(jobs, name),
        None => None,
    }
}

fn filter_or<'a>(own: &'a Filter, server: Option<&'a Job>) -> &'a Filter
    ensures { result.now ≡ filter_or own.now (option_copied server.entry) }
{
    match server {
        Some(server) => &server.filter,
        None => own,
    }
}

/// The filter by which a job of these goes.
pub(crate) fn filter_in<'a>(jobs: &'a [Job], job: &'a Job) -> &'a Filter
    ensures { result.now ≡ filter_of jobs.now job.now }
{
    if job.kind.is_pull() {
        filter_or(&job.filter, server_of(jobs, &job.listener))
    } else {
        &job.filter
    }
}

/// The filter by which a job goes: that of its source for a pull, else its own.
pub fn filter_of(set: &JobSet, job: u32) -> &Filter
    requires { job < length set.now.jobs }
    ensures { Some result.now ≡ filter_at set.now job }
{
    match set.job(job) {
        Some(job) => filter_in(set.jobs(), job),
        None => unreachable!(),
    }
}

fn root_of_server(server: Option<&Job>) -> Option<&Path>
    ensures { option_copied result ≡ root_of_server (option_copied server.entry) }
{
    match server {
        Some(server) => server.root.as_ref(),
        None => None,
    }
}

/// The root of the sink to which a job pushes.
pub(crate) fn push_root<'a>(jobs: &'a [Job], job: &Job) -> Option<&'a Path>
    ensures { option_copied result ≡ root_of_server (server_of jobs.now job.now.listener) }
{
    root_of_server(server_of(jobs, &job.listener))
}

/// An identity reads as itself, so the one fault is want of memory.
fn identity_copy(alloc: Global, identity: &Identity) -> Result<Identity, NoMemory>
    ensures { IfOk result (λ copy. copy ≡ identity.now) }
{
    match read_identity(alloc, identity.as_bytes()) {
        Ok(copy) => Ok(copy),
        Err(_) => Err(NoMemory),
    }
}

fn push_place(alloc: Global, root: &Path, identity: &Identity) -> Result<Destination, NoMemory>
    ensures { IfOk result (λ place. place ≡ Push root.now identity.now) }
{
    Ok(Destination::Push {
        root: root.same()?,
        identity: identity_copy(alloc, identity)?,
    })
}

fn pushed_to(
    alloc: Global,
    root: Option<&Path>,
    identity: &Option<Identity>,
) -> Result<Option<Destination>, NoMemory>
    ensures { IfOk result (λ place. place ≡ pushed_to (option_copied root.entry) identity.now) }
{
    match (root, identity) {
        (Some(root), Some(identity)) => Ok(Some(push_place(alloc, root, identity)?)),
        (None, _) | (Some(_), None) => Ok(None),
    }
}

fn pulled_to(root: &Option<Path>) -> Result<Option<Destination>, NoMemory>
    ensures { IfOk result (λ place. place ≡ pulled_to root.now) }
{
    match root {
        Some(root) => Ok(Some(Destination::Pull { root: root.same()? })),
        None => Ok(None),
    }
}

fn place_of(alloc: Global, jobs: &[Job], job: &Job) -> Result<Option<Destination>, NoMemory>
    ensures { IfOk result (λ place. place ≡ place_of jobs.now job.now) }
{
    if job.kind.is_push() {
        pushed_to(alloc, push_root(jobs, job), &job.identity)
    } else if job.kind.is_pull() {
        pulled_to(&job.root)
    } else {
        Ok(None)
    }
}

/// Where the job of this number puts what it replicates, if it does.
pub(crate) fn place_at(
    alloc: Global,
    set: &JobSet,
    job: u32,
) -> Result<Option<Destination>, NoMemory>
    ensures place { IfOk result (λ place. place ≡ place_at set.now job) }
    ensures checked { IsChecked set.now }
{
    match set.job(job) {
        Some(job) => place_of(alloc, set.jobs(), job),
        None => Ok(None),
    }
}

/// The target of a source of a push or a pull job: below the sink's root and the client's identity, or below the pull's
/// own root. A target has 147 bytes at most, and the fault tells its length. Memory may be refused for a target that is too
/// long.
pub fn target_of(alloc: Global, set: &JobSet, job: u32, source: &Path) -> Result<Path, TargetFault>
    requires { replicates set.now job ≡ true }
    ensures { IsTargetOf (place_at set.now job) source.now result }
{
    match place_at(alloc, set, job) {
        Ok(Some(place)) => zr_jobs::target_of(alloc, &place, source),
        Ok(None) => unreachable!(),
        Err(NoMemory) => Err(TargetFault::NoMemory),
    }
}

//! The jobs of a tree with the shape of a job file.
ghost use Rattle.std.specs.Prelude.{◌≡◌, [], ◌∷◌, IfErr, IfOk, IsErrOf, OnOk};
ghost use Rattle.toml.specs.View.{table_view};
ghost use Rattle.zr_jobfile.specs.declared.JobFault.TheVariants.{NotBuilt};
ghost use Rattle.zr_jobfile.specs.JobFile.{Builds, Gives, IsJobFile, IsOfBuilding, Names};
ghost use Rattle.zr_jobfile.specs.JobFile.{Patterns, refusal};
ghost use Rattle.zr_jobfile.specs.PushFile.{AreGoodNames, ArePaired, IsGoodPush, IsGoodSink};
ghost use Rattle.zr_jobfile.specs.PushFile.{IsPushFile, only_path, pair_jobs, pair_names};
ghost use Rattle.zr_jobfile.specs.PushFile.{push_job, pushing, sink_job};
ghost use Rattle.zr_jobfile.specs.SnapFile.{IsSnapFile, one_job, snap_job, sole};
ghost use Rattle.zr_jobs.specs.Identities.{IsIdentity};
ghost use Rattle.zr_jobset.specs.Checks.{IsAccepted};
ghost use Rattle.zr_jobset.specs.Fields.{AreJobs};
ghost use Rattle.zr_jobset.specs.Sets.{set_of};
ghost use Rattle.zr_names.specs.declared.names.TheConstants.{JOB_LIMIT, PATH_LIMIT};
ghost use Rattle.zr_names.specs.Names.{IsName, name_is_bad, path_is_bad};

use crate::JobFault;
use crate::push_shape::{PushParts, SinkParts, push_file_parts};
use crate::snap_shape::file_parts;
use std::alloc::{AllocError, Global};
use toml::Table;
use zr_filter::{Filter, FilterEntry, read_pattern};
use zr_jobs::{Identity, IdentityFault, read_identity};
use zr_jobset::{CheckFault, Job, JobKind, JobSet, Policy, check};
use zr_names::{Initial, JobName, NameFault, Path, Protection, Rows, read_job, read_path};
use zr_rules::RuleSpec;
use zr_schedule::When;

fn job_name(alloc: Global, text: &str) -> Result<JobName, JobFault>
    ensures { Names (IsName name_is_bad JOB_LIMIT) text.now result }
{
    match read_job(alloc, text.as_bytes()) {
        Ok(name) => Ok(name),
        Err(NameFault::NoMemory) => Err(JobFault::NoMemory),
        Err(_) => Err(JobFault::NotBuilt),
    }
}

fn dataset_path(alloc: Global, text: &str) -> Result<Path, JobFault>
    ensures { Names (IsName path_is_bad PATH_LIMIT) text.now result }
{
    match read_path(alloc, text.as_bytes()) {
        Ok(path) => Ok(path),
        Err(NameFault::NoMemory) => Err(JobFault::NoMemory),
        Err(_) => Err(JobFault::NotBuilt),
    }
}

fn client_identity(alloc: Global, text: &str) -> Result<Identity, JobFault>
    ensures { Names IsIdentity text.now result }
{
    match read_identity(alloc, text.as_bytes()) {
        Ok(identity) => Ok(identity),
        Err(IdentityFault::Name(NameFault::NoMemory)) => Err(JobFault::NoMemory),
        Err(_) => Err(JobFault::NotBuilt),
    }
}

/// The entry of a filter that includes what a pattern stands for.
fn entry(alloc: Global, text: &str) -> Result<FilterEntry, JobFault>
    ensures { Patterns text.now result }
{
    match read_pattern(alloc, text.as_bytes(), true) {
        Ok(entry) => Ok(entry),
        Err(NameFault::NoMemory) => Err(JobFault::NoMemory),
        Err(_) => Err(JobFault::NotBuilt),
    }
}

/// How a job replicates where its file says nothing of it.
const DEFAULT_POLICY: Policy = Policy {
    initial: Initial::MostRecent,
    first: Protection::Resumability,
    later: Protection::Resumability,
};

/// A filter of this one entry.
fn sole(alloc: Global, entry: FilterEntry) -> Result<Filter, AllocError>
    ensures { IfOk result (λ filter. filter ≡ sole entry) }
{
    let mut entries = Rows::new(alloc);
    entries.push(entry)?;
    Ok(Filter { entries })
}

/// Why a set that a check refuses gives no jobs.
fn refusal(fault: CheckFault) -> JobFault
    ensures { result ≡ refusal fault }
{
    match fault {
        CheckFault::NoMemory => JobFault::NoMemory,
        CheckFault::DuplicateName(_)
        | CheckFault::NoListener(_)
        | CheckFault::WrongListenerType(_)
        | CheckFault::SameIdentity(_)
        | CheckFault::RootsNested(_)
        | CheckFault::SourceInRoot(_)
        | CheckFault::RuleNotHere(_)
        | CheckFault::MigrateTwice(_) => JobFault::NotBuilt,
    }
}

/// The set of these jobs, where no check refuses them.
fn checked(alloc: Global, names: &[JobName], jobs: Vec<Job>) -> Result<JobSet, JobFault>
    requires { AreJobs names.now jobs.items }
    ensures { Gives (IsAccepted names.now jobs.items) (set_of names.now jobs.items) result }
{
    match check(alloc, names, jobs) {
        Ok(set) => Ok(set),
        Err(fault) => Err(refusal(fault)),
    }
}

/// A snap job with this entry as its filter, which keeps the newest snapshots.
fn snap_job(alloc: Global, entry: FilterEntry, count: u32) -> Result<Job, AllocError>
    ensures { IfOk result (λ job. job ≡ snap_job entry count) }
{
    let mut keep_source = Rows::new(alloc);
    keep_source.push(RuleSpec::LastN { count, regex: None })?;
    Ok(Job {
        kind: JobKind::Snap,
        filter: sole(alloc, entry)?,
        when: When::Never,
        prefix: None,
        root: None,
        listener: None,
        identity: None,
        policy: DEFAULT_POLICY,
        steps: 1,
        migrate: false,
        keep_source,
        keep_target: Rows::new(alloc),
    })
}

/// The set of one snap job.
fn one_job(alloc: Global, name: JobName, entry: FilterEntry, count: u32) -> Result<JobSet, JobFault>
    ensures { Gives (IsAccepted (name ∷ []) (snap_job entry count ∷ [])) (one_job name entry count)
        result }
{
    let mut jobs = Vec::new(alloc);
    jobs.push(snap_job(alloc, entry, count)?)?;
    let mut names = Vec::new(alloc);
    names.push(name)?;
    checked(alloc, names.as_slice(), jobs)
}

/// Builds the jobs of the tree of a snap job file.
fn build_snap(alloc: Global, tree: &Table) -> Result<JobSet, JobFault>
    ensures { Builds IsSnapFile (table_view tree.now) result }
{
    let parts = match file_parts(tree) {
        Some(parts) => parts,
        None => return Err(JobFault::NotBuilt),
    };
    let name = job_name(alloc, parts.name)?;
    let entry = entry(alloc, parts.pattern)?;
    one_job(alloc, name, entry, parts.count)
}

/// A filter of this one filesystem.
fn only_path(alloc: Global, path: &str) -> Result<Filter, JobFault>
    ensures { Gives (IsName path_is_bad PATH_LIMIT path.now) (only_path path.now) result }
{
    let entry = FilterEntry {
        path: Some(dataset_path(alloc, path)?),
        subtree: false,
        allow: true,
    };
    Ok(sole(alloc, entry)?)
}

/// The job of a push job's table, which prunes nothing.
fn push_job(alloc: Global, push: &PushParts<'_>) -> Result<Job, JobFault>
    ensures { Gives (IsGoodPush push.now) (push_job push.now) result }
{
    Ok(Job {
        kind: JobKind::Push,
        filter: only_path(alloc, push.path)?,
        when: When::Never,
        prefix: None,
        root: None,
        listener: Some(job_name(alloc, push.listener)?),
        identity: Some(client_identity(alloc, push.identity)?),
        policy: DEFAULT_POLICY,
        steps: 1,
        migrate: false,
        keep_source: Rows::new(alloc),
        keep_target: Rows::new(alloc),
    })
}

/// The job of a sink job's table.
fn sink_job(alloc: Global, sink: &SinkParts<'_>) -> Result<Job, JobFault>
    ensures { Gives (IsGoodSink sink.now) (sink_job sink.now) result }
{
    Ok(Job {
        kind: JobKind::Sink,
        filter: Filter {
            entries: Rows::new(alloc),
        },
        when: When::Never,
        prefix: None,
        root: Some(dataset_path(alloc, sink.root)?),
        listener: Some(job_name(alloc, sink.listener)?),
        identity: None,
        policy: DEFAULT_POLICY,
        steps: 1,
        migrate: false,
        keep_source: Rows::new(alloc),
        keep_target: Rows::new(alloc),
    })
}

fn pair_names(
    alloc: Global,
    push: &PushParts<'_>,
    sink: &SinkParts<'_>,
) -> Result<Vec<JobName>, JobFault>
    ensures ok { IfOk result (λ names. names.items ≡ pair_names push.now sink.now) }
    ensures good { OnOk result (AreGoodNames push.now sink.now) }
    ensures bad { IsErrOf result NotBuilt → ¬ AreGoodNames push.now sink.now }
    ensures fault { IfErr result IsOfBuilding }
{
    let mut names = Vec::new(alloc);
    names.push(job_name(alloc, push.name)?)?;
    names.push(job_name(alloc, sink.name)?)?;
    Ok(names)
}

fn pair_jobs(
    alloc: Global,
    push: &PushParts<'_>,
    sink: &SinkParts<'_>,
) -> Result<Vec<Job>, JobFault>
    ensures ok { IfOk result (λ jobs. jobs.items ≡ pair_jobs push.now sink.now) }
    ensures good { OnOk result (IsGoodPush push.now × IsGoodSink sink.now) }
    ensures bad { IsErrOf result NotBuilt → ¬ (IsGoodPush push.now × IsGoodSink sink.now) }
    ensures fault { IfErr result IsOfBuilding }
{
    let mut jobs = Vec::new(alloc);
    jobs.push(push_job(alloc, push)?)?;
    jobs.push(sink_job(alloc, sink)?)?;
    Ok(jobs)
}

/// Builds the jobs of a push job and the sink job behind it.
fn build_pair(alloc: Global, push: &PushParts<'_>, sink: &SinkParts<'_>) -> Result<JobSet, JobFault>
    ensures { Gives (ArePaired push.now sink.now) (pushing push.now sink.now) result }
{
    let names = pair_names(alloc, push, sink)?;
    let jobs = pair_jobs(alloc, push, sink)?;
    checked(alloc, names.as_slice(), jobs)
}

/// Builds the jobs of the tree of a push job file.
fn build_push(alloc: Global, tree: &Table) -> Result<JobSet, JobFault>
    ensures { Builds IsPushFile (table_view tree.now) result }
{
    match push_file_parts(tree) {
        Some((push, sink)) => build_pair(alloc, &push, &sink),
        None => Err(JobFault::NotBuilt),
    }
}

/// Builds the jobs of the tree of a job file.
pub(crate) fn build(alloc: Global, tree: &Table) -> Result<JobSet, JobFault>
    ensures { Builds IsJobFile (table_view tree.now) result }
{
    match build_snap(alloc, tree) {
        Err(JobFault::NotBuilt) => build_push(alloc, tree),
        built => built,
    }
}

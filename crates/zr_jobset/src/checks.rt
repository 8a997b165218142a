//! The eight checks of a set of jobs: whether each shows at a job. Apart from `checking`, which asks them in their order.

ghost use Rattle.std.specs.Prelude.{◌≡◌, ◌<◌, ◌≤◌, length, take};
ghost use Rattle.std.specs.List.{list_any};
ghost use Rattle.zr_filter.specs.Rule.{is_within};
ghost use Rattle.zr_jobset.specs.declared.checks.Check.TheVariants as checks;
ghost use Rattle.zr_jobset.specs.Kinds.{is_named, serves};
ghost use Rattle.zr_jobset.specs.Checks.{are_mixed, are_nested, has_nested_root, has_no_listener};
ghost use Rattle.zr_jobset.specs.Checks.{has_root_nested, has_rule_not_here, has_same_identity};
ghost use Rattle.zr_jobset.specs.Checks.{has_source_in_root, has_taken_listener, has_taken_name};
ghost use Rattle.zr_jobset.specs.Checks.{has_wrong_listener, is_not_replicated, is_pushed_as};
ghost use Rattle.zr_jobset.specs.Checks.{migrates, migrates_again, pushes_as, reaches_root_of};
ghost use Rattle.zr_jobset.specs.Checks.{serves_others, shows, shows_at};

use crate::job::{Job, is_named};
use zr_filter::reaches;
use zr_jobs::Identity;
use zr_names::{JobName, Path};
use zr_rules::RuleSpec;

/// The checks, in their order. The job at which a pair shows is the later one.
#[derive(Clone, Copy)]
pub enum Check {
    /// The job's name, or the listener that it serves, is there before.
    DuplicateName,
    /// The job connects to a listener that no job serves.
    NoListener,
    /// The job pushes to another job than a sink, or pulls from another than a source.
    WrongListenerType,
    /// The job pushes to the listener of an earlier one with its identity.
    SameIdentity,
    /// The job's root is that of an earlier one, or one is inside the other.
    RootsNested,
    /// The job's filter reaches a root, or a filter reaches its root.
    SourceInRoot,
    /// The job has the rule `not_replicated` where there is no replication cursor.
    RuleNotHere,
    /// The job takes over the old replication cursor, as an earlier one does.
    MigrateTwice,
}

fn has_taken_name(before: &[JobName], name: &JobName) -> bool
    ensures { result ≡ has_taken_name before.now name.now }
{
    before.iter().any(|other| name == other)
}

fn is_served(jobs: &[Job], name: &JobName) -> bool
    ensures { result ≡ list_any (serves name.now) jobs.now }
{
    jobs.iter().any(|job| job.serves(name))
}

fn has_taken_listener(before: &[Job], job: &Job) -> bool
    ensures { result ≡ has_taken_listener before.now job.now }
{
    job.kind.is_server()
        && match &job.listener {
            Some(name) => is_served(before, name),
            None => false,
        }
}

fn has_no_listener(jobs: &[Job], job: &Job) -> bool
    ensures { result ≡ has_no_listener jobs.now job.now }
{
    job.kind.is_client()
        && match &job.listener {
            Some(name) => !is_served(jobs, name),
            None => false,
        }
}

fn serves_others(client: &Job, name: &JobName, job: &Job) -> bool
    ensures { result ≡ serves_others client.now name.now job.now }
{
    job.serves(name) && !client.kind.meets(job.kind)
}

fn is_served_to_others(jobs: &[Job], client: &Job, name: &JobName) -> bool
    ensures { result ≡ list_any (serves_others client.now name.now) jobs.now }
{
    jobs.iter().any(|job| serves_others(client, name, job))
}

fn has_wrong_listener(jobs: &[Job], job: &Job) -> bool
    ensures { result ≡ has_wrong_listener jobs.now job.now }
{
    job.kind.is_client()
        && match &job.listener {
            Some(name) => is_served_to_others(jobs, job, name),
            None => false,
        }
}

fn is_identity(identity: &Identity, own: &Option<Identity>) -> bool
    ensures { result ≡ is_named identity.now own.now }
{
    match own {
        Some(own) => own.as_bytes() == identity.as_bytes(),
        None => false,
    }
}

fn pushes_as(listener: &JobName, identity: &Identity, job: &Job) -> bool
    ensures { result ≡ pushes_as listener.now identity.now job.now }
{
    job.kind.is_push() && is_named(listener, &job.listener) && is_identity(identity, &job.identity)
}

fn some_pushes_as(before: &[Job], identity: &Identity, listener: &JobName) -> bool
    ensures { result ≡ list_any (pushes_as listener.now identity.now) before.now }
{
    before
        .iter()
        .any(|other| pushes_as(listener, identity, other))
}

fn is_pushed_as(before: &[Job], identity: &Option<Identity>, listener: &JobName) -> bool
    ensures { result ≡ is_pushed_as before.now identity.now listener.now }
{
    match identity {
        Some(identity) => some_pushes_as(before, identity, listener),
        None => false,
    }
}

fn has_same_identity(before: &[Job], job: &Job) -> bool
    ensures { result ≡ has_same_identity before.now job.now }
{
    job.kind.is_push()
        && match &job.listener {
            Some(listener) => is_pushed_as(before, &job.identity, listener),
            None => false,
        }
}

/// Whether a path is this root or lies below it.
fn is_within(root: &Path, path: &Path) -> bool
    ensures { result ≡ is_within root.now path.now }
{
    let start = root.as_bytes();
    let bytes = path.as_bytes();
    path == root || bytes.starts_with(start) && bytes.get(start.len()) == Some(&b'/')
}

fn has_root_nested(root: &Path, job: &Job) -> bool
    ensures { result ≡ has_root_nested root.now job.now }
{
    match &job.root {
        Some(other) => is_within(root, other) || is_within(other, root),
        None => false,
    }
}

fn some_has_root_nested(before: &[Job], root: &Path) -> bool
    ensures { result ≡ list_any (has_root_nested root.now) before.now }
{
    before.iter().any(|other| has_root_nested(root, other))
}

fn has_nested_root(before: &[Job], job: &Job) -> bool
    ensures { result ≡ has_nested_root before.now job.now }
{
    match &job.root {
        Some(root) => some_has_root_nested(before, root),
        None => false,
    }
}

fn reaches_root_of(job: &Job, other: &Job) -> bool
    ensures { result ≡ reaches_root_of job.now other.now }
{
    match &other.root {
        Some(root) => reaches(&job.filter, root),
        None => false,
    }
}

fn are_mixed(job: &Job, other: &Job) -> bool
    ensures { result ≡ are_mixed job.now other.now }
{
    reaches_root_of(job, other) || reaches_root_of(other, job)
}

fn has_source_in_root(so_far: &[Job], job: &Job) -> bool
    ensures { result ≡ has_source_in_root so_far.now job.now }
{
    so_far.iter().any(|other| are_mixed(job, other))
}

fn is_not_replicated(rule: &RuleSpec) -> bool
    ensures { result ≡ is_not_replicated rule.now }
{
    match rule {
        RuleSpec::NotReplicated { .. } => true,
        RuleSpec::Grid { .. } | RuleSpec::LastN { .. } | RuleSpec::Regex { .. } => false,
    }
}

fn some_not_replicated(rules: &[RuleSpec]) -> bool
    ensures { result ≡ list_any is_not_replicated rules.now }
{
    rules.iter().any(|rule| is_not_replicated(rule))
}

fn has_rule_not_here(job: &Job) -> bool
    ensures { result ≡ has_rule_not_here job.now }
{
    some_not_replicated(job.keep_target.as_slice())
        || job.kind.is_snap() && some_not_replicated(job.keep_source.as_slice())
}

fn some_migrates(jobs: &[Job]) -> bool
    ensures { result ≡ list_any migrates jobs.now }
{
    jobs.iter().any(|job| job.migrate)
}

fn migrates_again(before: &[Job], job: &Job) -> bool
    ensures { result ≡ migrates_again before.now job.now }
{
    job.migrate && some_migrates(before)
}

fn is_duplicate(names: &[JobName], jobs: &[Job], number: usize, job: &Job) -> bool
    requires named { length names.now ≡ length jobs.now }
    requires inside { number < length jobs.now }
    ensures { result ≡ shows_at names.now jobs.now number checks.DuplicateName job.now }
{
    has_taken_name(&names[..number], &names[number]) || has_taken_listener(&jobs[..number], job)
}

fn shows_at(names: &[JobName], jobs: &[Job], number: usize, check: Check, job: &Job) -> bool
    requires named { length names.now ≡ length jobs.now }
    requires inside { number < length jobs.now }
    ensures { result ≡ shows_at names.now jobs.now number check job.now }
{
    let before = &jobs[..number];
    match check {
        Check::DuplicateName => is_duplicate(names, jobs, number, job),
        Check::NoListener => has_no_listener(jobs, job),
        Check::WrongListenerType => has_wrong_listener(jobs, job),
        Check::SameIdentity => has_same_identity(before, job),
        Check::RootsNested => has_nested_root(before, job),
        Check::SourceInRoot => has_source_in_root(&jobs[..number + 1], job),
        Check::RuleNotHere => has_rule_not_here(job),
        Check::MigrateTwice => migrates_again(before, job),
    }
}

/// Whether a check shows at the job of this number.
pub(crate) fn shows(names: &[JobName], jobs: &[Job], check: Check, number: usize) -> bool
    requires named { length names.now ≡ length jobs.now }
    requires inside { number < length jobs.now }
    ensures { result ≡ shows names.now jobs.now check number }
{
    match jobs.get(number) {
        Some(job) => shows_at(names, jobs, number, check, job),
        None => false,
    }
}

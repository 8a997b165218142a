//! The tables of the five kinds of jobs. Each reads the fields that its kind has, in their order.

ghost use Rattle.std.specs.Prelude.{◌≡◌, ◌≢◌, IfErr, IfOk, OnOk};
ghost use Rattle.zr_jobwalk.specs.Tables.{section};
ghost use Rattle.zr_jobrules.specs.Patterns.{asked};
ghost use Rattle.zr_jobtree.specs.Jobs.{IsPull, IsPush, IsSink, IsSnap, IsSource};
ghost use Rattle.zr_jobtree.specs.Jobs.{PullFault, PushFault, SinkFault, SnapFault, SourceFault};
ghost use Rattle.zr_jobtree.specs.Jobs.{no_filter, no_policy, policy_of};

use crate::copying::{Copying, copying_of};
use std::alloc::Global;
use zr_filter::Filter;
use zr_jobrules::{Pruning, filter_of, keep_of, pruning_of};
use zr_jobset::{Job, JobKind, Policy};
use zr_jobwalk::{Client, Field, JobFault, Table, Taking, client_of, listener_of, taking_of};
use zr_names::{Initial, Protection, Rows};
use zr_rules::Patterns;
use zr_schedule::When;

/// The policy of a job that replicates nothing.
const NO_POLICY: Policy = Policy {
    initial: Initial::MostRecent,
    first: Protection::Resumability,
    later: Protection::Resumability,
};

fn policy_of(copying: Copying) -> Policy
    ensures { result ≡ policy_of copying }
{
    Policy {
        initial: copying.first,
        first: copying.replication.guarantees.first,
        later: copying.replication.guarantees.later,
    }
}

fn no_filter(alloc: Global) -> Filter
    ensures { result ≡ no_filter }
{
    Filter {
        entries: Rows::new(alloc),
    }
}

pub(crate) fn push_job<P: Patterns>(patterns: &mut P, table: &Table<'_>) -> Result<Job, JobFault>
    ensures job { IfOk result (λ job. IsPush (section table.now).members job) }
    ensures fault { IfErr result (λ fault. fault ≢ JobFault.NoMemory → PushFault
        (asked (P.refusals patterns.old) (P.refusals patterns.new) (P.refused_last patterns.new))
        (section table.now) fault) }
    ensures count { OnOk result (P.refusals patterns.new ≡ P.refusals patterns.old) }
{
    let Client { listener, identity } = client_of(table)?;
    let filter = filter_of(table)?;
    let Taking { when, prefix } = taking_of(table)?;
    let copying = copying_of(table)?;
    let Pruning { sender, receiver } = pruning_of(patterns, table)?;
    Ok(Job {
        kind: JobKind::Push,
        filter,
        when,
        prefix,
        root: None,
        listener: Some(listener),
        identity: Some(identity),
        policy: policy_of(copying),
        steps: copying.replication.steps,
        migrate: copying.replication.migrate,
        keep_source: sender,
        keep_target: receiver,
    })
}

pub(crate) fn pull_job<P: Patterns>(patterns: &mut P, table: &Table<'_>) -> Result<Job, JobFault>
    ensures job { IfOk result (λ job. IsPull (section table.now).members job) }
    ensures fault { IfErr result (λ fault. fault ≢ JobFault.NoMemory → PullFault
        (asked (P.refusals patterns.old) (P.refusals patterns.new) (P.refused_last patterns.new))
        (section table.now) fault) }
    ensures count { OnOk result (P.refusals patterns.new ≡ P.refusals patterns.old) }
{
    let Client { listener, identity } = client_of(table)?;
    let root = table.path(Field::RootFs)?;
    let when = table.interval(Field::Interval)?;
    let copying = copying_of(table)?;
    let Pruning { sender, receiver } = pruning_of(patterns, table)?;
    Ok(Job {
        kind: JobKind::Pull,
        filter: no_filter(table.alloc()),
        when,
        prefix: None,
        root: Some(root),
        listener: Some(listener),
        identity: Some(identity),
        policy: policy_of(copying),
        steps: copying.replication.steps,
        migrate: copying.replication.migrate,
        keep_source: sender,
        keep_target: receiver,
    })
}

pub(crate) fn sink_job(table: &Table<'_>) -> Result<Job, JobFault>
    ensures job { IfOk result (λ job. IsSink (section table.now).members job) }
    ensures fault { IfErr result
        (λ fault. fault ≢ JobFault.NoMemory → SinkFault (section table.now) fault) }
{
    let listener = listener_of(table)?;
    let root = table.path(Field::RootFs)?;
    Ok(Job {
        kind: JobKind::Sink,
        filter: no_filter(table.alloc()),
        when: When::Never,
        prefix: None,
        root: Some(root),
        listener: Some(listener),
        identity: None,
        policy: NO_POLICY,
        steps: 1,
        migrate: false,
        keep_source: Rows::new(table.alloc()),
        keep_target: Rows::new(table.alloc()),
    })
}

pub(crate) fn source_job(table: &Table<'_>) -> Result<Job, JobFault>
    ensures job { IfOk result (λ job. IsSource (section table.now).members job) }
    ensures fault { IfErr result
        (λ fault. fault ≢ JobFault.NoMemory → SourceFault (section table.now) fault) }
{
    let listener = listener_of(table)?;
    let filter = filter_of(table)?;
    let Taking { when, prefix } = taking_of(table)?;
    Ok(Job {
        kind: JobKind::Source,
        filter,
        when,
        prefix,
        root: None,
        listener: Some(listener),
        identity: None,
        policy: NO_POLICY,
        steps: 1,
        migrate: false,
        keep_source: Rows::new(table.alloc()),
        keep_target: Rows::new(table.alloc()),
    })
}

pub(crate) fn snap_job<P: Patterns>(patterns: &mut P, table: &Table<'_>) -> Result<Job, JobFault>
    ensures job { IfOk result (λ job. IsSnap (section table.now).members job) }
    ensures fault { IfErr result (λ fault. fault ≢ JobFault.NoMemory → SnapFault
        (asked (P.refusals patterns.old) (P.refusals patterns.new) (P.refused_last patterns.new))
        (section table.now) fault) }
    ensures count { OnOk result (P.refusals patterns.new ≡ P.refusals patterns.old) }
{
    let filter = filter_of(table)?;
    let Taking { when, prefix } = taking_of(table)?;
    let rules = keep_of(patterns, table)?;
    Ok(Job {
        kind: JobKind::Snap,
        filter,
        when,
        prefix,
        root: None,
        listener: None,
        identity: None,
        policy: NO_POLICY,
        steps: 1,
        migrate: false,
        keep_source: rules,
        keep_target: Rows::new(table.alloc()),
    })
}

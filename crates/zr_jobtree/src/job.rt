//! A job of any kind, with its name.

ghost use Rattle.std.specs.Prelude.{◌≡◌, ◌≢◌, IfErr, IfOk, OnOk};
ghost use Rattle.zr_jobwalk.specs.Tables.{section};
ghost use Rattle.zr_jobrules.specs.Patterns.{asked};
ghost use Rattle.zr_jobtree.specs.Jobs.{IsJobOf, IsNamed, JobFaultOf, NamedFault};

use crate::kind::{fields_of, kind_of};
use crate::kinds::{pull_job, push_job, sink_job, snap_job, source_job};
use zr_jobset::{Job, JobKind};
use zr_jobwalk::{Field, JobFault, Table};
use zr_names::JobName;
use zr_rules::Patterns;

/// A job and its name.
#[derive(Drop)]
pub(crate) struct NamedJob {
    pub(crate) name: JobName,
    pub(crate) job: Job,
}

/// Reads the fields that a kind of job has, beside its name and type.
fn job_of<P: Patterns>(patterns: &mut P, table: &Table<'_>, kind: JobKind) -> Result<Job, JobFault>
    ensures job { IfOk result (λ job. IsJobOf kind (section table.now).members job) }
    ensures fault { IfErr result (λ fault. fault ≢ JobFault.NoMemory → JobFaultOf
        (asked (P.refusals patterns.old) (P.refusals patterns.new) (P.refused_last patterns.new))
        kind (section table.now) fault) }
    ensures count { OnOk result (P.refusals patterns.new ≡ P.refusals patterns.old) }
{
    match kind {
        JobKind::Push => push_job(patterns, table),
        JobKind::Pull => pull_job(patterns, table),
        JobKind::Sink => sink_job(table),
        JobKind::Source => source_job(table),
        JobKind::Snap => snap_job(patterns, table),
    }
}

/// Reads the table of a job. Its type says which fields it has.
pub(crate) fn read_job<P: Patterns>(
    patterns: &mut P,
    table: &Table<'_>,
) -> Result<NamedJob, JobFault>
    ensures job { IfOk result (λ named. IsNamed (section table.now).members named) }
    ensures fault { IfErr result (λ fault. fault ≢ JobFault.NoMemory → NamedFault
        (asked (P.refusals patterns.old) (P.refusals patterns.new) (P.refused_last patterns.new))
        (section table.now) fault) }
    ensures count { OnOk result (P.refusals patterns.new ≡ P.refusals patterns.old) }
{
    let kind = kind_of(table)?;
    table.has_only(fields_of(kind))?;
    let name = table.job_name(Field::Name)?;
    match job_of(patterns, table, kind) {
        Ok(job) => Ok(NamedJob { name, job }),
        Err(fault) => Err(fault),
    }
}

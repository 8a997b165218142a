//! The root of a job file: its jobs, and `global`, which is not looked at.

ghost use Rattle.std.specs.Prelude.{◌≡◌, ◌≢◌, ◌++◌, ◌∷◌, [], length, IfErr, IfOk, OnOk};
ghost use Rattle.zr_names.specs.Tree.{tree};
ghost use Rattle.zr_jobwalk.specs.Arrays.{FirstPart, AreParts, part_name, series};
ghost use Rattle.zr_jobwalk.specs.Faults.{InTable, MayFault, NoTable, field_of};
ghost use Rattle.zr_jobwalk.specs.Tables.{section};
ghost use Rattle.zr_jobwalk.specs.Values.{IsTable};
ghost use Rattle.zr_jobrules.specs.Patterns.{asked};
ghost use Rattle.zr_jobtree.specs.Jobs.{IsNamed, NamedFault};
ghost use Rattle.zr_jobtree.specs.Roots.{AreNamed, IsGlobal, IsRoot, ListFault, RootFault, named_jobs};

use crate::job::{NamedJob, read_job};
use std::alloc::AllocError;
use zr_jobset::{Job, MAX_JOBS};
use zr_jobwalk::{Array, Field, JobFault, Many, Table};
use zr_names::{JobName, Node};
use zr_rules::Patterns;

/// The jobs of a file with a name for each, in its order.
#[derive(Drop)]
pub(crate) struct Jobs {
    pub(crate) names: Vec<JobName>,
    pub(crate) jobs: Vec<Job>,
}

#[tactic(auto, using(zr_jobwalk::proofs::Parts::part_takes, zr_jobwalk::proofs::Parts::part_fault))]
fn job_at<'a, P: Patterns>(
    patterns: &mut P,
    array: &Array<'a>,
    index: usize,
    node: &'a Node,
) -> Result<NamedJob, JobFault>
    ensures job { IfOk result (λ named. IsTable IsNamed (tree node.now) named) }
    ensures fault { IfErr result (λ fault. fault ≢ JobFault.NoMemory → InTable (NamedFault
        (asked (P.refusals patterns.old) (P.refusals patterns.new) (P.refused_last patterns.new)))
        (part_name (series array.now).name index) (tree node.now) fault) }
    ensures count { OnOk result (P.refusals patterns.new ≡ P.refusals patterns.old) }
{
    let table = array.table(index, node)?;
    read_job(patterns, &table)
}

fn add(names: &mut Vec<JobName>, jobs: &mut Vec<Job>, named: NamedJob) -> Result<(), AllocError>
    ensures names { OnOk result (names.new.items ≡ names.old.items ++ named.name ∷ []) }
    ensures jobs { OnOk result (jobs.new.items ≡ jobs.old.items ++ named.job ∷ []) }
{
    let NamedJob { name, job } = named;
    jobs.push(job)?;
    names.push(name)?;
    Ok(())
}

/// The jobs of the parts, in their order.
fn parts<P: Patterns>(patterns: &mut P, array: &Array<'_>) -> Result<Jobs, JobFault>
    ensures jobs { IfOk result (λ jobs. AreParts (IsTable IsNamed) (series array.now).items
        (named_jobs jobs.names.items jobs.jobs.items)) }
    ensures as_many { IfOk result (λ jobs. length jobs.names.items ≡ length jobs.jobs.items) }
    ensures fault { IfErr result (λ fault. fault ≢ JobFault.NoMemory
        → FirstPart (IsTable IsNamed) (InTable (NamedFault
        (asked (P.refusals patterns.old) (P.refusals patterns.new) (P.refused_last patterns.new))))
        (series array.now).name 0 (series array.now).items fault) }
    ensures count { OnOk result (P.refusals patterns.new ≡ P.refusals patterns.old) }
{
    let mut names = Vec::new(array.alloc());
    let mut jobs = Vec::new(array.alloc());
    for (index, node) in array.nodes().iter().enumerate() {
        match job_at(patterns, array, index, node) {
            Ok(named) => add(&mut names, &mut jobs, named)?,
            Err(fault) => return Err(fault),
        }
    }
    Ok(Jobs { names, jobs })
}

/// Refuses a `global` that is there and no table.
#[tactic(auto, using(zr_jobwalk::proofs::InnerTables::may_fault))]
fn has_global(root: &Table<'_>) -> Result<(), JobFault>
    ensures global { OnOk result (IsGlobal (field_of (section root.now) Field.Global)) }
    ensures fault { IfErr result (λ fault. fault ≢ JobFault.NoMemory
        → MayFault NoTable (section root.now) Field.Global fault) }
{
    if root.lacks(Field::Global) {
        return Ok(());
    }
    root.table(Field::Global)?;
    Ok(())
}

fn list<P: Patterns>(
    patterns: &mut P,
    root: &Table<'_>,
    array: &Array<'_>,
) -> Result<Jobs, JobFault>
    ensures jobs { IfOk result (λ jobs. AreNamed (section root.now) (series array.now).items
        jobs.names.items jobs.jobs.items) }
    ensures fault { IfErr result (λ fault. fault ≢ JobFault.NoMemory → ListFault
        (asked (P.refusals patterns.old) (P.refusals patterns.new) (P.refused_last patterns.new))
        (section root.now) (series array.now).name (series array.now).items fault) }
    ensures count { OnOk result (P.refusals patterns.new ≡ P.refusals patterns.old) }
{
    if array.len() > MAX_JOBS {
        return Err(JobFault::TooMany(Many::Jobs));
    }
    has_global(root)?;
    parts(patterns, array)
}

/// Reads the root of a job file.
pub(crate) fn read_root<P: Patterns>(patterns: &mut P, root: &Table<'_>) -> Result<Jobs, JobFault>
    ensures jobs { IfOk result
        (λ jobs. IsRoot (section root.now) jobs.names.items jobs.jobs.items) }
    ensures fault { IfErr result (λ fault. fault ≢ JobFault.NoMemory → RootFault
        (asked (P.refusals patterns.old) (P.refusals patterns.new) (P.refused_last patterns.new))
        (section root.now) fault) }
    ensures count { OnOk result (P.refusals patterns.new ≡ P.refusals patterns.old) }
{
    root.has_only(&[Field::Jobs, Field::Global])?;
    let array = root.array(Field::Jobs)?;
    list(patterns, root, &array)
}

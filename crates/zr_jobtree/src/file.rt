//! The walk over a job file's tree, and then the checks of its jobs as a whole.

ghost use Rattle.std.specs.Prelude.{◌≡◌, ◌≢◌, IfErr, IfOk, OnOk};
ghost use Rattle.zr_names.specs.Tree.{tree};
ghost use Rattle.zr_jobset.specs.Checks.{IsAccepted};
ghost use Rattle.zr_jobset.specs.Fields.{AreJobs};
ghost use Rattle.zr_jobset.specs.Sets.{set_of};
ghost use Rattle.zr_jobrules.specs.Patterns.{asked};
ghost use Rattle.zr_jobtree.specs.Walks.{Accepts, IsCheckFault, WalkFault};

use crate::root::{Jobs, read_root};
use std::alloc::Global;
use zr_jobset::{CheckFault, JobSet, check};
use zr_jobwalk::{JobFault, Table};
use zr_names::Node;
use zr_rules::Patterns;

/// The set of jobs that no check refuses.
fn checked(alloc: Global, read: Jobs) -> Result<JobSet, JobFault>
    requires { AreJobs read.names.items read.jobs.items }
    ensures set { IfOk result (λ set. set ≡ set_of read.names.items read.jobs.items) }
    ensures accepted { OnOk result (IsAccepted read.names.items read.jobs.items) }
    ensures fault { IfErr result (λ fault. fault ≢ JobFault.NoMemory
        → IsCheckFault read.names.items read.jobs.items fault) }
{
    let Jobs { names, jobs } = read;
    match check(alloc, names.as_slice(), jobs) {
        Ok(set) => Ok(set),
        Err(CheckFault::NoMemory) => Err(JobFault::NoMemory),
        Err(fault) => Err(JobFault::Check(fault)),
    }
}

/// The jobs of a tree, where it is one of a job file and no check refuses them; else the first fault in the order of the
/// documentation. A pattern is refused only where its build was, in this call. It never answers `NotToml`.
pub fn walk<P: Patterns>(alloc: Global, patterns: &mut P, node: &Node) -> Result<JobSet, JobFault>
    ensures jobs { IfOk result (λ set. Accepts (tree node.now) set.names set.jobs) }
    ensures fault { IfErr result (λ fault. fault ≢ JobFault.NoMemory → WalkFault
        (asked (P.refusals patterns.old) (P.refusals patterns.new) (P.refused_last patterns.new))
        (tree node.now) fault) }
    ensures count { OnOk result (P.refusals patterns.new ≡ P.refusals patterns.old) }
{
    let root = Table::root(alloc, node);
    match read_root(patterns, &root) {
        Ok(read) => checked(alloc, read),
        Err(fault) => Err(fault),
    }
}

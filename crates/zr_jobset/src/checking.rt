//! The checks of a set in their order: the least that shows, at the least job.

ghost use Rattle.std.specs.Prelude.{◌≡◌, ◌≤◌, suc, length, IfErr, IfOk, OnOk};
ghost use Rattle.zr_jobset.specs.declared.set.TheConstants.{MAX_JOBS};
ghost use Rattle.zr_jobset.specs.Checks.{IsAccepted, PassBefore, RefusedBy, fault_of, order};
ghost use Rattle.zr_jobset.specs.Fields.{AreJobs};
ghost use Rattle.zr_jobset.specs.Sets.{set_of};

use crate::checks::{Check, shows};
use crate::job::Job;
use crate::set::JobSet;
use std::alloc::Global;
use thiserror::Error;
use zr_names::{JobName, Rows, same_items};

/// Why a set of jobs is refused: the check with the number of the job at which it shows, from 0.
#[derive(Clone, Copy, Debug, Error)]
pub enum CheckFault {
    #[error("DuplicateName job {0}")]
    DuplicateName(u32),
    #[error("NoListener job {0}")]
    NoListener(u32),
    #[error("WrongListenerType job {0}")]
    WrongListenerType(u32),
    #[error("SameIdentity job {0}")]
    SameIdentity(u32),
    #[error("RootsNested job {0}")]
    RootsNested(u32),
    #[error("SourceInRoot job {0}")]
    SourceInRoot(u32),
    #[error("RuleNotHere job {0}")]
    RuleNotHere(u32),
    #[error("MigrateTwice job {0}")]
    MigrateTwice(u32),
    #[error("memory was refused")]
    NoMemory,
}

impl Check {
    ghost use Rattle.std.specs.Prelude.{◌≡◌};
    ghost use Rattle.zr_jobset.specs.Checks.{fault_of};

    /// This check, which shows at the job of this number.
    pub fn fault(self, number: u32) -> CheckFault
        ensures { result ≡ fault_of self number }
    {
        match self {
            Check::DuplicateName => CheckFault::DuplicateName(number),
            Check::NoListener => CheckFault::NoListener(number),
            Check::WrongListenerType => CheckFault::WrongListenerType(number),
            Check::SameIdentity => CheckFault::SameIdentity(number),
            Check::RootsNested => CheckFault::RootsNested(number),
            Check::SourceInRoot => CheckFault::SourceInRoot(number),
            Check::RuleNotHere => CheckFault::RuleNotHere(number),
            Check::MigrateTwice => CheckFault::MigrateTwice(number),
        }
    }
}

/// One check at each job, after those before it in the order.
fn pass(names: &[JobName], jobs: &[Job], check: Check) -> Result<(), CheckFault>
    requires named { length names.now ≡ length jobs.now }
    requires few { length jobs.now ≤ MAX_JOBS }
    requires before { PassBefore names.now jobs.now (order check) }
    ensures passed { OnOk result (PassBefore names.now jobs.now (suc (order check))) }
    ensures fault { IfErr result (RefusedBy names.now jobs.now) }
{
    for number in 0..jobs.len() {
        if shows(names, jobs, check, number) {
            return Err(check.fault(number as u32));
        }
    }
    Ok(())
}

fn pass_all(names: &[JobName], jobs: &[Job]) -> Result<(), CheckFault>
    requires named { length names.now ≡ length jobs.now }
    requires few { length jobs.now ≤ MAX_JOBS }
    ensures accepted { OnOk result (IsAccepted names.now jobs.now) }
    ensures fault { IfErr result (RefusedBy names.now jobs.now) }
{
    pass(names, jobs, Check::DuplicateName)?;
    pass(names, jobs, Check::NoListener)?;
    pass(names, jobs, Check::WrongListenerType)?;
    pass(names, jobs, Check::SameIdentity)?;
    pass(names, jobs, Check::RootsNested)?;
    pass(names, jobs, Check::SourceInRoot)?;
    pass(names, jobs, Check::RuleNotHere)?;
    pass(names, jobs, Check::MigrateTwice)?;
    Ok(())
}

/// The set of these jobs, with a name for each, in the order of the file; or the least check that shows, at the least
/// job at which it does. Memory is wanted for the names alone.
pub fn check(alloc: Global, names: &[JobName], jobs: Vec<Job>) -> Result<JobSet, CheckFault>
    requires jobs { AreJobs names.now jobs.items }
    ensures set { IfOk result (λ set. set ≡ set_of names.now jobs.items) }
    ensures accepted { OnOk result (IsAccepted names.now jobs.items) }
    ensures fault { IfErr result (RefusedBy names.now jobs.items) }
{
    pass_all(names, jobs.as_slice())?;
    match same_items(alloc, names) {
        Ok(names) => Ok(JobSet::new(names, Rows::from_vec(jobs))),
        Err(_) => Err(CheckFault::NoMemory),
    }
}

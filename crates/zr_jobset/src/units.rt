//! What the jobs of a checked set work on, keep and replicate, and which units are theirs. Apart from `places`, which
//! knows no unit.

ghost use Rattle.std.specs.Prelude.{◌≡◌, IfErr, IfOk, Some, is_some, true};
ghost use Rattle.std.specs.Option.{option_copied};
ghost use Rattle.zr_jobs.specs.Targets.{TellsLength, target_text};
ghost use Rattle.zr_jobs.specs.declared.target.Destination.TheVariants.{Pull, Push};
ghost use Rattle.zr_jobs.specs.declared.target.TargetFault.TheVariants as target_fault;
ghost use Rattle.zr_jobset.specs.Places.{place_of, pulled_to, pushed_to};
ghost use Rattle.zr_jobset.specs.Units.{fits, fits_target, pair_at};

use crate::fields::is_default;
use crate::job::Job;
use crate::places::{filter_in, place_at, push_root};
use crate::set::JobSet;
use std::alloc::{AllocError, Global};
use zr_filter::{Filter, matches};
use zr_jobs::{Destination, Identity, LONGEST_PATH, Pair, TargetFault, target_of};
use zr_names::{JobName, NoMemory, Path, Same, Unit, Work};
use zr_rules::RuleSpec;

/// Whether a path is not too long to work on.
fn fits(path: &Path) -> bool
    ensures { result ≡ fits path.now }
{
    path.as_bytes().len() <= LONGEST_PATH
}

fn fits_pushed(root: &Path, identity: &Identity, source: &Path) -> bool
    ensures { result ≡ fits (target_text (Push root.now identity.now) source.now) }
{
    let own = identity.as_bytes().len() + 1 + source.as_bytes().len();
    root.as_bytes().len() + 1 + own <= LONGEST_PATH
}

fn fits_pulled(root: &Path, source: &Path) -> bool
    ensures { result ≡ fits (target_text (Pull root.now) source.now) }
{
    root.as_bytes().len() + 1 + source.as_bytes().len() <= LONGEST_PATH
}

fn fits_push(root: Option<&Path>, identity: &Option<Identity>, source: &Path) -> bool
    ensures { result ≡ fits_target (pushed_to (option_copied root.entry) identity.now) source.now }
{
    match (root, identity) {
        (Some(root), Some(identity)) => fits_pushed(root, identity, source),
        (None, _) | (Some(_), None) => true,
    }
}

fn fits_pull(root: &Option<Path>, source: &Path) -> bool
    ensures { result ≡ fits_target (pulled_to root.now) source.now }
{
    match root {
        Some(root) => fits_pulled(root, source),
        None => true,
    }
}

fn fits_target(jobs: &[Job], job: &Job, source: &Path) -> bool
    ensures { result ≡ fits_target (place_of jobs.now job.now) source.now }
{
    if job.kind.is_push() {
        fits_push(push_root(jobs, job), &job.identity, source)
    } else if job.kind.is_pull() {
        fits_pull(&job.root, source)
    } else {
        true
    }
}

/// Whether a job has a destination.
fn has_place(jobs: &[Job], job: &Job) -> bool
    ensures { result ≡ is_some (place_of jobs.now job.now) }
{
    if job.kind.is_push() {
        push_root(jobs, job).is_some() && job.identity.is_some()
    } else {
        job.kind.is_pull() && job.root.is_some()
    }
}

fn pair_at(
    alloc: Global,
    name: &JobName,
    source: &Path,
    place: &Destination,
) -> Result<Pair, TargetFault>
    ensures pair { IfOk result (λ pair. pair ≡ pair_at name.now source.now place.now) }
    ensures fault { IfErr result (λ fault.
        fits (target_text place.now source.now) ≡ true → fault ≡ target_fault.NoMemory) }
    ensures length { IfErr result (TellsLength (Some place.now) source.now) }
{
    Ok(Pair {
        job: name.same()?,
        source: source.same()?,
        target: target_of(alloc, place, source)?,
        root: place.root().same()?,
    })
}

impl JobSet {
    ghost use Rattle.std.specs.Prelude.{◌≡◌, Decides, IfErr, IfOk, Some, is_some, true};
    ghost use Rattle.std.specs.List.{slice_get};
    ghost use Rattle.std.specs.Option.{option_copied};
    ghost use Rattle.zr_names.specs.declared.unit.Work.TheVariants as work;
    ghost use Rattle.zr_jobs.specs.Targets.{TellsLength};
    ghost use Rattle.zr_jobs.specs.declared.target.TargetFault.TheVariants as target_fault;
    ghost use Rattle.zr_jobset.specs.Places.{filter_at, place_at};
    ghost use Rattle.zr_jobset.specs.Sets.{job_at};
    ghost use Rattle.zr_jobset.specs.Units.{IsOfFile, fits_in, fits_target, gives};
    ghost use Rattle.zr_jobset.specs.Units.{has_default_policy, is_scanned, matches_in, pair_of};
    ghost use Rattle.zr_jobset.specs.Units.{rules_of, takes};

    /// The name of the job of this number, where there is one.
    pub fn name(&self, number: u32) -> Option<&JobName>
        ensures name { option_copied result ≡ slice_get self.now.names number }
        ensures there { is_some (option_copied result) ≡ is_some (job_at self.now number) }
    {
        self.names().get(number as usize)
    }

    /// The filter by which the job of this number goes.
    fn filter(&self, number: u32) -> Option<&Filter>
        ensures { option_copied result ≡ filter_at self.now number }
    {
        match self.job(number) {
            Some(job) => Some(filter_in(self.jobs(), job)),
            None => None,
        }
    }

    /// Whether the filter of the job of this number matches a path.
    pub fn matches(&self, number: u32, path: &Path) -> bool
        ensures { result ≡ matches_in self.now number path.now }
    {
        match self.filter(number) {
            Some(filter) => matches(filter, path),
            None => false,
        }
    }

    /// The rules by which a job's source snapshots are kept.
    pub fn rules(&self, number: u32) -> &[RuleSpec]
        ensures { result.now ≡ rules_of self.now number }
    {
        match self.job(number) {
            Some(job) => job.keep_source.as_slice(),
            None => &[],
        }
    }

    fn fits_target(&self, number: u32, path: &Path) -> bool
        ensures { result ≡ fits_target (place_at self.now number) path.now }
    {
        match self.job(number) {
            Some(job) => fits_target(self.jobs(), job, path),
            None => true,
        }
    }

    /// Whether a job's units can work on a path: neither the path nor its target is too long.
    pub fn fits(&self, number: u32, path: &Path) -> bool
        ensures { result ≡ fits_in self.now number path.now }
    {
        fits(path) && self.fits_target(number, path)
    }

    /// Whether a job has a destination, below which it puts what it replicates.
    pub fn has_place(&self, number: u32) -> bool
        ensures { result ≡ is_some (place_at self.now number) }
    {
        match self.job(number) {
            Some(job) => has_place(self.jobs(), job),
            None => false,
        }
    }

    /// Whether a scan of a job gives units of a path, where its listing has it.
    fn takes(&self, number: u32, path: &Path) -> bool
        ensures { result ≡ takes self.now number path.now }
    {
        self.matches(number, path) && self.fits(number, path)
    }

    /// Whether a scan of a job gives such work, for some listing.
    fn gives(&self, number: u32, work: &Work) -> bool
        ensures { result ≡ gives self.now number work.now }
    {
        match work {
            Work::Scan => true,
            Work::Replicate(path) => self.takes(number, path) && self.has_place(number),
            Work::PruneSource(path) => self.takes(number, path) && 0 < self.rules(number).len(),
            Work::Parents | Work::Snap(_, _) | Work::PruneTarget(_) => false,
        }
    }

    /// Whether the job of this number is there and is scanned: every job but a sink.
    pub fn is_scanned(&self, number: u32) -> bool
        ensures { result ≡ is_scanned self.now number }
    {
        match self.job(number) {
            Some(job) => !job.kind.is_sink(),
            None => false,
        }
    }

    /// Whether a unit is one of these jobs: a scan of a job, or what such a scan gives for some listing.
    pub fn has_unit(&self, unit: &Unit) -> bool
        ensures { Decides result (IsOfFile self.now unit.now) }
    {
        self.is_scanned(unit.job) && self.gives(unit.job, &unit.work)
    }

    /// Whether a job replicates as it does by default.
    pub fn has_default_policy(&self, number: u32) -> bool
        ensures { result ≡ has_default_policy self.now number }
    {
        match self.job(number) {
            Some(job) => is_default(job.policy),
            None => false,
        }
    }

    /// What a job replicates from a source, if it replicates. Where the source fits, a fault is want of memory.
    pub fn pair(
        &self,
        alloc: Global,
        number: u32,
        source: &Path,
    ) -> Result<Option<Pair>, TargetFault>
        ensures pair { IfOk result (λ pair. pair ≡ pair_of self.now number source.now) }
        ensures fault { IfErr result (λ fault.
            fits_in self.now number source.now ≡ true → fault ≡ target_fault.NoMemory) }
        ensures length { IfErr result (TellsLength (place_at self.now number) source.now) }
    {
        let Some(name) = self.name(number) else {
            return Ok(None);
        };
        match place_at(alloc, self, number) {
            Ok(Some(place)) => Ok(Some(pair_at(alloc, name, source, &place)?)),
            Ok(None) => Ok(None),
            Err(NoMemory) => Err(TargetFault::NoMemory),
        }
    }

    /// What a unit of the job file replicates.
    pub fn unit_pair(&self, alloc: Global, unit: &Unit, source: &Path) -> Result<Pair, NoMemory>
        requires of_file { IsOfFile self.now unit.now }
        requires kind { unit.now.work ≡ work.Replicate source.now }
        ensures { IfOk result (λ pair. pair_of self.now unit.now.job source.now ≡ Some pair) }
    {
        match self.pair(alloc, unit.job, source) {
            Ok(Some(pair)) => Ok(pair),
            Ok(None) => unreachable!(),
            Err(TargetFault::NameTooLong(_)) => unreachable!(),
            Err(TargetFault::NoMemory) => Err(NoMemory),
        }
    }
}

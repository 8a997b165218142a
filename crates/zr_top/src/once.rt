//! One round: the scan of each job, and then what the scans found.

ghost use Rattle.std.specs.Prelude.{◌≡◌, ◌≤◌, ◌<◌, All, IfErr, IfOk, List, true};
ghost use Rattle.zr_base.specs.Count.{Rose};
ghost use Rattle.zr_jobset.specs.Units.{all_rules, is_scanned};
ghost use Rattle.zr_top.specs.Attempts.{Attempted, no_totals};
ghost use Rattle.zr_top.specs.Due.{due_jobs, FaultsRose, joined, RanDue, ScansRan};
ghost use Rattle.zr_top.specs.Units.{IsDueUnit};

use crate::running::{run_scan, run_unit};
use std::alloc::{AllocError, Global};
use zr_jobset::JobSet;
use zr_names::{Moment, NoMemory, Outcome, Rows, Totals, Unit};
use zr_rules::Rules;
use zr_world::Zfs;

/// The totals so far.
#[derive(Clone, Copy)]
struct Tally {
    totals: Totals,
}

impl Tally {
    ghost use Rattle.std.specs.Prelude.{◌≡◌};
    ghost use Rattle.zr_names.specs.Totals.{plus};
    ghost use Rattle.zr_top.specs.Attempts.{no_totals, tallied};

    fn new() -> Tally
        ensures { result.totals ≡ no_totals }
    {
        Tally {
            totals: Totals::default(),
        }
    }

    /// The number of the next run: that of its unit among those that are due, counted from 1.
    fn next_run(&self) -> u64
        ensures { result ≡ plus self.now.totals.due 1 }
    {
        self.totals.due.saturating_add(1)
    }

    /// Counts a unit that was due, and its outcome.
    fn count(&mut self, outcome: &Outcome)
        ensures { self.new.totals ≡ tallied outcome.now self.old.totals }
    {
        self.totals.due = self.totals.due.saturating_add(1);
        self.totals.count(outcome);
    }
}

/// The numbers of the jobs that are scanned.
fn due_jobs(alloc: Global, jobs: &JobSet) -> Result<Vec<u32>, AllocError>
    ensures { IfOk result (λ numbers. numbers.items ≡ due_jobs jobs.now) }
{
    let mut numbers = Vec::new(alloc);
    for number in 0..jobs.jobs().len() as u32 {
        if jobs.is_scanned(number) {
            numbers.push(number)?;
        }
    }
    Ok(numbers)
}

/// Runs the scans of these jobs in their order, and gives the units that each found. The room for them is made before the
/// first scan.
fn scan_all<Z: Zfs>(
    alloc: Global,
    jobs: &JobSet,
    numbers: &[u32],
    moment: Moment,
    tally: &mut Tally,
    runner: &mut Z,
) -> Result<Vec<Rows<Unit>>, AllocError>
    requires scanned { All (λ number. is_scanned jobs.now number ≡ true) numbers.now }
    ensures units { IfOk result (λ found. All (All (IsDueUnit jobs.now)) found.items) }
    ensures ran { IfOk result (λ found. ScansRan jobs.now moment numbers.now
        (Z.history runner.old) (Z.history runner.new) tally.old.totals tally.new.totals
        found.items) }
    ensures unbegun { IfErr result (λ fault. runner.new ≡ runner.old) }
    ensures later { Z.faults runner.old ≤ Z.faults runner.new }
    ensures rose { FaultsRose tally.old.totals tally.new.totals (Z.faults runner.old)
        (Z.faults runner.new) }
{
    let mut found = Vec::with_capacity(alloc, numbers.len())?;
    for number in numbers {
        let (outcome, units) = run_scan(alloc, jobs, *number, moment, tally.next_run(), runner);
        tally.count(&outcome);
        found.push_reserved(Rows::from_vec(units));
    }
    Ok(found)
}

/// Runs some units in their order.
fn run_units<Z: Zfs>(
    alloc: Global,
    jobs: &JobSet,
    rules: &mut [Rules],
    units: Vec<Unit>,
    tally: &mut Tally,
    runner: &mut Z,
)
    requires due { All (IsDueUnit jobs.now) units.items }
    requires rules { rules.old ≡ all_rules jobs.now }
    ensures rules { rules.new ≡ rules.old }
    ensures ran { Attempted jobs.now units.items (Z.history runner.old) (Z.history runner.new)
        tally.old.totals tally.new.totals }
    ensures later { Z.faults runner.old ≤ Z.faults runner.new }
    ensures rose { FaultsRose tally.old.totals tally.new.totals (Z.faults runner.old)
        (Z.faults runner.new) }
{
    for unit in units {
        let outcome = run_unit(alloc, jobs, rules, unit, tally.next_run(), runner);
        tally.count(&outcome);
    }
}

/// Runs the units of all scans in their order.
fn run_all<Z: Zfs>(
    alloc: Global,
    jobs: &JobSet,
    rules: &mut [Rules],
    found: Vec<Rows<Unit>>,
    tally: &mut Tally,
    runner: &mut Z,
)
    requires due { All (All (IsDueUnit jobs.now)) found.items }
    requires rules { rules.old ≡ all_rules jobs.now }
    ensures rules { rules.new ≡ rules.old }
    ensures ran { Attempted jobs.now (joined found.items) (Z.history runner.old)
        (Z.history runner.new)
        tally.old.totals tally.new.totals }
    ensures later { Z.faults runner.old ≤ Z.faults runner.new }
    ensures rose { FaultsRose tally.old.totals tally.new.totals (Z.faults runner.old)
        (Z.faults runner.new) }
{
    for units in found {
        run_units(alloc, jobs, rules, units.into_vec(), tally, runner);
    }
}

/// Runs all that is due at one moment: the scan of each job but sinks, and then the units that the scans found. No
/// key of such a unit comes twice, so none is coalesced. With no moment nothing is due. Where there is no
/// memory to begin, nothing is run. The rules are those of each job, compiled.
pub fn once<Z: Zfs>(
    alloc: Global,
    jobs: &JobSet,
    rules: &mut [Rules],
    moment: Option<Moment>,
    runner: &mut Z,
) -> Result<Totals, NoMemory>
    requires rules { rules.old ≡ all_rules jobs.now }
    ensures ran { IfOk result
        (λ totals. RanDue jobs.now moment (Z.history runner.old) (Z.history runner.new) totals) }
    ensures unbegun { IfErr result (λ fault. runner.new ≡ runner.old) }
    ensures later { Z.faults runner.old ≤ Z.faults runner.new }
    ensures rose { IfOk result
        (λ totals. 0 < totals.faults → Rose (Z.faults runner.old) (Z.faults runner.new)) }
{
    let mut tally = Tally::new();
    let Some(moment) = moment else {
        return Ok(tally.totals);
    };
    let Ok(numbers) = due_jobs(alloc, jobs) else {
        return Err(NoMemory);
    };
    let Ok(found) = scan_all(alloc, jobs, numbers.as_slice(), moment, &mut tally, runner) else {
        return Err(NoMemory);
    };
    run_all(alloc, jobs, rules, found, &mut tally, runner);
    Ok(tally.totals)
}

//! Runs one unit to its end, whatever its kind. Apart from `once`, which goes through all.

ghost use Rattle.std.specs.Prelude.{◌≡◌, ◌≤◌, ◌<◌, All, true, length};
ghost use Rattle.zr_base.specs.Count.{Rose};
ghost use Rattle.zr_names.specs.declared.unit.Work.TheVariants as work;
ghost use Rattle.zr_jobset.specs.Units.{IsOfFile, all_rules, is_scanned, rules_of};
ghost use Rattle.zr_permit.specs.Result.{is_child_fault};
ghost use Rattle.zr_permit.specs.Runs.{Ran};
ghost use Rattle.zr_permit.specs.Sight.{HasEnded, HasJustBegun, sight};
ghost use Rattle.zr_top.specs.Due.{scan_of, ScanRan};
ghost use Rattle.zr_top.specs.Units.{IsDueUnit, IsDueWork};

use std::alloc::Global;
use zr_jobset::JobSet;
use zr_names::{Moment, Outcome, Unit, Work};
use zr_permit::{Guarded, Unbegun};
use zr_prune::prune;
use zr_replicate::replicate;
use zr_rules::Rules;
use zr_snap::scan;
use zr_world::Zfs;

/// Runs the scan of a job.
pub fn run_scan<Z: Zfs>(
    alloc: Global,
    jobs: &JobSet,
    job: u32,
    moment: Moment,
    run: u64,
    runner: &mut Z,
) -> (Outcome, Vec<Unit>)
    requires { is_scanned jobs.now job ≡ true }
    ensures ran { ScanRan jobs.now (scan_of moment job) run (Z.history runner.old)
        (Z.history runner.new)
        result.0 result.1.items }
    ensures units { All (IsDueUnit jobs.now) result.1.items }
    ensures later { Z.faults runner.old ≤ Z.faults runner.new }
    ensures fault_rose { is_child_fault result.0 ≡ true
        → Rose (Z.faults runner.old) (Z.faults runner.new) }
{
    let unit = Unit {
        job,
        moment,
        work: Work::Scan,
    };
    match Guarded::begin(alloc, unit, run, jobs, runner) {
        Ok(mut unit) => {
            let found = scan(alloc, &mut unit);
            let _legal = unit.transcript();
            let _back = unit.end();
            found
        }
        Err(unbegun) => {
            let Unbegun {
                unit: _unit,
                runner: back,
            } = unbegun;
            let _ = back;
            (Outcome::NoMemory, Vec::new(alloc))
        }
    }
}

/// Does the work of a unit that has just begun.
fn work<Z: Zfs>(alloc: Global, unit: &mut Guarded<'_, Z>, rules: &mut Rules) -> Outcome
    requires rules { rules.old
        ≡ rules_of (sight Z.Zfs unit.old).jobs (sight Z.Zfs unit.old).unit.job }
    requires begun { HasJustBegun (sight Z.Zfs unit.old) }
    requires of_file { IsOfFile (sight Z.Zfs unit.old).jobs (sight Z.Zfs unit.old).unit }
    requires kind { IsDueWork (sight Z.Zfs unit.old).unit.work }
    ensures ended { HasEnded (sight Z.Zfs unit.old) (sight Z.Zfs unit.new) result }
    ensures rules { rules.new ≡ rules.old }
    ensures same_runner { unit.new.runner.ghost_name ≡ unit.old.runner.ghost_name }
{
    match unit.unit().work {
        Work::Replicate(_) => replicate(alloc, unit),
        Work::PruneSource(_) => prune(alloc, unit, rules),
        _ => unreachable!(),
    }
}

/// Runs a unit that a scan gave.
pub fn run_unit<Z: Zfs>(
    alloc: Global,
    jobs: &JobSet,
    rules: &mut [Rules],
    unit: Unit,
    run: u64,
    runner: &mut Z,
) -> Outcome
    requires due { IsDueUnit jobs.now unit }
    requires rules { rules.old ≡ all_rules jobs.now }
    ensures rules { rules.new ≡ rules.old }
    ensures ran { Ran jobs.now unit run (Z.history runner.old) (Z.history runner.new) result }
    ensures later { Z.faults runner.old ≤ Z.faults runner.new }
    ensures fault_rose { is_child_fault result ≡ true
        → Rose (Z.faults runner.old) (Z.faults runner.new) }
{
    let own = &mut rules[unit.job as usize];
    match Guarded::begin(alloc, unit, run, jobs, runner) {
        Ok(mut unit) => {
            let outcome = work(alloc, &mut unit, own);
            let _legal = unit.transcript();
            let _back = unit.end();
            outcome
        }
        Err(unbegun) => {
            let Unbegun {
                unit: _unit,
                runner: back,
            } = unbegun;
            let _ = back;
            Outcome::NoMemory
        }
    }
}

//! The unit of work that lists the datasets and finds the units of a job.
#![tactic(auto)]

ghost use Rattle.std.specs.Prelude.{◌≡◌, [], ◌∷◌, ◌++◌, IfOk, OnOk, IsPermutation, List, Option, false, true, filter, flat_map, length, map, not};
ghost use Rattle.std.specs.Ordering.{nat_cmp};
ghost use Rattle.std.specs.List.Sorted.{IsSorted};
ghost use Rattle.std.specs.Cmp.Lexicographic.{slice_cmp};
ghost use Rattle.zr_base.specs.Count.{Rose};
ghost use Rattle.zr_names.specs.declared.outcome.Outcome.TheVariants as outcome;
ghost use Rattle.zr_names.specs.declared.unit.Work.TheVariants as work;
ghost use Rattle.zr_jobset.specs.Places.{place_at};
ghost use Rattle.zr_jobset.specs.Units.{fits_in, matched, prunings, replications, rules_of, units_at, UnitsOf};
ghost use Rattle.zr_permit.specs.Result.{capped, is_child_fault, is_out_of_memory, ResultOf};
ghost use Rattle.zr_permit.specs.Sight.{HasEnded, HasJustBegun, IsAtWork, sight, Went};
ghost use Rattle.zr_permit.specs.Turned.{HasTurned, is_no_memory, IsRecordOf, IsRecordAfter, Turns};
ghost use Rattle.zr_snap.specs.Scanning.{Gives};
ghost use Rattle.zr_command.specs.declared.command.Cmd.TheVariants as cmd;
ghost use Rattle.zr_command.specs.declared.command.Entry.{Entry};

use std::alloc::{AllocError, Global};
use zr_command::{Answer, Cmd, Reply, SetRow};
use zr_jobset::JobSet;
use zr_names::{Moment, Outcome, Path, Rows, Same, Unit, Work};
use zr_permit::{Guarded, Told};
use zr_world::Zfs;

/// The listed paths that a job's filter matches and on which units can work.
fn fitting_paths(
    alloc: Global,
    jobs: &JobSet,
    job: u32,
    rows: &[SetRow],
) -> Result<Vec<Path>, AllocError>
    ensures { IfOk result (λ paths.
        paths.items ≡ filter (fits_in jobs.now job) (matched jobs.now job rows.now)) }
{
    let mut paths = Vec::new(alloc);
    for row in rows {
        if jobs.matches(job, &row.path) && jobs.fits(job, &row.path) {
            paths.push(row.path.same()?)?;
        }
    }
    Ok(paths)
}

/// How many of the listed paths that a job's filter matches are too long to work on, or have a target that is.
fn too_long_count(jobs: &JobSet, job: u32, rows: &[SetRow]) -> usize
    ensures { result ≡ length
        (filter (λ path. not (fits_in jobs.now job path))
        (matched jobs.now job rows.now)) }
{
    let mut count = 0;
    for row in rows {
        if jobs.matches(job, &row.path) && !jobs.fits(job, &row.path) {
            count += 1;
        }
    }
    count
}

/// The paths in byte order.
fn sorted(mut paths: Vec<Path>) -> Result<Vec<Path>, AllocError>
    ensures same { IfOk result (λ rising. IsPermutation paths.items rising.items) }
    ensures len { IfOk result (λ rising. length rising.items ≡ length paths.items) }
    ensures rising { IfOk result (λ rising. IsSorted (slice_cmp nat_cmp) rising.items) }
{
    paths.sort()?;
    Ok(paths)
}

/// Adds the unit that replicates a path, where the job has a destination.
fn add_replication(
    units: &mut Vec<Unit>,
    jobs: &JobSet,
    job: u32,
    moment: Moment,
    path: &Path,
) -> Result<(), AllocError>
    ensures { OnOk result (units.new.items ≡
        units.old.items ++ replications (place_at jobs.now job) job moment
        path.now) }
{
    if jobs.has_place(job) {
        let work = Work::Replicate(path.same()?);
        units.push(Unit { job, moment, work })?;
    }
    Ok(())
}

/// Adds the unit that prunes a path, where the job has rules.
fn add_pruning(
    units: &mut Vec<Unit>,
    jobs: &JobSet,
    job: u32,
    moment: Moment,
    path: &Path,
) -> Result<(), AllocError>
    ensures { OnOk result (units.new.items ≡
        units.old.items ++ prunings (rules_of jobs.now job) job moment path.now) }
{
    if !jobs.rules(job).is_empty() {
        let work = Work::PruneSource(path.same()?);
        units.push(Unit { job, moment, work })?;
    }
    Ok(())
}

/// Adds the units of one path: it is replicated before it is pruned.
fn add_units(
    units: &mut Vec<Unit>,
    jobs: &JobSet,
    job: u32,
    moment: Moment,
    path: &Path,
) -> Result<(), AllocError>
    ensures { OnOk result (units.new.items ≡
        units.old.items ++ units_at jobs.now job moment path.now) }
{
    add_replication(units, jobs, job, moment, path)?;
    add_pruning(units, jobs, job, moment, path)
}

/// The units of each path, in the order of the paths.
fn units_on(
    alloc: Global,
    jobs: &JobSet,
    job: u32,
    moment: Moment,
    paths: &[Path],
) -> Result<Vec<Unit>, AllocError>
    ensures { IfOk result (λ units.
        units.items ≡ flat_map (units_at jobs.now job moment) paths.now) }
{
    let mut units = Vec::new(alloc);
    for path in paths {
        add_units(&mut units, jobs, job, moment, path)?;
    }
    Ok(units)
}

/// Finds the units of a job over a listing of the datasets.
fn find_units(
    alloc: Global,
    jobs: &JobSet,
    unit: &Unit,
    rows: &[SetRow],
) -> Result<(Outcome, Vec<Unit>), AllocError>
    ensures found { IfOk result (λ found. found.0 ≡ outcome.Scanned
        (capped (length (filter (fits_in jobs.now unit.now.job)
        (matched jobs.now unit.now.job rows.now))))
        (capped (length (filter (λ path. not (fits_in jobs.now unit.now.job path))
        (matched jobs.now unit.now.job rows.now))))) }
    ensures units { IfOk result
        (λ found. UnitsOf jobs.now unit.now.job unit.now.moment rows.now found.1.items) }
{
    let paths = sorted(fitting_paths(alloc, jobs, unit.job, rows)?)?;
    let units = units_on(alloc, jobs, unit.job, unit.moment, paths.as_slice())?;
    let outcome = Outcome::Scanned {
        found: capped(paths.len()),
        too_long: capped(too_long_count(jobs, unit.job, rows)),
    };
    Ok((outcome, units))
}

/// A count as it stands in an outcome.
fn capped(count: usize) -> u32
    ensures { result ≡ capped count }
{
    u32::try_from(count).unwrap_or(u32::MAX)
}

/// Lists the datasets.
fn list<Z: Zfs>(unit: &mut Guarded<'_, Z>) -> Told
    requires begun { HasJustBegun (sight Z.Zfs unit.old) }
    requires kind { (sight Z.Zfs unit.old).unit.work ≡ work.Scan }
    ensures went { Went (sight Z.Zfs unit.old) (sight Z.Zfs unit.new) }
    ensures turns { Turns (sight Z.Zfs unit.old).turns (sight Z.Zfs unit.new).turns cmd.Sets
        result }
    ensures memory { (sight Z.Zfs unit.new).out_of_memory ≡ is_no_memory result }
    ensures rose { result ≡ Told.Failed
        → Rose (sight Z.Zfs unit.old).faults (sight Z.Zfs unit.new).faults }
    ensures records { (base : Option (List Entry))
        → IsRecordOf base (sight Z.Zfs unit.old).history (sight Z.Zfs unit.old).turns →
        IsRecordAfter base (sight Z.Zfs unit.new).history (sight Z.Zfs unit.old).turns
        (sight Z.Zfs unit.new).turns cmd.Sets result }
    ensures same_runner { unit.new.runner.ghost_name ≡ unit.old.runner.ghost_name }
{
    unit.run(Cmd::Sets)
}

/// Finds the units of the scan's job over its listing, which was answered last.
fn scan_listed<Z: Zfs>(
    alloc: Global,
    unit: &Guarded<'_, Z>,
) -> Result<(Outcome, Vec<Unit>), AllocError>
    requires work { (sight Z.Zfs unit.now).unit.work ≡ work.Scan }
    requires listed { HasTurned [] (sight Z.Zfs unit.now).turns cmd.Sets Told.Done }
    ensures result { IfOk result (λ found.
        ResultOf (sight Z.Zfs unit.now).jobs (sight Z.Zfs unit.now).unit
        (sight Z.Zfs unit.now).turns found.0) }
    ensures units { IfOk result (λ found.
        Gives (sight Z.Zfs unit.now).jobs (sight Z.Zfs unit.now).unit (sight Z.Zfs unit.now).turns
        found.0 found.1.items) }
    ensures no_fault { IfOk result (λ found. is_child_fault found.0 ≡ false) }
    ensures memory { IfOk result (λ found. is_out_of_memory found.0 ≡ false) }
{
    match unit.last() {
        Some(Answer::Done(Reply::Sets(rows))) => {
            find_units(alloc, unit.jobs(), unit.unit(), rows.as_slice())
        }
        _ => unreachable!(),
    }
}

/// The outcome of a scan whose listing was done.
fn scan_done<Z: Zfs>(alloc: Global, unit: &Guarded<'_, Z>) -> (Outcome, Vec<Unit>)
    requires work { (sight Z.Zfs unit.now).unit.work ≡ work.Scan }
    requires at_work { IsAtWork (sight Z.Zfs unit.now) }
    requires listed { HasTurned [] (sight Z.Zfs unit.now).turns cmd.Sets Told.Done }
    ensures ended { HasEnded (sight Z.Zfs unit.now) (sight Z.Zfs unit.now) result.0 }
    ensures units { Gives (sight Z.Zfs unit.now).jobs (sight Z.Zfs unit.now).unit
        (sight Z.Zfs unit.now).turns result.0 result.1.items }
{
    match scan_listed(alloc, unit) {
        Ok(found) => found,
        Err(_) => (unit.out_of_memory(), Vec::new(alloc)),
    }
}

/// Lists the datasets, and gives the units of each path that the job's filter matches, in byte order of
/// paths. A path that is too long to work on, or has a target that is, gives no units, and is counted.
pub fn scan<Z: Zfs>(alloc: Global, unit: &mut Guarded<'_, Z>) -> (Outcome, Vec<Unit>)
    requires begun { HasJustBegun (sight Z.Zfs unit.old) }
    requires kind { (sight Z.Zfs unit.old).unit.work ≡ work.Scan }
    ensures ended { HasEnded (sight Z.Zfs unit.old) (sight Z.Zfs unit.new) result.0 }
    ensures units { Gives (sight Z.Zfs unit.old).jobs (sight Z.Zfs unit.old).unit
        (sight Z.Zfs unit.new).turns result.0 result.1.items }
    ensures same_runner { unit.new.runner.ghost_name ≡ unit.old.runner.ghost_name }
{
    match list(unit) {
        Told::Done => scan_done(alloc, unit),
        Told::Failed => (unit.ended(Told::Failed), Vec::new(alloc)),
        Told::Garbled(line) => (unit.ended(Told::Garbled(line)), Vec::new(alloc)),
        Told::NoMemory => (unit.ended(Told::NoMemory), Vec::new(alloc)),
    }
}

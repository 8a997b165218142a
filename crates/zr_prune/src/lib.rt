//! The unit of work that destroys the snapshots of a dataset that no rule keeps.
#![tactic(auto)]

ghost use Rattle.std.specs.Prelude.{◌≡◌, ◌≤◌, [], IfOk, List, Option, false, length};
ghost use Rattle.zr_base.specs.Count.{Rose};
ghost use Rattle.zr_names.specs.declared.unit.Work.TheVariants as work;
ghost use Rattle.zr_jobset.specs.Units.{rules_of};
ghost use Rattle.zr_permit.specs.Sight.{HasEnded, HasJustBegun, IsAtWork, sight, Went};
ghost use Rattle.zr_permit.specs.Transcript.{Allowed, doomed_in, listed};
ghost use Rattle.zr_permit.specs.Turned.{HasTurned, is_no_memory, IsRecordOf, IsRecordAfter, Turns};
ghost use Rattle.zr_prune.specs.Groups.{destroy_of};
ghost use Rattle.zr_prune.specs.Pruning.{DestroysInGroups, IsListed, IsPruned, IsPruneSource, IsPruning};
ghost use Rattle.zr_prune.specs.Alone.{PrunesAlone};
ghost use Rattle.zr_command.specs.declared.command.Cmd.TheVariants as cmd;
ghost use Rattle.zr_command.specs.declared.command.Entry.{Entry};
ghost use Rattle.zr_command.specs.Group.{AreNames};
ghost use Rattle.zr_command.specs.declared.names.TheConstants.{NAMES_LIMIT};

use std::alloc::{AllocError, Global};
use zr_command::{Answer, Cmd, NAMES_LIMIT, Names, Reply, read_names};
use zr_names::{NoMemory, Outcome, Path, Same, SnapName, Work, same_items};
use zr_permit::{Guarded, Told, doomed};
use zr_rules::Rules;
use zr_world::Zfs;

/// The dataset that the unit prunes.
fn own_path<Z: Zfs>(unit: &Guarded<'_, Z>) -> Result<Path, AllocError>
    requires { IsPruneSource (sight Z.Zfs unit.now).unit.work }
    ensures { IfOk result (λ path. (sight Z.Zfs unit.now).unit.work ≡ work.PruneSource path) }
{
    match &unit.unit().work {
        Work::PruneSource(path) => path.same(),
        _ => unreachable!(),
    }
}

fn versions(path: &Path) -> Result<Cmd, AllocError>
    ensures { IfOk result (λ command. command ≡ cmd.Versions path.now) }
{
    Ok(Cmd::Versions(path.same()?))
}

/// These names, as one command names them together.
fn group_of(alloc: Global, group: &[SnapName]) -> Result<Names, AllocError>
    requires names { AreNames group.now }
    ensures { IfOk result (λ names. names ≡ group.now) }
{
    let list = same_items(alloc, group)?.into_vec();
    match read_names(list) {
        Ok(names) => Ok(names),
        Err(_) => unreachable!(),
    }
}

/// The destroy of this group.
fn destruction(alloc: Global, path: &Path, group: &[SnapName]) -> Result<Cmd, AllocError>
    requires names { AreNames group.now }
    ensures { IfOk result (λ command. command ≡ destroy_of path.now group.now) }
{
    let names = group_of(alloc, group)?;
    Ok(Cmd::DestroySnaps(path.same()?, names))
}

/// How many these are.
fn count(group: &[SnapName]) -> u32
    requires few { length group.now ≤ NAMES_LIMIT }
    ensures { result ≡ length group.now }
{
    group.len() as u32
}

/// Lists the dataset's versions.
fn list<Z: Zfs>(unit: &mut Guarded<'_, Z>, path: &Path) -> Told
    requires begun { HasJustBegun (sight Z.Zfs unit.old) }
    requires own { (sight Z.Zfs unit.old).unit.work ≡ work.PruneSource path.now }
    ensures went { Went (sight Z.Zfs unit.old) (sight Z.Zfs unit.new) }
    ensures turns { Turns (sight Z.Zfs unit.old).turns (sight Z.Zfs unit.new).turns
        (cmd.Versions path.now) result }
    ensures memory { is_no_memory result ≡ false → (sight Z.Zfs unit.new).out_of_memory ≡ false }
    ensures rose { result ≡ Told.Failed
        → Rose (sight Z.Zfs unit.old).faults (sight Z.Zfs unit.new).faults }
    ensures records { (base : Option (List Entry))
        → IsRecordOf base (sight Z.Zfs unit.old).history (sight Z.Zfs unit.old).turns →
        IsRecordAfter base (sight Z.Zfs unit.new).history (sight Z.Zfs unit.old).turns
        (sight Z.Zfs unit.new).turns (cmd.Versions path.now) result }
    ensures same_runner { unit.new.runner.ghost_name ≡ unit.old.runner.ghost_name }
{
    match versions(path) {
        Ok(command) => unit.run(command),
        Err(_) => Told::NoMemory,
    }
}

/// The snapshots that the listing, which was answered last, dooms.
fn doomed_names<Z: Zfs>(
    alloc: Global,
    unit: &Guarded<'_, Z>,
    path: &Path,
    rules: &mut Rules,
) -> Result<Vec<SnapName>, NoMemory>
    requires listed { IsListed (sight Z.Zfs unit.now).turns path.now }
    requires rules { rules.old
        ≡ rules_of (sight Z.Zfs unit.now).jobs (sight Z.Zfs unit.now).unit.job }
    ensures doomed { IfOk result (λ names. names.items
        ≡ doomed_in (sight Z.Zfs unit.now).jobs (sight Z.Zfs unit.now).unit.job
        (listed path.now (sight Z.Zfs unit.now).turns)) }
    ensures rules { rules.new ≡ rules.old }
{
    let Some(job) = unit.jobs().name(unit.unit().job) else {
        return Ok(Vec::new(alloc));
    };
    match unit.last() {
        Some(Answer::Done(Reply::Versions(rows))) => { doomed(alloc, job, rules, rows.as_slice()) }
        _ => unreachable!(),
    }
}

/// Gives one more group for destruction.
fn destroy<Z: Zfs>(
    alloc: Global,
    unit: &mut Guarded<'_, Z>,
    path: &Path,
    group: &[SnapName],
) -> Told
    requires names { AreNames group.now }
    requires memory { (sight Z.Zfs unit.old).out_of_memory ≡ false }
    requires allowed { Allowed (sight Z.Zfs unit.old).jobs (sight Z.Zfs unit.old).unit
        (sight Z.Zfs unit.old).turns (destroy_of path.now group.now) }
    ensures went { Went (sight Z.Zfs unit.old) (sight Z.Zfs unit.new) }
    ensures turns { Turns (sight Z.Zfs unit.old).turns (sight Z.Zfs unit.new).turns
        (destroy_of path.now group.now) result }
    ensures memory { is_no_memory result ≡ false → (sight Z.Zfs unit.new).out_of_memory ≡ false }
    ensures records { (base : Option (List Entry))
        → IsRecordOf base (sight Z.Zfs unit.old).history (sight Z.Zfs unit.old).turns →
        IsRecordAfter base (sight Z.Zfs unit.new).history (sight Z.Zfs unit.old).turns
        (sight Z.Zfs unit.new).turns (destroy_of path.now group.now) result }
    ensures same_runner { unit.new.runner.ghost_name ≡ unit.old.runner.ghost_name }
{
    match destruction(alloc, path, group) {
        Ok(command) => unit.run(command),
        Err(_) => Told::NoMemory,
    }
}

/// Gives the doomed snapshots for destruction, a group at a time. Each name of a destroy that fails counts as busy.
fn destroy_all<Z: Zfs>(
    alloc: Global,
    unit: &mut Guarded<'_, Z>,
    path: &Path,
    names: &[SnapName],
) -> Outcome
    requires memory { (sight Z.Zfs unit.old).out_of_memory ≡ false }
    requires listed { IsListed (sight Z.Zfs unit.old).turns path.now }
    requires pruning { IsPruning (sight Z.Zfs unit.old) path.now names.now [] }
    ensures ended { HasEnded (sight Z.Zfs unit.old) (sight Z.Zfs unit.new) result }
    ensures pruned { IsPruned (sight Z.Zfs unit.new) result }
    ensures same_runner { unit.new.runner.ghost_name ≡ unit.old.runner.ghost_name }
{
    let mut destroyed: u32 = 0;
    let mut busy: u32 = 0;
    for group in names.chunks(NAMES_LIMIT) {
        match destroy(alloc, unit, path, group) {
            Told::Done => destroyed = destroyed.saturating_add(count(group)),
            Told::Failed => busy = busy.saturating_add(count(group)),
            Told::Garbled(_) => unreachable!(),
            Told::NoMemory => return Outcome::NoMemory,
        }
    }
    Outcome::Pruned { destroyed, busy }
}

/// Prunes the dataset, whose versions the unit has just listed.
fn prune_listed<Z: Zfs>(
    alloc: Global,
    unit: &mut Guarded<'_, Z>,
    path: &Path,
    rules: &mut Rules,
) -> Outcome
    requires at_work { IsAtWork (sight Z.Zfs unit.old) }
    requires rules { rules.old
        ≡ rules_of (sight Z.Zfs unit.old).jobs (sight Z.Zfs unit.old).unit.job }
    requires own { (sight Z.Zfs unit.old).unit.work ≡ work.PruneSource path.now }
    requires listed { HasTurned [] (sight Z.Zfs unit.old).turns (cmd.Versions path.now) Told.Done }
    ensures ended { HasEnded (sight Z.Zfs unit.old) (sight Z.Zfs unit.new) result }
    ensures pruned { IsPruned (sight Z.Zfs unit.new) result }
    ensures rules { rules.new ≡ rules.old }
    ensures same_runner { unit.new.runner.ghost_name ≡ unit.old.runner.ghost_name }
{
    match doomed_names(alloc, unit, path, rules) {
        Ok(names) => destroy_all(alloc, unit, path, names.as_slice()),
        Err(_) => unit.out_of_memory(),
    }
}

/// Lists the unit's dataset and destroys, in the order of the listing, each snapshot with no holds that
/// no rule of the job keeps (zrepl's documentation, "Pruning Policies"), 64 by one destroy and the rest by the
/// last. The rules are those that `compile` gives for the job. Each name of a destroy that fails counts as busy,
/// and the unit goes on.
pub fn prune<Z: Zfs>(alloc: Global, unit: &mut Guarded<'_, Z>, rules: &mut Rules) -> Outcome
    requires begun { HasJustBegun (sight Z.Zfs unit.old) }
    requires rules { rules.old
        ≡ rules_of (sight Z.Zfs unit.old).jobs (sight Z.Zfs unit.old).unit.job }
    requires kind { IsPruneSource (sight Z.Zfs unit.old).unit.work }
    ensures ended { HasEnded (sight Z.Zfs unit.old) (sight Z.Zfs unit.new) result }
    ensures groups { DestroysInGroups (sight Z.Zfs unit.new) result }
    ensures alone { PrunesAlone (sight Z.Zfs unit.old) (sight Z.Zfs unit.new) result }
    ensures rules { rules.new ≡ rules.old }
    ensures same_runner { unit.new.runner.ghost_name ≡ unit.old.runner.ghost_name }
{
    let Ok(path) = own_path(unit) else {
        return unit.out_of_memory();
    };
    match list(unit, &path) {
        Told::Done => prune_listed(alloc, unit, &path, rules),
        Told::Failed => unit.ended(Told::Failed),
        Told::Garbled(line) => unit.ended(Told::Garbled(line)),
        Told::NoMemory => unit.ended(Told::NoMemory),
    }
}

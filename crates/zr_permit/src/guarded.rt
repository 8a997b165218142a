//! A unit at work: the one way to give a command, which asks the permission rule first.

use crate::log::Log;
use crate::told::Told;
use std::alloc::Global;
use zr_command::{Answer, Cmd};
use zr_jobset::JobSet;
use zr_names::{Outcome, Unit};
use zr_world::Zfs;

/// A unit at work with its runner. It gives only commands that it is allowed to give, and none once memory was refused to it.
#[derive(Drop)]
pub struct Guarded<'a, Z: Zfs> {
    alloc: Global,
    log: Log<'a>,
    runner: &'a mut Z,
    out_of_memory: bool,
}

/// A unit that could not begin for want of memory, and the runner.
#[derive(Drop)]
pub struct Unbegun<'a, Z> {
    pub unit: Unit,
    pub runner: &'a mut Z,
}

impl<'a, Z: Zfs> Guarded<'a, Z> {
    ghost use Rattle.std.specs.Prelude.{◌≡◌, ◌≢◌, ◌∷◌, [], IfOk, IfErr, List, Option, false, length};
    ghost use Rattle.zr_jobset.specs.Units.{IsOfFile};
    ghost use Rattle.zr_permit.specs.Result.{ended_as};
    ghost use Rattle.zr_permit.specs.Sight.{HasEnded, HasJustBegun, IsAtWork, sight, Went};
    ghost use Rattle.zr_permit.specs.Transcript.{Allowed, Legal};
    ghost use Rattle.std.specs.Option.{option_copied};
    ghost use Rattle.zr_permit.specs.Turned.{last_answer, IsRecordOf, IsRecordAfter, Turns, is_no_memory};
    ghost use Rattle.zr_world.specs.Answering.{appended};
    ghost use Rattle.zr_command.specs.declared.command.Entry.{Entry};
    ghost use Rattle.zr_command.specs.declared.command.Entry.TheVariants.{Begin};
    ghost use Rattle.zr_base.specs.Count.{Rose};

    /// Begins a run of a unit of the job file.
    pub fn begin(
        alloc: Global,
        unit: Unit,
        run: u64,
        jobs: &'a JobSet,
        runner: &'a mut Z,
    ) -> Result<Guarded<'a, Z>, Unbegun<'a, Z>>
        requires { IsOfFile jobs.now unit }
        ensures jobs { IfOk result (λ g. (sight Z.Zfs g).jobs ≡ jobs.now) }
        ensures unit { IfOk result (λ g. (sight Z.Zfs g).unit ≡ unit) }
        ensures begun { IfOk result (λ g. HasJustBegun (sight Z.Zfs g)) }
        ensures faults { IfOk result (λ g. (sight Z.Zfs g).faults ≡ Z.faults runner.entry.now) }
        ensures pools { IfOk result (λ g. (sight Z.Zfs g).pools ≡ Z.pools runner.entry.now) }
        ensures told { IfOk result
            (λ g. (sight Z.Zfs g).history
            ≡ appended (Z.history runner.entry.now) (Begin unit run ∷ [])) }
        ensures same_runner { IfOk result (λ g. g.runner.ghost_name ≡ runner.entry.ghost_name) }
        ensures unbegun { IfErr result (λ u. u.unit ≡ unit) }
        ensures unbegun_faults { IfErr result
            (λ u. Z.faults u.runner.now ≡ Z.faults runner.entry.now) }
        ensures unbegun_pools { IfErr result
            (λ u. Z.pools u.runner.now ≡ Z.pools runner.entry.now) }
        ensures unbegun_told { IfErr result
            (λ u. Z.history u.runner.now ≡ Z.history runner.entry.now) }
        ensures unbegun_same_runner { IfErr result
            (λ u. u.runner.ghost_name ≡ runner.entry.ghost_name) }
    {
        match runner.begin(&unit, run) {
            Ok(()) => Ok(Guarded {
                alloc,
                log: Log::new(alloc, jobs, unit),
                runner,
                out_of_memory: false,
            }),
            Err(_) => Err(Unbegun { unit, runner }),
        }
    }

    pub fn unit(&self) -> &Unit
        ensures { result.now ≡ (sight Z.Zfs self.now).unit }
    {
        self.log.unit()
    }

    pub fn jobs(&self) -> &'a JobSet
        ensures { result.now ≡ (sight Z.Zfs self.now).jobs }
    {
        self.log.jobs()
    }

    pub fn transcript(&self) -> &[(Cmd, Answer)]
        ensures turns { result.now ≡ (sight Z.Zfs self.now).turns }
        ensures legal { Legal (sight Z.Zfs self.now).jobs (sight Z.Zfs self.now).unit
            (sight Z.Zfs self.now).turns }
    {
        self.log.turns()
    }

    /// How the last command was answered.
    pub fn last(&self) -> Option<&Answer>
        ensures { option_copied result ≡ last_answer (sight Z.Zfs self.now).turns }
    {
        match self.log.turns().last() {
            Some((_, answer)) => Some(answer),
            None => None,
        }
    }

    /// How the unit ends where memory is refused between its commands.
    #[tactic(auto, using(crate::proofs::Ending::ended_memory))]
    pub fn out_of_memory(&self) -> Outcome
        requires at_work { IsAtWork (sight Z.Zfs self.now) }
        ensures outcome { result ≡ Outcome.NoMemory }
        ensures ended { HasEnded (sight Z.Zfs self.now) (sight Z.Zfs self.now) result }
    {
        Outcome::NoMemory
    }

    /// How the unit ends after a command that was not done, by its number.
    pub fn ended(&self, told: Told) -> Outcome
        requires { told ≢ Told.Done }
        ensures { result ≡ ended_as (length (sight Z.Zfs self.now).turns) told }
    {
        let number = u32::try_from(self.log.turns().len()).unwrap_or(u32::MAX);
        match told {
            Told::Done => unreachable!(),
            Told::Failed => Outcome::ChildFault(number),
            Told::Garbled(line) => Outcome::Garbled { at: number, line },
            Told::NoMemory => Outcome::NoMemory,
        }
    }

    /// Gives a command, and keeps it with its answer. Where no room is left for them no child is started.
    pub fn run(&mut self, cmd: Cmd) -> Told
        requires allowed { Allowed (sight Z.Zfs self.old).jobs (sight Z.Zfs self.old).unit
            (sight Z.Zfs self.old).turns cmd }
        requires memory { (sight Z.Zfs self.old).out_of_memory ≡ false }
        ensures went { Went (sight Z.Zfs self.old) (sight Z.Zfs self.new) }
        ensures turns { Turns (sight Z.Zfs self.old).turns (sight Z.Zfs self.new).turns cmd result }
        ensures memory { (sight Z.Zfs self.new).out_of_memory ≡ is_no_memory result }
        ensures rose { result ≡ Told.Failed
            → Rose (sight Z.Zfs self.old).faults (sight Z.Zfs self.new).faults }
        ensures records { (base : Option (List Entry))
            → IsRecordOf base (sight Z.Zfs self.old).history (sight Z.Zfs self.old).turns →
            IsRecordAfter base (sight Z.Zfs self.new).history (sight Z.Zfs self.old).turns
            (sight Z.Zfs self.new).turns cmd result }
        ensures same_runner { self.new.runner.ghost_name ≡ self.old.runner.ghost_name }
    {
        if self.log.make_room().is_err() {
            self.out_of_memory = true;
            // Let go here: at the early exit it would be proved again.
            drop(cmd);
            return Told::NoMemory;
        }
        let answer = self.runner.run(&cmd);
        let told = Told::of(&answer);
        self.out_of_memory = told.is_no_memory();
        self.log.note(cmd, answer);
        told
    }

    /// The unit has ended: its runner is given back.
    pub fn end(self) -> &'a mut Z
        ensures same { result.now ≡ self.entry.runner.now }
        ensures same_runner { result.ghost_name ≡ self.entry.runner.ghost_name }
    {
        let Guarded {
            runner,
            log: _,
            alloc: _,
            out_of_memory: _,
        } = self;
        runner
    }
}

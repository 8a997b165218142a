//! A replication at work: its unit, what it knows, and how it begins and ends. Its stages stand in the other files.

ghost use Rattle.std.specs.Prelude.{◌≡◌, ◌≢◌, [], IfOk, OnErr, OnOk, Some, true, count_by};
ghost use Rattle.zr_jobset.specs.Units.{IsOfFile};
ghost use Rattle.zr_known.specs.Known.{nothing_known, told_by};
ghost use Rattle.zr_known.specs.Replication.{MayGive};
ghost use Rattle.zr_known.specs.Straight.{IsFinished};
ghost use Rattle.zr_permit.specs.Result.{capped, is_done_transfer};
ghost use Rattle.zr_permit.specs.Sight.{HasEnded, HasJustBegun, sight};
ghost use Rattle.zr_permit.specs.Transcript.{Turn};
ghost use Rattle.zr_command.specs.declared.command.Answer.TheVariants.{Done};
ghost use Rattle.zr_command.specs.declared.command.Reply.TheVariants as reply;
ghost use Rattle.zr_replicate.specs.Progress.{AtWork, by_default, HasDone, HasEndedAs, HasTold, is_change, is_ready, Learnt};
ghost use Rattle.zr_replicate.specs.Progress.{progress, Stage};
ghost use Rattle.zr_replicate.specs.Outcomes.{either_of, finished_with, IsPairOf, IsReplicate};

use std::alloc::Global;
use zr_command::{Answer, Cmd};
use zr_jobs::Pair;
use zr_known::{Known, NOT_STRAIGHT};
use zr_names::{NoMemory, Outcome, Work};
use zr_permit::{Guarded, Told};
use zr_world::Zfs;

/// A replication at work. It lends all that it changes, since a struct that lends a `&mut` and owns memory loses, at its
/// end, what its caller knew of the lent value.
#[derive(Drop)]
pub(crate) struct Replication<'a, 'b, Z: Zfs> {
    pub(crate) alloc: Global,
    pub(crate) unit: &'a mut Guarded<'b, Z>,
    pub(crate) known: &'a mut Known,
}

/// Keeps what the last turn told.
fn learn<Z: Zfs>(
    alloc: Global,
    unit: &Guarded<'_, Z>,
    pair: &Pair,
    known: &mut Known,
) -> Result<(), NoMemory>
    ensures ok { OnOk result (Learnt pair.now (sight Z.Zfs unit.now).turns known.old known.new) }
    ensures err { OnErr result (known.new ≡ known.old) }
{
    match unit.transcript().last() {
        Some((cmd, answer)) => known.tell(alloc, pair, cmd, answer),
        None => Ok(()),
    }
}

impl<'a, 'b, Z: Zfs> Replication<'a, 'b, Z> {
    /// Gives a command that the unit may give, and keeps what it told. Where it was not done, the unit has ended.
    pub(crate) fn give(&mut self, pair: &Pair, cmd: Cmd) -> Result<(), Outcome>
        requires at_work { AtWork pair.now (progress Z.Zfs self.old) }
        requires may { MayGive pair.now self.old.known.now cmd }
        ensures stage { Stage pair.now (progress Z.Zfs self.old) (progress Z.Zfs self.new) result }
        ensures told { OnOk result
            (HasTold pair.now cmd (progress Z.Zfs self.old) (progress Z.Zfs self.new)) }
    {
        match self.unit.run(cmd) {
            Told::Done => match learn(self.alloc, self.unit, pair, self.known) {
                Ok(()) => Ok(()),
                Err(_) => Err(self.unit.out_of_memory()),
            },
            Told::Failed => Err(self.unit.ended(Told::Failed)),
            Told::Garbled(line) => Err(self.unit.ended(Told::Garbled(line))),
            Told::NoMemory => Err(self.unit.ended(Told::NoMemory)),
        }
    }

    /// Gives a command that changes something, and keeps what it told.
    pub(crate) fn change(&mut self, pair: &Pair, cmd: Cmd) -> Result<(), Outcome>
        requires at_work { AtWork pair.now (progress Z.Zfs self.old) }
        requires may { MayGive pair.now self.old.known.now cmd }
        requires changes { is_change cmd ≡ true }
        ensures stage { Stage pair.now (progress Z.Zfs self.old) (progress Z.Zfs self.new) result }
        ensures known { OnOk result (HasDone pair.now cmd self.old.known.now self.new.known.now) }
    {
        self.give(pair, cmd)
    }

    /// Whether the unit can replicate the pair: its job replicates as by default, and the pair is straight.
    fn is_ready(&self, pair: &Pair) -> bool
        ensures { result ≡ is_ready pair.now (progress Z.Zfs self.now) }
    {
        self.unit.jobs().has_default_policy(self.unit.unit().job) && self.known.is_straight(pair)
    }

    /// How the unit ends once it has brought its target up to date.
    #[tactic(auto, using(crate::proofs::Turning::finished_ended))]
    fn outcome(&self, _pair: &Pair) -> Outcome
        requires at_work { AtWork _pair.now (progress Z.Zfs self.now) }
        requires finished { IsFinished _pair.now self.now.known.now }
        requires by_default { by_default (progress Z.Zfs self.now) ≡ true }
        ensures { HasEndedAs (progress Z.Zfs self.now) (progress Z.Zfs self.now) result }
    {
        finished_with(done_transfers(self.unit.transcript()))
    }

    /// Replicates a pair. Nothing is changed where it is not straight, or its job does not replicate as by default.
    fn replicate_pair(&mut self, pair: &Pair) -> Result<Outcome, Outcome>
        requires at_work { AtWork pair.now (progress Z.Zfs self.old) }
        requires fresh { (progress Z.Zfs self.old).unit.turns ≡ [] }
        requires nothing { self.old.known.now ≡ nothing_known }
        ensures ended { HasEndedAs (progress Z.Zfs self.old) (progress Z.Zfs self.new)
            (either_of result) }
        ensures lent { self.new.unit.ghost_name ≡ self.old.unit.ghost_name }
    {
        self.list_everything(pair)?;
        if !self.is_ready(pair) {
            return Ok(Outcome::Conflict(NOT_STRAIGHT));
        }
        self.bring_up_to_date(pair)?;
        Ok(self.outcome(pair))
    }
}

/// What the unit replicates.
fn own_pair<Z: Zfs>(alloc: Global, unit: &Guarded<'_, Z>) -> Result<Pair, NoMemory>
    requires of_file { IsOfFile (sight Z.Zfs unit.now).jobs (sight Z.Zfs unit.now).unit }
    requires kind { IsReplicate (sight Z.Zfs unit.now).unit.work }
    ensures { IfOk result (IsPairOf (sight Z.Zfs unit.now).jobs (sight Z.Zfs unit.now).unit) }
{
    match &unit.unit().work {
        Work::Replicate(path) => unit.jobs().unit_pair(alloc, unit.unit(), path),
        _ => unreachable!(),
    }
}

fn is_done_transfer(cmd: &Cmd, answer: &Answer) -> bool
    ensures { result ≡ is_done_transfer cmd.now answer.now }
{
    matches!((cmd, answer), (Cmd::Transfer(_), Answer::Done(_)))
}

/// How many transfers were done.
fn done_transfers(turns: &[(Cmd, Answer)]) -> usize
    ensures { result ≡ count_by (λ (turn : Turn). is_done_transfer turn.0 turn.1) turns.now }
{
    let mut count = 0;
    for (cmd, answer) in turns {
        if is_done_transfer(cmd, answer) {
            count += 1;
        }
    }
    count
}

/// How a unit ends that has done so many transfers.
fn finished_with(steps: usize) -> Outcome
    ensures { result ≡ finished_with (capped steps) }
{
    let steps = u32::try_from(steps).unwrap_or(u32::MAX);
    if steps == 0 {
        Outcome::UpToDate
    } else {
        Outcome::Replicated(steps)
    }
}

/// The outcome, whether or not the unit ended early.
fn either_of(ended: Result<Outcome, Outcome>) -> Outcome
    ensures { result ≡ either_of ended }
{
    match ended {
        Ok(outcome) | Err(outcome) => outcome,
    }
}

/// Replicates the unit's dataset to its target: lists both, holds each snapshot that is to be sent, sends it in full or
/// from the cursor of the target's newest snapshot, and settles it, until the target has what the source has (zrepl's
/// documentation, "Replication"). What is not straight is left as it is, with
/// conflict 20, and so is what a job replicates in another way than by default.
pub fn replicate<Z: Zfs>(alloc: Global, unit: &mut Guarded<'_, Z>) -> Outcome
    requires begun { HasJustBegun (sight Z.Zfs unit.old) }
    requires of_file { IsOfFile (sight Z.Zfs unit.old).jobs (sight Z.Zfs unit.old).unit }
    requires kind { IsReplicate (sight Z.Zfs unit.old).unit.work }
    ensures ended { HasEnded (sight Z.Zfs unit.old) (sight Z.Zfs unit.new) result }
    ensures same_runner { unit.new.runner.ghost_name ≡ unit.old.runner.ghost_name }
{
    let Ok(pair) = own_pair(alloc, unit) else {
        return unit.out_of_memory();
    };
    let mut known = Known::new(alloc);
    let mut replication = Replication {
        alloc,
        unit,
        known: &mut known,
    };
    either_of(replication.replicate_pair(&pair))
}

//! The steps of a plan, one after another.

ghost use Rattle.std.specs.Prelude.{◌≡◌, IfOk, MatchOption, OnOk, Some};
ghost use Rattle.zr_known.specs.Deciding.{cursor_source, MakesCursor};
ghost use Rattle.zr_known.specs.Replication.{next_transfer, plan_known};
ghost use Rattle.zr_plan.specs.declared.target.Planned.TheVariants.{UpToDate};
ghost use Rattle.zr_replicate.specs.Steps.{AreFewerSteps, IsAtRest, IsReady, IsUntouched, newest_by, SameListings};
ghost use Rattle.zr_replicate.specs.Settlement.{IsAlone, IsSafe, MaySettle, OnlyMarks};
ghost use Rattle.zr_replicate.specs.Progress.{AtWork, progress, Stage};
ghost use Rattle.zr_command.specs.declared.version.VersionName.{VersionName};

use crate::replication::Replication;
use crate::settlement::Newest;
use std::alloc::AllocError;
use zr_command::{Transfer, VersionName};
use zr_jobs::Pair;
use zr_known::{Known, Presence};
use zr_names::{Outcome, Same};
use zr_world::Zfs;

/// What a transfer makes the newest snapshot of its target.
fn arriving(transfer: &Transfer) -> Result<Newest, AllocError>
    ensures newest { IfOk result (λ newest. newest ≡ newest_by transfer.now) }
{
    Ok(Newest {
        name: transfer.to.same()?,
        guid: transfer.guid,
    })
}

/// What the cursor of the newest snapshot is made from.
fn cursor_maker(
    known: &Known,
    pair: &Pair,
    newest: &Newest,
) -> Result<Option<VersionName>, AllocError>
    ensures first { IfOk result (λ from. from ≡ cursor_source pair.now known.now newest.now.guid) }
    ensures makes { IfOk result (λ maker. MatchOption maker
        ((version : VersionName) → MakesCursor pair.now known.now newest.now.guid version → ⊥)
        (λ version. MakesCursor pair.now known.now newest.now.guid version)) }
{
    match known.cursor_source(pair, newest.guid) {
        Some(version) => Ok(Some(version.same()?)),
        None => Ok(None),
    }
}

impl<'a, 'b, Z: Zfs> Replication<'a, 'b, Z> {
    /// Settles what has arrived. Where several source snapshots have its guid, its cursor is made from the first in the listing,
    /// whichever of them was sent.
    fn settle_arrived(&mut self, pair: &Pair, newest: &Newest) -> Result<(), Outcome>
        requires at_work { AtWork pair.now (progress Z.Zfs self.old) }
        requires may { MaySettle pair.now self.old.known.now newest.now }
        ensures stage { Stage pair.now (progress Z.Zfs self.old) (progress Z.Zfs self.new) result }
        ensures safe { OnOk result (IsSafe pair.now self.new.known.now newest.now) }
        ensures alone { OnOk result (IsAlone pair.now self.new.known.now newest.now) }
        ensures only { OnOk result (OnlyMarks self.old.known.now self.new.known.now) }
    {
        match cursor_maker(self.known, pair, newest) {
            Ok(Some(version)) => self.settle(pair, newest, &version),
            Ok(None) => unreachable!(),
            Err(_) => Err(self.unit.out_of_memory()),
        }
    }

    /// One step: its snapshot is held, sent, and settled.
    fn step(&mut self, pair: &Pair, transfer: Transfer) -> Result<(), Outcome>
        requires at_work { AtWork pair.now (progress Z.Zfs self.old) }
        requires ready { IsReady pair.now self.old.known.now }
        requires next { next_transfer pair.now self.old.known.now ≡ Some transfer }
        ensures stage { Stage pair.now (progress Z.Zfs self.old) (progress Z.Zfs self.new) result }
        ensures rests { OnOk result (IsAtRest pair.now self.new.known.now) }
        ensures same { OnOk result (SameListings self.old.known.now self.new.known.now) }
        ensures fewer { OnOk result (AreFewerSteps pair.now self.old.known.now self.new.known.now) }
    {
        let Ok(newest) = arriving(&transfer) else {
            return Err(self.unit.out_of_memory());
        };
        self.hold_step(pair, &newest.name)?;
        self.send(pair, transfer)?;
        self.settle_arrived(pair, &newest)
    }

    /// The first step, onto a target that is not there yet.
    fn first_step(&mut self, pair: &Pair) -> Result<(), Outcome>
        requires at_work { AtWork pair.now (progress Z.Zfs self.old) }
        requires untouched { IsUntouched self.old.known.now }
        ensures stage { Stage pair.now (progress Z.Zfs self.old) (progress Z.Zfs self.new) result }
        ensures rests { OnOk result (IsAtRest pair.now self.new.known.now) }
        ensures same { OnOk result (SameListings self.old.known.now self.new.known.now) }
    {
        match self.known.next_transfer(self.alloc, pair) {
            Ok(Some(transfer)) => self.step(pair, transfer),
            Ok(None) => unreachable!(),
            Err(_) => Err(self.unit.out_of_memory()),
        }
    }

    /// Steps until the target is up to date. Each is planned by what is known after the one before it.
    fn all_steps(&mut self, pair: &Pair) -> Result<(), Outcome>
        requires at_work { AtWork pair.now (progress Z.Zfs self.old) }
        requires rests { IsAtRest pair.now self.old.known.now }
        ensures stage { Stage pair.now (progress Z.Zfs self.old) (progress Z.Zfs self.new) result }
        ensures rests { OnOk result (IsAtRest pair.now self.new.known.now) }
        ensures same { OnOk result (SameListings self.old.known.now self.new.known.now) }
        ensures up_to_date { OnOk result (plan_known pair.now self.new.known.now ≡ Some UpToDate) }
    {
        loop {
            match self.known.next_transfer(self.alloc, pair) {
                Ok(Some(transfer)) => self.step(pair, transfer)?,
                Ok(None) => return Ok(()),
                Err(_) => return Err(self.unit.out_of_memory()),
            }
        }
    }

    /// Replicates what the source has more than the target.
    pub(crate) fn bring_up_to_date(&mut self, pair: &Pair) -> Result<(), Outcome>
        requires at_work { AtWork pair.now (progress Z.Zfs self.old) }
        requires ready { IsReady pair.now self.old.known.now }
        ensures stage { Stage pair.now (progress Z.Zfs self.old) (progress Z.Zfs self.new) result }
        ensures rests { OnOk result (IsAtRest pair.now self.new.known.now) }
        ensures same { OnOk result (SameListings self.old.known.now self.new.known.now) }
        ensures up_to_date { OnOk result (plan_known pair.now self.new.known.now ≡ Some UpToDate) }
    {
        if !matches!(self.known.presence, Presence::Absent) {
            return self.all_steps(pair);
        }
        self.first_step(pair)?;
        self.all_steps(pair)
    }
}

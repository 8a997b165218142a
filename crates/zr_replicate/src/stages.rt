//! One command each: what it wants, and what is known after it.

ghost use Rattle.std.specs.Prelude.{◌≡◌, ◌++◌, ◌∷◌, [], OnOk, false, filter, not, true};
ghost use Rattle.zr_command.specs.Kinds.{kind_in};
ghost use Rattle.zr_known.specs.Known.{arrival, is_own_kind, is_row_of, presence_after, set_among, with_last_held, with_step_held, without_name};
ghost use Rattle.zr_known.specs.Replication.{MayDestroyMark, MayHoldLast, MayHoldStep, MayMark, MayReleaseLast, MayReleaseStep, MayTransfer};
ghost use Rattle.zr_known.specs.declared.known.Receiving.TheVariants.{Nothing};
ghost use Rattle.zr_replicate.specs.Progress.{AtWork, HasArrived, IsMarked, IsUnmarked, LastHoldIs, progress, Stage, StepHoldIs};
ghost use Rattle.zr_command.specs.declared.version.VersionName.TheVariants.{Mark};

use crate::commands;
use crate::replication::Replication;
use zr_command::{Cmd, Transfer, VersionName};
use zr_jobs::Pair;
use zr_names::{MarkName, Outcome, SnapName};
use zr_world::Zfs;

impl<'a, 'b, Z: Zfs> Replication<'a, 'b, Z> {
    /// Puts the job's step hold on a source snapshot.
    pub(crate) fn hold_step(&mut self, pair: &Pair, name: &SnapName) -> Result<(), Outcome>
        requires at_work { AtWork pair.now (progress Z.Zfs self.old) }
        requires may { MayHoldStep self.old.known.now name.now }
        ensures stage { Stage pair.now (progress Z.Zfs self.old) (progress Z.Zfs self.new) result }
        ensures known { OnOk result
            (StepHoldIs true name.now self.old.known.now self.new.known.now) }
    {
        match commands::step_hold(pair, name) {
            Ok(cmd) => self.change(pair, cmd),
            Err(_) => Err(self.unit.out_of_memory()),
        }
    }

    /// Puts the job's last-received hold on the target's newest snapshot.
    pub(crate) fn hold_last(&mut self, pair: &Pair, name: &SnapName) -> Result<(), Outcome>
        requires at_work { AtWork pair.now (progress Z.Zfs self.old) }
        requires may { MayHoldLast pair.now self.old.known.now name.now }
        ensures stage { Stage pair.now (progress Z.Zfs self.old) (progress Z.Zfs self.new) result }
        ensures known { OnOk result
            (LastHoldIs true name.now self.old.known.now self.new.known.now) }
    {
        match commands::last_hold(pair, name) {
            Ok(cmd) => self.change(pair, cmd),
            Err(_) => Err(self.unit.out_of_memory()),
        }
    }

    /// Takes the job's last-received hold off a snapshot of the target.
    pub(crate) fn release_last(&mut self, pair: &Pair, name: &SnapName) -> Result<(), Outcome>
        requires at_work { AtWork pair.now (progress Z.Zfs self.old) }
        requires may { MayReleaseLast self.old.known.now name.now }
        ensures stage { Stage pair.now (progress Z.Zfs self.old) (progress Z.Zfs self.new) result }
        ensures known { OnOk result
            (LastHoldIs false name.now self.old.known.now self.new.known.now) }
    {
        match commands::last_release(pair, name) {
            Ok(cmd) => self.change(pair, cmd),
            Err(_) => Err(self.unit.out_of_memory()),
        }
    }

    /// Takes the job's step hold off a source snapshot.
    pub(crate) fn release_step(&mut self, pair: &Pair, name: &SnapName) -> Result<(), Outcome>
        requires at_work { AtWork pair.now (progress Z.Zfs self.old) }
        requires may { MayReleaseStep pair.now self.old.known.now name.now }
        ensures stage { Stage pair.now (progress Z.Zfs self.old) (progress Z.Zfs self.new) result }
        ensures known { OnOk result
            (StepHoldIs false name.now self.old.known.now self.new.known.now) }
    {
        match commands::step_release(pair, name) {
            Ok(cmd) => self.change(pair, cmd),
            Err(_) => Err(self.unit.out_of_memory()),
        }
    }

    /// Destroys a mark of the job on the source.
    pub(crate) fn destroy_mark(&mut self, pair: &Pair, name: &MarkName) -> Result<(), Outcome>
        requires at_work { AtWork pair.now (progress Z.Zfs self.old) }
        requires may { MayDestroyMark pair.now self.old.known.now name.now }
        ensures stage { Stage pair.now (progress Z.Zfs self.old) (progress Z.Zfs self.new) result }
        ensures known { OnOk result (IsUnmarked name.now self.old.known.now self.new.known.now) }
    {
        match commands::destroy_mark(pair, name) {
            Ok(cmd) => self.change(pair, cmd),
            Err(_) => Err(self.unit.out_of_memory()),
        }
    }

    /// Makes the cursor of the target's newest snapshot.
    pub(crate) fn make_cursor(
        &mut self,
        pair: &Pair,
        version: &VersionName,
        name: &MarkName,
    ) -> Result<(), Outcome>
        requires at_work { AtWork pair.now (progress Z.Zfs self.old) }
        requires own { is_own_kind (kind_in pair.now.job (Mark name.now)) ≡ true }
        requires may { MayMark pair.now self.old.known.now version.now name.now }
        ensures stage { Stage pair.now (progress Z.Zfs self.old) (progress Z.Zfs self.new) result }
        ensures known { OnOk result
            (IsMarked version.now name.now self.old.known.now self.new.known.now) }
    {
        match commands::bookmark(pair, version, name) {
            Ok(cmd) => self.change(pair, cmd),
            Err(_) => Err(self.unit.out_of_memory()),
        }
    }

    /// Sends a snapshot to the target.
    pub(crate) fn send(&mut self, pair: &Pair, transfer: Transfer) -> Result<(), Outcome>
        requires at_work { AtWork pair.now (progress Z.Zfs self.old) }
        requires may { MayTransfer pair.now self.old.known.now transfer }
        ensures stage { Stage pair.now (progress Z.Zfs self.old) (progress Z.Zfs self.new) result }
        ensures known { OnOk result (HasArrived transfer self.old.known.now self.new.known.now) }
    {
        self.change(pair, Cmd::Transfer(transfer))
    }
}

//! Settling the target's newest snapshot: first what keeps it, then what is no longer wanted.

ghost use Rattle.std.specs.Prelude.{◌≡◌, ◌≢◌, ◌&&◌, [], IfOk, MatchOption, OnOk, true, false, find, not, slice_get};
ghost use Rattle.std.specs.List.{list_all};
ghost use Rattle.std.specs.Option.{option_copied};
ghost use Rattle.zr_names.specs.Marks.{cursor_text, mark_kind};
ghost use Rattle.zr_names.specs.declared.marks.MarkKind.TheVariants.{Cursor};
ghost use Rattle.zr_command.specs.Kinds.{is_cursor_of, kind_in};
ghost use Rattle.zr_known.specs.Known.{is_among};
ghost use Rattle.zr_replicate.specs.Settlement.{first_other, HasCursor, HasNoOtherHold, HasNoOtherMark, is_any_cursor, is_bookmark, is_other_cursor, IsAlone, IsOtherMark, IsOtherName, IsSafe, OnlyItsMarks, OnlyLastHolds, OnlyMarks, OnlyStepHolds, SettlesFrom};
ghost use Rattle.zr_replicate.specs.Progress.{AtWork, progress, Stage};
ghost use Rattle.zr_command.specs.Names.{same_text};

use crate::replication::Replication;
use std::alloc::{AllocError, Global};
use zr_command::{VersionName, VersionRow, is_cursor_of, kind_in};
use zr_jobs::Pair;
use zr_known::Known;
use zr_names::{Guid, JobName, MarkKind, MarkName, NoMemory, Outcome, Same, SnapName, cursor_name};
use zr_world::Zfs;

/// The target's newest snapshot.
#[derive(Drop)]
pub(crate) struct Newest {
    pub(crate) name: SnapName,
    pub(crate) guid: Guid,
}

/// The name of the job's cursor of a guid.
fn cursor_of(alloc: Global, guid: Guid, job: &JobName) -> Result<MarkName, NoMemory>
    ensures name { IfOk result (λ name. name ≡ cursor_text guid.0 job.now) }
    ensures kind { IfOk result (λ name. mark_kind name job.now ≡ Cursor guid) }
{
    cursor_name(alloc, guid, job)
}

impl<'a, 'b, Z: Zfs> Replication<'a, 'b, Z> {
    /// Makes the cursor of the newest snapshot, where it is not there.
    fn make_missing_cursor(
        &mut self,
        pair: &Pair,
        newest: &Newest,
        version: &VersionName,
    ) -> Result<(), Outcome>
        requires at_work { AtWork pair.now (progress Z.Zfs self.old) }
        requires may { SettlesFrom pair.now self.old.known.now newest.now version.now }
        ensures stage { Stage pair.now (progress Z.Zfs self.old) (progress Z.Zfs self.new) result }
        ensures cursor { OnOk result (HasCursor pair.now self.new.known.now newest.now) }
        ensures only { OnOk result (OnlyItsMarks self.old.known.now self.new.known.now) }
    {
        match cursor_of(self.alloc, newest.guid, &pair.job) {
            Ok(name) if self.known.has_mark(&name) => Ok(()),
            Ok(name) => self.make_cursor(pair, version, &name),
            Err(_) => Err(self.unit.out_of_memory()),
        }
    }

    /// Puts the last-received hold on the newest snapshot, where it is not there.
    fn hold_missing_last(&mut self, pair: &Pair, newest: &Newest) -> Result<(), Outcome>
        requires at_work { AtWork pair.now (progress Z.Zfs self.old) }
        requires may { HasCursor pair.now self.old.known.now newest.now }
        ensures stage { Stage pair.now (progress Z.Zfs self.old) (progress Z.Zfs self.new) result }
        ensures safe { OnOk result (IsSafe pair.now self.new.known.now newest.now) }
        ensures only { OnOk result (OnlyLastHolds self.old.known.now self.new.known.now) }
    {
        if self.known.is_last_held(&newest.name) {
            Ok(())
        } else {
            self.hold_last(pair, &newest.name)
        }
    }
}
/// The first name that is another.
fn first_other_name<'a>(names: &'a [SnapName], name: &SnapName) -> Option<&'a SnapName>
    ensures { option_copied result ≡ find (λ other. not (same_text other name.now)) names.now }
{
    names.iter().find(|other| **other != *name)
}

/// The next snapshot of the target to lose its last-received hold.
fn other_last(known: &Known, newest: &Newest) -> Result<Option<SnapName>, AllocError>
    ensures { IfOk result (λ other. MatchOption other
        (list_all (λ other. same_text other newest.now.name) known.now.target.held ≡ true)
        (IsOtherName known.now.target.held newest.now.name)) }
{
    match first_other_name(known.target.held.as_slice(), &newest.name) {
        Some(name) => Ok(Some(name.same()?)),
        None => Ok(None),
    }
}

impl<'a, 'b, Z: Zfs> Replication<'a, 'b, Z> {
    /// Takes the last-received hold off every other snapshot of the target.
    fn release_other_last(&mut self, pair: &Pair, newest: &Newest) -> Result<(), Outcome>
        requires at_work { AtWork pair.now (progress Z.Zfs self.old) }
        requires safe { IsSafe pair.now self.old.known.now newest.now }
        ensures stage { Stage pair.now (progress Z.Zfs self.old) (progress Z.Zfs self.new) result }
        ensures safe { OnOk result (IsSafe pair.now self.new.known.now newest.now) }
        ensures alone { OnOk result (HasNoOtherHold newest.now self.new.known.now) }
        ensures only { OnOk result (OnlyLastHolds self.old.known.now self.new.known.now) }
    {
        loop {
            match other_last(self.known, newest) {
                Ok(Some(name)) => self.release_last(pair, &name)?,
                Ok(None) => return Ok(()),
                Err(_) => return Err(self.unit.out_of_memory()),
            }
        }
    }
}

fn is_any_cursor(kind: MarkKind) -> bool
    ensures { result ≡ is_any_cursor kind }
{
    matches!(kind, MarkKind::Cursor(_))
}

/// A cursor of the job that is not the one of a guid.
fn other_cursor<'a>(marks: &'a [VersionRow], job: &JobName, guid: Guid) -> Option<&'a VersionRow>
    ensures { option_copied result ≡ find (is_other_cursor job.now guid) marks.now }
{
    marks.iter().find(|row| is_any_cursor(kind_in(&row.name, job)) && !is_cursor_of(row, job, guid))
}

/// A mark that is not the job's cursor of a guid.
fn any_other<'a>(marks: &'a [VersionRow], job: &JobName, guid: Guid) -> Option<&'a VersionRow>
    ensures { option_copied result ≡ find (λ row. not (is_cursor_of job.now guid row)) marks.now }
{
    marks.iter().find(|row| !is_cursor_of(row, job, guid))
}

/// The first mark that is not the job's cursor of a guid: cursors come before tentative cursors.
fn first_other<'a>(marks: &'a [VersionRow], job: &JobName, guid: Guid) -> Option<&'a VersionRow>
    ensures { option_copied result ≡ first_other job.now guid marks.now }
{
    if let Some(row) = other_cursor(marks, job, guid) {
        Some(row)
    } else {
        any_other(marks, job, guid)
    }
}

/// The next mark of the job on the source to go.
fn other_mark(known: &Known, pair: &Pair, newest: &Newest) -> Result<Option<MarkName>, AllocError>
    requires { list_all is_bookmark known.now.marks ≡ true }
    ensures { IfOk result (λ other. MatchOption other
        (list_all (is_cursor_of pair.now.job newest.now.guid) known.now.marks ≡ true)
        (IsOtherMark pair.now known.now newest.now)) }
{
    match first_other(known.marks.as_slice(), &pair.job, newest.guid) {
        Some(row) => match &row.name {
            VersionName::Mark(name) => Ok(Some(name.same()?)),
            VersionName::Snap(_) => unreachable!(),
        },
        None => Ok(None),
    }
}

impl<'a, 'b, Z: Zfs> Replication<'a, 'b, Z> {
    /// Destroys every other mark of the job on the source.
    fn destroy_other_marks(&mut self, pair: &Pair, newest: &Newest) -> Result<(), Outcome>
        requires at_work { AtWork pair.now (progress Z.Zfs self.old) }
        requires safe { IsSafe pair.now self.old.known.now newest.now }
        ensures stage { Stage pair.now (progress Z.Zfs self.old) (progress Z.Zfs self.new) result }
        ensures safe { OnOk result (IsSafe pair.now self.new.known.now newest.now) }
        ensures alone { OnOk result (HasNoOtherMark pair.now newest.now self.new.known.now) }
        ensures only { OnOk result (OnlyItsMarks self.old.known.now self.new.known.now) }
    {
        loop {
            match other_mark(self.known, pair, newest) {
                Ok(Some(name)) => self.destroy_mark(pair, &name)?,
                Ok(None) => return Ok(()),
                Err(_) => return Err(self.unit.out_of_memory()),
            }
        }
    }
}

fn first_name(names: &[SnapName]) -> Option<&SnapName>
    ensures { option_copied result ≡ slice_get names.now 0 }
{
    names.first()
}

/// The next source snapshot to lose its step hold.
fn held_step(known: &Known) -> Result<Option<SnapName>, AllocError>
    ensures { IfOk result (λ held. MatchOption held (known.now.source.held ≡ [])
        (λ name. is_among known.now.source.held name ≡ true)) }
{
    match first_name(known.source.held.as_slice()) {
        Some(name) => Ok(Some(name.same()?)),
        None => Ok(None),
    }
}

impl<'a, 'b, Z: Zfs> Replication<'a, 'b, Z> {
    /// Takes the job's step holds off the source.
    fn release_steps(&mut self, pair: &Pair, newest: &Newest) -> Result<(), Outcome>
        requires at_work { AtWork pair.now (progress Z.Zfs self.old) }
        requires safe { IsSafe pair.now self.old.known.now newest.now }
        ensures stage { Stage pair.now (progress Z.Zfs self.old) (progress Z.Zfs self.new) result }
        ensures safe { OnOk result (IsSafe pair.now self.new.known.now newest.now) }
        ensures alone { OnOk result (self.new.known.now.source.held ≡ []) }
        ensures only { OnOk result (OnlyStepHolds self.old.known.now self.new.known.now) }
    {
        loop {
            match held_step(self.known) {
                Ok(Some(name)) => self.release_step(pair, &name)?,
                Ok(None) => return Ok(()),
                Err(_) => return Err(self.unit.out_of_memory()),
            }
        }
    }

    /// Settles the newest snapshot: its cursor and its last-received hold come first, then the other last-received holds, the
    /// other marks of the job and its step holds go.
    pub(crate) fn settle(
        &mut self,
        pair: &Pair,
        newest: &Newest,
        version: &VersionName,
    ) -> Result<(), Outcome>
        requires at_work { AtWork pair.now (progress Z.Zfs self.old) }
        requires may { SettlesFrom pair.now self.old.known.now newest.now version.now }
        ensures stage { Stage pair.now (progress Z.Zfs self.old) (progress Z.Zfs self.new) result }
        ensures safe { OnOk result (IsSafe pair.now self.new.known.now newest.now) }
        ensures alone { OnOk result (IsAlone pair.now self.new.known.now newest.now) }
        ensures only { OnOk result (OnlyMarks self.old.known.now self.new.known.now) }
    {
        self.make_missing_cursor(pair, newest, version)?;
        self.hold_missing_last(pair, newest)?;
        self.release_other_last(pair, newest)?;
        self.destroy_other_marks(pair, newest)?;
        self.release_steps(pair, newest)
    }
}

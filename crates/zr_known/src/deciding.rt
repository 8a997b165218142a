//! Whether a replication may give a command, by what it knows: each line of the permission rule as
//! a test.

ghost use Rattle.std.specs.Prelude.{◌≡◌, ◌==◌, ◌&&◌, ◌||◌, ◌++◌, Some, Decides};
ghost use Rattle.std.specs.List.{list_any};
ghost use Rattle.std.specs.Option.{option_copied};
ghost use Rattle.zr_names.specs.Marks.{cursor_text};
ghost use Rattle.zr_command.specs.Kinds.{newest};
ghost use Rattle.zr_command.specs.Names.{same_text};
ghost use Rattle.zr_command.specs.declared.version.VersionName.TheVariants.{Snap};
ghost use Rattle.zr_known.specs.Known.{is_row_of};

use crate::known::{Known, Receiving, Side};
use crate::versions::{has_cursor, has_mark, has_snap, is_among, is_snap_named};
use zr_command::{SetRow, VersionName, VersionRow, is_cursor, newest};
use zr_jobs::Pair;
use zr_names::{Guid, JobName, MarkName, Path, SnapName, mark_of};

/// Whether a row is the snapshot of this name, and its holds are known.
fn has_known_holds(row: &VersionRow, name: &SnapName, asked: bool) -> bool
    ensures { result ≡ (is_row_of (Snap name.now) row.now && ((row.now.refs == 0) || asked)) }
{
    is_snap_named(row, name) && (row.refs == 0 || asked)
}

/// Whether a listing has the snapshot of this name, with holds that are known.
fn lists_known_holds(rows: &[VersionRow], name: &SnapName, asked: bool) -> bool
    ensures { result ≡
        list_any (λ row. is_row_of (Snap name.now) row && ((row.refs == 0) || asked)) rows.now }
{
    rows.iter().any(|row| has_known_holds(row, name, asked))
}

/// Whether a mark's name is that of the job's cursor of a guid.
fn is_cursor_text(name: &MarkName, guid: Guid, job: &JobName) -> bool
    ensures { Decides result (name.now ≡ cursor_text guid.0 job.now) }
{
    is_cursor(mark_of(name, job), guid)
}

/// Whether what goes is the job's cursor of a guid.
fn goes_cursor(goes: Option<&MarkName>, guid: Guid, job: &JobName) -> bool
    ensures { Decides result (option_copied goes.entry ≡ Some (cursor_text guid.0 job.now)) }
{
    match goes {
        Some(name) => is_cursor_text(name, guid, job),
        None => false,
    }
}

pub(crate) fn shows_path(sets: &[SetRow], path: &Path) -> bool
    ensures { result ≡ list_any (λ row. same_text row.path path.now) sets.now }
{
    sets.iter().any(|row| row.path == *path)
}

/// The newest snapshot of a listing and of what arrived since.
#[tactic(auto, using(crate::proofs::Knowing::newest_append))]
fn newest_of<'a>(listing: &'a [VersionRow], arrived: &'a [VersionRow]) -> Option<&'a VersionRow>
    ensures { option_copied result ≡ newest (listing.now ++ arrived.now) }
{
    if let Some(row) = newest(arrived) {
        Some(row)
    } else {
        newest(listing)
    }
}

impl Side {
    ghost use Rattle.std.specs.Prelude.{Decides};
    ghost use Rattle.zr_known.specs.Replication.{Shows};

    /// Whether its last listing shows a snapshot.
    fn shows(&self, name: &SnapName) -> bool
        ensures { Decides result (Shows self.now.listing name.now) }
    {
        has_snap(self.rows(), name)
    }
}

impl Known {
    ghost use Rattle.std.specs.Prelude.{◌≡◌, [], Decides};
    ghost use Rattle.std.specs.List.{list_any};
    ghost use Rattle.std.specs.Option.{option_copied, option_map_or};
    ghost use Rattle.zr_command.specs.Kinds.{is_cursor_of};
    ghost use Rattle.zr_command.specs.declared.version.VersionName.TheVariants.{Mark};
    ghost use Rattle.zr_known.specs.Deciding.{IsSettledBeside, ListsHolds};
    ghost use Rattle.zr_known.specs.Known.{is_among, is_row_of};
    ghost use Rattle.zr_known.specs.Replication.{HasNone, MayClear, MayDestroyMark, MayHoldLast, MayHoldStep, MayReleaseLast, MayReleaseStep, newest_known, NewestIsSafe, Shows, ShowsSet};

    /// The target's newest snapshot, where its versions are known.
    pub fn newest(&self) -> Option<&VersionRow>
        ensures { option_copied result ≡ newest_known self.now }
    {
        let Some(arrived) = &self.arrived else {
            return None;
        };
        newest_of(self.target.rows(), arrived.as_slice())
    }

    /// Whether a bookmark is one of the job's marks on the source.
    pub fn has_mark(&self, name: &MarkName) -> bool
        ensures { result ≡ list_any (is_row_of (Mark name.now)) self.now.marks }
    {
        has_mark(self.marks.as_slice(), name)
    }

    /// Whether the job's cursor of a guid is on the source.
    pub fn knows_cursor(&self, pair: &Pair, guid: Guid) -> bool
        ensures { result ≡ list_any (is_cursor_of pair.now.job guid) self.now.marks }
    {
        has_cursor(self.marks.as_slice(), &pair.job, guid)
    }

    /// Whether a source snapshot has the job's step hold.
    pub fn is_step_held(&self, name: &SnapName) -> bool
        ensures { result ≡ is_among self.now.source.held name.now }
    {
        is_among(self.source.held.as_slice(), name)
    }

    /// Whether a snapshot of the target has the job's last-received hold.
    pub fn is_last_held(&self, name: &SnapName) -> bool
        ensures { result ≡ is_among self.now.target.held name.now }
    {
        is_among(self.target.held.as_slice(), name)
    }

    /// Whether the last listing of the datasets shows this one.
    pub fn shows_set(&self, path: &Path) -> bool
        ensures { Decides result (ShowsSet self.now path.now) }
    {
        match &self.sets {
            Some(sets) => shows_path(sets.as_slice(), path),
            None => false,
        }
    }

    /// Whether the source's last listing shows a snapshot.
    pub fn shows_source(&self, name: &SnapName) -> bool
        ensures { Decides result (Shows self.now.source.listing name.now) }
    {
        self.source.shows(name)
    }

    /// Whether the target's last listing shows a snapshot.
    pub fn shows_target(&self, name: &SnapName) -> bool
        ensures { Decides result (Shows self.now.target.listing name.now) }
    {
        self.target.shows(name)
    }

    /// Whether a source snapshot is listed, and its holds are known.
    fn lists_holds(&self, name: &SnapName) -> bool
        ensures { Decides result (ListsHolds self.now name.now) }
    {
        let asked = is_among(self.source.asked.as_slice(), name);
        lists_known_holds(self.source.rows(), name, asked)
    }

    /// Whether the step hold may be put on a source snapshot.
    pub fn may_hold_step(&self, name: &SnapName) -> bool
        ensures { Decides result (MayHoldStep self.now name.now) }
    {
        self.lists_holds(name) && !self.is_step_held(name)
    }

    /// Whether the last-received hold may be put on a snapshot of the target.
    pub fn may_hold_last(&self, pair: &Pair, name: &SnapName) -> bool
        ensures { Decides result (MayHoldLast pair.now self.now name.now) }
    {
        let Some(last) = self.newest() else {
            return false;
        };
        let asked = is_among(self.target.asked.as_slice(), name);
        has_known_holds(last, name, asked)
            && self.knows_cursor(pair, last.guid)
            && !self.is_last_held(name)
    }

    /// Whether the last-received hold of a snapshot may be released.
    pub fn may_release_last(&self, name: &SnapName) -> bool
        ensures { Decides result (MayReleaseLast self.now name.now) }
    {
        let Some(last) = self.newest() else {
            return false;
        };
        match &last.name {
            VersionName::Snap(newest) => {
                *name != *newest && self.is_last_held(name) && self.is_last_held(newest)
            }
            VersionName::Mark(_) => false,
        }
    }

    /// Whether the target is known to have no snapshot.
    fn has_none(&self) -> bool
        ensures { Decides result (HasNone self.now) }
    {
        self.arrived.is_some() && self.newest().is_none()
    }

    /// Whether the target's newest snapshot has its cursor, which is not this mark, and its last-received hold.
    fn is_settled_beside(&self, pair: &Pair, goes: Option<&MarkName>) -> bool
        ensures { Decides result (IsSettledBeside pair.now self.now (option_copied goes.entry)) }
    {
        let Some(last) = self.newest() else {
            return false;
        };
        match &last.name {
            VersionName::Snap(name) => {
                self.knows_cursor(pair, last.guid)
                    && self.is_last_held(name)
                    && !goes_cursor(goes, last.guid, &pair.job)
            }
            VersionName::Mark(_) => false,
        }
    }

    /// Whether the source may be cleaned up: of this mark, or of a hold.
    fn may_clear(&self, pair: &Pair, goes: Option<&MarkName>) -> bool
        ensures { Decides result (MayClear pair.now self.now (option_copied goes.entry)) }
    {
        matches!(self.receiving, Receiving::Nothing)
            && ((self.has_none() && self.shows_set(&pair.root))
                || self.is_settled_beside(pair, goes))
    }

    /// Whether a mark of the job on the source may be destroyed.
    pub fn may_destroy_mark(&self, pair: &Pair, name: &MarkName) -> bool
        ensures { Decides result (MayDestroyMark pair.now self.now name.now) }
    {
        self.has_mark(name) && self.may_clear(pair, Some(name))
    }

    /// Whether the step hold of a source snapshot may be released.
    pub fn may_release_step(&self, pair: &Pair, name: &SnapName) -> bool
        ensures { Decides result (MayReleaseStep pair.now self.now name.now) }
    {
        self.is_step_held(name) && self.may_clear(pair, None)
    }

    /// Whether the target has no snapshot that is known, or its newest one has its cursor and its last-received hold.
    pub fn newest_is_safe(&self, pair: &Pair) -> bool
        ensures { Decides result (NewestIsSafe pair.now self.now) }
    {
        self.newest().is_none() || self.is_settled_beside(pair, None)
    }
}

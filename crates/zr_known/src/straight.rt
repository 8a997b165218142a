//! When a pair is straight, when all was listed, and when nothing is left to settle.

ghost use Rattle.std.specs.Prelude.{◌≡◌};
ghost use Rattle.std.specs.List.{list_all};
ghost use Rattle.zr_command.specs.Kinds.{is_cursor_of};
ghost use Rattle.zr_command.specs.Names.{same_text};
ghost use Rattle.zr_known.specs.Straight.{has_known_holds, has_listed_holds, is_absent, is_none_receiving};

use crate::deciding::shows_path;
use crate::known::{Known, Presence, Receiving, Side};
use crate::sending::is_there;
use crate::versions::is_among;
use zr_command::{VersionName, VersionRow, is_cursor_of, newest};
use zr_jobs::Pair;
use zr_names::{Guid, JobName, SnapName};

/// The number of the conflict of a pair that is not straight.
pub const NOT_STRAIGHT: u8 = 20;

/// Whether the holds of a version are known, where those of these snapshots were listed.
fn has_known_holds(row: &VersionRow, asked: &[SnapName]) -> bool
    ensures { result ≡ has_known_holds asked.now row.now }
{
    match &row.name {
        VersionName::Snap(name) => row.refs == 0 || is_among(asked, name),
        VersionName::Mark(_) => true,
    }
}

fn all_known_holds(rows: &[VersionRow], asked: &[SnapName]) -> bool
    ensures { result ≡ list_all (has_known_holds asked.now) rows.now }
{
    rows.iter().all(|row| has_known_holds(row, asked))
}

fn all_cursors(marks: &[VersionRow], job: &JobName, guid: Guid) -> bool
    ensures { result ≡ list_all (is_cursor_of job.now guid) marks.now }
{
    marks.iter().all(|row| is_cursor_of(row, job, guid))
}

fn all_named(names: &[SnapName], name: &SnapName) -> bool
    ensures { result ≡ list_all (λ other. same_text other name.now) names.now }
{
    names.iter().all(|other| *other == *name)
}

fn is_absent(presence: Presence) -> bool
    ensures { result ≡ is_absent presence }
{
    matches!(presence, Presence::Absent)
}

fn is_none_receiving(receiving: Receiving) -> bool
    ensures { result ≡ is_none_receiving receiving }
{
    matches!(receiving, Receiving::Nothing)
}

impl Side {
    ghost use Rattle.std.specs.Prelude.{◌≡◌};
    ghost use Rattle.zr_known.specs.Straight.{has_listed_holds};

    /// Whether it was listed, and the holds of each of its snapshots are known.
    fn has_listed_holds(&self) -> bool
        ensures { result ≡ has_listed_holds self.now.asked self.now.listing }
    {
        match &self.listing {
            Some(rows) => all_known_holds(rows.as_slice(), self.asked.as_slice()),
            None => false,
        }
    }
}

impl Known {
    ghost use Rattle.std.specs.Prelude.{◌≡◌};
    ghost use Rattle.zr_known.specs.Straight.{has_listed, has_listed_target, has_snapshot, is_alone, is_at_rest, is_straight, is_untouched};

    fn has_listed_target(&self, pair: &Pair) -> bool
        ensures { result ≡ has_listed_target pair.now self.now }
    {
        match &self.sets {
            Some(sets) => !shows_path(sets.as_slice(), &pair.target)
                || self.target.has_listed_holds(),
            None => false,
        }
    }

    /// Whether all was listed that a replication lists before it begins.
    pub fn has_listed(&self, pair: &Pair) -> bool
        ensures { result ≡ has_listed pair.now self.now }
    {
        self.source.has_listed_holds() && self.has_listed_target(pair)
    }

    fn is_alone(&self, pair: &Pair, last: &VersionRow, name: &SnapName) -> bool
        ensures { result ≡ is_alone pair.now self.now last.now name.now }
    {
        all_cursors(self.marks.as_slice(), &pair.job, last.guid)
            && all_named(self.target.held.as_slice(), name)
            && self.source.held.is_empty()
    }

    /// Whether there is nothing to settle: the target's newest snapshot has its cursor and its last-received hold, and
    /// there is nothing else of the job.
    pub fn is_at_rest(&self, pair: &Pair) -> bool
        ensures { result ≡ is_at_rest pair.now self.now }
    {
        let Some(last) = self.newest() else {
            return false;
        };
        match &last.name {
            VersionName::Snap(name) => {
                self.knows_cursor(pair, last.guid)
                    && self.is_last_held(name)
                    && self.is_alone(pair, last, name)
            }
            VersionName::Mark(_) => false,
        }
    }

    fn is_untouched(&self) -> bool
        ensures { result ≡ is_untouched self.now }
    {
        is_absent(self.presence) && self.marks.is_empty() && self.source.held.is_empty()
    }

    fn has_snapshot(&self) -> bool
        ensures { result ≡ has_snapshot self.now.source.listing }
    {
        newest(self.source.rows()).is_some()
    }

    /// Whether replication may begin: what is there is one of the two straight cases.
    pub fn is_straight(&self, pair: &Pair) -> bool
        ensures { result ≡ is_straight pair.now self.now }
    {
        self.has_snapshot()
            && is_none_receiving(self.receiving)
            && (self.is_untouched() || (is_there(self.presence) && self.is_at_rest(pair)))
    }
}

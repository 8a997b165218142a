//! What a replication lists before it begins.

ghost use Rattle.std.specs.Prelude.{◌≡◌, IfOk, OnOk, slice_get, true};
ghost use Rattle.zr_known.specs.Known.{is_among, nothing_known, rows_of};
ghost use Rattle.zr_replicate.specs.Listing.{asked_at, HasAskedAll, HasAskedAt, held_at, HasListedAll, HasListedSets, HasListedSource, HasListedTarget, HasOnlyListed, KnowsMoreHolds, listing_at, path_at, ShowsAt};
ghost use Rattle.zr_replicate.specs.Progress.{AtWork, progress, Stage};

use crate::commands;
use crate::replication::Replication;
use std::alloc::AllocError;
use zr_command::{Cmd, VersionName, VersionRow};
use zr_jobs::Pair;
use zr_known::Known;
use zr_names::{Outcome, Path, Same, SnapName};
use zr_world::Zfs;

/// One of the two datasets of a pair.
#[derive(Clone, Copy, PartialEq, Eq)]
pub(crate) enum Role {
    Source,
    Target,
}

fn path_at(side: Role, pair: &Pair) -> &Path
    ensures { result.now ≡ path_at side pair.now }
{
    match side {
        Role::Source => &pair.source,
        Role::Target => &pair.target,
    }
}

/// The rows of a side's last listing; none where it was not listed.
fn rows_at(side: Role, known: &Known) -> &[VersionRow]
    ensures { result.now ≡ rows_of (listing_at side known.now) }
{
    match side {
        Role::Source => known.source.rows(),
        Role::Target => known.target.rows(),
    }
}

/// The name of the version at a place of a side's listing, where it is a snapshot that has holds.
fn held_name(side: Role, known: &Known, place: usize) -> Result<Option<SnapName>, AllocError>
    ensures { IfOk result (λ name. name ≡ held_at side known.now place) }
{
    match rows_at(side, known).get(place) {
        Some(row) if row.refs > 0 => match &row.name {
            VersionName::Snap(name) => Ok(Some(name.same()?)),
            VersionName::Mark(_) => Ok(None),
        },
        Some(_) | None => Ok(None),
    }
}

impl<'a, 'b, Z: Zfs> Replication<'a, 'b, Z> {
    /// Lists the holds of a snapshot.
    fn list_holds(&mut self, pair: &Pair, side: Role, name: &SnapName) -> Result<(), Outcome>
        requires at_work { AtWork pair.now (progress Z.Zfs self.old) }
        requires lists { HasOnlyListed (progress Z.Zfs self.old) }
        requires shown { ShowsAt side self.old.known.now name.now }
        ensures stage { Stage pair.now (progress Z.Zfs self.old) (progress Z.Zfs self.new) result }
        ensures lists { OnOk result (HasOnlyListed (progress Z.Zfs self.new)) }
        ensures more { OnOk result (KnowsMoreHolds side self.old.known.now self.new.known.now) }
        ensures asked { OnOk result (is_among (asked_at side self.new.known.now) name.now ≡ true) }
    {
        match commands::holds(path_at(side, pair), name) {
            Ok(cmd) => self.give(pair, cmd),
            Err(_) => Err(self.unit.out_of_memory()),
        }
    }

    /// Lists the holds of the version at a place of a side's listing, where it is a snapshot that has some.
    fn list_holds_at(&mut self, pair: &Pair, side: Role, place: usize) -> Result<(), Outcome>
        requires at_work { AtWork pair.now (progress Z.Zfs self.old) }
        requires lists { HasOnlyListed (progress Z.Zfs self.old) }
        ensures stage { Stage pair.now (progress Z.Zfs self.old) (progress Z.Zfs self.new) result }
        ensures lists { OnOk result (HasOnlyListed (progress Z.Zfs self.new)) }
        ensures more { OnOk result (KnowsMoreHolds side self.old.known.now self.new.known.now) }
        ensures asked { OnOk result (HasAskedAt side place self.new.known.now) }
    {
        match held_name(side, self.known, place) {
            Ok(Some(name)) => self.list_holds(pair, side, &name),
            Ok(None) => Ok(()),
            Err(_) => Err(self.unit.out_of_memory()),
        }
    }

    /// Lists the holds of each snapshot of a side that was listed with some.
    fn list_side_holds(&mut self, pair: &Pair, side: Role) -> Result<(), Outcome>
        requires at_work { AtWork pair.now (progress Z.Zfs self.old) }
        requires lists { HasOnlyListed (progress Z.Zfs self.old) }
        ensures stage { Stage pair.now (progress Z.Zfs self.old) (progress Z.Zfs self.new) result }
        ensures lists { OnOk result (HasOnlyListed (progress Z.Zfs self.new)) }
        ensures more { OnOk result (KnowsMoreHolds side self.old.known.now self.new.known.now) }
        ensures asked { OnOk result (HasAskedAll side self.new.known.now) }
    {
        let count = rows_at(side, self.known).len();
        for place in 0..count {
            self.list_holds_at(pair, side, place)?;
        }
        Ok(())
    }

    /// Lists the datasets.
    fn list_sets(&mut self, pair: &Pair) -> Result<(), Outcome>
        requires at_work { AtWork pair.now (progress Z.Zfs self.old) }
        requires lists { HasOnlyListed (progress Z.Zfs self.old) }
        requires fresh { self.old.known.now ≡ nothing_known }
        ensures stage { Stage pair.now (progress Z.Zfs self.old) (progress Z.Zfs self.new) result }
        ensures lists { OnOk result (HasOnlyListed (progress Z.Zfs self.new)) }
        ensures sets { OnOk result (HasListedSets pair.now self.new.known.now) }
    {
        self.give(pair, Cmd::Sets)
    }

    /// Lists the versions of the source.
    fn list_source(&mut self, pair: &Pair) -> Result<(), Outcome>
        requires at_work { AtWork pair.now (progress Z.Zfs self.old) }
        requires lists { HasOnlyListed (progress Z.Zfs self.old) }
        requires sets { HasListedSets pair.now self.old.known.now }
        ensures stage { Stage pair.now (progress Z.Zfs self.old) (progress Z.Zfs self.new) result }
        ensures lists { OnOk result (HasOnlyListed (progress Z.Zfs self.new)) }
        ensures sets { OnOk result (HasListedSets pair.now self.new.known.now) }
        ensures source { OnOk result (HasListedSource self.new.known.now) }
    {
        match commands::versions(&pair.source) {
            Ok(cmd) => self.give(pair, cmd),
            Err(_) => Err(self.unit.out_of_memory()),
        }
    }

    /// Lists the versions of the target, where it is there.
    fn list_target(&mut self, pair: &Pair) -> Result<(), Outcome>
        requires at_work { AtWork pair.now (progress Z.Zfs self.old) }
        requires lists { HasOnlyListed (progress Z.Zfs self.old) }
        requires sets { HasListedSets pair.now self.old.known.now }
        requires source { HasListedSource self.old.known.now }
        ensures stage { Stage pair.now (progress Z.Zfs self.old) (progress Z.Zfs self.new) result }
        ensures lists { OnOk result (HasOnlyListed (progress Z.Zfs self.new)) }
        ensures sets { OnOk result (HasListedSets pair.now self.new.known.now) }
        ensures source { OnOk result (HasListedSource self.new.known.now) }
        ensures target { OnOk result (HasListedTarget pair.now self.new.known.now) }
    {
        if !self.known.shows_set(&pair.target) {
            return Ok(());
        }
        match commands::versions(&pair.target) {
            Ok(cmd) => self.give(pair, cmd),
            Err(_) => Err(self.unit.out_of_memory()),
        }
    }

    /// Lists the datasets, the versions of the source, those of the target where it is there, and the holds of each of
    /// their snapshots that has some.
    pub(crate) fn list_everything(&mut self, pair: &Pair) -> Result<(), Outcome>
        requires at_work { AtWork pair.now (progress Z.Zfs self.old) }
        requires lists { HasOnlyListed (progress Z.Zfs self.old) }
        requires fresh { self.old.known.now ≡ nothing_known }
        ensures stage { Stage pair.now (progress Z.Zfs self.old) (progress Z.Zfs self.new) result }
        ensures lists { OnOk result (HasOnlyListed (progress Z.Zfs self.new)) }
        ensures listed { OnOk result (HasListedAll pair.now self.new.known.now) }
    {
        self.list_sets(pair)?;
        self.list_source(pair)?;
        self.list_target(pair)?;
        self.list_side_holds(pair, Role::Source)?;
        self.list_side_holds(pair, Role::Target)
    }
}

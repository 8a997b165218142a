//! Which unit is which: the tests on units by which the ledger decides what may start and what is new.

ghost use Rattle.std.specs.Prelude.{◌≡◌};
ghost use Rattle.zr_names.specs.declared.unit.Work.TheVariants as work;
ghost use Rattle.zr_ledger.specs.Seats.{has_key, is_ancestor_of, is_replicate, is_replicate_above, is_replicate_of, is_scan, is_snap, is_snap_of, lies_below, making, pairing, same_key, same_seat, same_unit, scanning, seat_of, snapping};

use zr_names::{Path, Prefix, Unit, Work};

pub(crate) fn is_scan(work: &Work) -> bool
    ensures { result ≡ is_scan work.now }
{
    match work {
        Work::Scan => true,
        Work::Parents => false,
        Work::Snap(_, _) => false,
        Work::Replicate(_) => false,
        Work::PruneSource(_) => false,
        Work::PruneTarget(_) => false,
    }
}

pub(crate) fn is_snap(work: &Work) -> bool
    ensures { result ≡ is_snap work.now }
{
    match work {
        Work::Scan => false,
        Work::Parents => false,
        Work::Snap(_, _) => true,
        Work::Replicate(_) => false,
        Work::PruneSource(_) => false,
        Work::PruneTarget(_) => false,
    }
}

/// Whether the work is a snapshot of this path, with any prefix.
pub(crate) fn is_snap_of(path: &Path, work: &Work) -> bool
    ensures { result ≡ is_snap_of path.now work.now }
{
    match work {
        Work::Scan => false,
        Work::Parents => false,
        Work::Snap(own, _) => path == own,
        Work::Replicate(_) => false,
        Work::PruneSource(_) => false,
        Work::PruneTarget(_) => false,
    }
}

pub(crate) fn is_replicate(work: &Work) -> bool
    ensures { result ≡ is_replicate work.now }
{
    match work {
        Work::Scan => false,
        Work::Parents => false,
        Work::Snap(_, _) => false,
        Work::Replicate(_) => true,
        Work::PruneSource(_) => false,
        Work::PruneTarget(_) => false,
    }
}

/// Whether a path lies below another: it begins with that, and a `/` follows.
fn lies_below(root: &Path, path: &Path) -> bool
    ensures { result ≡ lies_below root.now path.now }
{
    let root = root.as_bytes();
    let path = path.as_bytes();
    path.starts_with(root) && path.get(root.len()) == Some(&b'/')
}

/// Whether the work is a replication of a proper ancestor of this path.
fn is_replicate_above(path: &Path, work: &Work) -> bool
    ensures { result ≡ is_replicate_above path.now work.now }
{
    match work {
        Work::Scan => false,
        Work::Parents => false,
        Work::Snap(_, _) => false,
        Work::Replicate(own) => lies_below(own, path),
        Work::PruneSource(_) => false,
        Work::PruneTarget(_) => false,
    }
}

pub(crate) fn is_replicate_of(job: u32, unit: &Unit) -> bool
    ensures { result ≡ is_replicate_of job unit.now }
{
    unit.job == job && is_replicate(&unit.work)
}

/// Whether the unit is the job's replication of a proper ancestor of this path.
pub(crate) fn is_ancestor_of(job: u32, path: &Path, unit: &Unit) -> bool
    ensures { result ≡ is_ancestor_of job path.now unit.now }
{
    unit.job == job && is_replicate_above(path, &unit.work)
}

fn is_scan_of(job: u32, unit: &Unit) -> bool
    ensures seat { result ≡ same_seat (scanning job) (seat_of unit.now) }
    ensures key { result ≡ has_key job work.Scan unit.now }
{
    match unit.work {
        Work::Scan => job == unit.job,
        Work::Parents => false,
        Work::Snap(_, _) => false,
        Work::Replicate(_) => false,
        Work::PruneSource(_) => false,
        Work::PruneTarget(_) => false,
    }
}

pub(crate) fn is_parents_of(job: u32, unit: &Unit) -> bool
    ensures seat { result ≡ same_seat (making job) (seat_of unit.now) }
    ensures key { result ≡ has_key job work.Parents unit.now }
{
    match unit.work {
        Work::Scan => false,
        Work::Parents => job == unit.job,
        Work::Snap(_, _) => false,
        Work::Replicate(_) => false,
        Work::PruneSource(_) => false,
        Work::PruneTarget(_) => false,
    }
}

/// Whether the unit is the snapshot of this path with this prefix, of any job.
fn is_snap_named(path: &Path, prefix: &Prefix, unit: &Unit) -> bool
    ensures seat { result ≡ same_seat (snapping path.now prefix.now) (seat_of unit.now) }
    ensures key { result ≡ has_key 0 (work.Snap path.now prefix.now) unit.now }
{
    match &unit.work {
        Work::Scan => false,
        Work::Parents => false,
        Work::Snap(own, own_prefix) => path == own && prefix == own_prefix,
        Work::Replicate(_) => false,
        Work::PruneSource(_) => false,
        Work::PruneTarget(_) => false,
    }
}

pub(crate) fn is_replicate_on(job: u32, path: &Path, unit: &Unit) -> bool
    ensures { result ≡ has_key job (work.Replicate path.now) unit.now }
{
    match &unit.work {
        Work::Scan => false,
        Work::Parents => false,
        Work::Snap(_, _) => false,
        Work::Replicate(own) => job == unit.job && path == own,
        Work::PruneSource(_) => false,
        Work::PruneTarget(_) => false,
    }
}

fn is_prune_source_on(job: u32, path: &Path, unit: &Unit) -> bool
    ensures { result ≡ has_key job (work.PruneSource path.now) unit.now }
{
    match &unit.work {
        Work::Scan => false,
        Work::Parents => false,
        Work::Snap(_, _) => false,
        Work::Replicate(_) => false,
        Work::PruneSource(own) => job == unit.job && path == own,
        Work::PruneTarget(_) => false,
    }
}

fn is_prune_target_on(job: u32, path: &Path, unit: &Unit) -> bool
    ensures { result ≡ has_key job (work.PruneTarget path.now) unit.now }
{
    match &unit.work {
        Work::Scan => false,
        Work::Parents => false,
        Work::Snap(_, _) => false,
        Work::Replicate(_) => false,
        Work::PruneSource(_) => false,
        Work::PruneTarget(own) => job == unit.job && path == own,
    }
}

/// Whether the unit is the replication or a prune of this pair.
fn is_on_pair(job: u32, path: &Path, unit: &Unit) -> bool
    ensures { result ≡ same_seat (pairing job path.now) (seat_of unit.now) }
{
    match &unit.work {
        Work::Scan => false,
        Work::Parents => false,
        Work::Snap(_, _) => false,
        Work::Replicate(own) => job == unit.job && path == own,
        Work::PruneSource(own) => job == unit.job && path == own,
        Work::PruneTarget(own) => job == unit.job && path == own,
    }
}

/// Whether two units may not be out at the same time.
pub(crate) fn has_same_seat(unit: &Unit, other: &Unit) -> bool
    ensures { result ≡ same_seat (seat_of unit.now) (seat_of other.now) }
{
    match &unit.work {
        Work::Scan => is_scan_of(unit.job, other),
        Work::Parents => is_parents_of(unit.job, other),
        Work::Snap(path, prefix) => is_snap_named(path, prefix, other),
        Work::Replicate(path) => is_on_pair(unit.job, path, other),
        Work::PruneSource(path) => is_on_pair(unit.job, path, other),
        Work::PruneTarget(path) => is_on_pair(unit.job, path, other),
    }
}

/// Whether two units are the same work, but for the moment.
pub(crate) fn has_same_key(unit: &Unit, other: &Unit) -> bool
    ensures { result ≡ same_key unit.now other.now }
{
    match &unit.work {
        Work::Scan => is_scan_of(unit.job, other),
        Work::Parents => is_parents_of(unit.job, other),
        Work::Snap(path, prefix) => is_snap_named(path, prefix, other),
        Work::Replicate(path) => is_replicate_on(unit.job, path, other),
        Work::PruneSource(path) => is_prune_source_on(unit.job, path, other),
        Work::PruneTarget(path) => is_prune_target_on(unit.job, path, other),
    }
}

/// Whether two units are one: their job, their moment and their work.
pub(crate) fn is_same_unit(unit: &Unit, other: &Unit) -> bool
    ensures { result ≡ same_unit unit.now other.now }
{
    unit.job == other.job && unit.moment.ms() == other.moment.ms() && has_same_key(unit, other)
}

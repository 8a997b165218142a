//! How many snapshots wait, by a slot of their path: where none is in a path's slot, none of the path waits,
//! and the list need not be looked through.

ghost use Rattle.std.specs.Prelude.{◌≡◌, ◌+◌, ◌-◌, ◌^◌, ◌<◌, ◌≤◌, ℕ, if◌then◌else◌, length, slice_index};
ghost use Rattle.zr_ledger.specs.Index.{is_snap_in, slot_of};

use zr_names::{Path, Work};

/// So many slots. With 15,000 snapshots that wait, one slot in seventeen is taken.
pub(crate) const SLOTS: usize = 262_144;

pub(crate) fn slot_of(path: &Path) -> usize
    ensures slot { result ≡ slot_of path.now }
    ensures inside { result < SLOTS }
{
    let bytes = path.as_bytes();
    let mut slot = 0;
    for byte in bytes {
        slot = (slot * 31 + usize::from(*byte)) % SLOTS;
    }
    slot
}

/// One snapshot more in its slot, where the work is one.
pub(crate) fn count_snap(snaps: &mut Vec<usize>, work: &Work)
    requires slots { length snaps.old.items ≡ SLOTS }
    requires fits { (slot : ℕ) → slot < SLOTS → slice_index snaps.old.items slot < 2 ^ 64 - 1 }
    ensures slots { length snaps.new.items ≡ SLOTS }
    ensures counts { (slot : ℕ) → slot < SLOTS → slice_index snaps.new.items slot
        ≡ slice_index snaps.old.items slot + (if is_snap_in slot work.now then 1 else 0) }
{
    match work {
        Work::Scan => {}
        Work::Parents => {}
        Work::Snap(path, _) => snaps[slot_of(path)] += 1,
        Work::Replicate(_) => {}
        Work::PruneSource(_) => {}
        Work::PruneTarget(_) => {}
    }
}

/// One snapshot fewer.
pub(crate) fn forget_snap(snaps: &mut Vec<usize>, work: &Work)
    requires slots { length snaps.old.items ≡ SLOTS }
    requires some { (slot : ℕ) → slot < SLOTS →
        (if is_snap_in slot work.now then 1 else 0) ≤ slice_index snaps.old.items slot }
    ensures slots { length snaps.new.items ≡ SLOTS }
    ensures counts { (slot : ℕ) → slot < SLOTS → slice_index snaps.new.items slot
        + (if is_snap_in slot work.now then 1 else 0) ≡ slice_index snaps.old.items slot }
{
    match work {
        Work::Scan => {}
        Work::Parents => {}
        Work::Snap(path, _) => snaps[slot_of(path)] -= 1,
        Work::Replicate(_) => {}
        Work::PruneSource(_) => {}
        Work::PruneTarget(_) => {}
    }
}

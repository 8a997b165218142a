//! Whether pools are well formed, tested row by row.

ghost use Rattle.std.specs.Prelude.{◌≡◌, ◌≢◌, ◌<◌, All, AllPairs, IsTrue, true};
ghost use Rattle.zr_command.specs.Names.{is_below, name_is_below};
ghost use Rattle.zr_world.specs.Pools.{IsWellFormed, IsWellFormedSet, MarkIsFree};
ghost use Rattle.zr_command.specs.Listings.{stands_before};

use zr_command::VersionName;
use zr_names::Tag;
use zr_world::{Dataset, Pools, Version};

fn name_is_below(one: &VersionName, other: &VersionName) -> bool
    ensures { result ≡ name_is_below one.now other.now }
{
    match (one, other) {
        (VersionName::Snap(one), VersionName::Snap(other)) => one < other,
        (VersionName::Snap(_), VersionName::Mark(_)) => true,
        (VersionName::Mark(_), VersionName::Snap(_)) => false,
        (VersionName::Mark(one), VersionName::Mark(other)) => one < other,
    }
}

/// Whether one version may stand before another in one dataset.
fn may_precede(one: &Version, other: &Version) -> bool
    ensures in_order { IsTrue result →
        stands_before one.now.txg one.now.name other.now.txg other.now.name ≡ true }
    ensures names_differ { IsTrue result → one.now.name ≢ other.now.name }
    ensures only { stands_before one.now.txg one.now.name other.now.txg other.now.name ≡ true →
        one.now.name ≢ other.now.name → IsTrue result }
{
    let in_order = one.txg < other.txg
        || (one.txg == other.txg && name_is_below(&one.name, &other.name));
    in_order && one.name != other.name
}

fn may_precede_all(one: &Version, later: &[Version]) -> bool
    ensures in_order { IsTrue result →
        All (λ other. stands_before one.now.txg one.now.name other.txg other.name ≡ true)
        later.now }
    ensures names_differ { IsTrue result → All (λ other. one.now.name ≢ other.name) later.now }
    ensures only { All (λ other. stands_before one.now.txg one.now.name other.txg other.name ≡ true)
        later.now →
        All (λ other. one.now.name ≢ other.name) later.now → IsTrue result }
{
    later.iter().all(|other| may_precede(one, other))
}

fn are_versions(versions: &[Version]) -> bool
    ensures in_order { IsTrue result →
        AllPairs (λ a b. stands_before a.txg a.name b.txg b.name ≡ true) versions.now }
    ensures names_differ { IsTrue result → AllPairs (λ a b. a.name ≢ b.name) versions.now }
    ensures only { AllPairs (λ a b. stands_before a.txg a.name b.txg b.name ≡ true) versions.now →
        AllPairs (λ a b. a.name ≢ b.name) versions.now → IsTrue result }
{
    for place in 0..versions.len() {
        if !may_precede_all(&versions[place], &versions[place + 1..]) {
            return false;
        }
    }
    true
}

fn differs_from_all(one: &Tag, later: &[Tag]) -> bool
    ensures differs { IsTrue result → All (λ other. one.now ≢ other) later.now }
    ensures only { All (λ other. one.now ≢ other) later.now → IsTrue result }
{
    later.iter().all(|other| one != other)
}

fn are_tags(tags: &[Tag]) -> bool
    ensures differ { IsTrue result → AllPairs (λ a b. a ≢ b) tags.now }
    ensures only { AllPairs (λ a b. a ≢ b) tags.now → IsTrue result }
{
    for place in 0..tags.len() {
        if !differs_from_all(&tags[place], &tags[place + 1..]) {
            return false;
        }
    }
    true
}

fn is_mark_free(version: &Version) -> bool
    ensures free { IsTrue result → MarkIsFree version.now }
    ensures only { MarkIsFree version.now → IsTrue result }
{
    match version.name {
        VersionName::Snap(_) => true,
        VersionName::Mark(_) => version.tags.is_empty(),
    }
}

/// Whether a version may stand in pools whose next transaction group is this one.
fn is_version(next_txg: u64, version: &Version) -> bool
    ensures tags_differ { IsTrue result → AllPairs (λ a b. a ≢ b) version.now.tags }
    ensures mark_free { IsTrue result → MarkIsFree version.now }
    ensures made_before { IsTrue result → version.now.txg < next_txg }
    ensures only { AllPairs (λ a b. a ≢ b) version.now.tags → MarkIsFree version.now →
        version.now.txg < next_txg → IsTrue result }
{
    are_tags(version.tags.as_slice()) && is_mark_free(version) && version.txg < next_txg
}

fn is_each_version(next_txg: u64, versions: &[Version]) -> bool
    ensures tags_differ { IsTrue result → All (λ v. AllPairs (λ a b. a ≢ b) v.tags) versions.now }
    ensures marks_free { IsTrue result → All MarkIsFree versions.now }
    ensures made_before { IsTrue result → All (λ v. v.txg < next_txg) versions.now }
    ensures only { All (λ v. AllPairs (λ a b. a ≢ b) v.tags) versions.now
        → All MarkIsFree versions.now →
        All (λ v. v.txg < next_txg) versions.now → IsTrue result }
{
    versions.iter().all(|version| is_version(next_txg, version))
}

fn is_dataset(next_txg: u64, set: &Dataset) -> bool
    ensures formed { IsTrue result → IsWellFormedSet next_txg set.now }
    ensures only { AllPairs (λ a b. stands_before a.txg a.name b.txg b.name ≡ true)
        set.now.versions →
        AllPairs (λ a b. a.name ≢ b.name) set.now.versions →
        All (λ v. AllPairs (λ a b. a ≢ b) v.tags) set.now.versions →
        All MarkIsFree set.now.versions →
        All (λ v. v.txg < next_txg) set.now.versions → IsTrue result }
{
    let versions = set.versions.as_slice();
    are_versions(versions) && is_each_version(next_txg, versions)
}

fn is_each_dataset(next_txg: u64, sets: &[Dataset]) -> bool
    ensures formed { IsTrue result → All (IsWellFormedSet next_txg) sets.now }
    ensures only { All (λ s.
        AllPairs (λ a b. stands_before a.txg a.name b.txg b.name ≡ true) s.versions) sets.now →
        All (λ s. AllPairs (λ a b. a.name ≢ b.name) s.versions) sets.now →
        All (λ s. All (λ v. AllPairs (λ a b. a ≢ b) v.tags) s.versions) sets.now →
        All (λ s. All MarkIsFree s.versions) sets.now →
        All (λ s. All (λ v. v.txg < next_txg) s.versions) sets.now → IsTrue result }
{
    sets.iter().all(|set| is_dataset(next_txg, set))
}

fn is_below_all(one: &Dataset, later: &[Dataset]) -> bool
    ensures below { IsTrue result
        → All (λ other. is_below one.now.path other.path ≡ true) later.now }
    ensures only { All (λ other. is_below one.now.path other.path ≡ true) later.now
        → IsTrue result }
{
    later.iter().all(|other| one.path < other.path)
}

fn are_rising(sets: &[Dataset]) -> bool
    ensures rising { IsTrue result → AllPairs (λ a b. is_below a.path b.path ≡ true) sets.now }
    ensures only { AllPairs (λ a b. is_below a.path b.path ≡ true) sets.now → IsTrue result }
{
    for place in 0..sets.len() {
        if !is_below_all(&sets[place], &sets[place + 1..]) {
            return false;
        }
    }
    true
}

/// Whether pools are well formed, as `MemSpawn::new` requires. It compares each name with each other.
pub fn is_well_formed(pools: &Pools) -> bool
    ensures formed { IsTrue result → IsWellFormed pools.entry.now }
    ensures only { IsWellFormed pools.entry.now → IsTrue result }
{
    let sets = pools.sets.as_slice();
    are_rising(sets) && is_each_dataset(pools.next_txg, sets)
}

//! The changes that effects are made of: to a list, to a dataset, to the pools.

ghost use Rattle.std.specs.Prelude.{◌≡◌, OnErr, OnOk, ◌≤◌, filter, length, not, position, None};
ghost use Rattle.std.specs.List.{position_or_len};
ghost use Rattle.zr_world.specs.Effect.{first_changed, put_in, set_before, version_before, with_new, with_partial, with_set, with_tags, with_version, without, without_set};
ghost use Rattle.zr_world.specs.Lookup.{has_name, is_at};
ghost use Rattle.zr_command.specs.declared.version.VersionName.TheVariants.{Snap};

use crate::pools::{Dataset, Partial, Pools, Version};
use std::alloc::Global;
use std::mem;
use zr_command::VersionName;
use zr_names::{NoMemory, Path, Rows, SnapName, Tag};

/// The place of the dataset at this path.
fn place_of(sets: &[Dataset], path: &Path) -> Option<usize>
    ensures { result ≡ position (is_at path.now) sets.now }
{
    sets.iter().position(|set| set.path == *path)
}

/// The place of the snapshot of this name.
fn snap_place(versions: &[Version], name: &SnapName) -> Option<usize>
    ensures { result ≡ position (has_name (Snap name.now)) versions.now }
{
    versions.iter().position(|version| version.is_snap(name))
}

/// The place of the first version that stands behind one.
fn first_behind(versions: &[Version], version: &Version) -> Option<usize>
    ensures { result ≡ position (version_before version.now) versions.now }
{
    versions.iter().position(|other| version.is_before(other))
}

/// The place of a version in the order of versions.
#[tactic(auto, using(crate::proofs::Changing::place_or_end))]
fn version_place(versions: &[Version], version: &Version) -> usize
    ensures place { result ≡ position_or_len (version_before version.now) versions.now }
    ensures within { result ≤ length versions.now }
{
    first_behind(versions, version).unwrap_or(versions.len())
}

/// The place of the first dataset that stands behind one.
fn first_below(sets: &[Dataset], set: &Dataset) -> Option<usize>
    ensures { result ≡ position (set_before set.now) sets.now }
{
    sets.iter().position(|other| set.path < other.path)
}

/// The place of a dataset in the order of paths.
#[tactic(auto, using(crate::proofs::Changing::place_or_end))]
fn set_place(sets: &[Dataset], set: &Dataset) -> usize
    ensures place { result ≡ position_or_len (set_before set.now) sets.now }
    ensures within { result ≤ length sets.now }
{
    first_below(sets, set).unwrap_or(sets.len())
}

/// Puts a version into its place in the order of versions.
#[tactic(auto, using(crate::proofs::Changing::put_in_insert))]
fn insert_version(versions: &mut Vec<Version>, version: Version) -> Result<(), NoMemory>
    ensures ok { OnOk result
        (versions.new.items ≡ put_in version_before version versions.old.items) }
    ensures err { OnErr result (versions.new.items ≡ versions.old.items) }
{
    let place = version_place(versions.as_slice(), &version);
    versions.insert(place, version)?;
    Ok(())
}

/// Puts a dataset into its place in the order of paths.
#[tactic(auto, using(crate::proofs::Changing::put_in_insert))]
fn insert_set(sets: &mut Vec<Dataset>, set: Dataset) -> Result<(), NoMemory>
    ensures ok { OnOk result (sets.new.items ≡ put_in set_before set sets.old.items) }
    ensures err { OnErr result (sets.new.items ≡ sets.old.items) }
{
    let place = set_place(sets.as_slice(), &set);
    sets.insert(place, set)?;
    Ok(())
}

/// Takes the version of this name out of a list of versions.
fn retain_others(versions: &mut Vec<Version>, name: &VersionName)
    ensures { versions.new.items ≡ filter (λ v. not (has_name name.now v)) versions.old.items }
{
    versions.retain(|version| !version.has_name(name));
}

/// Takes the dataset at this path out of a list of datasets.
fn retain_elsewhere(sets: &mut Vec<Dataset>, path: &Path)
    ensures { sets.new.items ≡ filter (λ set. not (is_at path.now set)) sets.old.items }
{
    sets.retain(|set| set.path != *path);
}

/// Gives the snapshot of this name other tags.
fn replace_tags(versions: &mut [Version], name: &SnapName, tags: Rows<Tag>)
    ensures { versions.new ≡
        first_changed (has_name (Snap name.now)) (λ version. record version { tags = tags })
        versions.old }
{
    let Some(place) = snap_place(versions, name) else {
        return;
    };
    versions[place].tags = tags;
}

impl Dataset {
    ghost use Rattle.std.specs.Prelude.{◌≡◌, OnErr, OnOk};
    ghost use Rattle.zr_world.specs.Effect.{with_partial, with_tags, with_version, without};
    ghost use Rattle.zr_command.specs.declared.version.VersionName.TheVariants.{Snap};

    fn add(&mut self, alloc: Global, version: Version) -> Result<(), NoMemory>
        ensures ok { OnOk result (self.new ≡ with_version version self.old) }
        ensures err { OnErr result (self.new ≡ self.old) }
    {
        let mut versions = mem::replace(&mut self.versions, Rows::new(alloc)).into_vec();
        let added = insert_version(&mut versions, version);
        self.versions = Rows::from_vec(versions);
        added
    }

    /// Takes a version whose receive it had in part.
    fn complete(&mut self, alloc: Global, version: Version) -> Result<(), NoMemory>
        ensures ok { OnOk result (self.new ≡ with_version version (with_partial None self.old)) }
        ensures err { OnErr result (self.new ≡ self.old) }
    {
        self.add(alloc, version)?;
        self.partial = None;
        Ok(())
    }

    fn remove(&mut self, alloc: Global, name: &VersionName)
        ensures { self.new ≡ without name.now self.old }
    {
        let mut versions = mem::replace(&mut self.versions, Rows::new(alloc)).into_vec();
        retain_others(&mut versions, name);
        self.versions = Rows::from_vec(versions);
    }

    fn set_tags(&mut self, alloc: Global, name: &SnapName, tags: Rows<Tag>)
        ensures { self.new ≡ with_tags (Snap name.now) tags self.old }
    {
        let mut versions = mem::replace(&mut self.versions, Rows::new(alloc)).into_vec();
        replace_tags(versions.as_mut_slice(), name, tags);
        self.versions = Rows::from_vec(versions);
    }
}

fn add_in(
    alloc: Global,
    sets: &mut [Dataset],
    path: &Path,
    version: Version,
) -> Result<(), NoMemory>
    ensures ok { OnOk result
        (sets.new ≡ first_changed (is_at path.now) (with_version version) sets.old) }
    ensures err { OnErr result (sets.new ≡ sets.old) }
{
    let Some(place) = place_of(sets, path) else {
        return Ok(());
    };
    let set = &mut sets[place];
    set.add(alloc, version)?;
    Ok(())
}

fn complete_in(
    alloc: Global,
    sets: &mut [Dataset],
    path: &Path,
    version: Version,
) -> Result<(), NoMemory>
    ensures ok { OnOk result (sets.new ≡
        first_changed (is_at path.now) (λ set. with_version version (with_partial None set))
        sets.old) }
    ensures err { OnErr result (sets.new ≡ sets.old) }
{
    let Some(place) = place_of(sets, path) else {
        return Ok(());
    };
    let set = &mut sets[place];
    set.complete(alloc, version)?;
    Ok(())
}

fn remove_in(alloc: Global, sets: &mut [Dataset], path: &Path, name: &VersionName)
    ensures { sets.new ≡ first_changed (is_at path.now) (without name.now) sets.old }
{
    let Some(place) = place_of(sets, path) else {
        return;
    };
    let set = &mut sets[place];
    set.remove(alloc, name);
}

fn tags_in(alloc: Global, sets: &mut [Dataset], path: &Path, name: &SnapName, tags: Rows<Tag>)
    ensures { sets.new ≡ first_changed (is_at path.now) (with_tags (Snap name.now) tags) sets.old }
{
    let Some(place) = place_of(sets, path) else {
        return;
    };
    let set = &mut sets[place];
    set.set_tags(alloc, name, tags);
}

fn partial_in(sets: &mut [Dataset], path: &Path, partial: Option<Partial>)
    ensures { sets.new ≡
        first_changed (is_at path.now) (with_partial partial) sets.old }
{
    let Some(place) = place_of(sets, path) else {
        return;
    };
    sets[place].partial = partial;
}

/// Adds a version to the dataset at this path.
pub(crate) fn add_version(
    alloc: Global,
    pools: &mut Pools,
    path: &Path,
    version: Version,
) -> Result<(), NoMemory>
    ensures ok { OnOk result (pools.new ≡ with_set pools.old path.now (with_version version)) }
    ensures err { OnErr result (pools.new ≡ pools.old) }
{
    let mut sets = mem::replace(&mut pools.sets, Rows::new(alloc)).into_vec();
    let added = add_in(alloc, sets.as_mut_slice(), path, version);
    pools.sets = Rows::from_vec(sets);
    added
}

/// Completes the partial receive of the dataset at this path with its version.
pub(crate) fn complete_version(
    alloc: Global,
    pools: &mut Pools,
    path: &Path,
    version: Version,
) -> Result<(), NoMemory>
    ensures ok { OnOk result (pools.new ≡
        with_set pools.old path.now (λ set. with_version version (with_partial None set))) }
    ensures err { OnErr result (pools.new ≡ pools.old) }
{
    let mut sets = mem::replace(&mut pools.sets, Rows::new(alloc)).into_vec();
    let completed = complete_in(alloc, sets.as_mut_slice(), path, version);
    pools.sets = Rows::from_vec(sets);
    completed
}

/// Takes a version of the dataset at this path away.
pub(crate) fn remove_version(alloc: Global, pools: &mut Pools, path: &Path, name: &VersionName)
    ensures { pools.new ≡ with_set pools.old path.now (without name.now) }
{
    let mut sets = mem::replace(&mut pools.sets, Rows::new(alloc)).into_vec();
    remove_in(alloc, sets.as_mut_slice(), path, name);
    pools.sets = Rows::from_vec(sets);
}

/// Gives a snapshot of the dataset at this path other tags.
pub(crate) fn change_tags(
    alloc: Global,
    pools: &mut Pools,
    path: &Path,
    name: &SnapName,
    tags: Rows<Tag>,
)
    ensures { pools.new ≡ with_set pools.old path.now (with_tags (Snap name.now) tags) }
{
    let mut sets = mem::replace(&mut pools.sets, Rows::new(alloc)).into_vec();
    tags_in(alloc, sets.as_mut_slice(), path, name, tags);
    pools.sets = Rows::from_vec(sets);
}

/// Leaves this partial receive, or none, on the dataset at this path.
pub(crate) fn set_partial(alloc: Global, pools: &mut Pools, path: &Path, partial: Option<Partial>)
    ensures { pools.new ≡ with_set pools.old path.now (with_partial partial) }
{
    let mut sets = mem::replace(&mut pools.sets, Rows::new(alloc)).into_vec();
    partial_in(sets.as_mut_slice(), path, partial);
    pools.sets = Rows::from_vec(sets);
}

/// Makes a dataset.
pub(crate) fn make_set(alloc: Global, pools: &mut Pools, set: Dataset) -> Result<(), NoMemory>
    ensures ok { OnOk result (pools.new ≡ with_new pools.old set) }
    ensures err { OnErr result (pools.new ≡ pools.old) }
{
    let mut sets = mem::replace(&mut pools.sets, Rows::new(alloc)).into_vec();
    let made = insert_set(&mut sets, set);
    pools.sets = Rows::from_vec(sets);
    made
}

/// Takes the dataset at this path away.
pub(crate) fn remove_set(alloc: Global, pools: &mut Pools, path: &Path)
    ensures { pools.new ≡ without_set pools.old path.now }
{
    let mut sets = mem::replace(&mut pools.sets, Rows::new(alloc)).into_vec();
    retain_elsewhere(&mut sets, path);
    pools.sets = Rows::from_vec(sets);
}

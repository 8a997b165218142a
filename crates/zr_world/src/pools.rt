//! Pools as a model: datasets with their versions and partial receives, the counters, and what is
//! looked up in them.

ghost use Rattle.std.specs.Prelude.{◌≡◌, ◌==◌, ◌++◌, OnOk};
ghost use Rattle.std.specs.List.{list_any};
ghost use Rattle.zr_world.specs.Lookup.{is_component, is_parent};
ghost use Rattle.zr_world.specs.Rows.{from_text};

use std::alloc::{AllocError, Global};
use zr_command::{SetRow, Transfer, VersionName, VersionRow};
use zr_names::names::PATH_LIMIT;
use zr_names::{Bytes, Guid, MarkName, Path, Rows, Same, SnapName, Tag, TokenText};

/// A snapshot or a bookmark as it stands in a pool.
#[derive(Drop)]
pub struct Version {
    pub name: VersionName,
    pub guid: Guid,
    pub txg: u64,
    /// In seconds since 1970-01-01T00:00:00Z.
    pub creation: u64,
    /// The tags of its holds, in order of placing; a bookmark has none.
    pub tags: Rows<Tag>,
}

/// The state that an interrupted receive left on its target (zfs-receive(8), `-s`).
#[derive(Drop)]
pub struct Partial {
    pub to: Guid,
    pub from: Option<Guid>,
    pub source: Path,
}

impl Partial {
    ghost use Rattle.std.specs.Prelude.{◌≡◌, IfOk};
    ghost use Rattle.zr_world.specs.Effect.{partial_of};

    /// The partial receive that a transfer leaves where it is cut.
    pub fn of(transfer: &Transfer) -> Result<Partial, AllocError>
        ensures { IfOk result (λ partial. partial ≡ partial_of transfer.now) }
    {
        Ok(Partial {
            to: transfer.guid,
            from: transfer.base.guid(),
            source: transfer.source.same()?,
        })
    }
}

/// A filesystem or volume with its snapshots and bookmarks.
#[derive(Drop)]
pub struct Dataset {
    pub path: Path,
    pub placeholder: bool,
    pub partial: Option<Partial>,
    pub versions: Rows<Version>,
}

/// All datasets of all pools, the time in seconds, and the next transaction group and guid.
#[derive(Drop)]
pub struct Pools {
    pub sets: Rows<Dataset>,
    pub now: u64,
    pub next_txg: u64,
    pub next_guid: u64,
}

impl Partial {
    ghost use Rattle.std.specs.Prelude.{◌≡◌, IfOk, OnOk};
    ghost use Rattle.zr_names.specs.Names.{IsName, path_is_bad};
    ghost use Rattle.zr_world.specs.Rows.{token_text};

    /// The resume token that the model shows for this partial receive.
    pub fn token(&self, alloc: Global) -> Result<TokenText, AllocError>
        ensures { IfOk result (λ token. token ≡ token_text self.now) }
    {
        let text = self.token_bytes(alloc)?;
        Ok(TokenText::new(Bytes::from_slice(alloc, text.as_slice())?))
    }

    fn token_bytes(&self, alloc: Global) -> Result<Vec<u8>, AllocError>
        ensures value { IfOk result (λ text. text.items ≡ token_text self.now) }
        ensures source { OnOk result (IsName path_is_bad PATH_LIMIT self.now.source) }
    {
        let mut text = Vec::from_slice(alloc, b"1-")?;
        self.to.push_hex(&mut text)?;
        text.push(b'-')?;
        push_from(&mut text, &self.from)?;
        text.push(b'-')?;
        text.extend_from_slice(self.source.as_bytes())?;
        Ok(text)
    }
}

/// Writes the incremental source of a partial receive, or `none`.
fn push_from(text: &mut Vec<u8>, from: &Option<Guid>) -> Result<(), AllocError>
    ensures { OnOk result (text.new.items ≡ text.old.items ++ from_text from.now) }
{
    match from {
        Some(guid) => guid.push_hex(text),
        None => text.extend_from_slice(b"none"),
    }
}

impl Version {
    ghost use Rattle.std.specs.Prelude.{◌≡◌, IfOk};
    ghost use Rattle.zr_world.specs.Effect.{bookmark_of, received, version_before};
    ghost use Rattle.zr_world.specs.Lookup.{has_guid, has_name, is_snapshot};
    ghost use Rattle.zr_world.specs.Rows.{row_of_version};
    ghost use Rattle.zr_command.specs.declared.version.VersionName.TheVariants.{Mark, Snap};

    /// How it shows in a listing.
    pub fn row(&self) -> Result<VersionRow, AllocError>
        ensures { IfOk result (λ row. row ≡ row_of_version self.now) }
    {
        Ok(VersionRow {
            name: self.name.same()?,
            guid: self.guid,
            txg: self.txg,
            creation: self.creation,
            refs: self.tags.len() as u64,
        })
    }

    /// Whether it is the snapshot of this name.
    pub fn is_snap(&self, name: &SnapName) -> bool
        ensures { result ≡ has_name (Snap name.now) self.now }
    {
        match &self.name {
            VersionName::Snap(other) => other == name,
            VersionName::Mark(_) => false,
        }
    }

    /// Whether it is the bookmark of this name.
    pub fn is_mark(&self, name: &MarkName) -> bool
        ensures { result ≡ has_name (Mark name.now) self.now }
    {
        match &self.name {
            VersionName::Snap(_) => false,
            VersionName::Mark(other) => other == name,
        }
    }

    /// Whether it is a snapshot.
    pub fn is_snapshot(&self) -> bool
        ensures { result ≡ is_snapshot self.now }
    {
        match &self.name {
            VersionName::Snap(_) => true,
            VersionName::Mark(_) => false,
        }
    }

    /// Whether it has this name.
    pub fn has_name(&self, name: &VersionName) -> bool
        ensures { result ≡ has_name name.now self.now }
    {
        match name {
            VersionName::Snap(name) => self.is_snap(name),
            VersionName::Mark(name) => self.is_mark(name),
        }
    }

    pub fn has_guid(&self, guid: Guid) -> bool
        ensures { result ≡ has_guid guid self.now }
    {
        self.guid.0 == guid.0
    }

    /// Whether it stands before another in a listing.
    pub fn is_before(&self, other: &Version) -> bool
        ensures { result ≡ version_before self.now other.now }
    {
        self.txg < other.txg || self.txg == other.txg && self.name < other.name
    }

    /// A bookmark of it.
    pub fn bookmark(&self, alloc: Global, mark: &MarkName) -> Result<Version, AllocError>
        ensures { IfOk result (λ version. version ≡ bookmark_of mark.now self.now) }
    {
        Ok(Version {
            name: VersionName::Mark(mark.same()?),
            guid: self.guid,
            txg: self.txg,
            creation: self.creation,
            tags: Rows::new(alloc),
        })
    }

    /// The snapshot that a receive of it makes in this transaction group.
    pub fn received(&self, alloc: Global, txg: u64) -> Result<Version, AllocError>
        ensures { IfOk result (λ version. version ≡ received txg self.now) }
    {
        Ok(Version {
            name: self.name.same()?,
            guid: self.guid,
            txg,
            creation: self.creation,
            tags: Rows::new(alloc),
        })
    }
}

impl Dataset {
    ghost use Rattle.std.specs.Prelude.{◌≡◌, IfOk, find};
    ghost use Rattle.std.specs.Option.{option_copied};
    ghost use Rattle.zr_world.specs.Effect.{new_placeholder, new_set};
    ghost use Rattle.zr_world.specs.Lookup.{has_name, in_first_receive, newest};
    ghost use Rattle.zr_world.specs.Rows.{row_of_set};
    ghost use Rattle.zr_command.specs.declared.version.VersionName.TheVariants.{Mark, Snap};

    /// A dataset without versions, as a transfer makes it.
    pub fn new(alloc: Global, path: Path) -> Dataset
        ensures { result ≡ new_set path }
    {
        Dataset {
            path,
            placeholder: false,
            partial: None,
            versions: Rows::new(alloc),
        }
    }

    /// A dataset without versions, as it is made to stand above the targets of transfers.
    pub fn placeholder(alloc: Global, path: Path) -> Dataset
        ensures { result ≡ new_placeholder path }
    {
        Dataset {
            path,
            placeholder: true,
            partial: None,
            versions: Rows::new(alloc),
        }
    }

    /// How it shows in a listing.
    pub fn row(&self, alloc: Global) -> Result<SetRow, AllocError>
        ensures { IfOk result (λ row. row ≡ row_of_set self.now) }
    {
        let token = match &self.partial {
            Some(partial) => Some(partial.token(alloc)?),
            None => None,
        };
        Ok(SetRow {
            path: self.path.same()?,
            placeholder: self.placeholder,
            token,
        })
    }

    /// Its snapshot of this name.
    pub fn snap<'a>(&'a self, name: &SnapName) -> Option<&'a Version>
        ensures { option_copied result ≡ find (has_name (Snap name.now)) self.now.versions }
    {
        self.versions
            .as_slice()
            .iter()
            .find(|version| version.is_snap(name))
    }

    /// Its bookmark of this name.
    pub fn mark<'a>(&'a self, name: &MarkName) -> Option<&'a Version>
        ensures { option_copied result ≡ find (has_name (Mark name.now)) self.now.versions }
    {
        self.versions
            .as_slice()
            .iter()
            .find(|version| version.is_mark(name))
    }

    /// Its newest snapshot.
    pub fn newest<'a>(&'a self) -> Option<&'a Version>
        ensures { option_copied result ≡ newest self.now }
    {
        self.versions
            .as_slice()
            .iter()
            .rev()
            .find(|version| version.is_snapshot())
    }

    /// Whether it is in its first receive, in which nothing may be made below it.
    pub fn in_first_receive(&self) -> bool
        ensures { result ≡ in_first_receive self.now }
    {
        self.partial.is_some() && self.newest().is_none() && !self.placeholder
    }
}

fn has_slash(name: &[u8]) -> bool
    ensures { result ≡ list_any (λ byte. byte == 47) name.now }
{
    name.iter().any(|byte| *byte == b'/')
}

/// Whether a slash and one component stand behind a parent's path.
fn is_component(rest: &[u8]) -> bool
    ensures { result ≡ is_component rest.now }
{
    match rest.split_first() {
        Some((first, name)) => *first == b'/' && !has_slash(name),
        None => false,
    }
}

/// Whether a dataset is the parent of a path.
fn is_parent(set: &Dataset, path: &[u8]) -> bool
    ensures { result ≡ is_parent path.now set.now }
{
    let parent = set.path.as_bytes();
    parent.len() < path.len()
        && &path[..parent.len()] == parent
        && is_component(&path[parent.len()..])
}

impl Pools {
    ghost use Rattle.std.specs.Prelude.{◌≡◌, IfOk};
    ghost use Rattle.std.specs.Option.{option_copied};
    ghost use Rattle.zr_world.specs.Effect.{first_receive_at, taken};
    ghost use Rattle.zr_world.specs.Lookup.{dataset_at, first_of_guid, parent_at, version_at, versions_at};
    ghost use Rattle.zr_command.specs.declared.version.VersionName.TheVariants.{Mark, Snap};

    /// The dataset at this path.
    pub fn dataset<'a>(&'a self, path: &Path) -> Option<&'a Dataset>
        ensures { option_copied result ≡ dataset_at self.entry.now path.now }
    {
        self.sets.as_slice().iter().find(|set| set.path == *path)
    }

    /// The versions of the dataset at this path, none where it is not there.
    pub fn versions<'a>(&'a self, path: &Path) -> &'a [Version]
        ensures { result.now ≡ versions_at self.entry.now path.now }
    {
        match self.dataset(path) {
            Some(set) => set.versions.as_slice(),
            None => &[],
        }
    }

    /// The first snapshot of this guid of the dataset at this path.
    pub fn first_of_guid<'a>(&'a self, path: &Path, guid: Guid) -> Option<&'a Version>
        ensures { option_copied result ≡ first_of_guid self.entry.now path.now guid }
    {
        self.versions(path)
            .iter()
            .find(|version| version.is_snapshot() && version.has_guid(guid))
    }

    /// The parent of a path. A path of one component has none.
    pub fn parent<'a>(&'a self, path: &Path) -> Option<&'a Dataset>
        ensures { option_copied result ≡ parent_at self.entry.now path.now }
    {
        let path = path.as_bytes();
        self.sets.as_slice().iter().find(|set| is_parent(set, path))
    }

    /// Whether the dataset at this path is in its first receive.
    pub fn in_first_receive(&self, path: &Path) -> bool
        ensures { result ≡ first_receive_at self.entry.now path.now }
    {
        match self.dataset(path) {
            Some(set) => set.in_first_receive(),
            None => false,
        }
    }

    /// A snapshot that is taken now.
    pub fn taken(&self, alloc: Global, name: &SnapName) -> Result<Version, AllocError>
        ensures { IfOk result (λ version. version ≡ taken self.entry.now name.now) }
    {
        Ok(Version {
            name: VersionName::Snap(name.same()?),
            guid: Guid(self.next_guid),
            txg: self.next_txg,
            creation: self.now,
            tags: Rows::new(alloc),
        })
    }

    /// A snapshot of the dataset at this path.
    pub fn snap<'a>(&'a self, path: &Path, name: &SnapName) -> Option<&'a Version>
        ensures { option_copied result ≡ version_at self.entry.now path.now (Snap name.now) }
    {
        self.dataset(path)?.snap(name)
    }

    /// A bookmark of the dataset at this path.
    pub fn mark<'a>(&'a self, path: &Path, name: &MarkName) -> Option<&'a Version>
        ensures { option_copied result ≡ version_at self.entry.now path.now (Mark name.now) }
    {
        self.dataset(path)?.mark(name)
    }

    /// A version of the dataset at this path.
    pub fn version<'a>(&'a self, path: &Path, name: &VersionName) -> Option<&'a Version>
        ensures { option_copied result ≡ version_at self.entry.now path.now name.now }
    {
        match name {
            VersionName::Snap(name) => self.snap(path, name),
            VersionName::Mark(name) => self.mark(path, name),
        }
    }
}

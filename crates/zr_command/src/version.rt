//! The rows of listings, with their copies.

use std::alloc::AllocError;
use zr_names::{Guid, MarkName, Path, Same, SnapName, TokenText};

/// The name of a snapshot or a bookmark of one dataset.
#[derive(PartialEq, Eq, PartialOrd, Ord, Drop)]
pub enum VersionName {
    Snap(SnapName),
    Mark(MarkName),
}

/// One row of a listing of all datasets.
#[derive(Drop)]
pub struct SetRow {
    pub path: Path,
    /// Whether `zrepl:placeholder` is `on`.
    pub placeholder: bool,
    /// The resume token of an interrupted receive.
    pub token: Option<TokenText>,
}

/// One row of a listing of a dataset's snapshots and bookmarks.
#[derive(Drop)]
pub struct VersionRow {
    pub name: VersionName,
    pub guid: Guid,
    /// The transaction group in which it was made (zfsprops(7), `createtxg`).
    pub txg: u64,
    /// When it was made, in seconds since 1970-01-01T00:00:00Z.
    pub creation: u64,
    /// How many holds it has (zfsprops(7), `userrefs`); 0 for a bookmark.
    pub refs: u64,
}

/// What a resume token says of the stream that it resumes (zfs-send(8), `-nvt`).
#[derive(Clone, Copy)]
pub struct TokenInfo {
    /// That of the snapshot that is sent.
    pub to: Guid,
    /// That of the snapshot or bookmark which the stream goes on from; none where it is in full.
    pub from: Option<Guid>,
}

impl Same for VersionName {
    fn same(&self) -> Result<VersionName, AllocError> {
        match self {
            VersionName::Snap(name) => Ok(VersionName::Snap(name.same()?)),
            VersionName::Mark(name) => Ok(VersionName::Mark(name.same()?)),
        }
    }
}

impl Same for SetRow {
    fn same(&self) -> Result<SetRow, AllocError> {
        let token = match &self.token {
            Some(token) => Some(token.same()?),
            None => None,
        };
        Ok(SetRow {
            path: self.path.same()?,
            placeholder: self.placeholder,
            token,
        })
    }
}

impl Same for VersionRow {
    fn same(&self) -> Result<VersionRow, AllocError> {
        Ok(VersionRow {
            name: self.name.same()?,
            guid: self.guid,
            txg: self.txg,
            creation: self.creation,
            refs: self.refs,
        })
    }
}

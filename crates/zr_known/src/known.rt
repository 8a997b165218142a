//! What a replication knows of its pair, and of each side.

use std::alloc::Global;
use zr_command::{SetRow, VersionRow};
use zr_names::{JobName, Path, Rows, SnapName};

/// What is known of whether a dataset is there.
#[derive(Clone, Copy, PartialEq, Eq)]
pub enum Presence {
    /// The datasets were not listed.
    Unlisted,
    Absent,
    /// It is there, with this placeholder flag.
    There(bool),
}

/// What is known of a partial receive.
#[derive(Clone, Copy, PartialEq, Eq)]
pub enum Receiving {
    /// It was not listed, or there is one.
    Unknown,
    Nothing,
}

/// What is known of one dataset of a pair.
#[derive(Drop)]
pub struct Side {
    /// Its last listing.
    pub listing: Option<Rows<VersionRow>>,
    /// The snapshots whose holds were listed.
    pub asked: Rows<SnapName>,
    /// The snapshots with the job's hold: the step hold on the source, the last-received hold on the target.
    pub held: Rows<SnapName>,
}

/// What a replication unit has been told.
#[derive(Drop)]
pub struct Known {
    pub source: Side,
    pub target: Side,
    /// The job's cursors and tentative cursors on the source.
    pub marks: Rows<VersionRow>,
    /// The last listing of the datasets.
    pub sets: Option<Rows<SetRow>>,
    /// Whether the target is there.
    pub presence: Presence,
    /// The target's snapshots that were transferred since its last listing, where its versions are known.
    pub arrived: Option<Rows<VersionRow>>,
    /// Whether a transfer was done.
    pub transferred: bool,
    /// The target's partial receive.
    pub receiving: Receiving,
}

impl Side {
    ghost use Rattle.std.specs.Prelude.{◌≡◌};
    ghost use Rattle.zr_known.specs.Known.{nothing_listed, rows_of};

    /// Nothing of it was listed.
    pub fn new(alloc: Global) -> Side
        ensures { result ≡ nothing_listed }
    {
        Side {
            listing: None,
            asked: Rows::new(alloc),
            held: Rows::new(alloc),
        }
    }

    /// The rows of its last listing.
    pub fn rows(&self) -> &[VersionRow]
        ensures { result.now ≡ rows_of self.now.listing }
    {
        match &self.listing {
            Some(rows) => rows.as_slice(),
            None => &[],
        }
    }
}

impl Known {
    ghost use Rattle.std.specs.Prelude.{◌≡◌};
    ghost use Rattle.zr_known.specs.Known.{nothing_known};

    /// Nothing was told yet.
    pub fn new(alloc: Global) -> Known
        ensures { result ≡ nothing_known }
    {
        Known {
            source: Side::new(alloc),
            target: Side::new(alloc),
            marks: Rows::new(alloc),
            sets: None,
            presence: Presence::Unlisted,
            arrived: None,
            transferred: false,
            receiving: Receiving::Unknown,
        }
    }
}

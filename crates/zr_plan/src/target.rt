//! The target's side of a plan: what it has, what it is receiving, and why a plan is a conflict.

use zr_command::VersionRow;
use zr_names::{Guid, Rows, SnapName};

/// What the resume token of a partial receive tells of the send that was cut (zfs(8), `send -nvt`).
#[derive(Clone, Copy, PartialEq, Eq)]
pub struct TokenInfo {
    /// The snapshot that was being received.
    pub to: Guid,
    /// The incremental source, which a send in full has not.
    pub from: Option<Guid>,
}

/// What is known of a replication's target. Its versions are those that were listed, and then what arrived since.
#[derive(Drop)]
pub struct Target<'a> {
    /// Whether the dataset is there.
    pub there: bool,
    /// Whether `zrepl:placeholder` is `on`.
    pub placeholder: bool,
    /// Its versions in the order of the listing.
    pub listing: &'a [VersionRow],
    /// What it received after the listing, in order.
    pub arrived: &'a [VersionRow],
    /// Its partial receive.
    pub partial: Option<TokenInfo>,
}

/// One transfer of a snapshot of the source.
#[derive(Drop)]
pub struct Step {
    pub to: SnapName,
    pub guid: Guid,
    /// Whether it is sent in full; else it is an increment from the snapshot that the target has last.
    pub full: bool,
}

/// Why replication can't go on by itself.
#[derive(Clone, Copy, PartialEq, Eq)]
pub enum Conflict {
    /// The source has no snapshot.
    NoSenderSnapshots,
    /// No snapshot of the target has a version on the source.
    NoCommon,
    /// The target has snapshots after the last one that the source has a version of.
    Diverged { common: Guid, newer: Guid },
    /// The target is there, and has no snapshot.
    TargetInUse,
    /// The target is to be filled, and the policy forbids it.
    InitialRefused,
}

impl Conflict {
    ghost use Rattle.std.specs.Prelude.{◌≡◌};
    ghost use Rattle.zr_plan.specs.Plan.{conflict_number};

    /// The number by which an outcome names it.
    pub fn number(self) -> u8
        ensures { result ≡ conflict_number self }
    {
        match self {
            Conflict::NoSenderSnapshots => 1,
            Conflict::NoCommon => 2,
            Conflict::Diverged { .. } => 3,
            Conflict::TargetInUse => 4,
            Conflict::InitialRefused => 5,
        }
    }
}

/// What a replication does next.
#[derive(Drop)]
pub enum Planned {
    /// Nothing: the target has what the source has.
    UpToDate,
    /// These transfers, one after the other.
    Steps(Rows<Step>),
    /// The rest of the partial receive, which is of this snapshot.
    Resume { to: SnapName, guid: Guid },
    /// The partial receive is given up.
    Abandon,
    Conflict(Conflict),
}

//! The source's side of a plan: its snapshots, and the versions that a send can start from.

use zr_command::VersionRow;

/// The source as a plan reads it: the snapshots of its listing, and then the job's marks as they are now. What else the
/// listing shows is passed over.
#[derive(Drop)]
pub struct Source<'a> {
    pub listing: &'a [VersionRow],
    pub marks: &'a [VersionRow],
}

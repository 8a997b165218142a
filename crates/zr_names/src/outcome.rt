//! How a unit of work ended.

/// How a unit of work ended. A number stays at `u32::MAX` once there.
#[derive(Clone, Copy, PartialEq, Eq)]
pub enum Outcome {
    /// A scan found this many paths, and this many whose name is too long.
    Scanned { found: u32, too_long: u32 },
    /// So many missing datasets were made.
    Parents(u32),
    /// A snapshot was taken.
    Taken,
    /// A snapshot is younger than the interval.
    FreshEnough,
    /// The target has what the source has.
    UpToDate,
    /// So many steps were transferred.
    Replicated(u32),
    /// So many snapshots were destroyed, and so many destroys failed.
    Pruned { destroyed: u32, busy: u32 },
    /// Replication can't go on by itself, for the reason of this number.
    Conflict(u8),
    /// The unit's command of this number, counted from 1, was answered as failed.
    ChildFault(u32),
    /// The listing of the unit's command of this number is not in its grammar, at this line.
    Garbled { at: u32, line: u64 },
    /// Memory was refused.
    NoMemory,
}

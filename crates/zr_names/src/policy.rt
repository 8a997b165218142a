//! The policies of a replication, as a job file names them.

/// Which snapshots a replication sends first where the target has none.
#[derive(Clone, Copy, PartialEq, Eq)]
pub enum Initial {
    /// The newest snapshot alone.
    MostRecent,
    /// All snapshots, from the oldest on.
    All,
    /// None: replication fails.
    Fail,
}

/// What a replication step leaves on the source before it begins.
#[derive(Clone, Copy, PartialEq, Eq)]
pub enum Protection {
    /// A hold on the snapshot that is sent, so that an interrupted step can be resumed.
    Resumability,
    /// A bookmark of the snapshot that is sent, so that the next step can be incremental.
    Incremental,
    /// Neither.
    Nothing,
}

//! The fields that the tables of a job file have.

/// A field of some table (zrepl's documentation, "Configuration").
#[derive(Clone, Copy)]
pub enum Field {
    Jobs,
    Global,
    Name,
    Type,
    Connect,
    Serve,
    RootFs,
    Interval,
    Filesystems,
    Snapshotting,
    Replication,
    ConflictResolution,
    Pruning,
    ListenerName,
    ClientIdentity,
    Prefix,
    Cron,
    Protection,
    Concurrency,
    MigrateOldCursor,
    Initial,
    Incremental,
    Steps,
    InitialReplication,
    KeepSender,
    KeepReceiver,
    Keep,
    Grid,
    Regex,
    Count,
    KeepSnapshotAtCursor,
    Negate,
}

impl Field {
    ghost use Rattle.std.specs.Prelude.{◌≡◌};
    ghost use Rattle.zr_jobwalk.specs.Fields.{name_of};

    /// The key that the field has in its table.
    pub fn name(self) -> &'static str
        ensures { result.now ≡ name_of self }
    {
        match self {
            Field::Jobs => "jobs",
            Field::Global => "global",
            Field::Name => "name",
            Field::Type => "type",
            Field::Connect => "connect",
            Field::Serve => "serve",
            Field::RootFs => "root_fs",
            Field::Interval => "interval",
            Field::Filesystems => "filesystems",
            Field::Snapshotting => "snapshotting",
            Field::Replication => "replication",
            Field::ConflictResolution => "conflict_resolution",
            Field::Pruning => "pruning",
            Field::ListenerName => "listener_name",
            Field::ClientIdentity => "client_identity",
            Field::Prefix => "prefix",
            Field::Cron => "cron",
            Field::Protection => "protection",
            Field::Concurrency => "concurrency",
            Field::MigrateOldCursor => "migrate_old_cursor",
            Field::Initial => "initial",
            Field::Incremental => "incremental",
            Field::Steps => "steps",
            Field::InitialReplication => "initial_replication",
            Field::KeepSender => "keep_sender",
            Field::KeepReceiver => "keep_receiver",
            Field::Keep => "keep",
            Field::Grid => "grid",
            Field::Regex => "regex",
            Field::Count => "count",
            Field::KeepSnapshotAtCursor => "keep_snapshot_at_cursor",
            Field::Negate => "negate",
        }
    }
}

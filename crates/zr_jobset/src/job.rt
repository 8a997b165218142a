//! A job as a job file has it, and what jobs of its kind do.

ghost use Rattle.std.specs.Prelude.{◌≡◌};
ghost use Rattle.zr_jobset.specs.Kinds.{is_named};

use zr_filter::Filter;
use zr_jobs::Identity;
use zr_names::{Initial, JobName, Path, Prefix, Protection, Rows};
use zr_rules::RuleSpec;
use zr_schedule::When;

/// The kinds of jobs (zrepl's documentation, "Job Types").
#[derive(Clone, Copy)]
pub enum JobKind {
    /// Sends its filesystems to a sink.
    Push,
    /// Fetches the filesystems of a source.
    Pull,
    /// Receives what push jobs send.
    Sink,
    /// Sends to pull jobs what they fetch.
    Source,
    /// Takes and prunes snapshots, and replicates nothing.
    Snap,
}

impl JobKind {
    ghost use Rattle.std.specs.Prelude.{◌≡◌};
    ghost use Rattle.zr_jobset.specs.Kinds.{is_client, is_server, is_push, is_pull, is_snap, meets};
    ghost use Rattle.zr_jobset.specs.Kinds.{is_sink, is_source};

    pub fn is_push(self) -> bool
        ensures { result ≡ is_push self }
    {
        match self {
            JobKind::Push => true,
            JobKind::Pull | JobKind::Sink | JobKind::Source | JobKind::Snap => false,
        }
    }

    pub fn is_pull(self) -> bool
        ensures { result ≡ is_pull self }
    {
        match self {
            JobKind::Pull => true,
            JobKind::Push | JobKind::Sink | JobKind::Source | JobKind::Snap => false,
        }
    }

    pub fn is_sink(self) -> bool
        ensures { result ≡ is_sink self }
    {
        match self {
            JobKind::Sink => true,
            JobKind::Push | JobKind::Pull | JobKind::Source | JobKind::Snap => false,
        }
    }

    pub fn is_source(self) -> bool
        ensures { result ≡ is_source self }
    {
        match self {
            JobKind::Source => true,
            JobKind::Push | JobKind::Pull | JobKind::Sink | JobKind::Snap => false,
        }
    }

    pub fn is_snap(self) -> bool
        ensures { result ≡ is_snap self }
    {
        match self {
            JobKind::Snap => true,
            JobKind::Push | JobKind::Pull | JobKind::Sink | JobKind::Source => false,
        }
    }

    /// Whether a job of this kind connects to a listener.
    pub fn is_client(self) -> bool
        ensures { result ≡ is_client self }
    {
        self.is_push() || self.is_pull()
    }

    /// Whether a job of this kind serves a listener.
    pub fn is_server(self) -> bool
        ensures { result ≡ is_server self }
    {
        self.is_sink() || self.is_source()
    }

    /// Whether a client of this kind works with such a server: a push with a sink, a pull with a source.
    pub fn meets(self, server: JobKind) -> bool
        ensures { result ≡ meets self server }
    {
        self.is_push() && server.is_sink() || self.is_pull() && server.is_source()
    }
}

/// How a job replicates (zrepl's documentation, "Replication Options").
#[derive(Clone, Copy)]
pub struct Policy {
    pub initial: Initial,
    /// Of the first replication of a filesystem.
    pub first: Protection,
    /// Of each later one.
    pub later: Protection,
}

/// A job. A field that its kind has not is None or empty, `When::Never`, false, or the default; `steps` is then 1.
#[derive(Drop)]
pub struct Job {
    pub kind: JobKind,
    pub filter: Filter,
    /// When snapshots are taken, or when a pull job fetches.
    pub when: When,
    /// What the names of the job's snapshots begin with.
    pub prefix: Option<Prefix>,
    /// Below which a sink or a pull job puts what it receives.
    pub root: Option<Path>,
    /// The listener that the job serves or connects to.
    pub listener: Option<JobName>,
    /// The name by which the server knows a client.
    pub identity: Option<Identity>,
    pub policy: Policy,
    /// How many steps may run at once.
    pub steps: u32,
    /// Whether the job takes over the replication cursor of earlier versions.
    pub migrate: bool,
    /// The rules of the sending side; a snap job has these alone.
    pub keep_source: Rows<RuleSpec>,
    /// The rules of the receiving side.
    pub keep_target: Rows<RuleSpec>,
}

/// Whether a name is there and is this one.
pub(crate) fn is_named(name: &JobName, own: &Option<JobName>) -> bool
    ensures { result ≡ is_named name.now own.now }
{
    match own {
        Some(own) => own == name,
        None => false,
    }
}

impl Job {
    ghost use Rattle.std.specs.Prelude.{◌≡◌};
    ghost use Rattle.zr_jobset.specs.Kinds.{serves};

    /// Whether this job serves the listener of this name.
    pub fn serves(&self, name: &JobName) -> bool
        ensures { result ≡ serves name.now self.now }
    {
        self.kind.is_server() && is_named(name, &self.listener)
    }
}

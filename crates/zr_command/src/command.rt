//! Commands, replies, answers and the entries of a record, with their copies.

ghost use Rattle.std.specs.Prelude.{◌≡◌, IfOk};
ghost use Rattle.zr_command.specs.Plain.{no_guid, no_name};

use crate::names::Names;
use crate::version::{SetRow, TokenInfo, VersionName, VersionRow};
use std::alloc::{AllocError, Global};
use zr_names::{
    Bytes, Guid, JobName, MarkName, Path, Rows, Same, SnapName, Tag, TagKind, TokenText, Unit,
};

/// What a transfer starts from (zfs-send(8)).
#[derive(Drop)]
pub enum Base {
    /// From nothing: the whole snapshot is sent.
    Full,
    /// From a bookmark on the source, of this guid: what changed since is sent.
    From(MarkName, Guid),
    /// From where an interrupted receive stopped (zfs-send(8), `-t`): its token, and the guid of what the stream goes on from,
    /// if it is not in full.
    Resume(TokenText, Option<Guid>),
}

/// A send of one snapshot into a receive (zfs-send(8), zfs-receive(8)).
#[derive(Drop)]
pub struct Transfer {
    pub source: Path,
    pub to: SnapName,
    /// That of the snapshot `to` on the source.
    pub guid: Guid,
    pub base: Base,
    pub target: Path,
    /// Whether the receive may take the place of what the target holds (zfs-receive(8), `-F`).
    pub force: bool,
}

/// A command that is given to ZFS.
#[derive(Drop)]
pub enum Cmd {
    /// Lists all datasets (zfs-list(8)).
    Sets,
    /// Lists the snapshots and bookmarks of a dataset (zfs-list(8)).
    Versions(Path),
    /// Lists the holds of a snapshot (zfs-holds(8)).
    Holds(Path, SnapName),
    /// Lists what a resume token says (zfs-send(8), `-nvt`).
    Token(TokenText),
    /// Takes a snapshot of a dataset (zfs-snapshot(8)).
    Snapshot(Path, SnapName),
    /// Puts the hold of a job on a snapshot (zfs-hold(8)).
    Hold(TagKind, JobName, Path, SnapName),
    /// Takes the hold of a job off a snapshot (zfs-release(8)).
    Release(TagKind, JobName, Path, SnapName),
    /// Makes a bookmark of a snapshot, or of a bookmark, of the same dataset (zfs-bookmark(8)).
    Bookmark(Path, VersionName, MarkName),
    /// Destroys snapshots of one dataset, those of them that are there (zfs-destroy(8)).
    DestroySnaps(Path, Names),
    /// Destroys a bookmark (zfs-destroy(8)).
    DestroyMark(Path, MarkName),
    /// Makes a placeholder: a dataset without a mount point, with the property `zrepl:placeholder` (zfs-create(8)).
    Create(Path),
    /// Sends a snapshot from one dataset to another.
    Transfer(Transfer),
    /// Gives up the partial receive of a dataset (zfs-receive(8), `-A`).
    Abort(Path),
}

/// What a command that took effect gives back.
#[derive(Drop)]
pub enum Reply {
    Nothing,
    Sets(Rows<SetRow>),
    Versions(Rows<VersionRow>),
    /// The tags of a snapshot's holds.
    Holds(Rows<Tag>),
    Token(TokenInfo),
}

/// How a command was answered.
#[derive(Drop)]
pub enum Answer {
    /// It took its whole effect.
    Done(Reply),
    /// Whether it took effect, or how much of it, is not known.
    Failed,
    /// A listing came whose line of this number, counted from 1, is not in the grammar.
    Garbled(u64),
    NoMemory,
}

impl Base {
    ghost use Rattle.std.specs.Prelude.{◌≡◌, IfOk};
    ghost use Rattle.zr_command.specs.Plain.{base_guid};

    /// The guid that the target's newest snapshot has to have.
    pub fn guid(&self) -> Option<Guid>
        ensures { result ≡ base_guid self.now }
    {
        match self {
            Base::Full => None,
            Base::From(_, guid) => Some(*guid),
            Base::Resume(_, from) => *from,
        }
    }
}

/// The path that stands where words name none.
#[tactic(auto, using(crate::proofs::Unnamed::unnamed_path))]
fn no_path(alloc: Global) -> Result<Path, AllocError>
    ensures { IfOk result (λ path. path ≡ no_name) }
{
    Ok(Path::new(Bytes::from_slice(alloc, b"-")?))
}

/// The snapshot's name that stands where words name none.
#[tactic(auto, using(crate::proofs::Unnamed::unnamed_snap))]
fn no_snap(alloc: Global) -> Result<SnapName, AllocError>
    ensures { IfOk result (λ name. name ≡ no_name) }
{
    Ok(SnapName::new(Bytes::from_slice(alloc, b"-")?))
}

impl Transfer {
    ghost use Rattle.std.specs.Prelude.{◌≡◌, IfOk};
    ghost use Rattle.zr_command.specs.Plain.{plain_transfer, resumed};

    /// A transfer of this base as its words tell it, where they name the source and the snapshot.
    fn named(&self, base: Base) -> Result<Transfer, AllocError>
        ensures { IfOk result
            (λ transfer. transfer ≡ record self.now { guid = no_guid; base = base }) }
    {
        Ok(Transfer {
            source: self.source.same()?,
            to: self.to.same()?,
            guid: Guid(0),
            base,
            target: self.target.same()?,
            force: self.force,
        })
    }

    /// A resume with this token as its words tell it.
    fn resumed(&self, alloc: Global, token: &TokenText) -> Result<Transfer, AllocError>
        ensures { IfOk result (λ transfer. transfer ≡ resumed self.now token.now) }
    {
        Ok(Transfer {
            source: no_path(alloc)?,
            to: no_snap(alloc)?,
            guid: Guid(0),
            base: Base::Resume(token.same()?, None),
            target: self.target.same()?,
            force: self.force,
        })
    }

    fn plain(&self, alloc: Global) -> Result<Transfer, AllocError>
        ensures { IfOk result (λ transfer. transfer ≡ plain_transfer self.now) }
    {
        match &self.base {
            Base::Full => self.named(Base::Full),
            Base::From(mark, _) => self.named(Base::From(mark.same()?, Guid(0))),
            Base::Resume(token, _) => self.resumed(alloc, token),
        }
    }
}

impl Cmd {
    ghost use Rattle.std.specs.Prelude.{◌≡◌, IfOk};
    ghost use Rattle.zr_command.specs.Plain.{plain};

    /// The command as its words tell it: those of a transfer name no guids, and those of a resume neither the source nor
    /// the snapshot.
    pub fn plain(&self, alloc: Global) -> Result<Cmd, AllocError>
        ensures { IfOk result (λ command. command ≡ plain self.now) }
    {
        match self {
            Cmd::Transfer(transfer) => Ok(Cmd::Transfer(transfer.plain(alloc)?)),
            Cmd::Sets
            | Cmd::Versions(_)
            | Cmd::Holds(_, _)
            | Cmd::Token(_)
            | Cmd::Snapshot(_, _)
            | Cmd::Hold(_, _, _, _)
            | Cmd::Release(_, _, _, _)
            | Cmd::Bookmark(_, _, _)
            | Cmd::DestroySnaps(_, _)
            | Cmd::DestroyMark(_, _)
            | Cmd::Create(_)
            | Cmd::Abort(_) => self.same(),
        }
    }
}

/// A copy of a hold command.
fn same_hold(kind: TagKind, job: &JobName, path: &Path, name: &SnapName) -> Result<Cmd, AllocError>
    ensures { IfOk result (λ copy. copy ≡ Cmd.Hold kind job.now path.now name.now) }
{
    Ok(Cmd::Hold(kind, job.same()?, path.same()?, name.same()?))
}

/// A copy of a release command.
fn same_release(
    kind: TagKind,
    job: &JobName,
    path: &Path,
    name: &SnapName,
) -> Result<Cmd, AllocError>
    ensures { IfOk result (λ copy. copy ≡ Cmd.Release kind job.now path.now name.now) }
{
    Ok(Cmd::Release(kind, job.same()?, path.same()?, name.same()?))
}

/// A copy of a bookmark command.
fn same_bookmark(path: &Path, version: &VersionName, mark: &MarkName) -> Result<Cmd, AllocError>
    ensures { IfOk result (λ copy. copy ≡ Cmd.Bookmark path.now version.now mark.now) }
{
    Ok(Cmd::Bookmark(path.same()?, version.same()?, mark.same()?))
}

/// One entry of a runner's record. `Program` and `Stray` stand in records of children alone.
#[derive(Drop)]
pub enum Entry {
    /// What follows are runs and calls of children of this program.
    Program(Bytes),
    /// A run of a unit began, under this run number.
    Begin(Unit, u64),
    /// A command was given and answered; it stands as its words tell it, without guids.
    Call(Cmd, Answer),
    /// A child was started that is no command: its words spell none, or it is another program than `zfs`.
    Stray,
}

impl Same for Base {
    fn same(&self) -> Result<Base, AllocError> {
        match self {
            Base::Full => Ok(Base::Full),
            Base::From(mark, guid) => Ok(Base::From(mark.same()?, *guid)),
            Base::Resume(token, from) => Ok(Base::Resume(token.same()?, *from)),
        }
    }
}

impl Same for Transfer {
    fn same(&self) -> Result<Transfer, AllocError> {
        Ok(Transfer {
            source: self.source.same()?,
            to: self.to.same()?,
            guid: self.guid,
            base: self.base.same()?,
            target: self.target.same()?,
            force: self.force,
        })
    }
}

impl Same for Cmd {
    fn same(&self) -> Result<Cmd, AllocError> {
        match self {
            Cmd::Sets => Ok(Cmd::Sets),
            Cmd::Versions(path) => Ok(Cmd::Versions(path.same()?)),
            Cmd::Holds(path, name) => Ok(Cmd::Holds(path.same()?, name.same()?)),
            Cmd::Token(token) => Ok(Cmd::Token(token.same()?)),
            Cmd::Snapshot(path, name) => Ok(Cmd::Snapshot(path.same()?, name.same()?)),
            Cmd::Hold(kind, job, path, name) => same_hold(*kind, job, path, name),
            Cmd::Release(kind, job, path, name) => same_release(*kind, job, path, name),
            Cmd::Bookmark(path, version, mark) => same_bookmark(path, version, mark),
            Cmd::DestroySnaps(path, names) => Ok(Cmd::DestroySnaps(path.same()?, names.same()?)),
            Cmd::DestroyMark(path, mark) => Ok(Cmd::DestroyMark(path.same()?, mark.same()?)),
            Cmd::Create(path) => Ok(Cmd::Create(path.same()?)),
            Cmd::Transfer(transfer) => Ok(Cmd::Transfer(transfer.same()?)),
            Cmd::Abort(path) => Ok(Cmd::Abort(path.same()?)),
        }
    }
}

impl Same for Reply {
    fn same(&self) -> Result<Reply, AllocError> {
        match self {
            Reply::Nothing => Ok(Reply::Nothing),
            Reply::Sets(rows) => Ok(Reply::Sets(rows.same()?)),
            Reply::Versions(rows) => Ok(Reply::Versions(rows.same()?)),
            Reply::Holds(tags) => Ok(Reply::Holds(tags.same()?)),
            Reply::Token(info) => Ok(Reply::Token(*info)),
        }
    }
}

impl Same for Answer {
    fn same(&self) -> Result<Answer, AllocError> {
        match self {
            Answer::Done(reply) => Ok(Answer::Done(reply.same()?)),
            Answer::Failed => Ok(Answer::Failed),
            Answer::Garbled(line) => Ok(Answer::Garbled(*line)),
            Answer::NoMemory => Ok(Answer::NoMemory),
        }
    }
}

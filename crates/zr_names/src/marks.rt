//! The tags and bookmarks that a job puts on a dataset, spelled and told apart.

ghost use Rattle.std.specs.Prelude.{◌≡◌, ◌≢◌, ◌↔◌, ◌++◌, ℕ, List, codes, IfOk, IsTrue, MatchOption};
ghost use Rattle.zr_names.specs.Marks.{cursor_text, guid_and_job, HasGuid, IsMark, mark_kind, tag_front, tag_text, tentative_text};

use crate::hex::read_hex;
use crate::names::{JobName, MarkName, Tag};
use crate::unit::Guid;
use std::alloc::Global;
use zr_base::{Bytes, NoMemory};

const CURSOR: &[u8] = b"zrepl_CURSOR_G_";

const TENTATIVE: &[u8] = b"zrepl_CURSORTENTATIVE_G_";

const OLD_CURSOR: &[u8] = b"zrepl_replication_cursor";

const OF_JOB: &[u8] = b"_J_";

/// The holds that a job puts on snapshots.
#[derive(Clone, Copy, PartialEq, Eq)]
pub enum TagKind {
    /// On a source snapshot while a step sends it.
    Step,
    /// On the snapshot that the target received last.
    Last,
}

/// What a bookmark is to a job.
#[derive(Clone, Copy, PartialEq, Eq)]
pub enum MarkKind {
    /// The job's replication cursor at the snapshot of this guid.
    Cursor(Guid),
    /// The job's tentative cursor at the snapshot of this guid, which a step that isn't done leaves.
    Tentative(Guid),
    /// The cursor of earlier versions, which names no job.
    OldCursor,
    /// No mark of the job.
    Other,
}

impl TagKind {
    ghost use Rattle.std.specs.Prelude.{◌≡◌};
    ghost use Rattle.zr_names.specs.Marks.{tag_front};

    fn front(self) -> &'static [u8]
        ensures { result.now ≡ tag_front self }
    {
        match self {
            TagKind::Step => b"zrepl_STEP_J_",
            TagKind::Last => b"zrepl_last_received_J_",
        }
    }
}

/// The tag of the job's holds of a kind.
pub fn tag_of(alloc: Global, kind: TagKind, job: &JobName) -> Result<Tag, NoMemory>
    ensures { IfOk result (λ tag. tag ≡ tag_text kind job.now) }
{
    let mut text = Vec::new(alloc);
    text.extend_from_slice(kind.front())?;
    text.extend_from_slice(job.as_bytes())?;
    Ok(Tag::new(Bytes::from_vec(text)))
}

/// What follows a front.
fn after<'a>(text: &'a [u8], front: &[u8]) -> Option<&'a [u8]>
    ensures { MatchOption result ((rest : List ℕ) → text.now ≢ front.now ++ rest)
        (λ rest. text.now ≡ front.now ++ rest.now) }
{
    text.strip_prefix(front)
}

/// Whether a tag is that of the job's holds of a kind.
pub fn is_tag(tag: &Tag, kind: TagKind, job: &JobName) -> bool
    ensures { IsTrue result ↔ (tag.now ≡ tag_text kind job.now) }
{
    match after(tag.as_bytes(), kind.front()) {
        Some(rest) => rest == job.as_bytes(),
        None => false,
    }
}

fn mark_text(alloc: Global, front: &[u8], guid: Guid, job: &[u8]) -> Result<Bytes, NoMemory>
    ensures { IfOk result (λ text. text ≡ front.now ++ guid_and_job guid.0 job.now) }
{
    let mut text = Vec::new(alloc);
    text.extend_from_slice(front)?;
    guid.push_hex(&mut text)?;
    text.extend_from_slice(OF_JOB)?;
    text.extend_from_slice(job)?;
    Ok(Bytes::from_vec(text))
}

/// The name of the job's replication cursor at the snapshot of a guid.
pub fn cursor_name(alloc: Global, guid: Guid, job: &JobName) -> Result<MarkName, NoMemory>
    ensures { IfOk result (λ name. name ≡ cursor_text guid.0 job.now) }
{
    Ok(MarkName::new(mark_text(alloc, CURSOR, guid, job.as_bytes())?))
}

/// The name of the job's tentative cursor at the snapshot of a guid.
pub fn tentative_name(alloc: Global, guid: Guid, job: &JobName) -> Result<MarkName, NoMemory>
    ensures { IfOk result (λ name. name ≡ tentative_text guid.0 job.now) }
{
    Ok(MarkName::new(mark_text(alloc, TENTATIVE, guid, job.as_bytes())?))
}

/// The guid that stands before a job in what follows a front.
fn guid_before(text: &[u8], job: &[u8]) -> Option<Guid>
    ensures { MatchOption result ((guid : ℕ) → text.now ≢ guid_and_job guid job.now)
        (λ guid. text.now ≡ guid_and_job guid.0 job.now) }
{
    if text.len() < 16 {
        return None;
    }
    let (digits, rest) = text.split_at(16);
    let Some(own) = after(rest, OF_JOB) else {
        return None;
    };
    if own != job {
        return None;
    }
    match read_hex(digits) {
        Some(guid) => Some(Guid(guid)),
        None => None,
    }
}

fn guid_after(name: &[u8], front: &[u8], job: &[u8]) -> Option<Guid>
    ensures { MatchOption result ((guid : ℕ) → name.now ≢ front.now ++ guid_and_job guid job.now)
        (λ guid. name.now ≡ front.now ++ guid_and_job guid.0 job.now) }
{
    match after(name, front) {
        Some(rest) => guid_before(rest, job),
        None => None,
    }
}

fn kind_of(name: &[u8], job: &[u8]) -> MarkKind
    ensures spelled { IsMark name.now job.now result }
    ensures fits { HasGuid result }
{
    if let Some(guid) = guid_after(name, CURSOR, job) {
        MarkKind::Cursor(guid)
    } else if let Some(guid) = guid_after(name, TENTATIVE, job) {
        MarkKind::Tentative(guid)
    } else if name == OLD_CURSOR {
        MarkKind::OldCursor
    } else {
        MarkKind::Other
    }
}

/// What a bookmark of this name is to a job.
pub fn mark_of(name: &MarkName, job: &JobName) -> MarkKind
    ensures spelled { IsMark name.now job.now result }
    ensures kind { result ≡ mark_kind name.now job.now }
{
    kind_of(name.as_bytes(), job.as_bytes())
}

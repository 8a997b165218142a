//! Why a command is refused: the table of refusals, each with its first reason that applies.

ghost use Rattle.std.specs.Prelude.{◌≡◌, ◌∷◌, [], None, Some, false, is_none, not, ◌++◌, Bool, IfOk, List};
ghost use Rattle.std.specs.List.{list_any};
ghost use Rattle.zr_world.specs.declared.effects.Refusal.{Refusal as RefusalValue};
ghost use Rattle.std.specs.Option.{option_copied, option_map_or};
ghost use Rattle.zr_names.specs.Marks.{tag_text};
ghost use Rattle.zr_world.specs.Tokens.{partial_of_token};
ghost use Rattle.zr_world.specs.Lookup.{dataset_at, has_guid, has_source, tags_at, version_at};
ghost use Rattle.zr_command.specs.Names.{is_tagged, same_text};
ghost use Rattle.zr_world.specs.Reasons.{first_that_applies, are_spent, full_reasons, increment_reasons, is_held, is_spent, is_there, reasons, refusal, source_reasons, arrival_reasons, partial_reasons, transfer_reasons};
ghost use Rattle.zr_command.specs.declared.command.Cmd.TheVariants as cmd;
ghost use Rattle.zr_world.specs.declared.effects.Refusal.TheVariants.{Held, NoSuch, Spent};
ghost use Rattle.zr_command.specs.declared.version.VersionName.TheVariants.{Snap};

use crate::effects::Refusal;
use crate::pools::{Dataset, Pools, Version};
use crate::token::{is_shown, partial_of_token};
use std::alloc::Global;
use zr_command::{Base, Cmd, Transfer, VersionName};
use zr_names::{
    Guid, JobName, MarkName, NoMemory, Path, SnapName, Tag, TagKind, TokenText, is_tag,
};

/// Whether a tag is that of a job's holds of a kind.
pub(crate) fn is_of(tag: &Tag, kind: TagKind, job: &JobName) -> bool
    ensures { result ≡ same_text tag.now (tag_text kind job.now) }
{
    is_tag(tag, kind, job)
}

/// Whether a job's hold of a kind is among these.
fn is_tagged(tags: &[Tag], kind: TagKind, job: &JobName) -> bool
    ensures { result ≡ is_tagged tags.now (tag_text kind job.now) }
{
    tags.iter().any(|tag| is_of(tag, kind, job))
}

/// The tags of the holds on a snapshot.
pub(crate) fn tags_at<'a>(pools: &'a Pools, path: &Path, name: &SnapName) -> &'a [Tag]
    ensures { result.now ≡ tags_at pools.entry.now path.now (Snap name.now) }
{
    match pools.snap(path, name) {
        Some(version) => version.tags.as_slice(),
        None => &[],
    }
}

/// Whether a version is there and has this guid.
fn has_guid(found: Option<&Version>, guid: Guid) -> bool
    ensures { result ≡ option_map_or (has_guid guid) (option_copied found.entry) false }
{
    match found {
        Some(version) => version.has_guid(guid),
        None => false,
    }
}

fn is_spent(pools: &Pools) -> bool
    ensures { result ≡ is_spent pools.entry.now }
{
    pools.next_txg == u64::MAX
}

fn are_spent(pools: &Pools) -> bool
    ensures { result ≡ are_spent pools.entry.now }
{
    is_spent(pools) || pools.next_guid == u64::MAX
}

/// Whether one of these versions has this guid.
fn is_among(versions: &[Version], guid: Guid) -> bool
    ensures { result ≡ list_any (has_guid guid) versions.now }
{
    versions.iter().any(|version| version.has_guid(guid))
}

/// Whether a version of this guid, if one is asked for, stands in the dataset at this path.
fn has_source(pools: &Pools, path: &Path, from: Option<Guid>) -> bool
    ensures { result ≡ has_source pools.entry.now path.now from }
{
    match from {
        Some(guid) => is_among(pools.versions(path), guid),
        None => true,
    }
}

/// Why a sending end refuses.
fn source_refusal(pools: &Pools, transfer: &Transfer) -> Option<Refusal>
    ensures { result ≡
        first_that_applies (source_reasons pools.entry.now transfer.now transfer.now.base) }
{
    if !has_guid(pools.snap(&transfer.source, &transfer.to), transfer.guid) {
        return Some(Refusal::NoSuch);
    }
    match &transfer.base {
        Base::From(mark, guid) if !has_guid(pools.mark(&transfer.source, mark), *guid) => {
            Some(Refusal::NoSuch)
        }
        Base::Resume(_, from) if !has_source(pools, &transfer.source, *from) => {
            Some(Refusal::NoSuch)
        }
        Base::Full | Base::From(_, _) | Base::Resume(_, _) => None,
    }
}

fn spent_refusal(pools: &Pools) -> Option<Refusal>
    ensures { result ≡ first_that_applies ((is_spent pools.entry.now, Spent) ∷ []) }
{
    if is_spent(pools) {
        Some(Refusal::Spent)
    } else {
        None
    }
}

/// Why a full receive is refused where there is no target yet.
fn first_refusal(pools: &Pools, transfer: &Transfer) -> Option<Refusal>
    ensures { result ≡ first_that_applies (full_reasons pools.entry.now transfer.now None) }
{
    match pools.parent(&transfer.target) {
        None => Some(Refusal::NoSuch),
        Some(parent) if parent.in_first_receive() => Some(Refusal::HasPartial),
        Some(_) => spent_refusal(pools),
    }
}

/// Why a full receive onto a dataset is refused.
fn forced_refusal(pools: &Pools, transfer: &Transfer, set: &Dataset) -> Option<Refusal>
    ensures { result ≡ first_that_applies
        (full_reasons pools.entry.now transfer.now (Some set.now)) }
{
    if set.partial.is_some() {
        return Some(Refusal::HasPartial);
    }
    if set.newest().is_some() || !transfer.force {
        return Some(Refusal::Exists);
    }
    spent_refusal(pools)
}

/// Why the receive of an increment from a snapshot of this guid is refused.
fn increment_refusal(
    pools: &Pools,
    transfer: &Transfer,
    guid: Guid,
    set: &Dataset,
) -> Option<Refusal>
    ensures { result ≡
        first_that_applies (increment_reasons pools.entry.now transfer.now guid (Some set.now)) }
{
    if set.partial.is_some() {
        return Some(Refusal::HasPartial);
    }
    if !has_guid(set.newest(), guid) {
        return Some(Refusal::NotNewest);
    }
    if pools.snap(&transfer.target, &transfer.to).is_some() {
        return Some(Refusal::Exists);
    }
    spent_refusal(pools)
}

/// Why the target of a full receive refuses it.
fn full_refusal(pools: &Pools, transfer: &Transfer) -> Option<Refusal>
    ensures { result ≡ first_that_applies
        (full_reasons pools.entry.now transfer.now
        (dataset_at pools.entry.now transfer.now.target)) }
{
    match pools.dataset(&transfer.target) {
        Some(set) => forced_refusal(pools, transfer, set),
        None => first_refusal(pools, transfer),
    }
}

/// Why the target of an increment from a snapshot of this guid refuses it.
fn onto_refusal(pools: &Pools, transfer: &Transfer, guid: Guid) -> Option<Refusal>
    ensures { result ≡ first_that_applies
        (increment_reasons pools.entry.now transfer.now guid
        (dataset_at pools.entry.now transfer.now.target)) }
{
    match pools.dataset(&transfer.target) {
        Some(set) => increment_refusal(pools, transfer, guid, set),
        None => Some(Refusal::NoSuch),
    }
}

/// Why the partial receive of a dataset is not that of a token.
fn partial_refusal(
    alloc: Global,
    set: Option<&Dataset>,
    token: &TokenText,
) -> Result<Option<Refusal>, NoMemory>
    ensures { IfOk result (λ why. why ≡
        first_that_applies (partial_reasons token.now (option_copied set.entry))) }
{
    let Some(set) = set else {
        return Ok(Some(Refusal::NoSuch));
    };
    let Some(partial) = &set.partial else {
        return Ok(Some(Refusal::NoPartial));
    };
    if is_shown(alloc, partial, token)? {
        Ok(None)
    } else {
        Ok(Some(Refusal::NotNewest))
    }
}

/// Why a snapshot cannot arrive where nothing else is wrong.
fn arrival_refusal(pools: &Pools, transfer: &Transfer) -> Option<Refusal>
    ensures { result ≡ first_that_applies (arrival_reasons pools.entry.now transfer.now) }
{
    if pools.snap(&transfer.target, &transfer.to).is_some() {
        return Some(Refusal::Exists);
    }
    spent_refusal(pools)
}

/// Why a sending end refuses, and then for this reason.
#[tactic(auto, using(crate::proofs::Firsts::refused_first, crate::proofs::Firsts::refused_behind))]
fn behind_source(pools: &Pools, transfer: &Transfer, then: Option<Refusal>) -> Option<Refusal>
    ensures { (more : List (Bool × RefusalValue)) → then ≡ first_that_applies more → result ≡
        first_that_applies (source_reasons pools.entry.now transfer.now transfer.now.base ++ more) }
{
    match source_refusal(pools, transfer) {
        Some(why) => Some(why),
        None => then,
    }
}

/// Why a transfer is refused.
fn transfer_refusal(
    alloc: Global,
    pools: &Pools,
    transfer: &Transfer,
) -> Result<Option<Refusal>, NoMemory>
    ensures { IfOk result (λ why. why ≡ first_that_applies
        (transfer_reasons pools.entry.now pools.entry.now transfer.now transfer.now.base)) }
{
    match &transfer.base {
        Base::Full => {
            let then = full_refusal(pools, transfer);
            Ok(behind_source(pools, transfer, then))
        }
        Base::From(_, guid) => {
            let then = onto_refusal(pools, transfer, *guid);
            Ok(behind_source(pools, transfer, then))
        }
        Base::Resume(token, _) => {
            match partial_refusal(alloc, pools.dataset(&transfer.target), token)? {
                Some(why) => Ok(Some(why)),
                None => {
                    let then = arrival_refusal(pools, transfer);
                    Ok(behind_source(pools, transfer, then))
                }
            }
        }
    }
}

/// Why what a token says is not listed.
fn token_refusal(alloc: Global, token: &TokenText) -> Result<Option<Refusal>, NoMemory>
    ensures { IfOk result (λ why. why ≡
        first_that_applies ((is_none (partial_of_token token.now), NoSuch) ∷ [])) }
{
    Ok(unless_there(partial_of_token(alloc, token)?.is_some()))
}

/// Refuses what is not there.
fn unless_there(there: bool) -> Option<Refusal>
    ensures { result ≡ first_that_applies ((not there, NoSuch) ∷ []) }
{
    if there { None } else { Some(Refusal::NoSuch) }
}

/// Refuses a snapshot that is not there, and then for this reason.
fn unless_snap(
    pools: &Pools,
    path: &Path,
    name: &SnapName,
    applies: bool,
    why: Refusal,
) -> Option<Refusal>
    ensures { result ≡ first_that_applies
        ((is_none (version_at pools.entry.now path.now (Snap name.now)), NoSuch) ∷ (applies, why)
        ∷ []) }
{
    if pools.snap(path, name).is_none() {
        return Some(Refusal::NoSuch);
    }
    if applies { Some(why) } else { None }
}

/// Why a bookmark is refused.
fn bookmark_refusal(
    pools: &Pools,
    path: &Path,
    version: &VersionName,
    mark: &MarkName,
) -> Option<Refusal>
    ensures { result ≡
        first_that_applies (reasons pools.entry.now pools.entry.now
        (cmd.Bookmark path.now version.now mark.now)) }
{
    if pools.version(path, version).is_none() {
        return Some(Refusal::NoSuch);
    }
    match pools.mark(path, mark) {
        Some(_) => Some(Refusal::Exists),
        None => None,
    }
}

/// Why a snapshot is not taken.
fn snapshot_refusal(pools: &Pools, path: &Path, name: &SnapName) -> Option<Refusal>
    ensures { result ≡
        first_that_applies (reasons pools.entry.now pools.entry.now
        (cmd.Snapshot path.now name.now)) }
{
    if pools.dataset(path).is_none() {
        return Some(Refusal::NoSuch);
    }
    if pools.snap(path, name).is_some() {
        return Some(Refusal::Exists);
    }
    if are_spent(pools) {
        Some(Refusal::Spent)
    } else {
        None
    }
}

/// Why a placeholder is not made.
fn create_refusal(pools: &Pools, path: &Path) -> Option<Refusal>
    ensures { result ≡ first_that_applies
        (reasons pools.entry.now pools.entry.now (cmd.Create path.now)) }
{
    if pools.dataset(path).is_some() {
        return Some(Refusal::Exists);
    }
    let Some(parent) = pools.parent(path) else {
        return Some(Refusal::NoSuch);
    };
    if parent.in_first_receive() {
        Some(Refusal::HasPartial)
    } else {
        None
    }
}

/// Why an abort is refused.
fn abort_refusal(pools: &Pools, path: &Path) -> Option<Refusal>
    ensures { result ≡ first_that_applies
        (reasons pools.entry.now pools.entry.now (cmd.Abort path.now)) }
{
    match pools.dataset(path) {
        None => Some(Refusal::NoSuch),
        Some(set) if set.partial.is_none() => Some(Refusal::NoPartial),
        Some(_) => None,
    }
}

/// Whether some of these snapshots is there.
fn any_there(pools: &Pools, path: &Path, names: &[SnapName]) -> bool
    ensures { result ≡ list_any (is_there pools.entry.now path.now) names.now }
{
    names.iter().any(|name| pools.snap(path, name).is_some())
}

/// Whether some of these snapshots is there and has a tag.
fn any_held(pools: &Pools, path: &Path, names: &[SnapName]) -> bool
    ensures { result ≡ list_any (is_held pools.entry.now path.now) names.now }
{
    names
        .iter()
        .any(|name| !tags_at(pools, path, name).is_empty())
}

/// Why a destroy of snapshots is refused.
fn destroy_refusal(pools: &Pools, path: &Path, names: &[SnapName]) -> Option<Refusal>
    ensures { result ≡ first_that_applies
        ((not (list_any (is_there pools.entry.now path.now) names.now), NoSuch)
        ∷ (list_any (is_held pools.entry.now path.now) names.now, Held) ∷ []) }
{
    if !any_there(pools, path, names) {
        return Some(Refusal::NoSuch);
    }
    if any_held(pools, path, names) {
        Some(Refusal::Held)
    } else {
        None
    }
}

/// Why a command is refused, the first reason that applies.
pub(crate) fn refusal(alloc: Global, pools: &Pools, cmd: &Cmd) -> Result<Option<Refusal>, NoMemory>
    ensures { IfOk result (λ why. why ≡ refusal pools.entry.now cmd.now) }
{
    let why = match cmd {
        Cmd::Sets => None,
        Cmd::Versions(path) => unless_there(pools.dataset(path).is_some()),
        Cmd::Holds(path, name) => unless_there(pools.snap(path, name).is_some()),
        Cmd::Token(token) => token_refusal(alloc, token)?,
        Cmd::Snapshot(path, name) => snapshot_refusal(pools, path, name),
        Cmd::Hold(kind, job, path, name) => {
            let held = is_tagged(tags_at(pools, path, name), *kind, job);
            unless_snap(pools, path, name, held, Refusal::TagThere)
        }
        Cmd::Release(kind, job, path, name) => {
            let held = is_tagged(tags_at(pools, path, name), *kind, job);
            unless_snap(pools, path, name, !held, Refusal::TagMissing)
        }
        Cmd::Bookmark(path, version, mark) => bookmark_refusal(pools, path, version, mark),
        Cmd::DestroySnaps(path, names) => destroy_refusal(pools, path, names.as_slice()),
        Cmd::DestroyMark(path, mark) => unless_there(pools.mark(path, mark).is_some()),
        Cmd::Create(path) => create_refusal(pools, path),
        Cmd::Transfer(transfer) => transfer_refusal(alloc, pools, transfer)?,
        Cmd::Abort(path) => abort_refusal(pools, path),
    };
    Ok(why)
}

//! What each command does to the pools, at each extent: the table of effects.

ghost use Rattle.std.specs.Prelude.{◌≡◌, ◌++◌, ◌∷◌, [], None, false, IfOk, OnOk, OnErr, map, option_map, Some};
ghost use Rattle.std.specs.Option.{option_map_or};
ghost use Rattle.zr_names.specs.Marks.{tag_text};
ghost use Rattle.zr_world.specs.Effect.{aborted, after_since, Applies, arriving, bookmarked, chosen, chosen_of, cut, new_placeholder, no_info, part_of, partial_of, received, reply_to, snapshotted, step_at, with_new, with_partial, with_target, with_version, without_all, without_tag};
ghost use Rattle.zr_world.specs.Lookup.{tags_at, version_at};
ghost use Rattle.zr_world.specs.Reasons.{are_spent, is_spent, refusal};
ghost use Rattle.zr_world.specs.Rows.{row_of_set, row_of_version};
ghost use Rattle.zr_world.specs.Tokens.{info_of, partial_of_token};
ghost use Rattle.zr_command.specs.declared.command.Reply.TheVariants as ReplyValue;
ghost use Rattle.zr_command.specs.declared.command.Cmd.TheVariants as cmd;
ghost use Rattle.zr_command.specs.declared.version.VersionName.TheVariants.{Snap};

use crate::changes::{
    add_version, change_tags, complete_version, make_set, remove_set, remove_version, set_partial,
};
use crate::pools::{Dataset, Partial, Pools, Version};
use crate::reasons::{is_of, refusal, tags_at};
use crate::token::partial_of_token;
use std::alloc::Global;
use zr_command::{Base, Cmd, Reply, SetRow, TokenInfo, Transfer, VersionName, VersionRow};
use zr_names::{
    Guid, JobName, MarkName, NoMemory, Path, Rows, Same, SnapName, Tag, TagKind, TokenText,
    same_items, tag_of,
};

/// How much of a command's effect comes.
#[derive(Clone, Copy, PartialEq, Eq)]
pub enum Extent {
    None,
    /// A transfer leaves a partial receive; for other commands nothing comes.
    Part,
    /// A destroy of snapshots takes those away whose place in its names, counted from 0, has its bit in the number; for
    /// other commands nothing comes.
    Chosen(u64),
    Whole,
}

/// Why ZFS refuses a command.
#[derive(Clone, Copy, PartialEq, Eq)]
pub enum Refusal {
    /// A dataset, a snapshot or a bookmark is not there.
    NoSuch,
    /// What is to be made is there already.
    Exists,
    /// The snapshot has a hold.
    Held,
    /// The snapshot has this hold already.
    TagThere,
    /// The snapshot has not this hold.
    TagMissing,
    /// The target's newest snapshot is not the one that the increment starts from.
    NotNewest,
    /// The target, or its parent in its first receive, has a partial receive.
    HasPartial,
    /// The dataset has no partial receive.
    NoPartial,
    /// No transaction group, or no guid, is left.
    Spent,
}

/// Why `apply` gives no reply.
#[derive(Clone, Copy, PartialEq, Eq)]
pub enum ApplyFault {
    Refused(Refusal),
    NoMemory,
}

impl From<NoMemory> for ApplyFault {
    ghost use Rattle.std.specs.Prelude.{◌≡◌};
    ghost use Rattle.zr_world.specs.declared.effects.ApplyFault.TheVariants.{NoMemory};

    ghost from_gives = { λ _ fault. fault ≡ NoMemory };

    fn from(_error: NoMemory) -> ApplyFault {
        ApplyFault::NoMemory
    }
}

/// The rows of all datasets.
fn set_rows(alloc: Global, sets: &[Dataset]) -> Result<Rows<SetRow>, NoMemory>
    ensures { IfOk result (λ rows. rows ≡ map row_of_set sets.now) }
{
    let mut rows = Vec::new(alloc);
    for set in sets {
        rows.push(set.row(alloc)?)?;
    }
    Ok(Rows::from_vec(rows))
}

/// The rows of a dataset's versions.
fn version_rows(alloc: Global, versions: &[Version]) -> Result<Rows<VersionRow>, NoMemory>
    ensures { IfOk result (λ rows. rows ≡ map row_of_version versions.now) }
{
    let mut rows = Vec::new(alloc);
    for version in versions {
        rows.push(version.row()?)?;
    }
    Ok(Rows::from_vec(rows))
}

/// What a token says, and nothing where it is none of the model.
fn token_reply(alloc: Global, token: &TokenText) -> Result<Reply, NoMemory>
    ensures { IfOk result (λ reply. reply ≡
        ReplyValue.Token (option_map_or info_of (partial_of_token token.now) no_info)) }
{
    match partial_of_token(alloc, token)? {
        Some(partial) => Ok(Reply::Token(partial.info())),
        None => Ok(Reply::Token(TokenInfo {
            to: Guid(0),
            from: None,
        })),
    }
}

/// The reply to a command that came whole.
fn reply(alloc: Global, pools: &Pools, cmd: &Cmd) -> Result<Reply, NoMemory>
    ensures { IfOk result (λ reply. reply ≡ reply_to pools.entry.now cmd.now) }
{
    match cmd {
        Cmd::Sets => Ok(Reply::Sets(set_rows(alloc, pools.sets.as_slice())?)),
        Cmd::Versions(path) => { Ok(Reply::Versions(version_rows(alloc, pools.versions(path))?)) }
        Cmd::Holds(path, name) => Ok(Reply::Holds(same_items(alloc, tags_at(pools, path, name))?)),
        Cmd::Token(token) => token_reply(alloc, token),
        Cmd::Snapshot(_, _)
        | Cmd::Hold(_, _, _, _)
        | Cmd::Release(_, _, _, _)
        | Cmd::Bookmark(_, _, _)
        | Cmd::DestroySnaps(_, _)
        | Cmd::DestroyMark(_, _)
        | Cmd::Create(_)
        | Cmd::Transfer(_)
        | Cmd::Abort(_) => Ok(Reply::Nothing),
    }
}

/// The tags of a snapshot with one more.
fn tags_with(
    alloc: Global,
    pools: &Pools,
    kind: TagKind,
    job: &JobName,
    path: &Path,
    name: &SnapName,
) -> Result<Rows<Tag>, NoMemory>
    ensures { IfOk result (λ tags. tags ≡
        tags_at pools.entry.now path.now (Snap name.now) ++ tag_text kind job.now ∷ []) }
{
    let mut tags = same_items(alloc, tags_at(pools, path, name))?;
    tags.push(tag_of(alloc, kind, job)?)?;
    Ok(tags)
}

/// Takes the tag of a job out of a list of tags.
fn retain_others(tags: &mut Vec<Tag>, kind: TagKind, job: &JobName)
    ensures { tags.new.items ≡ without_tag (tag_text kind job.now) tags.old.items }
{
    tags.retain(|tag| !is_of(tag, kind, job));
}

/// The tags of a snapshot without that of a job.
fn tags_without(
    alloc: Global,
    pools: &Pools,
    kind: TagKind,
    job: &JobName,
    path: &Path,
    name: &SnapName,
) -> Result<Rows<Tag>, NoMemory>
    ensures { IfOk result (λ tags. tags ≡
        without_tag (tag_text kind job.now) (tags_at pools.entry.now path.now (Snap name.now))) }
{
    let mut tags = same_items(alloc, tags_at(pools, path, name))?.into_vec();
    retain_others(&mut tags, kind, job);
    Ok(Rows::from_vec(tags))
}

/// Takes a snapshot of a dataset.
fn snapshot(alloc: Global, pools: &mut Pools, path: &Path, name: &SnapName) -> Result<(), NoMemory>
    requires unspent { are_spent pools.old ≡ false }
    ensures ok { OnOk result (pools.new ≡ snapshotted pools.old path.now name.now) }
    ensures err { OnErr result (pools.new ≡ pools.old) }
{
    let version = pools.taken(alloc, name)?;
    add_version(alloc, pools, path, version)?;
    pools.next_txg += 1;
    pools.next_guid += 1;
    Ok(())
}

/// Puts the hold of a job on a snapshot.
fn hold(
    alloc: Global,
    pools: &mut Pools,
    kind: TagKind,
    job: &JobName,
    path: &Path,
    name: &SnapName,
) -> Result<(), NoMemory>
    ensures ok { OnOk result (pools.new ≡
        after_since pools.old pools.old (cmd.Hold kind job.now path.now name.now)) }
    ensures err { OnErr result (pools.new ≡ pools.old) }
{
    let tags = tags_with(alloc, pools, kind, job, path, name)?;
    change_tags(alloc, pools, path, name, tags);
    Ok(())
}

/// Takes the hold of a job off a snapshot.
fn release(
    alloc: Global,
    pools: &mut Pools,
    kind: TagKind,
    job: &JobName,
    path: &Path,
    name: &SnapName,
) -> Result<(), NoMemory>
    ensures ok { OnOk result (pools.new ≡
        after_since pools.old pools.old (cmd.Release kind job.now path.now name.now)) }
    ensures err { OnErr result (pools.new ≡ pools.old) }
{
    let tags = tags_without(alloc, pools, kind, job, path, name)?;
    change_tags(alloc, pools, path, name, tags);
    Ok(())
}

/// Makes a bookmark of a version, if that is there.
fn bookmark(
    alloc: Global,
    pools: &mut Pools,
    path: &Path,
    version: &VersionName,
    mark: &MarkName,
) -> Result<(), NoMemory>
    ensures ok { OnOk result (pools.new ≡
        bookmarked pools.old path.now mark.now (version_at pools.old path.now version.now)) }
    ensures err { OnErr result (pools.new ≡ pools.old) }
{
    let Some(version) = pools.version(path, version) else {
        return Ok(());
    };
    let bookmark = version.bookmark(alloc, mark)?;
    add_version(alloc, pools, path, bookmark)
}

/// Puts a snapshot on the target of a transfer, which it makes where it is absent.
fn receive(
    alloc: Global,
    pools: &mut Pools,
    target: &Path,
    version: Version,
) -> Result<(), NoMemory>
    ensures ok { OnOk result (pools.new ≡ with_target pools.old target.now (with_version version)) }
    ensures err { OnErr result (pools.new ≡ pools.old) }
{
    if pools.dataset(target).is_some() {
        return add_version(alloc, pools, target, version);
    }
    let mut set = Dataset::new(alloc, target.same()?);
    set.versions.push(version)?;
    make_set(alloc, pools, set)
}

/// Completes the partial receive of a target with its snapshot.
fn complete(
    alloc: Global,
    pools: &mut Pools,
    target: &Path,
    version: Version,
) -> Result<(), NoMemory>
    ensures ok { OnOk result (pools.new ≡
        with_target pools.old target.now (λ set. with_version version (with_partial None set))) }
    ensures err { OnErr result (pools.new ≡ pools.old) }
{
    if pools.dataset(target).is_some() {
        return complete_version(alloc, pools, target, version);
    }
    let mut set = Dataset::new(alloc, target.same()?);
    set.versions.push(version)?;
    make_set(alloc, pools, set)
}

/// Puts the snapshot of a transfer on its target.
fn arrive(
    alloc: Global,
    pools: &mut Pools,
    transfer: &Transfer,
    version: Version,
) -> Result<(), NoMemory>
    ensures ok { OnOk result (pools.new ≡
        with_target pools.old transfer.now.target (arriving transfer.now.base version)) }
    ensures err { OnErr result (pools.new ≡ pools.old) }
{
    match &transfer.base {
        Base::Full | Base::From(_, _) => receive(alloc, pools, &transfer.target, version),
        Base::Resume(_, _) => complete(alloc, pools, &transfer.target, version),
    }
}

/// The snapshot that a transfer makes, if its source is there.
fn sent(alloc: Global, pools: &Pools, transfer: &Transfer) -> Result<Option<Version>, NoMemory>
    ensures { IfOk result (λ version. version ≡ option_map (received pools.entry.now.next_txg)
        (version_at pools.entry.now transfer.now.source (Snap transfer.now.to))) }
{
    match pools.snap(&transfer.source, &transfer.to) {
        Some(version) => Ok(Some(version.received(alloc, pools.next_txg)?)),
        None => Ok(None),
    }
}

/// Does a whole transfer, if its source is there.
fn transfer(alloc: Global, pools: &mut Pools, transfer: &Transfer) -> Result<(), NoMemory>
    requires unspent { is_spent pools.old ≡ false }
    ensures ok { OnOk result
        (pools.new ≡ after_since pools.old pools.old (cmd.Transfer transfer.now)) }
    ensures err { OnErr result (pools.new ≡ pools.old) }
{
    let Some(version) = sent(alloc, pools, transfer)? else {
        return Ok(());
    };
    arrive(alloc, pools, transfer, version)?;
    pools.next_txg += 1;
    Ok(())
}

/// Leaves the partial receive of a transfer on its target, which it makes where it is absent.
fn leave_partial(alloc: Global, pools: &mut Pools, transfer: &Transfer) -> Result<(), NoMemory>
    ensures ok { OnOk result (pools.new ≡
        with_target pools.old transfer.now.target (with_partial (Some (partial_of transfer.now)))) }
    ensures err { OnErr result (pools.new ≡ pools.old) }
{
    let partial = Partial::of(transfer)?;
    if pools.dataset(&transfer.target).is_some() {
        set_partial(alloc, pools, &transfer.target, Some(partial));
        return Ok(());
    }
    let mut set = Dataset::new(alloc, transfer.target.same()?);
    set.partial = Some(partial);
    make_set(alloc, pools, set)
}

/// Names of snapshots as names of versions.
fn version_names(alloc: Global, names: &[SnapName]) -> Result<Vec<VersionName>, NoMemory>
    ensures { IfOk result (λ versions. versions.items ≡ map Snap names.now) }
{
    let mut versions = Vec::new(alloc);
    for name in names {
        versions.push(VersionName::Snap(name.same()?))?;
    }
    Ok(versions)
}

/// Takes versions away, as far as they are there.
fn remove_all(alloc: Global, pools: &mut Pools, path: &Path, names: &[VersionName])
    ensures { pools.new ≡ without_all pools.old path.now names.now }
{
    for name in names {
        remove_version(alloc, pools, path, name);
    }
}

/// Takes snapshots away, as far as they are there.
fn destroy(
    alloc: Global,
    pools: &mut Pools,
    path: &Path,
    names: &[SnapName],
) -> Result<(), NoMemory>
    ensures ok { OnOk result (pools.new ≡ without_all pools.old path.now (map Snap names.now)) }
    ensures err { OnErr result (pools.new ≡ pools.old) }
{
    let versions = version_names(alloc, names)?;
    remove_all(alloc, pools, path, versions.as_slice());
    Ok(())
}

/// The names whose place has its bit in the number.
fn chosen(alloc: Global, names: &[SnapName], bits: u64) -> Result<Vec<SnapName>, NoMemory>
    ensures { IfOk result (λ some. some.items ≡ chosen bits names.now) }
{
    let mut some = Vec::new(alloc);
    let mut bits = bits;
    for name in names {
        if bits % 2 == 1 {
            some.push(name.same()?)?;
        }
        bits /= 2;
    }
    Ok(some)
}

/// Does a chosen extent of a command that is not refused.
fn choice(alloc: Global, pools: &mut Pools, cmd: &Cmd, bits: u64) -> Result<(), NoMemory>
    ensures ok { OnOk result (pools.new ≡ chosen_of pools.old cmd.now bits) }
    ensures err { OnErr result (pools.new ≡ pools.old) }
{
    match cmd {
        Cmd::DestroySnaps(path, names) => {
            let names = chosen(alloc, names.as_slice(), bits)?;
            destroy(alloc, pools, path, names.as_slice())
        }
        Cmd::Sets
        | Cmd::Versions(_)
        | Cmd::Holds(_, _)
        | Cmd::Token(_)
        | Cmd::Snapshot(_, _)
        | Cmd::Hold(_, _, _, _)
        | Cmd::Release(_, _, _, _)
        | Cmd::Bookmark(_, _, _)
        | Cmd::DestroyMark(_, _)
        | Cmd::Create(_)
        | Cmd::Transfer(_)
        | Cmd::Abort(_) => Ok(()),
    }
}

/// Makes a placeholder.
fn create(alloc: Global, pools: &mut Pools, path: &Path) -> Result<(), NoMemory>
    ensures ok { OnOk result (pools.new ≡ with_new pools.old (new_placeholder path.now)) }
    ensures err { OnErr result (pools.new ≡ pools.old) }
{
    let set = Dataset::placeholder(alloc, path.same()?);
    make_set(alloc, pools, set)
}

/// Gives up the partial receive of a dataset. A dataset that stands by it alone goes with it, as where the last part of
/// its first receive goes.
fn abort(alloc: Global, pools: &mut Pools, path: &Path)
    ensures { pools.new ≡ aborted pools.old path.now }
{
    if pools.in_first_receive(path) {
        remove_set(alloc, pools, path);
    } else {
        set_partial(alloc, pools, path, None);
    }
}

/// Does a whole command that is not refused.
fn change(alloc: Global, pools: &mut Pools, cmd: &Cmd) -> Result<(), NoMemory>
    requires allowed { refusal pools.old cmd.now ≡ None }
    ensures ok { OnOk result (pools.new ≡ after_since pools.old pools.old cmd.now) }
    ensures err { OnErr result (pools.new ≡ pools.old) }
{
    match cmd {
        Cmd::Sets | Cmd::Versions(_) | Cmd::Holds(_, _) | Cmd::Token(_) => Ok(()),
        Cmd::Snapshot(path, name) => snapshot(alloc, pools, path, name),
        Cmd::Hold(kind, job, path, name) => hold(alloc, pools, *kind, job, path, name),
        Cmd::Release(kind, job, path, name) => release(alloc, pools, *kind, job, path, name),
        Cmd::Bookmark(path, version, mark) => bookmark(alloc, pools, path, version, mark),
        Cmd::DestroySnaps(path, names) => destroy(alloc, pools, path, names.as_slice()),
        Cmd::DestroyMark(path, mark) => {
            remove_version(alloc, pools, path, &VersionName::Mark(mark.same()?));
            Ok(())
        }
        Cmd::Create(path) => create(alloc, pools, path),
        Cmd::Transfer(asked) => transfer(alloc, pools, asked),
        Cmd::Abort(path) => {
            abort(alloc, pools, path);
            Ok(())
        }
    }
}

/// Does a whole command that is not refused.
fn whole(alloc: Global, pools: &mut Pools, cmd: &Cmd) -> Result<Reply, NoMemory>
    requires allowed { refusal pools.old cmd.now ≡ None }
    ensures ok { OnOk result (pools.new ≡ after_since pools.old pools.old cmd.now) }
    ensures reply { IfOk result (λ reply. reply ≡ reply_to pools.old cmd.now) }
    ensures err { OnErr result (pools.new ≡ pools.old) }
{
    let reply = reply(alloc, pools, cmd)?;
    change(alloc, pools, cmd)?;
    Ok(reply)
}

/// Cuts a transfer; one that resumes leaves the partial receive that was there.
fn cut(alloc: Global, pools: &mut Pools, transfer: &Transfer) -> Result<(), NoMemory>
    ensures ok { OnOk result (pools.new ≡ cut pools.old transfer.now transfer.now.base) }
    ensures err { OnErr result (pools.new ≡ pools.old) }
{
    match &transfer.base {
        Base::Full | Base::From(_, _) => leave_partial(alloc, pools, transfer),
        Base::Resume(_, _) => Ok(()),
    }
}

/// Does a part of a command that is not refused.
fn part(alloc: Global, pools: &mut Pools, cmd: &Cmd) -> Result<(), NoMemory>
    ensures ok { OnOk result (pools.new ≡ part_of pools.old cmd.now) }
    ensures err { OnErr result (pools.new ≡ pools.old) }
{
    match cmd {
        Cmd::Transfer(asked) => cut(alloc, pools, asked),
        Cmd::Sets
        | Cmd::Versions(_)
        | Cmd::Holds(_, _)
        | Cmd::Token(_)
        | Cmd::Snapshot(_, _)
        | Cmd::Hold(_, _, _, _)
        | Cmd::Release(_, _, _, _)
        | Cmd::Bookmark(_, _, _)
        | Cmd::DestroySnaps(_, _)
        | Cmd::DestroyMark(_, _)
        | Cmd::Create(_)
        | Cmd::Abort(_) => Ok(()),
    }
}

/// Does to the pools what ZFS does at a command, at the given extent.
pub fn apply(
    alloc: Global,
    pools: &mut Pools,
    cmd: &Cmd,
    extent: Extent,
) -> Result<Reply, ApplyFault>
    ensures { Applies pools.old (step_at pools.old cmd.now extent) pools.new result }
{
    if let Some(refusal) = refusal(alloc, pools, cmd)? {
        return Err(ApplyFault::Refused(refusal));
    }
    match extent {
        Extent::None => Ok(Reply::Nothing),
        Extent::Part => {
            part(alloc, pools, cmd)?;
            Ok(Reply::Nothing)
        }
        Extent::Chosen(bits) => {
            choice(alloc, pools, cmd, bits)?;
            Ok(Reply::Nothing)
        }
        Extent::Whole => Ok(whole(alloc, pools, cmd)?),
    }
}

//! The changes of what is known that turns are made of.

ghost use Rattle.std.specs.Prelude.{◌≡◌, ◌++◌, ◌∷◌, [], IfOk, OnErr, OnOk, filter, find, not, option_map, true};
ghost use Rattle.std.specs.Option.{option_copied};
ghost use Rattle.zr_names.specs.Marks.{tag_text};
ghost use Rattle.zr_command.specs.Names.{is_tagged, same_text};
ghost use Rattle.zr_command.specs.declared.version.VersionName.TheVariants.{Mark};
ghost use Rattle.zr_known.specs.Known.{arrival, is_own, is_row_of, presence_after, presence_by, receiving_by, arrived_by_sets, set_among, without_name};

use crate::known::{Presence, Receiving};
use crate::versions::{is_among, is_mark_of, is_own};
use std::alloc::Global;
use zr_command::{SetRow, Transfer, VersionName, VersionRow};
use zr_names::{JobName, MarkName, NoMemory, Path, Rows, Same, SnapName, Tag, TagKind, is_tag};

pub(crate) fn set_at<'a>(rows: &'a [SetRow], path: &Path) -> Option<&'a SetRow>
    ensures { option_copied result ≡ find (λ row. same_text row.path path.now) rows.now }
{
    rows.iter().find(|row| row.path == *path)
}

pub(crate) fn presence_by(row: Option<&SetRow>) -> Presence
    ensures { result ≡ presence_by (option_copied row.entry) }
{
    match row {
        Some(row) => Presence::There(row.placeholder),
        None => Presence::Absent,
    }
}

pub(crate) fn receiving_by(transferred: bool, row: Option<&SetRow>) -> Receiving
    ensures { result ≡ receiving_by transferred (option_copied row.entry) }
{
    match row {
        Some(row) if !transferred && row.token.is_some() => Receiving::Unknown,
        Some(_) | None => Receiving::Nothing,
    }
}

pub(crate) fn arrived_by_sets(
    alloc: Global,
    before: Presence,
    row: Option<&SetRow>,
    arrived: Option<Rows<VersionRow>>,
) -> Option<Rows<VersionRow>>
    ensures { result ≡ arrived_by_sets before (option_copied row.entry) arrived }
{
    match (before, row) {
        (_, None) => Some(Rows::new(alloc)),
        (Presence::Absent, Some(_)) => None,
        (Presence::Unlisted | Presence::There(_), Some(_)) => arrived,
    }
}

pub(crate) fn presence_after(before: Presence) -> Presence
    ensures { result ≡ presence_after before }
{
    match before {
        Presence::Unlisted => Presence::Unlisted,
        Presence::Absent => Presence::There(false),
        Presence::There(flag) => Presence::There(flag),
    }
}

/// The job's cursors and tentative cursors in a listing.
pub(crate) fn own_marks(
    alloc: Global,
    rows: &[VersionRow],
    job: &JobName,
) -> Result<Rows<VersionRow>, NoMemory>
    ensures { IfOk result (λ marks. marks ≡ filter (is_own job.now) rows.now) }
{
    let mut marks = Rows::new(alloc);
    for row in rows {
        if is_own(row, job) {
            marks.push(row.same()?)?;
        }
    }
    Ok(marks)
}

fn without_name(
    alloc: Global,
    name: &SnapName,
    names: &[SnapName],
) -> Result<Rows<SnapName>, NoMemory>
    ensures { IfOk result (λ others. others ≡ without_name name.now names.now) }
{
    let mut others = Rows::new(alloc);
    for other in names {
        if *other != *name {
            others.push(other.same()?)?;
        }
    }
    Ok(others)
}

/// A name among others or not.
pub(crate) fn set_among(
    alloc: Global,
    among: bool,
    name: &SnapName,
    names: &[SnapName],
) -> Result<Rows<SnapName>, NoMemory>
    ensures { IfOk result (λ others. others ≡ set_among among name.now names.now) }
{
    let mut others = without_name(alloc, name, names)?;
    if among {
        others.push(name.same()?)?;
    }
    Ok(others)
}

/// A name among others, in their place.
#[tactic(auto, using(crate::proofs::Knowing::none_without))]
pub(crate) fn insert_name(
    alloc: Global,
    names: &mut Rows<SnapName>,
    name: &SnapName,
) -> Result<(), NoMemory>
    ensures ok { OnOk result (names.new ≡ set_among true name.now names.old) }
    ensures err { OnErr result (names.new ≡ names.old) }
{
    if is_among(names.as_slice(), name) {
        *names = set_among(alloc, true, name, names.as_slice())?;
    } else {
        names.push(name.same()?)?;
    }
    Ok(())
}

/// Takes the bookmark of this name out of some rows.
pub(crate) fn retain_others(rows: &mut Vec<VersionRow>, name: &MarkName)
    ensures { rows.new.items ≡ filter (λ row. not (is_row_of (Mark name.now) row)) rows.old.items }
{
    rows.retain(|row| !is_mark_of(row, name));
}

/// Whether a tag is that of the job's holds of a kind.
fn is_tag_of(tag: &Tag, kind: TagKind, job: &JobName) -> bool
    ensures { result ≡ same_text tag.now (tag_text kind job.now) }
{
    is_tag(tag, kind, job)
}

pub(crate) fn has_tag(tags: &[Tag], kind: TagKind, job: &JobName) -> bool
    ensures { result ≡ is_tagged tags.now (tag_text kind job.now) }
{
    tags.iter().any(|tag| is_tag_of(tag, kind, job))
}

/// The row of a snapshot that arrived.
fn arrival(transfer: &Transfer) -> Result<VersionRow, NoMemory>
    ensures { IfOk result (λ row. row ≡ arrival transfer.now) }
{
    Ok(VersionRow {
        name: VersionName::Snap(transfer.to.same()?),
        guid: transfer.guid,
        txg: 0,
        creation: 0,
        refs: 0,
    })
}

/// Adds the row of a snapshot that arrived, where the target's versions are known.
pub(crate) fn push_arrival(
    arrived: &mut Option<Rows<VersionRow>>,
    transfer: &Transfer,
) -> Result<(), NoMemory>
    ensures ok { OnOk result
        (arrived.new ≡ option_map (λ rows. rows ++ arrival transfer.now ∷ []) arrived.old) }
    ensures err { OnErr result (arrived.new ≡ arrived.old) }
{
    if let Some(rows) = arrived {
        rows.push(arrival(transfer)?)?;
    }
    Ok(())
}

pub(crate) fn mark_row(name: &MarkName, row: &VersionRow) -> Result<VersionRow, NoMemory>
    ensures { IfOk result (λ mark. mark ≡ record row.now { name = Mark name.now; refs = 0 }) }
{
    Ok(VersionRow {
        name: VersionName::Mark(name.same()?),
        guid: row.guid,
        txg: row.txg,
        creation: row.creation,
        refs: 0,
    })
}

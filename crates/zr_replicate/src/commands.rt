//! The commands of a replication unit on its pair.

ghost use Rattle.std.specs.Prelude.{◌≡◌, IfOk};
ghost use Rattle.zr_names.specs.declared.marks.TagKind.TheVariants.{Last, Step};
ghost use Rattle.zr_command.specs.declared.command.Cmd.TheVariants as cmd;

use std::alloc::AllocError;
use zr_command::{Cmd, VersionName};
use zr_jobs::Pair;
use zr_names::{MarkName, Path, Same, SnapName, TagKind};

pub(crate) fn versions(path: &Path) -> Result<Cmd, AllocError>
    ensures { IfOk result (λ c. c ≡ cmd.Versions path.now) }
{
    Ok(Cmd::Versions(path.same()?))
}

pub(crate) fn holds(path: &Path, name: &SnapName) -> Result<Cmd, AllocError>
    ensures { IfOk result (λ c. c ≡ cmd.Holds path.now name.now) }
{
    Ok(Cmd::Holds(path.same()?, name.same()?))
}

pub(crate) fn step_hold(pair: &Pair, name: &SnapName) -> Result<Cmd, AllocError>
    ensures { IfOk result (λ c. c ≡ cmd.Hold Step pair.now.job pair.now.source name.now) }
{
    Ok(Cmd::Hold(
        TagKind::Step,
        pair.job.same()?,
        pair.source.same()?,
        name.same()?,
    ))
}

pub(crate) fn last_hold(pair: &Pair, name: &SnapName) -> Result<Cmd, AllocError>
    ensures { IfOk result (λ c. c ≡ cmd.Hold Last pair.now.job pair.now.target name.now) }
{
    Ok(Cmd::Hold(
        TagKind::Last,
        pair.job.same()?,
        pair.target.same()?,
        name.same()?,
    ))
}

pub(crate) fn step_release(pair: &Pair, name: &SnapName) -> Result<Cmd, AllocError>
    ensures { IfOk result (λ c. c ≡ cmd.Release Step pair.now.job pair.now.source name.now) }
{
    Ok(Cmd::Release(
        TagKind::Step,
        pair.job.same()?,
        pair.source.same()?,
        name.same()?,
    ))
}

pub(crate) fn last_release(pair: &Pair, name: &SnapName) -> Result<Cmd, AllocError>
    ensures { IfOk result (λ c. c ≡ cmd.Release Last pair.now.job pair.now.target name.now) }
{
    Ok(Cmd::Release(
        TagKind::Last,
        pair.job.same()?,
        pair.target.same()?,
        name.same()?,
    ))
}

pub(crate) fn bookmark(
    pair: &Pair,
    version: &VersionName,
    name: &MarkName,
) -> Result<Cmd, AllocError>
    ensures { IfOk result (λ c. c ≡ cmd.Bookmark pair.now.source version.now name.now) }
{
    Ok(Cmd::Bookmark(pair.source.same()?, version.same()?, name.same()?))
}

pub(crate) fn destroy_mark(pair: &Pair, name: &MarkName) -> Result<Cmd, AllocError>
    ensures { IfOk result (λ c. c ≡ cmd.DestroyMark pair.now.source name.now) }
{
    Ok(Cmd::DestroyMark(pair.source.same()?, name.same()?))
}

//! Reads words into the call that they spell, or names the first bad word.

ghost use Rattle.std.specs.Prelude.{◌≡◌, IfOk, map};
ghost use Rattle.std.specs.Bool.{Decides};
ghost use Rattle.zr_cmd.specs.Forms.{Suits, job_part, kind_part, name_part, pattern_of, read_as, set_part, word_at};
ghost use Rattle.zr_cmd.specs.Steps.{IsFront, texts};
ghost use Rattle.zr_cmd.specs.Words.{IsJob, IsNamed, IsPath, IsVersion, Reads};
ghost use Rattle.zr_cmd.specs.declared.forms.ZfsCall.TheVariants as call;
ghost use Rattle.zr_cmd.specs.declared.forms.Form.TheVariants as form;

use crate::argv::ArgvFault;
use crate::cutting::{
    group_of, is_full, is_full_group, is_job_tag, is_path, is_same_set, is_token, job_of, job_part,
    kind_part, mark_of, name_part, path_of, set_part, snap_of, token_of, word_at,
};
use crate::forms::{FORMS, Form, Part, ZfsCall};
use std::alloc::Global;
use zr_command::{Cmd, VersionName};
use zr_names::{JobName, MarkName, NoMemory, Path, SnapName, TagKind};

/// Whether a word is as a part of the table has it, behind the word before.
fn fits(alloc: Global, part: Part, before: &[u8], word: &[u8]) -> Result<bool, NoMemory>
    ensures { IfOk result (λ yes. Decides yes (Suits (pattern_of part) before.now word.now)) }
{
    match part {
        Part::Fixed(text) => Ok(word == text.as_bytes()),
        Part::Path => is_path(alloc, word),
        Part::Snap => is_full(alloc, b'@', word),
        Part::Group => is_full_group(alloc, word),
        Part::Mark => is_full(alloc, b'#', word),
        Part::SnapOfSame => Ok(is_full(alloc, b'@', word)? && is_same_set(word, before)),
        Part::MarkOfSame => Ok(is_full(alloc, b'#', word)? && is_same_set(word, before)),
        Part::Tag => is_job_tag(alloc, word),
        Part::Token => is_token(alloc, word),
    }
}

/// How many words at the front are as the parts have them.
fn front(alloc: Global, words: &[String], parts: &[Part]) -> Result<usize, NoMemory>
    ensures { IfOk result (λ count. IsFront (map pattern_of parts.now) (texts words.now) count) }
{
    let most = words.len().min(parts.len());
    for place in 0..most {
        let before = word_at(words, place.saturating_sub(1));
        if !fits(alloc, parts[place], before, word_at(words, place))? {
            return Ok(place);
        }
    }
    Ok(most)
}

/// The path in the full name at this place.
fn set_at(alloc: Global, words: &[String], place: usize) -> Result<Path, NoMemory>
    requires { IsPath (set_part (word_at (texts words.now) place)) }
    ensures { IfOk result (λ path. path ≡ set_part (word_at (texts words.now) place)) }
{
    path_of(alloc, set_part(word_at(words, place)))
}

/// The name of the snapshot at this place.
fn snap_at(alloc: Global, words: &[String], place: usize) -> Result<SnapName, NoMemory>
    requires { IsVersion (name_part (word_at (texts words.now) place)) }
    ensures { IfOk result (λ name. name ≡ name_part (word_at (texts words.now) place)) }
{
    snap_of(alloc, name_part(word_at(words, place)))
}

/// The name of the bookmark at this place.
fn mark_at(alloc: Global, words: &[String], place: usize) -> Result<MarkName, NoMemory>
    requires { IsVersion (name_part (word_at (texts words.now) place)) }
    ensures { IfOk result (λ name. name ≡ name_part (word_at (texts words.now) place)) }
{
    mark_of(alloc, name_part(word_at(words, place)))
}

/// The kind of the tag in the second word.
fn kind_of(words: &[String]) -> TagKind
    ensures { result ≡ kind_part (word_at (texts words.now) 1) }
{
    kind_part(word_at(words, 1))
}

/// The job of the tag in the second word.
fn job_of_tag(alloc: Global, words: &[String]) -> Result<JobName, NoMemory>
    requires { IsJob (job_part (word_at (texts words.now) 1)) }
    ensures { IfOk result (λ name. name ≡ job_part (word_at (texts words.now) 1)) }
{
    job_of(alloc, job_part(word_at(words, 1)))
}

/// The call of these words of a hold.
fn hold_as(alloc: Global, words: &[String]) -> Result<ZfsCall, NoMemory>
    requires { IsNamed (read_as form.Hold (texts words.now)) }
    ensures { IfOk result (λ given. given ≡ read_as form.Hold (texts words.now)) }
{
    let job = job_of_tag(alloc, words)?;
    let path = set_at(alloc, words, 2)?;
    let name = snap_at(alloc, words, 2)?;
    Ok(ZfsCall::One(Cmd::Hold(kind_of(words), job, path, name)))
}

/// The call of these words of a release.
fn release_as(alloc: Global, words: &[String]) -> Result<ZfsCall, NoMemory>
    requires { IsNamed (read_as form.Release (texts words.now)) }
    ensures { IfOk result (λ given. given ≡ read_as form.Release (texts words.now)) }
{
    let job = job_of_tag(alloc, words)?;
    let path = set_at(alloc, words, 2)?;
    let name = snap_at(alloc, words, 2)?;
    Ok(ZfsCall::One(Cmd::Release(kind_of(words), job, path, name)))
}

/// The call of these words of a bookmark of a snapshot.
fn bookmark_snap_as(alloc: Global, words: &[String]) -> Result<ZfsCall, NoMemory>
    requires { IsNamed (read_as form.BookmarkSnap (texts words.now)) }
    ensures { IfOk result (λ given. given ≡ read_as form.BookmarkSnap (texts words.now)) }
{
    let path = set_at(alloc, words, 1)?;
    let from = snap_at(alloc, words, 1)?;
    let mark = mark_at(alloc, words, 2)?;
    Ok(ZfsCall::One(Cmd::Bookmark(path, VersionName::Snap(from), mark)))
}

/// The call of these words of a bookmark of a bookmark.
fn bookmark_mark_as(alloc: Global, words: &[String]) -> Result<ZfsCall, NoMemory>
    requires { IsNamed (read_as form.BookmarkMark (texts words.now)) }
    ensures { IfOk result (λ given. given ≡ read_as form.BookmarkMark (texts words.now)) }
{
    let path = set_at(alloc, words, 1)?;
    let from = mark_at(alloc, words, 1)?;
    let mark = mark_at(alloc, words, 2)?;
    Ok(ZfsCall::One(Cmd::Bookmark(path, VersionName::Mark(from), mark)))
}

/// The call of these words of a listing of versions.
fn versions_as(alloc: Global, words: &[String]) -> Result<ZfsCall, NoMemory>
    requires { IsNamed (read_as form.Versions (texts words.now)) }
    ensures { IfOk result (λ given. given ≡ read_as form.Versions (texts words.now)) }
{
    let path = path_of(alloc, word_at(words, 11))?;
    Ok(ZfsCall::One(Cmd::Versions(path)))
}

/// The call of these words of a listing of holds.
fn holds_as(alloc: Global, words: &[String]) -> Result<ZfsCall, NoMemory>
    requires { IsNamed (read_as form.Holds (texts words.now)) }
    ensures { IfOk result (λ given. given ≡ read_as form.Holds (texts words.now)) }
{
    let path = set_at(alloc, words, 2)?;
    let name = snap_at(alloc, words, 2)?;
    Ok(ZfsCall::One(Cmd::Holds(path, name)))
}

/// The call of these words of a listing of what a token says.
fn token_as(alloc: Global, words: &[String]) -> Result<ZfsCall, NoMemory>
    requires { IsNamed (read_as form.Token (texts words.now)) }
    ensures { IfOk result (λ given. given ≡ read_as form.Token (texts words.now)) }
{
    let token = token_of(alloc, word_at(words, 2))?;
    Ok(ZfsCall::One(Cmd::Token(token)))
}

/// The call of these words of a snapshot.
fn snapshot_as(alloc: Global, words: &[String]) -> Result<ZfsCall, NoMemory>
    requires { IsNamed (read_as form.Snapshot (texts words.now)) }
    ensures { IfOk result (λ given. given ≡ read_as form.Snapshot (texts words.now)) }
{
    let path = set_at(alloc, words, 1)?;
    let name = snap_at(alloc, words, 1)?;
    Ok(ZfsCall::One(Cmd::Snapshot(path, name)))
}

/// The call of these words of a placeholder.
fn create_as(alloc: Global, words: &[String]) -> Result<ZfsCall, NoMemory>
    requires { IsNamed (read_as form.Create (texts words.now)) }
    ensures { IfOk result (λ given. given ≡ read_as form.Create (texts words.now)) }
{
    let path = path_of(alloc, word_at(words, 5))?;
    Ok(ZfsCall::One(Cmd::Create(path)))
}

/// The call of these words of an abort.
fn abort_as(alloc: Global, words: &[String]) -> Result<ZfsCall, NoMemory>
    requires { IsNamed (read_as form.Abort (texts words.now)) }
    ensures { IfOk result (λ given. given ≡ read_as form.Abort (texts words.now)) }
{
    let path = path_of(alloc, word_at(words, 2))?;
    Ok(ZfsCall::One(Cmd::Abort(path)))
}

/// The call of these words of a destroy of snapshots.
fn destroy_snaps_as(alloc: Global, words: &[String]) -> Result<ZfsCall, NoMemory>
    requires { IsNamed (read_as form.DestroySnaps (texts words.now)) }
    ensures { IfOk result (λ given. given ≡ read_as form.DestroySnaps (texts words.now)) }
{
    let path = set_at(alloc, words, 1)?;
    let names = group_of(alloc, name_part(word_at(words, 1)))?;
    Ok(ZfsCall::One(Cmd::DestroySnaps(path, names)))
}

/// The call of these words of a destroy of a bookmark.
fn destroy_mark_as(alloc: Global, words: &[String]) -> Result<ZfsCall, NoMemory>
    requires { IsNamed (read_as form.DestroyMark (texts words.now)) }
    ensures { IfOk result (λ given. given ≡ read_as form.DestroyMark (texts words.now)) }
{
    let path = set_at(alloc, words, 1)?;
    let mark = mark_at(alloc, words, 1)?;
    Ok(ZfsCall::One(Cmd::DestroyMark(path, mark)))
}

/// The call of these words of a send of a whole snapshot.
fn send_full_as(alloc: Global, words: &[String]) -> Result<ZfsCall, NoMemory>
    requires { IsNamed (read_as form.SendFull (texts words.now)) }
    ensures { IfOk result (λ given. given ≡ read_as form.SendFull (texts words.now)) }
{
    let path = set_at(alloc, words, 1)?;
    let name = snap_at(alloc, words, 1)?;
    Ok(ZfsCall::SendFull(path, name))
}

/// The call of these words of a send from a bookmark.
fn send_from_as(alloc: Global, words: &[String]) -> Result<ZfsCall, NoMemory>
    requires { IsNamed (read_as form.SendFrom (texts words.now)) }
    ensures { IfOk result (λ given. given ≡ read_as form.SendFrom (texts words.now)) }
{
    let path = set_at(alloc, words, 2)?;
    let mark = mark_at(alloc, words, 2)?;
    Ok(ZfsCall::SendFrom(path, mark, snap_at(alloc, words, 3)?))
}

/// The call of this form with the names that stand in the words.
fn call_as(alloc: Global, form: Form, words: &[String]) -> Result<ZfsCall, NoMemory>
    requires { IsNamed (read_as form (texts words.now)) }
    ensures { IfOk result (λ given. given ≡ read_as form (texts words.now)) }
{
    match form {
        Form::Sets => Ok(ZfsCall::One(Cmd::Sets)),
        Form::Versions => versions_as(alloc, words),
        Form::Holds => holds_as(alloc, words),
        Form::Token => token_as(alloc, words),
        Form::Snapshot => snapshot_as(alloc, words),
        Form::Hold => hold_as(alloc, words),
        Form::Release => release_as(alloc, words),
        Form::BookmarkSnap => bookmark_snap_as(alloc, words),
        Form::BookmarkMark => bookmark_mark_as(alloc, words),
        Form::DestroySnaps => destroy_snaps_as(alloc, words),
        Form::DestroyMark => destroy_mark_as(alloc, words),
        Form::Create => create_as(alloc, words),
        Form::SendFull => send_full_as(alloc, words),
        Form::SendFrom => send_from_as(alloc, words),
        Form::SendToken => Ok(ZfsCall::SendToken(token_of(alloc, word_at(words, 2))?)),
        Form::Receive => Ok(ZfsCall::Receive(path_of(alloc, word_at(words, 3))?, false)),
        Form::ReceiveForced => Ok(ZfsCall::Receive(path_of(alloc, word_at(words, 4))?, true)),
        Form::Abort => abort_as(alloc, words),
    }
}

/// Reads the words after the program's name, as `argv_of` writes them.
pub fn read_argv(alloc: Global, words: &[String]) -> Result<ZfsCall, ArgvFault>
    ensures { Reads (texts words.now) result }
{
    let mut most: usize = 0;
    for form in FORMS {
        let parts = form.parts();
        let count = front(alloc, words, parts)?;
        if count == words.len() && count == parts.len() {
            return Ok(call_as(alloc, form, words)?);
        }
        most = most.max(count);
    }
    if most == 0 {
        Err(ArgvFault::UnknownCommand)
    } else {
        Err(ArgvFault::BadWord(most))
    }
}

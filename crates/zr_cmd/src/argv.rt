//! Writes the words of a call, word by word, by the table of forms.

ghost use Rattle.std.specs.Prelude.{◌≡◌, ◌≢◌, ◌<◌, [], ◌∷◌, ◌++◌, IfOk, map, OnOk};
ghost use Rattle.std.specs.List.{AllByRecursion, join_with_byte};
ghost use Rattle.std.specs.Str.{IsUtf8};
ghost use Rattle.std.specs.String.{string_bytes};
ghost use Rattle.zr_names.specs.Marks.{tag_text};
ghost use Rattle.zr_command.specs.declared.command.Cmd.TheVariants as command;
ghost use Rattle.zr_command.specs.declared.command.Transfer.{Transfer as TransferValue};
ghost use Rattle.zr_cmd.specs.declared.forms.ZfsCall.TheVariants as call;
ghost use Rattle.zr_cmd.specs.Steps.{with_commas};
ghost use Rattle.zr_cmd.specs.Words.{AreNamed, argv_words, group_word, IsGroup, IsJob, IsNamed, IsPath, IsToken, IsVersion, IsVersionName, mark_word, send_of, sets_words, snap_word, version_word, versions_words, words_of};

use crate::cutting::tag_front;
use crate::words::Words;
use std::alloc::{AllocError, Global};
use std::str;
use zr_command::{Base, Cmd, Names, Transfer, VersionName};
use zr_names::{JobName, MarkName, NoMemory, Path, SnapName, TagKind, TokenText};

/// Why words are no call.
#[derive(Clone, Copy, PartialEq, Eq)]
pub enum ArgvFault {
    /// The first word is missing or that of no call.
    UnknownCommand,
    /// So many words begin those of a call, and the next one doesn't go on so or is missing.
    BadWord(usize),
    NoMemory,
}

impl From<NoMemory> for ArgvFault {
    ghost use Rattle.std.specs.Prelude.{◌≡◌};
    ghost use Rattle.zr_cmd.specs.declared.argv.ArgvFault.TheVariants.{NoMemory};

    ghost from_gives = { λ _ fault. fault ≡ NoMemory };

    fn from(_error: NoMemory) -> ArgvFault {
        ArgvFault::NoMemory
    }
}

/// The children that a command starts, each by its words.
#[derive(Drop)]
pub enum Argv {
    One(Words),
    /// A sending end into a receiving end.
    Pipe(Words, Words),
}

const SETS: [&str; 7] = [
    "list",
    "-H",
    "-p",
    "-t",
    "filesystem,volume",
    "-o",
    "name,zrepl:placeholder,receive_resume_token",
];

const VERSIONS: [&str; 11] = [
    "list",
    "-H",
    "-p",
    "-d",
    "1",
    "-t",
    "snapshot,bookmark",
    "-s",
    "createtxg",
    "-o",
    "name,guid,createtxg,creation,userrefs",
];

const CREATE: [&str; 5] = [
    "create",
    "-o",
    "zrepl:placeholder=on",
    "-o",
    "mountpoint=none",
];

#[tactic(auto, unfolding(crate::specs::Words::sets_words))]
fn push_sets(alloc: Global, words: &mut Words) -> Result<(), AllocError>
    ensures { OnOk result (words.new ≡ words.old ++ sets_words) }
{
    words.push_all(alloc, &SETS)
}

#[tactic(auto, unfolding(crate::specs::Words::versions_words))]
fn push_versions(alloc: Global, words: &mut Words) -> Result<(), AllocError>
    ensures { OnOk result (words.new ≡ words.old ++ versions_words) }
{
    words.push_all(alloc, &VERSIONS)
}

/// A name as a word.
fn word_of(alloc: Global, name: &[u8]) -> Result<String, AllocError>
    requires { IsUtf8 name.now }
    ensures { IfOk result (λ word. string_bytes word ≡ name.now) }
{
    match str::from_utf8(name) {
        Ok(text) => String::from_str(alloc, text),
        Err(_) => unreachable!(),
    }
}

/// Takes a path as the next word.
#[tactic(auto, using(crate::proofs::Texts::utf8_path))]
fn push_path(alloc: Global, words: &mut Words, path: &Path) -> Result<(), AllocError>
    ensures words { OnOk result (words.new ≡ words.old ++ path.now ∷ []) }
    ensures named { OnOk result (IsPath path.now) }
{
    words.push(word_of(alloc, path.as_bytes())?)
}

/// Takes these words and a resume token.
#[tactic(auto, using(crate::proofs::Texts::utf8_token))]
fn push_with_token(
    alloc: Global,
    words: &mut Words,
    texts: &[&str],
    token: &TokenText,
) -> Result<(), AllocError>
    ensures words { OnOk result
        (words.new ≡ words.old ++ (map (λ text. text.now) texts.now ++ token.now ∷ [])) }
    ensures named { OnOk result (IsToken token.now) }
{
    words.push_all(alloc, texts)?;
    words.push(word_of(alloc, token.as_bytes())?)
}

/// A path, a sign and a name as one word.
fn full_word(alloc: Global, path: &Path, sign: u8, name: &[u8]) -> Result<String, AllocError>
    requires sign { sign < 128 }
    requires name { IsVersion name.now }
    ensures word { IfOk result (λ word. string_bytes word ≡ path.now ++ sign ∷ name.now) }
    ensures named { OnOk result (IsPath path.now) }
{
    let mut text = Vec::from_slice(alloc, path.as_bytes())?;
    text.push(sign)?;
    text.extend_from_slice(name)?;
    word_of(alloc, text.as_slice())
}

/// Takes the full name of a snapshot as the next word.
fn push_snap(
    alloc: Global,
    words: &mut Words,
    path: &Path,
    name: &SnapName,
) -> Result<(), AllocError>
    ensures words { OnOk result (words.new ≡ words.old ++ snap_word path.now name.now ∷ []) }
    ensures named { OnOk result (IsPath path.now × IsVersion name.now) }
{
    words.push(full_word(alloc, path, b'@', name.as_bytes())?)
}

/// Takes the full name of a bookmark as the next word.
fn push_mark(
    alloc: Global,
    words: &mut Words,
    path: &Path,
    mark: &MarkName,
) -> Result<(), AllocError>
    ensures words { OnOk result (words.new ≡ words.old ++ mark_word path.now mark.now ∷ []) }
    ensures named { OnOk result (IsPath path.now × IsVersion mark.now) }
{
    words.push(full_word(alloc, path, b'#', mark.as_bytes())?)
}

/// Takes the full name of a snapshot or a bookmark as the next word.
fn push_version(
    alloc: Global,
    words: &mut Words,
    path: &Path,
    name: &VersionName,
) -> Result<(), AllocError>
    ensures words { OnOk result (words.new ≡ words.old ++ version_word path.now name.now ∷ []) }
    ensures named { OnOk result (IsPath path.now × IsVersionName name.now) }
{
    match name {
        VersionName::Snap(name) => push_snap(alloc, words, path, name),
        VersionName::Mark(mark) => push_mark(alloc, words, path, mark),
    }
}

/// The tag of a job as a word.
fn tag_word(alloc: Global, kind: TagKind, job: &JobName) -> Result<String, AllocError>
    ensures word { IfOk result (λ word. string_bytes word ≡ tag_text kind job.now) }
    ensures named { OnOk result (IsJob job.now) }
{
    let mut text = Vec::from_slice(alloc, tag_front(kind))?;
    text.extend_from_slice(job.as_bytes())?;
    word_of(alloc, text.as_slice())
}

/// Takes the words that `hold` and `release` are followed by.
fn push_hold(
    alloc: Global,
    words: &mut Words,
    verb: &str,
    kind: TagKind,
    job: &JobName,
    path: &Path,
    name: &SnapName,
) -> Result<(), AllocError>
    ensures words { OnOk result
        (words.new ≡ words.old ++ verb.now ∷ tag_text kind job.now ∷ snap_word path.now name.now
        ∷ []) }
    ensures named { OnOk result (IsJob job.now × IsPath path.now × IsVersion name.now) }
{
    words.push_all(alloc, &[verb])?;
    words.push(tag_word(alloc, kind, job)?)?;
    push_snap(alloc, words, path, name)
}

/// Takes the words of a bookmark.
fn push_bookmark(
    alloc: Global,
    words: &mut Words,
    path: &Path,
    from: &VersionName,
    mark: &MarkName,
) -> Result<(), AllocError>
    ensures words { OnOk result
        (words.new ≡ words.old ++ words_of
        (call.One (command.Bookmark path.now from.now mark.now))) }
    ensures named { OnOk result (IsNamed (call.One (command.Bookmark path.now from.now mark.now))) }
{
    words.push_all(alloc, &["bookmark"])?;
    push_version(alloc, words, path, from)?;
    push_mark(alloc, words, path, mark)
}

/// Takes the words of a send from a bookmark.
fn push_send_from(
    alloc: Global,
    words: &mut Words,
    path: &Path,
    mark: &MarkName,
    name: &SnapName,
) -> Result<(), AllocError>
    ensures words { OnOk result
        (words.new ≡ words.old ++ words_of (call.SendFrom path.now mark.now name.now)) }
    ensures named { OnOk result (IsNamed (call.SendFrom path.now mark.now name.now)) }
{
    words.push_all(alloc, &["send", "-i"])?;
    push_mark(alloc, words, path, mark)?;
    push_snap(alloc, words, path, name)
}

/// Takes the words of a receive.
fn push_receive(
    alloc: Global,
    words: &mut Words,
    path: &Path,
    force: bool,
) -> Result<(), AllocError>
    ensures words { OnOk result (words.new ≡ words.old ++ words_of (call.Receive path.now force)) }
    ensures named { OnOk result (IsNamed (call.Receive path.now force)) }
{
    if force {
        words.push_all(alloc, &["receive", "-s", "-u", "-F"])?;
    } else {
        words.push_all(alloc, &["receive", "-s", "-u"])?;
    }
    push_path(alloc, words, path)
}

/// Takes these words and the full name of a snapshot.
fn push_with_snap(
    alloc: Global,
    words: &mut Words,
    texts: &[&str],
    path: &Path,
    name: &SnapName,
) -> Result<(), AllocError>
    ensures words { OnOk result
        (words.new ≡ words.old ++ (map (λ text. text.now) texts.now
        ++ snap_word path.now name.now ∷ [])) }
    ensures named { OnOk result (IsPath path.now × IsVersion name.now) }
{
    words.push_all(alloc, texts)?;
    push_snap(alloc, words, path, name)
}

/// Puts names behind the first, each after a comma.
fn push_others(text: &mut Vec<u8>, names: &[SnapName]) -> Result<(), AllocError>
    ensures text { OnOk result (text.new.items ≡ text.old.items ++ with_commas names.now) }
    ensures named { OnOk result (AllByRecursion IsVersion names.now) }
{
    for name in names {
        text.push(b',')?;
        text.extend_from_slice(name.as_bytes())?;
    }
    Ok(())
}

/// Puts names behind a path and an `@`, with a comma between each two.
fn push_names(text: &mut Vec<u8>, names: &Names) -> Result<(), AllocError>
    ensures text { OnOk result (text.new.items ≡ text.old.items ++ join_with_byte 44 names.now) }
    ensures named { OnOk result (IsGroup names.now) }
{
    let Some((first, others)) = names.as_slice().split_first() else {
        unreachable!()
    };
    text.extend_from_slice(first.as_bytes())?;
    push_others(text, others)?;
    Ok(())
}

/// The names of a group of snapshots and the path of their dataset as one word.
fn group_word(alloc: Global, path: &Path, names: &Names) -> Result<String, AllocError>
    ensures word { IfOk result (λ word. string_bytes word ≡ group_word path.now names.now) }
    ensures named { OnOk result (IsPath path.now × IsGroup names.now) }
{
    let mut text = Vec::from_slice(alloc, path.as_bytes())?;
    text.push(b'@')?;
    push_names(&mut text, names)?;
    word_of(alloc, text.as_slice())
}

/// Takes the words of a destroy of snapshots.
fn push_destroy(
    alloc: Global,
    words: &mut Words,
    path: &Path,
    names: &Names,
) -> Result<(), AllocError>
    ensures words { OnOk result
        (words.new ≡ words.old ++ words_of (call.One (command.DestroySnaps path.now names.now))) }
    ensures named { OnOk result (IsNamed (call.One (command.DestroySnaps path.now names.now))) }
{
    words.push_all(alloc, &["destroy"])?;
    words.push(group_word(alloc, path, names)?)
}

/// Takes these words and the full name of a bookmark.
fn push_with_mark(
    alloc: Global,
    words: &mut Words,
    texts: &[&str],
    path: &Path,
    mark: &MarkName,
) -> Result<(), AllocError>
    ensures words { OnOk result
        (words.new ≡ words.old ++ (map (λ text. text.now) texts.now
        ++ mark_word path.now mark.now ∷ [])) }
    ensures named { OnOk result (IsPath path.now × IsVersion mark.now) }
{
    words.push_all(alloc, texts)?;
    push_mark(alloc, words, path, mark)
}

/// Takes these words and a path.
fn push_with_path(
    alloc: Global,
    words: &mut Words,
    texts: &[&str],
    path: &Path,
) -> Result<(), AllocError>
    ensures words { OnOk result
        (words.new ≡ words.old ++ (map (λ text. text.now) texts.now ++ path.now ∷ [])) }
    ensures named { OnOk result (IsPath path.now) }
{
    words.push_all(alloc, texts)?;
    push_path(alloc, words, path)
}

/// Takes the words of a listing of versions.
fn push_listing(alloc: Global, words: &mut Words, path: &Path) -> Result<(), AllocError>
    ensures words { OnOk result (words.new ≡ words.old ++ (versions_words ++ path.now ∷ [])) }
    ensures named { OnOk result (IsPath path.now) }
{
    push_versions(alloc, words)?;
    push_path(alloc, words, path)
}

/// Takes the words of the sending end of a transfer.
fn push_send(alloc: Global, words: &mut Words, transfer: &Transfer) -> Result<(), AllocError>
    ensures words { OnOk result (words.new ≡ words.old ++ words_of (send_of transfer.now)) }
    ensures named { OnOk result (IsNamed (send_of transfer.now)) }
{
    match &transfer.base {
        Base::Full => push_with_snap(alloc, words, &["send"], &transfer.source, &transfer.to),
        Base::From(mark, _) => push_send_from(alloc, words, &transfer.source, mark, &transfer.to),
        Base::Resume(token, _) => push_with_token(alloc, words, &["send", "-t"], token),
    }
}

/// Takes the words of a command that is one call.
fn push_words(alloc: Global, words: &mut Words, cmd: &Cmd) -> Result<(), AllocError>
    requires one { (transfer : TransferValue) → cmd.now ≢ command.Transfer transfer }
    ensures words { OnOk result (words.new ≡ words.old ++ words_of (call.One cmd.now)) }
    ensures named { OnOk result (IsNamed (call.One cmd.now)) }
{
    match cmd {
        Cmd::Sets => push_sets(alloc, words),
        Cmd::Versions(path) => push_listing(alloc, words, path),
        Cmd::Holds(path, name) => push_with_snap(alloc, words, &["holds", "-H"], path, name),
        Cmd::Token(token) => push_with_token(alloc, words, &["send", "-nvt"], token),
        Cmd::Snapshot(path, name) => push_with_snap(alloc, words, &["snapshot"], path, name),
        Cmd::Hold(kind, job, path, name) => push_hold(alloc, words, "hold", *kind, job, path, name),
        Cmd::Release(kind, job, path, name) => {
            push_hold(alloc, words, "release", *kind, job, path, name)
        }
        Cmd::Bookmark(path, from, mark) => push_bookmark(alloc, words, path, from, mark),
        Cmd::DestroySnaps(path, names) => push_destroy(alloc, words, path, names),
        Cmd::DestroyMark(path, mark) => push_with_mark(alloc, words, &["destroy"], path, mark),
        Cmd::Create(path) => push_with_path(alloc, words, &CREATE, path),
        Cmd::Transfer(_) => unreachable!(),
        Cmd::Abort(path) => push_with_path(alloc, words, &["receive", "-A"], path),
    }
}

/// A list of words that begins with the program's name.
fn begun(alloc: Global, program: &str) -> Result<Words, AllocError>
    ensures { IfOk result (λ words. words ≡ program.now ∷ []) }
{
    let mut words = Words::new(alloc);
    words.push_all(alloc, &[program])?;
    Ok(words)
}

/// Both children of a transfer.
fn pipe_of(alloc: Global, program: &str, transfer: &Transfer) -> Result<Argv, AllocError>
    ensures words { IfOk result
        (λ argv. argv ≡ argv_words program.now (command.Transfer transfer.now)) }
    ensures named { OnOk result (AreNamed (command.Transfer transfer.now)) }
{
    let mut send = begun(alloc, program)?;
    push_send(alloc, &mut send, transfer)?;
    let mut receive = begun(alloc, program)?;
    push_receive(alloc, &mut receive, &transfer.target, transfer.force)?;
    Ok(Argv::Pipe(send, receive))
}

/// The child of a command that is one call.
#[tactic(auto, using(crate::proofs::Texts::one_words, crate::proofs::Texts::one_named))]
fn one_of(alloc: Global, program: &str, cmd: &Cmd) -> Result<Argv, AllocError>
    requires one { (transfer : TransferValue) → cmd.now ≢ command.Transfer transfer }
    ensures words { IfOk result (λ argv. argv ≡ argv_words program.now cmd.now) }
    ensures named { OnOk result (AreNamed cmd.now) }
{
    let mut words = begun(alloc, program)?;
    push_words(alloc, &mut words, cmd)?;
    Ok(Argv::One(words))
}

/// The children that a command starts, the program's name first in the words of each.
pub fn argv_of(alloc: Global, program: &str, cmd: &Cmd) -> Result<Argv, NoMemory>
    ensures words { IfOk result (λ argv. argv ≡ argv_words program.now cmd.now) }
    ensures named { OnOk result (AreNamed cmd.now) }
{
    let argv = match cmd {
        Cmd::Transfer(transfer) => pipe_of(alloc, program, transfer)?,
        Cmd::Sets
        | Cmd::Versions(_)
        | Cmd::Holds(_, _)
        | Cmd::Token(_)
        | Cmd::Snapshot(_, _)
        | Cmd::Hold(_, _, _, _)
        | Cmd::Release(_, _, _, _)
        | Cmd::Bookmark(_, _, _)
        | Cmd::DestroySnaps(_, _)
        | Cmd::DestroyMark(_, _)
        | Cmd::Create(_)
        | Cmd::Abort(_) => one_of(alloc, program, cmd)?,
    };
    Ok(argv)
}

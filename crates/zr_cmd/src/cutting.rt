//! Cuts a word at its signs into the parts that a pattern asks for.

ghost use Rattle.std.specs.Prelude.{◌≡◌, [], ◌∷◌, ◌++◌, ◌==◌, ◌+◌, ◌≤◌, IfOk, MatchOption, length, position, true};
ghost use Rattle.std.specs.Option.{option_map_or};
ghost use Rattle.std.specs.Bool.{Decides};
ghost use Rattle.std.specs.List.{AllByRecursion, position_or_len};
ghost use Rattle.zr_names.specs.Marks.{tag_front};
ghost use Rattle.zr_cmd.specs.Forms.{IsFull, IsFullGroup, is_sign, IsJobTag, job_part, kind_part, name_part, names_in, set_part, word_at};
ghost use Rattle.zr_cmd.specs.Steps.{ReadsGroup, texts};
ghost use Rattle.zr_cmd.specs.Words.{IsGroup, IsJob, IsPath, IsToken, IsVersion};

use std::alloc::Global;
use zr_command::{Names, read_names};
use zr_names::{
    JobName, MarkName, NameFault, NoMemory, Path, SnapName, TagKind, TokenText, read_job,
    read_mark, read_path, read_snap, read_token_text,
};

/// The bytes of a word, and none where it is missing.
pub(crate) fn word_at(words: &[String], place: usize) -> &[u8]
    ensures { result.now ≡ word_at (texts words.now) place }
{
    match words.get(place) {
        Some(word) => word.as_bytes(),
        None => &[],
    }
}

fn is_sign(byte: u8) -> bool
    ensures { result ≡ is_sign byte }
{
    byte == b'@' || byte == b'#'
}

/// The place of the first `@` or `#`, or the length.
fn sign_place(word: &[u8]) -> usize
    ensures { result ≡ position_or_len is_sign word.now }
{
    for place in 0..word.len() {
        if is_sign(word[place]) {
            return place;
        }
    }
    word.len()
}

/// The path in a full name.
pub(crate) fn set_part(word: &[u8]) -> &[u8]
    ensures { result.now ≡ set_part word.now }
{
    &word[..sign_place(word)]
}

/// The name behind the path in a full name.
pub(crate) fn name_part(word: &[u8]) -> &[u8]
    ensures { result.now ≡ name_part word.now }
{
    let place = sign_place(word);
    if place < word.len() {
        &word[place + 1..]
    } else {
        &[]
    }
}

const STEP: &[u8] = b"zrepl_STEP_J_";

const LAST: &[u8] = b"zrepl_last_received_J_";

/// The kind of a job's tag.
pub(crate) fn kind_part(word: &[u8]) -> TagKind
    ensures { result ≡ kind_part word.now }
{
    if word.starts_with(STEP) {
        TagKind::Step
    } else {
        TagKind::Last
    }
}

pub(crate) fn tag_front(kind: TagKind) -> &'static [u8]
    ensures { result.now ≡ tag_front kind }
{
    match kind {
        TagKind::Step => STEP,
        TagKind::Last => LAST,
    }
}

/// The job of a tag.
pub(crate) fn job_part(word: &[u8]) -> &[u8]
    ensures { result.now ≡ job_part word.now }
{
    let front = tag_front(kind_part(word));
    if front.len() <= word.len() {
        &word[front.len()..]
    } else {
        &[]
    }
}

/// Whether a text is a path.
pub(crate) fn is_path(alloc: Global, text: &[u8]) -> Result<bool, NoMemory>
    ensures { IfOk result (λ yes. Decides yes (IsPath text.now)) }
{
    match read_path(alloc, text) {
        Ok(_) => Ok(true),
        Err(NameFault::Empty | NameFault::BadByte(_) | NameFault::TooLong(_)) => Ok(false),
        Err(NameFault::NoMemory) => Err(NoMemory),
    }
}

/// Whether a text is a resume token.
pub(crate) fn is_token(alloc: Global, text: &[u8]) -> Result<bool, NoMemory>
    ensures { IfOk result (λ yes. Decides yes (IsToken text.now)) }
{
    match read_token_text(alloc, text) {
        Ok(_) => Ok(true),
        Err(NameFault::Empty | NameFault::BadByte(_) | NameFault::TooLong(_)) => Ok(false),
        Err(NameFault::NoMemory) => Err(NoMemory),
    }
}

/// The resume token that a text is.
pub(crate) fn token_of(alloc: Global, text: &[u8]) -> Result<TokenText, NoMemory>
    requires { IsToken text.now }
    ensures { IfOk result (λ token. token ≡ text.now) }
{
    match read_token_text(alloc, text) {
        Ok(token) => Ok(token),
        Err(NameFault::Empty | NameFault::BadByte(_) | NameFault::TooLong(_)) => unreachable!(),
        Err(NameFault::NoMemory) => Err(NoMemory),
    }
}

/// Whether a text is the name of a snapshot or a bookmark.
fn is_version(alloc: Global, text: &[u8]) -> Result<bool, NoMemory>
    ensures { IfOk result (λ yes. Decides yes (IsVersion text.now)) }
{
    match read_snap(alloc, text) {
        Ok(_) => Ok(true),
        Err(NameFault::Empty | NameFault::BadByte(_) | NameFault::TooLong(_)) => Ok(false),
        Err(NameFault::NoMemory) => Err(NoMemory),
    }
}

/// Whether a text is the name of a job.
fn is_job(alloc: Global, text: &[u8]) -> Result<bool, NoMemory>
    ensures { IfOk result (λ yes. Decides yes (IsJob text.now)) }
{
    match read_job(alloc, text) {
        Ok(_) => Ok(true),
        Err(NameFault::Empty | NameFault::BadByte(_) | NameFault::TooLong(_)) => Ok(false),
        Err(NameFault::NoMemory) => Err(NoMemory),
    }
}

/// Whether this sign ends the path in a word.
fn has_sign(sign: u8, word: &[u8]) -> bool
    requires { is_sign sign ≡ true }
    ensures { Decides result (word.now ≡ set_part word.now ++ sign ∷ name_part word.now) }
{
    let place = sign_place(word);
    place < word.len() && word[place] == sign
}

/// Whether a word is a full name with this sign.
pub(crate) fn is_full(alloc: Global, sign: u8, word: &[u8]) -> Result<bool, NoMemory>
    requires { is_sign sign ≡ true }
    ensures { IfOk result (λ yes. Decides yes (IsFull sign word.now)) }
{
    Ok(
        has_sign(sign, word)
            && is_path(alloc, set_part(word))?
            && is_version(alloc, name_part(word))?,
    )
}

/// The place of the first comma.
fn comma_place(text: &[u8]) -> Option<usize>
    ensures { result ≡ position (λ b. b == 44) text.now }
{
    text.iter().position(|b| *b == b',')
}

/// The first of the texts between commas, and what stands behind it.
fn first_name(text: &[u8]) -> (&[u8], Option<&[u8]>)
    ensures names { names_in text.now
        ≡ result.0.now ∷ option_map_or (λ rest. names_in rest.now) result.1 [] }
    ensures shorter { option_map_or (λ rest. length rest.now + 1) result.1 0 ≤ length text.now }
{
    match comma_place(text) {
        Some(place) => (&text[..place], Some(&text[place + 1..])),
        None => (text, None),
    }
}

/// The name of a snapshot that a text is, where it is one.
fn read_version(alloc: Global, text: &[u8]) -> Result<Option<SnapName>, NoMemory>
    ensures { IfOk result (λ name.
        MatchOption name (IsVersion text.now → ⊥)
        (λ name. (name ≡ text.now) × IsVersion text.now)) }
{
    match read_snap(alloc, text) {
        Ok(name) => Ok(Some(name)),
        Err(NameFault::Empty | NameFault::BadByte(_) | NameFault::TooLong(_)) => Ok(None),
        Err(NameFault::NoMemory) => Err(NoMemory),
    }
}

/// The names of snapshots in a text, parted by commas, where each is one.
fn names_in(alloc: Global, text: &[u8]) -> Result<Option<Vec<SnapName>>, NoMemory>
    ensures { IfOk result (λ names.
        MatchOption names (AllByRecursion IsVersion (names_in text.now) → ⊥)
        (λ names. (names.items ≡ names_in text.now) × AllByRecursion IsVersion names.items)) }
{
    let mut names = Vec::new(alloc);
    let mut rest = Some(text);
    while let Some(part) = rest {
        let (name, others) = first_name(part);
        let Some(name) = read_version(alloc, name)? else {
            return Ok(None);
        };
        names.push(name)?;
        rest = others;
    }
    Ok(Some(names))
}

/// The group of names that a text is, parted by commas, where it is one.
fn read_group(alloc: Global, text: &[u8]) -> Result<Option<Names>, NoMemory>
    ensures { IfOk result (ReadsGroup text.now) }
{
    match names_in(alloc, text)? {
        Some(names) => Ok(read_names(names).ok()),
        None => Ok(None),
    }
}

/// The group of names that a text is.
pub(crate) fn group_of(alloc: Global, text: &[u8]) -> Result<Names, NoMemory>
    requires { IsGroup (names_in text.now) }
    ensures { IfOk result (λ names. names ≡ names_in text.now) }
{
    match read_group(alloc, text)? {
        Some(names) => Ok(names),
        None => unreachable!(),
    }
}

/// Whether a text is a group of names.
fn is_group(alloc: Global, text: &[u8]) -> Result<bool, NoMemory>
    ensures { IfOk result (λ yes. Decides yes (IsGroup (names_in text.now))) }
{
    Ok(read_group(alloc, text)?.is_some())
}

/// Whether a word is the path of a dataset and a group of names.
pub(crate) fn is_full_group(alloc: Global, word: &[u8]) -> Result<bool, NoMemory>
    ensures { IfOk result (λ yes. Decides yes (IsFullGroup word.now)) }
{
    Ok(has_sign(b'@', word) && is_path(alloc, set_part(word))? && is_group(alloc, name_part(word))?)
}

/// Whether a word begins as a job's tag of its kind.
fn has_front(word: &[u8]) -> bool
    ensures { Decides result (word.now ≡ tag_front (kind_part word.now) ++ job_part word.now) }
{
    word.starts_with(tag_front(kind_part(word)))
}

/// Whether a word is the tag of a job.
pub(crate) fn is_job_tag(alloc: Global, word: &[u8]) -> Result<bool, NoMemory>
    ensures { IfOk result (λ yes. Decides yes (IsJobTag word.now)) }
{
    Ok(has_front(word) && is_job(alloc, job_part(word))?)
}

/// Whether two full names are of one dataset.
pub(crate) fn is_same_set(one: &[u8], other: &[u8]) -> bool
    ensures { Decides result (set_part one.now ≡ set_part other.now) }
{
    set_part(one) == set_part(other)
}

/// The path that a text is.
pub(crate) fn path_of(alloc: Global, text: &[u8]) -> Result<Path, NoMemory>
    requires { IsPath text.now }
    ensures { IfOk result (λ path. path ≡ text.now) }
{
    match read_path(alloc, text) {
        Ok(path) => Ok(path),
        Err(NameFault::Empty | NameFault::BadByte(_) | NameFault::TooLong(_)) => unreachable!(),
        Err(NameFault::NoMemory) => Err(NoMemory),
    }
}

/// The name of a snapshot that a text is.
pub(crate) fn snap_of(alloc: Global, text: &[u8]) -> Result<SnapName, NoMemory>
    requires { IsVersion text.now }
    ensures { IfOk result (λ name. name ≡ text.now) }
{
    match read_snap(alloc, text) {
        Ok(name) => Ok(name),
        Err(NameFault::Empty | NameFault::BadByte(_) | NameFault::TooLong(_)) => unreachable!(),
        Err(NameFault::NoMemory) => Err(NoMemory),
    }
}

/// The name of a bookmark that a text is.
pub(crate) fn mark_of(alloc: Global, text: &[u8]) -> Result<MarkName, NoMemory>
    requires { IsVersion text.now }
    ensures { IfOk result (λ name. name ≡ text.now) }
{
    match read_mark(alloc, text) {
        Ok(name) => Ok(name),
        Err(NameFault::Empty | NameFault::BadByte(_) | NameFault::TooLong(_)) => unreachable!(),
        Err(NameFault::NoMemory) => Err(NoMemory),
    }
}

/// The name of a job that a text is.
pub(crate) fn job_of(alloc: Global, text: &[u8]) -> Result<JobName, NoMemory>
    requires { IsJob text.now }
    ensures { IfOk result (λ name. name ≡ text.now) }
{
    match read_job(alloc, text) {
        Ok(name) => Ok(name),
        Err(NameFault::Empty | NameFault::BadByte(_) | NameFault::TooLong(_)) => unreachable!(),
        Err(NameFault::NoMemory) => Err(NoMemory),
    }
}

//! Finds the first bad byte of a name. Apart from `names`, which says what is bad in each.

ghost use Rattle.std.specs.Prelude.{◌≡◌, ◌<◌, length, slice_index};
ghost use Rattle.zr_names.specs.Names.{begins_component, ends_component, is_dots, is_name_byte, name_is_bad, path_is_bad, Reads, slash_is_bad, tag_is_bad, token_is_bad};

use crate::names::{
    JOB_LIMIT, JobName, MarkName, NAME_LIMIT, PATH_LIMIT, Path, Prefix, SnapName, TOKEN_LIMIT, Tag,
    TokenText,
};
use std::alloc::{AllocError, Global};
use zr_base::Bytes;

/// Why a text is no name: the place counts bytes from 0, the length is in bytes.
#[derive(Clone, Copy, PartialEq, Eq)]
pub enum NameFault {
    Empty,
    BadByte(usize),
    TooLong(usize),
    NoMemory,
}

impl From<AllocError> for NameFault {
    ghost use Rattle.std.specs.Prelude.{◌≡◌};
    ghost use Rattle.zr_names.specs.declared.reading.NameFault.TheVariants.{NoMemory};

    ghost from_gives = { λ _ fault. fault ≡ NoMemory };

    fn from(_error: AllocError) -> NameFault {
        NameFault::NoMemory
    }
}

/// The rule by which a place of a text is bad.
#[derive(Clone, Copy, PartialEq, Eq)]
pub enum Alphabet {
    Path,
    Name,
    Tag,
    Token,
}

fn is_name_byte(byte: u8) -> bool
    ensures { result ≡ is_name_byte byte }
{
    byte.is_ascii_alphanumeric() || matches!(byte, b'-' | b'_' | b'.' | b':' | b' ')
}

fn begins_component(text: &[u8], place: usize) -> bool
    requires { place < length text.now }
    ensures { result ≡ begins_component text.now place }
{
    place == 0 || text[place - 1] == b'/'
}

fn ends_component(text: &[u8], place: usize) -> bool
    ensures { result ≡ ends_component text.now place }
{
    place >= text.len() || text[place] == b'/'
}

fn is_dots(text: &[u8], place: usize) -> bool
    requires { place < length text.now }
    ensures { result ≡ is_dots text.now place }
{
    text[place] == b'.'
        && (ends_component(text, place + 1)
            || (text[place + 1] == b'.' && ends_component(text, place + 2)))
}

fn slash_is_bad(text: &[u8], place: usize) -> bool
    requires { place < length text.now }
    ensures { result ≡ slash_is_bad text.now place }
{
    begins_component(text, place) || text.len() == place + 1
}

fn path_is_bad(text: &[u8], place: usize) -> bool
    requires { place < length text.now }
    ensures { result ≡ path_is_bad text.now place }
{
    if text[place] == b'/' {
        slash_is_bad(text, place)
    } else {
        !is_name_byte(text[place]) || (begins_component(text, place) && is_dots(text, place))
    }
}

fn token_is_bad(text: &[u8], place: usize) -> bool
    requires { place < length text.now }
    ensures { result ≡ token_is_bad text.now place }
{
    text[place] < b' ' || text[place] > b'~' || (text.len() == 1 && text[0] == b'-')
}

impl Alphabet {
    ghost use Rattle.std.specs.Prelude.{◌≡◌, ◌<◌, length};
    ghost use Rattle.zr_names.specs.Alphabet.{is_bad_in};

    fn is_bad(self, text: &[u8], place: usize) -> bool
        requires { place < length text.now }
        ensures { result ≡ is_bad_in self text.now place }
    {
        match self {
            Alphabet::Path => path_is_bad(text, place),
            Alphabet::Name => !is_name_byte(text[place]),
            Alphabet::Tag => text[place] == b'\t' || text[place] == b'\n',
            Alphabet::Token => token_is_bad(text, place),
        }
    }

    fn read(self, alloc: Global, limit: usize, text: &[u8]) -> Result<Bytes, NameFault>
        ensures { Reads (is_bad_in self) limit text.now result }
    {
        if text.is_empty() {
            return Err(NameFault::Empty);
        }
        if text.len() > limit {
            return Err(NameFault::TooLong(text.len()));
        }
        for place in 0..text.len() {
            if self.is_bad(text, place) {
                return Err(NameFault::BadByte(place));
            }
        }
        Ok(Bytes::from_slice(alloc, text)?)
    }
}

/// Reads the path of a dataset.
pub fn read_path(alloc: Global, text: &[u8]) -> Result<Path, NameFault>
    ensures { Reads path_is_bad PATH_LIMIT text.now result }
{
    Ok(Path::new(Alphabet::Path.read(alloc, PATH_LIMIT, text)?))
}

/// Reads the name of a snapshot.
pub fn read_snap(alloc: Global, text: &[u8]) -> Result<SnapName, NameFault>
    ensures { Reads name_is_bad NAME_LIMIT text.now result }
{
    Ok(SnapName::new(Alphabet::Name.read(alloc, NAME_LIMIT, text)?))
}

/// Reads the name of a bookmark.
pub fn read_mark(alloc: Global, text: &[u8]) -> Result<MarkName, NameFault>
    ensures { Reads name_is_bad NAME_LIMIT text.now result }
{
    Ok(MarkName::new(Alphabet::Name.read(alloc, NAME_LIMIT, text)?))
}

/// Reads the name of a job.
pub fn read_job(alloc: Global, text: &[u8]) -> Result<JobName, NameFault>
    ensures { Reads name_is_bad JOB_LIMIT text.now result }
{
    Ok(JobName::new(Alphabet::Name.read(alloc, JOB_LIMIT, text)?))
}

/// Reads the prefix of a job's snapshots.
pub fn read_prefix(alloc: Global, text: &[u8]) -> Result<Prefix, NameFault>
    ensures { Reads name_is_bad JOB_LIMIT text.now result }
{
    Ok(Prefix::new(Alphabet::Name.read(alloc, JOB_LIMIT, text)?))
}

/// Reads the tag of a hold.
pub fn read_tag(alloc: Global, text: &[u8]) -> Result<Tag, NameFault>
    ensures { Reads tag_is_bad NAME_LIMIT text.now result }
{
    Ok(Tag::new(Alphabet::Tag.read(alloc, NAME_LIMIT, text)?))
}

/// Reads a resume token.
pub fn read_token_text(alloc: Global, text: &[u8]) -> Result<TokenText, NameFault>
    ensures { Reads token_is_bad TOKEN_LIMIT text.now result }
{
    Ok(TokenText::new(Alphabet::Token.read(alloc, TOKEN_LIMIT, text)?))
}

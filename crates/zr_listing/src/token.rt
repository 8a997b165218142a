//! The contents of a resume token. They have lines of many keys, of which two are read, so that the first bad line is
//! found by what all lines before it said and not row by row.

ghost use Rattle.std.specs.Prelude.{◌≡◌, ◌++◌, ◌∷◌, ℕ, List, IfSome, IfNone, IfOk, IfErr, OnOk};
ghost use Rattle.zr_command.specs.declared.version.TokenInfo.{TokenInfo as TokenInfoValue};
ghost use Rattle.zr_listing.specs.Listing.{IsGarbled};
ghost use Rattle.zr_listing.specs.Token.{behind_blanks, IsHexGuid, IsHexNumber, IsTokenLine, IsTokenListing};
ghost use Rattle.zr_listing.specs.TokenFault.{IsBadTokenAt};
ghost use Rattle.zr_listing.specs.TokenSteps.{is_hex_long};
ghost use Rattle.zr_listing.specs.Printing.{ended};
ghost use Rattle.zr_listing.specs.TokenPrinting.{contents_line, contents_text, Fits, guid_text, IsContentsLine};
ghost use Rattle.zr_listing.specs.declared.token.TokenLine.{TokenLine as TokenLineValue};

use crate::columns::cut;
use crate::faults::ListFault;
use std::alloc::{AllocError, Global};
use std::str;
use zr_command::TokenInfo;
use zr_names::{Guid, NoMemory};

/// What a line of the contents says.
#[derive(Clone, Copy)]
pub enum TokenLine {
    /// The guid of the snapshot that is sent.
    To(Guid),
    /// The guid of what the stream goes on from.
    From(Guid),
    Other,
}

/// The line without the spaces and tabs at its front.
fn behind_blanks(line: &[u8]) -> &[u8]
    ensures { result.now ≡ behind_blanks line.now }
{
    let mut text = line;
    while let Some((first, rest)) = text.split_first() {
        if *first != b' ' && *first != b'\t' {
            break;
        }
        text = rest;
    }
    text
}

/// What follows a key.
fn behind_key<'a>(key: &[u8], text: &'a [u8]) -> Option<&'a [u8]>
    ensures some { IfSome result (λ value. text.now ≡ key.now ++ value.now) }
    ensures none { IfNone result ((value : List ℕ) → text.now ≡ key.now ++ value → ⊥) }
{
    text.strip_prefix(key)
}

/// Whether the text may be a number of 64 bits in hexadecimal digits: `from_str_radix` reads a sign too.
fn is_hex_long(text: &[u8]) -> bool
    ensures { result ≡ is_hex_long text.now }
{
    !text.is_empty() && text[0] != b'+' && text.len() <= 16
}

/// Reads 1 to 16 hexadecimal digits.
fn read_hex(text: &[u8]) -> Option<u64>
    ensures some { IfSome result (IsHexNumber text.now) }
    ensures none { IfNone result ((n : ℕ) → IsHexNumber text.now n → ⊥) }
{
    if !is_hex_long(text) {
        return None;
    }
    match str::from_utf8(text) {
        Ok(digits) => u64::from_str_radix(digits, 16).ok(),
        Err(_) => None,
    }
}

/// Reads `0x` and the digits of a guid.
fn read_guid(text: &[u8]) -> Option<Guid>
    ensures some { IfSome result (IsHexGuid text.now) }
    ensures none { IfNone result ((guid : Guid) → IsHexGuid text.now guid → ⊥) }
{
    match behind_key(b"0x".as_slice(), text) {
        Some(digits) => Some(Guid(read_hex(digits)?)),
        None => None,
    }
}

/// Reads a line of the contents.
fn token_line(line: &[u8]) -> Option<TokenLine>
    ensures some { IfSome result (IsTokenLine line.now) }
    ensures none { IfNone result ((said : TokenLineValue) → IsTokenLine line.now said → ⊥) }
{
    let text = behind_blanks(line);
    match behind_key(b"toguid = ".as_slice(), text) {
        Some(value) => Some(TokenLine::To(read_guid(value)?)),
        None => match behind_key(b"fromguid = ".as_slice(), text) {
            Some(value) => Some(TokenLine::From(read_guid(value)?)),
            None => Some(TokenLine::Other),
        },
    }
}

/// The guids in the lines so far.
#[derive(Drop)]
struct Seen {
    to: Option<Guid>,
    from: Option<Guid>,
}

impl Seen {
    ghost use Rattle.std.specs.Prelude.{◌≡◌, IfSome, IfNone, IsTrue, not};
    ghost use Rattle.zr_listing.specs.TokenSteps.{repeats, SeesMore, StopsAt, TakesLine};

    /// Notes what a line said, if it repeats no key, and tells whether it does not.
    fn note(&mut self, said: TokenLine) -> bool
        ensures new { result ≡ not (repeats self.old said) }
        ensures more { IsTrue result → SeesMore self.old said self.new }
    {
        match said {
            TokenLine::To(guid) if self.to.is_none() => self.to = Some(guid),
            TokenLine::From(guid) if self.from.is_none() => self.from = Some(guid),
            TokenLine::To(_) | TokenLine::From(_) => return false,
            TokenLine::Other => {}
        }
        true
    }

    /// Reads the first line of a text, and gives what follows it.
    fn take_line<'a>(&mut self, text: &'a [u8]) -> Option<&'a [u8]>
        ensures some { IfSome result (λ rest. TakesLine text.now self.old rest.now self.new) }
        ensures none { IfNone result (StopsAt text.now self.old) }
    {
        let (line, rest) = cut(text, b'\n')?;
        let said = token_line(line)?;
        if self.note(said) { Some(rest) } else { None }
    }
}

/// Reads what a resume token says (zfs-send(8), with `-nvt`), however its program ended.
pub fn read_token(bytes: &[u8]) -> Result<TokenInfo, ListFault>
    ensures info { IfOk result (IsTokenListing bytes.now) }
    ensures only { IfOk result
        (λ info. (other : TokenInfoValue) → IsTokenListing bytes.now other → other ≡ info) }
    ensures garbled { IfErr result (IsBadTokenAt bytes.now) }
    ensures none { IsGarbled result → (info : TokenInfoValue) → IsTokenListing bytes.now info → ⊥ }
{
    let mut seen = Seen {
        to: None,
        from: None,
    };
    let mut rest = bytes;
    let mut number: u64 = 1;
    while !rest.is_empty() {
        match seen.take_line(rest) {
            Some(after) => rest = after,
            None => return Err(ListFault::Garbled(number)),
        }
        number += 1;
    }
    match seen.to {
        Some(to) => Ok(TokenInfo {
            to,
            from: seen.from,
        }),
        None => Err(ListFault::Garbled(number)),
    }
}

/// Prints a tab, a key, a guid and a newline.
fn push_guid(alloc: Global, out: &mut Vec<u8>, key: &[u8], guid: Guid) -> Result<(), AllocError>
    ensures { OnOk result (out.new.items ≡ out.old.items ++ ended (9 ∷ key.now ++ guid_text guid)) }
{
    let digits = format!(in alloc; "{:x}", guid.0)?;
    out.push(b'\t')?;
    out.extend_from_slice(key)?;
    out.extend_from_slice(b"0x")?;
    out.extend_from_slice(digits.as_bytes())?;
    out.push(b'\n')?;
    Ok(())
}

fn push_line(alloc: Global, out: &mut Vec<u8>, said: TokenLine) -> Result<(), AllocError>
    ensures text { OnOk result (out.new.items ≡ out.old.items ++ ended (contents_line said)) }
    ensures valid { IsContentsLine said }
{
    match said {
        TokenLine::To(guid) => push_guid(alloc, out, b"toguid = ".as_slice(), guid),
        TokenLine::From(guid) => push_guid(alloc, out, b"fromguid = ".as_slice(), guid),
        TokenLine::Other => out.extend_from_slice(b"resume token contents:\n"),
    }
}

fn contents(alloc: Global, info: &TokenInfo) -> Result<Vec<u8>, AllocError>
    ensures text { IfOk result (λ text. text.items ≡ contents_text info.now) }
    ensures fits { OnOk result (Fits info.now) }
{
    let mut out = Vec::new(alloc);
    push_line(alloc, &mut out, TokenLine::Other)?;
    if let Some(from) = info.from {
        push_line(alloc, &mut out, TokenLine::From(from))?;
    }
    push_line(alloc, &mut out, TokenLine::To(info.to))?;
    Ok(out)
}

/// Prints what a resume token says, of which `read_token` reads the same.
#[tactic(auto, using(crate::proofs::TokenPrinted::contents_shown))]
pub fn print_token(alloc: Global, info: &TokenInfo) -> Result<Vec<u8>, NoMemory>
    ensures text { IfOk result (λ text. text.items ≡ contents_text info.now) }
    ensures read_back { IfOk result (λ text. IsTokenListing text.items info.now) }
{
    Ok(contents(alloc, info)?)
}

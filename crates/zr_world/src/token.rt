//! The tokens of the model, `1-TO-FROM-SOURCE`, read by places and compared with the token of what was read.

ghost use Rattle.std.specs.Prelude.{◌≡◌, IfOk, None, Some, drop, if◌then◌else◌, take};
ghost use Rattle.zr_names.specs.Hex.{digit_number};
ghost use Rattle.zr_command.specs.Names.{same_text};
ghost use Rattle.zr_world.specs.Rows.{token_text};
ghost use Rattle.zr_world.specs.Tokens.{guid_at, info_of, is_path, number_behind, partial_by, partial_of_token, partial_told, says_none};

use crate::pools::Partial;
use std::alloc::{AllocError, Global};
use zr_command::TokenInfo;
use zr_names::{Guid, NameFault, NoMemory, Path, TokenText, read_path};

/// The value of a hexadecimal digit, whatever byte it is.
fn digit_number(byte: u8) -> u64
    ensures { result ≡ digit_number byte }
{
    if byte < 58 {
        u64::from(byte.saturating_sub(48))
    } else {
        u64::from(byte.saturating_sub(87))
    }
}

/// The number that digits write, in 64 bits.
fn number(digits: &[u8]) -> u64
    ensures { result ≡ number_behind 0 digits.now }
{
    let mut number: u64 = 0;
    for digit in digits {
        number = number.wrapping_mul(16).wrapping_add(digit_number(*digit));
    }
    number
}

/// The bytes from a place on.
fn behind(text: &[u8], place: usize) -> &[u8]
    ensures { result.now ≡ drop place text.now }
{
    match text.get(place..) {
        Some(rest) => rest,
        None => &[],
    }
}

/// Sixteen bytes, or fewer where no more are left.
fn sixteen(text: &[u8]) -> &[u8]
    ensures { result.now ≡ take 16 text.now }
{
    match text.get(..16) {
        Some(front) => front,
        None => text,
    }
}

fn guid_at(text: &[u8], place: usize) -> Guid
    ensures { result ≡ guid_at text.now place }
{
    Guid(number(sixteen(behind(text, place))))
}

fn says_none(text: &[u8]) -> bool
    ensures { result ≡ says_none text.now }
{
    match text.get(19) {
        Some(byte) => *byte == b'n',
        None => false,
    }
}

/// The path that a text is, if it is one.
#[tactic(auto, using(crate::proofs::TokensRead::path_found, crate::proofs::TokensRead::path_none))]
fn path_in(alloc: Global, text: &[u8]) -> Result<Option<Path>, NoMemory>
    ensures { IfOk result (λ found. found ≡ (if is_path text.now then Some text.now else None)) }
{
    match read_path(alloc, text) {
        Ok(path) => Ok(Some(path)),
        Err(NameFault::NoMemory) => Err(NoMemory),
        Err(NameFault::Empty | NameFault::BadByte(_) | NameFault::TooLong(_)) => Ok(None),
    }
}

/// What stands at the places of a text, if its source is a path.
fn partial_told(alloc: Global, text: &[u8]) -> Result<Option<Partial>, NoMemory>
    ensures { IfOk result (λ found. found ≡ partial_told text.now) }
{
    let (from, place) = if says_none(text) {
        (None, 24)
    } else {
        (Some(guid_at(text, 19)), 36)
    };
    match path_in(alloc, behind(text, place))? {
        Some(source) => Ok(Some(Partial {
            to: guid_at(text, 2),
            from,
            source,
        })),
        None => Ok(None),
    }
}

/// Whether this is the token that the model shows for a partial receive.
pub(crate) fn is_shown(
    alloc: Global,
    partial: &Partial,
    token: &TokenText,
) -> Result<bool, AllocError>
    ensures { IfOk result (λ yes. yes ≡ same_text (token_text partial.now) token.now) }
{
    let shown = partial.token(alloc)?;
    Ok(shown == *token)
}

/// The partial receive whose token in the model this is.
#[tactic(auto, unfolding(crate::specs::Tokens::partial_of_token))]
pub fn partial_of_token(alloc: Global, token: &TokenText) -> Result<Option<Partial>, NoMemory>
    ensures { IfOk result (λ found. found ≡ partial_of_token token.now) }
{
    let Some(partial) = partial_told(alloc, token.as_bytes())? else {
        return Ok(None);
    };
    match is_shown(alloc, &partial, token) {
        Ok(true) => Ok(Some(partial)),
        Ok(false) => {
            drop(partial);
            Ok(None)
        }
        Err(fault) => {
            drop(partial);
            Err(fault.into())
        }
    }
}

impl Partial {
    ghost use Rattle.std.specs.Prelude.{◌≡◌};
    ghost use Rattle.zr_world.specs.Tokens.{info_of};

    /// What its token says of the stream that completes it.
    pub fn info(&self) -> TokenInfo
        ensures { result ≡ info_of self.now }
    {
        TokenInfo {
            to: self.to,
            from: self.from,
        }
    }
}

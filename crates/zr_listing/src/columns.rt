//! Cuts a line into its columns.

ghost use Rattle.std.specs.Prelude.{◌≡◌, ◌≢◌, ◌==◌, List, ℕ, ◌<◌, ◌^◌, [], ◌∷◌, ◌++◌, IfSome, IfNone, length, position};
ghost use Rattle.std.specs.Fmt.{decimal};
ghost use Rattle.zr_listing.specs.Columns.{columns, has_printed_front, parted};

use std::str;

/// The first place of a byte in a text.
fn place_of(text: &[u8], byte: u8) -> Option<usize>
    ensures { result ≡ position (λ b. b == byte) text.now }
{
    text.iter().position(|b| *b == byte)
}

/// What stands before and after the first place of a byte.
pub(crate) fn cut(text: &[u8], byte: u8) -> Option<(&[u8], &[u8])>
    ensures some { IfSome result
        (λ parts. parted byte text.now ≡ parts.0.now ∷ parted byte parts.1.now) }
    ensures shorter { IfSome result (λ parts. length parts.1.now < length text.now) }
    ensures none { IfNone result (parted byte text.now ≡ text.now ∷ []) }
{
    let place = place_of(text, byte)?;
    Some((&text[..place], &text[place + 1..]))
}

/// The first column of a line.
pub(crate) fn first_column(line: &[u8]) -> &[u8]
    ensures { (others : List (List ℕ)) (column : List ℕ) → columns line.now ≡ column ∷ others
        → result.now ≡ column }
{
    match cut(line, b'\t') {
        Some((column, _)) => column,
        None => line,
    }
}

/// The second column of a line.
pub(crate) fn second_column(line: &[u8]) -> &[u8]
    ensures { (others : List (List ℕ)) (first column : List ℕ)
        → columns line.now ≡ first ∷ column ∷ others → result.now ≡ column }
{
    match cut(line, b'\t') {
        Some((_, others)) => first_column(others),
        None => line,
    }
}

/// The three columns of a line.
#[tactic(auto, using(crate::proofs::Cutting::length_parted))]
pub(crate) fn three_columns(line: &[u8]) -> Option<(&[u8], &[u8], &[u8])>
    ensures some { IfSome result (λ c. columns line.now ≡ c.0.now ∷ c.1.now ∷ c.2.now ∷ []) }
    ensures none { IfNone result (length (columns line.now) ≢ 3) }
{
    let (first, rest) = cut(line, b'\t')?;
    let (second, third) = cut(rest, b'\t')?;
    if cut(third, b'\t').is_some() {
        return None;
    }
    Some((first, second, third))
}

/// Whether the text has the front of a printed number: no sign, and a zero only alone.
fn has_printed_front(text: &[u8]) -> bool
    ensures { result ≡ has_printed_front text.now }
{
    !text.is_empty() && text[0] != b'+' && (text[0] != b'0' || text.len() == 1)
}

/// Reads a decimal number without leading zeros.
pub(crate) fn read_number(text: &[u8]) -> Option<u64>
    ensures some { IfSome result (λ n. text.now ≡ decimal n) }
    ensures none { IfNone result ((n : ℕ) → n < 2 ^ 64 → text.now ≡ decimal n → ⊥) }
{
    if !has_printed_front(text) {
        return None;
    }
    match str::from_utf8(text) {
        Ok(digits) => digits.parse::<u64>().ok(),
        Err(_) => None,
    }
}

/// The columns of a line of versions.
#[derive(Clone, Copy)]
pub(crate) struct VersionColumns<'a> {
    pub(crate) name: &'a [u8],
    pub(crate) guid: &'a [u8],
    pub(crate) txg: &'a [u8],
    pub(crate) creation: &'a [u8],
    pub(crate) refs: &'a [u8],
}

/// The five columns of a line.
#[tactic(auto, using(crate::proofs::Cutting::length_parted))]
pub(crate) fn version_columns(line: &[u8]) -> Option<VersionColumns<'_>>
    ensures some { IfSome result (λ c. columns line.now
        ≡ c.name.now ∷ c.guid.now ∷ c.txg.now ∷ c.creation.now ∷ c.refs.now ∷ []) }
    ensures none { IfNone result (length (columns line.now) ≢ 5) }
{
    let (name, rest) = cut(line, b'\t')?;
    let (guid, rest) = cut(rest, b'\t')?;
    let (txg, creation, refs) = three_columns(rest)?;
    Some(VersionColumns {
        name,
        guid,
        txg,
        creation,
        refs,
    })
}

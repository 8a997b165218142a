//! Scalars: plain ones, and those in quotes. Apart from the lines, which only tell where one may stand.

ghost use Rattle.std.specs.Prelude.{◌≡◌, ◌≤◌, ◌+◌, ◌==◌, length, false, true};
ghost use Rattle.std.specs.List.{list_all, list_any};
ghost use Rattle.zr_names.specs.Tree.{tree};
ghost use Rattle.zr_yaml.specs.Scan.{Gives};
ghost use Rattle.zr_yaml.specs.Scalar.{after_plain, double_quoted, ends_plain, ends_with, escape_of, is_bracket_mark, is_digit, is_mark, is_number, is_plain, number_from, plain_found, plain_length, plain_tree, single_quoted, trimmed};

use crate::fault::Stop;
use crate::scan::ends_part;
use std::alloc::Global;
use zr_names::Bytes;
use zr_names::node::Node;

/// A scalar, as it stands in a text.
#[derive(Drop)]
pub(crate) struct Scalar {
    pub(crate) bytes: Bytes,
    pub(crate) quoted: bool,
}

fn escape_of(letter: u8) -> Option<u8>
    ensures { result ≡ escape_of letter }
{
    match letter {
        b'\\' => Some(b'\\'),
        b'"' => Some(b'"'),
        b'n' => Some(b'\n'),
        b't' => Some(b'\t'),
        _ => None,
    }
}

fn double_quoted(alloc: Global, text: &[u8]) -> Result<(Vec<u8>, &[u8]), Stop>
    ensures { Gives (λ x. (x.0.items, x.1.now)) result (double_quoted false text.now) }
{
    let mut bytes = Vec::new(alloc);
    let mut rest = text;
    let mut escaped = false;
    while let [byte, more @ ..] = rest {
        if escaped {
            let Some(meant) = escape_of(*byte) else {
                return Err(Stop::Bad);
            };
            bytes.push(meant)?;
            escaped = false;
        } else if *byte == b'"' {
            return Ok((bytes, more));
        } else if *byte == b'\\' {
            escaped = true;
        } else {
            bytes.push(*byte)?;
        }
        rest = more;
    }
    Err(Stop::Bad)
}

fn single_quoted(alloc: Global, text: &[u8]) -> Result<(Vec<u8>, &[u8]), Stop>
    ensures { Gives (λ x. (x.0.items, x.1.now)) result (single_quoted text.now) }
{
    let mut bytes = Vec::new(alloc);
    let mut rest = text;
    loop {
        match rest {
            [] => return Err(Stop::Bad),
            [b'\'', b'\'', more @ ..] => {
                bytes.push(b'\'')?;
                rest = more;
            }
            [b'\'', more @ ..] => return Ok((bytes, more)),
            [byte, more @ ..] => {
                bytes.push(*byte)?;
                rest = more;
            }
        }
    }
}

fn is_mark(byte: u8) -> bool
    ensures { result ≡ is_mark byte }
{
    matches!(
        byte,
        b' ' | b'-'
            | b'?'
            | b':'
            | b','
            | b'['
            | b']'
            | b'{'
            | b'}'
            | b'#'
            | b'&'
            | b'*'
            | b'!'
            | b'|'
            | b'>'
            | b'\''
            | b'"'
            | b'%'
            | b'@'
            | b'`'
    )
}

fn is_bracket_mark(byte: u8) -> bool
    ensures { result ≡ is_bracket_mark byte }
{
    matches!(byte, b',' | b'[' | b']' | b'{' | b'}')
}

fn ends_plain(in_brackets: bool, before: u8, byte: u8, rest: &[u8]) -> bool
    ensures { result ≡ ends_plain in_brackets before byte rest.now }
{
    (byte == b':' && ends_part(rest))
        || (byte == b'#' && before == b' ')
        || (in_brackets && is_bracket_mark(byte))
}

fn after_plain(text: &[u8], first: u8, in_brackets: bool) -> &[u8]
    ensures rest { result.now ≡ after_plain in_brackets first text.now }
    ensures within { length result.now ≤ length text.now }
{
    let mut rest = text;
    let mut before = first;
    while let [byte, more @ ..] = rest {
        if ends_plain(in_brackets, before, *byte, more) {
            break;
        }
        before = *byte;
        rest = more;
    }
    rest
}

fn trimmed(text: &[u8]) -> &[u8]
    ensures front { result.now ≡ trimmed text.now }
    ensures within { length result.now ≤ length text.now }
{
    let mut end = text.len();
    while end > 0 && text[end - 1] == b' ' {
        end -= 1;
    }
    &text[..end]
}

fn has_tab(text: &[u8]) -> bool
    ensures { result ≡ list_any (λ b. b == 9) text.now }
{
    text.iter().any(|byte| *byte == b'\t')
}

pub(crate) fn ends_with(text: &[u8], last: u8) -> bool
    ensures { result ≡ ends_with last text.now }
{
    !text.is_empty() && text[text.len() - 1] == last
}

fn is_plain(text: &[u8]) -> bool
    ensures { result ≡ is_plain text.now }
{
    !has_tab(text) && !ends_with(text, b':')
}

fn plain_length(first: u8, rest: &[u8], in_brackets: bool) -> usize
    ensures size { result ≡ plain_length in_brackets first rest.now }
    ensures within { result ≤ length rest.now + 1 }
{
    let left = after_plain(rest, first, in_brackets).len();
    trimmed(&rest[..rest.len() - left]).len() + 1
}

fn plain(alloc: Global, text: &[u8], size: usize) -> Result<(Scalar, &[u8]), Stop>
    requires { size ≤ length text.now }
    ensures { Gives (λ x. (x.0, x.1.now)) result (plain_found size text.now) }
{
    let (front, rest) = text.split_at(size);
    if !is_plain(front) {
        return Err(Stop::Bad);
    }
    let bytes = Bytes::from_slice(alloc, front)?;
    Ok((
        Scalar {
            bytes,
            quoted: false,
        },
        rest,
    ))
}

fn are_digits(text: &[u8]) -> bool
    ensures { result ≡ list_all is_digit text.now }
{
    text.iter().all(|byte| *byte >= b'0' && *byte <= b'9')
}

fn is_number(text: &[u8]) -> bool
    ensures { result ≡ is_number text.now }
{
    !text.is_empty() && text.len() <= 18 && are_digits(text)
}

fn number_from(digits: &[u8]) -> u64
    requires { is_number digits.now ≡ true }
    ensures { result ≡ number_from 0 digits.now }
{
    let mut number: u64 = 0;
    for digit in digits {
        number = number * 10 + u64::from(*digit - b'0');
    }
    number
}

fn plain_node(bytes: Bytes) -> Node
    ensures { tree result ≡ plain_tree bytes }
{
    let text = bytes.as_slice();
    if text == b"true".as_slice() {
        return Node::Flag(true);
    }
    if text == b"false".as_slice() {
        return Node::Flag(false);
    }
    if text == b"null".as_slice() || text == b"~".as_slice() {
        return Node::Null;
    }
    if is_number(text) {
        return Node::Number(number_from(text));
    }
    Node::text(bytes)
}

impl Scalar {
    ghost use Rattle.std.specs.Prelude.{◌≡◌, true};
    ghost use Rattle.zr_names.specs.Tree.{tree};
    ghost use Rattle.zr_yaml.specs.Scan.{Gives};
    ghost use Rattle.zr_yaml.specs.Scalar.{scalar_at, scalar_tree};

    /// The scalar at the front, and what comes after it.
    pub(crate) fn read(
        alloc: Global,
        text: &[u8],
        in_brackets: bool,
    ) -> Result<(Scalar, &[u8]), Stop>
        ensures { Gives (λ x. (x.0, x.1.now)) result (scalar_at in_brackets text.now) }
    {
        match text {
            [] => Err(Stop::Bad),
            [b'"', rest @ ..] => {
                let (bytes, rest) = double_quoted(alloc, rest)?;
                Ok((Scalar::quoted(bytes), rest))
            }
            [b'\'', rest @ ..] => {
                let (bytes, rest) = single_quoted(alloc, rest)?;
                Ok((Scalar::quoted(bytes), rest))
            }
            [byte, ..] if is_mark(*byte) => Err(Stop::Bad),
            [byte, rest @ ..] => plain(alloc, text, plain_length(*byte, rest, in_brackets)),
        }
    }

    fn quoted(bytes: Vec<u8>) -> Scalar
        ensures { result ≡ record { bytes = bytes.items; quoted = true } }
    {
        Scalar {
            bytes: Bytes::from_vec(bytes),
            quoted: true,
        }
    }

    /// The node that it stands for.
    pub(crate) fn into_node(self) -> Node
        ensures { tree result ≡ scalar_tree self }
    {
        let Scalar { bytes, quoted } = self;
        if quoted {
            Node::text(bytes)
        } else {
            plain_node(bytes)
        }
    }
}

//! What a line says: its dashes, its key and the pieces of its value. Apart from the blocks, which see no bytes.

ghost use Rattle.std.specs.Prelude.{◌≡◌, ◌+◌, ◌^◌, ◌<◌, ◌≤◌, suc, [], length};
ghost use Rattle.zr_yaml.specs.Scan.{Gives};
ghost use Rattle.zr_yaml.specs.Symbols.{Adds, begins_value, closed_by, content_at, front_of, line_at, line_end, line_symbols, opened_by, opens, pieces_at, value_at};

use crate::fault::Stop;
use crate::scalar::Scalar;
use crate::scan::{ends_part, skip_gap, tail};
use std::alloc::Global;
use zr_names::Bytes;

/// The two kinds of brackets.
#[derive(Clone, Copy, PartialEq, Eq)]
pub(crate) enum Bracket {
    Curly,
    Square,
}

/// A piece of a value.
#[derive(Drop)]
pub(crate) enum Piece {
    One(Scalar),
    Open(Bracket),
    Close(Bracket),
    Comma,
    Colon,
}

/// What stands on a line, with its column where it begins something.
#[derive(Drop)]
pub(crate) enum Symbol {
    Dash(usize),
    Key(usize, Bytes),
    /// The first piece of a value.
    Value(usize, Piece),
    /// A further one, in brackets.
    More(Piece),
}

/// What a line goes on with outside of brackets.
#[derive(Clone, Copy)]
pub(crate) enum Front {
    /// The line's end, or a comment.
    Nothing,
    Blank,
    Dashed,
    Content,
}

fn front_of(text: &[u8]) -> Front
    ensures { result ≡ front_of text.now }
{
    match text {
        [] => Front::Nothing,
        [b' ', ..] => Front::Blank,
        [b'#', ..] => Front::Nothing,
        [b'-', rest @ ..] if ends_part(rest) => Front::Dashed,
        _ => Front::Content,
    }
}

fn opened_by(byte: u8) -> Option<Bracket>
    ensures { result ≡ opened_by byte }
{
    match byte {
        b'{' => Some(Bracket::Curly),
        b'[' => Some(Bracket::Square),
        _ => None,
    }
}

fn closed_by(byte: u8) -> Option<Bracket>
    ensures { result ≡ closed_by byte }
{
    match byte {
        b'}' => Some(Bracket::Curly),
        b']' => Some(Bracket::Square),
        _ => None,
    }
}

fn begins_value(text: &[u8]) -> bool
    ensures { result ≡ begins_value text.now }
{
    match text {
        [b':', rest @ ..] => ends_part(rest),
        _ => false,
    }
}

fn opens(text: &[u8]) -> bool
    ensures { result ≡ opens text.now }
{
    match text {
        [byte, ..] => opened_by(*byte).is_some(),
        [] => false,
    }
}

impl Piece {
    ghost use Rattle.std.specs.Prelude.{◌≡◌, ◌+◌, ◌<◌, ◌^◌};
    ghost use Rattle.zr_yaml.specs.Scan.{Gives};
    ghost use Rattle.zr_yaml.specs.Symbols.{open_after, piece_at};

    /// The piece at the front, in brackets, and what comes after it.
    fn read(alloc: Global, text: &[u8]) -> Result<(Piece, &[u8]), Stop>
        ensures { Gives (λ x. (x.0, x.1.now)) result (piece_at text.now) }
    {
        let [byte, rest @ ..] = text else {
            return Err(Stop::Bad);
        };
        if let Some(kind) = opened_by(*byte) {
            return Ok((Piece::Open(kind), rest));
        }
        if let Some(kind) = closed_by(*byte) {
            return Ok((Piece::Close(kind), rest));
        }
        if *byte == b',' {
            return Ok((Piece::Comma, rest));
        }
        if *byte == b':' && ends_part(rest) {
            return Ok((Piece::Colon, rest));
        }
        let (one, rest) = Scalar::read(alloc, text, true)?;
        Ok((Piece::One(one), rest))
    }

    /// How many brackets are open after it.
    fn open_after(&self, unclosed: usize) -> usize
        requires { unclosed + 1 < 2 ^ 64 }
        ensures { result ≡ open_after unclosed self.now }
    {
        match self {
            Piece::Open(_) => unclosed + 1,
            Piece::Close(_) => unclosed.saturating_sub(1),
            Piece::One(_) | Piece::Comma | Piece::Colon => unclosed,
        }
    }
}

/// Nothing but blanks and a comment is left of a line.
fn line_end(rest: &[u8]) -> Result<usize, Stop>
    ensures { Gives (λ unclosed. ([], unclosed)) result (line_end rest.now) }
{
    match skip_gap(rest, false) {
        [] => Ok(0),
        _ => Err(Stop::Bad),
    }
}

/// Adds the pieces of a line while brackets are open, and answers how many are open behind it.
fn pieces(
    alloc: Global,
    symbols: &mut Vec<Symbol>,
    unclosed: usize,
    text: &[u8],
    spaced: bool,
) -> Result<usize, Stop>
    requires { unclosed + length text.now < 2 ^ 64 }
    ensures { Adds symbols.old.items symbols.new.items result
        (pieces_at (suc (length text.now)) unclosed spaced text.now) }
{
    let mut unclosed = unclosed;
    let mut rest = skip_gap(text, spaced);
    'pieces: while !rest.is_empty() {
        let (piece, after) = Piece::read(alloc, rest)?;
        unclosed = piece.open_after(unclosed);
        symbols.push(Symbol::More(piece))?;
        if unclosed == 0 {
            return line_end(after);
        }
        rest = skip_gap(after, false);
    }
    Ok(unclosed)
}

/// Adds a value: brackets, or a scalar alone.
fn value(
    alloc: Global,
    symbols: &mut Vec<Symbol>,
    column: usize,
    text: &[u8],
) -> Result<usize, Stop>
    ensures { Adds symbols.old.items symbols.new.items result (value_at column text.now) }
{
    let [byte, rest @ ..] = text else {
        return Ok(0);
    };
    if let Some(kind) = opened_by(*byte) {
        symbols.push(Symbol::Value(column, Piece::Open(kind)))?;
        return pieces(alloc, symbols, 1, rest, false);
    }
    let (one, rest) = Scalar::read(alloc, text, false)?;
    symbols.push(Symbol::Value(column, Piece::One(one)))?;
    line_end(rest)
}

/// Adds a key and its value, or a value alone.
fn content(
    alloc: Global,
    symbols: &mut Vec<Symbol>,
    width: usize,
    text: &[u8],
) -> Result<usize, Stop>
    requires { length text.now ≤ width }
    ensures { Adds symbols.old.items symbols.new.items result (content_at width text.now) }
{
    let column = width - text.len();
    if opens(text) {
        return value(alloc, symbols, column, text);
    }
    let (one, rest) = Scalar::read(alloc, text, false)?;
    if !begins_value(rest) {
        symbols.push(Symbol::Value(column, Piece::One(one)))?;
        return line_end(rest);
    }
    symbols.push(Symbol::Key(column, one.bytes))?;
    let text = skip_gap(tail(rest), false);
    value(alloc, symbols, width - text.len(), text)
}

/// Adds what a line says that begins outside of brackets.
fn line(alloc: Global, symbols: &mut Vec<Symbol>, text: &[u8]) -> Result<usize, Stop>
    ensures { Adds symbols.old.items symbols.new.items result (line_at (length text.now) text.now) }
{
    let width = text.len();
    let mut rest = text;
    'line: loop {
        match front_of(rest) {
            Front::Nothing => return Ok(0),
            Front::Content => return content(alloc, symbols, width, rest),
            Front::Blank => rest = tail(rest),
            Front::Dashed => {
                symbols.push(Symbol::Dash(width - rest.len()))?;
                rest = tail(rest);
            }
        }
    }
}

/// What a line says where so many brackets are open before it, and how many are open behind it.
pub(crate) fn line_symbols(
    alloc: Global,
    unclosed: usize,
    text: &[u8],
) -> Result<(Vec<Symbol>, usize), Stop>
    requires { unclosed + length text.now < 2 ^ 64 }
    ensures { Gives (λ x. (x.0.items, x.1)) result (line_symbols unclosed text.now) }
{
    let mut symbols = Vec::new(alloc);
    let unclosed = if unclosed == 0 {
        line(alloc, &mut symbols, text)?
    } else {
        pieces(alloc, &mut symbols, unclosed, text, true)?
    };
    Ok((symbols, unclosed))
}

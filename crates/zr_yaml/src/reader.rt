//! The reader: a stack of frames, and the node so far. A symbol changes the top of the stack.

ghost use Rattle.std.specs.Prelude.{◌≡◌, ◌<◌, ◌∷◌, [], vec_len, IfSome, MatchOption};
ghost use Rattle.std.specs.Option.{option_map};
ghost use Rattle.zr_names.specs.Tree.{tree};
ghost use Rattle.zr_yaml.specs.Scan.{Gives, GivesAll};
ghost use Rattle.zr_yaml.specs.Reading.{begun, closed, dashes_at, ends_first, has_room, keys_at};
ghost use Rattle.zr_yaml.specs.Reading.{lone_step, may_begin, more_step, next_dash, next_key, stepped};
ghost use Rattle.zr_yaml.specs.Views.{frame_view, frames_view, reader_view, step_view};

use crate::fault::Stop;
use crate::frame::{Frame, Step, node_or_null, opened, with_node};
use crate::keyed::Keyed;
use crate::lines::is_text;
use crate::symbols::{Piece, Symbol, line_symbols};
use std::alloc::Global;
use zr_names::Bytes;
use zr_names::node::{Node, NodeText};

/// How deep maps and sequences nest at most.
const MAX_DEPTH: usize = 32;

/// The maps and sequences that are not complete, the innermost last, and the node that belongs into that one.
#[derive(Drop)]
pub(crate) struct Reader {
    frames: Vec<Frame>,
    slot: Option<Node>,
}

/// The frames, and one more inside.
fn with_frame(frames: Vec<Frame>, frame: Frame) -> Result<Vec<Frame>, Stop>
    ensures { GivesAll (λ v. frames_view v.items) result
        (frame_view frame ∷ frames_view frames.items) }
{
    let mut frames = frames;
    frames.push(frame)?;
    Ok(frames)
}

/// The innermost frame, and those outside of it.
fn without_frame(frames: Vec<Frame>) -> Option<(Frame, Vec<Frame>)>
    ensures parts { MatchOption result (frames_view frames.items ≡ [])
        (λ x. frames_view frames.items ≡ frame_view x.0 ∷ frames_view x.1.items) }
    ensures fewer { IfSome result (λ x. vec_len x.1 < vec_len frames) }
{
    let mut frames = frames;
    match frames.pop() {
        Some(frame) => Some((frame, frames)),
        None => None,
    }
}

fn has_room(frames: &[Frame]) -> bool
    ensures { result ≡ has_room (frames_view frames.now) }
{
    frames.len() < MAX_DEPTH
}

/// The innermost frame ends before a symbol at this column.
fn ends_first(frames: &[Frame], column: usize, dashed: bool) -> bool
    ensures { result ≡ ends_first column dashed (frames_view frames.now) }
{
    match frames.last() {
        Some(frame) => frame.ends_before(column, dashed),
        None => false,
    }
}

/// The innermost frame may have a block at this column inside. Dashed: of dashes.
fn may_begin(frames: &[Frame], column: usize, dashed: bool) -> bool
    ensures { result ≡ may_begin column dashed (frames_view frames.now) }
{
    match frames.last() {
        None => column == 0,
        Some(Frame::Dashes(own, _)) => *own < column,
        Some(Frame::Keys(own, _, _)) => *own < column || (column == *own && dashed),
        Some(_) => false,
    }
}

/// The innermost frame has dashes at this column.
fn dashes_at(frames: &[Frame], column: usize) -> bool
    ensures { result ≡ dashes_at column (frames_view frames.now) }
{
    match frames.last() {
        Some(Frame::Dashes(own, _)) => column == *own,
        _ => false,
    }
}

/// The innermost frame has keys at this column.
fn keys_at(frames: &[Frame], column: usize) -> bool
    ensures { result ≡ keys_at column (frames_view frames.now) }
{
    match frames.last() {
        Some(Frame::Keys(own, _, _)) => column == *own,
        _ => false,
    }
}

/// A new frame inside, where a node is to come.
fn begun(frames: Vec<Frame>, slot: Option<Node>, may: bool, frame: Frame) -> Result<Reader, Stop>
    ensures { Gives reader_view result
        (begun (frame_view frame) may (frames_view frames.items) (option_map tree slot)) }
{
    if slot.is_some() {
        return Err(Stop::Bad);
    }
    if !may || !has_room(&frames) {
        return Err(Stop::Bad);
    }
    Ok(Reader {
        frames: with_frame(frames, frame)?,
        slot: None,
    })
}

fn next_dash(frames: Vec<Frame>, slot: Option<Node>) -> Result<Reader, Stop>
    ensures { Gives reader_view result
        (next_dash (frames_view frames.items) (option_map tree slot)) }
{
    let Some((frame, outside)) = without_frame(frames) else {
        return Err(Stop::Bad);
    };
    match frame {
        Frame::Dashes(column, done) => {
            let done = with_node(done, node_or_null(slot))?;
            Ok(Reader {
                frames: with_frame(outside, Frame::Dashes(column, done))?,
                slot: None,
            })
        }
        _ => Err(Stop::Bad),
    }
}

fn next_key(frames: Vec<Frame>, slot: Option<Node>, key: Bytes) -> Result<Reader, Stop>
    ensures { Gives reader_view result
        (next_key key (frames_view frames.items) (option_map tree slot)) }
{
    let Some((frame, outside)) = without_frame(frames) else {
        return Err(Stop::Bad);
    };
    match frame {
        Frame::Keys(column, done, last) => {
            let done = done.with(last, node_or_null(slot))?;
            if done.has(&key) {
                return Err(Stop::Bad);
            }
            Ok(Reader {
                frames: with_frame(outside, Frame::Keys(column, done, NodeText::new(key)))?,
                slot: None,
            })
        }
        _ => Err(Stop::Bad),
    }
}

/// A value that begins outside of brackets, where it may.
fn lone(
    alloc: Global,
    frames: Vec<Frame>,
    slot: Option<Node>,
    may: bool,
    piece: Piece,
) -> Result<Reader, Stop>
    ensures { Gives reader_view result
        (lone_step may piece (frames_view frames.items) (option_map tree slot)) }
{
    if slot.is_some() {
        return Err(Stop::Bad);
    }
    if !may {
        return Err(Stop::Bad);
    }
    match piece {
        Piece::One(one) => Ok(Reader {
            frames,
            slot: Some(one.into_node()),
        }),
        Piece::Open(kind) => {
            if !has_room(&frames) {
                return Err(Stop::Bad);
            }
            Ok(Reader {
                frames: with_frame(frames, opened(alloc, kind))?,
                slot: None,
            })
        }
        _ => Err(Stop::Bad),
    }
}

/// What a step does to the frames outside.
fn stepped(frames: Vec<Frame>, step: Step) -> Result<Reader, Stop>
    ensures { Gives reader_view result
        (stepped (frames_view frames.items) (Some (step_view step))) }
{
    match step {
        Step::Stay(frame, slot) => Ok(Reader {
            frames: with_frame(frames, frame)?,
            slot,
        }),
        Step::Filled(node) => Ok(Reader {
            frames,
            slot: Some(node),
        }),
        Step::Under(frame, inner) => {
            let frames = with_frame(frames, frame)?;
            if !has_room(&frames) {
                return Err(Stop::Bad);
            }
            Ok(Reader {
                frames: with_frame(frames, inner)?,
                slot: None,
            })
        }
    }
}

fn more(alloc: Global, frames: Vec<Frame>, slot: Option<Node>, piece: Piece) -> Result<Reader, Stop>
    ensures { Gives reader_view result
        (more_step (frames_view frames.items) (option_map tree slot) piece) }
{
    match without_frame(frames) {
        Some((frame, outside)) => stepped(outside, frame.piece(alloc, slot, piece)?),
        None => Err(Stop::Bad),
    }
}

/// The reader where each frame is complete that ends before a symbol at this column.
fn closed(
    frames: Vec<Frame>,
    slot: Option<Node>,
    column: usize,
    dashed: bool,
) -> Result<Reader, Stop>
    ensures { GivesAll reader_view result
        (closed column dashed (frames_view frames.items) (option_map tree slot)) }
{
    let mut frames = frames;
    let mut slot = slot;
    'closing: while ends_first(&frames, column, dashed) {
        let Some((frame, outside)) = without_frame(frames) else {
            unreachable!()
        };
        slot = Some(frame.into_node(slot)?);
        frames = outside;
    }
    Ok(Reader { frames, slot })
}

impl Reader {
    ghost use Rattle.std.specs.Prelude.{◌≡◌, ◌+◌, ◌<◌, ◌^◌, length};
    ghost use Rattle.std.specs.Option.{option_map};
    ghost use Rattle.zr_names.specs.Tree.{tree};
    ghost use Rattle.zr_yaml.specs.Scan.{Gives};
    ghost use Rattle.zr_yaml.specs.Reading.{dash_step, ended, key_step, line_step, start, symbol_step, symbols_step};
    ghost use Rattle.zr_yaml.specs.Views.{reader_view};

    pub(crate) fn new(alloc: Global) -> Reader
        ensures { reader_view result ≡ start }
    {
        Reader {
            frames: Vec::new(alloc),
            slot: None,
        }
    }

    fn dash(self, alloc: Global, column: usize) -> Result<Reader, Stop>
        ensures { Gives reader_view result
            (dash_step column (reader_view self).frames (reader_view self).slot) }
    {
        let Reader { frames, slot } = self;
        if dashes_at(&frames, column) {
            return next_dash(frames, slot);
        }
        let may = may_begin(&frames, column, true);
        begun(frames, slot, may, Frame::Dashes(column, Vec::new(alloc)))
    }

    fn key(self, alloc: Global, column: usize, key: Bytes) -> Result<Reader, Stop>
        ensures { Gives reader_view result
            (key_step column key (reader_view self).frames (reader_view self).slot) }
    {
        let Reader { frames, slot } = self;
        if keys_at(&frames, column) {
            return next_key(frames, slot, key);
        }
        let may = may_begin(&frames, column, false);
        begun(
            frames,
            slot,
            may,
            Frame::Keys(column, Keyed::new(alloc), NodeText::new(key)),
        )
    }

    /// The reader after a symbol.
    fn symbol(self, alloc: Global, symbol: Symbol) -> Result<Reader, Stop>
        ensures { Gives reader_view result (symbol_step (reader_view self) symbol) }
    {
        let Reader { frames, slot } = self;
        match symbol {
            Symbol::Dash(column) => closed(frames, slot, column, true)?.dash(alloc, column),
            Symbol::Key(column, key) => closed(frames, slot, column, false)?.key(
                alloc, column, key,
            ),
            Symbol::Value(column, piece) => {
                let may = may_begin(&frames, column, false);
                lone(alloc, frames, slot, may, piece)
            }
            Symbol::More(piece) => more(alloc, frames, slot, piece),
        }
    }

    /// The reader after symbols.
    pub(crate) fn symbols(self, alloc: Global, symbols: Vec<Symbol>) -> Result<Reader, Stop>
        ensures { Gives reader_view result (symbols_step (reader_view self) symbols.items) }
    {
        let mut reader = self;
        let mut symbols = symbols;
        symbols.reverse();
        while let Some(symbol) = symbols.pop() {
            reader = reader.symbol(alloc, symbol)?;
        }
        Ok(reader)
    }

    /// The reader after a line, before which so many brackets are open, and how many are behind it.
    pub(crate) fn line(
        self,
        alloc: Global,
        unclosed: usize,
        line: &[u8],
    ) -> Result<(Reader, usize), Stop>
        requires { unclosed + length line.now < 2 ^ 64 }
        ensures { Gives (λ x. (reader_view x.0, x.1)) result
            (line_step (reader_view self) unclosed line.now) }
    {
        if !is_text(line) {
            return Err(Stop::Bad);
        }
        let (symbols, unclosed) = line_symbols(alloc, unclosed, line)?;
        Ok((self.symbols(alloc, symbols)?, unclosed))
    }

    /// The node of all that was read, where no bracket is open.
    pub(crate) fn end(self) -> Result<Node, Stop>
        ensures { Gives tree result (ended (reader_view self).frames (reader_view self).slot) }
    {
        let Reader { frames, slot } = self;
        let mut frames = frames;
        let mut slot = slot;
        'ending: loop {
            let Some((frame, outside)) = without_frame(frames) else {
                return Ok(node_or_null(slot));
            };
            if frame.is_bracket() {
                return Err(Stop::Bad);
            }
            slot = Some(frame.into_node(slot)?);
            frames = outside;
        }
    }
}

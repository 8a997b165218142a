//! Maps and sequences that are not complete. Apart from the reader, which has a stack of them.

ghost use Rattle.std.specs.Prelude.{◌≡◌, ◌++◌, ◌∷◌, [], map};
ghost use Rattle.std.specs.Option.{option_map};
ghost use Rattle.zr_names.specs.Tree.{pair_tree, tree};
ghost use Rattle.zr_yaml.specs.Scan.{Gives, GivesAll};
ghost use Rattle.zr_yaml.specs.Reading.{after_item, after_pair, items_step, named_step, opened, pairs_step, tree_or_null, value_step, valued_step};
ghost use Rattle.zr_yaml.specs.Views.{frame_view, step_view};

use crate::fault::Stop;
use crate::keyed::Keyed;
use crate::symbols::{Bracket, Piece};
use std::alloc::Global;
use zr_names::node::{Node, NodeText};

/// A map or a sequence that is not complete, with the parts that are.
#[derive(Drop)]
pub(crate) enum Frame {
    /// Dashes at a column. The last one's node is to come.
    Dashes(usize, Vec<Node>),
    /// Keys at a column. The node of this last one is to come.
    Keys(usize, Keyed, NodeText),
    /// `[`
    Items(Vec<Node>),
    /// `{`, where a key is to come.
    Pairs(Keyed),
    /// `{`, where a colon is to come behind this key.
    Named(Keyed, NodeText),
    /// `{`, where the value of this key is to come.
    Valued(Keyed, NodeText),
}

/// What a piece does to the innermost frame.
#[derive(Drop)]
pub(crate) enum Step {
    Stay(Frame, Option<Node>),
    /// The frame, and a new one inside of it.
    Under(Frame, Frame),
    /// The frame is complete.
    Filled(Node),
}

pub(crate) fn opened(alloc: Global, kind: Bracket) -> Frame
    ensures { frame_view result ≡ opened kind }
{
    match kind {
        Bracket::Curly => Frame::Pairs(Keyed::new(alloc)),
        Bracket::Square => Frame::Items(Vec::new(alloc)),
    }
}

pub(crate) fn node_or_null(slot: Option<Node>) -> Node
    ensures { tree result ≡ tree_or_null (option_map tree slot) }
{
    match slot {
        Some(node) => node,
        None => Node::Null,
    }
}

/// The nodes and one more.
pub(crate) fn with_node(nodes: Vec<Node>, node: Node) -> Result<Vec<Node>, Stop>
    ensures { GivesAll (λ v. map tree v.items) result (map tree nodes.items ++ tree node ∷ []) }
{
    let mut nodes = nodes;
    nodes.push(node)?;
    Ok(nodes)
}

/// A value is to come.
fn value_step(alloc: Global, frame: Frame, piece: Piece) -> Result<Step, Stop>
    ensures { Gives step_view result (value_step (frame_view frame) piece) }
{
    match piece {
        Piece::One(one) => Ok(Step::Stay(frame, Some(one.into_node()))),
        Piece::Open(kind) => Ok(Step::Under(frame, opened(alloc, kind))),
        Piece::Close(_) => Err(Stop::Bad),
        Piece::Comma => Err(Stop::Bad),
        Piece::Colon => Err(Stop::Bad),
    }
}

fn after_item(done: Vec<Node>, piece: Piece) -> Result<Step, Stop>
    ensures { Gives step_view result (after_item (map tree done.items) piece) }
{
    match piece {
        Piece::Comma => Ok(Step::Stay(Frame::Items(done), None)),
        Piece::Close(Bracket::Square) => Ok(Step::Filled(Node::sequence(done))),
        _ => Err(Stop::Bad),
    }
}

fn items_step(
    alloc: Global,
    done: Vec<Node>,
    slot: Option<Node>,
    piece: Piece,
) -> Result<Step, Stop>
    ensures { Gives step_view result
        (items_step (map tree done.items) (option_map tree slot) piece) }
{
    match slot {
        Some(node) => after_item(with_node(done, node)?, piece),
        None => match piece {
            Piece::Close(Bracket::Square) => Ok(Step::Filled(Node::sequence(done))),
            _ => value_step(alloc, Frame::Items(done), piece),
        },
    }
}

fn pairs_step(done: Keyed, piece: Piece) -> Result<Step, Stop>
    ensures { Gives step_view result (pairs_step (map pair_tree done.pairs.items) piece) }
{
    match piece {
        Piece::One(one) => {
            if done.has(&one.bytes) {
                return Err(Stop::Bad);
            }
            Ok(Step::Stay(Frame::Named(done, NodeText::new(one.bytes)), None))
        }
        Piece::Close(Bracket::Curly) => Ok(Step::Filled(done.into_node())),
        _ => Err(Stop::Bad),
    }
}

fn named_step(done: Keyed, key: NodeText, piece: Piece) -> Result<Step, Stop>
    ensures { Gives step_view result (named_step (map pair_tree done.pairs.items) key piece) }
{
    match piece {
        Piece::Colon => Ok(Step::Stay(Frame::Valued(done, key), None)),
        _ => Err(Stop::Bad),
    }
}

fn after_pair(done: Keyed, piece: Piece) -> Result<Step, Stop>
    ensures { Gives step_view result (after_pair (map pair_tree done.pairs.items) piece) }
{
    match piece {
        Piece::Comma => Ok(Step::Stay(Frame::Pairs(done), None)),
        Piece::Close(Bracket::Curly) => Ok(Step::Filled(done.into_node())),
        _ => Err(Stop::Bad),
    }
}

fn valued_step(
    alloc: Global,
    done: Keyed,
    key: NodeText,
    slot: Option<Node>,
    piece: Piece,
) -> Result<Step, Stop>
    ensures { Gives step_view result
        (valued_step (map pair_tree done.pairs.items) key (option_map tree slot) piece) }
{
    match slot {
        Some(node) => after_pair(done.with(key, node)?, piece),
        None => value_step(alloc, Frame::Valued(done, key), piece),
    }
}

impl Frame {
    ghost use Rattle.std.specs.Prelude.{◌≡◌};
    ghost use Rattle.std.specs.Option.{option_map};
    ghost use Rattle.zr_names.specs.Tree.{tree};
    ghost use Rattle.zr_yaml.specs.Scan.{Gives, GivesAll};
    ghost use Rattle.zr_yaml.specs.Reading.{ends_before, frame_tree, is_bracket, piece_step};
    ghost use Rattle.zr_yaml.specs.Views.{frame_view, step_view};

    /// What a piece does to it.
    pub(crate) fn piece(self, alloc: Global, slot: Option<Node>, piece: Piece) -> Result<Step, Stop>
        ensures { Gives step_view result
            (piece_step (frame_view self) (option_map tree slot) piece) }
    {
        match self {
            Frame::Items(done) => items_step(alloc, done, slot, piece),
            Frame::Pairs(done) => pairs_step(done, piece),
            Frame::Named(done, key) => named_step(done, key, piece),
            Frame::Valued(done, key) => valued_step(alloc, done, key, slot, piece),
            Frame::Dashes(_, _) => Err(Stop::Bad),
            Frame::Keys(_, _, _) => Err(Stop::Bad),
        }
    }

    /// It ends before a symbol at this column. A dash does not end dashes at its own column.
    pub(crate) fn ends_before(&self, column: usize, dashed: bool) -> bool
        ensures { result ≡ ends_before column dashed (frame_view self.now) }
    {
        match self {
            Frame::Dashes(own, _) => column < *own || (column == *own && !dashed),
            Frame::Keys(own, _, _) => column < *own,
            _ => false,
        }
    }

    pub(crate) fn is_bracket(&self) -> bool
        ensures { result ≡ is_bracket (frame_view self.now) }
    {
        match self {
            Frame::Dashes(_, _) => false,
            Frame::Keys(_, _, _) => false,
            _ => true,
        }
    }

    /// Its node with its last part.
    pub(crate) fn into_node(self, slot: Option<Node>) -> Result<Node, Stop>
        ensures { GivesAll tree result (frame_tree (frame_view self) (option_map tree slot)) }
    {
        match self {
            Frame::Dashes(_, done) => Ok(Node::sequence(with_node(done, node_or_null(slot))?)),
            Frame::Keys(_, done, key) => Ok(done.with(key, node_or_null(slot))?.into_node()),
            _ => Ok(Node::Null),
        }
    }
}

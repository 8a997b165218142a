//! What a job file says, in whichever format it is written: a tree of maps, sequences and scalars.
//! Apart from the formats, so that their readers and the walk over the tree stand side by side.

use std::marker::Model;
use zr_base::Bytes;

/// A text in a tree. Contracts see it as its bytes.
#[derive(Drop)]
pub struct NodeText {
    text: Bytes,
}

impl Model for NodeText {
    ghost use Rattle.std.specs.Prelude.{List, ℕ};

    ghost Value = { List ℕ };

    ghost view = { λ n. n.text };

    ghost inverse = { λ bytes. record { text = bytes } };
}

impl NodeText {
    ghost use Rattle.std.specs.Prelude.{◌≡◌};

    pub fn new(text: Bytes) -> NodeText
        ensures { result ≡ text }
    {
        NodeText { text }
    }

    pub fn as_bytes(&self) -> &[u8]
        ensures { result.now ≡ self.now }
    {
        self.text.as_slice()
    }
}

/// A node and all below it. Contracts speak of it by its tree.
#[cycle(node)]
#[derive(Drop)]
pub enum Node {
    Null,
    Flag(bool),
    Number(u64),
    Text(NodeText),
    Map(Vec<NodePair>),
    Seq(Vec<Node>),
    /// A value that no field of a job file takes.
    Other,
}

/// A key of a map and its node.
#[cycle(node)]
#[derive(Drop)]
pub struct NodePair {
    pub key: NodeText,
    pub node: Node,
}

impl Node {
    ghost use Rattle.std.specs.Prelude.{◌≡◌};
    ghost use Rattle.zr_names.specs.Tree.{items_tree, mapping, members_tree, sequence, text, tree};

    /// The text of these bytes.
    pub fn text(bytes: Bytes) -> Node
        ensures { tree result ≡ text bytes }
    {
        Node::Text(NodeText::new(bytes))
    }

    /// The map of these pairs, in their order.
    pub fn map(pairs: Vec<NodePair>) -> Node
        ensures { tree result ≡ mapping (members_tree pairs.items) }
    {
        Node::Map(pairs)
    }

    /// The sequence of these nodes.
    pub fn sequence(nodes: Vec<Node>) -> Node
        ensures { tree result ≡ sequence (items_tree nodes.items) }
    {
        Node::Seq(nodes)
    }
}

impl NodePair {
    ghost use Rattle.std.specs.Prelude.{◌≡◌};
    ghost use Rattle.zr_names.specs.Tree.{pair_tree, tree};

    pub fn new(key: NodeText, node: Node) -> NodePair
        ensures { pair_tree result ≡ (key, tree node) }
    {
        NodePair { key, node }
    }
}

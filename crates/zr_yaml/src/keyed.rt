//! The pairs of a map that is not complete, with the set of their keys: a key that was there is found in a map of any size.

ghost use Rattle.std.specs.Prelude.{◌≡◌, ◌++◌, ◌∷◌, [], map};
ghost use Rattle.zr_names.specs.Tree.{mapping, members_of, pair_tree, tree};
ghost use Rattle.zr_yaml.specs.Document.{has_pair};
ghost use Rattle.zr_yaml.specs.Keyed.{HasKeys};
ghost use Rattle.zr_yaml.specs.Scan.{GivesAll};

use crate::fault::Stop;
use std::alloc::Global;
use std::collections::BTreeSet;
use zr_names::Bytes;
use zr_names::node::{Node, NodePair, NodeText};

/// Pairs in their order.
#[derive(Drop)]
pub(crate) struct Keyed {
    pairs: Vec<NodePair>,
    keys: BTreeSet<Bytes>,
    ghost same: { HasKeys pairs.items keys },
}

impl Keyed {
    pub(crate) fn new(alloc: Global) -> Keyed
        ensures { result.pairs.items ≡ [] }
    {
        Keyed {
            pairs: Vec::new(alloc),
            keys: BTreeSet::new(alloc),
        }
    }

    /// One of the pairs has this key.
    pub(crate) fn has(&self, key: &Bytes) -> bool
        ensures { result ≡ has_pair key.now (map pair_tree self.now.pairs.items) }
    {
        self.keys.contains(key)
    }

    /// The pairs and one more.
    pub(crate) fn with(self, key: NodeText, node: Node) -> Result<Keyed, Stop>
        ensures { GivesAll (λ p. map pair_tree p.pairs.items) result
            (map pair_tree self.pairs.items ++ (key, tree node) ∷ []) }
    {
        let Keyed {
            mut pairs,
            mut keys,
        } = self;
        let copy = Bytes::from_slice(*pairs.allocator(), key.as_bytes())?;
        keys.insert(copy)?;
        pairs.push(NodePair::new(key, node))?;
        Ok(Keyed { pairs, keys })
    }

    /// The map of the pairs.
    pub(crate) fn into_node(self) -> Node
        ensures { tree result ≡ mapping (members_of (map pair_tree self.pairs.items)) }
    {
        let Keyed { pairs, keys: _ } = self;
        Node::map(pairs)
    }
}

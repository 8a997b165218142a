//! A table of a job file: what it gives for a field, and which of its keys are none of its fields.

ghost use Rattle.std.specs.Prelude.{◌≡◌, false, true, Some};
ghost use Rattle.std.specs.Option.{option_map};
ghost use Rattle.zr_names.specs.Tree.{pair_tree, tree};
ghost use Rattle.zr_jobwalk.specs.Fields.{given, is_listed, is_null, least, lesser, lesser_of, strangers};
ghost use Rattle.zr_jobwalk.specs.Tables.{section};

use crate::fault::JobFault;
use crate::field::Field;
use crate::name::DottedName;
use std::alloc::{AllocError, Global};
use zr_names::{Node, NodePair};

/// A table, with what the dotted names of its fields begin with.
#[derive(Drop)]
pub struct Table<'a> {
    pub(crate) alloc: Global,
    pub(crate) front: DottedName,
    pub(crate) pairs: &'a [NodePair],
}

pub(crate) fn key_of(pair: &NodePair) -> &[u8]
    ensures { result.now ≡ (pair_tree pair.now).0 }
{
    pair.key.as_bytes()
}

pub(crate) fn node_of(pair: &NodePair) -> &Node
    ensures { tree result.now ≡ (pair_tree pair.now).1 }
{
    &pair.node
}

#[tactic(auto, using(crate::proofs::Trees::of_null, crate::proofs::Trees::of_flag, crate::proofs::Trees::of_number, crate::proofs::Trees::of_text, crate::proofs::Trees::of_map, crate::proofs::Trees::of_sequence, crate::proofs::Trees::of_other))]
pub(crate) fn is_null(node: &Node) -> bool
    ensures { result ≡ is_null (tree node.now) }
{
    match node {
        Node::Null => true,
        Node::Flag(_) | Node::Number(_) | Node::Text(_) => false,
        Node::Map(_) | Node::Seq(_) | Node::Other => false,
    }
}

fn is_listed(fields: &[Field], key: &[u8]) -> bool
    ensures { result ≡ is_listed fields.now key.now }
{
    fields.iter().any(|field| key == field.name().as_bytes())
}

impl<'a> Table<'a> {
    ghost use Rattle.std.specs.Prelude.{◌≡◌, ◌≢◌, ◌++◌, [], IfOk, IfErr, OnOk};
    ghost use Rattle.std.specs.Option.{option_map};
    ghost use Rattle.zr_names.specs.Tree.{tree};
    ghost use Rattle.zr_jobwalk.specs.Fields.{given, least, shown, strangers};
    ghost use Rattle.zr_jobwalk.specs.Faults.{HasStranger, dotted};
    ghost use Rattle.zr_jobwalk.specs.Tables.{section};

    /// Where the names of the table's fields, and what is read from it, are allocated.
    pub fn alloc(&self) -> Global {
        self.alloc
    }

    /// What the table gives for a key.
    pub(crate) fn given(&self, key: &[u8]) -> Option<&'a Node>
        ensures { option_map (λ node. tree node.now) result
            ≡ given key.now (section self.now).members }
    {
        for pair in self.pairs {
            if key_of(pair) == key && !is_null(node_of(pair)) {
                return Some(node_of(pair));
            }
        }
        None
    }

    /// The least key in byte order that is there and none of these fields.
    fn stranger(&self, fields: &[Field]) -> Option<&'a [u8]>
        ensures { option_map (λ key. key.now) result
            ≡ least (strangers fields.now (section self.now).members) }
    {
        let mut least = None;
        for pair in self.pairs {
            if !is_null(node_of(pair)) && !is_listed(fields, key_of(pair)) {
                least = lesser(least, key_of(pair));
            }
        }
        least
    }

    /// The dotted name of a field.
    pub fn dotted(&self, field: Field) -> Result<DottedName, AllocError>
        ensures { IfOk result (λ name. name ≡ dotted (section self.now) field) }
    {
        self.front.with(self.alloc, field.name())
    }

    /// That this field is missing.
    pub fn missing(&self, field: Field) -> JobFault
        ensures { result ≢ JobFault.NoMemory
            → result ≡ JobFault.Missing (dotted (section self.now) field) }
    {
        match self.dotted(field) {
            Ok(name) => JobFault::Missing(name),
            Err(_) => JobFault::NoMemory,
        }
    }

    /// That the value of this field is of the wrong type or outside its rule.
    pub fn bad_value(&self, field: Field) -> JobFault
        ensures { result ≢ JobFault.NoMemory
            → result ≡ JobFault.BadValue (dotted (section self.now) field) }
    {
        match self.dotted(field) {
            Ok(name) => JobFault::BadValue(name),
            Err(_) => JobFault::NoMemory,
        }
    }

    /// That the value of a key that may have any bytes, or the key itself, is outside its rule.
    pub fn bad_key(&self, key: &[u8]) -> JobFault
        ensures { result ≢ JobFault.NoMemory
            → result ≡ JobFault.BadValue ((section self.now).front ++ shown key.now) }
    {
        match self.front.with_key(self.alloc, key) {
            Ok(name) => JobFault::BadValue(name),
            Err(_) => JobFault::NoMemory,
        }
    }

    fn unknown(&self, key: &[u8]) -> JobFault
        ensures { result ≢ JobFault.NoMemory
            → result ≡ JobFault.UnknownField ((section self.now).front ++ shown key.now) }
    {
        match self.front.with_key(self.alloc, key) {
            Ok(name) => JobFault::UnknownField(name),
            Err(_) => JobFault::NoMemory,
        }
    }

    /// Refuses a table that has other fields than these.
    pub fn has_only(&self, fields: &[Field]) -> Result<(), JobFault>
        ensures known { OnOk result (strangers fields.now (section self.now).members ≡ []) }
        ensures fault { IfErr result
            (λ fault. fault ≢ JobFault.NoMemory → HasStranger fields.now (section self.now) fault) }
    {
        match self.stranger(fields) {
            None => Ok(()),
            Some(key) => Err(self.unknown(key)),
        }
    }
}

/// The lesser of two keys in byte order.
fn lesser_of<'a>(one: &'a [u8], key: &'a [u8]) -> &'a [u8]
    ensures { result.now ≡ lesser_of one.now key.now }
{
    if key.cmp(one).is_lt() { key } else { one }
}

/// The lesser of a key and one that there may be.
fn lesser<'a>(one: Option<&'a [u8]>, key: &'a [u8]) -> Option<&'a [u8]>
    ensures { option_map (λ least. least.now) result
        ≡ lesser (option_map (λ one. one.now) one.entry) key.now }
{
    match one {
        Some(one) => Some(lesser_of(one, key)),
        None => Some(key),
    }
}

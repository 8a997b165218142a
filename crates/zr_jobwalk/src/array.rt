//! An array of a job file. Apart from `table`: its parts have an index where fields have a key.

ghost use Rattle.std.specs.Option.{option_map};
ghost use Rattle.std.specs.Prelude.{◌≡◌};
ghost use Rattle.zr_names.specs.Tree.{items_tree, tree};
ghost use Rattle.zr_jobwalk.specs.Values.{array_in};

use crate::fault::JobFault;
use crate::field::Field;
use crate::name::DottedName;
use crate::scalars::table_in;
use crate::table::Table;
use std::alloc::{AllocError, Global};
use zr_names::{Node, NodePair};

/// An array with its dotted name.
#[derive(Drop)]
pub struct Array<'a> {
    alloc: Global,
    name: DottedName,
    nodes: &'a [Node],
}

#[tactic(auto, using(crate::proofs::Trees::of_null, crate::proofs::Trees::of_flag, crate::proofs::Trees::of_number, crate::proofs::Trees::of_text, crate::proofs::Trees::of_map, crate::proofs::Trees::of_sequence, crate::proofs::Trees::of_other))]
fn array_in(node: &Node) -> Option<&[Node]>
    ensures { option_map (λ nodes. items_tree nodes.now) result ≡ array_in (tree node.now) }
{
    match node {
        Node::Seq(nodes) => Some(nodes.as_slice()),
        Node::Null | Node::Flag(_) | Node::Number(_) => None,
        Node::Text(_) | Node::Map(_) | Node::Other => None,
    }
}

impl<'a> Table<'a> {
    ghost use Rattle.std.specs.Prelude.{◌≡◌, ◌≢◌, ◌++◌, [], Some, IfOk, IfErr};
    ghost use Rattle.zr_jobwalk.specs.Arrays.{HasArray, NoArray, series};
    ghost use Rattle.zr_jobwalk.specs.Faults.{HasFault, dotted, field_of};
    ghost use Rattle.zr_jobwalk.specs.Tables.{section};

    /// The array of a field that has to be there.
    pub fn array(&self, field: Field) -> Result<Array<'a>, JobFault>
        ensures items { IfOk result
            (λ array. HasArray (field_of (section self.now) field) (series array).items) }
        ensures name { IfOk result
            (λ array. (series array).name ≡ dotted (section self.now) field) }
        ensures fault { IfErr result
            (λ fault. fault ≢ JobFault.NoMemory → HasFault NoArray (section self.now) field fault) }
    {
        let Some(node) = self.given(field.name().as_bytes()) else {
            return Err(self.missing(field));
        };
        match array_in(node) {
            Some(nodes) => Ok(self.inner_array(field, nodes)?),
            None => Err(self.bad_value(field)),
        }
    }

    fn inner_array(&self, field: Field, nodes: &'a [Node]) -> Result<Array<'a>, AllocError>
        ensures items { IfOk result (λ array. array.nodes.now ≡ nodes.now) }
        ensures name { IfOk result (λ array. array.name ≡ dotted (section self.now) field) }
    {
        let name = self.dotted(field)?;
        Ok(Array {
            alloc: self.alloc,
            name,
            nodes,
        })
    }
}

impl<'a> Array<'a> {
    ghost use Rattle.std.specs.Prelude.{◌≡◌, ◌≢◌, ◌++◌, [], Some, IfOk, IfErr, codes};
    ghost use Rattle.zr_names.specs.Tree.{items_tree, tree};
    ghost use Rattle.zr_jobwalk.specs.Arrays.{part_name, series, size_of};
    ghost use Rattle.zr_jobwalk.specs.Faults.{NoTable};
    ghost use Rattle.zr_jobwalk.specs.Tables.{section};
    ghost use Rattle.zr_jobwalk.specs.Values.{table_in};

    /// Where what is read from it is allocated.
    pub fn alloc(&self) -> Global {
        self.alloc
    }

    /// Its parts in their order.
    pub fn nodes(&self) -> &'a [Node]
        ensures { items_tree result.now ≡ (series self.now).items }
    {
        self.nodes
    }

    /// How many parts it has.
    #[tactic(auto, using(crate::proofs::Sizes::size_is))]
    pub fn len(&self) -> usize
        ensures { result ≡ size_of (series self.now).items }
    {
        self.nodes.len()
    }

    fn bad_part(&self, index: usize) -> JobFault
        ensures { result ≢ JobFault.NoMemory
            → result ≡ JobFault.BadValue (part_name (series self.now).name index) }
    {
        match self.name.part(self.alloc, index) {
            Ok(name) => JobFault::BadValue(name),
            Err(_) => JobFault::NoMemory,
        }
    }

    fn inner(&self, index: usize, pairs: &'a [NodePair]) -> Result<Table<'a>, AllocError>
        ensures members { IfOk result (λ table. table.pairs.now ≡ pairs.now) }
        ensures front { IfOk result
            (λ table. table.front ≡ part_name (series self.now).name index ++ codes ".") }
    {
        let name = self.name.part(self.alloc, index)?;
        let front = name.with(self.alloc, ".")?;
        Ok(Table {
            alloc: self.alloc,
            front,
            pairs,
        })
    }

    /// A part that has to be a table, with its index.
    pub fn table(&self, index: usize, node: &'a Node) -> Result<Table<'a>, JobFault>
        ensures members { IfOk result
            (λ table. table_in (tree node.now) ≡ Some (section table).members) }
        ensures front { IfOk result
            (λ table. (section table).front ≡ part_name (series self.now).name index ++ codes ".") }
        ensures fault { IfErr result (λ fault. fault ≢ JobFault.NoMemory
            → NoTable (part_name (series self.now).name index) (tree node.now) fault) }
    {
        match table_in(node) {
            Some(pairs) => Ok(self.inner(index, pairs)?),
            None => Err(self.bad_part(index)),
        }
    }
}

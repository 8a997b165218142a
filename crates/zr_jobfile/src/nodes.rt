//! The tree of a TOML document, as the walk over a job file reads it. Apart from the walk, which knows no format.

ghost use Rattle.std.specs.Prelude.{◌≡◌, IfOk};
ghost use Rattle.toml.specs.View.{array_view, table_view, view};
ghost use Rattle.zr_jobfile.specs.Nodes.{data_tree, items_of_data, members_of_data, number_tree};
ghost use Rattle.zr_names.specs.Tree.{items_tree, mapping, members_tree, tree};

use std::alloc::{AllocError, Global};
use toml::value::Array;
use toml::{Table, Value};
use zr_names::{Bytes, NoMemory, Node, NodePair, NodeText};

/// The tree of a document: tables become maps with their keys in byte order, arrays sequences, integers of at least 0
/// numbers, booleans flags, and strings texts. Every other value is `Node::Other`.
pub fn node_of(alloc: Global, document: &Table) -> Result<Node, NoMemory>
    ensures { IfOk result
        (λ node. tree node ≡ mapping (members_of_data (table_view document.now))) }
{
    Ok(Node::map(pairs(alloc, document)?))
}

fn number(n: i64) -> Node
    ensures { tree result ≡ number_tree n }
{
    match u64::try_from(n) {
        Ok(n) => Node::Number(n),
        Err(_) => Node::Other,
    }
}

fn text(alloc: Global, text: &str) -> Result<NodeText, AllocError>
    ensures { IfOk result (λ copy. copy ≡ text.now) }
{
    Ok(NodeText::new(Bytes::from_slice(alloc, text.as_bytes())?))
}

#[cycle(node)]
fn node(alloc: Global, value: &Value) -> Result<Node, AllocError>
    ensures { IfOk result (λ node. tree node ≡ data_tree (view value.now)) }
{
    match value {
        Value::String(string) => Ok(Node::Text(text(alloc, string.as_str())?)),
        Value::Integer(n) => Ok(number(*n)),
        Value::Boolean(b) => Ok(Node::Flag(*b)),
        Value::Float(_) => Ok(Node::Other),
        Value::Datetime(_) => Ok(Node::Other),
        Value::Array(values) => Ok(Node::sequence(items(alloc, values)?)),
        Value::Table(table) => Ok(Node::map(pairs(alloc, table)?)),
    }
}

#[cycle(node)]
fn items(alloc: Global, values: &Array) -> Result<Vec<Node>, AllocError>
    ensures { IfOk result (λ nodes. items_tree nodes.items
        ≡ items_of_data (array_view values.now)) }
{
    let mut nodes = Vec::with_capacity(alloc, values.len())?;
    for value in values {
        nodes.push(node(alloc, value)?)?;
    }
    Ok(nodes)
}

#[cycle(node)]
fn pairs(alloc: Global, table: &Table) -> Result<Vec<NodePair>, AllocError>
    ensures { IfOk result
        (λ pairs. members_tree pairs.items ≡ members_of_data (table_view table.now)) }
{
    let mut pairs = Vec::with_capacity(alloc, table.len())?;
    for (key, value) in table.iter() {
        let key = text(alloc, key.as_str())?;
        pairs.push(NodePair::new(key, node(alloc, value)?))?;
    }
    Ok(pairs)
}

//! The call that reads a text.

ghost use Rattle.std.specs.Prelude.{◌≡◌, IfErr, IfOk};
ghost use Rattle.zr_names.specs.Tree.{tree};
ghost use Rattle.zr_yaml.specs.Document.{Document, IsFaultOf, OnlyTree};
ghost use Rattle.zr_yaml.specs.Lines.{lines_of};
ghost use Rattle.zr_yaml.specs.Reading.{fault_at, GivesOutcome, outcome};

use crate::fault::{Stop, YamlFault};
use crate::lines::{content_of, first_line};
use crate::reader::Reader;
use std::alloc::Global;
use zr_names::node::Node;

/// The fault at a line, counted from 1.
fn fault_at(stop: Stop, line: u64) -> YamlFault
    ensures { result ≡ fault_at stop line }
{
    match stop {
        Stop::Bad => YamlFault::BadYaml(line),
        Stop::NoMemory => YamlFault::NoMemory,
    }
}

/// Reads the lines one after another.
fn read_lines(alloc: Global, bytes: &[u8]) -> Result<Node, YamlFault>
    ensures { GivesOutcome tree result (outcome (lines_of bytes.now)) }
{
    let mut reader = Reader::new(alloc);
    let mut unclosed = 0;
    let mut rest = bytes;
    let mut good: u64 = 0;
    'lines: while !rest.is_empty() {
        let (line, after) = first_line(rest);
        let content = content_of(line, good == 0);
        match reader.line(alloc, unclosed, content) {
            Ok((next, count)) => {
                reader = next;
                unclosed = count;
                good += 1;
                rest = after;
            }
            Err(stop) => return Err(fault_at(stop, good + 1)),
        }
    }
    match reader.end() {
        Ok(node) => Ok(node),
        Err(stop) => Err(fault_at(stop, good + 1)),
    }
}

/// The node that a text stands for, where it is a document of the profile.
pub fn read_yaml(alloc: Global, bytes: &[u8]) -> Result<Node, YamlFault>
    ensures document { IfOk result (λ node. Document (lines_of bytes.now) (tree node)) }
    // A text has at most one tree.
    ensures only { IfOk result (λ node. OnlyTree (lines_of bytes.now) (tree node)) }
    ensures line { IfErr result (IsFaultOf (lines_of bytes.now)) }
{
    read_lines(alloc, bytes)
}

//! The lines of a table whose keys may be any, as `filesystems` is. Apart from `table`, whose keys are those of fields.

ghost use Rattle.std.specs.Prelude.{◌≡◌, IfOk, OnOk, IsPermutation, map};
ghost use Rattle.std.specs.List.Sorted.{IsSortedBy};
ghost use Rattle.std.specs.Ordering.{is_lt};
ghost use Rattle.zr_names.specs.Tree.{members_tree, pair_tree};
ghost use Rattle.zr_jobwalk.specs.Lines.{line_cmp, pair_of, present};

use crate::scalars::flag_in;
use crate::table::{Table, is_null, key_of, node_of};
use std::alloc::{AllocError, Global};
use std::cmp::Ordering;
use zr_names::{Node, NodePair};

/// A key of a table and what stands there.
#[derive(Clone, Copy)]
pub struct Line<'a> {
    pub key: &'a [u8],
    pub node: &'a Node,
}

impl<'a> Line<'a> {
    ghost use Rattle.std.specs.Prelude.{◌≡◌};
    ghost use Rattle.zr_jobwalk.specs.Lines.{pair_of};
    ghost use Rattle.zr_jobwalk.specs.Values.{flag_in};

    /// The value, where it is true or false.
    pub fn flag(&self) -> Option<bool>
        ensures { result ≡ flag_in (pair_of self.now).1 }
    {
        flag_in(self.node)
    }
}

fn line_of(pair: &NodePair) -> Line<'_>
    ensures { pair_of result ≡ pair_tree pair.now }
{
    Line {
        key: key_of(pair),
        node: node_of(pair),
    }
}

/// The lines that are there, in the order of the file.
fn lines_in(alloc: Global, pairs: &[NodePair]) -> Result<Vec<Line<'_>>, AllocError>
    ensures { IfOk result (λ lines. map pair_of lines.items ≡ present (members_tree pairs.now)) }
{
    let mut lines = Vec::new(alloc);
    for pair in pairs {
        if !is_null(node_of(pair)) {
            lines.push(line_of(pair))?;
        }
    }
    Ok(lines)
}

fn compare(a: &Line<'_>, b: &Line<'_>) -> Ordering
    ensures { result ≡ line_cmp a.now b.now }
{
    a.key.cmp(b.key)
}

fn sort(lines: &mut Vec<Line<'_>>) -> Result<(), AllocError>
    ensures same { IsPermutation lines.old.items lines.new.items }
    ensures sorted { OnOk result (IsSortedBy (λ a b. is_lt (line_cmp a b)) lines.new.items) }
{
    lines.sort_by(|a, b| compare(a, b))?;
    Ok(())
}

impl<'a> Table<'a> {
    ghost use Rattle.std.specs.Prelude.{◌≡◌, IfOk, map};
    ghost use Rattle.zr_jobwalk.specs.Lines.{AreLines, pair_of};
    ghost use Rattle.zr_jobwalk.specs.Tables.{section};

    /// The lines of a table in the byte order of their keys, without those that have no value.
    pub fn lines(&self) -> Result<Vec<Line<'a>>, AllocError>
        ensures { IfOk result
            (λ lines. AreLines (section self.now).members (map pair_of lines.items)) }
    {
        let mut lines = lines_in(self.alloc, self.pairs)?;
        sort(&mut lines)?;
        Ok(lines)
    }
}

//! Graphs, kept as one list of children.

ghost use Rattle.std.specs.Prelude.{◌≡◌, ◌<◌, ◌≤◌, ◌++◌, ◌∷◌, [], OnOk, OnErr, length, slice_index_or};
ghost use Rattle.mm_endless.specs.Graphs.{children};
ghost use Rattle.mm_endless.specs.Rows.{rows_from, begin_of, Ascend};

use std::alloc::{AllocError, Global};
use std::marker::Model;

/// Where a row begins, given where each ends.
fn begin(ends: &[usize], number: usize) -> usize
    requires { number ≤ length ends.now }
    ensures { result ≡ begin_of ends.now number }
{
    if number == 0 { 0 } else { ends[number - 1] }
}

/// One of the rows of a list, given where each ends.
fn row<'a>(rows: &'a [u32], ends: &[usize], number: usize) -> &'a [u32]
    requires number { number < length ends.now }
    requires ends { Ascend 0 ends.now (length rows.now) }
    ensures { result.now ≡ slice_index_or (rows_from rows.now 0 ends.now) number [] }
{
    let (front, _) = rows.split_at(ends[number]);
    let (_, row) = front.split_at(begin(ends, number));
    row
}

/// A graph of numbered nodes. Contracts see the list of the children of each.
#[derive(Drop)]
pub struct Graph {
    children: Vec<u32>,
    /// Where the children of each node end. They begin where those of the node before it end.
    ends: Vec<usize>,
}

impl Model for Graph {
    ghost use Rattle.std.specs.Prelude.{ℕ, List, length};
    ghost use Rattle.mm_endless.specs.Rows.{rows_from, Ascend};

    ghost Value = { List (List ℕ) };

    ghost view = { λ g. rows_from g.children.items 0 g.ends.items };

    ghost invariant = { λ g. Ascend 0 g.ends.items (length g.children.items) };
}

impl Graph {
    /// A graph without nodes.
    pub fn new(alloc: Global) -> Graph
        ensures { result ≡ [] }
    {
        Graph {
            children: Vec::new(alloc),
            ends: Vec::new(alloc),
        }
    }

    /// Adds a node with these children.
    pub fn push(&mut self, children: &[u32]) -> Result<(), AllocError>
        ensures ok { OnOk result (self.new ≡ self.old ++ children.now ∷ []) }
        ensures err { OnErr result (self.new ≡ self.old) }
    {
        self.ends.push(self.children.len() + children.len())?;
        match self.children.extend_from_slice(children) {
            Ok(()) => Ok(()),
            Err(error) => {
                self.ends.pop();
                Err(error)
            }
        }
    }

    /// The count of the nodes.
    pub fn len(&self) -> usize
        ensures { result ≡ length self.now }
    {
        self.ends.len()
    }

    /// The children of a node.
    pub fn children(&self, node: usize) -> &[u32]
        requires { node < length self.now }
        ensures { result.now ≡ children self.now node }
    {
        row(&self.children, &self.ends, node)
    }
}

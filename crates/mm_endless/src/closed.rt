//! The closed sets of a graph.

ghost use Rattle.std.specs.Prelude.{◌≡◌, ℕ, ◌<◌, ◌^◌, IfOk, None, length, slice_index_or};
ghost use Rattle.mm_endless.specs.Graphs.{AreNodes, AreClosedSets, children};
ghost use Rattle.mm_endless.specs.Stages.{told_by, firsts_of};

use crate::graph::Graph;
use crate::walk::{Mark, Walk};
use std::alloc::{AllocError, Global};
use std::marker::Model;

/// What is told of a node with a mark and a number.
fn told(mark: Mark, number: u32) -> Option<u32>
    ensures { result ≡ told_by mark number }
{
    match mark {
        Mark::Closed => Some(number),
        Mark::Unmet | Mark::OnPath | Mark::Passed => None,
    }
}

/// What is told of one of the nodes with these marks and numbers.
fn first_at(marks: &[Mark], numbers: &[u32], node: usize) -> Option<u32>
    requires node { node < length marks.now }
    requires numbers { length marks.now ≡ length numbers.now }
    ensures { result ≡ slice_index_or (firsts_of marks.now numbers.now) node None }
{
    told(marks[node], numbers[node])
}

/// For each node of a graph the least node of its closed set, if it is in one.
#[derive(Drop)]
pub struct ClosedSets {
    marks: Vec<Mark>,
    numbers: Vec<u32>,
}

impl Model for ClosedSets {
    ghost use Rattle.std.specs.Prelude.{◌≡◌, ℕ, List, Option, length};
    ghost use Rattle.mm_endless.specs.Stages.{firsts_of};

    ghost Value = { List (Option ℕ) };

    ghost view = { λ s. firsts_of s.marks.items s.numbers.items };

    ghost invariant = { λ s. length s.marks.items ≡ length s.numbers.items };
}

impl ClosedSets {
    /// The least node of the closed set of a node, if the node is in one.
    pub fn first(&self, node: usize) -> Option<u32>
        requires { node < length self.now }
        ensures { result ≡ slice_index_or self.now node None }
    {
        first_at(&self.marks, &self.numbers, node)
    }
}

/// The closed sets of a graph: sets of nodes that no edge leaves, and each of whose nodes leads to each. The time is linear
/// in nodes and edges.
pub fn closed_sets(alloc: Global, graph: &Graph) -> Result<ClosedSets, AllocError>
    requires nodes { AreNodes graph.now }
    requires count { length graph.now < 2 ^ 32 }
    requires few { (a : ℕ) → length (children graph.now a) < 256 }
    ensures { IfOk result (AreClosedSets graph.now) }
{
    let mut walk = Walk::new(alloc, graph)?;
    for root in 0..graph.len() {
        walk.visit(root)?;
    }
    let Walk { marks, numbers, .. } = walk;
    Ok(ClosedSets { marks, numbers })
}

#[cfg(test)]
mod tests {
    use super::*;
    use std::test::Fail;

    #[test]
    fn sets_of_five_nodes(rt: HostRuntime) -> Result<(), Fail> {
        let mut graph = Graph::new(rt.alloc());
        graph.push(&[1, 3])?;
        graph.push(&[2])?;
        graph.push(&[1])?;
        graph.push(&[0, 4])?;
        graph.push(&[4])?;
        let sets = closed_sets(rt.alloc(), &graph)?;
        assert_eq!(rt; sets.first(0), None);
        assert_eq!(rt; sets.first(1), Some(1));
        assert_eq!(rt; sets.first(2), Some(1));
        assert_eq!(rt; sets.first(3), None);
        assert_eq!(rt; sets.first(4), Some(4));
        Ok(())
    }
}

//! The graph that marks flow over.
ghost use Rattle.std.specs.Prelude.{length};
ghost use Rattle.mm_flow.specs.Flow.{Fits};
ghost use Rattle.mm_flow.specs.Work.{IsAhead};

use crate::node::Node;

/// The nodes of a graph, and the nodes to which each leads.
#[derive(Clone, Copy)]
pub struct Graph<'a> {
    pub nodes: &'a [Node],
    pub targets: &'a [usize],
    /// For each node a later one; for speed it is the first after those that lie within the node.
    pub after: &'a [usize],
    ghost fits: { Fits (record { nodes = nodes.now; targets = targets.now }) (length nodes.now) },
    ghost ahead: { IsAhead after.now (length nodes.now) },
}

//! The graph of the pointers that parties may come to hold.

use mm_flow::Node;
use mm_graph::CanonicalPtr;

/// A node for each pointer that a party may come to hold, and edges by which who holds one holds another.
#[derive(Drop)]
pub struct Graph {
    /// The pointers of the nodes, in their order.
    pub keys: Vec<CanonicalPtr>,
    pub nodes: Vec<Node>,
    /// For each pointer in a cell its node.
    pub targets: Vec<usize>,
    /// For each node the nearest one whose segment holds its own.
    pub parents: Vec<usize>,
}

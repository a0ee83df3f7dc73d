//! The nodes of a graph.

ghost use Rattle.std.specs.Prelude.{◌≡◌};
ghost use Rattle.mm_flow.specs.Edges.{has_right};

/// A node of a graph: the nodes to which it leads, and what it permits.
#[derive(Clone, Copy)]
pub struct Node {
    /// The node leads to the targets at indices from this one on.
    pub low: usize,
    /// The index after that of its last target.
    pub high: usize,
    /// The node to which an entry leads.
    pub entry: usize,
    /// The mask of the groups that may enter.
    pub enters: u64,
    /// Whether the node loads.
    pub loads: bool,
    /// Whether the node stores.
    pub stores: bool,
    /// Whether the node makes pointers.
    pub makes: bool,
}

/// A right that a node may have: to load, to store, or to make pointers.
#[derive(Clone, Copy, PartialEq, Eq)]
pub enum Right {
    Load,
    Store,
    Make,
}

impl Node {
    /// Whether the node has a right.
    pub fn has(self, right: Right) -> bool
        ensures { result ≡ has_right right self }
    {
        match right {
            Right::Load => self.loads,
            Right::Store => self.stores,
            Right::Make => self.makes,
        }
    }
}

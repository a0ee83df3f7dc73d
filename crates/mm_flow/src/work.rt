//! The work that is left while marks flow.
ghost use Rattle.std.specs.Prelude.{◌≡◌, ◌<◌, ◌↔◌, IsTrue, length, slice_index, slice_set, bit_or};

use std::collections::VecDeque;

/// The state of a flow, without the marks of its nodes.
#[derive(Drop)]
pub struct Work {
    /// For each node the mask of the groups that it has propagated: all its targets have them.
    pub propagated: Vec<u64>,
    /// The nodes that are pending.
    pub pending: VecDeque<usize>,
}

impl Work {
    /// Whether a node has propagated all groups of a mask.
    pub fn has_propagated(&self, node: usize, mask: u64) -> bool
        requires { node < length self.now.propagated.items }
        ensures { IsTrue result ↔ (bit_or mask (slice_index self.now.propagated.items node) ≡ slice_index
            self.now.propagated.items node) }
    {
        let done = self.propagated[node];
        mask | done == done
    }

    /// Notes that a node has propagated the groups of a mask.
    pub fn add(&mut self, node: usize, mask: u64)
        requires { node < length self.old.propagated.items }
        ensures propagated { self.new.propagated.items ≡ slice_set self.old.propagated.items node
            (bit_or (slice_index self.old.propagated.items node) mask) }
        ensures pending { self.new.pending ≡ self.old.pending }
    {
        self.propagated[node] |= mask;
    }
}

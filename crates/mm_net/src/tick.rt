//! The outcome of an item of a net.

use mm_model::Step;

/// The outcome of an item of a net.
#[derive(Clone, Copy, PartialEq, Eq)]
pub enum NetTick {
    /// Nothing: the cycle was idle, the node or the link is not there, or the link took or put nothing.
    Idle,
    /// A node's slot took its turn, or a port of the node delivered.
    Turned(Step),
    /// A link took this integer.
    Sent(u64),
    /// A link put this integer.
    Arrived(u64),
}

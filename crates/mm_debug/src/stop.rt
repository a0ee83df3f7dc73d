//! Why a run stops.

/// Why a run stops.
#[derive(Clone, Copy, PartialEq, Eq)]
pub enum StopReason {
    /// The order or the limit has ended.
    End,
    /// The slot that is next has a break at its instruction pointer's address.
    Break(u8),
    /// The cycle did a store or a setting load on this watched word.
    Watch(u64),
}

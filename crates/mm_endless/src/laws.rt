//! What holds of every graph.
//!
//! These functions do nothing when they run: the contract of each is a law.
ghost use Rattle.mm_endless.specs.Graphs.{WalksEnd};

/// From each node of a graph some walk leads into a closed set.
pub fn walks_end()
    ensures { WalksEnd }
{}

//! Sets of nodes of a graph that no edge leaves, and each of whose nodes leads to each.
//!
//! A walk by depth looks at each edge once, without recursion. The nodes that it has met and that are not done are its
//! path. The path is cut into sets, each node of which leads to each of its set and of later sets:
//!
//! | what the walk meets | what it does | made in |
//! |---|---|---|
//! | a node that it did not meet before | the node is a set of its own, at the end of the path | `discover` |
//! | a node of the path | all sets from that of the node on are one | `join` |
//! | a node that is done | nothing | |
//! | a node of which no child is left | it is finished; if its set has no other node with children left, | `finish` |
//! | | the set is done. It is closed if it has no child that was done before | |
#![tactic(auto)]

mod closed;
mod graph;
pub mod laws;
mod walk;

pub use closed::{ClosedSets, closed_sets};
pub use graph::Graph;

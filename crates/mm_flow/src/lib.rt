//! Marks of groups that spread over a graph.
//!
//! A node's mark is a mask of up to 64 groups. The marks become saturated under two rules:
//!
//! | rule | part | made in |
//! |---|---|---|
//! | a mark flows along the edges of its node | the worklist: nodes whose marks are not yet | `flow`, `work`, |
//! | | at all their targets | `worklist` |
//! | a group that is linked to another shares all | links, which the caller gives | `reach` |
//! | that it has with it | | |
//! | a group shares with one that touches a node | marks above a node, of those who write | `forest`, `sharing`, |
//! | which it writes | and of those who touch | `reach` |
//! | a group that makes pointers shares with one | the groups that mark a node with the right | `reach` |
//! | that touches any node | | |
//!
//! The last three are sharing edges, from group to group: a mark that has the first group gets the second.
#![tactic(auto)]

mod flow;
mod forest;
mod graph;
mod node;
mod reach;
mod sharing;
mod work;
mod worklist;

pub use forest::parents;
pub use node::{Node, Right};
pub use reach::{any, saturate, sharing_edges, spread};
pub use sharing::{marks_above, propagate_shared, share, shared_by};

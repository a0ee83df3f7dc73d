//! The graph of an image's pointers. There is a node for each pointer in a register, an instruction pointer or a cell,
//! moved to its segment's base if it can be moved; and for what an entry through one of these leaves. Masks of groups
//! spread over the graph.
//!
//! Each of the eight rules by which a group is granted a pointer is one part of the graph:
//!
//! | rule | part | made in |
//! |---|---|---|
//! | a slot of the group has it in a register, or runs by it | seeds: where marks start | `seed`, `mark` |
//! | a cell that the group can load holds it | a node's targets: the nodes of the pointers | `found`, `placed`, |
//! | | in its segment | `targets`, `nodes` |
//! | it is below one of the group's pointers | parents: the nearest node whose segment holds | `above` |
//! | | the node's own | |
//! | a group that is granted it can store where | sharing: the groups that store and those | `mm_flow` |
//! | this group can load | that load at nodes that meet | |
//! | the group entered there | entries: the node of what an entry leaves, | `entries`, `nodes` |
//! | | and the groups that may enter | |
//! | a group that serves this one, or that this one | links between groups | `links` |
//! | serves, is granted it | | |
//! | privileged code makes any pointer | the right to make | `nodes` |
#![tactic(auto)]

mod above;
mod canonical_ptr;
mod entries;
mod found;
mod graph;
mod keys;
pub mod laws;
mod links;
mod mark;
mod nodes;
mod order;
mod placed;
mod seed;
mod targets;

pub use above::parents_of;
pub use canonical_ptr::{CanonicalPtr, standing_in};
pub use entries::Entries;
pub use found::Found;
pub use graph::{Graph, Marks, built, marked};
pub use keys::keys_and_targets;
pub use mark::marks_of;
pub use nodes::nodes_of;
pub use order::find;
pub use seed::Seed;

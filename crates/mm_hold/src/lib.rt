//! What each group can reach, with a kernel that keeps its segments.
//!
//! | rule | part | made in |
//! |---|---|---|
//! | the kernel's threads have pointers, let doors out, store | a list of deeds for each thread, and | `deed`, `handing`, |
//! | and load kept words, serve, go on as callers | all of them in sets | `going`, `inside`, |
//! | | | `doing`, `conduct` |
//! | callers have pointers, and cells that are not kept | the keys and nodes of a graph of pointers | `found`, `graph` |
//! | it is below a pointer; a cell holds it; an entry leaves it | edges of the graph | `edges`, `mm_graph`, `mm_flow` |
//! | parties pass on all that they hold | who shares with whom, worked out anew in each round | `sharing`, `meets`, |
//! | | | `passing` |
//! | parties pass on single pointers | what stands behind doors, what is sent and given | `giving`, `rounds` |
//! | what groups reach, and the doors that they hold | masks of the nodes, and a survey of `mm_audit` | `reached`, |
//! | | | `handlers`, `holdings` |
#![tactic(auto)]

mod conduct;
mod deed;
mod doing;
mod edges;
mod found;
mod giving;
mod going;
mod graph;
mod handing;
mod handlers;
mod holdings;
mod inside;
mod marks;
mod meets;
mod parties;
mod passing;
mod reached;
mod rounds;
mod sharing;

pub use holdings::{Holdings, hold};

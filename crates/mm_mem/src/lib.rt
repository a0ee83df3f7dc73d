//! Memories: what every memory of a machine is, whichever way it is kept.
//!
//! A [`Memory`] holds whole pages of cells, as many as it has frames at most. Lists of uses belong to it: what was
//! asked of it, in order. Its contract says nothing of how it is kept, so what is proved of a turn over any memory
//! holds over each.
//!
//! | what | modules |
//! |---|---|
//! | the traits of a memory, and what a load and a store answer | `memory`, `answer` |
//! | synchronisation bits before and after an access | `bits` |
//! | the plain memory: pages in ascending order, in frames | `plain`, `flat`, `frame`, `search` |
//! | blocks of eight cells, as caches and frames hand them on | `block`, `packed` |
//! | what holds of every memory | `laws` |
#![tactic(auto)]

mod answer;
mod bits;
mod block;
mod flat;
mod frame;
pub mod laws;
mod memory;
mod packed;
mod plain;
mod search;

pub use answer::{Loaded, Stored};
pub use bits::{full_after, passes};
pub use block::{BLOCK, Block};
pub use memory::{Boot, Inspect, Memory, Reset};
pub use mm_model::{Counts, Page, Pending, Slot, SlotState};
pub use mm_word::{Post, Pre};
pub use plain::PlainMem;

//! The cached memory: a translation buffer (TLB) and a write-back cache over pages in frames, and what they count.
//!
//! | what | modules |
//! |---|---|
//! | the memory: each access by its line, which a miss fills from the frame of the page; and the counts | `vmem` |
//! | the translation buffer: which frame a page is in | `tlb` |
//!
//! The lines are in `mm_cache`, and the frames in `mm_frames`.
#![tactic(auto)]

mod tlb;
mod vmem;

pub use tlb::{ENTRIES, Entry, Tlb};
pub use vmem::VMem;

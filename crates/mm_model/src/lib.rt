//! The machine as data and definitions.
//!
//! The plain data that the crates of the machine share is in `src/`, with limits and what it is to be the same. What
//! the machine means is in `specs/`: memory, slots, one turn, runs, images and texts. The contracts of the crates above
//! cite these definitions.
#![tactic(auto)]

mod counts;
mod event;
mod limits;
mod page;
mod same;
mod slot;
mod step;
mod word_use;

pub use counts::Counts;
pub use event::Event;
pub use limits::{
    CYCLE_LIMIT, OUTPUT_LIMIT, RELOC_LIMIT, SEGMENT_LIMIT, STATE_LIMIT, WORD_LIMIT, output_limit,
};
pub use page::{CELLS, Page};
pub use same::{is_same_cell, is_same_word};
pub use slot::{Pending, Slot, SlotState};
pub use step::{Step, Tick};
pub use word_use::WordUse;

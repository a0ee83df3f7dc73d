//! Schedules: which slot's turn, or which port's delivery, each cycle is.
#![tactic(auto)]

mod item_texts;
mod robin;
mod runs;
mod schedule;
mod text;
mod word;

pub use item_texts::{TextItem, append, read_items};
pub use robin::Robin;
pub use schedule::{ITEM_LIMIT, Order, Schedule, only};
pub use text::{SchedError, parse};
pub use word::{item, number};

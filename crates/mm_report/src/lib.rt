//! The texts of a machine: its report, the lines of its slots, and the lines of its trace.
//!
//! | what | modules |
//! |---|---|
//! | the report of a machine against its image: the count of cycles, and then in this order | `summary` |
//! | the section of each group | `sections` |
//! | pages that were mapped or removed | `page_changes` |
//! | cells that changed | `cells` |
//! | what the memory counted | `counts` |
//! | the line of a cycle in a trace | `trace` |
//!
//! The lines of a slot are in `mm_text`.
#![tactic(auto)]

mod cells;
mod counts;
mod page_changes;
mod sections;
mod summary;
mod trace;

pub use mm_text::slot_lines;
pub use summary::report;
pub use trace::{put_step, trace_line};

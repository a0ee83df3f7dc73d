//! Texts that are written piece by piece, without allocation, and the lines of words, cells, slots and outputs,
//! which reports, sessions, summaries and explorations share.
//!
//! A [`TextBuffer`] hands a sink some kilobytes at a time, so that a stream of the system is not called for every word. It
//! remembers that a write failed, so that a function that writes many pieces looks for a fault only at its end. A
//! [`Line`] puts a short text together from its end.
#![tactic(auto)]

mod cells;
mod cycles;
mod line;
mod output;
mod piece;
mod slots;
mod text_buffer;
mod words;

pub use cells::put_cell;
pub use cycles::put_cycles;
pub use line::Line;
pub use output::put_output;
pub use piece::Piece;
pub use slots::{put_numbers, put_slot, put_state, slot_lines};
pub use text_buffer::{TextBuffer, write_pieces};
pub use words::put_word;

//! Debugging: a session that runs an image by the lines of an input, one reply each.
//!
//! A [`Session`] holds a machine and an order in which cycles are issued. Its lines step, run to a break or a watch,
//! and show slots and memory. If a session began at the start of an image's run, its machine is in the state of that
//! run after as many items of the order as were issued, whatever the lines say.
//!
//! | line | reply |
//! |---|---|
//! | `step N`, N 1 to 1,000,000 | issues up to N cycles, fewer if the order or the limit ends: `stepped K total C` |
//! | `run` | issues cycles up to a stop: `stopped end C`, `stopped break S C` or `stopped watch A C` |
//! | `break S A`, S 0 to 63, A below 2^54 | `break set`, or `break full` if 64 others are kept |
//! | `watch A`, A a multiple of 8 below 2^54 | `watch set`, or `watch full` if 64 others are kept |
//! | `regs S`, S 0 to 63 | the lines of the slot, or `no slot` |
//! | `mem A N`, A a multiple of 8, N 1 to 64, | N lines: `cell A WORD full` or `cell A WORD empty`, |
//! | A + 8N at most 2^54 | or `none A` if no mapped page has the word |
//! | `quit` | `bye` |
//! | anything else | `bad command` |
//!
//! Tokens are separated by spaces, tabs and carriage returns, and a line without any has no reply. A number is decimal
//! digits, or `0x` and hexadecimal digits, below 2^64. C is the total of cycles, at most 1,000,000.
//!
//! A `run` stops after a cycle that did a store or a setting load on a watched word; otherwise if the order or the
//! limit has ended; otherwise, once it has issued a cycle, if the next item is a running slot that is not past its
//! segment and has a break at its instruction pointer's address. So a run that begins at a break goes on from it.
//!
//! A crate that adds lines to those of a session uses the same parts: [`handle_lines`] cuts an input into lines that a
//! [`LineHandler`] carries out, [`take_token`] cuts a line into tokens, [`number`] reads one, [`Session::put_line`]
//! carries out a line, and [`Session::step`] issues cycles.
//!
//! | what | modules |
//! |---|---|
//! | a session, and a state of it that is kept apart | `session`, `point` |
//! | the lines of an input one after the other, and the command of a line | `lines`, `command` |
//! | the cycles of a session, its breaks and watches, and why a run stops | `cycles`, `breakpoints`, `stop` |
//! | the texts of replies | `replies` |
//! | what holds of all sessions | `laws` |
#![tactic(auto)]

mod breakpoints;
mod command;
mod cycles;
pub mod laws;
mod lines;
mod point;
mod replies;
mod session;
mod stop;

pub use command::{number, take_token};
pub use lines::{LineHandler, handle_lines};
pub use point::Point;
pub use session::{Go, Session};

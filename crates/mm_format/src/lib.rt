//! Formats of files: one description of each, which says how a value is spelled, what bytes are read as, and which
//! fault is the first.
//!
//! A format (`specs/Formats`) says which values have a spelling, how each is spelled, and what is read from bytes at a
//! place. It is made of fields, tests, parts one after the other, lists, and tests that are made later. Each way to
//! make one keeps two facts: what is read is spelled where it was read, and what is spelled is read.
//!
//! | a row | what it is |
//! |---|---|
//! | `byte`, `u16`, `u32`, `u64`, `text size`, `raw size` | a field of this size, which has to be whole |
//! | `test format number bad` | the fault of this number at the beginning if the value is bad |
//! | `literal text number` | this text |
//! | `x ← part of format`, then the rest | a part of the value, on which the rest may depend |
//! | `done value` | the value is complete |
//! | `times format onward count state` | a count of values, each by what comes before it |
//! | `each format list` | a value for each of a list |
//! | `late format tests` | tests of a part that was read, each at its place |
//!
//! `specs/Headers` and `specs/Images` are the image file, row by row.
#![tactic(auto)]

mod elements;
mod header;
pub mod laws;
mod reader;
mod records;

pub use elements::{Elements, is_set, read_array};
pub use header::Header;
pub use reader::{FaultKind, ReadError, Reader, failed, refuse_if};
pub use records::{Records, read_records};

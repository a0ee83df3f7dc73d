//! Checkpoints: states of an image's machine as files.
//!
//! A checkpoint is a state that a machine of an image can have, with the slot that round robin issued last. [`write`]
//! gives the bytes of its file; [`read`] gives the state and the slot that the bytes of a file spell as a checkpoint of
//! an image, or the offset of the first fault.
//!
//! The file, whose numbers have their most significant byte first and whose masks have register 0 lowest:
//!
//! | bytes | field |
//! |---|---|
//! | 4 | `MMS1` |
//! | 2 | version, 1 |
//! | 1 | the slot that round robin issued last, or 255 |
//! | 1 | 0 |
//! | 8 | count of cycles |
//! | 2 | count of pages |
//! | 171 a slot | its state, as below; of the image's slots by ascending number |
//! | 10 a pending load | after the slot's 171 bytes, oldest first: register, tag, word (8) |
//! | 4 a group | count of bytes that it has put out, and then these bytes; of the groups that have a slot, ascending |
//! | 4,232 a page | as in an image's file |
//!
//! The state of a slot:
//!
//! | bytes | field |
//! |---|---|
//! | 1 | 0 if it runs, 1 if it waits, 2 if its event was taken, 3 if it is halted |
//! | 1 | the number of the cause for which it waits or was halted, else 0 |
//! | 1 | count of events before its own in its handler's queue, else 0 |
//! | 1 | 1 if the instruction before was its segment's last, else 0 |
//! | 8 | turns |
//! | 8 | instruction pointer |
//! | 2 | which registers hold pointers |
//! | 2 | which registers wait for a load |
//! | 128 | 16 registers |
//! | 9 | tag and word of the address operand of its event, else 0 |
//! | 9 | tag and word of the data operand of its event, else 0 |
//! | 1 | count of pending loads |
//!
//! The fields are read in order, and each is tested when it is read, but the places in queues are tested after the last
//! slot. The ranges of the fields are in `docs/FORMATS.md`. The format is this project's profile.
#![tactic(auto)]

mod causes;
mod entries;
mod fault;
mod header;
pub mod laws;
mod layout;
mod outputs;
mod reading;
mod rows;
mod waiting;
mod words;
mod writing;

pub use fault::SaveError;
pub use reading::read;
pub use writing::write;

//! Object files, read and written.
//!
//! An object is what an assembler makes and a linker takes: named segments of words; names that it uses and does not
//! define; words that become pointers once the segments are placed; threads; and the count of spare frames that a
//! machine is to have. [`read`] gives the object that the bytes of a file spell, or the number and the offset of the
//! first fault. [`write`] gives the one spelling of an object, which is read as the same object again. [`Object::new`]
//! makes an object of its parts.
//!
//! The file, whose numbers have their most significant byte first and whose bitmaps have their first bit lowest:
//!
//! | bytes | field |
//! |---|---|
//! | 4 | `MMO1` |
//! | 2 | version, 1 |
//! | 2 | count of segments, 0 to 256 |
//! | 2 | count of externals, 0 to 1,024 |
//! | 2 | count of relocations |
//! | 2 | count of threads, 0 to 16 |
//! | 2 | spare frames, 0 to 256 |
//! | a segment | length of the name (1), name, logarithm of the length in bytes, 3 to 20 (1), count of words (4), |
//! | | which words are full (a bit each), the words (8 each) |
//! | an external | length of the name (1), name |
//! | 13 a relocation | segment (2), word (4), permission (1), target (2), addend (4) |
//! | 140 a thread | slot, group, handler or 255, and permission, a byte each; target (2), addend (4); |
//! | | which registers become pointers (2); 16 registers (128) |
//!
//! A register that becomes a pointer has permission (1), zero (1), target (2) and addend (4); any other is an integer.
//! The format is this project's profile.
#![tactic(auto)]

mod fault;
mod fields;
mod fits;
mod header;
mod item;
mod known;
pub mod laws;
mod limits;
mod name;
mod name_records;
mod object;
mod reading;
mod reloc_records;
mod relocs;
mod segment;
mod segment_records;
mod segments;
mod target;
mod thread;
mod thread_records;
mod threads;
mod uses;
mod writing;

pub use fault::{ObjectError, ObjectFault};
pub use item::Item;
pub use limits::EXTERNAL_LIMIT;
pub use name::Name;
pub use object::Object;
pub use reading::read;
pub use segment::Segment;
pub use target::{Reloc, Target};
pub use thread::{Thread, Value};
pub use writing::write;

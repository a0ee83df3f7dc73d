//! Image files, read and written.
//!
//! An image is what a machine starts from: slots, pages and frames, a version and a mode. [`read`] gives the image that
//! the bytes of a file spell, or the first fault and its offset. [`write`] gives the one spelling of an image, which is
//! read as the same image again. [`Image::new`] makes an image of its parts.
//!
//! The file, whose numbers have their most significant byte first and whose bitmaps have their first bit lowest:
//!
//! | bytes | field |
//! |---|---|
//! | 4 | `MMI1` |
//! | 2 | version, 1 or 2 |
//! | 2 | count of slots, 1 to 16, in version 2 to 64 |
//! | 2 | count of frames, 1 to 256, in version 2 to 4,096 |
//! | 2 | count of pages, no more than frames |
//! | 4 | mode: 0, or 1 for a split image of version 2 |
//! | 142 a slot | number, group, handler or 255, and state, a byte each; instruction pointer (8); |
//! | | which registers hold pointers (2); 16 registers (128) |
//! | 4,232 a page | number (8); which cells hold pointers (64); which are full (64); 512 words (4,096) |
//!
//! The fields are read in order, and each is tested when it is read, but the handlers are tested after the last slot.
//! The caller limits the length of a file. The format is this project's profile.
#![tactic(auto)]

mod fault;
mod fits;
mod header;
mod image;
pub mod laws;
mod layout;
mod pages;
mod reading;
mod slots;
mod words;
mod writing;

pub use fault::{ImageError, ImageFault};
pub use fits::{has_group, slots_ascend};
pub use image::Image;
pub use pages::{read_page, read_pages};
pub use reading::read;
pub use words::{read_ip, read_word, word_of};
pub use writing::{put_page, put_words, tags_of, write};

//! The search for all that a kernel can come to, whatever its callers do.
#![tactic(auto)]

mod again;
mod begin;
mod follow;
mod integers;
mod kernel;
mod live;
mod memory;
mod operands;
mod outcome_list;
mod plain;
mod rows;
mod search;
mod segments;
mod tables;
mod thread;
mod turn;
mod uses;

pub use again::{comes_from, with_words};
pub use begin::first_form;
pub use kernel::{Kernel, is_kernel_slot, thread_through};
pub use live::{live_pointers, runs};
pub use outcome_list::Outcomes;
pub use search::find;
pub use segments::{is_door, is_kept, is_open_pointer, lies_in};
pub use tables::Tables;
pub use thread::{form_at, on_after, with_form};
pub use turn::outcomes;
pub use uses::{fetched_word, sets_bit};

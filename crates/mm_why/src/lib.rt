//! Why a group is granted a word: the derivation by which it is.
//!
//! A derivation is a list of lines. Each says that a group is granted a pointer, and by which rule that follows from
//! the image and from earlier lines. It is found in these steps:
//!
//! | step | made in |
//! |---|---|
//! | what each group has by its own slots, cells and entries: marks on the edges of a graph | `mm_graph`, `mm_flow` |
//! | to which groups all that a group has comes, round by round | `rounds`, `reasons` |
//! | the lines of one group's own pointers, nearest first | `search` |
//! | by which pointers of two groups the one can store where the other loads | `carriers` |
//! | the lines by which a pointer comes from group to group | `work`, `give` |
//! | the line whose pointer gives the asked use of the word | `uses` |
//! | only the lines that the last one needs | `prune` |
//! | the text of the lines | `text` |
#![tactic(auto)]

mod answer;
mod carriers;
mod give;
pub mod laws;
mod line;
mod lines;
mod prune;
mod reasons;
mod rounds;
mod search;
mod text;
mod uses;
mod work;

pub use answer::why;
pub use line::{Line, Rule};
pub use text::write_why;

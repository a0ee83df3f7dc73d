//! The audit of an image: what each group can touch and write, exactly; and the image of some groups alone.
//!
//! | rule | part | made in |
//! |---|---|---|
//! | what a group is granted | the marks of the image's graph | `mm_graph`, `surveying` |
//! | it touches and writes what lies in the segment | spans: segments with the groups | `span`, `spans` |
//! | of a granted pointer with the right | that use them | |
//! | its maximal segments | the outermost of its spans, one by one, | `outermost_spans`, `sets`, |
//! | | or as a set for each group | `group_sets` |
//! | two groups share the words that the one writes | for each two groups the least such word | `open_spans`, |
//! | and the other touches | | `shared_words`, `least_shared` |
//! | groups stand apart unless a handler or a writer | the slots with their handlers, | `handlers`, `writers`, |
//! | is across | and the least writer | `apart_groups` |
//! | what a finished audit answers | a set for each group, or one list for all | `reach`, `surveys` |
//! | groups that stand alone have an image | their slots, and the pages and cells | `refusals`, `touched_words`, |
//! | of their own | that they can touch | `kept_parts`, `extracting`, `solo` |
#![tactic(auto)]

mod apart_groups;
mod extracting;
mod group_sets;
mod handlers;
mod kept_parts;
mod least_shared;
mod open_spans;
mod outermost_spans;
mod reach;
mod refusals;
mod sets;
mod shared_words;
mod solo;
mod span;
mod spans;
mod surveying;
mod surveys;
mod touched_words;
mod writers;

pub use apart_groups::Apart;
pub use extracting::{ExtractError, extract};
pub use handlers::Served;
pub use mm_graph::Entries;
pub use outermost_spans::Segments;
pub use reach::Reach;
pub use refusals::{Refused, refusal};
pub use solo::alone;
pub use surveying::{audit, survey, survey_of};
pub use surveys::Survey;

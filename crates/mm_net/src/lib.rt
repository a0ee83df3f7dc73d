//! Networks of machines: nodes, and links that take integers from a word of one node and put them at a word of a node;
//! the text of the links and the text of the events.
//!
//! [`Net::step`] takes one item: a turn of a node, or a link that takes at one end or puts at the other.
//!
//! | what | modules |
//! |---|---|
//! | a net: its nodes, and its links with what they carried | `net`, `wire` |
//! | a link, an item, and what comes of an item | `link`, `item`, `tick` |
//! | the text of links, and what a word of it says | `links`, `link_words` |
//! | the text of events, and what a word of it says | `events`, `event_words` |
//! | the parts of a word, for both, and why a text has no links or no events | `word_parts`, `fault` |
//! | the report of a net | `net_text` |
//! | what holds of all nets | `laws` |
#![tactic(auto)]

mod event_words;
mod events;
mod fault;
mod item;
pub mod laws;
mod link;
mod link_words;
mod links;
mod net;
mod net_text;
mod tick;
mod wire;
mod word_parts;

pub use events::{Events, read_events};
pub use fault::NetError;
pub use item::NetItem;
pub use link::Link;
pub use links::{LINK_LIMIT, Links, read_links};
pub use net::Net;
pub use net_text::report;
pub use tick::NetTick;

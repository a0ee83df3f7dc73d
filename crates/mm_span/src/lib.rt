//! Runs of consecutive words, and their lines.
#![tactic(auto)]

mod builder;
mod span;
mod text;

pub use builder::{SpanBuilder, spans};
pub use span::Span;
pub use text::put_spans;

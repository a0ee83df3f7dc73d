//! A run of consecutive words.

use std::marker::Model;

/// A run of consecutive words.
#[derive(Clone, Copy, PartialEq, Eq)]
pub struct Span {
    /// The address of the first word.
    pub first: u64,
    /// The count of words.
    pub count: u64,
}

impl Model for Span {
    ghost use Rattle.mm_span.specs.Spans.{Span as SpanValue};

    ghost Value = { SpanValue };

    ghost view = { λ s. record { first = s.first; count = s.count } };

    ghost inverse = { λ s. record { first = s.first; count = s.count } };
}

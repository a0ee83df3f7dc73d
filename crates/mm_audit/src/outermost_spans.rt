//! The outermost spans of groups, one after the other.

ghost use Rattle.std.specs.Prelude.{◌≡◌, ◌<◌, ◌≤◌, drop, length, IsTrue};
ghost use Rattle.mm_audit.specs.Spans.{span_at};
ghost use Rattle.mm_audit.specs.Walks.{is_next, outermost};

use crate::span::Span;
use mm_model::WordUse;
use std::marker::Model;

/// The maximal segments that groups reach, ascending: of each the base, and the base-2 logarithm of the length in
/// bytes. Contracts see the segments that are still to come.
#[derive(Drop)]
pub struct Segments<'a> {
    spans: &'a [Span],
    how: WordUse,
    groups: u64,
    /// The index at which the search for the next span begins.
    at: usize,
    /// The end of the last segment.
    from: u64,
}

impl<'a> Model for Segments<'a> {
    ghost use Rattle.std.specs.Prelude.{ℕ, List, drop, ◌≤◌, length};
    ghost use Rattle.mm_audit.specs.Spans.{AreInOrder};
    ghost use Rattle.mm_audit.specs.Walks.{outermost};

    ghost Value = { List (ℕ × ℕ) };

    ghost view = { λ s. outermost s.how s.groups s.from (drop s.at s.spans.now) };

    ghost invariant = { λ s. AreInOrder s.spans.now × (s.at ≤ length s.spans.now) };
}

/// Whether one of the groups uses the span in this way, and the span does not begin before the address.
fn is_next(span: Span, how: WordUse, groups: u64, from: u64) -> bool
    ensures { result ≡ is_next how groups from span }
{
    span.mask(how) & groups != 0 && from <= span.base
}

/// The index of the next such span; the count of spans if there is none.
fn next_place(spans: &[Span], how: WordUse, groups: u64, from: u64, at: usize) -> usize
    requires { at ≤ length spans.now }
    ensures fits { result ≤ length spans.now }
    ensures same { outermost how groups from (drop at spans.now) ≡ outermost how groups from
        (drop result spans.now) }
    ensures next { result < length spans.now → IsTrue (is_next how groups from (span_at spans.now result)) }
{
    for k in at..spans.len() {
        if is_next(spans[k], how, groups, from) {
            return k;
        }
    }
    spans.len()
}

impl<'a> Segments<'a> {
    ghost use Rattle.std.specs.Prelude.{[], ◌∷◌, MatchOption};
    ghost use Rattle.mm_audit.specs.Spans.{AreInOrder};

    /// The segments of these groups.
    pub(crate) fn new(spans: &'a [Span], how: WordUse, groups: u64) -> Segments<'a>
        requires { AreInOrder spans.now }
        ensures { result ≡ outermost how groups 0 spans.now }
    {
        Segments {
            spans,
            how,
            groups,
            at: 0,
            from: 0,
        }
    }

    /// The next segment; `None` after the last.
    pub fn next(&mut self) -> Option<(u64, u8)>
        ensures { MatchOption result ((self.old ≡ []) × (self.new ≡ [])) (λ s. self.old ≡ s ∷ self.new) }
    {
        let place = next_place(self.spans, self.how, self.groups, self.from, self.at);
        if place == self.spans.len() {
            self.at = place;
            return None;
        }
        let span = self.spans[place];
        self.at = place + 1;
        self.from = span.end();
        Some((span.base, span.log))
    }
}

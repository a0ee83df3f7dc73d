//! The longest runs of ascending words.

ghost use Rattle.std.specs.Prelude.{◌≡◌, ◌+◌, ◌≤◌, ◌^◌, ◌<◌, ◌++◌, ◌∷◌, [], List, ℕ, Contains};
ghost use Rattle.std.specs.Prelude.{IfOk, OnOk, OnErr, IfSome, Some};
ghost use Rattle.std.specs.List.{AllByRecursion};
ghost use Rattle.mm_span.specs.Pairs.{EachPair};
ghost use Rattle.mm_span.specs.Spans.{AreSpans, IsWord, given, spans_after, word_in};

use crate::span::Span;
use std::alloc::{AllocError, Global};
use std::collections::BTreeSet;
use std::marker::Model;

/// Runs of words that are given one by one, ascending. Contracts see the words given so far.
#[derive(Drop)]
pub struct SpanBuilder {
    /// The runs that no word can make longer.
    spans: Vec<Span>,
    /// The last run, which the next word may make longer.
    last: Option<Span>,
}

impl Model for SpanBuilder {
    ghost use Rattle.std.specs.Prelude.{List, ℕ};
    ghost use Rattle.mm_span.specs.Spans.{IsBuilt, given};

    ghost Value = { List ℕ };

    ghost view = { λ b. given b.spans.items b.last };

    ghost invariant = { λ b. IsBuilt b.spans.items b.last };
}

/// The run of a word after the last run, which is appended if the word is not the next.
#[tactic(auto, using(crate::proofs::Built::given_new, crate::proofs::Built::given_longer))]
fn go_on(spans: &mut Vec<Span>, last: Option<Span>, word: u64) -> Result<Span, AllocError>
    requires room { IfSome last (λ s. word_in s s.count ≤ 2 ^ 54) }
    requires word { word + 8 ≤ 2 ^ 54 }
    ensures spans { IfOk result (λ s. (words : List ℕ) → spans.new.items ++ spans_after (Some s) words
        ≡ spans.old.items ++ spans_after last (word ∷ words)) }
    ensures given { IfOk result (λ s. given spans.new.items (Some s) ≡ given spans.old.items last ++ word ∷ []) }
    ensures room { IfOk result (λ s. word_in s s.count ≤ 2 ^ 54) }
    ensures err { OnErr result (spans.new.items ≡ spans.old.items) }
{
    let Some(span) = last else {
        return Ok(Span {
            first: word,
            count: 1,
        });
    };
    if span.first + 8 * span.count == word {
        return Ok(Span {
            first: span.first,
            count: span.count + 1,
        });
    }
    spans.push(span)?;
    Ok(Span {
        first: word,
        count: 1,
    })
}

/// Appends the last run, if there is one.
fn close(spans: &mut Vec<Span>, last: Option<Span>) -> Result<(), AllocError>
    ensures { OnOk result (spans.new.items ≡ spans.old.items ++ spans_after last []) }
{
    if let Some(span) = last {
        spans.push(span)?;
    }
    Ok(())
}

impl SpanBuilder {
    /// A builder to which no words were given.
    pub fn new(alloc: Global) -> SpanBuilder
        ensures { result ≡ [] }
    {
        SpanBuilder {
            spans: Vec::new(alloc),
            last: None,
        }
    }

    /// Gives a word.
    pub fn push(&mut self, word: u64) -> Result<(), AllocError>
        requires { IsWord word }
        ensures { OnOk result (self.new ≡ self.old ++ word ∷ []) }
    {
        let span = go_on(&mut self.spans, self.last, word)?;
        self.last = Some(span);
        Ok(())
    }

    /// The longest runs of the words that were given, ascending.
    pub fn finish(self) -> Result<Vec<Span>, AllocError>
        requires ascending { EachPair ◌<◌ self }
        requires words { AllByRecursion IsWord self }
        ensures { IfOk result (λ spans. AreSpans (Contains self) spans.items) }
    {
        let SpanBuilder { mut spans, last } = self;
        close(&mut spans, last)?;
        Ok(spans)
    }
}

/// The longest runs of words, ascending.
pub fn spans(alloc: Global, words: &BTreeSet<u64>) -> Result<Vec<Span>, AllocError>
    requires { AllByRecursion IsWord words.now.keys }
    ensures { IfOk result (λ spans. AreSpans (Contains words.now.keys) spans.items) }
{
    let mut builder = SpanBuilder::new(alloc);
    for word in words.iter() {
        builder.push(*word)?;
    }
    builder.finish()
}

//! The runs of words that a kernel's threads use.

ghost use Rattle.std.specs.Prelude.{◌≡◌, ◌⊎◌, ◌↔◌, ◌%◌, ◌<◌, ◌≤◌, ◌^◌, ◌∷◌, [], ℕ, true, IfOk, OnOk, Contains};
ghost use Rattle.std.specs.List.{AllByRecursion};
ghost use Rattle.mm_kernel.specs.Derived.{Fetches};
ghost use Rattle.mm_kernel.specs.Segments.{lies_in};
ghost use Rattle.mm_span.specs.Spans.{AreSpans, IsWord};
ghost use Rattle.mm_keep_text.specs.Parts.{AreAll, IsHeld, IsIn, IsHeldIn, SomeFetches};

use mm_keep::{Kernel, Tables, fetched_word, is_kept, lies_in};
use mm_kernel::{Part, Thread};
use mm_span::{Span, spans};
use mm_word::NoMemory;
use std::alloc::Global;
use std::collections::BTreeSet;

/// Adds a word, if it is a kept one on a page of the image.
fn put_if_held(words: &mut BTreeSet<u64>, kernel: &Kernel, word: u64) -> Result<(), NoMemory>
    requires { word % 8 ≡ 0 }
    ensures { OnOk result (AreAll (λ w. Contains words.old.keys w
        ⊎ ((word ≡ w) × IsHeld kernel.now.image kernel.now.kept w)) words.new.keys) }
{
    if kernel.image().cell(word).is_some() && is_kept(kernel.kept(), word) {
        words.insert(word)?;
    }
    Ok(())
}

/// Adds the kept words of a page.
fn put_page(words: &mut BTreeSet<u64>, kernel: &Kernel, number: u64) -> Result<(), NoMemory>
    requires { number < 2 ^ 42 }
    ensures { OnOk result (AreAll (λ w. Contains words.old.keys w
        ⊎ IsHeldIn kernel.now.image kernel.now.kept number 512 w) words.new.keys) }
{
    for place in 0..512u64 {
        put_if_held(words, kernel, number * 4096 + 8 * place)?;
    }
    Ok(())
}

/// The kept words of the image's pages.
pub(crate) fn kept_words(alloc: Global, kernel: &Kernel) -> Result<BTreeSet<u64>, NoMemory>
    ensures held { IfOk result (λ words. AreAll (IsHeld kernel.now.image kernel.now.kept) words.keys) }
    ensures words { IfOk result (λ words. AllByRecursion IsWord words.keys) }
{
    let mut words = BTreeSet::new(alloc);
    let pages = kernel.image().pages();
    for page in pages {
        put_page(&mut words, kernel, page.number())?;
    }
    Ok(words)
}

/// The first address of a segment, and the first one after it. A segment of 2^54 bytes or more has all words or none.
fn bounds(part: Part) -> (u64, u64)
    ensures order { result.0 ≤ result.1 }
    ensures inside { (w : ℕ) → w < 2 ^ 54 → (lies_in w part ≡ true) ↔ ((result.0 ≤ w) × (w < result.1)) }
{
    let (base, log) = part;
    if log < 54 {
        let first = (base >> log) << log;
        (first, first.saturating_add(1 << log))
    } else if lies_in(0, part) {
        (0, 1 << 54)
    } else {
        (0, 0)
    }
}

/// Adds those of the words that lie in a segment.
fn put_covered(
    covered: &mut BTreeSet<u64>,
    words: &BTreeSet<u64>,
    part: Part,
) -> Result<(), NoMemory>
    requires { AllByRecursion IsWord words.now.keys }
    ensures { OnOk result (AreAll (λ w. Contains covered.old.keys w ⊎ IsIn words.now.keys (part ∷ []) w)
        covered.new.keys) }
{
    let (first, after) = bounds(part);
    for word in words.range(first..after) {
        covered.insert(*word)?;
    }
    Ok(())
}

/// The longest runs of those words that one of the parts covers.
pub(crate) fn covered_spans(
    alloc: Global,
    words: &BTreeSet<u64>,
    parts: &[Part],
) -> Result<Vec<Span>, NoMemory>
    requires { AllByRecursion IsWord words.now.keys }
    ensures { IfOk result (λ spans. AreSpans (IsIn words.now.keys parts.now) spans.items) }
{
    let mut covered = BTreeSet::new(alloc);
    for part in parts {
        put_covered(&mut covered, words, *part)?;
    }
    Ok(spans(alloc, &covered)?)
}

/// Adds the word that the turn of a thread fetches, if it fetches one.
fn put_fetched(words: &mut BTreeSet<u64>, t: &Thread) -> Result<(), NoMemory>
    ensures each { OnOk result (AreAll (λ w. Contains words.old.keys w ⊎ Fetches t.now w) words.new.keys) }
    ensures words { OnOk result (AllByRecursion IsWord words.old.keys → AllByRecursion IsWord words.new.keys) }
{
    match fetched_word(t) {
        Some(word) => {
            words.insert(word)?;
            Ok(())
        }
        None => Ok(()),
    }
}

/// The words that threads fetch.
fn fetched_words(alloc: Global, tables: &Tables) -> Result<BTreeSet<u64>, NoMemory>
    ensures each { IfOk result (λ words. AreAll (SomeFetches tables.now.threads) words.keys) }
    ensures words { IfOk result (λ words. AllByRecursion IsWord words.keys) }
{
    let mut words = BTreeSet::new(alloc);
    for k in 0..tables.threads() {
        put_fetched(&mut words, &tables.thread(k))?;
    }
    Ok(words)
}

/// The longest runs of the words that threads fetch.
pub(crate) fn code_spans(alloc: Global, tables: &Tables) -> Result<Vec<Span>, NoMemory>
    ensures { IfOk result (λ spans. AreSpans (SomeFetches tables.now.threads) spans.items) }
{
    let words = fetched_words(alloc, tables)?;
    Ok(spans(alloc, &words)?)
}

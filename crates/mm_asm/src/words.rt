//! The segments of an object, and the bits of their words.

ghost use Rattle.std.specs.Prelude.{◌≡◌, map, IfOk, FitsSigned, IsOkUnless};
ghost use Rattle.std.specs.Int.{w32};
ghost use Rattle.std.specs.List.{AllByRecursion};
ghost use Rattle.mm_isa.specs.Table.{FitInWord};
ghost use Rattle.mm_asm.specs.Fits.{FitsContent, FitsWords, FitsSegment};
ghost use Rattle.mm_asm.specs.Meaning.{distance_to, with_goal, bits_of, word_items, segment_of};
ghost use Rattle.mm_draft.specs.Drafts.{place_of};

use crate::AsmError;
use mm_draft::{Draft, Segment as Said, Word};
use mm_isa::Fields;
use mm_line::{Code, Constant, Content, Mark};
use mm_object::{Item, Name, Segment};
use std::alloc::Global;

/// The distance in words from a word to a label, which may come before it.
fn distance_to(draft: &Draft<'_>, mark: &Mark<'_>, word: usize) -> i32
    requires { FitsSigned w32 (distance_to (place_of draft.now mark.now.name) word) }
    ensures { result ≡ distance_to (place_of draft.now mark.now.name) word }
{
    match draft.place_of(mark.name.bytes()) {
        None => 0,
        Some(location) => (location.word as i128 - word as i128) as i32,
    }
}

/// The fields of an operation, with the distance of its label.
fn with_goal(draft: &Draft<'_>, word: usize, code: &Code<'_>) -> Fields
    requires { FitInWord (with_goal draft.now word code.now.goal code.now.fields) }
    ensures { result ≡ with_goal draft.now word code.now.goal code.now.fields }
{
    match &code.goal {
        None => code.fields,
        Some(mark) => Fields {
            imm: distance_to(draft, mark, word),
            ..code.fields
        },
    }
}

/// The bits of a word of a segment. The bits of a pointer are 0 until the object is placed.
fn bits_of(draft: &Draft<'_>, word: usize, content: &Content<'_>) -> u64
    requires { FitsContent draft.now word content.now }
    ensures { result ≡ bits_of draft.now word content.now }
{
    match content {
        Content::Constant(Constant::Integer(number)) => *number,
        Content::Constant(Constant::Pointer { .. }) => 0,
        Content::Code(code) => with_goal(draft, word, code).word(),
    }
}

/// The words of a segment.
fn items_of(alloc: Global, draft: &Draft<'_>, words: &[Word<'_>]) -> Result<Vec<Item>, AsmError>
    requires { FitsWords draft.now 0 words.now }
    ensures items { IfOk result (λ v. v.items ≡ word_items draft.now 0 words.now) }
    ensures memory { IsOkUnless result AsmError.NoMemory }
{
    let mut items = Vec::new(alloc);
    for (k, word) in words.iter().enumerate() {
        items.push(Item {
            bits: bits_of(draft, k, &word.content),
            full: word.full,
        })?;
    }
    Ok(items)
}

/// The object's segment for one that the text says.
fn segment_of(alloc: Global, draft: &Draft<'_>, said: &Said<'_>) -> Result<Segment, AsmError>
    requires { FitsSegment draft.now said.now }
    ensures segment { IfOk result (λ s. s ≡ segment_of draft.now said.now) }
    ensures memory { IsOkUnless result AsmError.NoMemory }
{
    Ok(Segment {
        name: Name::of(said.name.bytes()),
        log: said.log,
        items: items_of(alloc, draft, &said.words)?,
    })
}

/// The segments of a draft.
pub(crate) fn segments_of(alloc: Global, draft: &Draft<'_>) -> Result<Vec<Segment>, AsmError>
    requires { AllByRecursion (FitsSegment draft.now) draft.now.segments }
    ensures segments { IfOk result (λ v. v.items ≡ map (segment_of draft.now) draft.now.segments) }
    ensures memory { IsOkUnless result AsmError.NoMemory }
{
    let mut segments = Vec::new(alloc);
    for said in draft.segments() {
        segments.push(segment_of(alloc, draft, said)?)?;
    }
    Ok(segments)
}

//! The words of an object that become pointers.

ghost use Rattle.std.specs.Prelude.{◌≡◌, ◌++◌, ◌^◌, ◌<◌, ◌≤◌, length, IfOk, OnOk, IsOkUnless};
ghost use Rattle.std.specs.List.{AllByRecursion};
ghost use Rattle.mm_draft.specs.Drafts.{Segment as SegmentValue};
ghost use Rattle.mm_asm.specs.Fits.{FitsPointer, FitsPointers};
ghost use Rattle.mm_asm.specs.Names.{externals_of};
ghost use Rattle.mm_asm.specs.Meaning.{content_relocs, words_relocs, segments_relocs};

use crate::AsmError;
use crate::resolve::target_of;
use mm_draft::{Draft, Word};
use mm_line::{Constant, Content};
use mm_object::{Name, Reloc};
use std::alloc::Global;

/// The words of a draft that become pointers, by segment and place.
pub(crate) fn relocs_of(
    alloc: Global,
    draft: &Draft<'_>,
    externals: &[Name],
) -> Result<Vec<Reloc>, AsmError>
    requires names { externals.now ≡ externals_of draft.now }
    requires few { length draft.now.segments ≤ 256 }
    requires fits { AllByRecursion (λ (s : SegmentValue). FitsPointers draft.now s.words) draft.now.segments }
    ensures relocs { IfOk result (λ v. v.items ≡ segments_relocs draft.now 0 draft.now.segments) }
    ensures memory { IsOkUnless result AsmError.NoMemory }
{
    let mut relocs = Vec::new(alloc);
    for (number, segment) in draft.segments().iter().enumerate() {
        push_words(&mut relocs, draft, externals, number, &segment.words)?;
    }
    Ok(relocs)
}

/// Appends a relocation for each of a segment's words that becomes a pointer.
fn push_words(
    relocs: &mut Vec<Reloc>,
    draft: &Draft<'_>,
    externals: &[Name],
    segment: usize,
    words: &[Word<'_>],
) -> Result<(), AsmError>
    requires names { externals.now ≡ externals_of draft.now }
    requires fits { FitsPointers draft.now words.now }
    requires segment { segment < 2 ^ 16 }
    ensures relocs { OnOk result (relocs.new.items ≡ relocs.old.items ++ words_relocs draft.now segment 0 words.now) }
    ensures memory { IsOkUnless result AsmError.NoMemory }
{
    for (k, word) in words.iter().enumerate() {
        push_word(relocs, draft, externals, segment, k, &word.content)?;
    }
    Ok(())
}

/// Appends the relocation of a word, if the word becomes a pointer.
fn push_word(
    relocs: &mut Vec<Reloc>,
    draft: &Draft<'_>,
    externals: &[Name],
    segment: usize,
    word: usize,
    content: &Content<'_>,
) -> Result<(), AsmError>
    requires names { externals.now ≡ externals_of draft.now }
    requires fits { FitsPointer draft.now content.now }
    requires segment { segment < 2 ^ 16 }
    requires word { word < 2 ^ 32 }
    ensures relocs { OnOk result (relocs.new.items ≡ relocs.old.items
        ++ content_relocs draft.now segment word content.now) }
    ensures memory { IsOkUnless result AsmError.NoMemory }
{
    match content {
        Content::Constant(Constant::Pointer { perm, target }) => {
            relocs.push(Reloc {
                segment: segment as u16,
                word: word as u32,
                perm: *perm,
                target: target_of(draft, externals, target),
            })?;
            Ok(())
        }
        Content::Constant(Constant::Integer(_)) | Content::Code(_) => Ok(()),
    }
}

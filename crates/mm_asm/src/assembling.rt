//! The assembler.

ghost use Rattle.std.specs.Prelude.{◌≡◌, ◌<◌, ◌≤◌, ◌-◌, ◌^◌, ℕ, Some, Err, IfOk, map, length, IsOkUnless};
ghost use Rattle.std.specs.Result.{IsErrAnd};
ghost use Rattle.mm_model.specs.Answers.{IsUnless, ValueOrFault};
ghost use Rattle.mm_line.specs.Faults.{number_of};
ghost use Rattle.mm_line.specs.declared.fault.Fault.{Fault as FaultValue};
ghost use Rattle.mm_draft.specs.Laws.{Pair, failure_pair, least};
ghost use Rattle.mm_object.specs.Objects.{Object as ObjectValue, IsObject};
ghost use Rattle.std.specs.List.{AllByRecursion};
ghost use Rattle.mm_asm.specs.Fits.{FitsSegment, FitsPointers, FitsThread};
ghost use Rattle.mm_draft.specs.Drafts.{Segment as SegmentValue};
ghost use Rattle.mm_asm.specs.Bounds.{IsDraft};
ghost use Rattle.mm_asm.specs.Sources.{IsSmallError, IsFromSmall};
ghost use Rattle.mm_asm.specs.Answers.{Fails, pair_of_error};
ghost use Rattle.mm_asm.specs.Faults.{Means, first_fault, late_failures};
ghost use Rattle.mm_asm.specs.Meaning.{object_of};
ghost use Rattle.mm_asm.specs.Names.{externals_of};

use crate::AsmError;
use crate::checks::{meet_goals, meet_targets};
use crate::diagnostics::error_of;
use crate::externals::{externals, names_of};
use crate::pointers::relocs_of;
use crate::text_order::uses;
use crate::threads::threads_of;
use crate::words::segments_of;
use mm_draft::{Draft, DraftError, read_draft};
use mm_object::{Name, Object};
use std::alloc::Global;

/// The object that a text means, or the first of its faults. The text has fewer than 2^32 - 1 bytes. `NoMemory` comes
/// if memory ran out.
pub fn assemble(alloc: Global, text: &[u8]) -> Result<Object, AsmError>
    requires { length text.now < 2 ^ 32 - 1 }

    // The object that is answered is meant by the text, and an object that the text means is answered.
    ensures means { IfOk result (λ o. Means text.now o) }
    ensures again { (o : ObjectValue) → Means text.now o → IsUnless AsmError.NoMemory o result }

    // A fault that is answered is the first one, and if there is one it is answered.
    ensures fault { (kind : FaultValue) (line column : ℕ)
        → result ≡ Err (AsmError.Fault kind line column)
        → first_fault text.now ≡ Some (record { line = line; column = column; number = number_of kind }) }
    ensures first { (p : Pair) → first_fault text.now ≡ Some p → IsErrAnd result (Fails (Some p)) }
{
    match read_draft(alloc, text) {
        Ok(draft) => assemble_draft(alloc, &draft),
        Err(error) => Err(early(error)),
    }
}

/// The error of a text that has no draft.
fn early(error: DraftError) -> AsmError
    requires { IsSmallError error }
    ensures { Fails (pair_of_error error) result }
{
    match error {
        DraftError::Fault(failure) => error_of(failure),
        DraftError::NoMemory => AsmError::NoMemory,
    }
}

/// The object of a draft, or the first of its faults.
fn assemble_draft(alloc: Global, draft: &Draft<'_>) -> Result<Object, AsmError>
    requires bounded { IsDraft draft.now }
    requires small { IsFromSmall draft.now }
    ensures { ValueOrFault Fails (least (map failure_pair (late_failures draft.now))) (object_of draft.now) result }
{
    let mut first = None;
    let uses = uses(alloc, draft)?;
    meet_goals(&mut first, draft);
    meet_targets(&mut first, draft, &uses);
    let externals = externals(alloc, &mut first, draft, &uses)?;
    if let Some(failure) = first {
        return Err(error_of(failure));
    }
    let names = names_of(alloc, &externals)?;
    object_of(alloc, draft, names)
}

/// The object of a draft, with these externals.
#[tactic(auto, unfolding(crate::specs::Meaning::object_of))]
fn object_of(alloc: Global, draft: &Draft<'_>, externals: Vec<Name>) -> Result<Object, AsmError>
    requires names { externals.items ≡ externals_of draft.now }
    requires object { IsObject (object_of draft.now) }
    requires few { length draft.now.segments ≤ 256 }
    requires segments { AllByRecursion (FitsSegment draft.now) draft.now.segments }
    requires pointers { AllByRecursion (λ (s : SegmentValue). FitsPointers draft.now s.words) draft.now.segments }
    requires threads { AllByRecursion (FitsThread draft.now) draft.now.threads }
    ensures object { IfOk result (λ o. o ≡ object_of draft.now) }
    ensures memory { IsOkUnless result AsmError.NoMemory }
{
    let segments = segments_of(alloc, draft)?;
    let relocs = relocs_of(alloc, draft, &externals)?;
    let threads = threads_of(alloc, draft, &externals)?;
    let spare = draft.spare().unwrap_or(0);
    // What a text means is an object.
    Ok(Object::of(segments, externals, relocs, threads, spare))
}

//! The first of the faults that are met while a draft is gone over.

ghost use Rattle.std.specs.Prelude.{◌≡◌, ◌∷◌, [], Some};
ghost use Rattle.mm_draft.specs.Faults.{fault_if};
ghost use Rattle.mm_draft.specs.Laws.{precedes, failure_pair};
ghost use Rattle.mm_asm.specs.Answers.{Fails, Meets};
ghost use Rattle.mm_asm.specs.Faults.{in_source};
ghost use Rattle.mm_asm.specs.Sources.{IsPosition};

use crate::AsmError;
use mm_draft::{Failure, Source};
use mm_line::{Fault, Problem};

/// Whether a fault comes before another one in the text or, at the same place, has the smaller number.
fn precedes(a: &Failure, b: &Failure) -> bool
    ensures { result ≡ precedes (failure_pair a.now) (failure_pair b.now) }
{
    let a_place = (a.source.line, a.source.size.saturating_sub(a.problem.left));
    let b_place = (b.source.line, b.source.size.saturating_sub(b.problem.left));
    a_place.0 < b_place.0
        || a_place.0 == b_place.0
            && (a_place.1 < b_place.1
                || a_place.1 == b_place.1 && a.problem.fault.number() < b.problem.fault.number())
}

/// Keeps the earlier of the first fault so far and another one.
pub(crate) fn meet(first: &mut Option<Failure>, failure: Failure)
    ensures { Meets first.old first.new (failure ∷ []) }
{
    match first {
        Some(before) if !precedes(&failure, before) => {}
        _ => *first = Some(failure),
    }
}

/// Keeps the earlier of the first fault so far and another one, if something is wrong.
pub(crate) fn meet_if(first: &mut Option<Failure>, wrong: bool, source: Source, problem: Problem)
    ensures { Meets first.old first.new (in_source source (fault_if wrong problem.fault problem.left)) }
{
    if wrong {
        meet(first, Failure { source, problem });
    }
}

/// The error that names a fault.
pub(crate) fn error_of(failure: Failure) -> AsmError
    requires { IsPosition (failure_pair failure) }
    ensures { Fails (Some (failure_pair failure)) result }
{
    let column = failure.source.size.saturating_sub(failure.problem.left) + 1;
    AsmError::Fault {
        fault: failure.problem.fault,
        line: (failure.source.line + 1) as u32,
        column: column as u32,
    }
}

//! The faults that are found once a whole text was read.

ghost use Rattle.std.specs.Prelude.{◌≡◌, Option};
ghost use Rattle.std.specs.Option.{option_map};
ghost use Rattle.std.specs.List.{flat_map};
ghost use Rattle.mm_asm.specs.Answers.{Meets};
ghost use Rattle.mm_asm.specs.Faults.{is_label_in, is_outside, word_failures, goal_failures, use_failures};

use crate::diagnostics::meet_if;
use crate::text_order::Use;
use mm_draft::{Draft, Failure, Location, Segment, Word};
use mm_line::{Code, Content, Fault, Problem};

/// Whether a name stands for a label of a segment.
fn is_label_in(location: Option<Location>, segment: usize) -> bool
    ensures { result ≡ is_label_in location segment }
{
    match location {
        None => false,
        Some(location) => location.is_label && location.segment == segment,
    }
}

/// Whether an offset is at or past the end of a segment, or there is no segment.
fn is_outside(segment: Option<&Segment<'_>>, offset: u128) -> bool
    ensures { result ≡ is_outside (option_map (λ s. s.now) segment.entry) offset }
{
    match segment {
        None => true,
        Some(segment) => segment.log < 128 && 1 << segment.log <= offset,
    }
}

/// Keeps the earliest of the fault so far and those of branches to marks that are no labels of their segments.
pub(crate) fn meet_goals(first: &mut Option<Failure>, draft: &Draft<'_>)
    ensures { Meets first.old first.new (goal_failures draft.now 0 draft.now.segments) }
{
    for (number, segment) in draft.segments().iter().enumerate() {
        meet_goals_in(first, draft, number, &segment.words);
    }
}

/// Keeps the earliest of the fault so far and those of a segment's branches to marks that are no labels of it.
fn meet_goals_in(first: &mut Option<Failure>, draft: &Draft<'_>, segment: usize, words: &[Word<'_>])
    ensures { Meets first.old first.new (flat_map (word_failures draft.now segment) words.now) }
{
    for word in words {
        meet_goal(first, draft, segment, word);
    }
}

/// Keeps the earlier of the fault so far and that of a word's branch, if its mark is no label of the segment.
fn meet_goal(first: &mut Option<Failure>, draft: &Draft<'_>, segment: usize, word: &Word<'_>)
    ensures { Meets first.old first.new (word_failures draft.now segment word.now) }
{
    if let Content::Code(
        Code {
            goal: Some(mark),
            ..
        },
    ) = &word.content
    {
        let problem = Problem {
            fault: Fault::Label,
            left: mark.left,
        };
        let wrong = !is_label_in(draft.place_of(mark.name.bytes()), segment);
        meet_if(first, wrong, word.source, problem);
    }
}

/// Keeps the earliest of the fault so far and those of targets outside their segments.
pub(crate) fn meet_targets(first: &mut Option<Failure>, draft: &Draft<'_>, uses: &[Use<'_, '_>])
    ensures { Meets first.old first.new (flat_map (use_failures draft.now) uses.now) }
{
    for u in uses {
        meet_target(first, draft, u);
    }
}

/// Keeps the earlier of the fault so far and that of a target, if it is outside its segment.
fn meet_target(first: &mut Option<Failure>, draft: &Draft<'_>, u: &Use<'_, '_>)
    ensures { Meets first.old first.new (use_failures draft.now u.now) }
{
    let target = u.target;
    if let Some(location) = draft.place_of(target.mark.name.bytes()) {
        let problem = Problem {
            fault: Fault::Range,
            left: target.mark.left,
        };
        let offset = 8 * location.word as u128 + target.addend as u128;
        let wrong = is_outside(draft.segments().get(location.segment), offset);
        meet_if(first, wrong, u.source, problem);
    }
}

//! The text of an exploration.

ghost use Rattle.std.specs.Prelude.{◌≡◌, ◌≤◌, ◌++◌, codes, decimal, length};
ghost use Rattle.std.specs.List.{flat_map};
ghost use Rattle.mm_io.specs.Sinks.{Writes};
ghost use Rattle.mm_text.specs.Appends.{Appends};
ghost use Rattle.mm_explore.specs.Repeats.{leading as leading_of};
ghost use Rattle.mm_explore.specs.Results.{explored_text, group_found_lines, fault_found_lines, outcome_found_lines};
ghost use Rattle.mm_explore.specs.Results.{slot_found_line, output_text, ending_text, standing_text, extent_text};
ghost use Rattle.mm_explore.specs.Texts.{by_line};
ghost use Rattle.mm_explore.specs.Texts.{repeats_of, repeat_text, count_text};

use crate::explored::{Ending, Explored, FaultFound, OutcomeFound, Standing};
use crate::reached::GroupFound;
use mm_io::{Sink, WriteFault};
use mm_span::put_spans;
use mm_text::Piece::{Decimal, HexAddress, Text};
use mm_text::{TextBuffer, put_output, put_state};
use mm_thread::Output;

/// Writes the text of an exploration:
///
/// - `explored N all` with the number of configurations, or `explored N more` if there are others;
/// - for each group that has a slot, ascending, `group G` and its words, `touched ADDRESS COUNT` for each run of words
///   that it touched and `wrote ADDRESS COUNT` for each that it wrote;
/// - for each fault, `fault SLOT NUMBER` and the first schedule that meets it;
/// - for each outcome, `outcome N ended` or `outcome N stuck` with the number of final configurations that have it, or
///   `outcome N endless` with the number of endless sets, `slot S` and how each slot stands, the output of each group, and
///   the first schedule.
///
/// A schedule is a line `by`, with each run of equal items as the item, and `*` and the count if there are more than
/// one. After a [`WriteFault`] the sink has taken a prefix of the text.
#[tactic(auto, unfolding(crate::specs::Results::explored_text))]
pub fn write_explored<O: Sink>(e: &Explored, out: &mut O) -> Result<(), WriteFault>
    ensures { Writes O.taken O.faults out.old out.new (explored_text e.now) result }
{
    let mut text = TextBuffer::new();
    put_extent(&mut text, out, e.count, e.all);
    put_groups(&mut text, out, &e.groups);
    put_faults(&mut text, out, &e.faults);
    put_outcomes(&mut text, out, &e.outcomes);
    text.finish(out)
}

/// Appends the first line: `explored N all`, or `explored N more` if not all configurations were met.
fn put_extent<O: Sink>(text: &mut TextBuffer, out: &mut O, count: u64, all: bool)
    ensures { Appends O.taken O.faults out.old out.new text.old text.new
        (codes "explored " ++ decimal count ++ extent_text all) }
{
    let extent = if all { " all\n" } else { " more\n" };
    text.put_number(out, "explored ", count, extent);
}

// 1. Words.

/// Appends the lines of groups.
fn put_groups<O: Sink>(text: &mut TextBuffer, out: &mut O, groups: &[GroupFound])
    ensures { Appends O.taken O.faults out.old out.new text.old text.new (flat_map group_found_lines groups.now) }
{
    for group in groups {
        put_group(text, out, group);
    }
}

/// Appends the lines of a group: its number, and the words that it touched and wrote.
fn put_group<O: Sink>(text: &mut TextBuffer, out: &mut O, group: &GroupFound)
    ensures { Appends O.taken O.faults out.old out.new text.old text.new (group_found_lines group.now) }
{
    text.put_number(out, "group ", group.group as u64, "\n");
    put_spans(text, out, "touched ", &group.touched);
    put_spans(text, out, "wrote ", &group.wrote);
}

// 2. Faults.

/// Appends the lines of faults.
fn put_faults<O: Sink>(text: &mut TextBuffer, out: &mut O, faults: &[FaultFound])
    ensures { Appends O.taken O.faults out.old out.new text.old text.new (flat_map fault_found_lines faults.now) }
{
    for fault in faults {
        put_fault(text, out, fault);
    }
}

/// Appends the lines of a fault: `fault SLOT NUMBER`, and the first schedule that meets it.
fn put_fault<O: Sink>(text: &mut TextBuffer, out: &mut O, fault: &FaultFound)
    ensures { Appends O.taken O.faults out.old out.new text.old text.new (fault_found_lines fault.now) }
{
    text.put(
        out,
        &[
            Text("fault "),
            Decimal(fault.slot as u64),
            Text(" "),
            Decimal(fault.cause as u64),
            Text("\n"),
        ],
    );
    put_by(text, out, &fault.by);
}

// 3. Outcomes.

/// Appends the lines of outcomes.
fn put_outcomes<O: Sink>(text: &mut TextBuffer, out: &mut O, outcomes: &[OutcomeFound])
    ensures { Appends O.taken O.faults out.old out.new text.old text.new (flat_map outcome_found_lines outcomes.now) }
{
    for outcome in outcomes {
        put_outcome(text, out, outcome);
    }
}

/// Appends the lines of an outcome: how many end so, how the slots stand, the outputs, and the first schedule.
fn put_outcome<O: Sink>(text: &mut TextBuffer, out: &mut O, outcome: &OutcomeFound)
    ensures { Appends O.taken O.faults out.old out.new text.old text.new (outcome_found_lines outcome.now) }
{
    put_ending(text, out, outcome.count, outcome.ending);
    put_slots(text, out, &outcome.slots);
    put_outputs(text, out, &outcome.outputs);
    put_by(text, out, &outcome.by);
}

/// Appends the first line of an outcome: `outcome N`, and its kind.
fn put_ending<O: Sink>(text: &mut TextBuffer, out: &mut O, count: u64, ending: Ending)
    ensures { Appends O.taken O.faults out.old out.new text.old text.new
        (codes "outcome " ++ decimal count ++ ending_text ending) }
{
    let end = match ending {
        Ending::Ended => " ended\n",
        Ending::Stuck => " stuck\n",
        Ending::Endless => " endless\n",
    };
    text.put_number(out, "outcome ", count, end);
}

/// Appends the lines of slots with how they stand.
fn put_slots<O: Sink>(text: &mut TextBuffer, out: &mut O, slots: &[(u8, Standing)])
    ensures { Appends O.taken O.faults out.old out.new text.old text.new (flat_map slot_found_line slots.now) }
{
    for (slot, standing) in slots {
        put_slot_line(text, out, *slot, *standing);
    }
}

/// Appends the line of a slot: `slot S`, and how it stands.
fn put_slot_line<O: Sink>(text: &mut TextBuffer, out: &mut O, slot: u8, standing: Standing)
    ensures { Appends O.taken O.faults out.old out.new text.old text.new (slot_found_line (slot, standing)) }
{
    text.put_number(out, "slot ", slot as u64, " ");
    put_standing(text, out, standing);
    text.put(out, &[Text("\n")]);
}

/// Appends how a slot stands: `busy`, or its state.
fn put_standing<O: Sink>(text: &mut TextBuffer, out: &mut O, standing: Standing)
    ensures { Appends O.taken O.faults out.old out.new text.old text.new (standing_text standing) }
{
    match standing {
        Standing::Busy => text.put(out, &[Text("busy")]),
        Standing::In(state) => put_state(text, out, state),
    }
}

/// Appends the lines of the groups' outputs.
fn put_outputs<O: Sink>(text: &mut TextBuffer, out: &mut O, outputs: &[Output])
    ensures { Appends O.taken O.faults out.old out.new text.old text.new (flat_map output_text outputs.now) }
{
    for output in outputs {
        put_output_text(text, out, output);
    }
}

/// Appends the lines of a group's output: `group G output N`, and the bytes.
fn put_output_text<O: Sink>(text: &mut TextBuffer, out: &mut O, output: &Output)
    ensures { Appends O.taken O.faults out.old out.new text.old text.new (output_text output.now) }
{
    let bytes = output.bytes.as_slice();
    text.put(
        out,
        &[
            Text("group "),
            Decimal(output.group as u64),
            Text(" output "),
            Decimal(bytes.len() as u64),
            Text("\n"),
        ],
    );
    put_output(text, out, bytes);
}

// 4. Schedules.

/// Appends the line of a schedule.
#[tactic(auto, unfolding(crate::specs::Texts::by_line))]
fn put_by<O: Sink>(text: &mut TextBuffer, out: &mut O, items: &[u8])
    ensures { Appends O.taken O.faults out.old out.new text.old text.new (by_line items.now) }
{
    text.put(out, &[Text("by")]);
    put_repeats(text, out, items);
    text.put(out, &[Text("\n")]);
}

/// The count of items at the start that are this one.
fn leading(item: u8, items: &[u8]) -> usize
    ensures value { result ≡ leading_of item items.now }
    ensures within { result ≤ length items.now }
{
    for at in 0..items.len() {
        if items[at] != item {
            return at;
        }
    }
    items.len()
}

/// Appends the longest runs of equal items.
fn put_repeats<O: Sink>(text: &mut TextBuffer, out: &mut O, items: &[u8])
    ensures { Appends O.taken O.faults out.old out.new text.old text.new (flat_map repeat_text (repeats_of items.now)) }
{
    let mut at = 0;
    while at < items.len() {
        let item = items[at];
        let (_, rest) = items.split_at(at + 1);
        let more = leading(item, rest);
        put_repeat(text, out, item, more as u64 + 1);
        at += more + 1;
    }
}

/// Appends an item, and how many times it comes if it comes more than once.
fn put_repeat<O: Sink>(text: &mut TextBuffer, out: &mut O, item: u8, count: u64)
    ensures { Appends O.taken O.faults out.old out.new text.old text.new
        (repeat_text (record { item = item; count = count })) }
{
    text.put(out, &[Text(" "), Decimal(item as u64)]);
    put_count(text, out, count);
}

/// Appends `*` and the count; nothing for 1.
fn put_count<O: Sink>(text: &mut TextBuffer, out: &mut O, count: u64)
    ensures { Appends O.taken O.faults out.old out.new text.old text.new (count_text count) }
{
    if count != 1 {
        text.put(out, &[Text("*"), Decimal(count)]);
    }
}

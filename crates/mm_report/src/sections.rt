//! The section of each group: its output and its slots.

ghost use Rattle.std.specs.Prelude.{◌≡◌};
ghost use Rattle.std.specs.List.{flat_map, filter, list_any};
ghost use Rattle.mm_text.specs.Appends.{Appends};
ghost use Rattle.mm_model.specs.Lines.{slot_lines};
ghost use Rattle.mm_model.specs.Report.{is_of, group_line, section, sections};
ghost use Rattle.mm_machine.specs.Machine.{state_of};
ghost use Rattle.mm_report.specs.Groups.{member_text, group_text};

use mm_io::Sink;
use mm_machine::Machine;
use mm_mem::Memory;
use mm_model::Slot;
use mm_text::{Piece, TextBuffer, put_output, put_slot};

/// The count of groups that there can be.
const GROUPS: u8 = 64;

/// Whether a group has a slot.
fn has_slot<M: Memory>(m: &Machine<M>, group: u8) -> bool
    ensures { result ≡ list_any (is_of group) (state_of m.now).core.rows }
{
    for i in 0..m.slot_count() {
        if m.nth_slot(i).group == group {
            return true;
        }
    }
    false
}

/// Appends the first line of a group's section: `group G output N`, with the count of its output's bytes.
fn put_group<O: Sink>(text: &mut TextBuffer, out: &mut O, group: u8, count: u64)
    ensures { Appends O.taken O.faults out.old out.new text.old text.new (group_line group count) }
{
    text.put(
        out,
        &[
            Piece::Text("group "),
            Piece::Decimal(group as u64),
            Piece::Text(" output "),
            Piece::Decimal(count),
            Piece::Text("\n"),
        ],
    );
}

/// Appends the lines of a slot, if it is of the group.
fn put_member<O: Sink>(text: &mut TextBuffer, out: &mut O, slot: &Slot, group: u8)
    ensures { Appends O.taken O.faults out.old out.new text.old text.new (member_text group slot.now) }
{
    if slot.group == group {
        put_slot(text, out, slot);
    }
}

/// Appends the lines of the slots of a group.
fn put_members<M: Memory, O: Sink>(text: &mut TextBuffer, out: &mut O, m: &Machine<M>, group: u8)
    ensures { Appends O.taken O.faults out.old out.new text.old text.new
        (flat_map (λ row. slot_lines row.slot) (filter (is_of group) (state_of m.now).core.rows)) }
{
    for i in 0..m.slot_count() {
        put_member(text, out, m.nth_slot(i), group);
    }
}

/// Appends the section of a group.
fn put_section<M: Memory, O: Sink>(text: &mut TextBuffer, out: &mut O, m: &Machine<M>, group: u8)
    ensures { Appends O.taken O.faults out.old out.new text.old text.new (section (state_of m.now).core group) }
{
    let output = m.output(group);
    put_group(text, out, group, output.len() as u64);
    put_output(text, out, output);
    put_members(text, out, m, group);
}

/// Appends the section of a group, if it has a slot.
fn put_group_text<M: Memory, O: Sink>(text: &mut TextBuffer, out: &mut O, m: &Machine<M>, group: u8)
    ensures { Appends O.taken O.faults out.old out.new text.old text.new (group_text (state_of m.now).core group) }
{
    if has_slot(m, group) {
        put_section(text, out, m, group);
    }
}

/// Appends the sections of the groups that have a slot, ascending.
pub fn put_sections<M: Memory, O: Sink>(text: &mut TextBuffer, out: &mut O, m: &Machine<M>)
    ensures { Appends O.taken O.faults out.old out.new text.old text.new (sections (state_of m.now).core) }
{
    for group in 0..GROUPS {
        put_group_text(text, out, m, group);
    }
}

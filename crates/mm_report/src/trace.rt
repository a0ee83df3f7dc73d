//! The line of a cycle in a trace.

ghost use Rattle.std.specs.Prelude.{◌≡◌, ◌+◌, ◌≤◌, ◌++◌, codes, decimal, length};
ghost use Rattle.mm_io.specs.Sinks.{Writes};
ghost use Rattle.mm_text.specs.Appends.{Appends};
ghost use Rattle.mm_model.specs.Trace.{kind_text, touch_text, enter_text, turn_line, step_line};
ghost use Rattle.mm_report.specs.Outcomes.{outcome_text};

use mm_io::{Sink, WriteFault};
use mm_model::{Step, Tick};
use mm_text::{Line, Piece, TextBuffer};
use mm_word::{Access, GuardedPtr, Kind};

/// Writes the line of a cycle in a trace:
///
/// - `t S T OUTCOME` for a turn of slot S, its turn number T, then ` fetch A`, one of ` load A`, ` loadset A`,
///   ` store A`, and ` enter WORD`, each if there was one. The outcome is `did`, `blocked`, or `faulted` with the
///   number of the fault;
/// - `m S K` if the port of slot S delivered to its register K;
/// - nothing for an idle cycle.
///
/// `turn` is the count of turns that the slot has taken, with this one. After a [`WriteFault`] the sink has taken a
/// prefix of the line.
pub fn trace_line<O: Sink>(step: &Step, turn: u64, out: &mut O) -> Result<(), WriteFault>
    ensures { Writes O.taken O.faults out.old out.new (step_line turn step.now step.now.tick) result }
{
    let mut text = TextBuffer::new();
    put_step(&mut text, out, step, turn);
    text.finish(out)
}

/// Appends the line of a cycle, as [`trace_line`] writes it.
#[tactic(auto, unfolding(mm_model::specs::Trace::step_line))]
pub fn put_step<O: Sink>(text: &mut TextBuffer, out: &mut O, step: &Step, turn: u64)
    ensures { Appends O.taken O.faults out.old out.new text.old text.new (step_line turn step.now step.now.tick) }
{
    match step.tick {
        Tick::Idle => {}
        Tick::Delivered(register) => put_delivery(text, out, step.slot, register),
        Tick::Did | Tick::Blocked | Tick::Faulted(_) => put_turn(text, out, step, turn),
    }
}

/// Appends the line of a delivery: `m S R`, with its slot and its register.
fn put_delivery<O: Sink>(text: &mut TextBuffer, out: &mut O, slot: u8, register: u8)
    ensures { Appends O.taken O.faults out.old out.new text.old text.new
        (codes "m " ++ decimal slot ++ codes " " ++ decimal register ++ codes "\n") }
{
    text.put(
        out,
        &[
            Piece::Text("m "),
            Piece::Decimal(slot as u64),
            Piece::Text(" "),
            Piece::Decimal(register as u64),
            Piece::Text("\n"),
        ],
    );
}

/// Appends the line of a turn. The text is put together from its end, and given at once.
#[tactic(auto, using(mm_text::proofs::LineLengths::line_lengths))]
fn put_turn<O: Sink>(text: &mut TextBuffer, out: &mut O, step: &Step, turn: u64)
    ensures { Appends O.taken O.faults out.old out.new text.old text.new
        (turn_line turn step.now (outcome_text step.now.tick)) }
{
    let mut line = Line::new();
    line.put_byte(b'\n');
    write_entry(&mut line, step.entered);
    write_touch(&mut line, step.touched);
    write_touch(&mut line, step.fetched);
    write_outcome(&mut line, step.tick);
    line.put_byte(b' ');
    line.put_number(turn);
    line.put_byte(b' ');
    line.put_decimal(step.slot);
    line.put_text("t ");
    text.put_bytes(out, line.as_bytes());
}

/// Puts how a turn ended before the text so far: `did`, `blocked`, or `faulted` with the number of the cause.
#[inline(always)]
#[tactic(auto, using(mm_text::proofs::LineLengths::line_lengths))]
fn write_outcome(line: &mut Line, tick: Tick)
    requires { length line.old + 11 ≤ 128 }
    ensures text { line.new ≡ outcome_text tick ++ line.old }
    ensures short { length line.new ≤ length line.old + 11 }
{
    match tick {
        Tick::Did => line.put_text("did"),
        Tick::Blocked => line.put_text("blocked"),
        Tick::Faulted(cause) => {
            line.put_decimal(cause.number());
            line.put_text("faulted ");
        }
        Tick::Idle | Tick::Delivered(_) => {}
    }
}

/// Puts an access before the text so far, if there is one.
#[inline(always)]
#[tactic(auto, using(mm_text::proofs::LineLengths::line_lengths))]
fn write_touch(line: &mut Line, access: Option<Access>)
    requires { length line.old + 23 ≤ 128 }
    ensures text { line.new ≡ touch_text access ++ line.old }
    ensures short { length line.new ≤ length line.old + 23 }
{
    if let Some(access) = access {
        line.put_hex(access.addr(), 14);
        write_kind(line, access.kind());
    }
}

/// Puts the name of a kind of access before the text so far, with a blank on either side.
#[inline(always)]
#[tactic(auto, using(mm_text::proofs::LineLengths::line_lengths))]
fn write_kind(line: &mut Line, kind: Kind)
    requires { length line.old + 9 ≤ 128 }
    ensures text { line.new ≡ kind_text kind ++ line.old }
    ensures short { length line.new ≤ length line.old + 9 }
{
    match kind {
        Kind::Fetch => line.put_text(" fetch "),
        Kind::Load => line.put_text(" load "),
        Kind::LoadSet => line.put_text(" loadset "),
        Kind::Store => line.put_text(" store "),
    }
}

/// Puts the enter pointer that was entered before the text so far, if one was.
#[inline(always)]
#[tactic(auto, using(mm_text::proofs::LineLengths::line_lengths))]
fn write_entry(line: &mut Line, entered: Option<GuardedPtr>)
    requires { length line.old + 24 ≤ 128 }
    ensures text { line.new ≡ enter_text entered ++ line.old }
    ensures short { length line.new ≤ length line.old + 24 }
{
    if let Some(pointer) = entered {
        line.put_hex(pointer.bits(), 16);
        line.put_text(" enter p");
    }
}

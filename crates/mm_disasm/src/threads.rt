//! The lines of threads and their registers.

ghost use Rattle.std.specs.Prelude.{◌≡◌, length, true};
ghost use Rattle.std.specs.List.{flat_map, list_all};
ghost use Rattle.mm_object.specs.Objects.{is_target, is_thread, is_value};
ghost use Rattle.mm_text.specs.Appends.{Appends};
ghost use Rattle.mm_disasm.specs.Canonical.{handler_text, is_zero, register_line, registers_text, thread_line};
ghost use Rattle.mm_disasm.specs.Canonical.{thread_text, value_text};

use crate::words::put_pointer;
use mm_io::Sink;
use mm_object::{Object, Thread, Value};
use mm_text::{Piece, TextBuffer};

/// Appends the lines of threads, each with the lines of its registers.
pub(crate) fn put_threads<O: Sink>(
    text: &mut TextBuffer,
    out: &mut O,
    o: &Object,
    threads: &[Thread],
)
    requires { list_all (is_thread o.now.segments (length o.now.externals)) threads.now ≡ true }
    ensures { Appends O.taken O.faults out.old out.new text.old text.new (flat_map (thread_text o.now) threads.now) }
{
    for thread in threads {
        put_thread(text, out, o, thread);
    }
}

/// Appends the lines of a thread: its own, and those of its registers.
#[tactic(auto, unfolding(crate::specs::Canonical::thread_text))]
fn put_thread<O: Sink>(text: &mut TextBuffer, out: &mut O, o: &Object, thread: &Thread)
    requires { is_thread o.now.segments (length o.now.externals) thread.now ≡ true }
    ensures { Appends O.taken O.faults out.old out.new text.old text.new (thread_text o.now thread.now) }
{
    put_thread_line(text, out, o, thread);
    put_registers(text, out, o, &thread.regs);
}

/// Appends the line of a thread: `.thread`, its slot, its group, its handler, and its instruction pointer.
fn put_thread_line<O: Sink>(text: &mut TextBuffer, out: &mut O, o: &Object, thread: &Thread)
    requires { is_target o.now.segments (length o.now.externals) thread.now.target ≡ true }
    ensures { Appends O.taken O.faults out.old out.new text.old text.new (thread_line o.now thread.now) }
{
    text.put(
        out,
        &[
            Piece::Text(".thread "),
            Piece::Decimal(thread.slot as u64),
            Piece::Text(" "),
            Piece::Decimal(thread.group as u64),
            Piece::Text(" "),
        ],
    );
    put_handler(text, out, thread.handler);
    text.put_piece(out, &Piece::Text(" "));
    put_pointer(text, out, o, thread.perm, thread.target);
    text.put_piece(out, &Piece::Text("\n"));
}

/// Appends the number of a handler, or `none`.
fn put_handler<O: Sink>(text: &mut TextBuffer, out: &mut O, handler: Option<u8>)
    ensures { Appends O.taken O.faults out.old out.new text.old text.new (handler_text handler) }
{
    match handler {
        None => text.put_piece(out, &Piece::Text("none")),
        Some(slot) => text.put_piece(out, &Piece::Decimal(slot as u64)),
    }
}

/// Appends the lines of registers; integer 0 has no line.
fn put_registers<O: Sink>(text: &mut TextBuffer, out: &mut O, o: &Object, values: &[Value])
    requires { list_all (is_value o.now.segments (length o.now.externals)) values.now ≡ true }
    ensures { Appends O.taken O.faults out.old out.new text.old text.new (registers_text o.now 0 values.now) }
{
    for (k, value) in values.iter().enumerate() {
        put_register(text, out, o, k as u64, *value);
    }
}

/// Appends the line of a register: `.reg`, its number, and its value. Integer 0 has no line.
#[tactic(auto, unfolding(crate::specs::Canonical::register_line))]
fn put_register<O: Sink>(text: &mut TextBuffer, out: &mut O, o: &Object, number: u64, value: Value)
    requires { is_value o.now.segments (length o.now.externals) value ≡ true }
    ensures { Appends O.taken O.faults out.old out.new text.old text.new (register_line o.now number value) }
{
    if !is_zero(value) {
        text.put(
            out,
            &[
                Piece::Text(".reg "),
                Piece::Decimal(number),
                Piece::Text(" "),
            ],
        );
        put_value(text, out, o, value);
        text.put_piece(out, &Piece::Text("\n"));
    }
}

/// Whether a value is integer 0.
fn is_zero(value: Value) -> bool
    ensures { result ≡ is_zero value }
{
    match value {
        Value::Int(n) => n == 0,
        Value::Ptr { .. } => false,
    }
}

/// Appends a value: `int` and its 16 hexadecimal digits, or `ptr`, its permission and its target.
fn put_value<O: Sink>(text: &mut TextBuffer, out: &mut O, o: &Object, value: Value)
    requires { is_value o.now.segments (length o.now.externals) value ≡ true }
    ensures { Appends O.taken O.faults out.old out.new text.old text.new (value_text o.now value) }
{
    match value {
        Value::Int(n) => text.put(out, &[Piece::Text("int 0x"), Piece::HexWord(n)]),
        Value::Ptr { perm, target } => {
            text.put_piece(out, &Piece::Text("ptr "));
            put_pointer(text, out, o, perm, target);
        }
    }
}

//! The text of what a kernel keeps.

ghost use Rattle.std.specs.Prelude.{◌++◌, codes};
ghost use Rattle.std.specs.List.{flat_map};
ghost use Rattle.mm_word.specs.declared.word.Word.TheVariants.{Ptr};
ghost use Rattle.mm_io.specs.Sinks.{Writes};
ghost use Rattle.mm_text.specs.Appends.{Appends};
ghost use Rattle.mm_model.specs.Digits.{hex};
ghost use Rattle.mm_model.specs.Lines.{word_text};
ghost use Rattle.mm_kernel.specs.declared.form.Form.TheVariants.{Inside};
ghost use Rattle.mm_keep_text.specs.Answers.{answer_text, cell_line, form_text, leak_line, leak_text, origin_text};
ghost use Rattle.mm_keep_text.specs.Answers.{party_lines, place_text, told_text, verdict_line};

use crate::told::{Answer, Party, Told};
use mm_io::{Sink, WriteFault};
use mm_kernel::{Form, Leak, Origin};
use mm_span::put_spans;
use mm_text::Piece::{Decimal, HexAddress, Text};
use mm_text::{TextBuffer, put_word};
use mm_word::{GuardedPtr, Word};

/// Writes what a kernel keeps:
///
/// - `keeps privileged` if somebody has a pointer to privileged code, or `keeps more` if there are more threads than
///   may be found, and no more lines;
/// - else `keeps yes` if there is no leak, and `keeps no` if there is one;
/// - for each door, ascending, `door POINTER`, and then for each slot of the kernel `slot S`, both followed by
///   `reads ADDRESS COUNT` for each run of kept words that a thread from there reads, and `writes ADDRESS COUNT` for
///   each that one writes;
/// - `code ADDRESS COUNT` for each run of words that threads of the kernel fetch;
/// - `cell ADDRESS FORM` for each form that a kept word gets and does not have from the start;
/// - `leak LEAK` for each leak.
///
/// After a [`WriteFault`] the sink has taken a prefix of the text.
pub fn write_keeps<O: Sink>(answer: &Answer, out: &mut O) -> Result<(), WriteFault>
    ensures { Writes O.taken O.faults out.old out.new (answer_text answer.now) result }
{
    let mut text = TextBuffer::new();
    put_keeps(&mut text, out, answer);
    text.finish(out)
}

/// Appends what a kernel keeps, as [`write_keeps`] writes it.
pub fn put_keeps<O: Sink>(text: &mut TextBuffer, out: &mut O, answer: &Answer)
    ensures { Appends O.taken O.faults out.old out.new text.old text.new (answer_text answer.now) }
{
    match answer {
        Answer::Privileged => text.put(out, &[Text("keeps privileged\n")]),
        Answer::More => text.put(out, &[Text("keeps more\n")]),
        Answer::Found(told) => put_told(text, out, told),
    }
}

/// Appends what is told of a kernel.
fn put_told<O: Sink>(text: &mut TextBuffer, out: &mut O, told: &Told)
    ensures { Appends O.taken O.faults out.old out.new text.old text.new (told_text told.now) }
{
    put_verdict(text, out, &told.leaks);
    put_parties(text, out, &told.parties);
    put_spans(text, out, "code ", &told.code);
    put_cells(text, out, &told.cells);
    put_leaks(text, out, &told.leaks);
}

/// Appends the first line, given the leaks.
fn put_verdict<O: Sink>(text: &mut TextBuffer, out: &mut O, leaks: &[Leak])
    ensures { Appends O.taken O.faults out.old out.new text.old text.new (verdict_line leaks.now) }
{
    match leaks {
        [] => text.put(out, &[Text("keeps yes\n")]),
        [_, ..] => text.put(out, &[Text("keeps no\n")]),
    }
}

// 1. Who uses what.

/// Appends the lines of doors and slots.
fn put_parties<O: Sink>(text: &mut TextBuffer, out: &mut O, parties: &[Party])
    ensures { Appends O.taken O.faults out.old out.new text.old text.new (flat_map party_lines parties.now) }
{
    for party in parties {
        put_party(text, out, party);
    }
}

/// Appends the lines of a door or a slot, and of the words that threads from there read and write.
fn put_party<O: Sink>(text: &mut TextBuffer, out: &mut O, party: &Party)
    ensures { Appends O.taken O.faults out.old out.new text.old text.new (party_lines party.now) }
{
    put_origin(text, out, &party.origin);
    text.put(out, &[Text("\n")]);
    put_spans(text, out, "reads ", &party.reads);
    put_spans(text, out, "writes ", &party.writes);
}

/// Appends a door or a slot: `door POINTER` or `slot S`.
fn put_origin<O: Sink>(text: &mut TextBuffer, out: &mut O, origin: &Origin)
    ensures { Appends O.taken O.faults out.old out.new text.old text.new (origin_text origin.now) }
{
    match *origin {
        Origin::Door(p) => put_pointer(text, out, "door ", p),
        Origin::Slot(number) => text.put(out, &[Text("slot "), Decimal(number as u64)]),
    }
}

/// Appends a pointer after a word.
fn put_pointer<O: Sink>(text: &mut TextBuffer, out: &mut O, verb: &str, p: GuardedPtr)
    ensures { Appends O.taken O.faults out.old out.new text.old text.new (verb.now ++ word_text (Ptr p)) }
{
    text.put(out, &[Text(verb)]);
    put_word(text, out, Word::Ptr(p));
}

// 2. Forms.

/// Appends the lines of words that get a form.
fn put_cells<O: Sink>(text: &mut TextBuffer, out: &mut O, cells: &[(u64, Form)])
    ensures { Appends O.taken O.faults out.old out.new text.old text.new (flat_map cell_line cells.now) }
{
    for (word, form) in cells {
        put_cell(text, out, *word, form);
    }
}

/// Appends the line of a word that gets a form: `cell ADDRESS FORM`.
fn put_cell<O: Sink>(text: &mut TextBuffer, out: &mut O, word: u64, form: &Form)
    ensures { Appends O.taken O.faults out.old out.new text.old text.new (cell_line (word, form.now)) }
{
    put_word_form(text, out, word, form);
    text.put(out, &[Text("\n")]);
}

/// Appends a form: a word, `int`, `ptr P` with the code of a permission, `any`, or `in P A L` with the code of a
/// permission, a base and the logarithm of a length.
fn put_form<O: Sink>(text: &mut TextBuffer, out: &mut O, form: &Form)
    ensures { Appends O.taken O.faults out.old out.new text.old text.new (form_text form.now) }
{
    match *form {
        Form::Number(bits) => put_word(text, out, Word::Int(bits)),
        Form::Pointer(p) => put_word(text, out, Word::Ptr(p)),
        Form::Integer => text.put(out, &[Text("int")]),
        Form::Open(perm) => text.put(out, &[Text("ptr "), Decimal(perm.code() as u64)]),
        Form::Any => text.put(out, &[Text("any")]),
        Form::Inside(p) => put_inside(text, out, p),
    }
}

/// Appends the form of any pointer whose segment lies in that of `p`: `in P A L`.
fn put_inside<O: Sink>(text: &mut TextBuffer, out: &mut O, p: GuardedPtr)
    ensures { Appends O.taken O.faults out.old out.new text.old text.new (form_text (Inside p)) }
{
    text.put(
        out,
        &[
            Text("in "),
            Decimal(p.perm().code() as u64),
            Text(" "),
            HexAddress(p.addr()),
            Text(" "),
            Decimal(p.log() as u64),
        ],
    );
}

// 3. Leaks.

/// Appends the lines of leaks.
fn put_leaks<O: Sink>(text: &mut TextBuffer, out: &mut O, leaks: &[Leak])
    ensures { Appends O.taken O.faults out.old out.new text.old text.new (flat_map leak_line leaks.now) }
{
    for leak in leaks {
        put_leak_line(text, out, leak);
    }
}

/// Appends the line of a leak: `leak LEAK`.
fn put_leak_line<O: Sink>(text: &mut TextBuffer, out: &mut O, leak: &Leak)
    ensures { Appends O.taken O.faults out.old out.new text.old text.new (leak_line leak.now) }
{
    text.put(out, &[Text("leak ")]);
    put_leak(text, out, leak);
    text.put(out, &[Text("\n")]);
}

/// Appends a leak: its kind, and then its pointer, its word, its slot, or the address of the instruction, the register
/// and the form.
fn put_leak<O: Sink>(text: &mut TextBuffer, out: &mut O, leak: &Leak)
    ensures { Appends O.taken O.faults out.old out.new text.old text.new (leak_text leak.now) }
{
    match *leak {
        Leak::Across { pointer } => put_pointer(text, out, "across ", pointer),
        Leak::Cell { word, form } => put_word_form(text, out, word, &form),
        Leak::Code { word } => text.put(out, &[Text("code "), HexAddress(word)]),
        Leak::Jump { at, reg, form } => put_place(text, out, "jump ", at, reg, &form),
        Leak::Enter { at, reg, form } => put_place(text, out, "enter ", at, reg, &form),
        Leak::Store { at, reg, form } => put_place(text, out, "store ", at, reg, &form),
        Leak::Give { at, reg, form } => put_place(text, out, "give ", at, reg, &form),
        Leak::FaultPointer { at } => text.put(out, &[Text("fault "), HexAddress(at), Text(" ip")]),
        Leak::Fault { at, reg, form } => put_place(text, out, "fault ", at, reg, &form),
        Leak::Loose { slot } => text.put(out, &[Text("loose "), Decimal(slot as u64)]),
    }
}

/// Appends a word with a form: `cell ADDRESS FORM`.
fn put_word_form<O: Sink>(text: &mut TextBuffer, out: &mut O, word: u64, form: &Form)
    ensures { Appends O.taken O.faults out.old out.new text.old text.new
        (codes "cell " ++ hex 14 word ++ codes " " ++ form_text form.now) }
{
    text.put(out, &[Text("cell "), HexAddress(word), Text(" ")]);
    put_form(text, out, form);
}

/// Appends what an instruction does, its address, a register, and the register's form.
fn put_place<O: Sink>(text: &mut TextBuffer, out: &mut O, verb: &str, at: u64, reg: u8, form: &Form)
    ensures { Appends O.taken O.faults out.old out.new text.old text.new (place_text verb.now at reg form.now) }
{
    text.put(
        out,
        &[
            Text(verb),
            HexAddress(at),
            Text(" "),
            Decimal(reg as u64),
            Text(" "),
        ],
    );
    put_form(text, out, form);
}

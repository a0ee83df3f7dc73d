//! The holders of pointers whose segments meet a range.

ghost use Rattle.std.specs.List.{flat_map};
ghost use Rattle.mm_io.specs.Sinks.{Writes};
ghost use Rattle.mm_text.specs.Appends.{Appends};
ghost use Rattle.mm_seg.specs.Segments.{IsSegment};
ghost use Rattle.mm_sweep.specs.Holders.{holder_line, register_holders, slot_holders, page_holders, holders};
ghost use Rattle.mm_sweep.specs.HolderTexts.{holder_text};

use crate::meeting::Range;
use mm_image::Image;
use mm_io::{Sink, WriteFault};
use mm_model::{Page, Slot};
use mm_text::{Piece, TextBuffer, put_word};
use mm_word::Word;

/// A place that holds a pointer.
#[derive(Clone, Copy)]
pub enum Holder {
    /// The instruction pointer of a slot.
    Ip { slot: u8 },
    /// A register of a slot.
    Register { slot: u8, register: u8 },
    /// The cell at an address.
    Cell { address: u64 },
}

/// Writes the holders of pointers whose segments meet a range of `2^log` bytes from `base` on. `base` is a multiple of
/// the length, which is at least a word. For each slot there is a line `ip S WORD` if its instruction pointer meets the
/// range, and `reg S K WORD` for each register that does; then `cell A WORD` for each cell; all ascending. After a
/// [`WriteFault`] the sink has taken a prefix of the text.
pub fn holders<O: Sink>(img: &Image, base: u64, log: u8, out: &mut O) -> Result<(), WriteFault>
    requires { IsSegment (base, log) }
    ensures { Writes O.taken O.faults out.old out.new (holders (base, log) img.now) result }
{
    let range = Range::new(base, log);
    let mut text = TextBuffer::new();
    put_slots(&mut text, out, &range, img.slots());
    put_pages(&mut text, out, &range, img.pages());
    text.finish(out)
}

/// Appends the lines of slots.
fn put_slots<O: Sink>(text: &mut TextBuffer, out: &mut O, range: &Range, slots: &[Slot])
    ensures { Appends O.taken O.faults out.old out.new text.old text.new (flat_map (slot_holders range.now) slots.now) }
{
    for slot in slots {
        put_slot(text, out, range, slot);
    }
}

/// Appends the lines of a slot: its instruction pointer, and then its registers.
fn put_slot<O: Sink>(text: &mut TextBuffer, out: &mut O, range: &Range, slot: &Slot)
    ensures { Appends O.taken O.faults out.old out.new text.old text.new (slot_holders range.now slot.now) }
{
    let holder = Holder::Ip { slot: slot.number };
    put_holder(text, out, range, holder, Word::Ptr(slot.ip));
    put_registers(text, out, range, slot);
}

/// Appends the lines of a slot's registers.
fn put_registers<O: Sink>(text: &mut TextBuffer, out: &mut O, range: &Range, slot: &Slot)
    ensures { Appends O.taken O.faults out.old out.new text.old text.new
        (register_holders range.now slot.now.number 0 slot.now.regs) }
{
    for (number, word) in slot.regs.iter().enumerate() {
        let holder = Holder::Register {
            slot: slot.number,
            register: number as u8,
        };
        put_holder(text, out, range, holder, *word);
    }
}

/// Appends the lines of pages.
fn put_pages<O: Sink>(text: &mut TextBuffer, out: &mut O, range: &Range, pages: &[Page])
    ensures { Appends O.taken O.faults out.old out.new text.old text.new (flat_map (page_holders range.now) pages.now) }
{
    for page in pages {
        put_cells(text, out, range, page);
    }
}

/// Appends the lines of a page's cells.
fn put_cells<O: Sink>(text: &mut TextBuffer, out: &mut O, range: &Range, page: &Page)
    ensures { Appends O.taken O.faults out.old out.new text.old text.new (page_holders range.now page.now) }
{
    let start = page.number() * 4096;
    for (index, cell) in page.cells().iter().enumerate() {
        let holder = Holder::Cell {
            address: start + 8 * index as u64,
        };
        put_holder(text, out, range, holder, cell.word);
    }
}

/// Appends the line of a place, if it holds a pointer whose segment meets the range.
fn put_holder<O: Sink>(
    text: &mut TextBuffer,
    out: &mut O,
    range: &Range,
    holder: Holder,
    word: Word,
)
    ensures { Appends O.taken O.faults out.old out.new text.old text.new
        (holder_line range.now (holder_text holder) word) }
{
    if range.meets_word(&word) {
        put_holder_text(text, out, holder);
        text.put_piece(out, &Piece::Text(" "));
        put_word(text, out, word);
        text.put_piece(out, &Piece::Text("\n"));
    }
}

/// Appends the beginning of the line of a place.
fn put_holder_text<O: Sink>(text: &mut TextBuffer, out: &mut O, holder: Holder)
    ensures { Appends O.taken O.faults out.old out.new text.old text.new (holder_text holder) }
{
    match holder {
        Holder::Ip { slot } => text.put(out, &[Piece::Text("ip "), Piece::Decimal(slot as u64)]),
        Holder::Register { slot, register } => text.put(
            out,
            &[
                Piece::Text("reg "),
                Piece::Decimal(slot as u64),
                Piece::Text(" "),
                Piece::Decimal(register as u64),
            ],
        ),
        Holder::Cell { address } => {
            text.put(out, &[Piece::Text("cell "), Piece::HexAddress(address)]);
        }
    }
}

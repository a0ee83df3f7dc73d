//! The lines of a segment's words.

ghost use Rattle.std.specs.Prelude.{◌≡◌, ◌≤◌, length, true};
ghost use Rattle.mm_object.specs.Lookups.{reloc_at};
ghost use Rattle.mm_object.specs.Objects.{IsObject, is_target};
ghost use Rattle.mm_text.specs.Appends.{Appends};
ghost use Rattle.mm_disasm.specs.Canonical.{mark_text, pointer_text, word_by, word_line, words_text};

use crate::instructions::put_integer;
use crate::names::perm_name;
use crate::numbers::put_short_hex;
use mm_io::Sink;
use mm_object::{Item, Object, Target};
use mm_text::{Piece, TextBuffer};
use mm_word::Perm;

/// Appends a permission and a target of the object: its name, and the addend.
#[tactic(auto, unfolding(crate::specs::Canonical::pointer_text))]
pub(crate) fn put_pointer<O: Sink>(
    text: &mut TextBuffer,
    out: &mut O,
    o: &Object,
    perm: Perm,
    target: Target,
)
    requires { is_target o.now.segments (length o.now.externals) target ≡ true }
    ensures { Appends O.taken O.faults out.old out.new text.old text.new (pointer_text o.now perm target) }
{
    text.put(out, &[Piece::Text(perm_name(perm)), Piece::Text(" ")]);
    text.put_bytes(out, o.target_name(target).bytes());
    text.put_piece(out, &Piece::Text("+"));
    put_short_hex(text, out, target.addend);
}

/// Appends the lines of a segment's words.
pub(crate) fn put_words<O: Sink>(
    text: &mut TextBuffer,
    out: &mut O,
    o: &Object,
    segment: u16,
    items: &[Item],
)
    requires object { IsObject o.now }
    requires few { length items.now ≤ 131072 }
    ensures { Appends O.taken O.faults out.old out.new text.old text.new (words_text o.now segment 0 items.now) }
{
    for (k, item) in items.iter().enumerate() {
        put_word(text, out, o, segment, k as u32, *item);
    }
}

/// Appends the line of a word.
#[tactic(auto, unfolding(crate::specs::Canonical::word_line))]
fn put_word<O: Sink>(
    text: &mut TextBuffer,
    out: &mut O,
    o: &Object,
    segment: u16,
    word: u32,
    item: Item,
)
    requires { IsObject o.now }
    ensures { Appends O.taken O.faults out.old out.new text.old text.new (word_line o.now segment word item) }
{
    put_mark(text, out, item.full);
    put_content(text, out, o, segment, word, item.bits);
    text.put_piece(out, &Piece::Text("\n"));
}

/// Appends the mark of a word whose cell is empty.
fn put_mark<O: Sink>(text: &mut TextBuffer, out: &mut O, full: bool)
    ensures { Appends O.taken O.faults out.old out.new text.old text.new (mark_text full) }
{
    if !full {
        text.put_piece(out, &Piece::Text(".empty "));
    }
}

/// Appends a word: the pointer that it becomes, or else the text of its bits.
fn put_content<O: Sink>(
    text: &mut TextBuffer,
    out: &mut O,
    o: &Object,
    segment: u16,
    word: u32,
    bits: u64,
)
    requires { IsObject o.now }
    ensures { Appends O.taken O.faults out.old out.new text.old text.new
        (word_by o.now (reloc_at o.now segment word) bits) }
{
    match o.reloc_at(segment, word) {
        Some(reloc) => {
            text.put_piece(out, &Piece::Text(".ptr "));
            put_pointer(text, out, o, reloc.perm, reloc.target);
        }
        None => put_integer(text, out, bits),
    }
}

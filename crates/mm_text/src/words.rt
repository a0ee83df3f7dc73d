//! The text of a word.

ghost use Rattle.mm_text.specs.Appends.{Appends};
ghost use Rattle.mm_model.specs.Lines.{word_text};

use crate::piece::Piece;
use crate::text_buffer::TextBuffer;
use mm_io::Sink;
use mm_word::Word;

/// Appends a word: `i` for an integer or `p` for a pointer, and its 64 bits in 16 lower-case
/// hexadecimal digits.
pub fn put_word<O: Sink>(text: &mut TextBuffer, out: &mut O, word: Word)
    ensures { Appends O.taken O.faults out.old out.new text.old text.new (word_text word) }
{
    match word {
        Word::Int(bits) => text.put(out, &[Piece::Text("i"), Piece::HexWord(bits)]),
        Word::Ptr(_) => text.put(out, &[Piece::Text("p"), Piece::HexWord(word.bits())]),
    }
}

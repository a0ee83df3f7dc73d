//! The line of a cell.

ghost use Rattle.std.specs.Prelude.{◌++◌};
ghost use Rattle.mm_text.specs.Appends.{Appends};
ghost use Rattle.mm_model.specs.Lines.{cell_line, full_text, newline};

use crate::piece::Piece;
use crate::text_buffer::TextBuffer;
use crate::words::put_word;
use mm_io::Sink;
use mm_word::Cell;

/// Appends the line of a cell: `cell A WORD full` or `cell A WORD empty`.
pub fn put_cell<O: Sink>(text: &mut TextBuffer, out: &mut O, word: u64, cell: &Cell)
    ensures { Appends O.taken O.faults out.old out.new text.old text.new (cell_line word cell.now) }
{
    text.put(
        out,
        &[
            Piece::Text("cell "),
            Piece::HexAddress(word),
            Piece::Text(" "),
        ],
    );
    put_word(text, out, cell.word);
    put_bit(text, out, cell.full);
}

/// Appends a cell's synchronisation bit, which ends its line.
fn put_bit<O: Sink>(text: &mut TextBuffer, out: &mut O, full: bool)
    ensures { Appends O.taken O.faults out.old out.new text.old text.new (full_text full ++ newline) }
{
    text.put_piece(out, &Piece::Text(if full { " full\n" } else { " empty\n" }));
}

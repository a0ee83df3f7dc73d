//! The line of the counts of a memory.

ghost use Rattle.mm_text.specs.Appends.{Appends};
ghost use Rattle.mm_model.specs.Report.{count_line};

use mm_io::Sink;
use mm_model::Counts;
use mm_text::{Piece, TextBuffer};

/// Appends the line of the counts of a memory, if it counts.
pub fn put_counts<O: Sink>(text: &mut TextBuffer, out: &mut O, counts: Option<Counts>)
    ensures { Appends O.taken O.faults out.old out.new text.old text.new (count_line counts) }
{
    let Some(counts) = counts else {
        return;
    };
    text.put(
        out,
        &[
            Piece::Text("counts hits "),
            Piece::Decimal(counts.hits),
            Piece::Text(" misses "),
            Piece::Decimal(counts.misses),
            Piece::Text(" writebacks "),
            Piece::Decimal(counts.writebacks),
            Piece::Text(" tlb_hits "),
            Piece::Decimal(counts.tlb_hits),
            Piece::Text(" tlb_misses "),
            Piece::Decimal(counts.tlb_misses),
            Piece::Text(" reads "),
            Piece::Decimal(counts.reads),
            Piece::Text(" writes "),
            Piece::Decimal(counts.writes),
            Piece::Text("\n"),
        ],
    );
}

//! The lines of the cells that groups can touch, as one text.
ghost use Rattle.mm_laws.specs.CellLines.{CellLinesAreOne, CellLinesAreSome, CellLinesAreSame, CellLinesAreWritten};

/// At most one text has the lines of the changed cells that groups can touch, and it is impossible that there is none.
/// Two runs with the same items of the groups have the same text. Its lines are lines of the report.
pub fn cell_lines_are_texts()
    ensures one { CellLinesAreOne }
    ensures some { CellLinesAreSome }
    ensures same { CellLinesAreSame }
    ensures written { CellLinesAreWritten }
{}

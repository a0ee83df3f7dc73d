//! What holds of lines that lie over a memory.
//!
//! These functions do nothing when they run: the contract of each is the law.
ghost use Rattle.mm_cache.specs.Laws.{ReadsAreOver, WritesAreOver, FillsAreOver, CleanLinesGo, LinesAreWrittenBack};
ghost use Rattle.mm_cache.specs.Laws.{PagesAreOver, EmptyLinesAreOver};

/// A word is read in the line that has its block, else in the memory. A write in its line writes the word.
pub fn cells_are_over()
    ensures reads { ReadsAreOver }
    ensures writes { WritesAreOver }
{}

/// Lines come and go without a change of what is read: when a block is filled, when a clean one is dropped, and when
/// one is written back.
pub fn lines_come_and_go()
    ensures none { EmptyLinesAreOver }
    ensures fills { FillsAreOver }
    ensures clean { CleanLinesGo }
    ensures back { LinesAreWrittenBack }
{}

/// A page that is mapped, or removed with its lines, is mapped or removed in the memory that is read through the lines.
pub fn pages_are_over()
    ensures { PagesAreOver }
{}

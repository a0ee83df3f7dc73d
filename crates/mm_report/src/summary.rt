//! The report of a machine against its image.

ghost use Rattle.std.specs.Prelude.{List, Option};
ghost use Rattle.mm_io.specs.Sinks.{Writes};
ghost use Rattle.mm_model.specs.declared.counts.Counts.{Counts};
ghost use Rattle.mm_model.specs.Uses.{Use};
ghost use Rattle.mm_model.specs.Report.{report as report_of};
ghost use Rattle.mm_machine.specs.Machine.{state_of, StandsTo};

use crate::cells::put_cells;
use crate::counts::put_counts;
use crate::page_changes::put_pages;
use crate::sections::put_sections;
use mm_image::Image;
use mm_io::{Sink, WriteFault};
use mm_machine::Machine;
use mm_mem::Inspect;
use mm_text::{TextBuffer, put_cycles};

/// Writes the report of a machine against an image: the total of cycles; for each group that has a slot its output and
/// its slots; the pages that were mapped or removed; the cells that changed; and the counts of the memory, if it
/// counts. After a [`WriteFault`] the sink has taken a prefix of the report.
pub fn report<M: Inspect, O: Sink>(
    m: &Machine<M>,
    img: &Image,
    out: &mut O,
) -> Result<(), WriteFault>

    // For every machine, all of the text except the line of counts, and when a `WriteFault` comes.
    ensures text { (counts : Option Counts)
        × Writes O.taken O.faults out.old out.new (report_of (state_of m.now) img.now counts) result }

    // The line of counts.
    ensures counts { (us : List Use) → StandsTo m.now us
        → Writes O.taken O.faults out.old out.new (report_of (state_of m.now) img.now (M.tells us)) result }
{
    let mem = m.memory();
    let pages = img.pages();
    let mut text = TextBuffer::new();
    put_cycles(&mut text, out, m.cycles());
    put_sections(&mut text, out, m);
    put_pages(&mut text, out, mem, pages);
    put_cells(&mut text, out, mem, pages);
    put_counts(&mut text, out, mem.counts());
    text.finish(out)
}

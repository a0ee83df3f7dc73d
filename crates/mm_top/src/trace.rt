//! `trace`: the line of each cycle of an image, and then the report.

ghost use Rattle.mm_load.specs.Files.{reading};
ghost use Rattle.mm_cli.specs.Arguments.{HasArguments, row};
ghost use Rattle.mm_top.specs.Commands.{Yields};
ghost use Rattle.mm_top.specs.Answers.{CommandEnds, writing};

use crate::detail::{TraceDetail, write_detail};
use crate::plan::load_plan;
use mm_cli::{Command, Word};
use mm_io::{Files, Sink};
use mm_load::CommandError;
use mm_mem::Boot;
use std::alloc::Global;

/// `trace IMAGE CYCLES [SCHEDULE]`
pub fn trace<M: Boot, F: Files, O: Sink>(
    alloc: Global,
    words: &[Word<'_>],
    files: &mut F,
    out: &mut O,
) -> Result<(), CommandError>
    requires { HasArguments Command.Trace words.now }
    ensures { CommandEnds (reading F.held F.faults F.asked files.old files.new)
        (writing O.taken O.faults out.old out.new) (Yields M.tells) (row Command.Trace words.now) result }
{
    let plan = load_plan(alloc, words, files)?;
    write_detail::<M, O>(alloc, &plan, TraceDetail::Turn, out)
}

//! `run`: the report of an image's run.

ghost use Rattle.std.specs.Prelude.{◌≡◌, ◌≤◌};
ghost use Rattle.mm_model.specs.Limits.{cycle_limit};
ghost use Rattle.mm_load.specs.Files.{reading};
ghost use Rattle.mm_cli.specs.Arguments.{HasArguments, row};
ghost use Rattle.mm_top.specs.Plans.{items_planned};
ghost use Rattle.mm_top.specs.Commands.{Yields};
ghost use Rattle.mm_model.specs.Report.{report_after};
ghost use Rattle.mm_top.specs.Answers.{CommandEnds, EndsWith, writing};

use crate::boot::boot;
use crate::cycles::issue;
use crate::plan::{Plan, load_plan};
use mm_cli::{Command, Word};
use mm_io::{Files, Sink};
use mm_load::{CommandError, ended};
use mm_machine::Machine;
use mm_mem::Boot;
use mm_report::report;
use std::alloc::Global;

/// `run IMAGE CYCLES [SCHEDULE]`
pub fn run<M: Boot, F: Files, O: Sink>(
    alloc: Global,
    words: &[Word<'_>],
    files: &mut F,
    out: &mut O,
) -> Result<(), CommandError>
    requires { HasArguments Command.Run words.now }
    ensures { CommandEnds (reading F.held F.faults F.asked files.old files.new)
        (writing O.taken O.faults out.old out.new) (Yields M.tells) (row Command.Run words.now) result }
{
    let plan = load_plan(alloc, words, files)?;
    write_run::<M, O>(alloc, &plan, out)
}

/// Writes the report of a plan's run.
fn write_run<M: Boot, O: Sink>(alloc: Global, plan: &Plan, out: &mut O) -> Result<(), CommandError>
    requires { plan.now.cycles ≤ cycle_limit }
    ensures { EndsWith (writing O.taken O.faults out.old out.new)
        (λ text. text ≡ report_after M.tells plan.now.image (items_planned plan.now)) result }
{
    let mut machine: Machine<M> = boot(alloc, &plan.image)?;
    issue(&mut machine, &plan.order, None, plan.cycles);
    ended(report(&machine, &plan.image, out))
}

//! `save`: the checkpoint of an image's run.

ghost use Rattle.std.specs.Prelude.{◌≡◌, ◌≤◌};
ghost use Rattle.mm_model.specs.Limits.{cycle_limit};
ghost use Rattle.mm_load.specs.Files.{reading};
ghost use Rattle.mm_cli.specs.Arguments.{HasArguments, row};
ghost use Rattle.mm_load.specs.Kinds.{values_of};
ghost use Rattle.mm_top.specs.Saving.{last_issued, saved_after};
ghost use Rattle.mm_top.specs.Plans.{items_planned};
ghost use Rattle.mm_top.specs.Commands.{Yields};
ghost use Rattle.mm_top.specs.Answers.{CommandEnds, EndsWith, writing};

use crate::boot::boot;
use crate::cycles::issue;
use crate::plan::{Plan, load_plan};
use mm_cli::{Command, Word};
use mm_io::{Files, Sink, write_all};
use mm_load::CommandError;
use mm_machine::Machine;
use mm_mem::Boot;
use std::alloc::Global;

/// `save IMAGE CYCLES [SCHEDULE]`
pub fn save<M: Boot, F: Files, O: Sink>(
    alloc: Global,
    words: &[Word<'_>],
    files: &mut F,
    out: &mut O,
) -> Result<(), CommandError>
    requires { HasArguments Command.Save words.now }
    ensures { CommandEnds (reading F.held F.faults F.asked files.old files.new)
        (writing O.taken O.faults out.old out.new) (Yields M.tells) (row Command.Save words.now) result }
{
    let plan = load_plan(alloc, words, files)?;
    write_saved::<M, O>(alloc, &plan, out)
}

/// Writes the checkpoint of a plan's run.
fn write_saved<M: Boot, O: Sink>(
    alloc: Global,
    plan: &Plan,
    out: &mut O,
) -> Result<(), CommandError>
    requires { plan.now.cycles ≤ cycle_limit }
    ensures { let items = items_planned plan.now in
        EndsWith (writing O.taken O.faults out.old out.new)
        (λ text. text ≡ saved_after plan.now.image items (last_issued (values_of plan.now.order) items)) result }
{
    let mut machine: Machine<M> = boot(alloc, &plan.image)?;
    let last = issue(&mut machine, &plan.order, None, plan.cycles);
    let snapshot = machine.snapshot(alloc)?;
    let bytes = mm_save::write(alloc, &plan.image, &snapshot, last)?;
    write_all(out, bytes.as_slice())?;
    Ok(())
}

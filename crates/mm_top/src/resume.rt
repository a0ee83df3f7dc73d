//! `continue`: the report of an image's run that goes on from a checkpoint.

ghost use Rattle.std.specs.Prelude.{◌≤◌};
ghost use Rattle.mm_model.specs.Limits.{cycle_limit};
ghost use Rattle.mm_checkpoint.specs.Checkpoints.{IsCheckpoint, saved_of};
ghost use Rattle.mm_load.specs.Files.{reading};
ghost use Rattle.mm_cli.specs.Arguments.{HasArguments, row};
ghost use Rattle.mm_load.specs.Kinds.{values_of};
ghost use Rattle.mm_top.specs.Saving.{Continues};
ghost use Rattle.mm_top.specs.Commands.{Yields};
ghost use Rattle.mm_top.specs.Answers.{CommandEnds, EndsWith, writing};

use crate::boot::boot;
use crate::cycles::issue;
use mm_cli::{Command, Word, name_at, number_at, optional_name_at};
use mm_image::Image;
use mm_io::{Files, Sink};
use mm_load::{Checkpoint, CommandError, ended, load_checkpoint, load_file, load_order};
use mm_machine::Machine;
use mm_mem::{Boot, Reset};
use mm_report::report;
use mm_sched::Order;
use std::alloc::Global;

/// `continue IMAGE CHECKPOINT CYCLES [SCHEDULE]`
pub fn resume<M: Boot + Reset, F: Files, O: Sink>(
    alloc: Global,
    words: &[Word<'_>],
    files: &mut F,
    out: &mut O,
) -> Result<(), CommandError>
    requires { HasArguments Command.Continue words.now }
    ensures { CommandEnds (reading F.held F.faults F.asked files.old files.new)
        (writing O.taken O.faults out.old out.new) (Yields M.tells) (row Command.Continue words.now) result }
{
    let image = load_file::<Image, F>(alloc, files, name_at(words, 0), 1)?;
    let checkpoint = load_checkpoint(alloc, files, name_at(words, 1), &image)?;
    let order = load_order(alloc, files, optional_name_at(words, 3), 3)?;
    write_resumed::<M, O>(alloc, &image, &checkpoint, &order, number_at(words, 2), out)
}

/// Writes the report of an image that goes on from a checkpoint, after up to `cycles` further cycles in an order.
fn write_resumed<M: Boot + Reset, O: Sink>(
    alloc: Global,
    image: &Image,
    checkpoint: &Checkpoint,
    order: &Order,
    cycles: u64,
    out: &mut O,
) -> Result<(), CommandError>
    requires checkpoint { IsCheckpoint image.now checkpoint.now.snapshot checkpoint.now.last }
    requires few { cycles ≤ cycle_limit }
    ensures { EndsWith (writing O.taken O.faults out.old out.new)
        (Continues M.tells image.now (saved_of checkpoint.now.snapshot checkpoint.now.last) cycles
        (values_of order.now)) result }
{
    let mut machine: Machine<M> = boot(alloc, image)?;
    machine.restore(&checkpoint.snapshot);
    issue(&mut machine, order, checkpoint.last, cycles);
    ended(report(&machine, image, out))
}

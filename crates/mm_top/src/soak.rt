//! `soak`: the summary of a generated image's run.

ghost use Rattle.std.specs.Prelude.{◌≡◌, ◌≤◌, []};
ghost use Rattle.mm_model.specs.Limits.{cycle_limit};
ghost use Rattle.mm_cli.specs.Arguments.{HasArguments, row};
ghost use Rattle.mm_top.specs.Commands.{soaked, Yields};
ghost use Rattle.mm_top.specs.Answers.{EndsWith, writing};

use crate::boot::boot;
use mm_cli::{Command, Word, number_at};
use mm_gen::{image, summary};
use mm_io::Sink;
use mm_load::{CommandError, ended};
use mm_machine::Machine;
use mm_mem::Boot;
use std::alloc::Global;

/// `soak NUMBER SIZE CYCLES`
pub fn soak<M: Boot, O: Sink>(
    alloc: Global,
    words: &[Word<'_>],
    out: &mut O,
) -> Result<(), CommandError>
    requires { HasArguments Command.Soak words.now }
    ensures { EndsWith (writing O.taken O.faults out.old out.new) (Yields M.tells (row Command.Soak words.now) [])
        result }
{
    write_soaked::<M, O>(
        alloc,
        number_at(words, 0),
        number_at(words, 1) as u8,
        number_at(words, 2),
        out,
    )
}

/// Writes what the image that is generated from a number, with `size` slots, comes to after up to `cycles` cycles.
fn write_soaked<M: Boot, O: Sink>(
    alloc: Global,
    number: u64,
    size: u8,
    cycles: u64,
    out: &mut O,
) -> Result<(), CommandError>
    requires some { 1 ≤ size }
    requires few { size ≤ 16 }
    requires most { cycles ≤ cycle_limit }
    ensures { EndsWith (writing O.taken O.faults out.old out.new) (λ text. text ≡ soaked number size cycles) result }
{
    let image = image(alloc, number, size)?;
    let mut machine: Machine<M> = boot(alloc, &image)?;
    machine.round_robin(None, cycles);
    ended(summary(&machine, out))
}

//! `solo`: the report of some groups of an image, alone.

ghost use Rattle.std.specs.Prelude.{◌≡◌};
ghost use Rattle.mm_model.specs.Groups.{among};
ghost use Rattle.mm_audit.specs.Refusals.{StandAlone};
ghost use Rattle.mm_load.specs.Files.{reading};
ghost use Rattle.mm_top.specs.Groups.{GroupsRefused};
ghost use Rattle.mm_cli.specs.Arguments.{row};
ghost use Rattle.mm_top.specs.Commands.{own_report, Yields};
ghost use Rattle.mm_top.specs.Answers.{CommandEnds, Ends, writing};

use crate::boot::boot;
use crate::members::members;
use crate::stops::stop_of_extract;
use mm_audit::alone;
use mm_cli::{Command, Word, groups_at, name_at, number_at};
use mm_image::Image;
use mm_io::{Files, Sink};
use mm_load::{CommandError, ended, load_file};
use mm_machine::Machine;
use mm_mem::Boot;
use mm_report::report;
use mm_sched::{Schedule, only};
use std::alloc::Global;

/// `solo IMAGE GROUPS CYCLES SCHEDULE`
pub fn solo<M: Boot, F: Files, O: Sink>(
    alloc: Global,
    words: &[Word<'_>],
    files: &mut F,
    out: &mut O,
) -> Result<(), CommandError>
    ensures { CommandEnds (reading F.held F.faults F.asked files.old files.new)
        (writing O.taken O.faults out.old out.new) (Yields M.tells) (row Command.Solo words.now) result }
{
    let image = load_file::<Image, F>(alloc, files, name_at(words, 0), 1)?;
    let list = load_file::<Schedule, F>(alloc, files, name_at(words, 3), 2)?;
    write_solo::<M, O>(
        alloc,
        image,
        groups_at(words, 1),
        number_at(words, 2),
        &list,
        out,
    )
}

/// Writes the report of some groups of an image, alone, under their items among the first `cycles` of a list.
fn write_solo<M: Boot, O: Sink>(
    alloc: Global,
    image: Image,
    groups: &[u8],
    cycles: u64,
    list: &Schedule,
    out: &mut O,
) -> Result<(), CommandError>
    ensures { Ends (writing O.taken O.faults out.old out.new) (GroupsRefused image (among groups.now)) ⊥
        (λ text. StandAlone image (among groups.now)
        × (text ≡ own_report M.tells image list.now cycles (among groups.now))) result }
{
    let own = match alone(alloc, &image, groups) {
        Ok(own) => own,
        Err(error) => return Err(stop_of_extract(error)),
    };
    let items = only(alloc, list, cycles, members(&own).as_slice())?;
    let mut machine: Machine<M> = boot(alloc, &own)?;
    machine.follow(items.items());
    ended(report(&machine, &own, out))
}

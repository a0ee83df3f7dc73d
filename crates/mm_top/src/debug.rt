//! `debug`: a session of an image that can go back, and the replies to the lines of standard input.

ghost use Rattle.std.specs.Prelude.{◌≡◌, [], OnOk};
ghost use Rattle.std.specs.Io.KnownBytes.{IsAtEnd};
ghost use Rattle.mm_load.specs.Files.{AsksFiles, DrawnBehind, ReadsWhole, reading, drawing};
ghost use Rattle.mm_cli.specs.Table.{files_of};
ghost use Rattle.mm_cli.specs.Arguments.{row};
ghost use Rattle.mm_top.specs.Commands.{replies_to};
ghost use Rattle.mm_top.specs.Answers.{RowEnds, EndsWith, call, writing};

use crate::boot::boot;
use mm_cli::{Command, Word, name_at, optional_name_at};
use mm_debug::Session;
use mm_image::Image;
use mm_io::{Files, Sink, Source};
use mm_load::{CommandError, ended, load_file, load_input, load_order};
use mm_machine::Machine;
use mm_mem::{Boot, Reset};
use mm_save::Recorder;
use mm_sched::Order;
use std::alloc::Global;

/// `debug IMAGE [SCHEDULE]`
pub fn debug<M: Boot + Reset, F: Files, I: Source, O: Sink>(
    alloc: Global,
    words: &[Word<'_>],
    files: &mut F,
    input: &mut I,
    out: &mut O,
) -> Result<(), CommandError>
    ensures ends { RowEnds
        (call M.tells (reading F.held F.faults F.asked files.old files.new)
        (drawing I.left I.faults input.old input.new) (writing O.taken O.faults out.old out.new))
        (row Command.Debug words.now) result }
    ensures asked { AsksFiles (reading F.held F.faults F.asked files.old files.new) []
        (files_of (row Command.Debug words.now)) }
    ensures whole { OnOk result (ReadsWhole (reading F.held F.faults F.asked files.old files.new)
        (files_of (row Command.Debug words.now))) }
    ensures drawn { DrawnBehind (F.held files.old) (files_of (row Command.Debug words.now)) (input.new ≡ input.old) }
    ensures read { OnOk result (IsAtEnd (I.left input.new)) }
{
    let image = load_file::<Image, F>(alloc, files, name_at(words, 0), 1)?;
    let order = load_order(alloc, files, optional_name_at(words, 1), 2)?;
    let lines = load_input(alloc, input)?;
    write_replies::<M, O>(alloc, &image, order, &lines, out)
}

/// Writes the replies to the lines of an input, in a session of an image under an order.
fn write_replies<M: Boot + Reset, O: Sink>(
    alloc: Global,
    image: &Image,
    order: Order,
    lines: &[u8],
    out: &mut O,
) -> Result<(), CommandError>
    ensures { EndsWith (writing O.taken O.faults out.old out.new) (λ text. text ≡ replies_to image.now order lines.now)
        result }
{
    let machine: Machine<M> = boot(alloc, image)?;
    let session = Session::new(machine, order);
    let mut recorder = Recorder::new(alloc, session)?;
    ended(recorder.lines(lines, out))
}

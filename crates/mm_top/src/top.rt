//! The top call: all that the program does.

ghost use Rattle.std.specs.Prelude.{◌≡◌, ◌↔◌, ◌⊎◌, List, ℕ, Option, None, IsSome, OnOk, []};
ghost use Rattle.std.specs.Io.KnownBytes.{append_known, IsAtEnd};
ghost use Rattle.mm_io.specs.Files.{Rose};
ghost use Rattle.mm_io.specs.Sinks.{TookPart};
ghost use Rattle.mm_load.specs.declared.status.Refusal.{Refusal};
ghost use Rattle.mm_load.specs.Files.{AsksFiles, DrawnBehind, ReadsWhole, drawing, reading};
ghost use Rattle.mm_cli.specs.Words.{texts};
ghost use Rattle.mm_cli.specs.Table.{InNoRow, Matches, LeaveInput, Row, files_of, input_of};
ghost use Rattle.mm_cli.specs.Arguments.{HasArguments, row};
ghost use Rattle.mm_top.specs.Commands.{run, trace, log, explore, keeps};
ghost use Rattle.mm_load.specs.Lines.{line_of};
ghost use Rattle.mm_top.specs.Answers.{ComesTo, ReadFailed, WritesNothing, TookLine, NothingFails, HasToRefuse};
ghost use Rattle.mm_top.specs.Answers.{RefusedUnless, RowEnds, Answers, call, writing, status_of, refuse, write};
ghost use Rattle.mm_model.specs.Trace.{trace as trace_of};
ghost use Rattle.mm_kernel.specs.Segments.{Segment};
ghost use Rattle.mm_top.specs.Headline.{RunIsProved, LogIsProved, ExploreIsProved, KeepsIsProved, no_turns};

use crate::asm::asm;
use crate::debug::debug;
use crate::dis::dis;
use crate::explore::explore;
use crate::extract::extract;
use crate::generate::generate;
use crate::grants::grants;
use crate::holders::holders;
use crate::keeps::keeps;
use crate::link::link;
use crate::log::log;
use crate::migrate::migrate;
use crate::nets::run_net;
use crate::resume::resume;
use crate::run::run;
use crate::save::save;
use crate::soak::soak;
use crate::solo::solo;
use crate::sweep::sweep;
use crate::trace::trace;
use crate::why::why;
use mm_cli::{Command, Word, read_words};
use mm_io::{Files, Sink, Source};
use mm_load::{CommandError, Refusal, Status, write_line};
use mm_mem::{Boot, Reset};
use std::alloc::Global;

/// Does what the words ask, and writes the result to `out`. Writes one line to `diag` if it is not done.
///
/// `words` are the command line without the program's name. `M` is the type of memory on which each command runs an
/// image.
#[tactic(auto, using(crate::proofs::Verdicts::read_fault, crate::proofs::Verdicts::write_fault, crate::proofs::Verdicts::silent))]
pub fn mmachine<M: Boot + Reset, F: Files, I: Source, O: Sink, D: Sink>(
    alloc: Global,
    words: &[String],
    files: &mut F,
    input: &mut I,
    out: &mut O,
    diag: &mut D,
) -> Status
    // Each answer has its cause.
    ensures usage { (result ≡ Status.Usage) ↔ InNoRow (texts words.now) }
    ensures refused { (r : Refusal) → result ≡ Status.Refused r
        → ComesTo M.tells (F.held files.old) (I.left input.old) (texts words.now) (refuse r) }
    ensures read_fault { result ≡ Status.ReadFault
        → ReadFailed (reading F.held F.faults F.asked files.old files.new) (drawing I.left I.faults input.old input.new)
        (texts words.now) }
    ensures write_fault { result ≡ Status.WriteFault → Rose (O.faults out.old) (O.faults out.new) }

    // What is read: nothing if the words are in no row. Otherwise only the row's files, each once the files before it
    // were accepted; and after them standard input to its end, if the row reads it. If the command is done, each file
    // was read once, from its front to its end.
    ensures unread { result ≡ Status.Usage → files.new ≡ files.old }
    ensures asks { (row : Row) → Matches (texts words.now) row
        → AsksFiles (reading F.held F.faults F.asked files.old files.new) [] (files_of row) }
    ensures whole { result ≡ Status.Done → (row : Row) → Matches (texts words.now) row
        → ReadsWhole (reading F.held F.faults F.asked files.old files.new) (files_of row) }
    ensures undrawn { LeaveInput (texts words.now) → input.new ≡ input.old }
    ensures drawn { (row : Row) → Matches (texts words.now) row
        → DrawnBehind (F.held files.old) (files_of row) (input.new ≡ input.old) }
    ensures read { result ≡ Status.Done → (row : Row) → Matches (texts words.now) row → IsSome (input_of row)
        → IsAtEnd (I.left input.new) }

    // What is written.
    ensures done { result ≡ Status.Done → (text : List ℕ)
        × ComesTo M.tells (F.held files.old) (I.left input.old) (texts words.now) (write text)
        × (O.taken out.new ≡ append_known (O.taken out.old) text) }
    ensures part { result ≡ Status.WriteFault → (text : List ℕ)
        × ComesTo M.tells (F.held files.old) (I.left input.old) (texts words.now) (write text)
        × TookPart (O.taken out.old) (O.taken out.new) text }
    ensures nothing { WritesNothing result → O.taken out.new ≡ O.taken out.old }
    ensures line { TookLine (D.taken diag.old) (D.taken diag.new) (D.faults diag.old) (D.faults diag.new)
        (line_of result) }
    ensures silent { result ≡ Status.Done → D.taken diag.new ≡ D.taken diag.old }

    // The headline holds of each run that is done: it writes the report of its items and nothing before it.
    ensures headline { result ≡ Status.Done → (image : List ℕ) (cycles : ℕ) (schedule : Option (List ℕ))
        → Matches (texts words.now) (run image cycles schedule)
        → (written : List ℕ) × RunIsProved run no_turns M.tells (F.held files.old) image cycles schedule written
        × (O.taken out.new ≡ append_known (O.taken out.old) written) }

    // The headline holds of each trace that is done, with the lines of its turns before the report.
    ensures reach { result ≡ Status.Done → (image : List ℕ) (cycles : ℕ) (schedule : Option (List ℕ))
        → Matches (texts words.now) (trace image cycles schedule)
        → (written : List ℕ) × RunIsProved trace trace_of M.tells (F.held files.old) image cycles schedule written
        × (O.taken out.new ≡ append_known (O.taken out.old) written) }

    // The headline holds of each log that is done, with the lines of its turns and of what they changed before the
    // report. Carried out, the log's lines up to any cycle make the state of the run then, except for the number of
    // cycles.
    ensures replay { result ≡ Status.Done → (image : List ℕ) (cycles : ℕ) (schedule : Option (List ℕ))
        → Matches (texts words.now) (log image cycles schedule)
        → (written : List ℕ) × LogIsProved M.tells (F.held files.old) image cycles schedule written
        × (O.taken out.new ≡ append_known (O.taken out.old) written) }

    // What runs come to is proved of each exploration that is done: it writes what is found of the image up to STATES
    // configurations, and each finding is met first by its schedule. If these are all configurations, each access, each
    // fault and each outcome of every run is found, and every run can go on into a final configuration or an endless set.
    ensures explore { result ≡ Status.Done → (image : List ℕ) (states : ℕ)
        → Matches (texts words.now) (explore image states)
        → (written : List ℕ) × ExploreIsProved (F.held files.old) image states written
        × (O.taken out.new ≡ append_known (O.taken out.old) written) }

    // What a kernel keeps is proved of each `keeps` that is done: it writes the answer for the image and its kept
    // segments and, if the answer is yes, what each group can reach. Then the kernel keeps the segments in every run of
    // every variant of the image, and confines each group to what it reaches in every run of the image.
    ensures keeps { result ≡ Status.Done → (image : List ℕ) (threads : ℕ) (kept : List Segment)
        → Matches (texts words.now) (keeps image threads kept)
        → (written : List ℕ) × KeepsIsProved (F.held files.old) image threads kept written
        × (O.taken out.new ≡ append_known (O.taken out.old) written) }

    // A refusal that has to come does come, unless a read failed or memory ran out. If nothing fails, the command is
    // done or memory ran out.
    ensures refuses { (r : Refusal) → HasToRefuse (F.held files.old) (I.left input.old) (texts words.now) r
        → RefusedUnless r result }
    ensures complete { NothingFails
        (call M.tells (reading F.held F.faults F.asked files.old files.new)
        (drawing I.left I.faults input.old input.new) (writing O.taken O.faults out.old out.new)) (texts words.now)
        → (result ≡ Status.Done) ⊎ (result ≡ Status.NoMemory) }
{
    let status = by_row::<M, F, I, O>(alloc, words, files, input, out);
    let _ = write_line(&status, diag);
    status
}

/// Does what the words ask, by the row of the table that they are in. `Usage` if they are in no row.
fn by_row<M: Boot + Reset, F: Files, I: Source, O: Sink>(
    alloc: Global,
    words: &[String],
    files: &mut F,
    input: &mut I,
    out: &mut O,
) -> Status
    ensures answers { Answers
        (call M.tells (reading F.held F.faults F.asked files.old files.new)
        (drawing I.left I.faults input.old input.new) (writing O.taken O.faults out.old out.new)) (texts words.now)
        result }
    ensures unread { result ≡ Status.Usage → files.new ≡ files.old }
    ensures undrawn { LeaveInput (texts words.now) → input.new ≡ input.old }
    ensures drawn { (row : Row) → Matches (texts words.now) row
        → DrawnBehind (F.held files.old) (files_of row) (input.new ≡ input.old) }
    ensures read { result ≡ Status.Done → (row : Row) → Matches (texts words.now) row → IsSome (input_of row)
        → IsAtEnd (I.left input.new) }
{
    match read_words(words) {
        None => Status::Usage,
        Some(parsed) => {
            let arguments = parsed.words.as_slice();
            status(by_command::<M, F, I, O>(alloc, parsed.command, arguments, files, input, out))
        }
    }
}

/// Does what a command asks with its words.
#[tactic(auto, using(crate::proofs::Inputs::none_read))]
fn by_command<M: Boot + Reset, F: Files, I: Source, O: Sink>(
    alloc: Global,
    command: Command,
    words: &[Word<'_>],
    files: &mut F,
    input: &mut I,
    out: &mut O,
) -> Result<(), CommandError>
    requires { HasArguments command words.now }
    ensures ends { RowEnds
        (call M.tells (reading F.held F.faults F.asked files.old files.new)
        (drawing I.left I.faults input.old input.new) (writing O.taken O.faults out.old out.new))
        (row command words.now) result }
    ensures asked { AsksFiles (reading F.held F.faults F.asked files.old files.new) []
        (files_of (row command words.now)) }
    ensures whole { OnOk result (ReadsWhole (reading F.held F.faults F.asked files.old files.new)
        (files_of (row command words.now))) }
    ensures undrawn { input_of (row command words.now) ≡ None → input.new ≡ input.old }
    ensures drawn { DrawnBehind (F.held files.old) (files_of (row command words.now)) (input.new ≡ input.old) }
    ensures read { OnOk result (IsSome (input_of (row command words.now)) → IsAtEnd (I.left input.new)) }
{
    match command {
        Command::Run => run::<M, F, O>(alloc, words, files, out),
        Command::Trace => trace::<M, F, O>(alloc, words, files, out),
        Command::Log => log::<M, F, O>(alloc, words, files, out),
        Command::Solo => solo::<M, F, O>(alloc, words, files, out),
        Command::Grants => grants(alloc, words, files, out),
        Command::Extract => extract(alloc, words, files, out),
        Command::Asm => asm(alloc, words, files, out),
        Command::Link => link(alloc, words, files, out),
        Command::Dis => dis(alloc, words, files, out),
        Command::Debug => debug::<M, F, I, O>(alloc, words, files, input, out),
        Command::Gen => generate(alloc, words, out),
        Command::Soak => soak::<M, O>(alloc, words, out),
        Command::Migrate => migrate(alloc, words, files, out),
        Command::Sweep => sweep(alloc, words, files, out),
        Command::Holders => holders(alloc, words, files, out),
        Command::Save => save::<M, F, O>(alloc, words, files, out),
        Command::Continue => resume::<M, F, O>(alloc, words, files, out),
        Command::Net => run_net::<M, F, O>(alloc, words, files, out),
        Command::Explore => explore(alloc, words, files, out),
        Command::Why => why(alloc, words, files, out),
        Command::Keeps => keeps(alloc, words, files, out),
    }
}

/// The status of the answer after a command.
fn status(outcome: Result<(), CommandError>) -> Status
    ensures { result ≡ status_of outcome }
{
    match outcome {
        Ok(()) => Status::Done,
        Err(CommandError::Refused(refusal)) => Status::Refused(refusal),
        Err(CommandError::ReadFault) => Status::ReadFault,
        Err(CommandError::WriteFault) => Status::WriteFault,
        Err(CommandError::NoMemory) => Status::NoMemory,
    }
}

//! The inputs of a command, each read and parsed.
ghost use Rattle.std.specs.Prelude.{◌≡◌, ◌+◌, ◌<◌, ◌≤◌, ◌^◌, ◌∷◌, [], List, length, IfOk, IfErr, OnOk};
ghost use Rattle.std.specs.Option.{option_map};
ghost use Rattle.std.specs.Io.KnownBytes.{IsAtEnd};
ghost use Rattle.mm_io.specs.Files.{Rose, NoneFell, Holds, AsksOnly, AsksWhole};
ghost use Rattle.mm_checkpoint.specs.Checkpoints.{saved_of, IsCheckpoint};
ghost use Rattle.mm_cli.specs.declared.table.Kind.TheVariants.{Schedule as schedule_file, Source as source_file};
ghost use Rattle.mm_cli.specs.declared.table.Kind.TheVariants.{Checkpoint as checkpoint_file, Text as text_input};
ghost use Rattle.mm_load.specs.Kinds.{Value, an_image, an_object, a_checkpoint, a_text};
ghost use Rattle.mm_load.specs.Files.{Stops, IsTooLong, FilesRead, InputRead, reading, drawing};
ghost use Rattle.mm_cli.specs.Words.{file_word, files_in, optional};
ghost use Rattle.mm_load.specs.Kinds.{values_of};
ghost use Rattle.mm_load.specs.Stops.{stop_of_error};

use crate::from_file::FromFile;
use crate::status::{CommandError, Refusal};
use mm_asm::{AsmError, assemble};
use mm_checkpoint::SaveError;
use mm_image::Image;
use mm_io::{Files, ReadError, Source, read_all, read_input};
use mm_machine::Snapshot;
use mm_object::Object;
use mm_sched::Order;
use std::alloc::Global;

/// The most bytes of a source file.
const SOURCE_LIMIT: u64 = 8_388_608;

/// The most bytes of a checkpoint file.
const CHECKPOINT_LIMIT: u64 = 33_554_432;

/// The most bytes of standard input.
const INPUT_LIMIT: u64 = 1_048_576;

/// Reads all bytes of a file, the command's file `number`.
fn read_file<F: Files>(
    alloc: Global,
    files: &mut F,
    name: &str,
    limit: u64,
    number: u8,
) -> Result<Vec<u8>, CommandError>
    requires { limit < 2 ^ 31 }
    ensures bytes { IfOk result (λ bytes. Holds (F.held files.old name.now) bytes.items) }
    ensures short { IfOk result (λ bytes. length bytes.items ≤ limit) }
    ensures stop { IfErr result
        (Stops (IsTooLong limit number (F.held files.old name.now))
        (Rose (F.faults files.old name.now) (F.faults files.new name.now))) }
    ensures kept { F.held files.new ≡ F.held files.old }
    ensures later { NoneFell (F.faults files.old) (F.faults files.new) }
    ensures asks { AsksOnly F.asked files.old files.new name.now }
    ensures whole { IfOk result (λ bytes. AsksWhole F.asked files.old files.new name.now (length bytes.items)) }
{
    match read_all(alloc, files, name, limit) {
        Ok(bytes) => Ok(bytes),
        Err(error) => Err(stop_of(error, number)),
    }
}

/// Why a command stops if the file of this number cannot be read.
fn stop_of(error: ReadError, file: u8) -> CommandError
    ensures { result ≡ stop_of_error error file }
{
    match error {
        ReadError::ReadFault => CommandError::ReadFault,
        ReadError::TooLong => CommandError::Refused(Refusal::TooLong { file }),
        ReadError::NoMemory => CommandError::NoMemory,
    }
}

/// Reads and parses a file, the command's file `number`.
pub fn load_file<T: FromFile, F: Files>(
    alloc: Global,
    files: &mut F,
    name: &str,
    number: u8,
) -> Result<T, CommandError>
    ensures read { (before : List Value) → number ≡ length before + 1
        → FilesRead (reading F.held F.faults F.asked files.old files.new) before ((name.now, T.of_kind) ∷ [])
        (λ x. T.meaning x ∷ []) result }
    ensures kept { F.held files.new ≡ F.held files.old }
    ensures later { NoneFell (F.faults files.old) (F.faults files.new) }
{
    let bytes = read_file(alloc, files, name, T::limit(), number)?;
    T::parse(alloc, &bytes, number)
}

/// Reads and assembles a source file, the command's file `number`.
pub fn load_source<F: Files>(
    alloc: Global,
    files: &mut F,
    name: &str,
    number: u8,
) -> Result<Object, CommandError>
    ensures { (before : List Value) → number ≡ length before + 1
        → FilesRead (reading F.held F.faults F.asked files.old files.new) before ((name.now, source_file) ∷ [])
        (λ o. an_object o ∷ []) result }
{
    let bytes = read_file(alloc, files, name, SOURCE_LIMIT, number)?;
    match assemble(alloc, &bytes) {
        Ok(object) => Ok(object),
        Err(
            AsmError::Fault {
                fault,
                line,
                column,
            },
        ) => Err(CommandError::Refused(Refusal::Asm {
            fault,
            line,
            column,
        })),
        Err(AsmError::NoMemory) => Err(CommandError::NoMemory),
    }
}

/// What a checkpoint file holds: a state of a machine, and the slot that round robin issued last.
#[derive(Drop)]
pub struct Checkpoint {
    pub snapshot: Snapshot,
    pub last: Option<u8>,
}

/// Reads and parses a checkpoint file, the command's second file, against the image of the first.
pub fn load_checkpoint<F: Files>(
    alloc: Global,
    files: &mut F,
    name: &str,
    image: &Image,
) -> Result<Checkpoint, CommandError>
    ensures read { FilesRead (reading F.held F.faults F.asked files.old files.new) (an_image image.now ∷ [])
        ((name.now, checkpoint_file) ∷ [])
        (λ c. a_checkpoint (saved_of c.snapshot c.last) ∷ []) result }
    ensures checkpoint { IfOk result (λ c. IsCheckpoint image.now c.snapshot c.last) }
    ensures kept { F.held files.new ≡ F.held files.old }
    ensures later { NoneFell (F.faults files.old) (F.faults files.new) }
{
    let bytes = read_file(alloc, files, name, CHECKPOINT_LIMIT, 2)?;
    match mm_checkpoint::read(alloc, image, &bytes) {
        Ok((snapshot, last)) => Ok(Checkpoint { snapshot, last }),
        Err(SaveError::Fault { offset }) => {
            Err(CommandError::Refused(Refusal::Checkpoint { file: 2, offset }))
        }
        Err(SaveError::NoMemory) => Err(CommandError::NoMemory),
    }
}

/// Reads the order of a schedule file, the command's file `number`. Round robin if there is no file.
pub fn load_order<F: Files>(
    alloc: Global,
    files: &mut F,
    name: Option<&str>,
    number: u8,
) -> Result<Order, CommandError>
    ensures { (before : List Value) → number ≡ length before + 1
        → FilesRead (reading F.held F.faults F.asked files.old files.new) before
        (files_in (optional (file_word schedule_file) (option_map (λ name. name.now) name.entry))) values_of result }
{
    match name {
        None => Ok(Order::Robin),
        Some(name) => match load_file(alloc, files, name, number) {
            Ok(list) => Ok(Order::List(list)),
            Err(stop) => Err(stop),
        },
    }
}

/// Reads standard input, which has number 0, to its end.
pub fn load_input<I: Source>(alloc: Global, input: &mut I) -> Result<Vec<u8>, CommandError>
    ensures read { (before : List Value)
        → InputRead (drawing I.left I.faults input.old input.new) before text_input (λ text. a_text text.items) result }
    ensures end { OnOk result (IsAtEnd (I.left input.new)) }
{
    match read_input(alloc, input, INPUT_LIMIT) {
        Ok(bytes) => Ok(bytes),
        Err(error) => Err(stop_of(error, 0)),
    }
}

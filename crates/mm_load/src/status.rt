//! What the program answers, and why a command stops.
ghost use Rattle.std.specs.Prelude.{◌≡◌};
ghost use Rattle.mm_load.specs.declared.status.CommandError.TheVariants as stop;
ghost use Rattle.mm_load.specs.Stops.{end_of, stop_of_link};

use mm_asm::AsmFault;
use mm_image::ImageFault;
use mm_io::WriteFault;
use mm_link::{LinkError, LinkFault};
use mm_object::ObjectFault;
use mm_word::NoMemory;
use std::alloc::AllocFailed;

/// Why a command is refused. Files are counted from 1 among the command's file words.
#[derive(Drop)]
pub enum Refusal {
    /// The file is longer than its limit.
    TooLong {
        file: u8,
    },
    /// The file spells no image: its first fault, and the offset of that.
    Image {
        file: u8,
        fault: ImageFault,
        offset: u64,
    },
    /// The file is no schedule: the offset of its fault.
    Schedule {
        file: u8,
        offset: u64,
    },
    /// The file spells no object: its first fault, and the offset of that.
    Object {
        file: u8,
        fault: ObjectFault,
        offset: u64,
    },
    /// The source means no object: its first fault, with the line and the column in bytes, both counted from 1.
    Asm {
        fault: AsmFault,
        line: u32,
        column: u32,
    },
    /// The file is no checkpoint of the image: the offset of its fault.
    Checkpoint {
        file: u8,
        offset: u64,
    },
    /// The file is no list of links: the offset of its fault.
    Links {
        file: u8,
        offset: u64,
    },
    /// The objects do not link: their first fault.
    Link(LinkFault),
    /// No slot of the image belongs to one of the groups.
    NoGroup,
    /// The handler of a slot of the groups is outside of the groups: the least such slot.
    Crosses {
        slot: u8,
    },
    /// The segment of a slot's instruction pointer meets the range that is to be swept: the least such slot.
    Held {
        slot: u8,
    },
    /// No instruction pointer meets the range, but a group is privileged, whatever is entered, and can make again what
    /// is swept: the least such group.
    Privileged {
        group: u8,
    },
    /// A link names a node that is not there: the least such link.
    NoNode {
        link: u8,
    },
}

/// What the program answers.
#[derive(Drop)]
pub enum Status {
    /// All input was read, and the whole text was written.
    Done,
    /// The words are in no row of the table of commands.
    Usage,
    Refused(Refusal),
    /// A file could not be read.
    ReadFault,
    /// The text could not be written to its end.
    WriteFault,
    /// Memory ran out before the first byte was written.
    NoMemory,
}

/// Why a command stops before it is done.
#[derive(Drop)]
pub enum CommandError {
    Refused(Refusal),
    ReadFault,
    WriteFault,
    NoMemory,
}

/// How a command ends after the write of its text.
pub fn ended(wrote: Result<(), WriteFault>) -> Result<(), CommandError>
    ensures { result ≡ end_of wrote }
{
    match wrote {
        Ok(()) => Ok(()),
        Err(WriteFault) => Err(CommandError::WriteFault),
    }
}

impl From<WriteFault> for CommandError {
    ghost from_gives = { λ _ e. e ≡ stop.WriteFault };

    fn from(_: WriteFault) -> Self {
        CommandError::WriteFault
    }
}

impl From<LinkError> for CommandError {
    ghost from_gives = { λ error e. e ≡ stop_of_link error };

    fn from(error: LinkError) -> Self {
        match error {
            LinkError::Fault(fault) => CommandError::Refused(Refusal::Link(fault)),
            LinkError::NoMemory => CommandError::NoMemory,
        }
    }
}

impl<T: Drop> From<AllocFailed<T>> for CommandError {
    ghost from_gives = { λ _ e. e ≡ stop.NoMemory };

    fn from(_: AllocFailed<T>) -> Self {
        CommandError::NoMemory
    }
}

impl From<NoMemory> for CommandError {
    ghost from_gives = { λ _ e. e ≡ stop.NoMemory };

    fn from(_: NoMemory) -> Self {
        CommandError::NoMemory
    }
}

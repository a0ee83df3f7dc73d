//! The types that files are read as: how long a file may be, and how its bytes are parsed.
ghost use Rattle.std.specs.Prelude.{◌≡◌, ◌<◌, ◌^◌, List, IfOk, IfErr};
ghost use Rattle.mm_cli.specs.declared.table.Kind.TheVariants.{Image as image_file, Schedule as schedule_file};
ghost use Rattle.mm_cli.specs.declared.table.Kind.TheVariants.{Object as object_file, Links as links_file};
ghost use Rattle.mm_cli.specs.declared.table.Kind.TheVariants.{Events as events_file};
ghost use Rattle.mm_load.specs.Kinds.{Value, Accepts, Faults, limit_of};
ghost use Rattle.mm_load.specs.Kinds.{an_image, a_list, an_object, a_links, an_events};
ghost use Rattle.mm_load.specs.Files.{Stops};

use crate::status::{CommandError, Refusal};
use mm_image::{Image, ImageError};
use mm_net::{Events, Links, NetError, read_events, read_links};
use mm_object::{Object, ObjectError};
use mm_sched::{SchedError, Schedule};
use std::alloc::Global;

/// A type that the files of one kind are parsed as.
pub trait FromFile: Drop + Sized {
    ghost use Rattle.mm_cli.specs.declared.table.Kind.{Kind};
    ghost use Rattle.mm_load.specs.Kinds.{Value};

    /// The kind of the files.
    ghost of_kind: { Kind };

    /// The meaning of what was parsed.
    ghost meaning: { Self → Value };

    /// The most bytes of a file.
    fn limit() -> u64
        ensures is { result ≡ limit_of of_kind }
        ensures small { result < 2 ^ 31 };

    /// Parses the bytes of the command's file `number`.
    fn parse(alloc: Global, bytes: &[u8], number: u8) -> Result<Self, CommandError>
        ensures means { (before : List Value) → IfOk result (λ x. Accepts of_kind before bytes.now (meaning x)) }
        ensures fault { (before : List Value) → IfErr result (Stops (Faults of_kind before number bytes.now) ⊥) };
}

impl FromFile for Image {
    ghost of_kind = { image_file };

    ghost meaning = { λ x. an_image x };

    fn limit() -> u64 {
        33_554_432
    }

    fn parse(alloc: Global, bytes: &[u8], number: u8) -> Result<Image, CommandError> {
        match mm_image::read(alloc, bytes) {
            Ok(image) => Ok(image),
            Err(ImageError::Fault { fault, offset }) => Err(CommandError::Refused(
                Refusal::Image {
                    file: number,
                    fault,
                    offset,
                },
            )),
            Err(ImageError::NoMemory) => Err(CommandError::NoMemory),
        }
    }
}

impl FromFile for Schedule {
    ghost of_kind = { schedule_file };

    ghost meaning = { λ x. a_list x };

    fn limit() -> u64 {
        8_388_608
    }

    fn parse(alloc: Global, bytes: &[u8], number: u8) -> Result<Schedule, CommandError> {
        match mm_sched::parse(alloc, bytes) {
            Ok(list) => Ok(list),
            Err(SchedError::Fault { offset }) => Err(CommandError::Refused(Refusal::Schedule {
                file: number,
                offset,
            })),
            Err(SchedError::NoMemory) => Err(CommandError::NoMemory),
        }
    }
}

impl FromFile for Object {
    ghost of_kind = { object_file };

    ghost meaning = { λ x. an_object x };

    fn limit() -> u64 {
        2_097_152
    }

    fn parse(alloc: Global, bytes: &[u8], number: u8) -> Result<Object, CommandError> {
        match mm_object::read(alloc, bytes) {
            Ok(object) => Ok(object),
            Err(ObjectError::Fault { fault, offset }) => Err(CommandError::Refused(
                Refusal::Object {
                    file: number,
                    fault,
                    offset,
                },
            )),
            Err(ObjectError::NoMemory) => Err(CommandError::NoMemory),
        }
    }
}

impl FromFile for Links {
    ghost of_kind = { links_file };

    ghost meaning = { λ x. a_links x };

    fn limit() -> u64 {
        65_536
    }

    fn parse(alloc: Global, bytes: &[u8], number: u8) -> Result<Links, CommandError> {
        match read_links(alloc, bytes) {
            Ok(links) => Ok(links),
            Err(NetError::Fault { offset }) => Err(CommandError::Refused(Refusal::Links {
                file: number,
                offset,
            })),
            Err(NetError::NoMemory) => Err(CommandError::NoMemory),
        }
    }
}

impl FromFile for Events {
    ghost of_kind = { events_file };

    ghost meaning = { λ x. an_events x };

    fn limit() -> u64 {
        8_388_608
    }

    // Its faults are refused as those of a schedule.
    fn parse(alloc: Global, bytes: &[u8], number: u8) -> Result<Events, CommandError> {
        match read_events(alloc, bytes) {
            Ok(events) => Ok(events),
            Err(NetError::Fault { offset }) => Err(CommandError::Refused(Refusal::Schedule {
                file: number,
                offset,
            })),
            Err(NetError::NoMemory) => Err(CommandError::NoMemory),
        }
    }
}

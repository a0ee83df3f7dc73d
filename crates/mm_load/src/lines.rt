//! The line that an answer writes to standard error.
ghost use Rattle.mm_io.specs.Sinks.{Writes};
ghost use Rattle.mm_text.specs.Appends.{Appends};
ghost use Rattle.std.specs.Prelude.{◌++◌, codes, decimal};
ghost use Rattle.mm_load.specs.Lines.{in_file, line_of, named_by};

use crate::status::{Refusal, Status};
use mm_io::{Sink, WriteFault, write_all};
use mm_link::LinkFault;
use mm_text::{Piece, TextBuffer, write_pieces};

/// Writes the line that says why a command is not done. Writes nothing if it is done.
pub fn write_line<D: Sink>(status: &Status, diag: &mut D) -> Result<(), WriteFault>
    ensures { Writes D.taken D.faults diag.old diag.new (line_of status.now) result }
{
    match status {
        Status::Done => Ok(()),
        Status::Usage => write_all(diag, b"mmachine: usage\n"),
        Status::Refused(refusal) => write_refusal(refusal, diag),
        Status::ReadFault => write_all(diag, b"mmachine: read fault\n"),
        Status::WriteFault => write_all(diag, b"mmachine: write fault\n"),
        Status::NoMemory => write_all(diag, b"mmachine: out of memory\n"),
    }
}

/// Writes the line of a refusal.
fn write_refusal<D: Sink>(refusal: &Refusal, diag: &mut D) -> Result<(), WriteFault>
    ensures { Writes D.taken D.faults diag.old diag.new (line_of (Status.Refused refusal.now)) result }
{
    match refusal {
        Refusal::TooLong { file } => write_named(diag, "mmachine: file ", *file, " too long\n"),
        Refusal::Image {
            file,
            fault,
            offset,
        } => write_numbered(diag, *file, " image fault ", fault.number(), *offset),
        Refusal::Object {
            file,
            fault,
            offset,
        } => write_numbered(diag, *file, " object fault ", fault.number(), *offset),
        Refusal::Checkpoint { file, offset } => {
            write_placed(diag, *file, " checkpoint fault at ", *offset)
        }
        Refusal::Links { file, offset } => write_placed(diag, *file, " links fault at ", *offset),
        Refusal::Schedule { file, offset } => {
            write_placed(diag, *file, " schedule fault at ", *offset)
        }
        Refusal::Crosses { slot } => write_named(diag, "mmachine: crosses slot ", *slot, "\n"),
        Refusal::Held { slot } => write_named(diag, "mmachine: held slot ", *slot, "\n"),
        Refusal::Privileged { group } => {
            write_named(diag, "mmachine: privileged group ", *group, "\n")
        }
        Refusal::NoNode { link } => write_named(diag, "mmachine: no node link ", *link, "\n"),
        Refusal::NoGroup => write_all(diag, b"mmachine: no group\n"),
        Refusal::Asm {
            fault,
            line,
            column,
        } => write_pieces(
            diag,
            &[
                Piece::Text("mmachine: source fault "),
                Piece::Decimal(fault.number() as u64),
                Piece::Text(" at "),
                Piece::Decimal(*line as u64),
                Piece::Text(":"),
                Piece::Decimal(*column as u64),
                Piece::Text("\n"),
            ],
        ),
        Refusal::Link(fault) => write_link_fault(fault, diag),
    }
}

/// Writes a line that names a file, a slot, a group or a link by its number.
fn write_named<'a, D: Sink>(
    diag: &mut D,
    before: &'a str,
    number: u8,
    after: &'a str,
) -> Result<(), WriteFault>
    ensures { Writes D.taken D.faults diag.old diag.new (before.now ++ decimal number ++ after.now) result }
{
    write_pieces(
        diag,
        &[
            Piece::Text(before),
            Piece::Decimal(number as u64),
            Piece::Text(after),
        ],
    )
}

/// Writes the line of a fault at an offset of a file. `fault` says which, up to the offset.
fn write_placed<D: Sink>(diag: &mut D, file: u8, fault: &str, offset: u64) -> Result<(), WriteFault>
    ensures { Writes D.taken D.faults diag.old diag.new (in_file file ++ fault.now ++ decimal offset ++ codes "\n")
        result }
{
    write_pieces(
        diag,
        &[
            Piece::Text("mmachine: file "),
            Piece::Decimal(file as u64),
            Piece::Text(fault),
            Piece::Decimal(offset),
            Piece::Text("\n"),
        ],
    )
}

/// Writes the line of a fault with a number at an offset of a file. `fault` says which, up to the number.
fn write_numbered<D: Sink>(
    diag: &mut D,
    file: u8,
    fault: &str,
    number: u8,
    offset: u64,
) -> Result<(), WriteFault>
    ensures { Writes D.taken D.faults diag.old diag.new
        (in_file file ++ fault.now ++ decimal number ++ codes " at " ++ decimal offset ++ codes "\n") result }
{
    write_pieces(
        diag,
        &[
            Piece::Text("mmachine: file "),
            Piece::Decimal(file as u64),
            Piece::Text(fault),
            Piece::Decimal(number as u64),
            Piece::Text(" at "),
            Piece::Decimal(offset),
            Piece::Text("\n"),
        ],
    )
}

/// Writes the line of a fault of linking.
fn write_link_fault<D: Sink>(fault: &LinkFault, diag: &mut D) -> Result<(), WriteFault>
    ensures { Writes D.taken D.faults diag.old diag.new (line_of (Status.Refused (Refusal.Link fault.now))) result }
{
    let mut text = TextBuffer::new();
    text.put(
        diag,
        &[
            Piece::Text("mmachine: link fault "),
            Piece::Decimal(fault.number() as u64),
            Piece::Text(" "),
        ],
    );
    put_named(&mut text, diag, fault);
    text.put_bytes(diag, b"\n");
    text.finish(diag)
}

/// Appends what a fault of linking names: a name, a slot, or `-` if it names neither.
fn put_named<D: Sink>(text: &mut TextBuffer, diag: &mut D, fault: &LinkFault)
    ensures { Appends D.taken D.faults diag.old diag.new text.old text.new (named_by fault.now) }
{
    match fault {
        LinkFault::Twice(name) | LinkFault::Undefined(name) | LinkFault::Offset(name) => {
            text.put_bytes(diag, name.bytes());
        }
        LinkFault::SlotTwice(slot) | LinkFault::Handler(slot) => {
            text.put_piece(diag, &Piece::Decimal(*slot as u64));
        }
        LinkFault::NoThread | LinkFault::TooLarge => text.put_bytes(diag, b"-"),
    }
}

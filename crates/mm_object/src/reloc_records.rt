//! The records of relocations of an object file.

ghost use Rattle.std.specs.Prelude.{◌≡◌, ◌+◌, not, nat_lt, ◌||◌};
ghost use Rattle.mm_format.specs.Formats.{times};
ghost use Rattle.mm_format.specs.Reading.{Reads, ReadsAlone};
ghost use Rattle.mm_object.specs.Answers.{number_of};
ghost use Rattle.mm_object.specs.Format.{reloc_fields, good_reloc, reloc_row};
ghost use Rattle.mm_object.specs.Objects.{is_reloc, place_of};

use crate::fault::ObjectFault;
use crate::fields::{read_perm, read_target};
use crate::relocs::{is_reloc, place_of};
use crate::segment::Segment;
use crate::target::Reloc;
use mm_format::{ReadError, Reader, Records, failed, read_records, refuse_if};
use std::alloc::Global;

/// The length in bytes of the record of a relocation.
const RELOC_BYTES: usize = 13;

/// Whether a relocation does not replace a word that is 0 by a pointer to a target, or has a place below `least`.
fn is_bad_reloc(segments: &[Segment], externals: u16, least: u64, reloc: Reloc) -> bool
    ensures { result ≡ (not (is_reloc segments.now externals reloc) || nat_lt (place_of reloc) least) }
{
    !is_reloc(segments, usize::from(externals), reloc) || place_of(reloc) < least
}

/// Reads the fields of a relocation.
#[tactic(auto, unfolding(crate::specs::Format::reloc_fields))]
fn read_fields(reader: &mut Reader) -> Result<Reloc, ReadError<ObjectFault>>
    ensures read { ReadsAlone number_of (λ r. r) reloc_fields.read reader.old reader.new result }
{
    let segment = reader.u16()?;
    let word = reader.u32()?;
    let perm = read_perm(reader, ObjectFault::Reloc)?;
    let target = read_target(reader)?;
    Ok(Reloc {
        segment,
        word,
        perm,
        target,
    })
}

/// Reads a relocation, whose place has to be at least `least`.
#[tactic(auto, unfolding(crate::specs::Format::good_reloc))]
fn read_good_reloc(
    reader: &mut Reader,
    segments: &[Segment],
    externals: u16,
    least: u64,
) -> Result<Reloc, ReadError<ObjectFault>>
    ensures read { ReadsAlone number_of (λ r. r)
        (good_reloc segments.now externals least).read reader.old reader.new result }
{
    let at = reader.at;
    let reloc = read_fields(reader)?;
    let wrong = is_bad_reloc(segments, externals, least, reloc);
    refuse_if(wrong, ObjectFault::Reloc, at)?;
    Ok(reloc)
}

/// Reads a relocation, whose place has to be at least `least`. Its record has to be whole before it is tested.
fn read_reloc(
    reader: &mut Reader,
    segments: &[Segment],
    externals: u16,
    least: u64,
) -> Result<Reloc, ReadError<ObjectFault>>
    ensures read { ReadsAlone number_of (λ r. r)
        (reloc_row segments.now externals least).read reader.old reader.new result }
{
    let at = reader.at;
    let mut ahead = Reader {
        bytes: reader.bytes,
        at,
    };
    ahead.raw(RELOC_BYTES)?;
    match read_good_reloc(reader, segments, externals, least) {
        Ok(reloc) => Ok(reloc),
        Err(_) => Err(failed(ObjectFault::Reloc, at)),
    }
}

/// What comes before a relocation: the segments and the count of externals of its object, and the least place that it
/// may have.
#[derive(Drop)]
struct RelocRecords<'a> {
    segments: &'a [Segment],
    externals: u16,
    least: u64,
}

impl Records<ObjectFault> for RelocRecords<'_> {
    ghost use Rattle.std.specs.Prelude.{◌+◌};
    ghost use Rattle.mm_object.specs.Format.{reloc_row};
    ghost use Rattle.mm_object.specs.Objects.{place_of};

    type Item = Reloc;

    ghost reads = { λ s. (reloc_row s.segments.now s.externals s.least).read };

    ghost onward = { λ s r. record { segments = s.segments; externals = s.externals; least = place_of r + 1 } };

    fn item(
        &mut self,
        _alloc: Global,
        reader: &mut Reader,
    ) -> Result<Reloc, ReadError<ObjectFault>> {
        let reloc = read_reloc(reader, self.segments, self.externals, self.least)?;
        self.least = place_of(reloc) + 1;
        Ok(reloc)
    }
}

/// Reads this count of relocations, whose places have to ascend.
pub(crate) fn read_relocs(
    alloc: Global,
    reader: &mut Reader,
    segments: &[Segment],
    externals: u16,
    count: u16,
) -> Result<Vec<Reloc>, ReadError<ObjectFault>>
    ensures read { Reads number_of (λ relocs. relocs.items)
        (times (reloc_row segments.now externals) (λ _ r. place_of r + 1) count 0).read reader.old reader.new result }
{
    let mut run = RelocRecords {
        segments,
        externals,
        least: 0,
    };
    read_records(alloc, reader, &mut run, usize::from(count))
}

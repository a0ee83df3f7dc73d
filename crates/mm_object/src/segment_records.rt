//! The records of segments of an object file.

ghost use Rattle.std.specs.Prelude.{◌≡◌, ◌+◌, ◌/◌, ◌<◌, ◌≤◌, nat_lt, IfOk, [], length, vec_len};
ghost use Rattle.mm_model.specs.Bytes.{bit_at, number_at};
ghost use Rattle.mm_format.specs.Formats.{each, times};
ghost use Rattle.mm_format.specs.Images.{bits_in};
ghost use Rattle.mm_format.specs.Reading.{Reads, ReadsAlone};
ghost use Rattle.mm_object.specs.Answers.{number_of};
ghost use Rattle.mm_object.specs.Format.{log_row, count_row, bits_row, has_unused_bit, item_row, segment_row};
ghost use Rattle.mm_object.specs.Format.{push};
ghost use Rattle.mm_object.specs.Objects.{words_of};

use crate::fault::ObjectFault;
use crate::item::Item;
use crate::name_records::read_name;
use crate::segment::Segment;
use crate::segments::{has_name, is_log, room};
use mm_format::{ReadError, Reader, is_set, refuse_if};
use mm_model::WORD_LIMIT;
use std::alloc::Global;

/// Whether `words` and `count` words together are more than an object may have.
fn are_many(words: usize, count: u32) -> bool
    requires { words ≤ 131072 }
    ensures { result ≡ nat_lt 131072 (words + count) }
{
    words + count as usize > WORD_LIMIT
}

/// Reads the logarithm of a segment's length in bytes.
#[tactic(auto, unfolding(crate::specs::Format::log_row))]
fn read_log(reader: &mut Reader) -> Result<u8, ReadError<ObjectFault>>
    ensures read { ReadsAlone number_of (λ n. n) log_row.read reader.old reader.new result }
    ensures small { IfOk result (λ n. n ≤ 20) }
{
    let at = reader.at;
    let log = reader.u8()?;
    refuse_if(!is_log(log), ObjectFault::Segment, at)?;
    Ok(log)
}

/// Reads the count of words of a segment of this length, after segments of `words` words.
#[tactic(auto, unfolding(crate::specs::Format::count_row))]
fn read_count(reader: &mut Reader, log: u8, words: usize) -> Result<u32, ReadError<ObjectFault>>
    requires log { log ≤ 20 }
    requires words { words ≤ 131072 }
    ensures read { ReadsAlone number_of (λ n. n) (count_row log words).read reader.old reader.new result }
    ensures small { IfOk result (λ n. words + n ≤ 131072) }
{
    let at = reader.at;
    let count = reader.u32()?;
    refuse_if(are_many(words, count), ObjectFault::Count, at)?;
    refuse_if(count as usize > room(log), ObjectFault::Segment, at)?;
    Ok(count)
}

/// The number of a byte of a bitmap, which begins at place 0.
#[tactic(auto, using(crate::proofs::Numbers::byte_at))]
fn byte(bitmap: &[u8], index: usize) -> u8
    requires { index < length bitmap.now }
    ensures { result ≡ number_at bitmap.now (0 + index) 1 }
{
    bitmap[index]
}

/// Whether the last byte of a bitmap has a bit set that belongs to none of `count` words.
fn has_unused_bit(bitmap: &[u8], count: u32) -> bool
    requires { length bitmap.now ≡ (count + 7) / 8 }
    ensures { result ≡ has_unused_bit bitmap.now 0 count }
{
    count % 8 != 0 && byte(bitmap, count as usize / 8) >= 1 << (count % 8)
}

/// Reads the bitmap of `count` words.
#[tactic(auto, unfolding(crate::specs::Format::bits_row))]
fn read_bits<'a>(reader: &mut Reader<'a>, count: u32) -> Result<&'a [u8], ReadError<ObjectFault>>
    ensures read { ReadsAlone number_of (λ xs. bits_in count xs.now)
        (bits_row count).read reader.old reader.new result }
    ensures long { IfOk result (λ xs. length xs.now ≡ (count + 7) / 8) }
{
    let at = reader.at;
    let size = (count as usize + 7) / 8;
    let bitmap = reader.raw(size)?;
    refuse_if(
        has_unused_bit(bitmap, count),
        ObjectFault::Segment,
        at + size.saturating_sub(1),
    )?;
    Ok(bitmap)
}

/// Whether a bit of a bitmap is set, the lowest bit of each byte first.
fn bit(bitmap: &[u8], index: usize) -> bool
    requires { index / 8 < length bitmap.now }
    ensures { result ≡ bit_at bitmap.now 0 index }
{
    is_set(u16::from(byte(bitmap, index / 8)), index % 8)
}

/// Reads a word, which is full or empty.
#[tactic(auto, unfolding(crate::specs::Format::item_row))]
fn read_item(reader: &mut Reader, full: bool) -> Result<Item, ReadError<ObjectFault>>
    ensures read { ReadsAlone number_of (λ i. i) (item_row full).read reader.old reader.new result }
{
    let bits = reader.u64()?;
    Ok(Item { bits, full })
}

/// Reads `count` words, with the bitmap that says which of them are full.
fn read_items(
    alloc: Global,
    reader: &mut Reader,
    bitmap: &[u8],
    count: u32,
) -> Result<Vec<Item>, ReadError<ObjectFault>>
    requires { length bitmap.now ≡ (count + 7) / 8 }
    ensures read { Reads number_of (λ items. items.items)
        (each item_row (bits_in count bitmap.now)).read reader.old reader.new result }
    ensures count { IfOk result (λ items. vec_len items ≡ count) }
{
    let count = count as usize;
    let mut items = Vec::with_capacity(alloc, count)?;
    for k in 0..count {
        let item = read_item(reader, bit(bitmap, k))?;
        items.push(item)?;
    }
    Ok(items)
}

/// Reads a segment, after segments of `words` words.
#[tactic(auto, unfolding(crate::specs::Format::segment_row))]
fn read_segment(
    alloc: Global,
    reader: &mut Reader,
    before: &[Segment],
    words: usize,
) -> Result<Segment, ReadError<ObjectFault>>
    requires words { words ≡ words_of before.now }
    requires few { words ≤ 131072 }
    ensures read { Reads number_of (λ s. s) (segment_row before.now).read reader.old reader.new result }
    ensures few { IfOk result (λ s. words + length s.items ≤ 131072) }
{
    let at = reader.at;
    let name = read_name(reader)?;
    refuse_if(has_name(before, &name), ObjectFault::Name, at)?;
    let log = read_log(reader)?;
    let count = read_count(reader, log, words)?;
    let full = read_bits(reader, count)?;
    let items = read_items(alloc, reader, full, count)?;
    Ok(Segment { name, log, items })
}

/// Reads this count of segments.
pub(crate) fn read_segments(
    alloc: Global,
    reader: &mut Reader,
    count: u16,
) -> Result<Vec<Segment>, ReadError<ObjectFault>>
    ensures read { Reads number_of (λ segments. segments.items)
        (times segment_row push count []).read reader.old reader.new result }
    ensures count { IfOk result (λ segments. vec_len segments ≡ count) }
{
    let mut segments = Vec::with_capacity(alloc, usize::from(count))?;
    let mut words = 0;
    for _ in 0..usize::from(count) {
        let segment = read_segment(alloc, reader, &segments, words)?;
        words += segment.items.len();
        segments.push(segment)?;
    }
    Ok(segments)
}

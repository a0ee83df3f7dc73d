//! The records of pages of an image file.

ghost use Rattle.std.specs.Prelude.{◌≡◌, ◌+◌, ◌/◌, ◌%◌, ◌<◌, IfOk, length, map, vec_len};
ghost use Rattle.mm_word.specs.declared.word.Cell.{Cell as CellValue};
ghost use Rattle.mm_model.specs.Bytes.{bit_at};
ghost use Rattle.mm_format.specs.Formats.{each, times};
ghost use Rattle.mm_format.specs.Images.{word, page, bits_in};
ghost use Rattle.mm_format.specs.Reading.{Reads};
ghost use Rattle.mm_image.specs.Faults.{number_of};

use crate::fault::ImageFault;
use crate::words::read_word;
use mm_format::{ReadError, Reader, Records, is_set, read_records, refuse_if};
use mm_model::{CELLS, Page};
use mm_word::Cell;
use std::alloc::Global;

/// One more than the greatest number of a page.
const PAGE_LIMIT: u64 = 1 << 42;

/// The length in bytes of a page's tags, and of its full bits.
const BITMAP_BYTES: usize = CELLS / 8;

/// The bit at a place of a bitmap, the lowest of each byte first.
fn bit(bitmap: &[u8], index: usize) -> bool
    requires index { index < 512 }
    requires whole { length bitmap.now ≡ 64 }
    ensures { result ≡ bit_at bitmap.now 0 index }
{
    is_set(u16::from(bitmap[index / 8]), index % 8)
}

/// Reads the words of a page's cells, with these tags and full bits.
fn read_cells(
    alloc: Global,
    reader: &mut Reader,
    tags: &[u8],
    full: &[u8],
) -> Result<Vec<Cell>, ReadError<ImageFault>>
    requires tags { length tags.now ≡ 64 }
    requires full { length full.now ≡ 64 }
    ensures read { Reads number_of (λ cells. map (λ (c : CellValue). c.word) cells.items)
        (each word (bits_in 512 tags.now)).read reader.old reader.new result }
    ensures full { IfOk result (λ cells. map (λ (c : CellValue). c.full) cells.items ≡ bits_in 512 full.now) }
    ensures count { IfOk result (λ cells. vec_len cells ≡ 512) }
{
    let mut cells = Vec::with_capacity(alloc, CELLS)?;
    for index in 0..CELLS {
        let word = read_word(reader, bit(tags, index))?;
        cells.push(Cell {
            word,
            full: bit(full, index),
        })?;
    }
    Ok(cells)
}

/// Reads a page, whose number has to be at least `least`.
#[tactic(auto, using(crate::proofs::Cells::cells_whole), unfolding(mm_format::specs::Images::page, mm_format::specs::Images::bits))]
pub fn read_page(
    alloc: Global,
    reader: &mut Reader,
    least: u64,
) -> Result<Page, ReadError<ImageFault>>
    ensures read { Reads number_of (λ p. p) (page least).read reader.old reader.new result }
{
    let at = reader.at;
    let number = reader.u64()?;
    refuse_if(
        number >= PAGE_LIMIT || number < least,
        ImageFault::PageOrder,
        at,
    )?;
    let tags = reader.raw(BITMAP_BYTES)?;
    let full = reader.raw(BITMAP_BYTES)?;
    let cells = read_cells(alloc, reader, tags, full)?;
    Ok(Page::of(number, cells))
}

/// What comes before a page: the least number that it may have.
#[derive(Drop)]
pub(crate) struct PageRecords {
    pub least: u64,
}

impl Records<ImageFault> for PageRecords {
    ghost use Rattle.std.specs.Prelude.{◌+◌};
    ghost use Rattle.mm_format.specs.Images.{page};

    type Item = Page;

    ghost reads = { λ s. (page s.least).read };

    ghost onward = { λ s p. record { least = p.0 + 1 } };

    fn item(&mut self, alloc: Global, reader: &mut Reader) -> Result<Page, ReadError<ImageFault>> {
        let page = read_page(alloc, reader, self.least)?;
        self.least = page.number() + 1;
        Ok(page)
    }
}

/// Reads this count of pages, whose numbers have to ascend.
pub fn read_pages(
    alloc: Global,
    reader: &mut Reader,
    count: u16,
) -> Result<Vec<Page>, ReadError<ImageFault>>
    ensures read { Reads number_of (λ pages. pages.items)
        (times page (λ _ p. p.0 + 1) count 0).read reader.old reader.new result }
{
    let mut run = PageRecords { least: 0 };
    read_records(alloc, reader, &mut run, usize::from(count))
}

//! The pages of an image.

ghost use Rattle.std.specs.Prelude.{◌≡◌, ◌++◌, ◌≤◌, ◌<◌, ◌^◌, take, replicate, length, IfOk, OnOk, IsOkUnless};
ghost use Rattle.std.specs.List.{flat_map};
ghost use Rattle.mm_object.specs.Objects.{IsObject};
ghost use Rattle.mm_object.specs.Lookups.{reloc_at};
ghost use Rattle.mm_model.specs.Memory.{zero_cell, zero_page};
ghost use Rattle.mm_link.specs.Linked.{word_by, cells_from, part_cells, pages_from, first_page};

use crate::fault::LinkError;
use crate::placing::Part;
use crate::sites::Sites;
use mm_model::{CELLS, Page};
use mm_object::{Item, Object};
use mm_word::{Cell, Word};
use std::alloc::Global;

/// The page of the first segment.
const FIRST_PAGE: u64 = 0x100;

/// The `count` pages of segments that are placed one after another.
pub(crate) fn pages_of(
    alloc: Global,
    sites: &Sites<'_>,
    parts: &[Part<'_>],
    count: u32,
) -> Result<Vec<Page>, LinkError>
    requires { count ≤ 256 }
    ensures pages { IfOk result
        (λ v. v.items ≡ pages_from count first_page (flat_map (part_cells sites.now) parts.now)) }
    ensures memory { IsOkUnless result LinkError.NoMemory }
{
    let cells = cells_of(alloc, sites, parts, count as usize * CELLS)?;
    pages_from(alloc, &cells, count)
}

/// The cells of segments. There is room for `room` cells at first.
fn cells_of(
    alloc: Global,
    sites: &Sites<'_>,
    parts: &[Part<'_>],
    room: usize,
) -> Result<Vec<Cell>, LinkError>
    ensures cells { IfOk result (λ v. v.items ≡ flat_map (part_cells sites.now) parts.now) }
    ensures memory { IsOkUnless result LinkError.NoMemory }
{
    let mut cells = Vec::with_capacity(alloc, room)?;
    for part in parts {
        push_part(&mut cells, sites, part)?;
    }
    Ok(cells)
}

/// Appends the cells of a segment: its words, and full cells of integer 0 up to its length.
#[tactic(auto, unfolding(crate::specs::Linked::part_cells))]
fn push_part(cells: &mut Vec<Cell>, sites: &Sites<'_>, part: &Part<'_>) -> Result<(), LinkError>
    ensures cells { OnOk result (cells.new.items ≡ cells.old.items ++ part_cells sites.now part.now) }
    ensures memory { IsOkUnless result LinkError.NoMemory }
{
    let items = part.items();
    push_items(cells, sites, part.object(), part.number(), items)?;
    push_zeros(cells, (1 << (part.log() - 3)) - items.len())
}

/// Appends the words that a segment begins with.
fn push_items(
    cells: &mut Vec<Cell>,
    sites: &Sites<'_>,
    object: &Object,
    segment: u16,
    items: &[Item],
) -> Result<(), LinkError>
    requires object { IsObject object.now }
    requires few { length items.now < 2 ^ 32 }
    ensures cells { OnOk result
        (cells.new.items ≡ cells.old.items ++ cells_from sites.now object.now segment 0 items.now) }
    ensures memory { IsOkUnless result LinkError.NoMemory }
{
    let mut near = 0;
    for (word, item) in items.iter().enumerate() {
        cells.push(Cell {
            word: word_of(sites, object, &mut near, segment, word as u32, item.bits),
            full: item.full,
        })?;
    }
    Ok(())
}

/// A word of a segment: the pointer of its relocation, or the integer that it is. The relocation at the index `near` is
/// tried first; `near` becomes the index after the one that was found.
fn word_of(
    sites: &Sites<'_>,
    object: &Object,
    near: &mut usize,
    segment: u16,
    word: u32,
    bits: u64,
) -> Word
    requires { IsObject object.now }
    ensures { result ≡ word_by sites.now object.now (reloc_at object.now segment word) bits }
{
    match object.reloc_near(*near, segment, word) {
        Some((at, reloc)) => {
            *near = at.saturating_add(1);
            Word::Ptr(sites.pointer_to(object, reloc.perm, reloc.target))
        }
        None => Word::Int(bits),
    }
}

/// Appends `count` full cells of integer 0.
fn push_zeros(cells: &mut Vec<Cell>, count: usize) -> Result<(), LinkError>
    ensures cells { OnOk result (cells.new.items ≡ cells.old.items ++ replicate count zero_cell) }
    ensures memory { IsOkUnless result LinkError.NoMemory }
{
    for _ in 0..count {
        cells.push(Cell::ZERO)?;
    }
    Ok(())
}

/// The first `count` pages of cells. Full cells of integer 0 follow the last cell.
fn pages_from(alloc: Global, cells: &[Cell], count: u32) -> Result<Vec<Page>, LinkError>
    requires { count ≤ 256 }
    ensures pages { IfOk result (λ v. v.items ≡ pages_from count first_page cells.now) }
    ensures memory { IsOkUnless result LinkError.NoMemory }
{
    let mut pages = Vec::with_capacity(alloc, count as usize)?;
    let mut rest = cells;
    for number in 0..count {
        pages.push(page_of(alloc, FIRST_PAGE + u64::from(number), rest)?)?;
        rest = &rest[rest.len().min(CELLS)..];
    }
    Ok(pages)
}

/// The page of the first of these cells.
fn page_of(alloc: Global, number: u64, cells: &[Cell]) -> Result<Page, LinkError>
    requires { number < 2 ^ 42 }
    ensures page { IfOk result (λ p. p ≡ (number, take 512 (cells.now ++ zero_page))) }
    ensures memory { IsOkUnless result LinkError.NoMemory }
{
    let kept = cells.len().min(CELLS);
    let mut page = Vec::with_capacity(alloc, CELLS)?;
    page.extend_from_slice(&cells[..kept])?;
    push_zeros(&mut page, CELLS - kept)?;
    Ok(Page::of(number, page))
}

//! The writer of image files.

ghost use Rattle.std.specs.Prelude.{◌≡◌, ◌+◌, ◌*◌, ◌^◌, ◌<◌, ◌≤◌, [], ◌∷◌, ◌++◌, length, map, OnOk, IfOk};
ghost use Rattle.std.specs.Int.{w64, to_be_bytes};
ghost use Rattle.std.specs.List.{flat_map};
ghost use Rattle.mm_word.specs.declared.word.Cell.{Cell};
ghost use Rattle.mm_word.specs.Word.{is_pointer, word_bits};
ghost use Rattle.mm_model.specs.Flags.{number_of_flags};
ghost use Rattle.mm_model.specs.Spelling.{handler_byte, state_byte, bitmap};
ghost use Rattle.mm_format.specs.Formats.{each};
ghost use Rattle.mm_format.specs.Headers.{header};
ghost use Rattle.mm_format.specs.Images.{word, header_in, slot_record, page_record};
ghost use Rattle.mm_format.specs.Images.{spelling, Spells};

use crate::image::Image;
use crate::layout::{HEADER_BYTES, PAGE_BYTES, SLOT_BYTES};
use crate::slots::NO_HANDLER;
use mm_model::{Page, Slot, SlotState};
use mm_word::{Cell, NoMemory, Word};
use std::alloc::{AllocError, Global};

/// The bytes of an image's file. They spell the image, so that it is read from them again.
pub fn write(alloc: Global, img: &Image) -> Result<Vec<u8>, NoMemory>
    ensures written { IfOk result (λ bytes. bytes.items ≡ spelling img.now) }
    ensures spelled { IfOk result (λ bytes. Spells bytes.items img.now) }
{
    let length = HEADER_BYTES + SLOT_BYTES * img.slots().len() + PAGE_BYTES * img.pages().len();
    let mut out = Vec::with_capacity(alloc, length)?;
    put_header(&mut out, img)?;
    put_slots(&mut out, img.slots())?;
    put_pages(&mut out, img.pages())?;
    Ok(out)
}

/// Appends the header: the file's mark, its version, the counts of slots, frames and pages, and the mode.
fn put_header(out: &mut Vec<u8>, img: &Image) -> Result<(), AllocError>
    ensures { OnOk result (out.new.items ≡ out.old.items ++ header.spell (header_in img.now)) }
{
    out.extend_from_slice(b"MMI1")?;
    out.extend_from_slice(&img.version().to_be_bytes())?;
    out.extend_from_slice(&(img.slots().len() as u16).to_be_bytes())?;
    out.extend_from_slice(&(img.frames() as u16).to_be_bytes())?;
    out.extend_from_slice(&(img.pages().len() as u16).to_be_bytes())?;
    out.extend_from_slice(&(img.split() as u32).to_be_bytes())?;
    Ok(())
}

/// Appends the records of slots.
fn put_slots(out: &mut Vec<u8>, slots: &[Slot]) -> Result<(), AllocError>
    ensures { OnOk result (out.new.items ≡ out.old.items ++ flat_map slot_record slots.now) }
{
    for slot in slots {
        put_slot(out, slot)?;
    }
    Ok(())
}

/// Appends the records of pages.
fn put_pages(out: &mut Vec<u8>, pages: &[Page]) -> Result<(), AllocError>
    ensures { OnOk result (out.new.items ≡ out.old.items ++ flat_map page_record pages.now) }
{
    for page in pages {
        put_page(out, page)?;
    }
    Ok(())
}

/// Appends a slot: what comes before its instruction pointer, the pointer, the tags of its registers, and their words.
#[tactic(auto, unfolding(mm_format::specs::Images::slot))]
fn put_slot(out: &mut Vec<u8>, slot: &Slot) -> Result<(), AllocError>
    ensures { OnOk result (out.new.items ≡ out.old.items ++ slot_record slot.now) }
{
    out.extend_from_slice(&slot_head(slot))?;
    out.extend_from_slice(&slot.ip.bits().to_be_bytes())?;
    out.extend_from_slice(&tags_of(&slot.regs).to_be_bytes())?;
    put_words(out, &slot.regs)?;
    Ok(())
}

/// The bytes of a slot before its instruction pointer.
fn slot_head(slot: &Slot) -> [u8; 4]
    ensures { result ≡ slot.now.number ∷ slot.now.group ∷ handler_byte slot.now.handler
        ∷ state_byte slot.now.state ∷ [] }
{
    let handler = match slot.handler {
        Some(handler) => handler,
        None => NO_HANDLER,
    };
    let state = match slot.state {
        SlotState::Running => 0,
        _ => 1,
    };
    [slot.number, slot.group, handler, state]
}

/// Appends the 64 bits of each word.
pub fn put_words(out: &mut Vec<u8>, words: &[Word]) -> Result<(), AllocError>
    ensures { OnOk result (out.new.items ≡ out.old.items ++ (each word (map is_pointer words.now)).spell words.now) }
{
    for word in words {
        put_word(out, *word)?;
    }
    Ok(())
}

/// Appends the 64 bits of a word. Whether it is a pointer stands elsewhere.
fn put_word(out: &mut Vec<u8>, word: Word) -> Result<(), AllocError>
    ensures { OnOk result (out.new.items ≡ out.old.items ++ to_be_bytes w64 (word_bits word)) }
{
    out.extend_from_slice(&word.bits().to_be_bytes())?;
    Ok(())
}

/// Appends the record of a page.
#[tactic(auto, unfolding(mm_format::specs::Images::page))]
pub fn put_page(out: &mut Vec<u8>, page: &Page) -> Result<(), AllocError>
    ensures { OnOk result (out.new.items ≡ out.old.items ++ page_record page.now) }
{
    out.extend_from_slice(&page.number().to_be_bytes())?;
    put_tags(out, page.cells())?;
    put_full_bits(out, page.cells())?;
    put_cells(out, page.cells())?;
    Ok(())
}

/// Appends the bitmap that says which of a page's cells hold pointers.
fn put_tags(out: &mut Vec<u8>, cells: &[Cell]) -> Result<(), AllocError>
    requires { length cells.now ≡ 512 }
    ensures { OnOk result
        (out.new.items ≡ out.old.items ++ bitmap 64 (map (λ (c : Cell). is_pointer c.word) cells.now)) }
{
    for k in 0..64 {
        out.push(cell_tags(&cells[8 * k..8 * k + 8]) as u8)?;
    }
    Ok(())
}

/// Appends the bitmap that says which of a page's cells are full.
fn put_full_bits(out: &mut Vec<u8>, cells: &[Cell]) -> Result<(), AllocError>
    requires { length cells.now ≡ 512 }
    ensures { OnOk result (out.new.items ≡ out.old.items ++ bitmap 64 (map (λ (c : Cell). c.full) cells.now)) }
{
    for k in 0..64 {
        out.push(full_bits(&cells[8 * k..8 * k + 8]) as u8)?;
    }
    Ok(())
}

/// Appends the words of cells in eight bytes each.
fn put_cells(out: &mut Vec<u8>, cells: &[Cell]) -> Result<(), AllocError>
    ensures { OnOk result (out.new.items ≡ out.old.items
        ++ (each word (map (λ (c : Cell). is_pointer c.word) cells.now)).spell (map (λ (c : Cell). c.word) cells.now)) }
{
    for cell in cells {
        put_word(out, cell.word)?;
    }
    Ok(())
}

/// A bit for each word, the lowest for the first: whether it is a pointer.
pub fn tags_of(words: &[Word]) -> u16
    requires { length words.now ≤ 16 }
    ensures value { result ≡ number_of_flags (map is_pointer words.now) }
    ensures below { result < 2 ^ length words.now }
{
    match words {
        [] => 0,
        [first, rest @ ..] => first.is_pointer() as u16 + 2 * tags_of(rest),
    }
}

/// A bit for each cell, the lowest for the first: whether it holds a pointer.
fn cell_tags(cells: &[Cell]) -> u16
    requires { length cells.now ≤ 8 }
    ensures value { result ≡ number_of_flags (map (λ (c : Cell). is_pointer c.word) cells.now) }
    ensures below { result < 2 ^ length cells.now }
{
    match cells {
        [] => 0,
        [first, rest @ ..] => first.word.is_pointer() as u16 + 2 * cell_tags(rest),
    }
}

/// A bit for each cell, the lowest for the first: whether it is full.
fn full_bits(cells: &[Cell]) -> u16
    requires { length cells.now ≤ 8 }
    ensures value { result ≡ number_of_flags (map (λ (c : Cell). c.full) cells.now) }
    ensures below { result < 2 ^ length cells.now }
{
    match cells {
        [] => 0,
        [first, rest @ ..] => first.full as u16 + 2 * full_bits(rest),
    }
}

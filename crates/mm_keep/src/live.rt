//! The live pointers of an image.
#![tactic(auto, unfolding(mm_kernel::specs::Segments::live_pointers))]

ghost use Rattle.std.specs.List.{filter, flat_map};
ghost use Rattle.std.specs.Prelude.{◌≡◌, ◌++◌, IfOk, OnOk};
ghost use Rattle.mm_word.specs.declared.word.Cell.{Cell as CellValue};
ghost use Rattle.mm_model.specs.Slot.{Slot as SlotValue};
ghost use Rattle.mm_model.specs.Turn.{is_running};
ghost use Rattle.mm_kernel.specs.Segments.{live_pointers, slot_pointers, pointers_in, page_pointers};

use mm_image::Image;
use mm_model::{Page, Slot, SlotState};
use mm_word::{Cell, GuardedPtr, NoMemory, Word};
use std::alloc::{AllocError, Global};

/// Whether a slot runs.
pub fn runs(slot: &Slot) -> bool
    ensures { result ≡ is_running slot.now.state }
{
    matches!(slot.state, SlotState::Running)
}

/// Appends a word, if it is a pointer.
fn put_word(out: &mut Vec<GuardedPtr>, word: Word) -> Result<(), AllocError>
    ensures { OnOk result (out.new.items ≡ out.old.items ++ pointers_in word) }
{
    match word {
        Word::Int(_) => Ok(()),
        Word::Ptr(p) => {
            out.push(p)?;
            Ok(())
        }
    }
}

/// Appends the pointers among words.
fn put_words(out: &mut Vec<GuardedPtr>, words: &[Word]) -> Result<(), AllocError>
    ensures { OnOk result (out.new.items ≡ out.old.items ++ flat_map pointers_in words.now) }
{
    for word in words {
        put_word(out, *word)?;
    }
    Ok(())
}

/// Appends the pointers of a slot.
fn put_slot(out: &mut Vec<GuardedPtr>, slot: &Slot) -> Result<(), AllocError>
    ensures { OnOk result (out.new.items ≡ out.old.items ++ slot_pointers slot.now) }
{
    out.push(slot.ip)?;
    put_words(out, &slot.regs)
}

/// Appends the pointers of the slots that run.
fn put_slots(out: &mut Vec<GuardedPtr>, slots: &[Slot]) -> Result<(), AllocError>
    ensures { OnOk result (out.new.items ≡ out.old.items
        ++ flat_map slot_pointers (filter (λ (s : SlotValue). is_running s.state) slots.now)) }
{
    for slot in slots {
        if runs(slot) {
            put_slot(out, slot)?;
        }
    }
    Ok(())
}

/// Appends the pointers in cells.
fn put_cells(out: &mut Vec<GuardedPtr>, cells: &[Cell]) -> Result<(), AllocError>
    ensures { OnOk result (out.new.items ≡ out.old.items
        ++ flat_map (λ (c : CellValue). pointers_in c.word) cells.now) }
{
    for cell in cells {
        put_word(out, cell.word)?;
    }
    Ok(())
}

/// Appends the pointers in pages.
fn put_pages(out: &mut Vec<GuardedPtr>, pages: &[Page]) -> Result<(), AllocError>
    ensures { OnOk result (out.new.items ≡ out.old.items ++ flat_map page_pointers pages.now) }
{
    for page in pages {
        put_cells(out, page.cells())?;
    }
    Ok(())
}

/// The live pointers: those that a running slot has, and those in cells.
pub fn live_pointers(alloc: Global, image: &Image) -> Result<Vec<GuardedPtr>, AllocError>
    ensures { IfOk result (λ pointers. pointers.items ≡ live_pointers image.now) }
{
    let mut pointers = Vec::new(alloc);
    put_slots(&mut pointers, image.slots())?;
    put_pages(&mut pointers, image.pages())?;
    Ok(pointers)
}

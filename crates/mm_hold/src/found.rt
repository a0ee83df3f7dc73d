//! The pointers of an image that parties may come to hold, and their keys.

ghost use Rattle.std.specs.List.{flat_map};
ghost use Rattle.std.specs.Prelude.{◌≡◌, ◌++◌, ◌%◌, All, IfOk, IfSome, OnOk};
ghost use Rattle.mm_kernel.specs.Variants.{is_caller};
ghost use Rattle.mm_graph.specs.Key.{IsKey};
ghost use Rattle.mm_hold.specs.Finding.{caller_seeds, cell_first, cell_found, held_word, page_with, pages_with, word_seed};

use crate::going::Held;
use mm_graph::{CanonicalPtr, Found, Seed, standing_in};
use mm_keep::{Kernel, first_form, is_door, is_kept, is_kernel_slot, runs};
use mm_kernel::Part;
use mm_model::{Page, Slot};
use mm_word::{Cell, NoMemory, Word};
use std::alloc::Global;

// 1. Keys.

/// The key of the pointer that stands for all that can be made of this one; `None` if that permits nothing. A door
/// stands for itself.
pub fn key_in(kept: &[Part], word: Word) -> Option<CanonicalPtr>
    ensures value { result ≡ held_word kept.now word }
    ensures key { IfSome result IsKey }
{
    match word {
        Word::Int(_) => None,
        Word::Ptr(p) => {
            if is_door(kept, p) {
                Some(CanonicalPtr::of(p))
            } else {
                standing_in(word)
            }
        }
    }
}

// 2. Cells.

/// Adds the pointer of a cell that is not kept.
fn add_cell(found: &mut Vec<Found>, kept: &[Part], word: u64, cell: Cell) -> Result<(), NoMemory>
    requires { All (λ f. IsKey f.key) found.old.items }
    ensures items { OnOk result (found.new.items ≡ found.old.items ++ cell_found kept.now word cell) }
    ensures keys { OnOk result (All (λ f. IsKey f.key) found.new.items) }
{
    if is_kept(kept, word) {
        return Ok(());
    }
    if let Some(key) = key_in(kept, cell.word) {
        found.push(Found { word, key })?;
    }
    Ok(())
}

/// Adds the pointers of a page's cells that are not kept.
fn add_page(found: &mut Vec<Found>, kept: &[Part], page: &Page) -> Result<(), NoMemory>
    requires { All (λ f. IsKey f.key) found.old.items }
    ensures items { OnOk result (found.new.items ≡ found.old.items ++ page_with (cell_found kept.now) page.now) }
    ensures keys { OnOk result (All (λ f. IsKey f.key) found.new.items) }
{
    let base = page.number() * 4096;
    let cells = page.cells();
    for k in 0..cells.len() {
        let cell = cells[k];
        add_cell(found, kept, base + 8 * k as u64, cell)?;
    }
    Ok(())
}

/// The pointers in cells that are not kept, in the order of their addresses.
pub fn found_in(alloc: Global, kept: &[Part], pages: &[Page]) -> Result<Vec<Found>, NoMemory>
    ensures items { IfOk result (λ found. found.items ≡ pages_with (cell_found kept.now) pages.now) }
    ensures keys { IfOk result (λ found. All (λ f. IsKey f.key) found.items) }
{
    let mut found = Vec::new(alloc);
    for page in pages {
        add_page(&mut found, kept, page)?;
    }
    Ok(found)
}

/// Adds the form that a word of a page has from the start, if it is kept.
fn add_first(first: &mut Vec<Held>, kernel: &Kernel, word: u64, cell: Cell) -> Result<(), NoMemory>
    requires { word % 8 ≡ 0 }
    ensures { OnOk result (first.new.items
        ≡ first.old.items ++ cell_first kernel.now.image kernel.now.kept word cell) }
{
    if is_kept(kernel.kept(), word) {
        first.push((word, first_form(kernel, word, cell.word)))?;
    }
    Ok(())
}

/// Adds the forms that the kept words of a page have from the start.
fn add_firsts(first: &mut Vec<Held>, kernel: &Kernel, page: &Page) -> Result<(), NoMemory>
    ensures { OnOk result (first.new.items
        ≡ first.old.items ++ page_with (cell_first kernel.now.image kernel.now.kept) page.now) }
{
    let base = page.number() * 4096;
    let cells = page.cells();
    for k in 0..cells.len() {
        let cell = cells[k];
        add_first(first, kernel, base + 8 * k as u64, cell)?;
    }
    Ok(())
}

/// Adds the forms that the kept words of pages have from the start.
fn add_pages(first: &mut Vec<Held>, kernel: &Kernel, pages: &[Page]) -> Result<(), NoMemory>
    ensures { OnOk result (first.new.items
        ≡ first.old.items ++ pages_with (cell_first kernel.now.image kernel.now.kept) pages.now) }
{
    for page in pages {
        add_firsts(first, kernel, page)?;
    }
    Ok(())
}

/// The forms that the kept words of the image's pages have from the start.
pub fn first_forms(alloc: Global, kernel: &Kernel) -> Result<Vec<Held>, NoMemory>
    ensures { IfOk result (λ first. first.items
        ≡ pages_with (cell_first kernel.now.image kernel.now.kept) kernel.now.image.memory.pages) }
{
    let mut first = Vec::new(alloc);
    add_pages(&mut first, kernel, kernel.image().pages())?;
    Ok(first)
}

// 3. Slots.

/// Adds the pointer of a word that a group's caller has.
fn add_word(seeds: &mut Vec<Seed>, kept: &[Part], group: u8, word: Word) -> Result<(), NoMemory>
    requires { All (λ s. IsKey s.key) seeds.old.items }
    ensures items { OnOk result (seeds.new.items ≡ seeds.old.items ++ word_seed kept.now group word) }
    ensures keys { OnOk result (All (λ s. IsKey s.key) seeds.new.items) }
{
    if let Some(key) = key_in(kept, word) {
        seeds.push(Seed { group, key })?;
    }
    Ok(())
}

/// Adds the pointers of words that a group's caller has.
fn add_words(
    seeds: &mut Vec<Seed>,
    kept: &[Part],
    group: u8,
    words: &[Word],
) -> Result<(), NoMemory>
    requires { All (λ s. IsKey s.key) seeds.old.items }
    ensures items { OnOk result (seeds.new.items
        ≡ seeds.old.items ++ flat_map (word_seed kept.now group) words.now) }
    ensures keys { OnOk result (All (λ s. IsKey s.key) seeds.new.items) }
{
    for k in 0..words.len() {
        let word = words[k];
        add_word(seeds, kept, group, word)?;
    }
    Ok(())
}

/// Whether a slot runs and is not one of the kernel.
fn is_caller(kept: &[Part], slot: &Slot) -> bool
    ensures { result ≡ is_caller kept.now slot.now }
{
    if is_kernel_slot(kept, slot) {
        false
    } else {
        runs(slot)
    }
}

/// Adds the pointers of a slot, if it is a caller.
fn add_slot(seeds: &mut Vec<Seed>, kept: &[Part], slot: &Slot) -> Result<(), NoMemory>
    requires { All (λ s. IsKey s.key) seeds.old.items }
    ensures items { OnOk result (seeds.new.items ≡ seeds.old.items ++ caller_seeds kept.now slot.now) }
    ensures keys { OnOk result (All (λ s. IsKey s.key) seeds.new.items) }
{
    if !is_caller(kept, slot) {
        return Ok(());
    }
    add_word(seeds, kept, slot.group, Word::Ptr(slot.ip))?;
    add_words(seeds, kept, slot.group, &slot.regs)
}

/// The pointers that callers have.
pub fn callers(alloc: Global, kept: &[Part], slots: &[Slot]) -> Result<Vec<Seed>, NoMemory>
    ensures items { IfOk result (λ seeds. seeds.items ≡ flat_map (caller_seeds kept.now) slots.now) }
    ensures keys { IfOk result (λ seeds. All (λ s. IsKey s.key) seeds.items) }
{
    let mut seeds = Vec::new(alloc);
    for slot in slots {
        add_slot(&mut seeds, kept, slot)?;
    }
    Ok(seeds)
}

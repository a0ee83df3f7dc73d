//! What a search begins with: an image's live pointers, cells and running slots.

ghost use Rattle.std.specs.Prelude.{◌≡◌, ◌%◌, ◌++◌, OnOk};
ghost use Rattle.std.specs.List.{flat_map};
ghost use Rattle.mm_kernel.specs.Derived.{first_form, has_segment, reaches_across};
ghost use Rattle.mm_kernel.specs.Segments.{is_fixed};
ghost use Rattle.mm_keep.specs.Claims.{AddsFacts};
ghost use Rattle.mm_keep.specs.Searching.{across_facts, first_at, handed_at, handler_in, page_first, page_handed, slot_facts};

use crate::kernel::Kernel;
use crate::live::runs;
use crate::segments::{is_inside, is_kept, meets};
use crate::tables::Tables;
use mm_kernel::{Form, Handler, Leak, Part};
use mm_model::{Page, Slot};
use mm_word::{GuardedPtr, NoMemory, Perm, Word};

/// A kept word, and a form that it may have.
pub type Held = (u64, Form);

// 1. Live pointers.

/// Whether a pointer by this permission uses its segment.
fn has_segment(perm: Perm) -> bool
    ensures { result ≡ has_segment perm }
{
    match perm {
        Perm::Ro | Perm::Rw | Perm::Xu | Perm::Eu => true,
        Perm::Xp | Perm::Ep | Perm::Key => false,
    }
}

/// Whether a pointer reaches both kept words and others.
fn reaches_across(kept: &[Part], p: GuardedPtr) -> bool
    ensures { result ≡ reaches_across kept.now p }
{
    has_segment(p.perm()) && meets(kept, p) && !is_inside(kept, p)
}

/// Adds the leak of a pointer that reaches both kept words and others.
fn note_across(kernel: &Kernel, tables: &mut Tables, p: GuardedPtr) -> Result<(), NoMemory>
    ensures { OnOk result (AddsFacts kernel.now.image kernel.now.kept (across_facts kernel.now.kept p) tables.old
        tables.new) }
{
    if reaches_across(kernel.kept(), p) {
        tables.add_leak(&Leak::Across { pointer: p })
    } else {
        Ok(())
    }
}

/// Adds the leaks of the pointers that reach both kept words and others.
pub fn begin_pointers(
    kernel: &Kernel,
    tables: &mut Tables,
    pointers: &[GuardedPtr],
) -> Result<(), NoMemory>
    ensures { OnOk result (AddsFacts kernel.now.image kernel.now.kept
        (flat_map (across_facts kernel.now.kept) pointers.now) tables.old tables.new) }
{
    for p in pointers {
        note_across(kernel, tables, *p)?;
    }
    Ok(())
}

// 2. Cells.

/// The form that a kept word has from the start.
pub fn first_form(kernel: &Kernel, word: u64, held: Word) -> Form
    requires { word % 8 ≡ 0 }
    ensures { result ≡ first_form (is_fixed kernel.now.image word) held }
{
    match held {
        Word::Int(_) => {
            if kernel.is_fixed(word) {
                Form::of(held)
            } else {
                Form::Integer
            }
        }
        Word::Ptr(p) => Form::Pointer(p),
    }
}

/// Puts down the form of a kept word, or adds what any other word hands out.
fn begin_word(
    kernel: &Kernel,
    tables: &mut Tables,
    first: &mut Vec<Held>,
    word: u64,
) -> Result<(), NoMemory>
    requires { word % 8 ≡ 0 }
    ensures facts { OnOk result (AddsFacts kernel.now.image kernel.now.kept
        (handed_at kernel.now.image kernel.now.kept word) tables.old tables.new) }
    ensures first { OnOk result (first.new.items ≡ first.old.items ++ first_at kernel.now.image kernel.now.kept word) }
{
    let Some(cell) = kernel.image().cell(word) else {
        return Ok(());
    };
    if is_kept(kernel.kept(), word) {
        first.push((word, first_form(kernel, word, cell.word)))?;
        return Ok(());
    }
    let form = Form::of(cell.word);
    let leak = Leak::Cell { word, form };
    tables.hand_out(kernel, &form, &leak)
}

/// Puts down the forms of the kept words of a page, and adds what its other words hand out.
fn begin_page(
    kernel: &Kernel,
    tables: &mut Tables,
    first: &mut Vec<Held>,
    page: &Page,
) -> Result<(), NoMemory>
    ensures facts { OnOk result (AddsFacts kernel.now.image kernel.now.kept
        (page_handed kernel.now.image kernel.now.kept page.now) tables.old tables.new) }
    ensures first { OnOk result (first.new.items
        ≡ first.old.items ++ page_first kernel.now.image kernel.now.kept page.now) }
{
    let base = page.number() * 4096;
    for k in 0..512u64 {
        begin_word(kernel, tables, first, base + 8 * k)?;
    }
    Ok(())
}

/// Puts down the forms of the kept words of pages, and adds what their other words hand out.
pub fn begin_pages(
    kernel: &Kernel,
    tables: &mut Tables,
    first: &mut Vec<Held>,
    pages: &[Page],
) -> Result<(), NoMemory>
    ensures facts { OnOk result (AddsFacts kernel.now.image kernel.now.kept
        (flat_map (page_handed kernel.now.image kernel.now.kept) pages.now) tables.old tables.new) }
    ensures first { OnOk result (first.new.items
        ≡ first.old.items ++ flat_map (page_first kernel.now.image kernel.now.kept) pages.now) }
{
    for page in pages {
        begin_page(kernel, tables, first, page)?;
    }
    Ok(())
}

// 3. Slots.

/// Takes up the thread of a slot that runs, and puts down its handler.
fn begin_slot(
    kernel: &Kernel,
    tables: &mut Tables,
    handlers: &mut Vec<Handler>,
    slot: &Slot,
) -> Result<(), NoMemory>
    ensures facts { OnOk result (AddsFacts kernel.now.image kernel.now.kept
        (slot_facts kernel.now.image kernel.now.kept slot.now) tables.old tables.new) }
    ensures handlers { OnOk result (handlers.new.items
        ≡ handlers.old.items ++ handler_in kernel.now.image kernel.now.kept slot.now) }
{
    if !runs(slot) {
        return Ok(());
    }
    handlers.push(kernel.handler_of(slot.handler))?;
    tables.take_up(kernel, &kernel.own_thread(slot))
}

/// Takes up the threads of the slots that run, and puts down their handlers.
pub fn begin_slots(
    kernel: &Kernel,
    tables: &mut Tables,
    handlers: &mut Vec<Handler>,
    slots: &[Slot],
) -> Result<(), NoMemory>
    ensures facts { OnOk result (AddsFacts kernel.now.image kernel.now.kept
        (flat_map (slot_facts kernel.now.image kernel.now.kept) slots.now) tables.old tables.new) }
    ensures handlers { OnOk result (handlers.new.items
        ≡ handlers.old.items ++ flat_map (handler_in kernel.now.image kernel.now.kept) slots.now) }
{
    for slot in slots {
        begin_slot(kernel, tables, handlers, slot)?;
    }
    Ok(())
}

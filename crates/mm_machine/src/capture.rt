//! Copying the state of a machine for a snapshot.

ghost use Rattle.std.specs.Prelude.{◌≡◌, ◌<◌, ◌^◌, ◌++◌, true, IfOk, map, slice_index_or};
ghost use Rattle.mm_model.specs.Memory.{IsPaged, is_mapped, zero_cell};
ghost use Rattle.mm_model.specs.State.{output_of};
ghost use Rattle.mm_model.specs.Fits.{slots_of};
ghost use Rattle.mm_machine.specs.Snapshot.{queued};
ghost use Rattle.mm_machine.specs.Capture.{OutputsBelow, cells_of};

use crate::validate::is_group_of;
use mm_mem::Inspect;
use mm_model::{CELLS, Event, Page, Slot};
use mm_thread::{Core, Output};
use mm_word::Cell;
use std::alloc::{AllocError, Global};

/// The slots of a core, by ascending number.
pub(crate) fn slots_of(alloc: Global, core: &Core) -> Result<Vec<Slot>, AllocError>
    ensures { IfOk result (λ slots. slots.items ≡ slots_of core.now) }
{
    let mut slots = Vec::with_capacity(alloc, core.count())?;
    for i in 0..core.count() {
        slots.push(core.nth(i).copy())?;
    }
    Ok(slots)
}

/// The events of the queues of a core, each with the number of the slot in whose queue it is.
pub fn events_of(alloc: Global, core: &Core) -> Result<Vec<(u8, Event)>, AllocError>
    ensures { IfOk result (λ events. events.items ≡ queued core.now) }
{
    let mut events = Vec::new(alloc);
    for i in 0..core.count() {
        let slot = core.nth(i);
        put_queue(&mut events, slot.number, core.queue(slot.number))?;
    }
    Ok(events)
}

/// Appends the events of a slot's queue, each with the slot's number.
fn put_queue(events: &mut Vec<(u8, Event)>, number: u8, queue: &[Event]) -> Result<(), AllocError>
    ensures { IfOk result (λ _. events.new.items ≡ events.old.items ++ map (λ e. (number, e)) queue.now) }
{
    for event in queue {
        events.push((number, *event))?;
    }
    Ok(())
}

/// The outputs of the groups that have a slot, by ascending group.
pub(crate) fn outputs_of(
    alloc: Global,
    core: &Core,
    slots: &[Slot],
) -> Result<Vec<Output>, AllocError>
    ensures { IfOk result (λ outputs. OutputsBelow core.now slots.now 64 outputs.items) }
{
    let mut outputs = Vec::new(alloc);
    for group in 0..64u8 {
        if is_group_of(slots, group) {
            outputs.push(output_copy(alloc, core, group)?)?;
        }
    }
    Ok(outputs)
}

/// A copy of a group's output.
fn output_copy(alloc: Global, core: &Core, group: u8) -> Result<Output, AllocError>
    ensures group { IfOk result (λ o. o.group ≡ group) }
    ensures bytes { IfOk result (λ o. o.bytes ≡ output_of core.now group) }
{
    let bytes = core.output(group).to_vec(alloc)?;
    Ok(Output { group, bytes })
}

/// The mapped pages of a memory, by ascending number.
pub(crate) fn pages_of<M: Inspect>(alloc: Global, mem: &M) -> Result<Vec<Page>, AllocError>
    requires { IsPaged (M.meaning mem.now) }
    ensures { IfOk result (λ pages. pages.items ≡ (M.meaning mem.now).pages) }
{
    let mut pages = Vec::with_capacity(alloc, mem.pages() as usize)?;
    for i in 0..mem.pages() {
        let number = mem.page_at(i);
        pages.push(page_copy(alloc, mem, number)?)?;
    }
    Ok(pages)
}

/// A copy of a mapped page.
fn page_copy<M: Inspect>(alloc: Global, mem: &M, number: u64) -> Result<Page, AllocError>
    requires paged { IsPaged (M.meaning mem.now) }
    requires number { number < 2 ^ 42 }
    requires mapped { is_mapped (M.meaning mem.now) number ≡ true }
    ensures { IfOk result (λ page. page ≡ (number, cells_of (M.meaning mem.now) number)) }
{
    let mut cells = Vec::with_capacity(alloc, CELLS)?;
    for cell_index in 0..CELLS {
        cells.push(cell_at(mem, number, cell_index))?;
    }
    Ok(Page::of(number, cells))
}

/// A cell of a mapped page.
fn cell_at<M: Inspect>(mem: &M, number: u64, cell_index: usize) -> Cell
    requires paged { IsPaged (M.meaning mem.now) }
    requires number { number < 2 ^ 42 }
    requires mapped { is_mapped (M.meaning mem.now) number ≡ true }
    requires cell_index { cell_index < 512 }
    ensures { result ≡ slice_index_or (cells_of (M.meaning mem.now) number) cell_index zero_cell }
{
    mem.peek(number * 4096 + 8 * cell_index as u64)
        .unwrap_or(Cell::ZERO)
}

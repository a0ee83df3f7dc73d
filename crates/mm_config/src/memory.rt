//! Noting what a turn changed of the memory.

ghost use Rattle.std.specs.Prelude.{◌≡◌, ◌<◌, ◌^◌, ◌%◌, nat_eq, IsTrue, OnOk};
ghost use Rattle.std.specs.FinMap.{is_sorted};
ghost use Rattle.std.specs.List.{common_prefix_len};
ghost use Rattle.std.specs.Ordering.{nat_cmp};
ghost use Rattle.mm_model.specs.Memory.{Memory as MemoryValue};
ghost use Rattle.mm_config.specs.Naming.{AreMemoryNames};
ghost use Rattle.mm_config.specs.Noting.{IsKeptStill, HasOtherPages, IsWrittenAt, HasOtherPage, mapped_pages};

use crate::names::Names;
use crate::pages::{DEPTH, page_of, put_page};
use crate::store::Store;
use mm_mem::{Inspect, PlainMem};
use std::alloc::AllocError;

/// Notes the page that was mapped or unmapped, given the pages that were mapped before, which are brought up to date.
pub(crate) fn note_page(
    store: &mut Store,
    names: &mut Names,
    mapped: &mut Vec<u64>,
    mem: &PlainMem,
) -> Result<(), AllocError>
    requires known { (m : MemoryValue) × HasOtherPage m mem.now.memory × IsTrue (is_sorted nat_cmp m.pages)
        × (mapped.old.items ≡ mapped_pages m) × AreMemoryNames store.old m names.old }
    ensures names { OnOk result (AreMemoryNames store.new mem.now.memory names.new) }
    ensures mapped { OnOk result (mapped.new.items ≡ mapped_pages mem.now.memory) }
    ensures still { OnOk result (IsKeptStill store.old store.new) }
    ensures others { OnOk result (HasOtherPages names.old names.new) }
{
    let at = first_other(mapped, mem);
    if mem.pages() as usize > mapped.len() {
        let number = mem.page_at(at as u32);
        mapped.insert(at, number)?;
        let page = store.pairs.join(1, 0)?;
        put_page(store, names, number, page)
    } else {
        let number = mapped.remove(at);
        put_page(store, names, number, 0)
    }
}

/// The index of the first page that is not the one of these numbers.
fn first_other(mapped: &[u64], mem: &PlainMem) -> usize
    ensures { result ≡ common_prefix_len nat_eq mapped.now (mapped_pages mem.now.memory) }
{
    let count = mem.pages() as usize;
    for at in 0..count {
        if at >= mapped.len() {
            return at;
        }
        if mem.page_at(at as u32) != mapped[at] {
            return at;
        }
    }
    count
}

/// Notes the cell of a word, which may have changed.
pub(crate) fn note_cell(
    store: &mut Store,
    names: &mut Names,
    mem: &PlainMem,
    word: u64,
) -> Result<(), AllocError>
    requires aligned { word % 8 ≡ 0 }
    requires small { word < 2 ^ 54 }
    requires known { (m : MemoryValue) × IsWrittenAt word m mem.now.memory × AreMemoryNames store.old m names.old }
    ensures names { OnOk result (AreMemoryNames store.new mem.now.memory names.new) }
    ensures still { OnOk result (IsKeptStill store.old store.new) }
    ensures others { OnOk result (HasOtherPages names.old names.new) }
{
    let Some(cell) = mem.peek(word) else {
        return Ok(());
    };
    let number = word / 4096;
    let page = page_of(store, names, number);
    let (_, cells) = store.pairs.parts(page);
    let name = store.cells.name(&cell)?;
    let cells = store.pairs.with_leaf(cells, DEPTH, word % 4096 / 8, name)?;
    let page = store.pairs.join(1, cells)?;
    put_page(store, names, number, page)
}

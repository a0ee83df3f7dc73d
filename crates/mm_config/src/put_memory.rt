//! Putting a memory to that of other names: what has other names is read.

ghost use Rattle.std.specs.Prelude.{◌≡◌, ◌<◌, ◌≤◌, ◌^◌, List, IfOk, OnOk, Some, length, true};
ghost use Rattle.mm_word.specs.declared.word.Cell.{Cell as CellValue};
ghost use Rattle.mm_model.specs.Memory.{Memory as MemoryValue, IsPaged, can_map, page_at, zero_page};
ghost use Rattle.mm_pairs.specs.Trees.{IsTree};
ghost use Rattle.mm_config.specs.Naming.{AreMemoryNames, IsOrNone, IsPageName};
ghost use Rattle.mm_config.specs.Noting.{HasMoreCells, IsSameTree};
ghost use Rattle.mm_config.specs.Putting.{CanPut, HasPut, IsPutSoFar};

use crate::names::Names;
use crate::pages::DEPTH;
use crate::store::Store;
use mm_mem::{Inspect, Memory, PlainMem};
use mm_pairs::Pairs;
use std::alloc::AllocError;

/// Trees of pages, and the places at which the second differs from the first, each with its page there.
#[derive(Drop)]
pub(crate) struct Changes<'a> {
    before: u32,
    after: u32,
    height: u32,
    list: &'a [(u64, u32)],
}

/// Puts a memory to that of other names. What is given besides is room for lists of changes.
pub(crate) fn put_memory(
    store: &mut Store,
    mem: &mut PlainMem,
    was: &Names,
    wanted: &Names,
    pages: &mut Vec<(u64, u32)>,
    cells: &mut Vec<(u64, u32)>,
) -> Result<(), AllocError>
    requires was { AreMemoryNames store.old mem.old.memory was.now }
    requires wanted { (m : MemoryValue) × IsPaged m × (m.frames ≡ mem.old.memory.frames)
        × AreMemoryNames store.old m wanted.now }
    ensures memory { OnOk result ((m : MemoryValue) → IsPaged m → m.frames ≡ mem.old.memory.frames
        → AreMemoryNames store.old m wanted.now → mem.new.memory ≡ m) }
    ensures uses { OnOk result (mem.new.uses ≡ mem.old.uses) }
    ensures more { OnOk result (HasMoreCells store.old store.new) }
{
    store.pages.apart();
    let _count = mem.pages();
    let height = was.height.max(wanted.height);
    let before = raised(&mut store.pairs, was, height)?;
    let after = raised(&mut store.pairs, wanted, height)?;
    pages.clear();
    store.pairs.list_changed(before, after, height, 0, pages)?;
    let changes = Changes {
        before,
        after,
        height,
        list: pages.as_slice(),
    };
    put_pages(store, mem, &changes, cells)?;
    let _count = mem.pages();
    Ok(())
}

/// The tree of pages, made as deep as this.
fn raised(pairs: &mut Pairs, names: &Names, height: u32) -> Result<u32, AllocError>
    requires tree { IsTree pairs.old names.now.height names.now.pages }
    requires deep { names.now.height ≤ height }
    ensures { IfOk result (λ tree.
        IsSameTree pairs.old names.now pairs.new (record names.now { height = height; pages = tree })) }
{
    let mut tree = names.pages;
    for _k in names.height..height {
        tree = pairs.join(tree, 0)?;
    }
    Ok(tree)
}

/// Puts the pages at which trees differ.
fn put_pages(
    store: &Store,
    mem: &mut PlainMem,
    changes: &Changes<'_>,
    cells: &mut Vec<(u64, u32)>,
) -> Result<(), AllocError>
    requires { CanPut store.now mem.old changes.now }
    ensures { OnOk result (IsPutSoFar store.now changes.now (λ index name. index < length changes.now.list.now) mem.old mem.new) }
{
    unmap_pages(store, mem, changes);
    for (place, page) in changes.list {
        let _count = mem.pages();
        if *page != 0 {
            let number = store.pages.number(*place);
            let before = store.pairs.leaf(changes.before, changes.height, *place);
            put_page(store, mem, number, before, *page, cells)?;
        }
    }
    Ok(())
}

/// Unmaps the pages that are mapped no more, so that there are frames for others.
fn unmap_pages(store: &Store, mem: &mut PlainMem, changes: &Changes<'_>)
    requires { CanPut store.now mem.old changes.now }
    ensures { IsPutSoFar store.now changes.now (λ index name. name ≡ 0) mem.old mem.new }
{
    for (place, page) in changes.list {
        if *page == 0 {
            mem.unmap(store.pages.number(*place));
        }
    }
}

/// Puts a page, given its name before and the one that is wanted.
fn put_page(
    store: &Store,
    mem: &mut PlainMem,
    number: u64,
    before: u32,
    page: u32,
    cells: &mut Vec<(u64, u32)>,
) -> Result<(), AllocError>
    requires number { number < 2 ^ 42 }
    requires known { IsOrNone (IsPageName store.now) (page_at mem.old.memory number) before }
    requires room { before ≡ 0 → can_map mem.old.memory number ≡ true }
    requires wanted { (cells : List CellValue) × IsPageName store.now cells page }
    ensures { OnOk result ((cells : List CellValue) → IsPageName store.now cells page
        → HasPut mem.old mem.new number (Some cells)) }
{
    map_unnamed(mem, number, before);
    let (_, was) = store.pairs.parts(before);
    let (_, wanted) = store.pairs.parts(page);
    cells.clear();
    store.pairs.list_changed(was, wanted, DEPTH, 0, cells)?;
    for (at, name) in cells.as_slice() {
        mem.put(number * 4096 + 8 * *at, store.cells.get(*name));
    }
    Ok(())
}

/// Maps a page that has no name before.
fn map_unnamed(mem: &mut PlainMem, number: u64, before: u32)
    requires number { number < 2 ^ 42 }
    requires room { before ≡ 0 → can_map mem.old.memory number ≡ true }
    ensures mapped { before ≡ 0 → HasPut mem.old mem.new number (Some zero_page) }
    ensures same { (before ≡ 0 → ⊥) → mem.new ≡ mem.old }
{
    if before == 0 {
        mem.map(number);
    }
}

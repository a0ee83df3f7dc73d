//! Trees of pages, each of which is a tree of cells.

ghost use Rattle.std.specs.Prelude.{◌≡◌, ◌<◌, ◌≤◌, ◌^◌, [], IfOk, IsTrue, OnOk, length, replicate};
ghost use Rattle.std.specs.FinMap.{is_sorted};
ghost use Rattle.std.specs.Ordering.{nat_cmp};
ghost use Rattle.mm_model.specs.Memory.{zero_cell};
ghost use Rattle.mm_pairs.specs.Trees.{IsTree};
ghost use Rattle.mm_config.specs.Naming.{AreCells, AreMemoryNames, IsTreeOfPages, page_name, IsLow};
ghost use Rattle.mm_config.specs.Noting.{HasMoreCells, HasOtherPages, HaveSamePlaces, IsKeptStill, IsSameTree, PutsPage};

use crate::cells::is_zero;
use crate::names::Names;
use crate::store::Store;
use mm_model::Page;
use mm_pairs::Pairs;
use mm_word::Cell;
use std::alloc::AllocError;

/// The depth of the tree of the cells of a page.
pub(crate) const DEPTH: u32 = 9;

/// The name of the tree of cells.
fn name_cells(store: &mut Store, cells: &[Cell], depth: u32) -> Result<u32, AllocError>
    requires count { length cells.now ≡ 2 ^ depth }
    requires small { depth < 64 }
    ensures tree { IfOk result (λ tree. AreCells store.new depth tree cells.now) }
    ensures more { OnOk result (HasMoreCells store.old store.new) }
{
    if depth == 0 {
        return store.cells.name(&cells[0]);
    }
    let half = 1 << (depth - 1);
    let (first, second) = cells.split_at(half);
    let left = name_cells(store, first, depth - 1)?;
    let right = name_cells(store, second, depth - 1)?;
    store.pairs.join(left, right)
}

/// Whether all of these cells are zeros.
fn are_zeros(cells: &[Cell]) -> bool
    ensures { IsTrue result → cells.now ≡ replicate (length cells.now) zero_cell }
{
    for cell in cells {
        if !is_zero(cell) {
            return false;
        }
    }
    true
}

/// The name of the tree of the cells of a page. A page of zeros, as many are, takes no walk.
fn name_page(store: &mut Store, cells: &[Cell]) -> Result<u32, AllocError>
    requires { length cells.now ≡ 512 }
    ensures tree { IfOk result (λ tree. AreCells store.new 9 tree cells.now) }
    ensures more { OnOk result (HasMoreCells store.old store.new) }
{
    if are_zeros(cells) {
        return Ok(0);
    }
    name_cells(store, cells, DEPTH)
}

/// Makes the tree of pages as deep as a place asks.
fn deepen(pairs: &mut Pairs, names: &mut Names, place: u64) -> Result<(), AllocError>
    requires place { place < 2 ^ 32 }
    requires tree { IsTree pairs.old names.old.height names.old.pages }
    requires few { names.old.height ≤ 32 }
    ensures { OnOk result (IsSameTree pairs.old names.old pairs.new names.new × (place < 2 ^ names.new.height)
        × (names.new.height ≤ 32)) }
{
    while place >> names.height != 0 {
        names.pages = pairs.join(names.pages, 0)?;
        names.height += 1;
    }
    Ok(())
}

/// Makes the tree of pages no deeper than its last page asks.
fn lower(pairs: &Pairs, names: &mut Names)
    requires { IsTree pairs.now names.old.height names.old.pages }
    ensures same { IsSameTree pairs.now names.old pairs.now names.new }
    ensures low { IsLow pairs.now names.new.height names.new.pages }
    ensures few { names.new.height ≤ names.old.height }
{
    while names.height > 0 {
        let (left, right) = pairs.parts(names.pages);
        if right != 0 {
            return;
        }
        names.pages = left;
        names.height -= 1;
    }
}

/// Puts a name for the page of a number. A page that is not mapped has the name 0, and any other that of the pair of 1 and
/// of its cells.
pub(crate) fn put_page(
    store: &mut Store,
    names: &mut Names,
    number: u64,
    page: u32,
) -> Result<(), AllocError>
    requires { IsTreeOfPages store.old names.old }
    ensures { OnOk result (PutsPage store.old names.old number page store.new names.new) }
{
    let place = u64::from(store.pages.place(number)?);
    deepen(&mut store.pairs, names, place)?;
    names.pages = store
        .pairs
        .with_leaf(names.pages, names.height, place, page)?;
    lower(&store.pairs, names);
    Ok(())
}

/// The name of a page.
pub(crate) fn page_of(store: &Store, names: &Names, number: u64) -> u32
    requires { IsTreeOfPages store.now names.now }
    ensures { result ≡ page_name store.now names.now number }
{
    let place = store.pages.find(number);
    if place >> names.height != 0 {
        return 0;
    }
    store.pairs.leaf(names.pages, names.height, place)
}

/// Whether trees of one depth have names at the same places: whether the same pages are mapped. It is a part of its
/// callers, so that equal halves take no call.
#[cycle(has_same_places)]
#[inline(always)]
pub(crate) fn has_same_places(pairs: &Pairs, was: u32, tree: u32, depth: u32) -> bool
    requires was { IsTree pairs.now depth was }
    requires tree { IsTree pairs.now depth tree }
    ensures { IsTrue result → HaveSamePlaces pairs.now depth was tree }
{
    was == tree || other_has_same_places(pairs, was, tree, depth)
}

/// Whether trees of one depth that are not the same have names at the same places.
#[cycle(has_same_places)]
#[inline(never)]
fn other_has_same_places(pairs: &Pairs, was: u32, tree: u32, depth: u32) -> bool
    requires was { IsTree pairs.now depth was }
    requires tree { IsTree pairs.now depth tree }
    ensures { IsTrue result → HaveSamePlaces pairs.now depth was tree }
{
    if depth == 0 {
        return was != 0 && tree != 0;
    }
    let (was_left, was_right) = pairs.parts(was);
    let (left, right) = pairs.parts(tree);
    if was_left == left {
        return has_same_places(pairs, was_right, right, depth - 1);
    }
    if !has_same_places(pairs, was_right, right, depth - 1) {
        return false;
    }
    has_same_places(pairs, was_left, left, depth - 1)
}

/// Notes the pages of an image.
pub(crate) fn note_pages(
    store: &mut Store,
    names: &mut Names,
    pages: &[Page],
) -> Result<(), AllocError>
    requires none { AreMemoryNames store.old (record { pages = []; frames = 0 }) names.old }
    requires rising { IsTrue (is_sorted nat_cmp pages.now) }
    ensures names { OnOk result (AreMemoryNames store.new (record { pages = pages.now; frames = 0 }) names.new) }
    ensures still { OnOk result (IsKeptStill store.old store.new) }
    ensures others { OnOk result (HasOtherPages names.old names.new) }
{
    for page in pages {
        let cells = name_page(store, page.cells())?;
        let name = store.pairs.join(1, cells)?;
        put_page(store, names, page.number(), name)?;
    }
    Ok(())
}

//! The pages of generated images: the code of each slot, and its data after it.
ghost use Rattle.std.specs.Prelude.{◌≡◌, true, ◌+◌, ◌*◌, ◌++◌, replicate, IfOk, OnOk};
ghost use Rattle.std.specs.List.{flat_map, range_with_len};
ghost use Rattle.mm_model.specs.Memory.{zero_cell};
ghost use Rattle.mm_gen.specs.Generated.{next_number, nth_number, code_page, data_page, loop as loop_of, code_cells};
ghost use Rattle.mm_gen.specs.Generated.{slot_pages};
ghost use Rattle.mm_gen.specs.Steps.{cells_behind, pages_behind};

use mm_isa::{AluOp, Instr, Reg, encode};
use mm_model::{CELLS, Page};
use mm_word::{Cell, Post, Pre, Word};
use std::alloc::{AllocError, Global};

/// The page of the first slot's code.
const FIRST_PAGE: u64 = 256;

/// The count of instructions in the code of a slot.
const LENGTH: usize = 5;

/// The number after a number in the series of pseudo-random numbers.
fn next_number(number: u64) -> u64
    ensures { result ≡ next_number number }
{
    number
        .wrapping_mul(0x5851_f42d_4c95_7f2d)
        .wrapping_add(0x1405_7b7e_f767_814f)
}

/// The page of a slot's code.
pub(crate) fn code_page(slot: u8) -> u64
    ensures { result ≡ code_page slot }
{
    FIRST_PAGE + 2 * u64::from(slot)
}

/// The page of a slot's data.
pub(crate) fn data_page(slot: u8) -> u64
    ensures { result ≡ data_page slot }
{
    code_page(slot) + 1
}

/// The code of a slot, a loop over its data: register 3 becomes the exclusive or of all words so far, and its low byte
/// is put out.
fn code() -> [Instr; LENGTH]
    ensures { result ≡ loop_of }
{
    let place = Reg::of(1);
    let word = Reg::of(2);
    let sum = Reg::of(3);
    [
        Instr::Ld {
            rd: word,
            ra: place,
            pre: Pre::Any,
            post: Post::Keep,
            imm: 0,
        },
        Instr::Alu {
            op: AluOp::Xor,
            rd: sum,
            ra: sum,
            rb: word,
        },
        Instr::Out { ra: sum },
        Instr::Leai {
            rd: place,
            ra: place,
            imm: 8,
        },
        Instr::Br { imm: -4 },
    ]
}

/// A cell that holds the word, and is full.
fn full_cell(word: Word) -> Cell
    ensures { result ≡ record { word = word; full = true } }
{
    Cell { word, full: true }
}

/// Appends `count` cells of zero.
fn push_zeros(cells: &mut Vec<Cell>, count: usize) -> Result<(), AllocError>
    ensures { OnOk result (cells.new.items ≡ cells.old.items ++ replicate count zero_cell) }
{
    for _ in 0..count {
        cells.push(full_cell(Word::Int(0)))?;
    }
    Ok(())
}

/// The cells of a slot's code, and zeros after it.
fn code_cells(alloc: Global) -> Result<Vec<Cell>, AllocError>
    ensures { IfOk result (λ cells. cells.items ≡ code_cells) }
{
    let mut cells = Vec::with_capacity(alloc, CELLS)?;
    for instruction in &code() {
        cells.push(full_cell(Word::Int(encode(instruction))))?;
    }
    push_zeros(&mut cells, CELLS - LENGTH)?;
    Ok(cells)
}

/// The cells of a slot's data: the 512 numbers after a number, which becomes the last of them.
fn data_cells(alloc: Global, number: &mut u64) -> Result<Vec<Cell>, AllocError>
    ensures last { OnOk result (number.new ≡ nth_number number.old 512) }
    ensures cells { IfOk result (λ cells. cells.items ≡ cells_behind number.old 512) }
{
    let mut cells = Vec::with_capacity(alloc, CELLS)?;
    for _ in 0..CELLS {
        *number = next_number(*number);
        cells.push(full_cell(Word::Int(*number)))?;
    }
    Ok(cells)
}

/// Appends the pages of a slot. Its data are the 512 numbers after a number, which becomes the last of them.
fn push_pages(
    alloc: Global,
    pages: &mut Vec<Page>,
    slot: u8,
    number: &mut u64,
) -> Result<(), AllocError>
    ensures last { OnOk result (number.new ≡ nth_number number.old 512) }
    ensures pages { OnOk result (pages.new.items ≡ pages.old.items ++ pages_behind number.old slot) }
{
    pages.push(Page::of(code_page(slot), code_cells(alloc)?))?;
    pages.push(Page::of(data_page(slot), data_cells(alloc, number)?))?;
    Ok(())
}

/// The pages of `size` slots, whose data are the series after a number.
pub(crate) fn pages(alloc: Global, number: u64, size: u8) -> Result<Vec<Page>, AllocError>
    ensures { IfOk result (λ pages. pages.items ≡ flat_map (slot_pages number) (range_with_len 0 size)) }
{
    let mut pages = Vec::with_capacity(alloc, 2 * usize::from(size))?;
    let mut last = number;
    for slot in 0..size {
        push_pages(alloc, &mut pages, slot, &mut last)?;
    }
    Ok(pages)
}

//! The frames, and the pages in them.

ghost use Rattle.std.specs.Prelude.{◌≡◌, ℕ, ◌+◌, ◌-◌, ◌*◌, ◌^◌, ◌<◌, ◌≤◌, nat_lt, IsTrue, IfOk, IfSome, IfNone, Some};
ghost use Rattle.std.specs.Prelude.{is_some, length, map, slice_get, vec_len};
ghost use Rattle.std.specs.List.{AllByRecursion};
ghost use Rattle.std.specs.Ordering.{nat_cmp};
ghost use Rattle.std.specs.FinMap.{is_sorted};
ghost use Rattle.std.specs.Vec.{vec_capacity};
ghost use Rattle.mm_model.specs.Flags.{one_if};
ghost use Rattle.mm_model.specs.Memory.{IsPage};
ghost use Rattle.mm_frames.specs.Framed.{memory_of, times, rows_with};

use crate::frame::Frame;
use crate::row::PageRow;
use crate::search::search;
use mm_mem::{BLOCK, Block};
use mm_model::Page;
use mm_word::{Cell, NoMemory};
use std::alloc::Global;
use std::marker::Model;

/// `count` frames of zeros.
fn zeros(alloc: Global, count: u32) -> Result<Vec<Frame>, NoMemory>
    ensures { IfOk result (λ v. vec_len v ≡ count) }
{
    let mut frames = Vec::with_capacity(alloc, count as usize)?;
    for _ in 0..count {
        let frame = Frame::new(alloc)?;
        frames.push(frame)?;
    }
    Ok(frames)
}

/// Copies each page into the frame with its index, and makes a row for it.
fn seat(rows: &mut Vec<PageRow>, frames: &mut Vec<Frame>, pages: &[Page])
    requires none { vec_len rows.old ≡ 0 }
    requires room { length pages.now ≤ vec_capacity rows.old }
    requires enough { length pages.now ≤ vec_len frames.old }
    requires few { vec_len frames.old < 2 ^ 32 }
    ensures contents { memory_of (record { rows = rows.new.items; cells = frames.new.items; reads = 0; writes = 0 })
        ≡ record { pages = pages.now; frames = vec_len frames.old } }
    ensures whole { AllByRecursion IsPage pages.now }
    ensures once { (n : ℕ) → rows_with n rows.new.items ≡ one_if (nat_lt n (length pages.now)) }
    ensures len { vec_len rows.new ≡ length pages.now }
    ensures frames { vec_len frames.new ≡ vec_len frames.old }
    ensures capacity { vec_capacity rows.old ≤ vec_capacity rows.new }
{
    for (i, page) in pages.iter().enumerate() {
        frames[i].copy(page);
        let Ok(()) = rows.push(PageRow {
            page: page.number(),
            frame: i as u32,
        }) else {
            unreachable!();
        };
    }
}

/// Makes the frames from `from` up to `count` free. The lowest is the first to be taken.
fn release(free: &mut Vec<u32>, from: u32, count: u32)
    requires none { vec_len free.old ≡ 0 }
    requires order { from ≤ count }
    requires room { count ≤ vec_capacity free.old }
    ensures len { vec_len free.new + from ≡ count }
    ensures once { (n : ℕ) → times n free.new.items + one_if (nat_lt n from) ≡ one_if (nat_lt n count) }
    ensures capacity { vec_capacity free.old ≤ vec_capacity free.new }
{
    for frame in (from..count).rev() {
        let Ok(()) = free.push(frame) else {
            unreachable!();
        };
    }
}

/// Frames of 512 cells, the pages that occupy them, and the counts of blocks that were read and written.
///
/// `new` allocates all frames; no later call allocates, and a page keeps its frame until it is removed or the frames
/// are reset. The frame of a page is found by a binary search over the mapped pages.
#[derive(Drop)]
pub struct Frames {
    rows: Vec<PageRow>,
    free: Vec<u32>,
    frames: Vec<Frame>,
    reads: u64,
    writes: u64,
}

impl Model for Frames {
    ghost use Rattle.std.specs.Prelude.{◌≤◌, vec_len};
    ghost use Rattle.std.specs.Vec.{vec_capacity};
    ghost use Rattle.mm_frames.specs.Framed.{Framed, IsFramed};

    ghost Value = { Framed };

    ghost view = { λ f. record { rows = f.rows.items; cells = f.frames.items; reads = f.reads; writes = f.writes } };

    ghost invariant = { λ f. record {
      framed : IsFramed (record { rows = f.rows.items; cells = f.frames.items; reads = f.reads; writes = f.writes })
          f.free.items;
      rows_fit : vec_len f.frames ≤ vec_capacity f.rows;
      free_fit : vec_len f.frames ≤ vec_capacity f.free;
    } };
}

impl Frames {
    ghost use Rattle.mm_model.specs.Memory.{IsPaged, is_mapped, can_map, cell_at};
    ghost use Rattle.mm_mem.specs.Answers.{after_map, after_unmap};
    ghost use Rattle.mm_mem.specs.Blocks.{block_in, block_at, put_block};
    ghost use Rattle.mm_frames.specs.Framed.{Framed, IsOccupied, IsFree, frame_of, cells_in, seated, without, written};

    /// Frames with these pages in them. All memory is allocated here.
    pub fn new(alloc: Global, pages: &[Page], frames: u32) -> Result<Frames, NoMemory>
        requires ascend { IsTrue (is_sorted nat_cmp pages.now) }
        requires fit { length pages.now ≤ frames }
        ensures contents { IfOk result (λ f. memory_of f ≡ record { pages = pages.now; frames = frames }) }
        ensures paged { IfOk result (λ f. IsPaged (memory_of f)) }
        ensures reads { IfOk result (λ f. f.reads ≡ 0) }
        ensures writes { IfOk result (λ f. f.writes ≡ 0) }
    {
        let mut rows = Vec::with_capacity(alloc, frames as usize)?;
        let mut free = Vec::with_capacity(alloc, frames as usize)?;
        let mut cells = zeros(alloc, frames)?;
        seat(&mut rows, &mut cells, pages);
        let taken = pages.len() as u32;
        release(&mut free, taken, frames);
        Ok(Frames {
            rows,
            free,
            frames: cells,
            reads: 0,
            writes: 0,
        })
    }

    /// The frame of a page, if the page is mapped.
    pub fn frame_of(&self, page: u64) -> Option<u32>
        ensures { result ≡ frame_of self.now page }
    {
        let i = search(&self.rows, page).ok()?;
        Some(self.rows[i].frame)
    }

    /// Maps a page to a free frame, which then holds integer zeros, full. `None` exactly if the page is mapped already
    /// or no frame is free.
    pub fn take(&mut self, page: u64) -> Option<u32>
        requires { page < 2 ^ 42 }
        ensures answer { is_some result ≡ can_map (memory_of self.old) page }
        ensures free { IfSome result (IsFree self.old) }
        ensures after { IfSome result (λ frame. self.new ≡ seated self.old page frame) }
        ensures same { IfNone result (self.new ≡ self.old) }
        ensures memory { memory_of self.new ≡ after_map (memory_of self.old) page }
    {
        let i = search(&self.rows, page).err()?;
        let frame = self.free.pop()?;
        self.frames[frame as usize].clear();
        let Ok(()) = self.rows.insert(i, PageRow { page, frame }) else {
            unreachable!();
        };
        Some(frame)
    }

    /// Removes a page. `false` exactly if the page is not mapped.
    pub fn give(&mut self, page: u64) -> bool
        ensures answer { result ≡ is_mapped (memory_of self.old) page }
        ensures after { self.new ≡ without self.old page }
        ensures memory { memory_of self.new ≡ after_unmap (memory_of self.old) page }
    {
        match search(&self.rows, page) {
            Err(_) => false,
            Ok(i) => {
                let row = self.rows.remove(i);
                let Ok(()) = self.free.push(row.frame) else {
                    unreachable!();
                };
                true
            }
        }
    }

    /// The count of mapped pages. They rise by number, each is whole, and there are no more than frames.
    pub fn pages(&self) -> u32
        ensures count { result ≡ length (memory_of self.now).pages }
        ensures paged { IsPaged (memory_of self.now) }
    {
        self.rows.len() as u32
    }

    /// The number of the i-th mapped page, ascending.
    pub fn page_at(&self, i: u32) -> u64
        requires { i < length (memory_of self.now).pages }
        ensures { slice_get (map (λ e. e.0) (memory_of self.now).pages) i ≡ Some result }
    {
        self.rows[i as usize].page
    }

    /// Makes these pages the whole contents, and sets both counts to 0.
    pub fn reset(&mut self, pages: &[Page])
        requires ascend { IsTrue (is_sorted nat_cmp pages.now) }
        requires fit { length pages.now ≤ length self.old.cells }
        ensures contents { memory_of self.new ≡ record { pages = pages.now; frames = length self.old.cells } }
        ensures paged { IsPaged (memory_of self.new) }
        ensures reads { self.new.reads ≡ 0 }
        ensures writes { self.new.writes ≡ 0 }
    {
        self.rows.clear();
        self.free.clear();
        seat(&mut self.rows, &mut self.frames, pages);
        let taken = pages.len() as u32;
        let frames = self.frames.len() as u32;
        release(&mut self.free, taken, frames);
        self.reads = 0;
        self.writes = 0;
    }

    /// Reads a block of a frame, which is counted. `block` is its place in the frame, 0 to 63.
    pub fn read_block(&mut self, frame: u32, block: u8) -> [Cell; BLOCK]
        requires occupied { IsOccupied self.old frame }
        requires in_page { block < 64 }
        requires room { self.old.reads < 2 ^ 64 - 1 }
        ensures cells { result ≡ block_in (cells_in self.old frame) block }
        ensures memory { (page : ℕ) → frame_of self.old page ≡ Some frame
            → block_at (memory_of self.old) (page * 64 + block) ≡ Some result }
        ensures after { self.new ≡ record self.old { reads = self.old.reads + 1 } }
    {
        self.read_packed(frame, block).cells()
    }

    /// Writes a block of a frame, which is counted. `block` is its place in the frame, 0 to 63.
    pub fn write_block(&mut self, frame: u32, block: u8, cells: &[Cell; BLOCK])
        requires occupied { IsOccupied self.old frame }
        requires in_page { block < 64 }
        requires room { self.old.writes < 2 ^ 64 - 1 }
        ensures after { self.new ≡ written self.old frame block cells.now }
        ensures memory { (page : ℕ) → frame_of self.old page ≡ Some frame
            → memory_of self.new ≡ put_block (memory_of self.old) (page * 64 + block) cells.now }
    {
        self.write_packed(frame, block, &Block::of(cells));
    }

    /// Reads a block as `read_block` does, and leaves it packed.
    pub fn read_packed(&mut self, frame: u32, block: u8) -> Block
        requires occupied { IsOccupied self.old frame }
        requires in_page { block < 64 }
        requires room { self.old.reads < 2 ^ 64 - 1 }
        ensures cells { result ≡ block_in (cells_in self.old frame) block }
        ensures whole { length result ≡ 8 }
        ensures after { self.new ≡ record self.old { reads = self.old.reads + 1 } }
    {
        self.reads += 1;
        self.frames[frame as usize].block(block as usize)
    }

    /// Writes a block as `write_block` does, from its packed form.
    pub fn write_packed(&mut self, frame: u32, block: u8, cells: &Block)
        requires occupied { IsOccupied self.old frame }
        requires in_page { block < 64 }
        requires whole { length cells.now ≡ 8 }
        requires room { self.old.writes < 2 ^ 64 - 1 }
        ensures after { self.new ≡ written self.old frame block cells.now }
        ensures memory { (page : ℕ) → frame_of self.old page ≡ Some frame
            → memory_of self.new ≡ put_block (memory_of self.old) (page * 64 + block) cells.now }
    {
        self.writes += 1;
        self.frames[frame as usize].put(block as usize, cells);
    }

    /// The cell of a frame at an index, 0 to 511. It is not counted.
    pub fn peek_cell(&self, frame: u32, index: u16) -> Cell
        requires occupied { IsOccupied self.now frame }
        requires in_page { index < 512 }
        ensures cell { slice_get (cells_in self.now frame) index ≡ Some result }
        ensures memory { (page : ℕ) → frame_of self.now page ≡ Some frame
            → cell_at (memory_of self.now) (page * 4096 + index * 8) ≡ Some result }
    {
        self.frames[frame as usize].cell(index as usize)
    }

    /// The count of blocks that were read.
    pub fn reads(&self) -> u64
        ensures { result ≡ self.now.reads }
    {
        self.reads
    }

    /// The count of blocks that were written.
    pub fn writes(&self) -> u64
        ensures { result ≡ self.now.writes }
    {
        self.writes
    }
}

//! A flat memory: pages in ascending order, and the frames without a page.

ghost use Rattle.std.specs.Prelude.{◌≡◌, ◌+◌, ◌%◌, ◌^◌, ◌<◌, ◌≤◌, IsTrue, IfOk, IfSome, IfNone, Some, None, length};
ghost use Rattle.std.specs.Prelude.{map, slice_get, vec_len};
ghost use Rattle.std.specs.Vec.{vec_capacity};
ghost use Rattle.std.specs.List.{AllByRecursion};
ghost use Rattle.std.specs.Ordering.{nat_cmp};
ghost use Rattle.std.specs.FinMap.{is_sorted};
ghost use Rattle.mm_model.specs.Memory.{IsPage, page_of, place_of};

use crate::frame::Frame;
use crate::search::search;
use mm_model::Page;
use mm_word::{Cell, NoMemory};
use std::alloc::Global;
use std::marker::Model;

/// The number of the page that a word lies in.
fn page_of(word: u64) -> u64
    ensures { result ≡ page_of word }
{
    word / 4096
}

/// The index of a word's cell in its page.
fn place_of(word: u64) -> usize
    ensures place { result ≡ place_of word }
    ensures within { result < 512 }
{
    (word % 4096 / 8) as usize
}

/// `count` frames without a page.
fn free_frames(alloc: Global, count: u32) -> Result<Vec<Frame>, NoMemory>
    ensures len { IfOk result (λ v. vec_len v ≡ count) }
    ensures room { IfOk result (λ v. count ≤ vec_capacity v) }
{
    let mut free = Vec::with_capacity(alloc, count as usize)?;
    for _ in 0..count {
        let frame = Frame::new(alloc)?;
        free.push(frame)?;
    }
    Ok(free)
}

/// Copies each page into a free frame, in the order of the pages.
fn seat(used: &mut Vec<Frame>, free: &mut Vec<Frame>, pages: &[Page])
    requires none { vec_len used.old ≡ 0 }
    requires room { length pages.now ≤ vec_capacity used.old }
    requires enough { length pages.now ≤ vec_len free.old }
    ensures items { used.new.items ≡ pages.now }
    ensures whole { AllByRecursion IsPage pages.now }
    ensures left { vec_len free.new + length pages.now ≡ vec_len free.old }
    ensures used_capacity { vec_capacity used.old ≤ vec_capacity used.new }
    ensures free_capacity { vec_capacity free.new ≡ vec_capacity free.old }
{
    for page in pages {
        let Some(mut frame) = free.pop() else {
            unreachable!();
        };
        frame.copy(page);
        let Ok(()) = used.push(frame) else {
            unreachable!();
        };
    }
}

// Pages in ascending order, and the frames without a page. Contracts see a flat memory.
#[derive(Drop)]
pub(crate) struct FlatPages {
    pages: Vec<Frame>,
    free: Vec<Frame>,
    frames: u32,
}

impl Model for FlatPages {
    ghost use Rattle.std.specs.Prelude.{◌≡◌, ◌+◌, ◌^◌, ◌<◌, ◌≤◌, vec_len};
    ghost use Rattle.std.specs.Vec.{vec_capacity};
    ghost use Rattle.mm_model.specs.Memory.{Memory, IsPaged};

    ghost Value = { Memory };

    ghost view = { λ m. record { pages = m.pages.items; frames = m.frames } };

    ghost invariant = { λ m. record {
      paged : IsPaged (record { pages = m.pages.items; frames = m.frames });
      small : m.frames < 2 ^ 32;
      counted : vec_len m.pages + vec_len m.free ≡ m.frames;
      pages_fit : m.frames ≤ vec_capacity m.pages;
      free_fit : m.frames ≤ vec_capacity m.free;
    } };
}

impl FlatPages {
    ghost use Rattle.mm_mem.specs.Places.{IsAt};
    ghost use Rattle.mm_mem.specs.Answers.{after_map, after_unmap};
    ghost use Rattle.mm_model.specs.Memory.{IsPaged, page_at, is_mapped, cell_at, put_cell, can_map};

    /// The memory of these pages. All its frames are allocated here.
    pub(crate) fn new(alloc: Global, pages: &[Page], frames: u32) -> Result<FlatPages, NoMemory>
        requires ascend { IsTrue (is_sorted nat_cmp pages.now) }
        requires fit { length pages.now ≤ frames }
        ensures { IfOk result (λ m. m ≡ record { pages = pages.now; frames = frames }) }
    {
        let mut free = free_frames(alloc, frames)?;
        let mut used = Vec::with_capacity(alloc, frames as usize)?;
        seat(&mut used, &mut free, pages);
        Ok(FlatPages {
            pages: used,
            free,
            frames,
        })
    }

    /// The index of a word's page among the mapped pages; `None` if it is not mapped.
    pub(crate) fn find(&self, word: u64) -> Option<usize>
        ensures found { IfSome result (IsAt (page_of word) self.now.pages) }
        ensures unmapped { IfNone result (page_at self.now (page_of word) ≡ None) }
        ensures absent { IfNone result (cell_at self.now word ≡ None) }
    {
        search(&self.pages, page_of(word)).ok()
    }

    /// The cell of a word whose page has this index.
    pub(crate) fn cell(&self, i: usize, word: u64) -> Cell
        requires here { IsAt (page_of word) self.now.pages i }
        requires aligned { word % 8 ≡ 0 }
        ensures { cell_at self.now word ≡ Some result }
    {
        self.pages[i].cell(place_of(word))
    }

    /// Writes the cell of a word whose page has this index.
    pub(crate) fn put(&mut self, i: usize, word: u64, cell: Cell)
        requires { IsAt (page_of word) self.old.pages i }
        ensures { self.new ≡ put_cell self.old word cell }
    {
        let frame = &mut self.pages[i];
        frame.put(place_of(word), cell);
    }

    /// Maps a page of integer zeros, full, if it is not mapped and a frame is free; says whether it
    /// did.
    pub(crate) fn map(&mut self, page: u64) -> bool
        requires { page < 2 ^ 42 }
        ensures answer { result ≡ can_map self.old page }
        ensures after { self.new ≡ after_map self.old page }
    {
        match search(&self.pages, page) {
            Ok(_) => false,
            Err(i) => match self.free.pop() {
                None => false,
                Some(mut frame) => {
                    frame.clear(page);
                    let Ok(()) = self.pages.insert(i, frame) else {
                        unreachable!();
                    };
                    true
                }
            },
        }
    }

    /// Removes a page, if it is mapped; says whether it was.
    pub(crate) fn unmap(&mut self, page: u64) -> bool
        ensures answer { result ≡ is_mapped self.old page }
        ensures after { self.new ≡ after_unmap self.old page }
    {
        match search(&self.pages, page) {
            Err(_) => false,
            Ok(i) => {
                let frame = self.pages.remove(i);
                let Ok(()) = self.free.push(frame) else {
                    unreachable!();
                };
                true
            }
        }
    }

    /// The number of mapped pages.
    pub(crate) fn len(&self) -> u32
        ensures count { result ≡ length self.now.pages }
        ensures paged { IsPaged self.now }
    {
        self.pages.len() as u32
    }

    /// The number of the i-th page.
    pub(crate) fn number(&self, i: u32) -> u64
        requires { i < length self.now.pages }
        ensures { slice_get (map (λ e. e.0) self.now.pages) i ≡ Some result }
    {
        self.pages[i as usize].number()
    }

    /// Makes these pages the whole contents, in the frames that `new` took.
    pub(crate) fn reset(&mut self, pages: &[Page])
        requires ascend { IsTrue (is_sorted nat_cmp pages.now) }
        requires fit { length pages.now ≤ self.old.frames }
        ensures contents { self.new ≡ record { pages = pages.now; frames = self.old.frames } }
        ensures paged { IsPaged self.new }
    {
        let Ok(()) = self.free.append(&mut self.pages) else {
            unreachable!();
        };
        seat(&mut self.pages, &mut self.free, pages);
    }
}

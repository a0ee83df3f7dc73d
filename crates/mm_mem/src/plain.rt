//! The plain memory.

ghost use Rattle.std.specs.Prelude.{◌≡◌, ◌≤◌, [], IsTrue, IfOk, None, length};
ghost use Rattle.std.specs.Ordering.{nat_cmp};
ghost use Rattle.std.specs.FinMap.{is_sorted};
ghost use Rattle.mm_model.specs.Uses.{accesses};
ghost use Rattle.mm_model.specs.Memory.{IsPaged};

use crate::flat::FlatPages;
use crate::{Boot, Inspect, Loaded, Memory, Reset, Stored, full_after, passes};
use mm_model::{Counts, Page};
use mm_word::{Access, Cell, NoMemory, Post, Pre, Word};
use std::alloc::Global;
use std::marker::Model;

/// The plain memory, the yardstick of the others: pages in ascending order, and a count of the accesses.
///
/// A look-up is a binary search. `new` allocates the frames; no later call allocates or moves the cells of a page.
#[derive(Drop)]
pub struct PlainMem {
    flat: FlatPages,
    uses: u64,
}

impl Model for PlainMem {
    ghost use Rattle.mm_mem.specs.Plain.{Plain};

    ghost Value = { Plain };

    ghost view = { λ m. record { memory = m.flat; uses = m.uses } };
}

#[tactic(auto, using(crate::proofs::Counted::one_access, crate::proofs::Counted::no_access))]
impl Memory for PlainMem {
    ghost meaning = { λ m. m.memory };

    ghost uses = { λ m. m.uses };

    ghost stands = { λ m us. m.uses ≡ accesses us };

    ghost counted = { λ m us h. h };

    fn fetch(&mut self, a: &Access) -> Option<Word> {
        self.uses += 1;
        let word = a.addr();
        let i = self.flat.find(word)?;
        Some(self.flat.cell(i, word).word)
    }

    fn load(&mut self, a: &Access, pre: Pre, post: Post) -> Loaded {
        self.uses += 1;
        let word = a.addr();
        let Some(i) = self.flat.find(word) else {
            return Loaded::NoPage;
        };
        let cell = self.flat.cell(i, word);
        if !passes(pre, cell.full) {
            return Loaded::NotReady;
        }
        match post {
            Post::Keep => {}
            Post::Full => self.flat.put(i, word, Cell { full: true, ..cell }),
            Post::Empty => self.flat.put(
                i,
                word,
                Cell {
                    full: false,
                    ..cell
                },
            ),
        }
        Loaded::Value(cell.word)
    }

    fn store(&mut self, a: &Access, w: Word, pre: Pre, post: Post) -> Stored {
        self.uses += 1;
        let word = a.addr();
        let Some(i) = self.flat.find(word) else {
            return Stored::NoPage;
        };
        let full = self.flat.cell(i, word).full;
        if !passes(pre, full) {
            return Stored::NotReady;
        }
        let full = full_after(post, full);
        self.flat.put(i, word, Cell { word: w, full });
        Stored::Done
    }

    fn map(&mut self, page: u64) -> bool {
        self.flat.map(page)
    }

    fn unmap(&mut self, page: u64) -> bool {
        self.flat.unmap(page)
    }
}

impl Inspect for PlainMem {
    ghost tells = { λ us. None };

    fn peek(&self, word: u64) -> Option<Cell> {
        let i = self.flat.find(word)?;
        Some(self.flat.cell(i, word))
    }

    // The pages of every plain memory rise by number, each is whole, and there are no more than frames.
    fn pages(&self) -> u32
        ensures count { result ≡ length self.now.memory.pages }
        ensures paged { IsPaged self.now.memory }
    {
        self.flat.len()
    }

    fn page_at(&self, i: u32) -> u64 {
        self.flat.number(i)
    }

    fn counts(&self) -> Option<Counts>
        ensures { result ≡ None }
    {
        None
    }
}

impl Boot for PlainMem {
    fn new(alloc: Global, pages: &[Page], frames: u32) -> Result<PlainMem, NoMemory>
        requires some { 1 ≤ frames }
        requires few { frames ≤ 4096 }
        requires ascend { IsTrue (is_sorted nat_cmp pages.now) }
        requires fit { length pages.now ≤ frames }
        ensures meaning { IfOk result (λ m. m.memory ≡ record { pages = pages.now; frames = frames }) }
        ensures stands { IfOk result (λ m. m.uses ≡ accesses []) }
        ensures paged { IfOk result (λ m. IsPaged m.memory) }
    {
        let flat = FlatPages::new(alloc, pages, frames)?;
        Ok(PlainMem { flat, uses: 0 })
    }
}

impl Reset for PlainMem {
    fn reset(&mut self, pages: &[Page])
        requires ascend { IsTrue (is_sorted nat_cmp pages.now) }
        requires fit { length pages.now ≤ self.old.memory.frames }
        ensures meaning { self.new.memory ≡ record { pages = pages.now; frames = self.old.memory.frames } }
        ensures stands { self.new.uses ≡ accesses [] }
        ensures paged { IsPaged self.new.memory }
    {
        self.flat.reset(pages);
        self.uses = 0;
    }
}

impl PlainMem {
    ghost use Rattle.std.specs.Prelude.{◌%◌};
    ghost use Rattle.mm_model.specs.Memory.{put_cell};

    /// Makes this the cell of a word, and counts no access. An unmapped word has none, and nothing changes.
    pub fn put(&mut self, word: u64, cell: Cell)
        ensures memory { self.new.memory ≡ put_cell self.old.memory word cell }
        ensures uses { self.new.uses ≡ self.old.uses }
    {
        if let Some(i) = self.flat.find(word) {
            self.flat.put(i, word, cell);
        }
    }

    /// Begins the count of accesses anew.
    pub fn recount(&mut self)
        ensures memory { self.new.memory ≡ self.old.memory }
        ensures uses { self.new.uses ≡ 0 }
    {
        self.uses = 0;
    }
}

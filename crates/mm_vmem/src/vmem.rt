//! The cached memory.

ghost use Rattle.std.specs.Prelude.{◌≡◌, ◌+◌, ◌-◌, ◌*◌, ◌^◌, ◌%◌, ◌<◌, ◌≤◌, ◌&&◌, Bool, true, false, [], ◌∷◌, ◌++◌};
ghost use Rattle.std.specs.Prelude.{IsTrue, IfOk, IfSome, IfNone, List, length, is_some, slice_set};
ghost use Rattle.std.specs.Ordering.{nat_cmp};
ghost use Rattle.std.specs.FinMap.{is_sorted};
ghost use Rattle.mm_word.specs.declared.perm.Kind.{Kind};
ghost use Rattle.mm_model.specs.Memory.{IsPaged, cell_at, put_cell};
ghost use Rattle.mm_model.specs.Uses.{Use, Accessed};
ghost use Rattle.mm_model.specs.Counted.{block_of, line_of, page_of_block, page_of_old, writes as writes_of};
ghost use Rattle.mm_frames.specs.Framed.{frame_of};
ghost use Rattle.mm_cache.specs.Lines.{hits, emptied};
ghost use Rattle.mm_vmem.specs.Stands.{state_at, sought, after_looks, next_numbers};
ghost use Rattle.mm_vmem.specs.Entries.{pages_in, after_look_up};
ghost use Rattle.mm_vmem.specs.Cached.{AreFew, meaning, StandsTo, tells, line_states, old_block, looked, gone_back};

use crate::tlb::Tlb;
use mm_cache::Lines;
use mm_frames::Frames;
use mm_mem::{Boot, Inspect, Loaded, Memory, Reset, Stored, full_after, passes};
use mm_model::{Counts, Page};
use mm_word::{Access, Cell, NoMemory, Post, Pre, Word};
use std::alloc::Global;
use std::marker::Model;

// Counts of the lines and of the TLB; the frames count their blocks themselves.
#[derive(Clone, Copy, Drop)]
struct Tally {
    hits: u64,
    misses: u64,
    writebacks: u64,
    tlb_hits: u64,
    tlb_misses: u64,
}

const NOTHING: Tally = Tally {
    hits: 0,
    misses: 0,
    writebacks: 0,
    tlb_hits: 0,
    tlb_misses: 0,
};

/// The cached memory: a write-back cache of 64 lines over pages in frames, with a translation buffer (TLB) of 16
/// entries. It counts what they do.
///
/// An access whose block is in its line is a hit, and reads or writes there. A miss first makes room: a dirty block is
/// written back to its frame, by a look-up of its page. Then its own page is looked up, and its block is read from the
/// frame. `new` allocates all memory; no later call allocates.
#[derive(Drop)]
pub struct VMem {
    frames: Frames,
    lines: Lines,
    tlb: Tlb,
    tally: Tally,
    // Accesses that did not hit: those that missed, and those that found no page.
    others: u64,
}

impl Model for VMem {
    ghost use Rattle.mm_vmem.specs.Cached.{Cached, IsCached, cached_of};

    ghost Value = { Cached };

    ghost view = { λ m. cached_of m.frames m.lines m.tlb m.tally m.others };

    ghost invariant = { λ m. IsCached (cached_of m.frames m.lines m.tlb m.tally m.others) };
}

impl VMem {
    /// The cell of a word, by an access that is counted; the word's block is then in its line. `None` if its page is not
    /// mapped.
    #[inline(always)]
    fn touch(&mut self, word: u64) -> Option<Cell>
        requires aligned { word % 8 ≡ 0 }
        requires small { word < 2 ^ 54 }
        requires room { self.old.uses < 2 ^ 62 }
        ensures answer { result ≡ cell_at (meaning self.old) word }
        ensures after { meaning self.new ≡ meaning self.old }
        ensures count { self.new.uses ≡ self.old.uses + 1 }
        ensures there { IfSome result (λ cell. hits self.new.lines (block_of word) ≡ true) }

        // Each list of uses that belonged to the memory, with this access appended, belongs to it, if the access wrote
        // nothing.
        ensures takes { (us : List Use) (kind : Kind) (done : Bool) → (writes_of kind && done) ≡ false
            → StandsTo self.old us
            → StandsTo self.new (us ++ Accessed kind word (is_some result) done ∷ []) }
    {
        match self.lines.cell(word) {
            Some(cell) => {
                self.tally.hits += 1;
                Some(cell)
            }
            None => {
                self.others += 1;
                self.miss(word)
            }
        }
    }

    /// Brings the block of a word into its line, which does not have it, and gives the word's cell; `None`, and nothing
    /// is brought, if its page is not mapped.
    #[inline(always)]
    fn miss(&mut self, word: u64) -> Option<Cell>
        requires aligned { word % 8 ≡ 0 }
        requires small { word < 2 ^ 54 }
        requires absent { hits self.old.lines (block_of word) ≡ false }
        requires some { 0 < self.old.uses }
        requires room { self.old.uses ≤ 2 ^ 62 }
        requires few { AreFew self.old.numbers (self.old.uses - 1) }
        ensures answer { result ≡ cell_at (meaning self.old) word }
        ensures after { meaning self.new ≡ meaning self.old }
        ensures count { self.new.uses ≡ self.old.uses }
        ensures there { IfSome result (λ cell. hits self.new.lines (block_of word) ≡ true) }
        ensures same { IfNone result (self.new ≡ self.old) }
        ensures lines { IfSome result (λ cell. line_states self.new.lines ≡ slice_set (line_states self.old.lines)
            (line_of (block_of word)) (Some (record { block = block_of word; dirty = false }))) }
        ensures entries { IfSome result (λ cell. pages_in self.new.entries ≡ after_looks
            (sought (state_at (line_states self.old.lines) (line_of (block_of word))) (block_of word))
            (pages_in self.old.entries)) }
        ensures numbers { IfSome result (λ cell. self.new.numbers ≡ next_numbers
            (state_at (line_states self.old.lines) (line_of (block_of word))) (block_of word)
            (pages_in self.old.entries) self.old.numbers) }
    {
        if !self.bring_mapped(word / 64) {
            return None;
        }
        self.lines.cell(word)
    }

    /// Brings a block into its line, which does not have it. `false`, and nothing is brought, if its page is not mapped. It
    /// stays a call, and gives no cell, so that a hit need not clear a place for one.
    #[inline(never)]
    fn bring_mapped(&mut self, block: u64) -> bool
        requires small { block < 2 ^ 48 }
        requires absent { hits self.old.lines block ≡ false }
        requires some { 0 < self.old.uses }
        requires room { self.old.uses ≤ 2 ^ 62 }
        requires few { AreFew self.old.numbers (self.old.uses - 1) }
        ensures answer { result ≡ is_some (frame_of self.old.frames (page_of_block block)) }
        ensures after { meaning self.new ≡ meaning self.old }
        ensures count { self.new.uses ≡ self.old.uses }
        ensures there { result ≡ true → hits self.new.lines block ≡ true }
        ensures same { result ≡ false → self.new ≡ self.old }
        ensures lines { result ≡ true → line_states self.new.lines ≡ slice_set (line_states self.old.lines)
            (line_of block) (Some (record { block = block; dirty = false })) }
        ensures entries { result ≡ true → pages_in self.new.entries ≡ after_looks
            (sought (state_at (line_states self.old.lines) (line_of block)) block) (pages_in self.old.entries) }
        ensures numbers { result ≡ true → self.new.numbers
            ≡ next_numbers (state_at (line_states self.old.lines) (line_of block)) block
            (pages_in self.old.entries) self.old.numbers }
    {
        let Some(frame) = self.frame_of(block / 64) else {
            return false;
        };
        self.bring(block, frame);
        true
    }

    /// Brings a block into its line, which does not have it, from the frame of its page.
    fn bring(&mut self, block: u64, frame: u32)
        requires small { block < 2 ^ 48 }
        requires absent { hits self.old.lines block ≡ false }
        requires frame { frame_of self.old.frames (page_of_block block) ≡ Some frame }
        requires some { 0 < self.old.uses }
        requires room { self.old.uses ≤ 2 ^ 62 }
        requires few { AreFew self.old.numbers (self.old.uses - 1) }
        ensures there { hits self.new.lines block ≡ true }
        ensures after { meaning self.new ≡ meaning self.old }
        ensures count { self.new.uses ≡ self.old.uses }
        ensures lines { line_states self.new.lines ≡ slice_set (line_states self.old.lines) (line_of block)
            (Some (record { block = block; dirty = false })) }
        ensures entries { pages_in self.new.entries ≡ after_looks
            (sought (state_at (line_states self.old.lines) (line_of block)) block) (pages_in self.old.entries) }
        ensures numbers { self.new.numbers ≡ next_numbers (state_at (line_states self.old.lines) (line_of block)) block
            (pages_in self.old.entries) self.old.numbers }
    {
        self.tally.misses += 1;
        self.make_room(block);
        self.look_up(block / 64, frame);
        let cells = self.frames.read_packed(frame, (block % 64) as u8);
        self.lines.fill_packed(block, cells);
    }

    /// Empties the line of a block, which does not have it, and writes the line's old block back if that is dirty.
    fn make_room(&mut self, block: u64)
        requires absent { hits self.old.lines block ≡ false }
        requires room { self.old.uses ≤ 2 ^ 62 }
        requires writebacks { self.old.numbers.writebacks < self.old.uses }
        requires writes { self.old.numbers.writes < self.old.uses }
        requires look_ups { self.old.numbers.tlb_hits + self.old.numbers.tlb_misses < 2 * self.old.uses }
        ensures lines { self.new.lines ≡ emptied self.old.lines (line_of block) }
        ensures after { meaning self.new ≡ meaning self.old }
        ensures pages { self.new.frames.rows ≡ self.old.frames.rows }
        ensures count { self.new.uses ≡ self.old.uses }
        ensures entries { pages_in self.new.entries ≡ after_looks (page_of_old (old_block self.old block))
            (pages_in self.old.entries) }
        ensures numbers { self.new.numbers ≡ gone_back (old_block self.old block)
            (pages_in self.old.entries) self.old.numbers }
    {
        if let Some(victim) = self.lines.evict_packed((block % 64) as u8) {
            let page = victim.block / 64;
            let Some(frame) = self.frame_of(page) else {
                unreachable!();
            };
            self.tally.writebacks += 1;
            self.look_up(page, frame);
            self.frames
                .write_packed(frame, (victim.block % 64) as u8, &victim.cells);
        }
    }

    /// The frame of a page: that of the TLB's entry, or else the one found among the mapped pages.
    fn frame_of(&self, page: u64) -> Option<u32>
        ensures { result ≡ frame_of self.now.frames page }
    {
        match self.tlb.find(page) {
            Some(frame) => Some(frame),
            None => self.frames.frame_of(page),
        }
    }

    /// Looks up a page in the TLB, and counts whether it was there.
    fn look_up(&mut self, page: u64, frame: u32)
        requires frame { frame_of self.old.frames page ≡ Some frame }
        requires room { self.old.uses ≤ 2 ^ 62 }
        requires few { self.old.numbers.tlb_hits + self.old.numbers.tlb_misses < 2 * self.old.uses }
        ensures { self.new ≡ record self.old {
          entries = after_look_up (record { page = page; frame = frame }) self.old.entries;
          numbers = looked page
              (pages_in self.old.entries) self.old.numbers;
        } }
    {
        if self.tlb.look_up(page, frame) {
            self.tally.tlb_hits += 1;
        } else {
            self.tally.tlb_misses += 1;
        }
    }

    /// Writes the cell of a word whose block is in its line.
    #[inline(always)]
    fn write(&mut self, word: u64, cell: Cell)
        requires { hits self.old.lines (block_of word) ≡ true }
        ensures after { meaning self.new ≡ put_cell (meaning self.old) word cell }
        ensures count { self.new.uses ≡ self.old.uses }

        // The access of this word, which had written nothing, has now written.
        ensures takes { (us : List Use) (kind : Kind) → writes_of kind ≡ true
            → StandsTo self.old (us ++ Accessed kind word true false ∷ [])
            → StandsTo self.new (us ++ Accessed kind word true true ∷ []) }
    {
        self.lines.put(word, cell);
    }
}

impl Memory for VMem {
    ghost meaning = { meaning };

    ghost uses = { λ m. m.uses };

    ghost stands = { StandsTo };

    ghost counted = { λ m us h. h.count };

    #[inline(always)]
    fn fetch(&mut self, a: &Access) -> Option<Word> {
        match self.touch(a.addr()) {
            Some(cell) => Some(cell.word),
            None => None,
        }
    }

    #[inline(always)]
    fn load(&mut self, a: &Access, pre: Pre, post: Post) -> Loaded {
        let word = a.addr();
        let Some(cell) = self.touch(word) else {
            return Loaded::NoPage;
        };
        if !passes(pre, cell.full) {
            return Loaded::NotReady;
        }
        match post {
            Post::Keep => {}
            Post::Full => self.write(word, Cell { full: true, ..cell }),
            Post::Empty => self.write(
                word,
                Cell {
                    full: false,
                    ..cell
                },
            ),
        }
        Loaded::Value(cell.word)
    }

    #[inline(always)]
    fn store(&mut self, a: &Access, w: Word, pre: Pre, post: Post) -> Stored {
        let word = a.addr();
        let Some(cell) = self.touch(word) else {
            return Stored::NoPage;
        };
        if !passes(pre, cell.full) {
            return Stored::NotReady;
        }
        let full = full_after(post, cell.full);
        self.write(word, Cell { word: w, full });
        Stored::Done
    }

    fn map(&mut self, page: u64) -> bool {
        self.frames.take(page).is_some()
    }

    // The page's lines go without a write-back, and the TLB is emptied.
    fn unmap(&mut self, page: u64) -> bool {
        let removed = self.frames.give(page);
        if removed {
            self.lines.drop_page(page);
            self.tlb.clear();
        }
        removed
    }
}

impl Inspect for VMem {
    ghost tells = { tells };

    fn peek(&self, word: u64) -> Option<Cell> {
        match self.lines.cell(word) {
            Some(cell) => Some(cell),
            None => {
                let frame = self.frames.frame_of(word / 4096)?;
                Some(self.frames.peek_cell(frame, (word % 4096 / 8) as u16))
            }
        }
    }

    // The pages of every cached memory rise by number, each is whole, and there are no more than frames.
    fn pages(&self) -> u32
        ensures count { result ≡ length (meaning self.now).pages }
        ensures paged { IsPaged (meaning self.now) }
    {
        self.frames.pages()
    }

    fn page_at(&self, i: u32) -> u64 {
        self.frames.page_at(i)
    }

    fn counts(&self) -> Option<Counts>
        ensures told { (us : List Use) → StandsTo self.now us → result ≡ tells us }
        ensures numbers { result ≡ Some self.now.numbers }

        // The frames' own counts are the last two.
        ensures frames { IfSome result (λ n. (n.reads ≡ self.now.frames.reads) × (n.writes ≡ self.now.frames.writes)) }
    {
        Some(Counts {
            hits: self.tally.hits,
            misses: self.tally.misses,
            writebacks: self.tally.writebacks,
            tlb_hits: self.tally.tlb_hits,
            tlb_misses: self.tally.tlb_misses,
            reads: self.frames.reads(),
            writes: self.frames.writes(),
        })
    }
}

impl Boot for VMem {
    fn new(alloc: Global, pages: &[Page], frames: u32) -> Result<VMem, NoMemory>
        requires some { 1 ≤ frames }
        requires few { frames ≤ 4096 }
        requires ascend { IsTrue (is_sorted nat_cmp pages.now) }
        requires fit { length pages.now ≤ frames }
        ensures meaning { IfOk result (λ m. meaning m ≡ record { pages = pages.now; frames = frames }) }
        ensures stands { IfOk result (λ m. StandsTo m []) }
        ensures paged { IfOk result (λ m. IsPaged (meaning m)) }
    {
        let frames = Frames::new(alloc, pages, frames)?;
        Ok(VMem {
            frames,
            lines: Lines::new(),
            tlb: Tlb::new(),
            tally: NOTHING,
            others: 0,
        })
    }
}

impl Reset for VMem {
    fn reset(&mut self, pages: &[Page])
        requires ascend { IsTrue (is_sorted nat_cmp pages.now) }
        requires fit { length pages.now ≤ (meaning self.old).frames }
        ensures meaning { meaning self.new ≡ record { pages = pages.now; frames = (meaning self.old).frames } }
        ensures stands { StandsTo self.new [] }
        ensures paged { IsPaged (meaning self.new) }
    {
        self.frames.reset(pages);
        self.lines.clear();
        self.tlb.clear();
        self.tally = NOTHING;
        self.others = 0;
    }
}

//! The lines of the cache.

ghost use Rattle.std.specs.Prelude.{◌≡◌, ◌<◌, None, length, replicate, true, false};
ghost use Rattle.mm_model.specs.Counted.{block_of, line_of};
ghost use Rattle.mm_cache.specs.Lines.{place_in_block, is_in, line_with, line_without};

use crate::line::{CacheLine, Victim};
use mm_mem::{BLOCK, Block};
use mm_word::Cell;
use std::marker::Model;

/// The count of lines.
pub const LINES: usize = 64;

/// The block of a word.
fn block_of(word: u64) -> u64
    ensures { result ≡ block_of word }
{
    word / 64
}

/// The index of a block's line.
fn line_of(block: u64) -> usize
    ensures index { result ≡ line_of block }
    ensures within { result < 64 }
{
    (block % 64) as usize
}

/// The index of a word's cell in its block.
fn place_of(word: u64) -> usize
    ensures place { result ≡ place_in_block word }
    ensures within { result < 8 }
{
    (word % 64 / 8) as usize
}

/// Writes the cell of a word in a line and marks the line as dirty. `false` exactly if the line does not have the word's
/// block.
#[inline(always)]
fn write(line: &mut Option<CacheLine>, word: u64, cell: Cell) -> bool
    ensures answer { result ≡ is_in line.old (block_of word) }
    ensures after { line.new ≡ line_with line.old word cell }
{
    match line {
        Some(line) if line.block == block_of(word) => {
            line.cells.set(place_of(word), cell);
            line.dirty = true;
            true
        }
        _ => false,
    }
}

/// Whether a line has a block of a page.
fn has_page(line: &Option<CacheLine>, page: u64) -> bool
    ensures gone { result ≡ true → line_without page line.now ≡ None }
    ensures kept { result ≡ false → line_without page line.now ≡ line.now }
{
    match line {
        Some(line) => line.block / 64 == page,
        None => false,
    }
}

/// 64 lines, each empty or with a block, a flag and eight cells. A block is only in the line whose index is its number
/// modulo 64.
#[derive(Drop)]
pub struct Lines {
    lines: [Option<CacheLine>; LINES],
}

impl Model for Lines {
    ghost use Rattle.std.specs.Prelude.{List, Option};
    ghost use Rattle.mm_cache.specs.declared.line.CacheLine.{CacheLine};
    ghost use Rattle.mm_cache.specs.Lines.{AreLines};

    ghost Value = { List (Option CacheLine) };

    ghost view = { λ c. c.lines };

    ghost invariant = { λ c. AreLines c.lines };
}

impl Lines {
    ghost use Rattle.mm_cache.specs.Lines.{AreLines, line_in, hits, cell_of, victim_of, dirty_in, with_cell, filled};
    ghost use Rattle.mm_cache.specs.Lines.{emptied, without_page};

    /// 64 empty lines.
    pub fn new() -> Lines
        ensures { result ≡ replicate 64 None }
    {
        Lines {
            lines: [None; LINES],
        }
    }

    /// Empties all lines.
    pub fn clear(&mut self)
        ensures { self.new ≡ replicate 64 None }
    {
        *self = Lines::new();
    }

    /// Whether a block is in its line. Each block of the 64 lines is in its own line, and has eight cells.
    pub fn hit(&self, block: u64) -> bool
        ensures answer { result ≡ hits self.now block }
        ensures placed { AreLines self.now }
    {
        match &self.lines[line_of(block)] {
            Some(line) => line.block == block,
            None => false,
        }
    }

    /// The cell of a word, if the word's block is in its line.
    #[inline(always)]
    pub fn cell(&self, word: u64) -> Option<Cell>
        ensures { result ≡ cell_of self.now word }
    {
        match &self.lines[line_of(block_of(word))] {
            Some(line) if line.block == block_of(word) => Some(line.cells.cell(place_of(word))),
            _ => None,
        }
    }

    /// Writes the cell of a word and marks its line as dirty. `false` exactly if the word's block is not in its line.
    #[inline(always)]
    pub fn put(&mut self, word: u64, cell: Cell) -> bool
        ensures answer { result ≡ hits self.old (block_of word) }
        ensures after { self.new ≡ with_cell self.old word cell }
    {
        write(&mut self.lines[line_of(block_of(word))], word, cell)
    }

    /// Empties a line, and gives its block exactly if the line was dirty.
    pub fn evict(&mut self, line: u8) -> Option<Victim>
        requires { line < 64 }
        ensures answer { result ≡ victim_of (line_in self.old line) }
        ensures after { self.new ≡ emptied self.old line }
    {
        match self.evict_packed(line) {
            Some(line) => Some(line.victim()),
            None => None,
        }
    }

    /// Empties a line as `evict` does, and gives the whole line, its cells packed.
    pub fn evict_packed(&mut self, line: u8) -> Option<CacheLine>
        requires { line < 64 }
        ensures answer { result ≡ dirty_in (line_in self.old line) }
        ensures after { self.new ≡ emptied self.old line }
    {
        let victim = match &self.lines[line as usize] {
            Some(line) if line.dirty => Some(*line),
            _ => None,
        };
        self.lines[line as usize] = None;
        victim
    }

    /// Fills the empty line of a block, which is then clean.
    pub fn fill(&mut self, block: u64, cells: [Cell; BLOCK])
        requires { line_in self.old (line_of block) ≡ None }
        ensures { self.new ≡ filled self.old block cells }
    {
        self.fill_packed(block, Block::of(&cells));
    }

    /// Fills the empty line of a block as `fill` does, with packed cells.
    pub fn fill_packed(&mut self, block: u64, cells: Block)
        requires empty { line_in self.old (line_of block) ≡ None }
        requires whole { length cells ≡ 8 }
        ensures { self.new ≡ filled self.old block cells }
    {
        self.lines[line_of(block)] = Some(CacheLine {
            block,
            cells,
            dirty: false,
        });
    }

    /// Empties each line that has a block of a page.
    pub fn drop_page(&mut self, page: u64)
        ensures { self.new ≡ without_page page self.old }
    {
        for i in 0..LINES {
            if has_page(&self.lines[i], page) {
                self.lines[i] = None;
            }
        }
    }
}

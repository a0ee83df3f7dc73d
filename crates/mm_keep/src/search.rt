//! The search for all that a kernel can come to.

ghost use Rattle.std.specs.Prelude.{[], ◌≡◌, ◌+◌, ◌<◌, ◌≤◌, ◌++◌, true, false, IfOk, OnOk, Contains, ℕ, MatchOption, length};
ghost use Rattle.std.specs.List.{flat_map};
ghost use Rattle.mm_kernel.specs.Uses.{HasMore};
ghost use Rattle.mm_keep.specs.Claims.{Grows, IsSound, nothing};
ghost use Rattle.mm_keep.specs.Searching.{Derives, IsExact, IsSearching, WentRound, again_facts, noted};

use crate::again::{enter_doors, go_on, look_again};
use crate::begin::{Held, begin_pages, begin_pointers, begin_slots};
use crate::follow::{follow_all, some_depends};
use crate::kernel::Kernel;
use crate::live::live_pointers;
use crate::tables::Tables;
use crate::turn::outcomes;
use mm_kernel::{Handler, Outcome};
use mm_word::NoMemory;
use std::alloc::Global;

/// What was found, and how far the search has come.
#[derive(Drop)]
struct Search {
    tables: Tables,
    /// How many threads the search may find.
    limit: usize,
    /// The forms that kept words have from the start.
    first: Vec<Held>,
    /// The handlers of the running slots.
    handlers: Vec<Handler>,
    /// How many threads were looked at.
    looked: usize,
    /// The threads, among these, whose turn depends on what others leave.
    readers: Vec<usize>,
}

/// Notes the index of a thread, if one of its outcomes depends on what others leave.
fn note_reader(readers: &mut Vec<usize>, at: usize, outcomes: &[Outcome]) -> Result<(), NoMemory>
    ensures { OnOk result (readers.new.items ≡ readers.old.items ++ noted at outcomes.now) }
{
    if some_depends(outcomes) {
        readers.push(at)?;
    }
    Ok(())
}

/// Looks again at threads, and says whether there are no more of them than the limit.
fn look_again_at(
    kernel: &Kernel,
    tables: &mut Tables,
    readers: &[usize],
    limit: usize,
) -> Result<bool, NoMemory>
    requires sound { IsSound kernel.now.image kernel.now.kept tables.old }
    requires inside { (k : ℕ) → Contains readers.now k → k < length tables.old.threads }
    requires few { length tables.old.threads ≤ limit }
    ensures derives { IfOk result (λ few. few ≡ true → Derives kernel.now.image kernel.now.kept
        (flat_map (again_facts kernel.now.image kernel.now.kept tables.old) readers.now) tables.old tables.new) }
    ensures few { IfOk result (λ few. few ≡ true → length tables.new.threads ≤ limit) }
    ensures more { IfOk result (λ few. few ≡ false → HasMore kernel.now.image kernel.now.kept limit) }
{
    for at in readers {
        look_again(kernel, tables, *at)?;
        let found = tables.threads();
        if found > limit {
            return Ok(false);
        }
    }
    Ok(true)
}

impl Search {
    /// A search that has taken up what the image begins with.
    fn new(alloc: Global, kernel: &Kernel, limit: usize) -> Result<Search, NoMemory>
        ensures searching { IfOk result (λ s. IsSearching kernel.now.image kernel.now.kept s) }
        ensures limit { IfOk result (λ s. s.limit ≡ limit) }
    {
        let mut search = Search {
            tables: Tables::new(alloc),
            limit,
            first: Vec::new(alloc),
            handlers: Vec::new(alloc),
            looked: 0,
            readers: Vec::new(alloc),
        };
        match search.begin(alloc, kernel) {
            Ok(()) => Ok(search),
            Err(error) => {
                drop(search);
                Err(error)
            }
        }
    }

    /// Takes up what the image begins with.
    fn begin(&mut self, alloc: Global, kernel: &Kernel) -> Result<(), NoMemory>
        requires tables { self.old.tables ≡ nothing }
        requires first { self.old.first.items ≡ [] }
        requires handlers { self.old.handlers.items ≡ [] }
        requires looked { self.old.looked ≡ 0 }
        requires readers { self.old.readers.items ≡ [] }
        ensures searching { OnOk result (IsSearching kernel.now.image kernel.now.kept self.new) }
        ensures limit { OnOk result (self.new.limit ≡ self.old.limit) }
    {
        let pointers = live_pointers(alloc, kernel.image())?;
        begin_pointers(kernel, &mut self.tables, &pointers)?;
        begin_pages(
            kernel,
            &mut self.tables,
            &mut self.first,
            kernel.image().pages(),
        )?;
        begin_slots(
            kernel,
            &mut self.tables,
            &mut self.handlers,
            kernel.image().slots(),
        )?;
        Ok(())
    }

    /// Looks at the next thread: adds what follows from its turn by itself.
    fn look(&mut self, kernel: &Kernel) -> Result<(), NoMemory>
        requires searching { IsSearching kernel.now.image kernel.now.kept self.old }
        requires next { self.old.looked < length self.old.tables.threads }
        requires few { length self.old.tables.threads ≤ self.old.limit }
        ensures searching { OnOk result (IsSearching kernel.now.image kernel.now.kept self.new) }
        ensures grows { OnOk result (Grows self.old.tables self.new.tables) }
        ensures limit { OnOk result (self.new.limit ≡ self.old.limit) }
        ensures looked { OnOk result (self.new.looked ≡ self.old.looked + 1) }
    {
        let at = self.looked;
        let t = self.tables.thread(at);
        let all = outcomes(kernel, &t);
        follow_all(kernel, &mut self.tables, &self.first, &t, all.as_slice())?;
        note_reader(&mut self.readers, at, all.as_slice())?;
        self.looked = at + 1;
        Ok(())
    }

    /// Looks at each thread that was not looked at, and says whether there are no more threads than the limit.
    fn look_at_new(&mut self, kernel: &Kernel) -> Result<bool, NoMemory>
        requires { IsSearching kernel.now.image kernel.now.kept self.old }
        ensures searching { OnOk result (IsSearching kernel.now.image kernel.now.kept self.new) }
        ensures grows { OnOk result (Grows self.old.tables self.new.tables) }
        ensures limit { OnOk result (self.new.limit ≡ self.old.limit) }
        ensures all { IfOk result (λ few. few ≡ true → self.new.looked ≡ length self.new.tables.threads) }
        ensures more { IfOk result (λ few. few ≡ false → HasMore kernel.now.image kernel.now.kept self.new.limit) }
    {
        while self.looked < self.tables.threads() {
            let found = self.tables.threads();
            if found > self.limit {
                return Ok(false);
            }
            self.look(kernel)?;
        }
        Ok(true)
    }

    /// What was found.
    fn into_tables(self) -> Tables
        ensures { result ≡ self.tables }
    {
        self.tables
    }

    /// Adds all that follows from what is there, and says whether there are no more threads than the limit.
    fn round(&mut self, kernel: &Kernel) -> Result<bool, NoMemory>
        requires { IsSearching kernel.now.image kernel.now.kept self.old }
        ensures searching { IfOk result (λ few. few ≡ true → IsSearching kernel.now.image kernel.now.kept self.new) }
        ensures went { IfOk result (λ few. few ≡ true → WentRound kernel.now.image kernel.now.kept self.old self.new) }
        ensures limit { OnOk result (self.new.limit ≡ self.old.limit) }
        ensures few { IfOk result (λ few. few ≡ true → length self.new.tables.threads ≤ self.new.limit) }
        ensures more { IfOk result (λ few. few ≡ false → HasMore kernel.now.image kernel.now.kept self.new.limit) }
    {
        enter_doors(kernel, &mut self.tables, &self.handlers)?;
        go_on(kernel, &mut self.tables)?;
        let few = self.look_at_new(kernel)?;
        if !few {
            return Ok(false);
        }
        look_again_at(kernel, &mut self.tables, &self.readers, self.limit)
    }

    /// Finds all, and says whether there are no more threads than the limit.
    fn run(&mut self, kernel: &Kernel) -> Result<bool, NoMemory>
        requires { IsSearching kernel.now.image kernel.now.kept self.old }
        ensures all { IfOk result (λ few. few ≡ true → IsExact kernel.now.image kernel.now.kept self.new.tables) }
        ensures few { IfOk result (λ few. few ≡ true → length self.new.tables.threads ≤ self.old.limit) }
        ensures more { IfOk result (λ few. few ≡ false → HasMore kernel.now.image kernel.now.kept self.old.limit) }
    {
        for _ in 0..u64::MAX {
            let before = self.tables.size();
            let few = self.round(kernel)?;
            if !few {
                return Ok(false);
            }
            let after = self.tables.size();
            if after == before {
                return Ok(true);
            }
        }
        Err(NoMemory)
    }
}

impl Search {
    /// What is found in the end, unless there are more threads than the limit.
    fn found(mut self, kernel: &Kernel) -> Result<Option<Tables>, NoMemory>
        requires { IsSearching kernel.now.image kernel.now.kept self }
        ensures more { IfOk result (λ found. found ≡ None → HasMore kernel.now.image kernel.now.kept self.limit) }
        ensures all { IfOk result (λ found. IfSome found (IsExact kernel.now.image kernel.now.kept)) }
        ensures few { IfOk result (λ found. IfSome found (λ tables. length tables.threads ≤ self.limit)) }
    {
        match self.run(kernel) {
            Ok(few) => {
                if few {
                    Ok(Some(self.into_tables()))
                } else {
                    drop(self);
                    Ok(None)
                }
            }
            Err(error) => {
                drop(self);
                Err(error)
            }
        }
    }
}

/// Finds all that a kernel can come to, whatever its callers do, unless it has more threads than the limit.
pub fn find(alloc: Global, kernel: &Kernel, limit: usize) -> Result<Option<Tables>, NoMemory>
    ensures more { IfOk result (λ found. found ≡ None → HasMore kernel.now.image kernel.now.kept limit) }
    ensures all { IfOk result (λ found. IfSome found (IsExact kernel.now.image kernel.now.kept)) }
    ensures few { IfOk result (λ found. IfSome found (λ tables. length tables.threads ≤ limit)) }
{
    let search = Search::new(alloc, kernel, limit)?;
    search.found(kernel)
}

ghost use Rattle.std.specs.Prelude.{None, IfSome};

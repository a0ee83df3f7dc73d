//! What a line adds to a draft.

ghost use Rattle.std.specs.Prelude.{◌≡◌, ◌∷◌, [], ◌≤◌, OnOk, None, replicate};
ghost use Rattle.mm_draft.specs.Drafts.{place_of, last, words_so_far, add_label, add_segment, add_words, add_register};
ghost use Rattle.mm_draft.specs.Drafts.{add_statement, add_reading, zero_word};
ghost use Rattle.mm_draft.specs.Faults.{one_if_pointer};
ghost use Rattle.mm_draft.specs.Counts.{HasRoom, MayAdd, MayAddReading};

use crate::checks::one_if_pointer;
use crate::{Draft, Location, Register, Segment, Source, Thread, Word};
use mm_line::{Mark, Problem, Statement};
use std::alloc::AllocError;

impl<'a> Draft<'a> {
    /// The count of words that the last segment has so far.
    fn words_so_far(&self) -> usize
        ensures { result ≡ words_so_far (last self.now.segments) }
    {
        match self.segments.last() {
            None => 0,
            Some(segment) => segment.words.len(),
        }
    }

    /// Adds a label, which names the next word of the last segment.
    pub(crate) fn add_label(&mut self, mark: Mark<'a>) -> Result<(), AllocError>
        requires { place_of self.old mark.name ≡ None }
        ensures { OnOk result (self.new ≡ add_label mark.entry self.old) }
    {
        let location = Location {
            segment: self.segments.len().saturating_sub(1),
            word: self.words_so_far(),
            is_label: true,
        };
        self.names.insert(mark.name.bytes(), location)?;
        Ok(())
    }

    /// Adds a segment without words.
    fn add_segment(&mut self, mark: Mark<'a>, log: u8) -> Result<(), AllocError>
        requires new { place_of self.old mark.name ≡ None }
        requires size { log ≤ 20 }
        ensures { OnOk result (self.new ≡ add_segment mark.entry log self.old) }
    {
        let location = Location {
            segment: self.segments.len(),
            word: 0,
            is_label: false,
        };
        self.names.insert(mark.name.bytes(), location)?;
        let words = Vec::new(*self.segments.allocator());
        self.segments.push(Segment {
            name: mark.name,
            log,
            words,
        })?;
        Ok(())
    }

    /// Adds a word to the last segment.
    fn add_word(&mut self, word: Word<'a>) -> Result<(), AllocError>
        requires { HasRoom self.old 1 (one_if_pointer word.content) }
        ensures { OnOk result (self.new ≡ add_words (word.entry ∷ []) self.old) }
    {
        let pointers = one_if_pointer(&word.content);
        let Some(segment) = self.segments.last_mut() else {
            return Ok(());
        };
        segment.push(word)?;
        self.words += 1;
        self.pointers += pointers;
        Ok(())
    }

    /// Adds `count` integer zeros to the last segment.
    fn add_zeros(&mut self, count: u32, source: Source) -> Result<(), AllocError>
        requires { HasRoom self.old count 0 }
        ensures { OnOk result (self.new ≡ add_words (replicate count (zero_word source)) self.old) }
    {
        for _ in 0..count {
            self.add_word(Word::zero(source))?;
        }
        Ok(())
    }

    /// Adds a register to the last thread.
    fn add_register(&mut self, register: Register<'a>) -> Result<(), AllocError>
        ensures { OnOk result (self.new ≡ add_register register.entry self.old) }
    {
        let Some(thread) = self.threads.last_mut() else {
            return Ok(());
        };
        thread.push(register)?;
        Ok(())
    }

    /// Adds what a statement of a line says.
    #[tactic(auto, unfolding(crate::specs::Drafts::add_statement))]
    fn add_statement(&mut self, source: Source, statement: Statement<'a>) -> Result<(), AllocError>
        requires { MayAdd self.old statement }
        ensures { OnOk result (self.new ≡ add_statement source statement.entry self.old) }
    {
        match statement {
            Statement::Spare(frames) => {
                self.spare = Some(frames);
                Ok(())
            }
            Statement::Begin { name, log } => self.add_segment(name, log),
            Statement::Fill(words) => self.add_zeros(words, source),
            Statement::Word { full, content } => self.add_word(Word {
                full,
                content,
                source,
            }),
            Statement::Thread {
                slot,
                group,
                handler,
                perm,
                target,
            } => {
                let registers = Vec::new(*self.threads.allocator());
                self.threads.push(Thread {
                    slot,
                    group,
                    handler,
                    perm,
                    target,
                    source,
                    registers,
                })?;
                Ok(())
            }
            Statement::Register { number, value } => self.add_register(Register {
                number,
                value,
                source,
            }),
        }
    }

    /// Adds what the statement of a line says, if it could be read.
    pub(crate) fn add_reading(
        &mut self,
        source: Source,
        reading: Result<Statement<'a>, Problem>,
    ) -> Result<(), AllocError>
        requires { MayAddReading self.old reading }
        ensures { OnOk result (self.new ≡ add_reading source reading.entry self.old) }
    {
        match reading {
            Ok(statement) => self.add_statement(source, statement),
            Err(_) => Ok(()),
        }
    }
}

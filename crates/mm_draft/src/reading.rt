//! The draft of a text, line by line.

ghost use Rattle.mm_line.specs.Ranges.{IsOptionalBody, NamesItsClaim};
ghost use Rattle.mm_draft.specs.Drafts.{add_maybe_label, add_body};
ghost use Rattle.mm_draft.specs.Faults.{first_of, maybe_label_faults, body_faults, step, draft_of};
ghost use Rattle.mm_draft.specs.Seen.{Reads, Leaves, unless};

use crate::{Draft, DraftError, Failure, Source};
use mm_line::{Body, Mark, Problem, read_line};
use std::alloc::Global;

impl<'a> Draft<'a> {
    /// Reads the label of a line.
    fn read_label(
        &mut self,
        source: Source,
        label: Option<Result<Mark<'a>, Problem>>,
    ) -> Result<(), DraftError>
        ensures { Leaves result self.new (unless (first_of (maybe_label_faults self.old label.entry)) source
            (add_maybe_label label.entry self.old)) }
    {
        match label {
            None => Ok(()),
            Some(Err(problem)) => Err(DraftError::Fault(Failure { source, problem })),
            Some(Ok(mark)) => match self.label_fault(&mark) {
                Some(problem) => Err(DraftError::Fault(Failure { source, problem })),
                None => {
                    self.add_label(mark)?;
                    Ok(())
                }
            },
        }
    }

    /// Reads the statement of a line.
    fn read_body(&mut self, source: Source, body: Option<Body<'a>>) -> Result<(), DraftError>
        requires in_range { IsOptionalBody source.size body }
        requires claims { NamesItsClaim body }
        ensures { Leaves result self.new (unless (first_of (body_faults self.old body.entry)) source
            (add_body source body.entry self.old)) }
    {
        let Some(body) = body else {
            return Ok(());
        };
        match self.body_fault(&body) {
            Some(problem) => Err(DraftError::Fault(Failure { source, problem })),
            None => {
                self.add_reading(source, body.reading)?;
                Ok(())
            }
        }
    }

    /// Reads a line of the text.
    fn read_line(&mut self, number: usize, bytes: &'a [u8]) -> Result<(), DraftError>
        ensures { Leaves result self.new (step number bytes.now self.old) }
    {
        let source = Source {
            line: number,
            size: bytes.len(),
        };
        let line = read_line(bytes);
        self.read_label(source, line.label)?;
        self.read_body(source, line.body)
    }
}

/// The draft of a text, or the first fault that is seen when its lines are read.
pub fn read_draft(alloc: Global, text: &[u8]) -> Result<Draft<'_>, DraftError>
    ensures { Reads result (draft_of text.now) }
{
    let mut draft = Draft::new(alloc);
    for (number, bytes) in text.split(|b| *b == b'\n').enumerate() {
        draft.read_line(number, bytes)?;
    }
    Ok(draft)
}

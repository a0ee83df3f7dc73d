//! The first fault of a line, against the draft of the lines before it.

ghost use Rattle.std.specs.Prelude.{◌≡◌, is_some, Some, ◌≤◌, ◌+◌, ◌||◌, nat_lt};
ghost use Rattle.mm_draft.specs.Drafts.{last, words_of, pointers_of};
ghost use Rattle.mm_draft.specs.Faults.{fault_if, is_before, first_of, is_named, has_slot, has_register, label_faults};
ghost use Rattle.mm_draft.specs.Faults.{claim_faults, words_faults, statement_faults, body_faults, one_if_pointer};
ghost use Rattle.mm_draft.specs.Seen.{first_of_both};
ghost use Rattle.mm_model.specs.Limits.{word_limit, reloc_limit};

use crate::Draft;
use mm_isa::Reg;
use mm_line::{Body, Claim, Constant, Content, Fault, Mark, Name, Problem, Statement};
use mm_model::{RELOC_LIMIT, SEGMENT_LIMIT, WORD_LIMIT};

/// The fault with `left` bytes of its line from its place on, if something is bad.
fn fault_if(bad: bool, fault: Fault, left: usize) -> Option<Problem>
    ensures { result ≡ first_of (fault_if bad fault left) }
{
    if bad {
        Some(Problem { fault, left })
    } else {
        None
    }
}

/// Whether a fault is before another in their line. A place is the count of bytes of the line from there on.
fn is_before(p: Problem, q: Problem) -> bool
    ensures { result ≡ is_before p q }
{
    p.left > q.left || p.left == q.left && p.fault.number() < q.fault.number()
}

/// The first of two faults.
fn first(p: Option<Problem>, q: Option<Problem>) -> Option<Problem>
    ensures { result ≡ first_of_both p q }
{
    match (p, q) {
        (None, q) => q,
        (Some(p), None) => Some(p),
        (Some(p), Some(q)) => Some(if is_before(q, p) { q } else { p }),
    }
}

/// 1 if the content becomes a pointer when the segments are placed, else 0.
pub(crate) fn one_if_pointer(content: &Content<'_>) -> usize
    ensures { result ≡ one_if_pointer content.now }
{
    match content {
        Content::Constant(Constant::Pointer { .. }) => 1,
        _ => 0,
    }
}

impl<'a> Draft<'a> {
    /// Whether any segment has begun.
    fn has_segment(&self) -> bool
        ensures { result ≡ is_some (last self.now.segments) }
    {
        !self.segments.is_empty()
    }

    /// Whether the text has a thread so far.
    fn has_thread(&self) -> bool
        ensures { result ≡ is_some (last self.now.threads) }
    {
        !self.threads.is_empty()
    }

    /// Whether a label or a segment has this name.
    fn is_named(&self, name: &Name<'_>) -> bool
        ensures { result ≡ is_named self.now name.now }
    {
        self.place_of(name.bytes()).is_some()
    }

    /// Whether a thread has this slot.
    fn has_slot(&self, slot: u8) -> bool
        ensures { result ≡ has_slot self.now slot }
    {
        self.threads.iter().any(|t| t.slot == slot)
    }

    /// Whether the last thread has this register.
    fn has_register(&self, number: Reg) -> bool
        ensures { result ≡ has_register (last self.now.threads) number }
    {
        match self.threads.last() {
            None => false,
            Some(thread) => thread.has_register(number),
        }
    }

    /// The first fault of a label, if it has one.
    pub(crate) fn label_fault(&self, mark: &Mark<'_>) -> Option<Problem>
        ensures { result ≡ first_of (label_faults self.now mark.now) }
    {
        first(
            fault_if(!self.has_segment(), Fault::Place, mark.left),
            fault_if(self.is_named(&mark.name), Fault::Twice, mark.left),
        )
    }

    /// The fault of a statement that names what is there already.
    fn claim_fault(&self, claim: &Option<Claim<'_>>) -> Option<Problem>
        ensures { result ≡ first_of (claim_faults self.now claim.now) }
    {
        match claim {
            None => None,
            Some(Claim::Spare { left }) => fault_if(self.spare.is_some(), Fault::Twice, *left),
            Some(Claim::Segment(mark)) => {
                fault_if(self.is_named(&mark.name), Fault::Twice, mark.left)
            }
            Some(Claim::Slot { slot, left }) => {
                fault_if(self.has_slot(*slot), Fault::Twice, *left)
            }
            Some(Claim::Register { number, left }) => {
                fault_if(self.has_register(*number), Fault::Twice, *left)
            }
        }
    }

    /// Whether this count of further words, and of pointers among them, is past a limit.
    fn is_past_limit(&self, words: u32, pointers: usize) -> bool
        requires { pointers ≤ 1 }
        ensures { result ≡ (nat_lt word_limit (words_of self.now.segments + words)
            || nat_lt reloc_limit (pointers_of self.now.segments + pointers)) }
    {
        self.words + words as usize > WORD_LIMIT || self.pointers + pointers > RELOC_LIMIT
    }

    /// The first fault of this count of further words, and of pointers among them.
    fn words_fault(&self, words: u32, pointers: usize, left: usize) -> Option<Problem>
        requires { pointers ≤ 1 }
        ensures { result ≡ first_of (words_faults self.now words pointers left (last self.now.segments)) }
    {
        match self.segments.last() {
            None => fault_if(true, Fault::Place, left),
            Some(segment) => first(
                fault_if(
                    segment.words.len() + words as usize > segment.room(),
                    Fault::Full,
                    left,
                ),
                fault_if(self.is_past_limit(words, pointers), Fault::Limit, left),
            ),
        }
    }

    /// The first fault of a statement that has none of its own.
    #[tactic(auto, unfolding(crate::specs::Faults::statement_faults))]
    fn statement_fault(&self, left: usize, statement: &Statement<'_>) -> Option<Problem>
        ensures { result ≡ first_of (statement_faults self.now left statement.now) }
    {
        match statement {
            Statement::Spare(_) | Statement::Thread { .. } => None,
            Statement::Begin { .. } => {
                fault_if(self.segments.len() >= SEGMENT_LIMIT, Fault::Limit, left)
            }
            Statement::Fill(words) => self.words_fault(*words, 0, left),
            Statement::Word { content, .. } => self.words_fault(1, one_if_pointer(content), left),
            Statement::Register { .. } => fault_if(!self.has_thread(), Fault::Place, left),
        }
    }

    /// The first fault of a statement and of what it claims.
    pub(crate) fn body_fault(&self, body: &Body<'_>) -> Option<Problem>
        ensures { result ≡ first_of (body_faults self.now (Some body.now)) }
    {
        let claim = self.claim_fault(&body.claim);
        let reading = match &body.reading {
            Ok(statement) => self.statement_fault(body.left, statement),
            Err(problem) => Some(*problem),
        };
        first(claim, reading)
    }
}

//! Lists of what a turn can come to.

ghost use Rattle.std.specs.Prelude.{◌≡◌, ◌<◌, ◌≤◌, ◌∷◌, ◌++◌, [], length};
ghost use Rattle.mm_keep.specs.Lists.{is_none};

use mm_isa::How;
use mm_kernel::Outcome;
use std::marker::Model;

/// The filler of unused places.
const NOTHING: Outcome = Outcome::Resumes(How::Kill);

/// What a turn can come to, of which there are eight at most.
#[derive(Drop)]
pub struct Outcomes {
    items: [Outcome; 8],
    len: usize,
}

impl Model for Outcomes {
    ghost use Rattle.std.specs.Prelude.{◌≤◌, List, take};
    ghost use Rattle.mm_kernel.specs.declared.outcome.Outcome.{Outcome as OutcomeValue};

    ghost Value = { List OutcomeValue };

    ghost view = { λ s. take s.len s.items };

    ghost invariant = { λ s. s.len ≤ 8 };
}

impl Outcomes {
    /// No outcome.
    pub fn none() -> Outcomes
        ensures { result ≡ [] }
    {
        Outcomes {
            items: [NOTHING; 8],
            len: 0,
        }
    }

    /// One outcome.
    pub fn one(a: Outcome) -> Outcomes
        ensures { result ≡ a ∷ [] }
    {
        let mut out = Outcomes::none();
        out.push(a);
        out
    }

    /// Two outcomes.
    pub fn two(a: Outcome, b: Outcome) -> Outcomes
        ensures { result ≡ a ∷ b ∷ [] }
    {
        let mut out = Outcomes::one(a);
        out.push(b);
        out
    }

    /// Three outcomes.
    pub fn three(a: Outcome, b: Outcome, c: Outcome) -> Outcomes
        ensures { result ≡ a ∷ b ∷ c ∷ [] }
    {
        let mut out = Outcomes::two(a, b);
        out.push(c);
        out
    }

    /// Four outcomes.
    pub fn four(a: Outcome, b: Outcome, c: Outcome, d: Outcome) -> Outcomes
        ensures { result ≡ a ∷ b ∷ c ∷ d ∷ [] }
    {
        let mut out = Outcomes::three(a, b, c);
        out.push(d);
        out
    }

    /// Appends an outcome.
    pub fn push(&mut self, outcome: Outcome)
        requires { length self.old < 8 }
        ensures { self.new ≡ self.old ++ outcome ∷ [] }
    {
        self.items[self.len] = outcome;
        self.len += 1;
    }

    /// Whether there is none.
    pub fn is_empty(&self) -> bool
        ensures { result ≡ is_none self.now }
    {
        match self.as_slice() {
            [] => true,
            [_, ..] => false,
        }
    }

    /// The outcomes.
    pub fn as_slice(&self) -> &[Outcome]
        ensures { result.now ≡ self.now }
    {
        &self.items[..self.len]
    }
}

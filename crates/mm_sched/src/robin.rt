//! Round robin.

ghost use Rattle.std.specs.Prelude.{◌≡◌, ◌≢◌, ◌↔◌, ◌<◌, ◌+◌, IsSome, IfSome, Some, None};
ghost use Rattle.mm_sched.specs.Following.{IsNextBit};

use std::marker::Model;

/// Round robin: the next running slot after the last one that was issued, cyclically by number; at first the least.
/// Contracts see the last one.
#[derive(Clone, Copy, PartialEq, Eq)]
pub struct Robin {
    last: Option<u8>,
}

impl Model for Robin {
    ghost use Rattle.std.specs.Prelude.{ℕ, ◌<◌, Option, IfSome};

    ghost Value = { Option ℕ };

    ghost view = { λ r. r.last };

    ghost invariant = { λ r. IfSome r.last (λ n. n < 64) };

    ghost inverse = { λ last. record { last = last } };
}

impl Robin {
    /// A round robin that has issued nothing.
    pub fn new() -> Robin
        ensures { result ≡ None }
    {
        Robin { last: None }
    }

    /// A round robin that goes on after this slot, or begins with the least.
    pub fn after(last: Option<u8>) -> Robin
        requires { IfSome last (λ n. n < 64) }
        ensures { result ≡ last }
    {
        Robin { last }
    }

    /// The slot that comes next. Bit `s` of the mask is set for each running slot `s`. `None` exactly if no bit is set.
    pub fn peek(&self, running: u64) -> Option<u8>
        ensures some { IsSome result ↔ (running ≢ 0) }
        ensures next { IfSome result (IsNextBit running self.now) }
    {
        if let Some(last) = self.last {
            let above = running >> last >> 1;
            if above != 0 {
                return Some(last + 1 + above.trailing_zeros() as u8);
            }
        }
        if running == 0 {
            None
        } else {
            Some(running.trailing_zeros() as u8)
        }
    }

    /// Issues the slot that comes next, as [`Robin::peek`] gives it.
    pub fn next(&mut self, running: u64) -> Option<u8>
        ensures some { IsSome result ↔ (running ≢ 0) }
        ensures next { IfSome result (λ n. IsNextBit running self.old n × (self.new ≡ Some n)) }
        ensures stays { result ≡ None → self.new ≡ self.old }
    {
        let next = self.peek(running)?;
        self.last = Some(next);
        Some(next)
    }
}

//! What most instructions come to.

ghost use Rattle.std.specs.Prelude.{◌≡◌, ◌∷◌, []};
ghost use Rattle.mm_kernel.specs.Turns.{fault, sets};

use crate::operands::fault;
use crate::outcome_list::Outcomes;
use crate::thread::{stepped, with_form};
use mm_isa::{Instr, Reg};
use mm_kernel::{Form, Outcome, Thread};

/// A register gets a form, and the thread goes on.
#[tactic(auto, unfolding(mm_kernel::specs::Turns::sets))]
pub fn sets(t: &Thread, rd: Reg, form: Form) -> Outcome
    ensures { result ≡ sets t.now rd form }
{
    Outcome::Goes(with_form(&stepped(t), rd.number(), form))
}

/// A register gets a form: the only outcome.
pub fn puts(t: &Thread, rd: Reg, form: Form) -> Outcomes
    ensures { result ≡ sets t.now rd form ∷ [] }
{
    Outcomes::one(sets(t, rd, form))
}

/// A fault: the only outcome.
pub fn faults(t: &Thread, instr: &Instr) -> Outcomes
    ensures { result ≡ fault t.now instr.now ∷ [] }
{
    Outcomes::one(fault(t, instr))
}

/// A fault, or another outcome.
pub fn or_fault(t: &Thread, instr: &Instr, outcome: Outcome) -> Outcomes
    ensures { result ≡ fault t.now instr.now ∷ outcome ∷ [] }
{
    Outcomes::two(fault(t, instr), outcome)
}

/// A fault, or a register gets a form.
pub fn or_puts(t: &Thread, instr: &Instr, rd: Reg, form: Form) -> Outcomes
    ensures { result ≡ fault t.now instr.now ∷ sets t.now rd form ∷ [] }
{
    or_fault(t, instr, sets(t, rd, form))
}

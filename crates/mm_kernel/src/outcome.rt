//! What a turn of a thread can come to.

use crate::fact::Leak;
use crate::form::Form;
use crate::thread::Thread;
use mm_isa::How;

/// A part of memory: a base, and the base-2 logarithm of a length.
pub type Part = (u64, u8);

/// What a turn of a thread can come to.
#[derive(Clone, Copy)]
pub enum Outcome {
    /// The thread goes on like this.
    Goes(Thread),
    /// It goes on with what a kept word of a part holds, in a register.
    Loads { part: Part, reg: u8, next: Thread },
    /// A kept word of a part gets a form.
    Stores { part: Part, form: Form },
    /// A form is handed to others, which is a leak if it is not open.
    HandsOut { form: Form, leak: Leak },
    /// The thread leaves, and hands out each of its registers.
    Leaves(Thread),
    Leaks(Leak),
    /// The turn faults, with these operands.
    Faults { address: Form, value: Form },
    /// The slot's oldest event goes to four registers.
    TakesEvent { reg: u8, next: Thread },
    /// A served slot goes on, or is halted.
    Resumes(How),
    /// A register of a served slot goes to a register.
    ReadsServed { reg: u8, from: u8, next: Thread },
    /// A register of a served slot gets a form.
    WritesServed { reg: u8, form: Form },
}

/// The filler of unused places in a list.
impl Default for Outcome {
    ghost use Rattle.std.specs.Prelude.{◌≡◌};
    ghost use Rattle.mm_isa.specs.declared.instr.How.TheVariants.{Kill};
    ghost use Rattle.mm_kernel.specs.declared.outcome.Outcome.TheVariants.{Resumes};

    ghost is_default = { λ o. o ≡ Resumes Kill };

    fn default() -> Outcome {
        Outcome::Resumes(How::Kill)
    }
}

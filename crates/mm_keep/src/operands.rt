//! The operands of instructions, and their faults.

ghost use Rattle.std.specs.Int.{w64, cast_unsigned};
ghost use Rattle.std.specs.Prelude.{◌≡◌, ◌∷◌, []};
ghost use Rattle.mm_kernel.specs.Threads.{form_in};
ghost use Rattle.mm_kernel.specs.Turns.{fault};
ghost use Rattle.mm_kernel.specs.declared.form.Form.TheVariants.{Number};
ghost use Rattle.mm_kernel.specs.declared.outcome.Outcome.TheVariants.{Faults};

use crate::outcome_list::Outcomes;
use crate::thread::form_at;
use mm_isa::{Instr, Reg};
use mm_kernel::{Form, Outcome, Thread};

const ZERO: Form = Form::Number(0);

/// A number of an instruction, extended by its sign.
pub fn bits_of(imm: i32) -> u64
    ensures { result ≡ cast_unsigned w64 imm }
{
    i64::from(imm).cast_unsigned()
}

/// The form in a register.
pub fn form(t: &Thread, r: Reg) -> Form
    ensures { result ≡ form_in t.now r }
{
    form_at(t, r.number())
}

/// A fault whose operands are a register and a number.
fn fault_at(t: &Thread, ra: Reg, bits: u64) -> Outcome
    ensures { result ≡ Faults (form_in t.now ra) (Number bits) }
{
    Outcome::Faults {
        address: form(t, ra),
        value: Form::Number(bits),
    }
}

/// A fault whose operands are two registers.
fn fault_with(t: &Thread, ra: Reg, rb: Reg) -> Outcome
    ensures { result ≡ Faults (form_in t.now ra) (form_in t.now rb) }
{
    Outcome::Faults {
        address: form(t, ra),
        value: form(t, rb),
    }
}

/// A fault whose operand is a number.
fn fault_of(bits: u64) -> Outcome
    ensures { result ≡ Faults (Number 0) (Number bits) }
{
    Outcome::Faults {
        address: ZERO,
        value: Form::Number(bits),
    }
}

/// The turn faults at its instruction.
#[tactic(auto, unfolding(mm_kernel::specs::Turns::fault))]
pub fn fault(t: &Thread, instr: &Instr) -> Outcome
    ensures { result ≡ fault t.now instr.now }
{
    match *instr {
        Instr::Halt | Instr::Nop | Instr::SelfSlot { rd: _ } | Instr::Evt { rd: _ } => fault_of(0),
        Instr::Ldi { rd: _, imm } => fault_of(bits_of(imm)),
        Instr::Ldhi { rd: _, imm } => fault_of(bits_of(imm)),
        Instr::Mov { rd: _, ra } => fault_at(t, ra, 0),
        Instr::Isptr { rd: _, ra } => fault_at(t, ra, 0),
        Instr::Eqw { rd: _, ra, rb } => fault_with(t, ra, rb),
        Instr::Out { ra } => fault_at(t, ra, 0),
        Instr::Alu {
            op: _,
            rd: _,
            ra,
            rb,
        } => fault_with(t, ra, rb),
        Instr::Addi { rd: _, ra, imm } => fault_at(t, ra, bits_of(imm)),
        Instr::Lea { rd: _, ra, rb } => fault_with(t, ra, rb),
        Instr::Leai { rd: _, ra, imm } => fault_at(t, ra, bits_of(imm)),
        Instr::Leab { rd: _, ra, rb } => fault_with(t, ra, rb),
        Instr::Restrict { rd: _, ra, rb } => fault_with(t, ra, rb),
        Instr::Subseg { rd: _, ra, rb } => fault_with(t, ra, rb),
        Instr::Setptr { rd: _, ra } => fault_at(t, ra, 0),
        Instr::Ld {
            rd: _,
            ra,
            pre: _,
            post: _,
            imm,
        } => fault_at(t, ra, bits_of(imm)),
        Instr::St {
            ra,
            rb,
            pre: _,
            post: _,
            imm: _,
        } => fault_with(t, ra, rb),
        Instr::Br { imm } => fault_of(bits_of(imm)),
        Instr::Bz { ra, imm } => fault_at(t, ra, bits_of(imm)),
        Instr::Bnz { ra, imm } => fault_at(t, ra, bits_of(imm)),
        Instr::Jmp { ra } => fault_at(t, ra, 0),
        Instr::Jal { rd: _, ra } => fault_at(t, ra, 0),
        Instr::Lip { rd: _, imm } => fault_of(bits_of(imm)),
        Instr::Trap { imm } => fault_of(bits_of(imm)),
        Instr::Resume { ra, how: _ } => fault_at(t, ra, 0),
        Instr::Rreg { rd: _, ra, reg } => fault_at(t, ra, u64::from(reg.number())),
        Instr::Wreg { ra, rb, reg: _ } => fault_with(t, ra, rb),
        Instr::Map { rd: _, ra } => fault_at(t, ra, 0),
        Instr::Unmap { rd: _, ra } => fault_at(t, ra, 0),
    }
}

/// The turn faults before it has an instruction: the only outcome.
pub fn early_fault() -> Outcomes
    ensures { result ≡ Faults (Number 0) (Number 0) ∷ [] }
{
    Outcomes::one(Outcome::Faults {
        address: ZERO,
        value: ZERO,
    })
}

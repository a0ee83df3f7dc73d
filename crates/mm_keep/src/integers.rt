//! What an instruction makes of the integers that its operands may be.

ghost use Rattle.std.specs.Prelude.{◌≡◌, if◌then◌else◌};
ghost use Rattle.mm_word.specs.Perm.{code_of};
ghost use Rattle.mm_isa.specs.Alu.{alu_result, divides};
ghost use Rattle.mm_model.specs.Effect.{high_and_low};
ghost use Rattle.mm_kernel.specs.declared.form.Form.TheVariants.{Integer, Number};
ghost use Rattle.mm_kernel.specs.Operations.{alu_by, alu_form, equal_form, high_form, leaves_code, small_result};

use mm_isa::{AluOp, alu};
use mm_kernel::Form;
use mm_model::is_same_word;
use mm_word::Perm;

/// Whether two words are equal in tag and bits, if both are known.
#[tactic(auto, unfolding(mm_kernel::specs::Operations::equal_form))]
pub fn equal(a: Form, b: Form) -> Form
    ensures { result ≡ equal_form a b }
{
    match a.exact() {
        Some(v) => match b.exact() {
            Some(w) => Form::Number(is_same_word(v, w) as u64),
            None => Form::Integer,
        },
        None => Form::Integer,
    }
}

/// A word whose high half is the low half of `bits`, and whose low half is `imm`.
fn high_and_low(bits: u64, imm: i32) -> u64
    ensures { result ≡ high_and_low bits imm }
{
    bits << 32 | u64::from(imm.cast_unsigned())
}

/// The result of putting a number below the low half of a form.
#[tactic(auto, unfolding(mm_kernel::specs::Operations::high_form))]
pub fn high(form: Form, imm: i32) -> Form
    ensures { result ≡ high_form form imm }
{
    match form.exact_bits() {
        Some(bits) => Form::Number(high_and_low(bits, imm)),
        None => Form::Integer,
    }
}

/// Whether the bits that are shifted out leave a pointer's permission.
fn leaves_code(op: AluOp, bits: u64) -> bool
    ensures { result ≡ leaves_code op bits }
{
    match op {
        AluOp::Shr => bits % 64 == 60,
        _ => false,
    }
}

/// The result of an operation on bits.
fn alu_exact(op: AluOp, a: u64, bits: u64) -> Form
    ensures { result ≡ small_result (alu_result op a bits) }
{
    match alu(op, a, bits) {
        Ok(number) => Form::small(number),
        Err(_) => Form::Integer,
    }
}

/// The result of an operation on a pointer that is not known, but for its permission.
fn alu_code(op: AluOp, perm: Perm, bits: u64) -> Form
    ensures { result ≡ (if leaves_code op bits then Number (code_of perm) else Integer) }
{
    if leaves_code(op, bits) {
        Form::Number(u64::from(perm.code()))
    } else {
        Form::Integer
    }
}

/// The result of an operation on a form and known bits.
fn alu_by(op: AluOp, form: Form, bits: u64) -> Form
    ensures { result ≡ alu_by op form bits }
{
    match form {
        Form::Number(a) => alu_exact(op, a, bits),
        Form::Pointer(p) => alu_exact(op, p.bits(), bits),
        Form::Open(perm) => alu_code(op, perm, bits),
        Form::Inside(p) => alu_code(op, p.perm(), bits),
        _ => Form::Integer,
    }
}

/// The result of an operation on two forms.
#[tactic(auto, unfolding(mm_kernel::specs::Operations::alu_form))]
pub fn alu_form(op: AluOp, a: Form, b: Form) -> Form
    ensures { result ≡ alu_form op a b }
{
    match b.exact_bits() {
        Some(bits) => alu_by(op, a, bits),
        None => Form::Integer,
    }
}

/// Whether an operation divides.
pub fn divides(op: AluOp) -> bool
    ensures { result ≡ divides op }
{
    match op {
        AluOp::Divu | AluOp::Remu => true,
        _ => false,
    }
}

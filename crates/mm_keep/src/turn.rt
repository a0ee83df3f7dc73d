//! What a turn of a thread can come to, instruction by instruction.

ghost use Rattle.std.specs.List.{filter};
ghost use Rattle.std.specs.Prelude.{◌≡◌, ◌≤◌, ◌%◌, ◌+◌, ◌&&◌, ◌∷◌, ◌++◌, [], length, map, pos, true};
ghost use Rattle.mm_word.specs.Access.{check_result};
ghost use Rattle.mm_word.specs.Perm.{allows, can_become};
ghost use Rattle.mm_word.specs.Pointer.{next_result};
ghost use Rattle.mm_word.specs.declared.perm.Kind.TheVariants.{Fetch};
ghost use Rattle.mm_word.specs.declared.word.Word.TheVariants.{Ptr};
ghost use Rattle.mm_model.specs.Memory.{cell_at};
ghost use Rattle.mm_model.specs.Turn.{instr_in};
ghost use Rattle.mm_kernel.specs.Operations.{choices, may_name, with_permission};
ghost use Rattle.mm_kernel.specs.Threads.{form_in, going_to, stepped, with_form};
ghost use Rattle.mm_kernel.specs.Turns.{at_distance, branched, branches, branches_if, computes, fault, fetched};
ghost use Rattle.mm_kernel.specs.Turns.{jumped, jumps, links, moved, moved_somewhere, moves};
ghost use Rattle.mm_kernel.specs.Turns.{outcomes, outcomes_of, restricted, restricts, restricts_as, seen_as, sets};
ghost use Rattle.mm_kernel.specs.Turns.{aimed, decoded, pointer_moved, tests_tag, with_event};
ghost use Rattle.mm_kernel.specs.declared.fact.Leak.TheVariants.{Give};
ghost use Rattle.mm_kernel.specs.declared.form.Form.TheVariants.{Any};
ghost use Rattle.mm_kernel.specs.declared.outcome.Outcome.TheVariants.{Goes, HandsOut, TakesEvent};
ghost use Rattle.mm_kernel.specs.declared.outcome.Outcome.TheVariants.{WritesServed};
ghost use Rattle.mm_keep.specs.Movings.{moved_by};

use crate::integers::{alu_form, divides, equal, high};
use crate::kernel::Kernel;
use crate::memory::{load_kind, loads, stores};
use crate::operands::{bits_of, early_fault, fault, form};
use crate::outcome_list::Outcomes;
use crate::plain::{faults, or_fault, or_puts, puts, sets};
use crate::segments::around;
use crate::thread::{going_to, stepped, with_event, with_form};
use mm_isa::{AluOp, Instr, Reg, decode};
use mm_kernel::{Form, Leak, Outcome, Thread};
use mm_word::{Cause, GuardedPtr, Kind, Perm, Word, check, enter, lea, leab, next, subseg};

// 1. Pointers.

/// What a pointer that is moved or narrowed can come to: itself in a register, or a fault.
fn moved(t: &Thread, instr: &Instr, rd: Reg, to: Result<GuardedPtr, Cause>) -> Outcomes
    ensures { result ≡ moved t.now instr.now rd to }
{
    match to {
        Ok(p) => puts(t, rd, Form::Pointer(p)),
        Err(_) => faults(t, instr),
    }
}

/// A pointer of a known permission is moved or narrowed by an operand that is not known.
fn moved_somewhere(t: &Thread, instr: &Instr, rd: Reg, perm: Perm, form: Form) -> Outcomes
    ensures { result ≡ moved_somewhere t.now instr.now rd perm form }
{
    if perm.may_move() {
        or_puts(t, instr, rd, form)
    } else {
        faults(t, instr)
    }
}

/// How an instruction moves or narrows a pointer.
#[derive(Clone, Copy)]
enum Moving {
    /// By the bits of an operand, in bytes.
    Lea,
    /// By a number of the instruction, in bytes.
    LeaBy(i32),
    /// To a distance from the base of the segment.
    Leab,
    /// To a shorter segment.
    Subseg,
}

/// A pointer that is moved or narrowed by bits.
fn move_by(moving: Moving, p: GuardedPtr, bits: u64) -> Result<GuardedPtr, Cause>
    ensures { result ≡ moved_by moving p bits }
{
    match moving {
        Moving::Lea => lea(p, bits.cast_signed()),
        Moving::LeaBy(imm) => lea(p, i64::from(imm)),
        Moving::Leab => leab(p, bits.cast_signed()),
        Moving::Subseg => subseg(p, bits),
    }
}

/// A known pointer is moved or narrowed by bits, if these are known.
fn pointer_moved(
    kernel: &Kernel,
    t: &Thread,
    instr: &Instr,
    rd: Reg,
    p: GuardedPtr,
    bits: Option<u64>,
    moving: Moving,
) -> Outcomes
    ensures { result ≡ pointer_moved kernel.now.kept t.now instr.now rd p bits (moved_by moving) }
{
    match bits {
        None => moved_somewhere(t, instr, rd, p.perm(), around(kernel.kept(), p)),
        Some(bits) => moved(t, instr, rd, move_by(moving, p, bits)),
    }
}

/// A form is moved or narrowed by the bits of another.
#[tactic(auto, unfolding(mm_kernel::specs::Turns::moves))]
fn moves(
    kernel: &Kernel,
    t: &Thread,
    instr: &Instr,
    rd: Reg,
    form: Form,
    bits: Option<u64>,
    moving: Moving,
) -> Outcomes
    ensures { result ≡ moves kernel.now.kept t.now instr.now rd form bits (moved_by moving) }
{
    match form {
        Form::Number(_) | Form::Integer => faults(t, instr),
        Form::Pointer(p) => pointer_moved(kernel, t, instr, rd, p, bits, moving),
        Form::Open(perm) => moved_somewhere(t, instr, rd, perm, Form::Open(perm)),
        Form::Any => or_puts(t, instr, rd, Form::Any),
        Form::Inside(p) => moved_somewhere(t, instr, rd, p.perm(), Form::Inside(p)),
    }
}

// 2. Permissions.

const PERMISSIONS: [Perm; 7] = [
    Perm::Ro,
    Perm::Rw,
    Perm::Xu,
    Perm::Xp,
    Perm::Eu,
    Perm::Ep,
    Perm::Key,
];

/// Whether an operand may name a permission.
fn may_name(bits: Option<u64>, perm: Perm) -> bool
    ensures { result ≡ may_name bits perm }
{
    match bits {
        None => true,
        Some(bits) => bits == u64::from(perm.code()),
    }
}

/// Appends what a form comes to with each of these permissions that it may become and that an operand may name.
fn put_restricted(
    out: &mut Outcomes,
    t: &Thread,
    rd: Reg,
    form: &Form,
    from: Perm,
    bits: Option<u64>,
    permissions: &[Perm],
)
    requires { length out.old + length permissions.now ≤ 8 }
    ensures { out.new ≡ out.old ++ map (λ perm. sets t.now rd (with_permission form.now perm))
        (filter (λ to. can_become from to && may_name bits to) permissions.now) }
{
    match permissions {
        [] => (),
        [to, rest @ ..] => {
            if from.may_become(*to) && may_name(bits, *to) {
                out.push(sets(t, rd, form.with_permission(*to)));
            }
            put_restricted(out, t, rd, form, from, bits, rest);
        }
    }
}

/// A form gets each permission that its own may become and that an operand may name.
#[tactic(auto, unfolding(mm_kernel::specs::Operations::choices))]
fn restricted(t: &Thread, instr: &Instr, rd: Reg, a: &Form, b: &Form, from: Perm) -> Outcomes
    ensures { result ≡ restricted t.now instr.now rd a.now b.now (choices from b.now) }
{
    let bits = b.exact_bits();
    let mut out = Outcomes::none();
    put_restricted(&mut out, t, rd, a, from, bits, &PERMISSIONS);
    if bits.is_none() {
        out.push(fault(t, instr));
        return out;
    }
    if out.is_empty() {
        out.push(fault(t, instr));
        return out;
    }
    out
}

/// A form gets other permissions.
#[tactic(auto, unfolding(mm_kernel::specs::Turns::restricts))]
fn restricts(t: &Thread, instr: &Instr, rd: Reg, a: &Form, b: &Form) -> Outcomes
    ensures { result ≡ restricts t.now instr.now rd a.now b.now }
{
    match *a {
        Form::Number(_) | Form::Integer => faults(t, instr),
        Form::Pointer(p) => restricted(t, instr, rd, a, b, p.perm()),
        Form::Open(perm) => restricted(t, instr, rd, a, b, perm),
        Form::Any => or_puts(t, instr, rd, Form::Any),
        Form::Inside(p) => restricted(t, instr, rd, a, b, p.perm()),
    }
}

// 3. Jumps.

/// The pointer at a distance in words from the instruction.
fn at_distance(t: &Thread, imm: i32) -> Result<GuardedPtr, Cause>
    requires { allows t.now.ip.perm Fetch ≡ true }
    ensures { result ≡ at_distance t.now imm }
{
    lea(t.ip, 8 * i64::from(imm))
}

/// The thread goes on at a distance in words.
#[tactic(auto, unfolding(mm_kernel::specs::Turns::branches))]
fn branches(t: &Thread, instr: &Instr, imm: i32) -> Outcome
    requires { allows t.now.ip.perm Fetch ≡ true }
    ensures { result ≡ branches t.now instr.now imm }
{
    match at_distance(t, imm) {
        Ok(ip) => Outcome::Goes(going_to(t, ip)),
        Err(_) => fault(t, instr),
    }
}

/// A branch that is taken if a form is that of 0 alone, or if it is not.
fn branches_if(if_zero: bool, t: &Thread, instr: &Instr, bits: Option<u64>, imm: i32) -> Outcomes
    requires { allows t.now.ip.perm Fetch ≡ true }
    ensures { result ≡ branches_if if_zero t.now instr.now bits imm }
{
    match bits {
        None => Outcomes::two(branches(t, instr, imm), Outcome::Goes(stepped(t))),
        Some(bits) => {
            if (bits == 0) == if_zero {
                Outcomes::one(branches(t, instr, imm))
            } else {
                Outcomes::one(Outcome::Goes(stepped(t)))
            }
        }
    }
}

/// The thread goes on where a known pointer leads, or faults.
fn jumped(t: &Thread, linked: &Thread, instr: &Instr, to: Option<GuardedPtr>) -> Outcomes
    ensures { result ≡ jumped t.now linked.now instr.now to }
{
    match to {
        None => faults(t, instr),
        Some(ip) => Outcomes::one(Outcome::Goes(going_to(linked, ip))),
    }
}

/// A jump through a form; the thread goes on, or leaves, with its link.
#[tactic(auto, unfolding(mm_kernel::specs::Turns::jumps))]
fn jumps(t: &Thread, linked: &Thread, instr: &Instr, ra: Reg, form: Form) -> Outcomes
    ensures { result ≡ jumps t.now linked.now instr.now ra form }
{
    match form {
        Form::Number(_) | Form::Integer => faults(t, instr),
        Form::Pointer(p) => jumped(t, linked, instr, enter(p)),
        Form::Open(perm) => {
            if perm.entered().is_some() {
                Outcomes::one(Outcome::Leaves(*linked))
            } else {
                faults(t, instr)
            }
        }
        Form::Any => or_fault(t, instr, Outcome::Leaves(*linked)),
        Form::Inside(p) => {
            if p.perm().entered().is_some() {
                Outcomes::one(Outcome::Leaks(Leak::Enter {
                    at: t.ip.addr(),
                    reg: ra.number(),
                    form: Form::Inside(p),
                }))
            } else {
                faults(t, instr)
            }
        }
    }
}

/// A jump that keeps the way back in a register.
fn links(t: &Thread, instr: &Instr, rd: Reg, ra: Reg) -> Outcomes
    ensures { result ≡ links t.now instr.now rd ra (next_result t.now.ip) }
{
    match next(t.ip) {
        None => faults(t, instr),
        Some(back) => {
            let linked = with_form(t, rd.number(), Form::Pointer(back));
            jumps(t, &linked, instr, ra, form(t, ra))
        }
    }
}

// 4. Tags and divisions.

/// The thread goes on knowing a form and its tag.
fn seen_as(t: &Thread, rd: Reg, ra: Reg, form: Form, tag: u64) -> Outcome
    ensures { result ≡ seen_as t.now rd ra form tag }
{
    let seen = with_form(&stepped(t), ra.number(), form);
    Outcome::Goes(with_form(&seen, rd.number(), Form::Number(tag)))
}

/// The tag of a form that is not known is looked at: each kind of pointer goes on by itself.
#[tactic(auto, unfolding(mm_kernel::specs::Turns::tests_tag))]
fn tests_tag(t: &Thread, rd: Reg, ra: Reg, form: Form) -> Outcomes
    ensures { result ≡ tests_tag t.now rd ra form }
{
    match form {
        Form::Number(_) | Form::Integer => puts(t, rd, Form::Number(0)),
        Form::Any => {
            let mut out = Outcomes::one(seen_as(t, rd, ra, Form::Integer, 0));
            out.push(seen_as(t, rd, ra, Form::Open(Perm::Ro), 1));
            out.push(seen_as(t, rd, ra, Form::Open(Perm::Rw), 1));
            out.push(seen_as(t, rd, ra, Form::Open(Perm::Xu), 1));
            out.push(seen_as(t, rd, ra, Form::Open(Perm::Eu), 1));
            out.push(seen_as(t, rd, ra, Form::Open(Perm::Key), 1));
            out
        }
        _ => puts(t, rd, Form::Number(1)),
    }
}

/// A division can fault if its divisor may be 0, and has a result unless that is 0.
fn computes(
    t: &Thread,
    instr: &Instr,
    divides: bool,
    rd: Reg,
    form: Form,
    divisor: Option<u64>,
) -> Outcomes
    ensures { result ≡ computes t.now instr.now divides rd form divisor }
{
    if !divides {
        return puts(t, rd, form);
    }
    match divisor {
        None => or_puts(t, instr, rd, form),
        Some(bits) => {
            if bits == 0 {
                faults(t, instr)
            } else {
                puts(t, rd, form)
            }
        }
    }
}

// 5. The table of instructions.

/// What an event that is read can come to.
fn reads_event(t: &Thread, rd: u8) -> Outcomes
    requires { rd ≤ 15 }
    ensures { result ≡ Goes (with_event (stepped t.now) rd Any Any Any) ∷ TakesEvent rd (stepped t.now) ∷ [] }
{
    let next = stepped(t);
    Outcomes::two(
        Outcome::Goes(with_event(&next, rd, Form::Any, Form::Any, Form::Any)),
        Outcome::TakesEvent { reg: rd, next },
    )
}

/// What a register that is put into a served slot can come to.
fn gives(t: &Thread, instr: &Instr, rb: Reg, reg: Reg) -> Outcomes
    ensures { result ≡ fault t.now instr.now ∷ Goes (stepped t.now)
        ∷ HandsOut (form_in t.now rb) (Give t.now.ip.addr rb (form_in t.now rb))
        ∷ WritesServed reg (form_in t.now rb) ∷ [] }
{
    let leak = Leak::Give {
        at: t.ip.addr(),
        reg: rb.number(),
        form: form(t, rb),
    };
    let out = Outcome::HandsOut {
        form: form(t, rb),
        leak,
    };
    let written = Outcome::WritesServed {
        reg: reg.number(),
        form: form(t, rb),
    };
    Outcomes::four(fault(t, instr), Outcome::Goes(stepped(t)), out, written)
}

/// What a turn of each instruction can come to.
#[tactic(auto, unfolding(mm_kernel::specs::Turns::outcomes_of, mm_kernel::specs::Turns::branches))]
fn carries_out(kernel: &Kernel, t: &Thread, instr: &Instr) -> Outcomes
    requires { allows t.now.ip.perm Fetch ≡ true }
    ensures { result ≡ outcomes_of kernel.now.image kernel.now.kept t.now instr.now }
{
    match *instr {
        Instr::Halt => Outcomes::none(),
        Instr::Nop => Outcomes::one(Outcome::Goes(stepped(t))),
        Instr::Ldi { rd, imm } => puts(t, rd, Form::Number(bits_of(imm))),
        Instr::Ldhi { rd, imm } => puts(t, rd, high(form(t, rd), imm)),
        Instr::Mov { rd, ra } => puts(t, rd, form(t, ra)),
        Instr::Isptr { rd, ra } => tests_tag(t, rd, ra, form(t, ra)),
        Instr::Eqw { rd, ra, rb } => puts(t, rd, equal(form(t, ra), form(t, rb))),
        Instr::Out { ra: _ } => or_fault(t, instr, Outcome::Goes(stepped(t))),
        Instr::SelfSlot { rd } => puts(t, rd, Form::Integer),
        Instr::Alu { op, rd, ra, rb } => {
            let f = alu_form(op, form(t, ra), form(t, rb));
            computes(t, instr, divides(op), rd, f, form(t, rb).exact_bits())
        }
        Instr::Addi { rd, ra, imm } => {
            let sum = alu_form(AluOp::Add, form(t, ra), Form::Number(bits_of(imm)));
            puts(t, rd, sum)
        }
        Instr::Lea { rd, ra, rb } => moves(
            kernel,
            t,
            instr,
            rd,
            form(t, ra),
            form(t, rb).exact_bits(),
            Moving::Lea,
        ),
        Instr::Leai { rd, ra, imm } => moves(
            kernel,
            t,
            instr,
            rd,
            form(t, ra),
            Some(0),
            Moving::LeaBy(imm),
        ),
        Instr::Leab { rd, ra, rb } => moves(
            kernel,
            t,
            instr,
            rd,
            form(t, ra),
            form(t, rb).exact_bits(),
            Moving::Leab,
        ),
        Instr::Restrict { rd, ra, rb } => restricts(t, instr, rd, &form(t, ra), &form(t, rb)),
        Instr::Subseg { rd, ra, rb } => {
            moves(
                kernel,
                t,
                instr,
                rd,
                form(t, ra),
                form(t, rb).exact_bits(),
                Moving::Subseg,
            )
        }
        Instr::Ld {
            rd,
            ra,
            pre,
            post,
            imm,
        } => { loads(kernel, t, instr, rd, form(t, ra), imm, pre, load_kind(post)) }
        Instr::St {
            ra,
            rb,
            pre,
            post: _,
            imm,
        } => stores(kernel, t, instr, form(t, ra), rb, imm, pre),
        Instr::Br { imm } => Outcomes::one(branches(t, instr, imm)),
        Instr::Bz { ra, imm } => branches_if(true, t, instr, form(t, ra).exact_bits(), imm),
        Instr::Bnz { ra, imm } => branches_if(false, t, instr, form(t, ra).exact_bits(), imm),
        Instr::Jmp { ra } => jumps(t, t, instr, ra, form(t, ra)),
        Instr::Jal { rd, ra } => links(t, instr, rd, ra),
        Instr::Lip { rd, imm } => moved(t, instr, rd, at_distance(t, imm)),
        Instr::Evt { rd } => reads_event(t, rd.number()),
        Instr::Resume { ra: _, how } => {
            Outcomes::three(
                fault(t, instr),
                Outcome::Goes(stepped(t)),
                Outcome::Resumes(how),
            )
        }
        Instr::Rreg { rd, ra: _, reg } => {
            let read = Outcome::ReadsServed {
                reg: rd.number(),
                from: reg.number(),
                next: stepped(t),
            };
            Outcomes::three(fault(t, instr), sets(t, rd, Form::Any), read)
        }
        Instr::Wreg { ra: _, rb, reg } => gives(t, instr, rb, reg),
        Instr::Setptr { rd: _, ra: _ } => faults(t, instr),
        Instr::Trap { imm: _ } => faults(t, instr),
        Instr::Map { rd: _, ra: _ } => faults(t, instr),
        Instr::Unmap { rd: _, ra: _ } => faults(t, instr),
    }
}

// 6. The turn.

/// The instruction in a word.
pub fn instruction(word: Word) -> Option<Instr>
    ensures { result ≡ instr_in word }
{
    match word {
        Word::Int(bits) => decode(bits),
        Word::Ptr(_) => None,
    }
}

/// What a turn with a word of code can come to.
fn decoded(kernel: &Kernel, t: &Thread, word: Word) -> Outcomes
    requires { allows t.now.ip.perm Fetch ≡ true }
    ensures { result ≡ decoded kernel.now.image kernel.now.kept t.now (instr_in word) }
{
    match instruction(word) {
        None => early_fault(),
        Some(instr) => carries_out(kernel, t, &instr),
    }
}

/// What a turn that fetches a word can come to.
fn fetched(kernel: &Kernel, t: &Thread, word: u64) -> Outcomes
    requires aligned { word % 8 ≡ 0 }
    requires runs { allows t.now.ip.perm Fetch ≡ true }
    ensures { result ≡ fetched kernel.now.image kernel.now.kept t.now word (cell_at kernel.now.image.memory word) }
{
    match kernel.image().cell(word) {
        None => early_fault(),
        Some(cell) => {
            if kernel.is_fixed(word) {
                decoded(kernel, t, cell.word)
            } else {
                Outcomes::one(Outcome::Leaks(Leak::Code { word }))
            }
        }
    }
}

/// What a turn that is not past can come to.
fn aimed(kernel: &Kernel, t: &Thread) -> Outcomes
    ensures { result ≡ aimed kernel.now.image kernel.now.kept t.now (check_result (Ptr t.now.ip) (pos 0) Fetch) }
{
    match check(Word::Ptr(t.ip), 0, Kind::Fetch) {
        Err(_) => early_fault(),
        Ok(access) => fetched(kernel, t, access.addr()),
    }
}

/// What the turn of a thread can come to.
#[tactic(auto, unfolding(mm_kernel::specs::Turns::outcomes))]
pub fn outcomes(kernel: &Kernel, t: &Thread) -> Outcomes
    ensures { result ≡ outcomes kernel.now.image kernel.now.kept t.now }
{
    if t.past {
        early_fault()
    } else {
        aimed(kernel, t)
    }
}

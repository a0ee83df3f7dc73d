//! What loads and stores can come to.

ghost use Rattle.std.specs.Prelude.{◌≡◌, ◌%◌};
ghost use Rattle.mm_word.specs.Access.{check_result};
ghost use Rattle.mm_word.specs.declared.perm.Kind.TheVariants.{Store};
ghost use Rattle.mm_word.specs.declared.word.Word.TheVariants.{Ptr};
ghost use Rattle.mm_model.specs.Ask.{load_kind};
ghost use Rattle.mm_model.specs.Memory.{cell_at};
ghost use Rattle.mm_kernel.specs.Turns.{loaded_at, loaded_by, loads, stored_at, stored_by, stores, stores_outside};
ghost use Rattle.mm_kernel.specs.Turns.{word_loaded, word_stored};

use crate::kernel::Kernel;
use crate::operands::{fault, form};
use crate::outcome_list::Outcomes;
use crate::plain::{faults, or_fault, or_puts, sets};
use crate::segments::is_kept;
use crate::thread::stepped;
use mm_isa::{Instr, Reg};
use mm_kernel::{Form, Leak, Outcome, Thread};
use mm_word::{Cell, GuardedPtr, Kind, Post, Pre, Word, check};

// 1. Loads.

/// The kind of a load: with another post than keep it sets the synchronisation bit.
pub fn load_kind(post: Post) -> Kind
    ensures { result ≡ load_kind post }
{
    match post {
        Post::Keep => Kind::Load,
        Post::Full => Kind::LoadSet,
        Post::Empty => Kind::LoadSet,
    }
}

/// The thread goes on with what a word may hold, in a register.
fn word_loaded(kernel: &Kernel, t: &Thread, rd: Reg, word: u64, cell: Cell) -> Outcome
    requires { word % 8 ≡ 0 }
    ensures { result ≡ word_loaded kernel.now.image kernel.now.kept t.now rd word cell }
{
    if is_kept(kernel.kept(), word) {
        Outcome::Loads {
            part: (word, 3),
            reg: rd.number(),
            next: stepped(t),
        }
    } else if kernel.is_fixed(word) {
        sets(t, rd, Form::of(cell.word))
    } else {
        sets(t, rd, Form::Any)
    }
}

/// What a load from a word can come to.
fn loaded_at(kernel: &Kernel, t: &Thread, instr: &Instr, rd: Reg, pre: Pre, word: u64) -> Outcomes
    requires { word % 8 ≡ 0 }
    ensures { result ≡ loaded_at kernel.now.image kernel.now.kept t.now instr.now rd pre word
        (cell_at kernel.now.image.memory word) }
{
    match kernel.image().cell(word) {
        None => faults(t, instr),
        Some(cell) => {
            let loaded = word_loaded(kernel, t, rd, word, cell);
            match pre {
                Pre::Any => Outcomes::one(loaded),
                _ => Outcomes::two(loaded, fault(t, instr)),
            }
        }
    }
}

/// What a load through a known pointer can come to.
fn loaded_by(
    kernel: &Kernel,
    t: &Thread,
    instr: &Instr,
    rd: Reg,
    pre: Pre,
    through: GuardedPtr,
    imm: i32,
    kind: Kind,
) -> Outcomes
    ensures { result ≡ loaded_by kernel.now.image kernel.now.kept t.now instr.now rd pre
        (check_result (Ptr through) imm kind) }
{
    match check(Word::Ptr(through), i64::from(imm), kind) {
        Err(_) => faults(t, instr),
        Ok(access) => loaded_at(kernel, t, instr, rd, pre, access.addr()),
    }
}

/// A load, through a form.
#[tactic(auto, unfolding(mm_kernel::specs::Turns::loads))]
pub fn loads(
    kernel: &Kernel,
    t: &Thread,
    instr: &Instr,
    rd: Reg,
    form: Form,
    imm: i32,
    pre: Pre,
    kind: Kind,
) -> Outcomes
    ensures { result ≡ loads kernel.now.image kernel.now.kept t.now instr.now rd form imm pre kind }
{
    match form {
        Form::Number(_) | Form::Integer => faults(t, instr),
        Form::Pointer(p) => loaded_by(kernel, t, instr, rd, pre, p, imm, kind),
        Form::Open(perm) => {
            if perm.permits(kind) {
                or_puts(t, instr, rd, Form::Any)
            } else {
                faults(t, instr)
            }
        }
        Form::Any => or_puts(t, instr, rd, Form::Any),
        Form::Inside(p) => {
            if p.perm().permits(kind) {
                let loaded = Outcome::Loads {
                    part: (p.addr(), p.log()),
                    reg: rd.number(),
                    next: stepped(t),
                };
                or_fault(t, instr, loaded)
            } else {
                faults(t, instr)
            }
        }
    }
}

// 2. Stores.

/// A store outside of the kept words hands its word out.
fn stores_outside(t: &Thread, rb: Reg) -> Outcome
    ensures { result ≡ stores_outside t.now rb }
{
    let leak = Leak::Store {
        at: t.ip.addr(),
        reg: rb.number(),
        form: form(t, rb),
    };
    Outcome::HandsOut {
        form: form(t, rb),
        leak,
    }
}

/// A kept word gets what is stored; another word hands it out.
fn word_stored(kernel: &Kernel, t: &Thread, rb: Reg, word: u64) -> Outcome
    ensures { result ≡ word_stored kernel.now.kept t.now rb word }
{
    if is_kept(kernel.kept(), word) {
        Outcome::Stores {
            part: (word, 3),
            form: form(t, rb).stored(),
        }
    } else {
        stores_outside(t, rb)
    }
}

/// What a store to a word can come to.
fn stored_at(kernel: &Kernel, t: &Thread, instr: &Instr, rb: Reg, pre: Pre, word: u64) -> Outcomes
    requires { word % 8 ≡ 0 }
    ensures { result ≡ stored_at kernel.now.kept t.now instr.now rb pre word
        (cell_at kernel.now.image.memory word) }
{
    match kernel.image().cell(word) {
        None => faults(t, instr),
        Some(_) => {
            let stored = word_stored(kernel, t, rb, word);
            let on = Outcome::Goes(stepped(t));
            match pre {
                Pre::Any => Outcomes::two(stored, on),
                _ => Outcomes::three(stored, on, fault(t, instr)),
            }
        }
    }
}

/// What a store through a known pointer can come to.
fn stored_by(
    kernel: &Kernel,
    t: &Thread,
    instr: &Instr,
    rb: Reg,
    pre: Pre,
    through: GuardedPtr,
    imm: i32,
) -> Outcomes
    ensures { result ≡ stored_by kernel.now.image kernel.now.kept t.now instr.now rb pre
        (check_result (Ptr through) imm Store) }
{
    match check(Word::Ptr(through), i64::from(imm), Kind::Store) {
        Err(_) => faults(t, instr),
        Ok(access) => stored_at(kernel, t, instr, rb, pre, access.addr()),
    }
}

/// A store, through a form.
#[tactic(auto, unfolding(mm_kernel::specs::Turns::stores))]
pub fn stores(
    kernel: &Kernel,
    t: &Thread,
    instr: &Instr,
    through: Form,
    rb: Reg,
    imm: i32,
    pre: Pre,
) -> Outcomes
    ensures { result ≡ stores kernel.now.image kernel.now.kept t.now instr.now through rb imm pre }
{
    match through {
        Form::Number(_) | Form::Integer => faults(t, instr),
        Form::Pointer(p) => stored_by(kernel, t, instr, rb, pre, p, imm),
        Form::Open(perm) => {
            if perm.permits(Kind::Store) {
                Outcomes::three(
                    fault(t, instr),
                    stores_outside(t, rb),
                    Outcome::Goes(stepped(t)),
                )
            } else {
                faults(t, instr)
            }
        }
        Form::Any => Outcomes::three(
            fault(t, instr),
            stores_outside(t, rb),
            Outcome::Goes(stepped(t)),
        ),
        Form::Inside(p) => {
            if p.perm().permits(Kind::Store) {
                let stored = Outcome::Stores {
                    part: (p.addr(), p.log()),
                    form: form(t, rb).stored(),
                };
                Outcomes::three(fault(t, instr), stored, Outcome::Goes(stepped(t)))
            } else {
                faults(t, instr)
            }
        }
    }
}

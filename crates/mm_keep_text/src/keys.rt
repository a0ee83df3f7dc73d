//! The numbers by which forms, cells and leaks are put in order.

ghost use Rattle.std.specs.Prelude.{◌≡◌, ◌+◌, ◌∷◌};
ghost use Rattle.mm_keep_text.specs.Keys.{cell_from, cell_key, form_from, form_key, leak_by, leak_form, leak_from};
ghost use Rattle.mm_keep_text.specs.Keys.{leak_place, pointer_from, pointer_key};

use mm_kernel::{Form, Leak};
use mm_word::GuardedPtr;

/// The key of a pointer.
pub(crate) fn pointer_key(p: GuardedPtr) -> [u64; 1]
    ensures is { result ≡ pointer_key p }
    ensures again { pointer_from result ≡ p }
{
    [p.bits()]
}

/// The key of a form: forms of one word before the others.
pub(crate) fn form_key(form: &Form) -> [u64; 4]
    ensures is { result ≡ form_key form.now }
    ensures again { form_from result ≡ form.now }
{
    match *form {
        Form::Number(bits) => [0, bits, 0, 0],
        Form::Pointer(p) => [1, p.bits(), 0, 0],
        Form::Integer => [2, 0, 0, 0],
        Form::Open(perm) => [3, u64::from(perm.code()), 0, 0],
        Form::Any => [4, 0, 0, 0],
        Form::Inside(p) => [5, u64::from(p.perm().code()), p.addr(), u64::from(p.log())],
    }
}

/// The key of a word with a form.
pub(crate) fn cell_key(word: u64, form: &Form) -> [u64; 5]
    ensures is { result ≡ cell_key (word, form.now) }
    ensures again { cell_from result ≡ (word, form.now) }
{
    let key = form_key(form);
    [word, key[0], key[1], key[2], key[3]]
}

/// The key of a leak: its kind, its address and its register, and then the key of its form.
pub(crate) fn leak_key(kind: u64, at: u64, reg: u64, form: &Form) -> [u64; 7]
    ensures is { result ≡ kind ∷ at ∷ reg ∷ form_key form.now }
    ensures again { leak_from result ≡ leak_by kind at reg form.now }
{
    let key = form_key(form);
    [kind, at, reg, key[0], key[1], key[2], key[3]]
}

/// The kind of a leak, its address and its register. An instruction pointer comes before the registers.
pub(crate) fn leak_place(leak: &Leak) -> (u64, u64, u64)
    ensures is { result ≡ leak_place leak.now }
    ensures again { leak_by result.0 result.1 result.2 (leak_form leak.now) ≡ leak.now }
{
    match *leak {
        Leak::Across { pointer } => (0, pointer.bits(), 0),
        Leak::Cell { word, form: _ } => (1, word, 0),
        Leak::Code { word } => (2, word, 0),
        Leak::Jump { at, reg, form: _ } => (3, at, u64::from(reg)),
        Leak::Enter { at, reg, form: _ } => (4, at, u64::from(reg)),
        Leak::Store { at, reg, form: _ } => (5, at, u64::from(reg)),
        Leak::Give { at, reg, form: _ } => (6, at, u64::from(reg)),
        Leak::FaultPointer { at } => (7, at, 0),
        Leak::Fault { at, reg, form: _ } => (7, at, u64::from(reg) + 1),
        Leak::Loose { slot } => (8, u64::from(slot), 0),
    }
}

/// The form of a leak; that of 0, if it has none.
pub(crate) fn leak_form(leak: &Leak) -> Form
    ensures { result ≡ leak_form leak.now }
{
    match *leak {
        Leak::Cell { word: _, form } => form,
        Leak::Jump {
            at: _,
            reg: _,
            form,
        } => form,
        Leak::Enter {
            at: _,
            reg: _,
            form,
        } => form,
        Leak::Store {
            at: _,
            reg: _,
            form,
        } => form,
        Leak::Give {
            at: _,
            reg: _,
            form,
        } => form,
        Leak::Fault {
            at: _,
            reg: _,
            form,
        } => form,
        _ => Form::Number(0),
    }
}

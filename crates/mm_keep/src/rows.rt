//! Threads, forms and leaks as numbers, by which the tables compare and hash them.
#![tactic(auto, unfolding(crate::specs::Rows::thread_of, crate::specs::Rows::numbers_of))]

ghost use Rattle.std.specs.Prelude.{◌≡◌, ◌==◌, map};
ghost use Rattle.mm_word.specs.Pointer.{bits_of};
ghost use Rattle.mm_keep.specs.Rows.{flag, form_of, handler_by, how_by, kind_in, leak_of, numbers_of};
ghost use Rattle.mm_keep.specs.Rows.{numbers_of_form, numbers_of_handler, numbers_of_origin, origin_by, pointer_in};
ghost use Rattle.mm_keep.specs.Rows.{slot_and_thread, thread_of, value_in};

use mm_isa::How;
use mm_kernel::{Form, Handler, Leak, Origin, Thread};
use mm_word::{GuardedPtr, Perm};

/// A kind and a value.
pub type Pair = [u64; 2];

/// A thread: its origin, its handler, and its instruction pointer with whether it is past; and its forms.
pub type Row = ([Pair; 3], [Pair; 16]);

/// A leak: its kind, its address, its register, and its form.
pub type LeakRow = (u8, u64, u8, Pair);

// 1. To numbers.

/// A form as numbers.
pub fn form_numbers(form: &Form) -> Pair
    ensures is { result ≡ numbers_of_form form.now }
    ensures again { form_of result ≡ form.now }
{
    match *form {
        Form::Number(bits) => [0, bits],
        Form::Pointer(p) => [1, bits(p)],
        Form::Integer => [2, 0],
        Form::Open(perm) => [3, u64::from(perm.code())],
        Form::Any => [4, 0],
        Form::Inside(p) => [5, bits(p)],
    }
}

/// An origin as numbers.
fn origin_numbers(origin: &Origin) -> Pair
    ensures is { result ≡ numbers_of_origin origin.now }
    ensures again { origin_by (kind_in result) (value_in result) ≡ origin.now }
{
    match *origin {
        Origin::Door(door) => [0, bits(door)],
        Origin::Slot(number) => [1, u64::from(number)],
    }
}

/// A handler as numbers.
fn handler_numbers(handler: Handler) -> Pair
    ensures is { result ≡ numbers_of_handler handler }
    ensures again { handler_by (kind_in result) (value_in result) ≡ handler }
{
    match handler {
        Handler::Nobody => [0, 0],
        Handler::Kernel(number) => [1, u64::from(number)],
        Handler::Caller => [2, 0],
    }
}

/// Forms as numbers.
#[tactic(auto, using(crate::proofs::Filled::filled, crate::proofs::Filled::filled_all, crate::proofs::Filled::filled_back, crate::proofs::Filled::filled_back_all))]
fn forms_numbers(forms: &[Form; 16]) -> [Pair; 16]
    ensures is { result ≡ map numbers_of_form forms.now }
    ensures again { map form_of result ≡ forms.now }
{
    let mut numbers = [[0; 2]; 16];
    for r in 0..16usize {
        numbers[r] = form_numbers(&forms[r]);
    }
    numbers
}

/// Whether a thread is past, as a number.
fn flag(past: bool) -> u64
    ensures is { result ≡ flag past }
    ensures again { (result == 1) ≡ past }
{
    past as u64
}

/// The bits of a pointer, from which it is read again.
pub fn bits(p: GuardedPtr) -> u64
    ensures is { result ≡ bits_of p }
    ensures again { pointer_in result ≡ p }
{
    p.bits()
}

/// A thread as numbers.
pub fn thread_numbers(t: &Thread) -> Row
    ensures is { result ≡ numbers_of t.now }
    ensures again { thread_of result ≡ t.now }
{
    let head = [
        origin_numbers(&t.origin),
        handler_numbers(t.handler),
        [bits(t.ip), flag(t.past)],
    ];
    (head, forms_numbers(&t.forms))
}

/// A leak as numbers.
pub fn leak_numbers(leak: &Leak) -> LeakRow
    ensures { leak_of result ≡ leak.now }
{
    match *leak {
        Leak::Across { pointer } => (0, bits(pointer), 0, [0, 0]),
        Leak::Cell { word, form } => (1, word, 0, form_numbers(&form)),
        Leak::Code { word } => (2, word, 0, [0, 0]),
        Leak::Jump { at, reg, form } => (3, at, reg, form_numbers(&form)),
        Leak::Enter { at, reg, form } => (4, at, reg, form_numbers(&form)),
        Leak::Store { at, reg, form } => (5, at, reg, form_numbers(&form)),
        Leak::Give { at, reg, form } => (6, at, reg, form_numbers(&form)),
        Leak::FaultPointer { at } => (7, at, 0, [0, 0]),
        Leak::Fault { at, reg, form } => (8, at, reg, form_numbers(&form)),
        Leak::Loose { slot } => (9, u64::from(slot), 0, [0, 0]),
    }
}

/// A faulted thread of a slot as numbers.
pub fn faulted_numbers(slot: u8, t: &Thread) -> (u8, [Pair; 3], [Pair; 16])
    ensures { slot_and_thread result ≡ (slot, t.now) }
{
    let (head, forms) = thread_numbers(t);
    (slot, head, forms)
}

/// How a thread resumes, as a number.
pub fn how_number(how: How) -> u8
    ensures { how_by result ≡ how }
{
    match how {
        How::Retry => 0,
        How::Skip => 1,
        How::Kill => 2,
    }
}

// 2. From numbers.

/// The pointer that bits spell; some key, if they spell none.
pub fn pointer(bits: u64) -> GuardedPtr
    ensures { result ≡ pointer_in bits }
{
    match GuardedPtr::from_bits(bits) {
        Some(p) => p,
        None => GuardedPtr::of_bits(7 << 60),
    }
}

/// The form of numbers.
pub fn form(numbers: Pair) -> Form
    ensures { result ≡ form_of numbers }
{
    let value = numbers[1];
    match numbers[0] {
        0 => Form::Number(value),
        1 => Form::Pointer(pointer(value)),
        2 => Form::Integer,
        3 => Form::Open(Perm::from_code(value).unwrap_or(Perm::Key)),
        4 => Form::Any,
        _ => Form::Inside(pointer(value)),
    }
}

/// The origin of numbers.
fn origin(numbers: Pair) -> Origin
    ensures { result ≡ origin_by (kind_in numbers) (value_in numbers) }
{
    match numbers[0] {
        0 => Origin::Door(pointer(numbers[1])),
        _ => Origin::Slot((numbers[1] % 256) as u8),
    }
}

/// The handler of numbers.
fn handler(numbers: Pair) -> Handler
    ensures { result ≡ handler_by (kind_in numbers) (value_in numbers) }
{
    match numbers[0] {
        0 => Handler::Nobody,
        1 => Handler::Kernel((numbers[1] % 256) as u8),
        _ => Handler::Caller,
    }
}

/// The forms of numbers.
#[tactic(auto, using(crate::proofs::Filled::filled, crate::proofs::Filled::filled_all))]
fn forms(numbers: &[Pair; 16]) -> [Form; 16]
    ensures { result ≡ map form_of numbers.now }
{
    let mut forms = [Form::Any; 16];
    for r in 0..16usize {
        forms[r] = form(numbers[r]);
    }
    forms
}

/// The thread of numbers.
pub fn thread(head: &[Pair; 3], numbers: &[Pair; 16]) -> Thread
    ensures { result ≡ thread_of (head.now, numbers.now) }
{
    Thread {
        origin: origin(head[0]),
        handler: handler(head[1]),
        ip: pointer(head[2][0]),
        past: head[2][1] == 1,
        forms: forms(numbers),
    }
}

/// A way to resume, from its number.
pub fn how(number: u8) -> How
    ensures { result ≡ how_by number }
{
    match number {
        0 => How::Retry,
        1 => How::Skip,
        _ => How::Kill,
    }
}

/// The leak of numbers.
pub fn leak(numbers: &LeakRow) -> Leak
    ensures { result ≡ leak_of numbers.now }
{
    let at = numbers.1;
    let reg = numbers.2;
    let form = form(numbers.3);
    match numbers.0 {
        0 => Leak::Across {
            pointer: pointer(at),
        },
        1 => Leak::Cell { word: at, form },
        2 => Leak::Code { word: at },
        3 => Leak::Jump { at, reg, form },
        4 => Leak::Enter { at, reg, form },
        5 => Leak::Store { at, reg, form },
        6 => Leak::Give { at, reg, form },
        7 => Leak::FaultPointer { at },
        8 => Leak::Fault { at, reg, form },
        _ => Leak::Loose {
            slot: (at % 256) as u8,
        },
    }
}

//! What becomes of a thread.
#![tactic(auto, unfolding(mm_kernel::specs::Threads::form_in, mm_kernel::specs::Threads::with_form, mm_kernel::specs::Threads::stepped, mm_model::specs::Effect::advanced, mm_model::specs::Effect::runs_past))]

ghost use Rattle.std.specs.Prelude.{◌≡◌, ◌+◌, ◌<◌};
ghost use Rattle.mm_kernel.specs.Derived.{on_after};
ghost use Rattle.mm_kernel.specs.Threads.{form_in, going_to, stepped, with_form};
ghost use Rattle.mm_kernel.specs.Turns.{with_event};

use mm_kernel::{Form, Thread};
use mm_word::{GuardedPtr, next};

/// The form in a register.
#[tactic(auto, unfolding(mm_kernel::specs::Threads::form_in))]
pub fn form_at(t: &Thread, number: u8) -> Form
    ensures { result ≡ form_in t.now number }
{
    match t.forms.get(usize::from(number)) {
        Some(form) => *form,
        None => Form::Number(0),
    }
}

/// The thread with a form in a register.
#[tactic(auto, unfolding(mm_kernel::specs::Threads::with_form), using(crate::proofs::Filled::set_past_end))]
pub fn with_form(t: &Thread, number: u8, form: Form) -> Thread
    ensures { result ≡ with_form t.now number form }
{
    let at = usize::from(number);
    let mut after = *t;
    if at < after.forms.as_slice().len() {
        after.forms[at] = form;
    }
    after
}

/// The thread at its next instruction, or past its segment's end.
pub fn stepped(t: &Thread) -> Thread
    ensures { result ≡ stepped t.now }
{
    let mut after = *t;
    match next(t.ip) {
        Some(ip) => {
            after.ip = ip;
            after.past = false;
        }
        None => after.past = true,
    }
    after
}

/// The thread at another instruction.
pub fn going_to(t: &Thread, ip: GuardedPtr) -> Thread
    ensures { result ≡ going_to t.now ip }
{
    let mut after = *t;
    after.ip = ip;
    after.past = false;
    after
}

/// The thread after the instruction at which it faulted.
pub fn on_after(t: &Thread) -> Thread
    ensures { result ≡ on_after t.now }
{
    let mut after = *t;
    match next(t.ip) {
        Some(ip) => after.ip = ip,
        None => after.past = true,
    }
    after
}

/// Four registers with the words of an event, of which the first is an integer.
pub fn with_event(t: &Thread, rd: u8, ip: Form, address: Form, value: Form) -> Thread
    requires { rd < 252 }
    ensures { result ≡ with_event t.now rd ip address value }
{
    let t = with_form(t, rd, Form::Integer);
    let t = with_form(&t, rd + 1, ip);
    let t = with_form(&t, rd + 2, address);
    with_form(&t, rd + 3, value)
}

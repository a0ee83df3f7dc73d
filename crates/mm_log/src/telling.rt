//! Cycles in an order, each with its text.

ghost use Rattle.std.specs.Prelude.{◌≡◌, ◌+◌, ◌≤◌, ◌^◌, ◌++◌, ℕ, List, None, length};
ghost use Rattle.mm_text.specs.Appends.{Appends};
ghost use Rattle.mm_model.specs.Image.{Image};
ghost use Rattle.mm_model.specs.Run.{robin_from};
ghost use Rattle.mm_model.specs.State.{slot_at};
ghost use Rattle.mm_model.specs.Trace.{turns_of as turns_of_slot};
ghost use Rattle.mm_machine.specs.Machine.{state_of, StandsFor};
ghost use Rattle.mm_sched.specs.Orders.{items_of};
ghost use Rattle.mm_log.specs.Telling.{text_of_run};

use mm_io::Sink;
use mm_machine::Machine;
use mm_mem::{Inspect, Memory};
use mm_sched::{Order, Robin};
use mm_text::TextBuffer;

/// A teller of cycles, which makes a cycle and writes its text.
pub trait Teller {
    ghost use Rattle.std.specs.Prelude.{◌≡◌, ◌<◌, ◌^◌, ◌++◌, ◌∷◌, [], ℕ, List};
    ghost use Rattle.mm_text.specs.Appends.{Appends};
    ghost use Rattle.mm_model.specs.Image.{Image};
    ghost use Rattle.mm_model.specs.State.{State};
    ghost use Rattle.mm_model.specs.Run.{after};
    ghost use Rattle.mm_machine.specs.Machine.{state_of, StandsFor};

    /// The text of the cycle of an item from a state.
    ghost of_cycle: { State → ℕ → List ℕ };

    /// Makes one cycle, and appends its text.
    fn tell<M: Inspect, O: Sink>(
        &mut self,
        machine: &mut Machine<M>,
        item: u8,
        text: &mut TextBuffer,
        out: &mut O,
    )
        requires { (state_of machine.old).cycles < 2 ^ 32 }
        ensures state { state_of machine.new ≡ after (state_of machine.old) item }
        ensures goes { (i : Image) (before : List ℕ) → StandsFor i before machine.old
            → StandsFor i (before ++ item ∷ []) machine.new }
        ensures line { Appends O.taken O.faults out.old out.new text.old text.new
            (of_cycle (state_of machine.old) item) };
}

/// Issues up to `count` cycles in an order, and appends the text of each. Stops early if the items end or no slot runs.
pub fn issue_told<T: Teller, M: Inspect, O: Sink>(
    teller: &mut T,
    machine: &mut Machine<M>,
    order: &Order,
    count: u64,
    text: &mut TextBuffer,
    out: &mut O,
)
    requires { (state_of machine.old).cycles + count ≤ 2 ^ 32 }
    ensures goes { (i : Image) (before : List ℕ) → StandsFor i before machine.old
        → StandsFor i (before ++ items_of order.now (state_of machine.old) count) machine.new }
    ensures lines { Appends O.taken O.faults out.old out.new text.old text.new
        (text_of_run T.of_cycle (state_of machine.old) (items_of order.now (state_of machine.old) count)) }
{
    match order {
        Order::Robin => tell_robin(teller, machine, count, text, out),
        Order::List(list) => {
            let items = list.items();
            let first = &items[..count.min(items.len() as u64) as usize];
            tell_list(teller, machine, first, text, out);
        }
    }
}

/// Issues the items of a list, and appends the text of each.
fn tell_list<T: Teller, M: Inspect, O: Sink>(
    teller: &mut T,
    machine: &mut Machine<M>,
    items: &[u8],
    text: &mut TextBuffer,
    out: &mut O,
)
    requires { (state_of machine.old).cycles + length items.now ≤ 2 ^ 32 }
    ensures goes { (i : Image) (before : List ℕ) → StandsFor i before machine.old
        → StandsFor i (before ++ items.now) machine.new }
    ensures lines { Appends O.taken O.faults out.old out.new text.old text.new
        (text_of_run T.of_cycle (state_of machine.old) items.now) }
{
    for item in items {
        teller.tell(machine, *item, text, out);
    }
}

/// Issues up to `count` cycles of round robin, and appends the text of each. Stops early only if no slot runs.
fn tell_robin<T: Teller, M: Inspect, O: Sink>(
    teller: &mut T,
    machine: &mut Machine<M>,
    count: u64,
    text: &mut TextBuffer,
    out: &mut O,
)
    requires { (state_of machine.old).cycles + count ≤ 2 ^ 32 }
    ensures goes { (i : Image) (before : List ℕ) → StandsFor i before machine.old
        → StandsFor i (before ++ robin_from (state_of machine.old) None count) machine.new }
    ensures lines { Appends O.taken O.faults out.old out.new text.old text.new
        (text_of_run T.of_cycle (state_of machine.old) (robin_from (state_of machine.old) None count)) }
{
    let mut robin = Robin::new();
    for _ in 0..count {
        let Some(item) = robin.next(machine.running()) else {
            break;
        };
        teller.tell(machine, item, text, out);
    }
}

/// The number of turns that a slot has taken; zero if the slot is not there.
pub(crate) fn turns_of<M: Memory>(machine: &Machine<M>, slot: u8) -> u64
    ensures { result ≡ turns_of_slot (slot_at (state_of machine.now).core slot) }
{
    match machine.slot(slot) {
        None => 0,
        Some(slot) => slot.turns,
    }
}

//! Cycles in an order, each with the line of its trace.

ghost use Rattle.std.specs.Prelude.{◌+◌, ◌≤◌, ◌^◌, ◌++◌, ℕ, List};
ghost use Rattle.mm_text.specs.Appends.{Appends};
ghost use Rattle.mm_model.specs.Image.{Image};
ghost use Rattle.mm_model.specs.Trace.{trace};
ghost use Rattle.mm_machine.specs.Machine.{state_of, StandsFor};
ghost use Rattle.mm_sched.specs.Orders.{items_of};

use crate::telling::{Teller, issue_told, turns_of};
use mm_io::Sink;
use mm_machine::Machine;
use mm_mem::Inspect;
use mm_report::put_step;
use mm_sched::Order;
use mm_text::TextBuffer;

/// Issues up to `count` cycles in an order, and appends the line of each. Stops early if the items end or no slot runs.
pub fn issue_traced<M: Inspect, O: Sink>(
    machine: &mut Machine<M>,
    order: &Order,
    count: u64,
    text: &mut TextBuffer,
    out: &mut O,
)
    requires { (state_of machine.old).cycles + count ≤ 2 ^ 32 }
    ensures goes { (i : Image) (before : List ℕ) → StandsFor i before machine.old
        → StandsFor i (before ++ items_of order.now (state_of machine.old) count) machine.new }
    ensures lines { Appends O.taken O.faults out.old out.new text.old text.new
        (trace (state_of machine.old) (items_of order.now (state_of machine.old) count)) }
{
    issue_told(&mut Tracer, machine, order, count, text, out)
}

// The teller of a trace.
#[derive(Drop)]
struct Tracer;

impl Teller for Tracer {
    ghost use Rattle.mm_log.specs.Telling.{traced_cycle};

    ghost of_cycle = { traced_cycle };

    fn tell<M: Inspect, O: Sink>(
        &mut self,
        machine: &mut Machine<M>,
        item: u8,
        text: &mut TextBuffer,
        out: &mut O,
    ) {
        let step = machine.cycle(item);
        let turns = turns_of(machine, step.slot);
        put_step(text, out, &step, turns);
    }
}

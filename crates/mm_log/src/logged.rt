//! Cycles in an order, each with the lines of its log.

ghost use Rattle.std.specs.Prelude.{◌≡◌, ◌+◌, ◌≤◌, ◌<◌, ◌^◌, ◌++◌, ◌∷◌, [], ℕ, List};
ghost use Rattle.mm_text.specs.Appends.{Appends};
ghost use Rattle.mm_model.specs.Image.{Image};
ghost use Rattle.mm_model.specs.Run.{after};
ghost use Rattle.mm_machine.specs.Machine.{state_of, StandsFor};
ghost use Rattle.mm_sched.specs.Orders.{items_of};
ghost use Rattle.mm_log.specs.Log.{log_text};

use crate::after::put_changes;
use crate::telling::{Teller, issue_told, turns_of};
use mm_io::Sink;
use mm_machine::{LastTurn, Machine};
use mm_mem::Inspect;
use mm_report::put_step;
use mm_sched::Order;
use mm_text::TextBuffer;

/// Issues up to `count` cycles in an order, and appends the lines of each. Stops early if the items end or no slot
/// runs.
pub fn issue_logged<M: Inspect, O: Sink>(
    machine: &mut Machine<M>,
    order: &Order,
    count: u64,
    text: &mut TextBuffer,
    out: &mut O,
)
    requires { (state_of machine.old).cycles + count ≤ 2 ^ 32 }
    ensures goes { (i : Image) (before : List ℕ) → StandsFor i before machine.old
        → StandsFor i (before ++ items_of order.now (state_of machine.old) count) machine.new }
    ensures lines { Appends O.taken O.faults out.old out.new text.old text.new
        (log_text (state_of machine.old) (items_of order.now (state_of machine.old) count)) }
{
    let mut logger = Logger {
        last: LastTurn::new(),
    };
    issue_told(&mut logger, machine, order, count, text, out)
}

// The teller of a log, with the place for what its turns show.
#[derive(Drop)]
struct Logger {
    last: LastTurn,
}

impl Teller for Logger {
    ghost use Rattle.mm_log.specs.Telling.{logged_cycle};

    ghost of_cycle = { logged_cycle };

    fn tell<M: Inspect, O: Sink>(
        &mut self,
        machine: &mut Machine<M>,
        item: u8,
        text: &mut TextBuffer,
        out: &mut O,
    ) {
        machine.cycle_shown(item, &mut self.last);
        let turns = turns_of(machine, self.last.step.slot);
        put_step(text, out, &self.last.step, turns);
        put_changes(text, out, machine, &self.last);
    }
}

//! Runs with lines of their own for each cycle, and then the report.

ghost use Rattle.std.specs.Prelude.{◌≡◌, ◌≤◌, ◌++◌, ◌^◌, ◌+◌, List, ℕ};
ghost use Rattle.mm_model.specs.Limits.{cycle_limit};
ghost use Rattle.mm_io.specs.Sinks.{Writes};
ghost use Rattle.mm_text.specs.Appends.{Appends};
ghost use Rattle.mm_model.specs.Image.{Image as ImageValue, start};
ghost use Rattle.mm_machine.specs.Machine.{state_of, StandsFor};
ghost use Rattle.mm_sched.specs.Orders.{items_of};
ghost use Rattle.mm_model.specs.Report.{report_after};
ghost use Rattle.mm_top.specs.Plans.{items_planned, detail_text};
ghost use Rattle.mm_top.specs.Answers.{EndsWith, writing};

use crate::boot::boot;
use crate::plan::Plan;
use mm_io::{Sink, WriteFault};
use mm_load::{CommandError, ended};
use mm_log::{issue_logged, issue_traced};
use mm_machine::Machine;
use mm_mem::{Boot, Inspect};
use mm_report::report;
use mm_sched::Order;
use mm_text::TextBuffer;
use std::alloc::Global;

/// What is told of each cycle.
#[derive(Clone, Copy)]
pub enum TraceDetail {
    /// The line of its turn.
    Turn,
    /// The line of its turn, and all that the turn changed.
    Changes,
}

/// Writes what is told of each cycle of a plan, and then the report.
pub fn write_detail<M: Boot, O: Sink>(
    alloc: Global,
    plan: &Plan,
    detail: TraceDetail,
    out: &mut O,
) -> Result<(), CommandError>
    requires { plan.now.cycles ≤ cycle_limit }
    ensures { let items = items_planned plan.now in
        EndsWith (writing O.taken O.faults out.old out.new)
        (λ text. text ≡ detail_text detail (start plan.now.image) items ++ report_after M.tells plan.now.image items) result }
{
    let mut machine: Machine<M> = boot(alloc, &plan.image)?;
    write_lines(&mut machine, &plan.order, plan.cycles, detail, out)?;
    ended(report(&machine, &plan.image, out))
}

/// Issues up to `count` cycles in an order, and writes what is told of each.
fn write_lines<M: Inspect, O: Sink>(
    machine: &mut Machine<M>,
    order: &Order,
    count: u64,
    detail: TraceDetail,
    out: &mut O,
) -> Result<(), WriteFault>
    requires { (state_of machine.old).cycles + count ≤ 2 ^ 32 }
    ensures goes { (i : ImageValue) (before : List ℕ) → StandsFor i before machine.old
        → StandsFor i (before ++ items_of order.now (state_of machine.old) count) machine.new }
    ensures lines { Writes O.taken O.faults out.old out.new
        (detail_text detail (state_of machine.old) (items_of order.now (state_of machine.old) count)) result }
{
    let mut text = TextBuffer::new();
    issue_detail(machine, order, count, detail, &mut text, out);
    text.finish(out)
}

/// Issues up to `count` cycles in an order, and appends what is told of each.
fn issue_detail<M: Inspect, O: Sink>(
    machine: &mut Machine<M>,
    order: &Order,
    count: u64,
    detail: TraceDetail,
    text: &mut TextBuffer,
    out: &mut O,
)
    requires { (state_of machine.old).cycles + count ≤ 2 ^ 32 }
    ensures goes { (i : ImageValue) (before : List ℕ) → StandsFor i before machine.old
        → StandsFor i (before ++ items_of order.now (state_of machine.old) count) machine.new }
    ensures lines { Appends O.taken O.faults out.old out.new text.old text.new
        (detail_text detail (state_of machine.old) (items_of order.now (state_of machine.old) count)) }
{
    match detail {
        TraceDetail::Turn => issue_traced(machine, order, count, text, out),
        TraceDetail::Changes => issue_logged(machine, order, count, text, out),
    }
}

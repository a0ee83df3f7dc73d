//! Cycles in an order.

ghost use Rattle.std.specs.Prelude.{◌≡◌, ◌+◌, ◌<◌, ◌≤◌, ◌^◌, IfSome};
ghost use Rattle.mm_machine.specs.Machine.{state_of};
ghost use Rattle.mm_machine.specs.Going.{WentOn};
ghost use Rattle.mm_sched.specs.Orders.{items_from, last_from};

use mm_machine::Machine;
use mm_mem::Memory;
use mm_sched::Order;

/// Issues up to `count` cycles in an order. Its round robin goes on after the slot `previous`. Stops early if the items
/// end or no slot runs. Gives the slot that round robin issued last; `None` for a list.
pub fn issue<M: Memory>(
    machine: &mut Machine<M>,
    order: &Order,
    previous: Option<u8>,
    count: u64,
) -> Option<u8>
    requires few { (state_of machine.old).cycles + count ≤ 2 ^ 32 }
    requires slot { IfSome previous (λ n. n < 64) }
    ensures goes { WentOn machine.old machine.new (items_from order.now (state_of machine.old) previous count) }
    ensures last { result ≡ last_from order.now previous (items_from order.now (state_of machine.old) previous count) }
    ensures slot { IfSome result (λ n. n < 64) }
{
    match order {
        Order::Robin => machine.round_robin(previous, count),
        Order::List(list) => {
            let items = list.items();
            machine.follow(&items[..count.min(items.len() as u64) as usize]);
            None
        }
    }
}

//! The cycles of a session, and the stops of a run.

ghost use Rattle.std.specs.Prelude.{◌≡◌, Some};
ghost use Rattle.mm_model.specs.Run.{turn_of};
ghost use Rattle.mm_debug.specs.Session.{next_item, issued, stepped, stops_before, watched, ran};
ghost use Rattle.mm_debug.specs.Shown.{session_of};

use crate::breakpoints::Watches;
use crate::session::Session;
use crate::stop::StopReason;
use mm_mem::Memory;
use mm_model::{CYCLE_LIMIT, SlotState, Step, Tick};
use mm_sched::{Order, Robin};
use mm_word::Kind;

impl<M: Memory> Session<M> {
    /// Issues up to `count` cycles: fewer if the order or the limit ends before.
    pub fn step(&mut self, count: u64)
        ensures { session_of self.new ≡ stepped (session_of self.old) count }
    {
        for _ in 0..count {
            let Some(item) = self.next_item() else {
                break;
            };
            self.issue(item);
        }
    }

    /// Issues cycles up to a stop. The loop has as many rounds as cycles are left below the limit; after the last of
    /// them the limit has ended.
    pub(crate) fn run(&mut self) -> StopReason
        ensures { ran (session_of self.old) ≡ record { session = session_of self.new; stop = result } }
    {
        let mut begun = false;
        for _ in self.machine.cycles()..CYCLE_LIMIT {
            let Some(item) = self.next_item() else {
                return StopReason::End;
            };
            if begun && self.stops_before(item) {
                return StopReason::Break(item);
            }
            let step = self.issue(item);
            if let Some(word) = watched(&self.watches, &step) {
                return StopReason::Watch(word);
            }
            begun = true;
        }
        StopReason::End
    }

    /// The next item; `None` if the order or the limit has ended.
    fn next_item(&self) -> Option<u8>
        ensures { result ≡ next_item (session_of self.now) }
    {
        let total = self.machine.cycles();
        if total >= CYCLE_LIMIT {
            return None;
        }
        match &self.order {
            Order::Robin => self.robin.peek(self.machine.running()),
            Order::List(list) => list.items().get(total as usize).copied(),
        }
    }

    /// Issues the cycle of the next item.
    fn issue(&mut self, item: u8) -> Step
        requires { next_item (session_of self.old) ≡ Some item }
        ensures session { session_of self.new ≡ issued (session_of self.old) item }
        ensures step { result ≡ (turn_of (session_of self.old).state item).step }
    {
        if let Order::Robin = self.order {
            self.robin = Robin::after(Some(item));
        }
        self.machine.cycle(item)
    }

    /// Whether a break stops a run before the cycle of an item.
    fn stops_before(&self, item: u8) -> bool
        ensures { result ≡ stops_before (session_of self.now) item }
    {
        match self.machine.slot(item) {
            Some(slot) => {
                slot.state == SlotState::Running
                    && !slot.past
                    && self.breaks.contains(item, slot.ip.addr())
            }
            None => false,
        }
    }
}

/// The watched word on which a cycle did a store or a load that sets the bit.
fn watched(watches: &Watches, step: &Step) -> Option<u64>
    ensures { result ≡ watched watches.now step.now }
{
    if step.tick != Tick::Did {
        return None;
    }
    let touched = step.touched.as_ref()?;
    match touched.kind() {
        Kind::Store | Kind::LoadSet if watches.contains(touched.addr()) => Some(touched.addr()),
        _ => None,
    }
}

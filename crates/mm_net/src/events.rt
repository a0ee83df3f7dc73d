//! Events of a net, read from text.

ghost use Rattle.std.specs.Prelude.{◌≡◌, ◌⊎◌, ℕ, List, IfOk, Ok, Err};
ghost use Rattle.mm_net.specs.Events.{Means, FaultsAt};

use crate::{NetError, NetItem};
use mm_sched::{ITEM_LIMIT, read_items};
use std::alloc::Global;
use std::marker::Model;

/// At most 1,000,000 items of a net. Numbers of nodes are 0 to 7, of links 0 to 63, and of integers that are carried
/// below 1,000,000. Contracts see the list.
#[derive(Drop)]
pub struct Events {
    items: Vec<NetItem>,
}

impl Model for Events {
    ghost use Rattle.std.specs.Prelude.{List};
    ghost use Rattle.mm_net.specs.declared.item.NetItem.{NetItem};
    ghost use Rattle.mm_net.specs.Events.{AreEvents};

    ghost Value = { List NetItem };

    ghost view = { λ e. e.items.items };

    ghost invariant = { λ e. AreEvents e.items.items };
}

impl Events {
    ghost use Rattle.mm_net.specs.Events.{AreEvents};

    /// The events, in order.
    pub fn items(&self) -> &[NetItem]
        ensures items { result.now ≡ self.now }
        ensures rules { AreEvents self.now }
    {
        self.items.as_slice()
    }
}

/// The events that a text means: items between blanks, and comments from `#` to the end of the line. `N:S` is a turn or
/// port item S of node N, and `N:S*K` is K of them; `+L` lets link L take, and `L@K` lets it carry its integer K. A
/// text that means none has a fault. `NoMemory` comes if memory ran out.
pub fn read_events(alloc: Global, bytes: &[u8]) -> Result<Events, NetError>
    ensures means { IfOk result (λ events. Means bytes.now events) }
    ensures fault { (offset : ℕ) → result ≡ Err (NetError.Fault offset) → FaultsAt bytes.now offset }

    // A text that means events is read as these, and a text that faults is refused at its fault.
    ensures reads { (events : List NetItem) → Means bytes.now events → (result ≡ Ok events)
        ⊎ (result ≡ Err NetError.NoMemory) }
    ensures refuses { (offset : ℕ) → FaultsAt bytes.now offset → (result ≡ Err (NetError.Fault offset))
        ⊎ (result ≡ Err NetError.NoMemory) }
{
    Ok(Events {
        items: read_items(alloc, bytes, ITEM_LIMIT)?,
    })
}

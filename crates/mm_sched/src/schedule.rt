//! Schedules, and the orders in which cycles are issued.

ghost use Rattle.std.specs.Prelude.{◌≡◌, ◌↔◌, ◌≤◌, IsSome, IfSome, IfOk, length, take, ◌==◌};
ghost use Rattle.std.specs.List.{filter, list_any};

use mm_model::CYCLE_LIMIT;
use mm_word::NoMemory;
use std::alloc::Global;
use std::marker::Model;

/// The most items of a schedule.
pub const ITEM_LIMIT: usize = CYCLE_LIMIT as usize;

/// A list of at most 1,000,000 items. An item is the number of a slot or, in a split machine, 128 more than the number
/// of the slot whose port it is. Contracts see the list.
#[derive(Drop)]
pub struct Schedule {
    pub(crate) items: Vec<u8>,
}

impl Model for Schedule {
    ghost use Rattle.std.specs.Prelude.{ℕ, ◌≤◌, List, length};
    ghost use Rattle.mm_model.specs.Schedule.{item_limit};

    ghost Value = { List ℕ };

    ghost view = { λ s. s.items.items };

    ghost invariant = { λ s. length s.items.items ≤ item_limit };
}

/// The order in which cycles are issued.
#[derive(Drop)]
pub enum Order {
    /// The next running slot after the last one, cyclically by number.
    Robin,
    /// The items of a list.
    List(Schedule),
}

impl Schedule {
    ghost use Rattle.mm_model.specs.Schedule.{item_limit};

    /// The schedule of these items. `None` exactly if there are more than 1,000,000.
    pub fn new(items: Vec<u8>) -> Option<Schedule>
        ensures made { IsSome result ↔ (length items.items ≤ item_limit) }
        ensures value { IfSome result (λ s. s ≡ items.items) }
    {
        if items.len() <= ITEM_LIMIT {
            Some(Schedule { items })
        } else {
            None
        }
    }

    /// The schedule's items, in order.
    pub fn items(&self) -> &[u8]
        ensures items { result.now ≡ self.now }
        ensures limit { length result.now ≤ item_limit }
    {
        self.items.as_slice()
    }
}

/// The schedule of those of the first `count` items that are among the members. Order and repeats stay.
pub fn only(alloc: Global, s: &Schedule, count: u64, members: &[u8]) -> Result<Schedule, NoMemory>
    ensures { IfOk result
        (λ kept. kept ≡ filter (λ item. list_any (λ member. member == item) members.now) (take count s.now)) }
{
    let items = s.items();
    let first = &items[..count.min(items.len() as u64) as usize];
    let mut kept = Vec::new(alloc);
    for item in first {
        if members.contains(item) {
            kept.push(*item)?;
        }
    }
    Ok(Schedule { items: kept })
}

//! Slots and the groups of their handlers.

ghost use Rattle.std.specs.Prelude.{◌≡◌, ◌++◌, IfOk, OnOk};
ghost use Rattle.std.specs.List.{flat_map};
ghost use Rattle.mm_model.specs.Turn.{is_handler};
ghost use Rattle.mm_audit.specs.Serving.{served_by, served_of};

use mm_model::Slot;
use mm_word::NoMemory;
use std::alloc::Global;

/// A slot with the group of its handler.
#[derive(Clone, Copy)]
pub struct Served {
    /// The slot's number.
    pub slot: u8,
    /// The group of the slot.
    pub group: u8,
    /// The group of the slot's handler.
    pub by: u8,
}

/// Whether a handler is the slot of this number.
fn is_handler(handler: Option<u8>, number: u8) -> bool
    ensures { result ≡ is_handler number handler }
{
    match handler {
        Some(h) => h == number,
        None => false,
    }
}

/// Adds the slot `s` with the group of `t`, if `t` is its handler.
fn add_server(served: &mut Vec<Served>, s: &Slot, t: &Slot) -> Result<(), NoMemory>
    ensures { OnOk result (served.new.items ≡ served.old.items ++ served_by s.now t.now) }
{
    if is_handler(s.handler, t.number) {
        let one = Served {
            slot: s.number,
            group: s.group,
            by: t.group,
        };
        served.push(one)?;
    }
    Ok(())
}

/// Adds a slot with the group of its handler.
fn add_slot(served: &mut Vec<Served>, s: &Slot, slots: &[Slot]) -> Result<(), NoMemory>
    ensures { OnOk result (served.new.items ≡ served.old.items ++ flat_map (served_by s.now) slots.now) }
{
    for t in slots {
        add_server(served, s, t)?;
    }
    Ok(())
}

/// The slots with the groups of their handlers.
pub fn served_in(alloc: Global, slots: &[Slot]) -> Result<Vec<Served>, NoMemory>
    ensures { IfOk result (λ served. served.items ≡ served_of slots.now) }
{
    let mut served = Vec::new(alloc);
    for s in slots {
        add_slot(&mut served, s, slots)?;
    }
    Ok(served)
}

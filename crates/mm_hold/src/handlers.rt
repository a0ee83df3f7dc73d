//! Slots whose handlers are callers.

ghost use Rattle.std.specs.List.{flat_map};
ghost use Rattle.std.specs.Prelude.{◌≡◌, ◌++◌, IfOk, OnOk};
ghost use Rattle.mm_hold.specs.Handlers.{is_by_caller, served_by_caller, served_by_callers};

use mm_audit::Served;
use mm_keep::Kernel;
use mm_model::Slot;
use mm_word::NoMemory;
use std::alloc::Global;

/// Whether a handler is the slot of a number, and that is no slot of the kernel.
fn is_by_caller(kernel: &Kernel, handler: Option<u8>, number: u8) -> bool
    ensures { result ≡ is_by_caller kernel.now.image kernel.now.kept handler number }
{
    match handler {
        Some(h) => h == number && !kernel.is_kernel(number),
        None => false,
    }
}

/// Adds the slot `s` with the group of `t`, if `t` is its handler and no slot of the kernel.
fn add_server(served: &mut Vec<Served>, kernel: &Kernel, s: &Slot, t: &Slot) -> Result<(), NoMemory>
    ensures { OnOk result (served.new.items
        ≡ served.old.items ++ served_by_caller kernel.now.image kernel.now.kept s.now t.now) }
{
    if is_by_caller(kernel, s.handler, t.number) {
        let one = Served {
            slot: s.number,
            group: s.group,
            by: t.group,
        };
        served.push(one)?;
    }
    Ok(())
}

/// Adds a slot with the group of its handler, if that is a caller.
fn add_slot(
    served: &mut Vec<Served>,
    kernel: &Kernel,
    s: &Slot,
    slots: &[Slot],
) -> Result<(), NoMemory>
    ensures { OnOk result (served.new.items
        ≡ served.old.items ++ flat_map (served_by_caller kernel.now.image kernel.now.kept s.now) slots.now) }
{
    for t in slots {
        add_server(served, kernel, s, t)?;
    }
    Ok(())
}

/// Adds slots with the groups of their handlers, if these are callers.
fn add_slots(served: &mut Vec<Served>, kernel: &Kernel, slots: &[Slot]) -> Result<(), NoMemory>
    ensures { OnOk result (served.new.items
        ≡ served.old.items ++ served_by_callers kernel.now.image kernel.now.kept slots.now) }
{
    for s in slots {
        add_slot(served, kernel, s, slots)?;
    }
    Ok(())
}

/// The slots whose handlers are callers, with the groups of these.
pub fn served_in(alloc: Global, kernel: &Kernel) -> Result<Vec<Served>, NoMemory>
    ensures { IfOk result (λ served. served.items
        ≡ served_by_callers kernel.now.image kernel.now.kept kernel.now.image.slots) }
{
    let mut served = Vec::new(alloc);
    add_slots(&mut served, kernel, kernel.image().slots())?;
    Ok(served)
}

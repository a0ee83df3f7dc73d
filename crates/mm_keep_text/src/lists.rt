//! The doors, the new forms and the leaks of a kernel, each in the order of their keys.

ghost use Rattle.std.specs.Prelude.{◌≡◌, ◌↔◌, ℕ, IfOk, Contains, true, false};
ghost use Rattle.mm_word.specs.Pointer.{Pointer as PointerValue};
ghost use Rattle.mm_kernel.specs.declared.fact.Leak.{Leak as LeakValue};
ghost use Rattle.mm_kernel.specs.declared.form.Form.{Form as FormValue};
ghost use Rattle.mm_kernel.specs.Derived.{HasFirst};
ghost use Rattle.mm_keep_text.specs.Keys.{Ascend, cell_key, leak_key, pointer_key};

use crate::keys::{cell_key, form_key, leak_form, leak_key, leak_place, pointer_key};
use mm_keep::{Kernel, Tables, first_form, is_kept};
use mm_kernel::{Form, Leak};
use mm_word::{GuardedPtr, NoMemory};
use std::alloc::Global;
use std::collections::BTreeMap;

/// The doors, ascending.
pub(crate) fn doors(alloc: Global, tables: &Tables) -> Result<Vec<GuardedPtr>, NoMemory>
    ensures ascend { IfOk result (λ doors. Ascend pointer_key doors.items) }
    ensures each { IfOk result (λ doors. (p : PointerValue) → Contains doors.items p ↔ Contains tables.now.doors p) }
{
    let mut listed = BTreeMap::new(alloc);
    for k in 0..tables.doors() {
        let door = tables.door(k);
        listed.insert(pointer_key(door), door)?;
    }
    Ok(listed.values().copied().collect(alloc)?)
}

/// The leaks, ascending.
pub(crate) fn leaks(alloc: Global, tables: &Tables) -> Result<Vec<Leak>, NoMemory>
    ensures ascend { IfOk result (λ leaks. Ascend leak_key leaks.items) }
    ensures each { IfOk result (λ leaks. (l : LeakValue) → Contains leaks.items l ↔ Contains tables.now.leaks l) }
{
    let mut listed = BTreeMap::new(alloc);
    for k in 0..tables.leaks() {
        let leak = tables.leak(k);
        let (kind, at, reg) = leak_place(&leak);
        let form = leak_form(&leak);
        listed.insert(leak_key(kind, at, reg, &form), leak)?;
    }
    Ok(listed.values().copied().collect(alloc)?)
}

/// Whether a kept word has a form from the start.
fn is_first(kernel: &Kernel, word: u64, form: &Form) -> bool
    ensures yes { result ≡ true → HasFirst kernel.now.image kernel.now.kept word form.now }
    ensures no { result ≡ false → HasFirst kernel.now.image kernel.now.kept word form.now → ⊥ }
{
    if word % 8 != 0 {
        return false;
    }
    match kernel.image().cell(word) {
        None => false,
        Some(cell) => {
            is_kept(kernel.kept(), word)
                && form_key(&first_form(kernel, word, cell.word)) == form_key(form)
        }
    }
}

/// The words that get a form which they do not have from the start, each with the form, ascending.
pub(crate) fn cells(
    alloc: Global,
    kernel: &Kernel,
    tables: &Tables,
) -> Result<Vec<(u64, Form)>, NoMemory>
    ensures ascend { IfOk result (λ cells. Ascend cell_key cells.items) }
    ensures each { IfOk result (λ cells. (cell : ℕ × FormValue) → Contains cells.items cell
        ↔ (Contains tables.now.stored cell × (HasFirst kernel.now.image kernel.now.kept cell.0 cell.1 → ⊥))) }
{
    let mut listed = BTreeMap::new(alloc);
    for k in 0..tables.stored() {
        let cell = tables.stored_at(k);
        if !is_first(kernel, cell.0, &cell.1) {
            listed.insert(cell_key(cell.0, &cell.1), cell)?;
        }
    }
    Ok(listed.values().copied().collect(alloc)?)
}

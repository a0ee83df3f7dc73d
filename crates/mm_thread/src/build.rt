//! Making a core.

ghost use Rattle.std.specs.Prelude.{◌≡◌, ◌≤◌, [], length, map, replicate, IfOk};
ghost use Rattle.mm_thread.specs.SlotIndices.{row_alone};
ghost use Rattle.mm_thread.specs.Tables.{AreNumbered, IsIndex};

use crate::group_output::GroupOutput;
use crate::queue::Queue;
use crate::row::ThreadRow;
use mm_model::Slot;
use mm_word::NoMemory;
use std::alloc::Global;

/// The rows of slots without events.
pub(crate) fn rows_of(alloc: Global, slots: &[Slot]) -> Result<Vec<ThreadRow>, NoMemory>
    ensures { IfOk result (λ rows. rows.items ≡ map row_alone slots.now) }
{
    let mut rows = Vec::with_capacity(alloc, slots.len())?;
    for slot in slots {
        let row = ThreadRow {
            slot: slot.copy(),
            queue: Queue::new(),
        };
        rows.push(row)?;
    }
    Ok(rows)
}

/// The outputs of 64 groups, all empty.
pub(crate) fn no_outputs(alloc: Global) -> Result<Vec<GroupOutput>, NoMemory>
    ensures { IfOk result (λ outputs. outputs.items ≡ replicate 64 []) }
{
    let mut outputs = Vec::with_capacity(alloc, 64)?;
    for _group in 0..64u32 {
        let output = GroupOutput::new(alloc)?;
        outputs.push(output)?;
    }
    Ok(outputs)
}

/// The table that gives for each number the index of its row, and 64 if there is none.
pub(crate) fn index_of(rows: &[ThreadRow]) -> [u8; 64]
    requires apart { AreNumbered rows.now }
    requires few { length rows.now ≤ 64 }
    ensures { IsIndex rows.now result }
{
    let mut index = [64u8; 64];
    for i in 0..rows.len() {
        let number = rows[i].number();
        index[number as usize] = i as u8;
    }
    index
}

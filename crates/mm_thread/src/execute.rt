//! The table of instructions: a row for each that needs more than its slot, and one row for all others.

ghost use Rattle.std.specs.Prelude.{◌≡◌, ◌<◌, ◌^◌, ◌&&◌, true, false};
ghost use Rattle.mm_model.specs.Operands.{lacks};
ghost use Rattle.mm_thread.specs.SlotIndices.{slot_in};
ghost use Rattle.mm_thread.specs.Ends.{reaches_out};
ghost use Rattle.mm_thread.specs.Execution.{CanTurn, Executes};

use crate::completion::Retired;
use crate::memory_ops::{MemoryOperand, load, map, store, unmap, untouched};
use crate::slot_ops::{go_alone, next_event, put_out, read_register, resume, write_register};
use crate::tables::Tables;
use mm_isa::Instr;
use mm_mem::Memory;

/// Carries out an instruction of the slot at `slot_index`.
#[inline(always)]
pub(crate) fn execute<M: Memory>(
    tables: &mut Tables,
    slot_index: usize,
    mem: &mut M,
    instr: &Instr,
) -> Retired
    requires can { CanTurn tables.old slot_index }
    requires free { (tables.old.split && lacks instr.now (slot_in tables.old slot_index)) ≡ false }
    requires room { M.uses mem.old < 2 ^ 62 }
    ensures { Executes M.meaning M.uses M.stands tables.old (slot_in tables.old slot_index) instr.now mem.old mem.new
        tables.new result }
{
    match instr {
        Instr::Ld {
            rd,
            ra,
            pre,
            post,
            imm,
        } => load(
            tables,
            slot_index,
            mem,
            *rd,
            MemoryOperand {
                base: *ra,
                offset: *imm,
                pre: *pre,
                post: *post,
            },
        ),
        Instr::St {
            ra,
            rb,
            pre,
            post,
            imm,
        } => store(
            tables,
            slot_index,
            mem,
            *rb,
            MemoryOperand {
                base: *ra,
                offset: *imm,
                pre: *pre,
                post: *post,
            },
        ),
        Instr::Out { .. }
        | Instr::Evt { .. }
        | Instr::Resume { .. }
        | Instr::Rreg { .. }
        | Instr::Wreg { .. }
        | Instr::Map { .. }
        | Instr::Unmap { .. } => reach_out(tables, slot_index, mem, *instr),
        _ => untouched(go_alone(tables, slot_index, instr)),
    }
}

/// Carries out an instruction that reaches the outputs, the queue, another slot or the pages. It stays a call, since few
/// words spell one, so that the loop of cycles has the others.
#[inline(never)]
fn reach_out<M: Memory>(
    tables: &mut Tables,
    slot_index: usize,
    mem: &mut M,
    instr: Instr,
) -> Retired
    requires can { CanTurn tables.old slot_index }
    requires reaches { reaches_out instr ≡ true }
    ensures { Executes M.meaning M.uses M.stands tables.old (slot_in tables.old slot_index) instr mem.old mem.new tables.new
        result }
{
    match instr {
        Instr::Out { ra } => untouched(put_out(tables, slot_index, ra)),
        Instr::Evt { rd } => untouched(next_event(tables, slot_index, rd)),
        Instr::Resume { ra, how } => untouched(resume(tables, slot_index, ra, how)),
        Instr::Rreg { rd, ra, reg } => untouched(read_register(tables, slot_index, rd, ra, reg)),
        Instr::Wreg { ra, rb, reg } => untouched(write_register(tables, slot_index, ra, rb, reg)),
        Instr::Map { rd, ra } => map(tables, slot_index, mem, rd, ra),
        Instr::Unmap { rd, ra } => unmap(tables, slot_index, mem, rd, ra),
        _ => unreachable!(),
    }
}

//! The instructions that need memory.

ghost use Rattle.std.specs.Prelude.{◌≡◌, ◌<◌, ◌^◌, ◌&&◌, true, false, None, Some, IfOk, length};
ghost use Rattle.mm_word.specs.Access.{check_result};
ghost use Rattle.mm_model.specs.Slot.{register};
ghost use Rattle.mm_model.specs.Operands.{lacks};
ghost use Rattle.mm_model.specs.Ask.{load_kind};
ghost use Rattle.mm_model.specs.Turn.{is_running};
ghost use Rattle.mm_thread.specs.SlotIndices.{slot_in};
ghost use Rattle.mm_thread.specs.Execution.{CanTurn, Executes, core_loaded, completion_loaded, core_stored};
ghost use Rattle.mm_thread.specs.Execution.{completion_stored, page_named};

use crate::completion::{Completion, Retired};
use crate::local_ops::{flag, is_privileged};
use crate::slot::word_of;
use crate::tables::Tables;
use mm_isa::{Instr, Reg};
use mm_mem::{Loaded, Memory, Stored};
use mm_model::Slot;
use mm_word::{Access, Cause, Kind, Post, Pre, Word, check};

/// How an instruction names a cell, and what it asks of the cell's synchronisation bit.
#[derive(Clone, Copy)]
pub(crate) struct MemoryOperand {
    /// The register that holds the pointer.
    pub(crate) base: Reg,
    /// The distance of the cell from the pointer's address in bytes.
    pub(crate) offset: i32,
    pub(crate) pre: Pre,
    pub(crate) post: Post,
}

/// `ld`: writes a cell's word to a register; in a split machine the word arrives later.
#[inline(always)]
pub(crate) fn load<M: Memory>(
    tables: &mut Tables,
    slot_index: usize,
    mem: &mut M,
    rd: Reg,
    at: MemoryOperand,
) -> Retired
    requires can { CanTurn tables.old slot_index }
    requires free { (tables.old.split
        && lacks (Instr.Ld rd at.base at.pre at.post at.offset) (slot_in tables.old slot_index)) ≡ false }
    requires room { M.uses mem.old < 2 ^ 62 }
    ensures { Executes M.meaning M.uses M.stands tables.old (slot_in tables.old slot_index)
        (Instr.Ld rd at.base at.pre at.post at.offset) mem.old mem.new tables.new result }
{
    match reach(
        tables.slot(slot_index),
        at.base,
        at.offset,
        load_kind(at.post),
    ) {
        Err(cause) => untouched(Completion::Faulted(cause)),
        Ok(access) => {
            let loaded = mem.load(&access, at.pre, at.post);
            let completion = receive(tables, slot_index, rd, loaded);
            touching(completion, access)
        }
    }
}

/// `st`: writes a register's word to a cell.
#[inline(always)]
pub(crate) fn store<M: Memory>(
    tables: &mut Tables,
    slot_index: usize,
    mem: &mut M,
    rb: Reg,
    at: MemoryOperand,
) -> Retired
    requires can { CanTurn tables.old slot_index }
    requires room { M.uses mem.old < 2 ^ 62 }
    ensures { Executes M.meaning M.uses M.stands tables.old (slot_in tables.old slot_index)
        (Instr.St at.base rb at.pre at.post at.offset) mem.old mem.new tables.new result }
{
    match reach(tables.slot(slot_index), at.base, at.offset, Kind::Store) {
        Err(cause) => untouched(Completion::Faulted(cause)),
        Ok(access) => {
            let word = word_of(tables.slot(slot_index), rb);
            let stored = mem.store(&access, word, at.pre, at.post);
            let completion = finish_store(tables, slot_index, stored);
            touching(completion, access)
        }
    }
}

/// `map`: maps a page, and writes to a register whether that was done.
pub(crate) fn map<M: Memory>(
    tables: &mut Tables,
    slot_index: usize,
    mem: &mut M,
    rd: Reg,
    ra: Reg,
) -> Retired
    requires can { CanTurn tables.old slot_index }
    ensures { Executes M.meaning M.uses M.stands tables.old (slot_in tables.old slot_index) (Instr.Map rd ra) mem.old mem.new
        tables.new result }
{
    match page_named(tables.slot(slot_index), ra) {
        Err(cause) => untouched(Completion::Faulted(cause)),
        Ok(page) => {
            let mapped = mem.map(page);
            tables.sets(slot_index, rd, Word::Int(flag(mapped)));
            untouched(Completion::Did(None))
        }
    }
}

/// `unmap`: removes a page, and writes to a register whether that was done.
pub(crate) fn unmap<M: Memory>(
    tables: &mut Tables,
    slot_index: usize,
    mem: &mut M,
    rd: Reg,
    ra: Reg,
) -> Retired
    requires can { CanTurn tables.old slot_index }
    ensures { Executes M.meaning M.uses M.stands tables.old (slot_in tables.old slot_index) (Instr.Unmap rd ra) mem.old
        mem.new tables.new result }
{
    match page_named(tables.slot(slot_index), ra) {
        Err(cause) => untouched(Completion::Faulted(cause)),
        Ok(page) => {
            let removed = mem.unmap(page);
            tables.sets(slot_index, rd, Word::Int(flag(removed)));
            untouched(Completion::Did(None))
        }
    }
}

/// The outcome of an instruction that reached no cell.
#[inline(always)]
pub(crate) fn untouched(completion: Completion) -> Retired
    ensures { result ≡ record { completion = completion; touched = None } }
{
    Retired {
        completion,
        touched: None,
    }
}

/// The outcome of an instruction with its access to a cell.
#[inline(always)]
fn touching(completion: Completion, access: Access) -> Retired
    ensures { result ≡ record { completion = completion; touched = Some access } }
{
    Retired {
        completion,
        touched: Some(access),
    }
}

/// The kind of a load's access. A load that sets the bit has a kind of its own.
#[inline(always)]
pub(crate) fn load_kind(post: Post) -> Kind
    ensures { result ≡ load_kind post }
{
    match post {
        Post::Keep => Kind::Load,
        Post::Full | Post::Empty => Kind::LoadSet,
    }
}

/// The access through a register's word, or the fault of the access.
#[inline(always)]
pub(crate) fn reach(slot: &Slot, ra: Reg, imm: i32, kind: Kind) -> Result<Access, Cause>
    ensures value { result ≡ check_result (register slot.now ra) imm kind }
    ensures kind { IfOk result (λ a. a.kind ≡ kind) }
{
    check(word_of(slot, ra), i64::from(imm), kind)
}

/// Writes the word of a load to a register, if the load was done.
#[inline(always)]
fn receive(tables: &mut Tables, slot_index: usize, rd: Reg, loaded: Loaded) -> Completion
    requires slot_index { slot_index < length tables.old.rows }
    requires runs { is_running (slot_in tables.old slot_index).state ≡ true }
    requires turns { (slot_in tables.old slot_index).turns < 2 ^ 62 }
    requires room { tables.old.split ≡ true → length (slot_in tables.old slot_index).pending < 16 }
    ensures core { tables.new ≡ core_loaded tables.old slot_index rd loaded }
    ensures completion { result ≡ completion_loaded loaded }
{
    match loaded {
        Loaded::Value(word) => {
            if tables.split() {
                tables.issue(slot_index, rd, word);
            } else {
                tables.sets(slot_index, rd, word);
            }
            Completion::Did(None)
        }
        Loaded::NoPage => Completion::Faulted(Cause::NoPage),
        Loaded::NotReady => Completion::Faulted(Cause::Sync),
    }
}

/// Goes on to the next instruction if the store was done, and else fails as the store did.
#[inline(always)]
fn finish_store(tables: &mut Tables, slot_index: usize, stored: Stored) -> Completion
    requires slot_index { slot_index < length tables.old.rows }
    requires runs { is_running (slot_in tables.old slot_index).state ≡ true }
    requires turns { (slot_in tables.old slot_index).turns < 2 ^ 62 }
    ensures core { tables.new ≡ core_stored tables.old slot_index stored }
    ensures completion { result ≡ completion_stored stored }
{
    match stored {
        Stored::Done => {
            tables.advance(slot_index);
            Completion::Did(None)
        }
        Stored::NoPage => Completion::Faulted(Cause::NoPage),
        Stored::NotReady => Completion::Faulted(Cause::Sync),
    }
}

/// The page that a register names, if the code is privileged and the page's number is in range.
pub(crate) fn page_named(slot: &Slot, ra: Reg) -> Result<u64, Cause>
    ensures value { result ≡ page_named slot.now ra }
    ensures small { IfOk result (λ page. page < 2 ^ 42) }
{
    if !is_privileged(slot) {
        return Err(Cause::Priv);
    }
    let page = word_of(slot, ra).bits();
    if page < (1 << 42) {
        Ok(page)
    } else {
        Err(Cause::Bounds)
    }
}

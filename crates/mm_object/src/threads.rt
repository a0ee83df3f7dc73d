//! Whether threads are those of an object.

ghost use Rattle.std.specs.Prelude.{◌≡◌, ◌↔◌, ◌<◌, ◌^◌, IsTrue, map};
ghost use Rattle.std.specs.List.{list_all, AllByRecursion};
ghost use Rattle.std.specs.List.Sorted.{IsStrictlyIncreasing};
ghost use Rattle.mm_object.specs.declared.thread.Thread.{Thread};
ghost use Rattle.mm_object.specs.Objects.{IsNumber, is_handler, is_thread, is_value};
ghost use Rattle.mm_object.specs.Fits.{AreWhole, ThreadsFit};

use crate::limits::{SLOT_LIMIT, THREAD_LIMIT};
use crate::relocs::is_target;
use crate::segment::Segment;
use crate::thread::{Thread, Value};
use mm_word::Kind;

/// Whether threads are those of an object of these segments and this count of externals.
pub(crate) fn threads_fit(segments: &[Segment], externals: usize, threads: &[Thread]) -> bool
    requires { externals < 2 ^ 32 }
    ensures { IsTrue result ↔ ThreadsFit segments.now externals threads.now }
{
    threads.len() <= THREAD_LIMIT
        && are_threads(segments, externals, threads)
        && slots_ascend(threads)
}

/// Whether each thread alone is one of an object of these segments and this count of externals.
fn are_threads(segments: &[Segment], externals: usize, threads: &[Thread]) -> bool
    requires { externals < 2 ^ 32 }
    ensures { result ≡ list_all (is_thread segments.now externals) threads.now }
{
    for thread in threads {
        if !is_thread(segments, externals, thread) {
            return false;
        }
    }
    true
}

/// Whether a thread is one of an object of these segments and this count of externals.
pub(crate) fn is_thread(segments: &[Segment], externals: usize, thread: &Thread) -> bool
    requires { externals < 2 ^ 32 }
    ensures { result ≡ is_thread segments.now externals thread.now }
{
    thread.slot < SLOT_LIMIT
        && thread.group < SLOT_LIMIT
        && is_handler(thread.slot, thread.handler)
        && thread.perm.permits(Kind::Fetch)
        && is_target(segments, externals, thread.target)
        && are_values(segments, externals, &thread.regs)
}

/// Whether a slot may have the handler: none, or another slot whose number is in range.
fn is_handler(slot: u8, handler: Option<u8>) -> bool
    ensures { result ≡ is_handler slot handler }
{
    match handler {
        None => true,
        Some(handler) => handler < SLOT_LIMIT && handler != slot,
    }
}

/// Whether each register that becomes a pointer has a target in the object.
fn are_values(segments: &[Segment], externals: usize, values: &[Value]) -> bool
    requires { externals < 2 ^ 32 }
    ensures { result ≡ list_all (is_value segments.now externals) values.now }
{
    for value in values {
        if !is_value(segments, externals, *value) {
            return false;
        }
    }
    true
}

/// Whether a register is an integer, or becomes a pointer to a target in the object.
fn is_value(segments: &[Segment], externals: usize, value: Value) -> bool
    requires { externals < 2 ^ 32 }
    ensures { result ≡ is_value segments.now externals value }
{
    match value {
        Value::Int(_) => true,
        Value::Ptr { target, .. } => is_target(segments, externals, target),
    }
}

/// Whether each thread's slot is above that of the one before.
fn slots_ascend(threads: &[Thread]) -> bool
    ensures { IsTrue result ↔ IsStrictlyIncreasing (map (λ (t : Thread). t.slot) threads.now) }
{
    for k in 1..threads.len() {
        if threads[k].slot <= threads[k - 1].slot {
            return false;
        }
    }
    true
}

/// Gives the invariant of each thread's registers to a proof. Nothing is done.
pub(crate) fn hold_values(threads: &[Thread])
    ensures { AreWhole threads.now }
{
    for thread in threads {
        hold_numbers(&thread.regs);
    }
}

/// Gives the range of each integer among the values to a proof. Nothing is done.
fn hold_numbers(values: &[Value])
    ensures { AllByRecursion IsNumber values.now }
{
    for value in values {
        number(*value);
    }
}

/// The number of an integer, and 0 for a pointer.
fn number(value: Value) -> u64
    ensures { IsNumber value }
{
    match value {
        Value::Int(n) => n,
        Value::Ptr { .. } => 0,
    }
}

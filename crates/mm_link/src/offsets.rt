//! Tests of offsets: each target is within its segment.

ghost use Rattle.std.specs.Prelude.{◌≡◌, ◌∷◌, [], true, length};
ghost use Rattle.std.specs.List.{flat_map, list_all};
ghost use Rattle.mm_object.specs.Objects.{is_value, is_thread, value_targets, targets_of};
ghost use Rattle.mm_link.specs.Faults.{is_outside, outsides};
ghost use Rattle.mm_link.specs.Steps.{Passes, IsTargetOf, outside, thread_targets, reloc_targets};

use crate::fault::{LinkError, LinkFault};
use crate::sites::Sites;
use mm_object::{Object, Target, Thread, Value};

/// Refuses the first target of objects that is outside its segment.
pub(crate) fn check_offsets(sites: &Sites<'_>, objects: &[Object]) -> Result<(), LinkError>
    ensures { Passes (outsides sites.now objects.now) result }
{
    for object in objects {
        check_object(sites, object)?;
    }
    Ok(())
}

/// Tests that the targets of an object's relocations and threads are within their segments.
fn check_object(sites: &Sites<'_>, object: &Object) -> Result<(), LinkError>
    ensures { Passes (outside sites.now object.now (targets_of object.now.relocs object.now.threads)) result }
{
    check_relocs(sites, object)?;
    check_threads(sites, object)
}

/// Tests that the targets of an object's relocations are within their segments.
fn check_relocs(sites: &Sites<'_>, object: &Object) -> Result<(), LinkError>
    ensures { Passes (outside sites.now object.now (reloc_targets object.now.relocs)) result }
{
    for reloc in object.relocs() {
        check_target(sites, object, reloc.target)?;
    }
    Ok(())
}

/// Tests that the targets of an object's threads and of their registers are within their segments.
fn check_threads(sites: &Sites<'_>, object: &Object) -> Result<(), LinkError>
    ensures { Passes (outside sites.now object.now (flat_map thread_targets object.now.threads)) result }
{
    for thread in object.threads() {
        check_thread(sites, object, thread)?;
    }
    Ok(())
}

/// Tests where a thread begins, and what its registers point to.
fn check_thread(sites: &Sites<'_>, object: &Object, thread: &Thread) -> Result<(), LinkError>
    requires { is_thread object.now.segments (length object.now.externals) thread.now ≡ true }
    ensures { Passes (outside sites.now object.now (thread_targets thread.now)) result }
{
    check_target(sites, object, thread.target)?;
    check_values(sites, object, &thread.regs)
}

/// Tests that the targets of registers are within their segments.
fn check_values(sites: &Sites<'_>, object: &Object, values: &[Value]) -> Result<(), LinkError>
    requires { list_all (is_value object.now.segments (length object.now.externals)) values.now ≡ true }
    ensures { Passes (outside sites.now object.now (flat_map value_targets values.now)) result }
{
    for value in values {
        check_value(sites, object, *value)?;
    }
    Ok(())
}

/// Tests that the target of a register is within its segment. An integer passes.
fn check_value(sites: &Sites<'_>, object: &Object, value: Value) -> Result<(), LinkError>
    requires { is_value object.now.segments (length object.now.externals) value ≡ true }
    ensures { Passes (outside sites.now object.now (value_targets value)) result }
{
    match value {
        Value::Int(_) => Ok(()),
        Value::Ptr { target, .. } => check_target(sites, object, target),
    }
}

/// Tests that a target is within its segment. Targets in segments of the object itself always are.
fn check_target(sites: &Sites<'_>, object: &Object, target: Target) -> Result<(), LinkError>
    requires { IsTargetOf object.now target }
    ensures { Passes (outside sites.now object.now (target ∷ [])) result }
{
    if is_outside(sites, object, target) {
        let name = object.target_name(target).copy();
        return Err(LinkError::Fault(LinkFault::Offset(name)));
    }
    Ok(())
}

/// Whether a target is in a segment of another object, at or past the segment's end.
fn is_outside(sites: &Sites<'_>, object: &Object, target: Target) -> bool
    requires { IsTargetOf object.now target }
    ensures { result ≡ is_outside sites.now object.now target }
{
    if usize::from(target.index) < object.segments().len() {
        return false;
    }
    let place = sites.named(object.target_name(target).bytes());
    1 << place.log <= target.addend
}

//! Tests of names: segments have different names, and each name that an object needs is a segment's.

ghost use Rattle.std.specs.Prelude.{[]};
ghost use Rattle.std.specs.Option.{option_map};
ghost use Rattle.mm_link.specs.declared.fault.LinkFault.TheVariants.{Twice};
ghost use Rattle.mm_link.specs.Faults.{first_again, unknown_names, unknown_among};
ghost use Rattle.mm_link.specs.Steps.{Passes, part_names};

use crate::fault::{LinkError, LinkFault};
use crate::placing::Part;
use crate::sites::Sites;
use indexmap::IndexSet;
use mm_object::{Name, Object};
use std::alloc::Global;

/// Refuses two segments of the same name.
pub(crate) fn check_apart(alloc: Global, parts: &[Part<'_>]) -> Result<(), LinkError>
    ensures { Passes (option_map Twice (first_again [] (part_names parts.now))) result }
{
    let mut names = IndexSet::with_capacity(alloc, parts.len())?;
    for part in parts {
        if !names.insert(part.name())? {
            return Err(LinkError::Fault(LinkFault::Twice(part.copied_name())));
        }
    }
    Ok(())
}

/// Refuses a name that an object needs and no segment has.
pub(crate) fn check_known(sites: &Sites<'_>, objects: &[Object]) -> Result<(), LinkError>
    ensures { Passes (unknown_names sites.now objects.now) result }
{
    for object in objects {
        check_known_names(sites, object.externals())?;
    }
    Ok(())
}

/// Refuses the first of the names that no segment has.
fn check_known_names(sites: &Sites<'_>, names: &[Name]) -> Result<(), LinkError>
    ensures { Passes (unknown_among sites.now names.now) result }
{
    for name in names {
        if sites.get(name.bytes()).is_none() {
            return Err(LinkError::Fault(LinkFault::Undefined(name.copy())));
        }
    }
    Ok(())
}

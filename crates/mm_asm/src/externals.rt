//! The names that a draft uses and does not define.

ghost use Rattle.std.specs.Prelude.{◌≡◌, true, [], IfOk, OnOk, IsOkUnless};
ghost use Rattle.std.specs.List.{list_all};
ghost use Rattle.mm_object.specs.Names.{is_name};
ghost use Rattle.mm_asm.specs.Answers.{Meets};
ghost use Rattle.mm_asm.specs.Faults.{is_too_many, limit_failures};
ghost use Rattle.mm_asm.specs.Steps.{limit_failure};
ghost use Rattle.mm_asm.specs.Names.{HasEach, seen_with, externals_with};
ghost use Rattle.mm_object.specs.Steps.{key_names};

use crate::AsmError;
use crate::diagnostics::meet_if;
use crate::text_order::Use;
use indexmap::IndexSet;
use mm_draft::{Draft, Failure};
use mm_line::{Fault, Problem};
use mm_object::{EXTERNAL_LIMIT, Name};
use std::alloc::Global;

/// The names that some targets have and the draft does not define, in the order of their bytes. One name too many is a
/// fault.
pub(crate) fn externals<'a>(
    alloc: Global,
    first: &mut Option<Failure>,
    draft: &Draft<'a>,
    uses: &[Use<'_, 'a>],
) -> Result<IndexSet<&'a [u8]>, AsmError>
    ensures names { IfOk result (λ s. key_names s.keys ≡ externals_with draft.now [] uses.now) }
    ensures faults { OnOk result (Meets first.old first.new (limit_failures draft.now [] uses.now)) }
    ensures memory { IsOkUnless result AsmError.NoMemory }
{
    let mut names = first_seen(alloc, first, draft, uses)?;
    names.sort()?;
    Ok(names)
}

/// The names that some targets have and the draft does not define, in the order in which they are first seen.
fn first_seen<'a>(
    alloc: Global,
    first: &mut Option<Failure>,
    draft: &Draft<'a>,
    uses: &[Use<'_, 'a>],
) -> Result<IndexSet<&'a [u8]>, AsmError>
    ensures names { IfOk result (λ s. HasEach (externals_with draft.now [] uses.now) (key_names s.keys)) }
    ensures faults { OnOk result (Meets first.old first.new (limit_failures draft.now [] uses.now)) }
    ensures memory { IsOkUnless result AsmError.NoMemory }
{
    let mut names = IndexSet::new(alloc);
    for u in uses {
        add_use(&mut names, first, draft, u)?;
    }
    Ok(names)
}

/// Adds the name of a target, if the draft does not define it.
fn add_use<'a>(
    names: &mut IndexSet<&'a [u8]>,
    first: &mut Option<Failure>,
    draft: &Draft<'a>,
    u: &Use<'_, 'a>,
) -> Result<(), AsmError>
    ensures names { OnOk result (key_names names.new.keys ≡ seen_with draft.now u.now (key_names names.old.keys)) }
    ensures faults { OnOk result
        (Meets first.old first.new (limit_failure draft.now (key_names names.old.keys) u.now)) }
    ensures memory { IsOkUnless result AsmError.NoMemory }
{
    let target = u.target;
    let name = target.mark.name.bytes();
    if draft.place_of(name).is_some() {
        return Ok(());
    }
    let problem = Problem {
        fault: Fault::Limit,
        left: target.mark.left,
    };
    meet_if(first, is_too_many(names, name), u.source, problem);
    names.insert(name)?;
    Ok(())
}

/// Whether a name is none of these names, and they are as many as an object may have.
fn is_too_many(names: &IndexSet<&[u8]>, name: &[u8]) -> bool
    ensures { result ≡ is_too_many (key_names names.now.keys) name.now }
{
    names.len() >= EXTERNAL_LIMIT && !names.contains(name)
}

/// The names that an object has, made of names of a text.
pub(crate) fn names_of(alloc: Global, names: &IndexSet<&[u8]>) -> Result<Vec<Name>, AsmError>
    requires { list_all is_name (key_names names.now.keys) ≡ true }
    ensures names { IfOk result (λ v. v.items ≡ key_names names.now.keys) }
    ensures memory { IsOkUnless result AsmError.NoMemory }
{
    let mut made = Vec::new(alloc);
    for name in names {
        made.push(Name::of(name))?;
    }
    Ok(made)
}

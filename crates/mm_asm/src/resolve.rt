//! The targets and registers of an object.

ghost use Rattle.std.specs.Prelude.{◌≡◌, ◌+◌, ◌*◌, ◌^◌, ◌<◌, true};
ghost use Rattle.mm_asm.specs.Fits.{FitsTarget, FitsConstant};
ghost use Rattle.mm_asm.specs.Names.{position_of, externals_of};
ghost use Rattle.mm_asm.specs.Meaning.{target_of, value_of};
ghost use Rattle.std.specs.Ordering.{nat_cmp};
ghost use Rattle.std.specs.Cmp.Lexicographic.{slice_cmp};
ghost use Rattle.mm_object.specs.Objects.{ascend, is_among};

use mm_draft::{Draft, Location};
use mm_line::{Constant, Target as Named};
use mm_object::{Name, Target, Value};
use std::cmp::Ordering;

/// The order of a name and other bytes.
fn compare(name: &Name, bytes: &[u8]) -> Ordering
    ensures { result ≡ slice_cmp nat_cmp name.now bytes.now }
{
    name.bytes().cmp(&bytes)
}

/// The index of a name among names that ascend.
fn position_of(names: &[Name], name: &[u8]) -> usize
    requires up { ascend names.now ≡ true }
    requires among { is_among name.now names.now ≡ true }
    ensures { result ≡ position_of name.now names.now }
{
    match names.binary_search_by(|other| compare(other, name)) {
        Ok(position) => position,
        Err(_) => unreachable!(),
    }
}

/// The target that is `addend` bytes after a place of the draft.
fn here(location: Location, addend: u32) -> Target
    requires segment { location.segment < 2 ^ 16 }
    requires offset { 8 * location.word + addend < 2 ^ 32 }
    ensures { result ≡ record { index = location.segment; addend = 8 * location.word + addend } }
{
    Target {
        index: location.segment as u16,
        addend: (8 * location.word + addend as usize) as u32,
    }
}

/// The target that is `addend` bytes after an external, in an object with `segments` segments.
fn elsewhere(segments: usize, external: usize, addend: u32) -> Target
    requires { segments + external < 2 ^ 16 }
    ensures { result ≡ record { index = segments + external; addend = addend } }
{
    Target {
        index: (segments + external) as u16,
        addend,
    }
}

/// The object's target for a target of the draft, among the externals of the draft.
pub(crate) fn target_of(draft: &Draft<'_>, externals: &[Name], target: &Named<'_>) -> Target
    requires names { externals.now ≡ externals_of draft.now }
    requires fits { FitsTarget draft.now target.now }
    ensures { result ≡ target_of draft.now target.now }
{
    let name = target.mark.name.bytes();
    match draft.place_of(name) {
        Some(location) => here(location, target.addend),
        None => {
            let external = position_of(externals, name);
            elsewhere(draft.segments().len(), external, target.addend)
        }
    }
}

/// The value that a register begins with.
pub(crate) fn value_of(draft: &Draft<'_>, externals: &[Name], constant: &Constant<'_>) -> Value
    requires names { externals.now ≡ externals_of draft.now }
    requires fits { FitsConstant draft.now constant.now }
    ensures { result ≡ value_of draft.now constant.now }
{
    match constant {
        Constant::Integer(number) => Value::Int(*number),
        Constant::Pointer { perm, target } => Value::Ptr {
            perm: *perm,
            target: target_of(draft, externals, target),
        },
    }
}

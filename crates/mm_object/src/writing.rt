//! The writer of object files.

ghost use Rattle.std.specs.Prelude.{◌≡◌, ◌+◌, ◌/◌, ◌^◌, ◌<◌, ◌≤◌, [], ◌∷◌, ◌++◌, length, map, OnOk, IfOk};
ghost use Rattle.std.specs.Int.{w32, to_be_bytes};
ghost use Rattle.std.specs.List.{flat_map, AllByRecursion};
ghost use Rattle.mm_word.specs.Perm.{code_of};
ghost use Rattle.mm_model.specs.Flags.{number_of_flags};
ghost use Rattle.mm_model.specs.Spelling.{bitmap, handler_byte};
ghost use Rattle.mm_object.specs.declared.item.Item.{Item as ItemValue};
ghost use Rattle.mm_object.specs.Objects.{IsSegment};
ghost use Rattle.mm_format.specs.Formats.{each};
ghost use Rattle.mm_object.specs.Format.{header_row, header_in, is_tagged, item_row, target_row, value_row};
ghost use Rattle.mm_object.specs.Format.{name_record, reloc_record, segment_record, thread_record, spelling, Spells};

use crate::item::Item;
use crate::name::Name;
use crate::object::Object;
use crate::segment::Segment;
use crate::target::{Reloc, Target};
use crate::thread::{Thread, Value};
use mm_word::NoMemory;
use std::alloc::{AllocError, Global};

/// The byte of a thread that has no handler.
pub(crate) const NO_HANDLER: u8 = 255;

/// The bytes of an object's file. They spell the object, so that [`crate::read`] gives it again.
pub fn write(alloc: Global, o: &Object) -> Result<Vec<u8>, NoMemory>
    ensures written { IfOk result (λ bytes. bytes.items ≡ spelling o.now) }
    ensures spelled { IfOk result (λ bytes. Spells bytes.items o.now) }
{
    let mut out = Vec::new(alloc);
    put_header(&mut out, o)?;
    put_segments(&mut out, o.segments())?;
    put_names(&mut out, o.externals())?;
    put_relocs(&mut out, o.relocs())?;
    put_threads(&mut out, o.threads())?;
    Ok(out)
}

/// Appends the header: the file's mark, its version, the counts of its records, and the spare frames.
fn put_header(out: &mut Vec<u8>, o: &Object) -> Result<(), AllocError>
    ensures { OnOk result (out.new.items ≡ out.old.items ++ header_row.spell (header_in o.now)) }
{
    out.extend_from_slice(b"MMO1")?;
    out.extend_from_slice(&1_u16.to_be_bytes())?;
    out.extend_from_slice(&(o.segments().len() as u16).to_be_bytes())?;
    out.extend_from_slice(&(o.externals().len() as u16).to_be_bytes())?;
    out.extend_from_slice(&(o.relocs().len() as u16).to_be_bytes())?;
    out.extend_from_slice(&(o.threads().len() as u16).to_be_bytes())?;
    out.extend_from_slice(&o.spare().to_be_bytes())?;
    Ok(())
}

/// Appends the records of segments.
fn put_segments(out: &mut Vec<u8>, segments: &[Segment]) -> Result<(), AllocError>
    requires { AllByRecursion IsSegment segments.now }
    ensures { OnOk result (out.new.items ≡ out.old.items ++ flat_map segment_record segments.now) }
{
    for segment in segments {
        put_segment(out, segment)?;
    }
    Ok(())
}

/// Appends the records of externals.
fn put_names(out: &mut Vec<u8>, names: &[Name]) -> Result<(), AllocError>
    ensures { OnOk result (out.new.items ≡ out.old.items ++ flat_map name_record names.now) }
{
    for name in names {
        put_name(out, name)?;
    }
    Ok(())
}

/// Appends the records of relocations.
fn put_relocs(out: &mut Vec<u8>, relocs: &[Reloc]) -> Result<(), AllocError>
    ensures { OnOk result (out.new.items ≡ out.old.items ++ flat_map reloc_record relocs.now) }
{
    for reloc in relocs {
        put_reloc(out, *reloc)?;
    }
    Ok(())
}

/// Appends the records of threads.
fn put_threads(out: &mut Vec<u8>, threads: &[Thread]) -> Result<(), AllocError>
    ensures { OnOk result (out.new.items ≡ out.old.items ++ flat_map thread_record threads.now) }
{
    for thread in threads {
        put_thread(out, thread)?;
    }
    Ok(())
}

/// Appends a name after one byte with its length.
fn put_name(out: &mut Vec<u8>, name: &Name) -> Result<(), AllocError>
    ensures { OnOk result (out.new.items ≡ out.old.items ++ name_record name.now) }
{
    let bytes = name.bytes();
    out.push(bytes.len() as u8)?;
    out.extend_from_slice(bytes)?;
    Ok(())
}

/// Appends a segment: its name, the logarithm of its length, the count of its words, their full bits, and the words.
#[tactic(auto, unfolding(crate::specs::Format::segment_row))]
fn put_segment(out: &mut Vec<u8>, segment: &Segment) -> Result<(), AllocError>
    requires { IsSegment segment.now }
    ensures { OnOk result (out.new.items ≡ out.old.items ++ segment_record segment.now) }
{
    put_name(out, &segment.name)?;
    out.push(segment.log)?;
    put_count(out, &segment.items)?;
    put_full_bits(out, &segment.items)?;
    put_words(out, &segment.items)?;
    Ok(())
}

/// Appends the count of words in four bytes.
fn put_count(out: &mut Vec<u8>, items: &[Item]) -> Result<(), AllocError>
    requires { length items.now < 2 ^ 32 }
    ensures { OnOk result (out.new.items ≡ out.old.items ++ to_be_bytes w32 (length items.now)) }
{
    out.extend_from_slice(&(items.len() as u32).to_be_bytes())?;
    Ok(())
}

/// Appends the bitmap that says which words are full, a byte for every eight words.
fn put_full_bits(out: &mut Vec<u8>, items: &[Item]) -> Result<(), AllocError>
    requires { length items.now < 2 ^ 32 }
    ensures { OnOk result
        (out.new.items ≡ out.old.items ++ bitmap ((length items.now + 7) / 8)
        (map (λ (i : ItemValue). i.full) items.now)) }
{
    for k in 0..(items.len() + 7) / 8 {
        let end = (8 * k + 8).min(items.len());
        out.push(full_bits(&items[8 * k..end]) as u8)?;
    }
    Ok(())
}

/// Appends the bits of each word in eight bytes.
fn put_words(out: &mut Vec<u8>, items: &[Item]) -> Result<(), AllocError>
    ensures { OnOk result
        (out.new.items ≡ out.old.items ++ (each item_row (map (λ (i : ItemValue). i.full) items.now)).spell items.now) }
{
    for item in items {
        out.extend_from_slice(&item.bits.to_be_bytes())?;
    }
    Ok(())
}

/// Appends a relocation: the segment and the word that it replaces, the permission, and the target.
#[tactic(auto, unfolding(crate::specs::Format::good_reloc))]
fn put_reloc(out: &mut Vec<u8>, reloc: Reloc) -> Result<(), AllocError>
    ensures { OnOk result (out.new.items ≡ out.old.items ++ reloc_record reloc) }
{
    out.extend_from_slice(&reloc.segment.to_be_bytes())?;
    out.extend_from_slice(&reloc.word.to_be_bytes())?;
    out.push(reloc.perm.code())?;
    put_target(out, reloc.target)?;
    Ok(())
}

/// Appends a target: its index, and its offset in bytes.
fn put_target(out: &mut Vec<u8>, target: Target) -> Result<(), AllocError>
    ensures { OnOk result (out.new.items ≡ out.old.items ++ target_row.spell target) }
{
    out.extend_from_slice(&target.index.to_be_bytes())?;
    out.extend_from_slice(&target.addend.to_be_bytes())?;
    Ok(())
}

/// Appends a thread: what comes before its target, the target, the tags of its registers, and the registers.
#[tactic(auto, unfolding(crate::specs::Format::good_thread))]
fn put_thread(out: &mut Vec<u8>, thread: &Thread) -> Result<(), AllocError>
    ensures { OnOk result (out.new.items ≡ out.old.items ++ thread_record thread.now) }
{
    out.extend_from_slice(&thread_head(thread))?;
    put_target(out, thread.target)?;
    out.extend_from_slice(&tags_of(&thread.regs).to_be_bytes())?;
    put_values(out, &thread.regs)?;
    Ok(())
}

/// The bytes of a thread before its target.
fn thread_head(thread: &Thread) -> [u8; 4]
    ensures { result ≡ thread.now.slot ∷ thread.now.group ∷ handler_byte thread.now.handler
        ∷ code_of thread.now.perm ∷ [] }
{
    let handler = match thread.handler {
        Some(handler) => handler,
        None => NO_HANDLER,
    };
    [thread.slot, thread.group, handler, thread.perm.code()]
}

/// Appends the registers in eight bytes each.
fn put_values(out: &mut Vec<u8>, values: &[Value]) -> Result<(), AllocError>
    ensures { OnOk result (out.new.items ≡ out.old.items ++ (each value_row (map is_tagged values.now)).spell values.now) }
{
    for value in values {
        put_value(out, *value)?;
    }
    Ok(())
}

/// Appends a register in eight bytes: an integer, or permission and target of a pointer.
fn put_value(out: &mut Vec<u8>, value: Value) -> Result<(), AllocError>
    ensures { OnOk result (out.new.items ≡ out.old.items ++ (value_row (is_tagged value)).spell value) }
{
    match value {
        Value::Int(n) => out.extend_from_slice(&n.to_be_bytes())?,
        Value::Ptr { perm, target } => {
            out.extend_from_slice(&[perm.code(), 0])?;
            put_target(out, target)?;
        }
    }
    Ok(())
}

/// The bits of the values that become pointers, the first value lowest.
fn tags_of(values: &[Value]) -> u16
    requires { length values.now ≤ 16 }
    ensures value { result ≡ number_of_flags (map is_tagged values.now) }
    ensures below { result < 2 ^ length values.now }
{
    match values {
        [] => 0,
        [first, rest @ ..] => is_tagged(*first) as u16 + 2 * tags_of(rest),
    }
}

/// Whether a register becomes a pointer.
fn is_tagged(value: Value) -> bool
    ensures { result ≡ is_tagged value }
{
    matches!(value, Value::Ptr { .. })
}

/// The bits of the words that are full, the first word lowest.
fn full_bits(items: &[Item]) -> u16
    requires { length items.now ≤ 8 }
    ensures value { result ≡ number_of_flags (map (λ (i : ItemValue). i.full) items.now) }
    ensures below { result < 2 ^ length items.now }
{
    match items {
        [] => 0,
        [first, rest @ ..] => first.full as u16 + 2 * full_bits(rest),
    }
}

//! Words of a checkpoint's file.

ghost use Rattle.std.specs.Prelude.{◌≡◌, ◌==◌, ◌/◌, ◌%◌, ◌^◌, ◌<◌, IfOk, length};
ghost use Rattle.std.specs.List.{AllByRecursion};
ghost use Rattle.mm_word.specs.Word.{IsWord};
ghost use Rattle.mm_model.specs.Flags.{flags, one_if};
ghost use Rattle.mm_format.specs.Formats.{each};
ghost use Rattle.mm_format.specs.Images.{word, flags_of};
ghost use Rattle.mm_format.specs.Reading.{ReadsAlone};
ghost use Rattle.mm_image.specs.Faults.{number_of};
ghost use Rattle.mm_checkpoint.specs.Format.{beside, operand, register, tagged};

use mm_format::{Elements, ReadError, Reader, failed, is_set, read_array, refuse_if};
use mm_image::{ImageFault, read_word, word_of};
use mm_word::Word;

/// The masks of pointers and of empty registers.
#[derive(Drop)]
struct Masks {
    tags: u16,
    empty: u16,
}

impl Elements<ImageFault> for Masks {
    ghost use Rattle.std.specs.Prelude.{◌==◌, ◌/◌, ◌%◌, ◌^◌};
    ghost use Rattle.mm_word.specs.Word.{IsWord};
    ghost use Rattle.mm_checkpoint.specs.Format.{register};

    type Item = Word;

    ghost reads = { λ m index. (register (m.tags / 2 ^ index % 2 == 1, m.empty / 2 ^ index % 2 == 1)).read };

    ghost holds = { IsWord };

    fn item(&self, reader: &mut Reader, index: usize) -> Result<Word, ReadError<ImageFault>> {
        read_register(reader, is_set(self.tags, index), is_set(self.empty, index))
    }
}

/// Reads sixteen registers, given the masks of pointers and of empty registers.
pub(crate) fn read_registers(
    reader: &mut Reader,
    tags: u16,
    empty: u16,
) -> Result<[Word; 16], ReadError<ImageFault>>
    ensures read { ReadsAlone number_of (λ regs. regs)
        (each register (beside (flags_of tags) (flags 16 empty))).read reader.old reader.new result }
    ensures count { IfOk result (λ regs. length regs ≡ 16) }
    ensures words { IfOk result (λ regs. AllByRecursion IsWord regs) }
{
    read_array(reader, &Masks { tags, empty }, Word::Int(0))
}

/// Reads a register, which holds integer 0 if it is empty.
#[tactic(auto, unfolding(crate::specs::Format::word_with))]
fn read_register(
    reader: &mut Reader,
    tagged: bool,
    empty: bool,
) -> Result<Word, ReadError<ImageFault>>
    ensures read { ReadsAlone number_of (λ w. w) (register (tagged, empty)).read reader.old reader.new result }
    ensures holds { IfOk result IsWord }
{
    let at = reader.at;
    let bits = reader.u64()?;
    let Some(word) = word_of(tagged, bits) else {
        return Err(failed(ImageFault::Pointer, at));
    };
    refuse_if(empty && (tagged || bits != 0), ImageFault::Pointer, at)?;
    Ok(word)
}

/// Reads a word after its tag, which is 0 or 1.
#[tactic(auto, unfolding(crate::specs::Format::tagged))]
pub(crate) fn read_tagged(reader: &mut Reader) -> Result<Word, ReadError<ImageFault>>
    ensures read { ReadsAlone number_of (λ w. w) (tagged 1 word).read reader.old reader.new result }
    ensures holds { IfOk result IsWord }
{
    let at = reader.at;
    let tag = reader.u8()?;
    refuse_if(tag > 1, ImageFault::Count, at)?;
    let word = read_word(reader, tag == 1)?;
    Ok(word)
}

/// The greatest tag of an operand.
fn tag_limit(waits: bool) -> u8
    ensures { result ≡ one_if waits }
{
    if waits { 1 } else { 0 }
}

/// Reads an operand of the event of a slot that waits; integer 0 if the slot does not wait.
#[tactic(auto, unfolding(crate::specs::Format::tagged, crate::specs::Format::word_with))]
pub(crate) fn read_operand(reader: &mut Reader, waits: bool) -> Result<Word, ReadError<ImageFault>>
    ensures read { ReadsAlone number_of (λ w. w) (operand waits).read reader.old reader.new result }
    ensures holds { IfOk result IsWord }
{
    let at = reader.at;
    let tag = reader.u8()?;
    refuse_if(tag > tag_limit(waits), ImageFault::Count, at)?;
    let at = reader.at;
    let bits = reader.u64()?;
    let Some(word) = word_of(tag == 1, bits) else {
        return Err(failed(ImageFault::Pointer, at));
    };
    refuse_if(!waits && bits != 0, ImageFault::Pointer, at)?;
    Ok(word)
}

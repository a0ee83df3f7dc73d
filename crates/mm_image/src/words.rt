//! Words of an image file.

ghost use Rattle.std.specs.Prelude.{◌≡◌, ◌==◌, ◌&&◌, not, ◌/◌, ◌%◌, ◌^◌, ◌<◌, true, IfOk, IfSome, length, Some, None};
ghost use Rattle.std.specs.Prelude.{if◌then◌else◌};
ghost use Rattle.std.specs.List.{AllByRecursion};
ghost use Rattle.mm_word.specs.Perm.{can_fetch};
ghost use Rattle.mm_word.specs.Pointer.{IsWellFormed, pointer_of, spells_pointer};
ghost use Rattle.mm_word.specs.Word.{IsWord};
ghost use Rattle.mm_word.specs.declared.word.Word.TheVariants.{Int, Ptr};
ghost use Rattle.mm_format.specs.Formats.{each};
ghost use Rattle.mm_format.specs.Images.{word, ip, flags_of};
ghost use Rattle.mm_format.specs.Reading.{ReadsAlone};
ghost use Rattle.mm_image.specs.Faults.{number_of};

use crate::fault::ImageFault;
use mm_format::{Elements, ReadError, Reader, failed, is_set, read_array};
use mm_word::{GuardedPtr, Kind, Word};

/// The word of these bits: a pointer if it is tagged. `None` if it is tagged and the bits spell no pointer.
pub fn word_of(tagged: bool, bits: u64) -> Option<Word>
    ensures word { result ≡ (if tagged && not (spells_pointer bits) then None else
        Some (if tagged then Ptr (pointer_of bits) else Int bits)) }
    ensures holds { IfSome result IsWord }
{
    if !tagged {
        return Some(Word::Int(bits));
    }
    match mm_word::setptr(bits) {
        Ok(pointer) => Some(Word::Ptr(pointer)),
        Err(_) => None,
    }
}

/// Reads a word: a pointer if it is tagged.
#[tactic(auto, unfolding(mm_format::specs::Images::word))]
pub fn read_word(reader: &mut Reader, tagged: bool) -> Result<Word, ReadError<ImageFault>>
    ensures read { ReadsAlone number_of (λ w. w) (word tagged).read reader.old reader.new result }
    ensures holds { IfOk result IsWord }
{
    let at = reader.at;
    let bits = reader.u64()?;
    match word_of(tagged, bits) {
        Some(word) => Ok(word),
        None => Err(failed(ImageFault::Pointer, at)),
    }
}

/// Reads an instruction pointer.
#[tactic(auto, unfolding(mm_format::specs::Images::ip))]
pub fn read_ip(reader: &mut Reader) -> Result<GuardedPtr, ReadError<ImageFault>>
    ensures read { ReadsAlone number_of (λ p. p) ip.read reader.old reader.new result }
    ensures executable { IfOk result (λ p. can_fetch p.perm ≡ true) }
    ensures well_formed { IfOk result IsWellFormed }
{
    let at = reader.at;
    let bits = reader.u64()?;
    match mm_word::setptr(bits) {
        Ok(ip) if ip.perm().permits(Kind::Fetch) => Ok(ip),
        _ => Err(failed(ImageFault::Ip, at)),
    }
}

/// The tags of sixteen registers.
#[derive(Drop)]
struct Tags {
    tags: u16,
}

impl Elements<ImageFault> for Tags {
    ghost use Rattle.std.specs.Prelude.{◌==◌, ◌/◌, ◌%◌, ◌^◌};
    ghost use Rattle.mm_word.specs.Word.{IsWord};
    ghost use Rattle.mm_format.specs.Images.{word};

    type Item = Word;

    ghost reads = { λ t index. (word (t.tags / 2 ^ index % 2 == 1)).read };

    ghost holds = { IsWord };

    fn item(&self, reader: &mut Reader, index: usize) -> Result<Word, ReadError<ImageFault>> {
        read_word(reader, is_set(self.tags, index))
    }
}

/// Reads sixteen registers with these tags.
#[tactic(auto, using(mm_format::proofs::Loops::flags_sixteen))]
pub(crate) fn read_registers(
    reader: &mut Reader,
    tags: u16,
) -> Result<[Word; 16], ReadError<ImageFault>>
    ensures read { ReadsAlone number_of (λ regs. regs)
        (each word (flags_of tags)).read reader.old reader.new result }
    ensures words { IfOk result (λ regs. AllByRecursion IsWord regs) }
    ensures count { IfOk result (λ regs. length regs ≡ 16) }
{
    read_array(reader, &Tags { tags }, Word::Int(0))
}

//! Words and bits of packed cells.

ghost use Rattle.std.specs.Prelude.{◌≡◌, ◌≢◌, ℕ, ◌<◌, true, length};
ghost use Rattle.std.specs.List.{AllByRecursion};
ghost use Rattle.mm_word.specs.declared.word.Cell.{Cell as CellValue};
ghost use Rattle.mm_word.specs.Pointer.{SpellsPointer};
ghost use Rattle.mm_word.specs.Word.{IsWord};
ghost use Rattle.mm_mem.specs.Packed.{word_of};
ghost use Rattle.mm_mem.specs.Unpacked.{words_of, tags_of, fulls_of};
ghost use Rattle.mm_model.specs.Flags.{in_mask};

use mm_word::{Cell, GuardedPtr, Word};

/// Whether the bit at a place of a byte is set; the lowest is at place 0.
pub(crate) fn is_set(byte: u8, index: usize) -> bool
    requires { index < 8 }
    ensures { result ≡ in_mask byte index }
{
    byte >> index & 1 == 1
}

/// The byte with this bit at a place, the lowest at place 0. The other bits stay.
pub(crate) fn with_bit(byte: u8, index: usize, bit: bool) -> u8
    requires { index < 8 }
    ensures own { in_mask result index ≡ bit }
    ensures others { (i : ℕ) → i < 8 → i ≢ index → in_mask result i ≡ in_mask byte i }
{
    if bit {
        byte | 1 << index
    } else {
        byte & !(1 << index)
    }
}

/// The word of these bits: a pointer if it is tagged.
pub(crate) fn word_of(bits: u64, tagged: bool) -> Word
    requires { tagged ≡ true → SpellsPointer bits }
    ensures { result ≡ word_of bits tagged }
{
    if tagged {
        Word::Ptr(GuardedPtr::of_bits(bits))
    } else {
        Word::Int(bits)
    }
}

/// Writes the 64 bits of each cell's word.
pub(crate) fn put_words(bits: &mut [u64], cells: &[Cell])
    requires { length bits.old ≡ length cells.now }
    ensures bits { bits.new ≡ words_of cells.now }
    ensures words { AllByRecursion (λ (c : CellValue). IsWord c.word) cells.now }
{
    for (i, cell) in cells.iter().enumerate() {
        bits[i] = cell.word.bits();
    }
}

/// The byte that says which of eight cells hold pointers.
pub(crate) fn tags_of(cells: &[Cell]) -> u8
    requires { length cells.now ≡ 8 }
    ensures { result ≡ tags_of cells.now }
{
    let mut byte = 0;
    for (i, cell) in cells.iter().enumerate() {
        byte |= (cell.word.is_pointer() as u8) << i;
    }
    byte
}

/// The byte that says which of eight cells are full.
pub(crate) fn fulls_of(cells: &[Cell]) -> u8
    requires { length cells.now ≡ 8 }
    ensures { result ≡ fulls_of cells.now }
{
    let mut byte = 0;
    for (i, cell) in cells.iter().enumerate() {
        byte |= (cell.full as u8) << i;
    }
    byte
}

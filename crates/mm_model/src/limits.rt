//! Limits that several crates keep.

ghost use Rattle.std.specs.Prelude.{◌≡◌, ◌≤◌};
ghost use Rattle.mm_model.specs.Image.{output_limit};

/// The most cycles of a command, of a session, of one of its lines and of a checkpoint; and the most items of a
/// schedule or of a net.
pub const CYCLE_LIMIT: u64 = 1_000_000;

/// The most segments of an object.
pub const SEGMENT_LIMIT: usize = 256;

/// The most words of all segments of an object together.
pub const WORD_LIMIT: usize = 131_072;

/// The most words of an object that are replaced by pointers when its segments are placed.
pub const RELOC_LIMIT: usize = 65_535;

/// The most configurations that are looked at.
pub const STATE_LIMIT: u64 = 100_000_000;

/// The most bytes that a group may put out, in any version.
pub const OUTPUT_LIMIT: usize = 65_536;

/// The most bytes that a group may put out, by the version of the image.
pub fn output_limit(version: u16) -> usize
    ensures limit { result ≡ output_limit version }
    ensures small { result ≤ 65536 }
{
    if version == 1 { 4096 } else { OUTPUT_LIMIT }
}

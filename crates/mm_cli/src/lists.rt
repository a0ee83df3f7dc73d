//! Lists of items as the command line writes them.

ghost use Rattle.std.specs.Prelude.{◌≡◌, ◌==◌, position};

/// The index of the first byte of a text that is `byte`, if there is one.
pub fn index_of(text: &[u8], byte: u8) -> Option<usize>
    ensures { result ≡ position (λ b. b == byte) text.now }
{
    text.iter().position(|b| *b == byte)
}

//! Pieces of a text: strings, and numbers with their forms.

/// A piece of a text.
///
/// Numbers in hexadecimal are written in lower case, with leading zeros and without a prefix: the
/// last digits of the number, as many as the variant says.
#[derive(Clone, Copy)]
pub enum Piece<'a> {
    /// A text as it is.
    Text(&'a str),
    /// A number in decimal digits, without leading zeros.
    Decimal(u64),
    /// A byte in 2 hexadecimal digits.
    HexByte(u8),
    /// A page number in 11 hexadecimal digits.
    HexPage(u64),
    /// A byte address in 14 hexadecimal digits.
    HexAddress(u64),
    /// A word in 16 hexadecimal digits.
    HexWord(u64),
}

//! A hasher of pairs of names, for which names that were given one after the other are beside one another: what is kept of them
//! is then found, and grows, in the order of memory.

ghost use Rattle.std.specs.Prelude.{ℕ, List, ◌+◌, ◌*◌, ◌^◌, ◌%◌, ◌/◌, bit_xor, bit_and};
ghost use Rattle.std.specs.List.{fold};

use std::hash::{BuildHasher, Hasher};

/// The names that were hashed so far: the last two, in one number.
#[derive(Clone, Copy)]
pub(crate) struct NameHasher {
    names: u64,
}

/// An odd number whose bits are mixed.
const MIXED: u64 = 0x9e37_79b9_7f4a_7c15;

impl Hasher for NameHasher {
    ghost write = { λ h bytes. record { names = fold (λ names byte. (names / 256 + byte * 2 ^ 56 % 2 ^ 64) % 2 ^ 64) h.names bytes } };

    ghost finish = { λ h. bit_xor ((h.names % 2 ^ 32 + h.names / 2 ^ 32 * 0x9e3779b97f4a7c15) % 2 ^ 64 % 2 ^ 32)
        (bit_and (h.names * 0x9e3779b97f4a7c15 % 2 ^ 64) 0xff00000000000000) };

    fn finish(&self) -> u64 {
        let first = self.names % (1 << 32);
        let last = self.names >> 32;
        let place = first.wrapping_add(last.wrapping_mul(MIXED)) % (1 << 32);
        place ^ (self.names.wrapping_mul(MIXED) & 0xff00_0000_0000_0000)
    }

    fn write(&mut self, bytes: &[u8]) {
        for byte in bytes {
            self.names = (self.names >> 8).wrapping_add((*byte as u64) << 56);
        }
    }
}

/// Makes hashers of pairs of names.
#[derive(Clone, Copy)]
pub(crate) struct NameHashing;

impl BuildHasher for NameHashing {
    type Hasher = NameHasher;

    ghost build_hasher = { λ s. record { names = 0 } };

    fn build_hasher(&self) -> NameHasher {
        NameHasher { names: 0 }
    }
}

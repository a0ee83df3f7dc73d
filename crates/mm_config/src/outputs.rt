//! Outputs, each kept once.

ghost use Rattle.std.specs.Prelude.{◌≡◌, ◌+◌, ◌<◌, ◌≤◌, ◌++◌, ℕ, List, [], IfOk, length, reverse, take};
ghost use Rattle.std.specs.List.{AllByRecursion};
ghost use Rattle.mm_pairs.specs.Named.{HasGrown, HaveOneName, IsNameOf};
ghost use Rattle.mm_pairs.specs.Trees.{pair_of};
ghost use Rattle.mm_config.specs.Naming.{IsChain};

use indexmap::IndexSet;
use std::alloc::{AllocError, Global};
use std::marker::Model;

/// Outputs: pairs of the name of an output that is shorter by a byte, and of one more than the byte. The name 0 is that of no
/// bytes; that of any other output is one more than its index. An output has a greater name than a shorter one that it
/// begins with.
#[derive(Drop)]
pub(crate) struct Outputs {
    pairs: IndexSet<(u32, u32)>,
}

impl Model for Outputs {
    ghost use Rattle.std.specs.Prelude.{ℕ, List};
    ghost use Rattle.mm_config.specs.Chains.{Rise};

    ghost Value = { List (ℕ × ℕ) };

    ghost view = { λ o. o.pairs.keys };

    ghost invariant = { λ o. Rise 0 o.pairs.keys };
}

impl Outputs {
    /// No outputs.
    pub(crate) fn new(alloc: Global) -> Outputs
        ensures { result ≡ [] }
    {
        Outputs {
            pairs: IndexSet::new(alloc),
        }
    }

    /// The name of an output with one byte more, which is kept if it is new.
    pub(crate) fn longer(&mut self, shorter: u32, byte: u8) -> Result<u32, AllocError>
        requires { shorter ≤ length self.old }
        ensures name { IfOk result (λ name. IsNameOf (0, 0) self.new name (shorter, byte + 1)) }
        ensures rises { IfOk result (λ name. shorter < name) }
        ensures grown { HasGrown self.old self.new }
    {
        if self.pairs.len() >= u32::MAX as usize {
            return Err(AllocError);
        }
        let (at, _) = self.pairs.insert_full((shorter, u32::from(byte) + 1))?;
        Ok(at as u32 + 1)
    }

    /// The shorter output of a name, and one more than the byte after it.
    pub(crate) fn parts(&self, name: u32) -> (u32, u32)
        requires { name ≤ length self.now }
        ensures { result ≡ pair_of self.now name }
    {
        if name == 0 {
            return (0, 0);
        }
        self.pairs.as_slice()[name as usize - 1]
    }

    /// How many bytes of an output of this length stay when another takes its place, and the bytes of the other after these.
    pub(crate) fn changed(
        &self,
        alloc: Global,
        was: u32,
        wanted: u32,
        len: usize,
    ) -> Result<(usize, Vec<u8>), AllocError>
        requires was { (old : List ℕ) × IsChain self.now (reverse old) was × (len ≡ length old) }
        requires wanted { (new : List ℕ) × IsChain self.now (reverse new) wanted × AllByRecursion (λ byte. byte < 256) new }
        ensures { IfOk result (λ r. (old new : List ℕ) → IsChain self.now (reverse old) was → len ≡ length old
            → IsChain self.now (reverse new) wanted → (r.0 ≤ length old) × (take r.0 old ++ r.1.items ≡ new)) }
    {
        let mut bytes = Vec::new(alloc);
        let mut kept = len;
        let mut left = was;
        let mut aim = wanted;
        while left != aim {
            if left > aim {
                left = self.parts(left).0;
                kept -= 1;
            } else {
                let (shorter, byte) = self.parts(aim);
                aim = shorter;
                bytes.push((byte - 1) as u8)?;
            }
        }
        bytes.reverse();
        Ok((kept, bytes))
    }

    /// Says, for proofs, that each output has one name. The call does nothing.
    pub(crate) fn apart(&self)
        ensures { HaveOneName (0, 0) self.now }
    {
        let _count = self.pairs.len();
    }
}

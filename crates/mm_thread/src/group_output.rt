//! The output of a group.

ghost use Rattle.std.specs.Prelude.{◌≡◌, ◌<◌, ◌≤◌, ◌+◌, ◌++◌, [], ◌∷◌, length, take, IfOk};

use mm_model::OUTPUT_LIMIT;
use mm_word::NoMemory;
use std::alloc::Global;
use std::marker::Model;

/// The bytes that a group has put out. All room is taken when it is made.
#[derive(Drop)]
pub(crate) struct GroupOutput {
    bytes: Vec<u8>,
}

impl Model for GroupOutput {
    ghost use Rattle.std.specs.Prelude.{ℕ, List, ◌≤◌, vec_capacity};

    ghost Value = { List ℕ };

    ghost view = { λ o. o.bytes.items };

    ghost invariant = { λ o. 65536 ≤ vec_capacity o.bytes };
}

impl GroupOutput {
    /// An empty output. `NoMemory` comes if memory ran out.
    pub(crate) fn new(alloc: Global) -> Result<GroupOutput, NoMemory>
        ensures { IfOk result (λ output. output ≡ []) }
    {
        let bytes = Vec::with_capacity(alloc, OUTPUT_LIMIT)?;
        Ok(GroupOutput { bytes })
    }

    /// The bytes, oldest first.
    pub(crate) fn bytes(&self) -> &[u8]
        ensures { result.now ≡ self.now }
    {
        &self.bytes
    }

    /// The count of bytes.
    pub(crate) fn len(&self) -> usize
        ensures { result ≡ length self.now }
    {
        self.bytes.len()
    }

    /// Appends a byte.
    pub(crate) fn push(&mut self, byte: u8)
        requires { length self.old < 65536 }
        ensures { self.new ≡ self.old ++ byte ∷ [] }
    {
        self.bytes.push(byte).unwrap();
    }

    /// Makes these bytes the whole output.
    pub(crate) fn assign(&mut self, bytes: &[u8])
        requires { length bytes.now ≤ 65536 }
        ensures { self.new ≡ bytes.now }
    {
        self.bytes.clear();
        self.bytes.extend_from_slice(bytes).unwrap();
    }

    /// Appends bytes to the first ones of the output.
    pub(crate) fn extend(&mut self, kept: usize, bytes: &[u8])
        requires { kept + length bytes.now ≤ 65536 }
        ensures { self.new ≡ take kept self.old ++ bytes.now }
    {
        self.bytes.truncate(kept);
        self.bytes.extend_from_slice(bytes).unwrap();
    }
}

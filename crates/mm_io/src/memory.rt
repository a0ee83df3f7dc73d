//! Sinks in memory, for tests and for callers that need no text.

ghost use Rattle.std.specs.Prelude.{◌≡◌, ℕ, ◌+◌, ◌-◌, ◌^◌, ◌<◌, ◌≤◌, ◌↔◌, [], ◌++◌, Ok, Some, None, length, take};
ghost use Rattle.std.specs.Prelude.{min, vec_capacity, IsErr, IfOk, OnErr};
ghost use Rattle.std.specs.Io.KnownBytes.{append_known};
ghost use Rattle.mm_io.specs.Files.{Rose, raised};
ghost use Rattle.mm_io.specs.Memory.{MemorySink, Refuses};

use crate::{Failed, Sink};
use mm_word::NoMemory;
use std::alloc::Global;
use std::marker::Model;

/// A sink that keeps what it takes, and fails on chosen calls.
///
/// It has room for `room` bytes, and a call moves at most `piece` bytes. The calls that `fails`
/// lists, counted from 1, fail, and so does a call whose bytes go past the room. Each failed call
/// raises the count of faults.
#[derive(Drop)]
pub struct MemSink {
    bytes: Vec<u8>,
    space: usize,
    refused: Vec<u64>,
    most: usize,
    calls: u64,
    faults: u64,
}

impl Model for MemSink {
    ghost Value = { MemorySink };

    ghost view = { λ s. record {
      taken = s.bytes.items;
      room = s.space;
      fails = s.refused.items;
      piece = s.most;
      calls = s.calls;
      faults = s.faults;
    } };

    ghost invariant = { λ s. (s.space ≤ vec_capacity s.bytes) × (length s.bytes.items ≤ s.space) × (0 < s.most) };
}

impl MemSink {
    /// An empty sink with room for `room` bytes. `fails` lists the calls that fail; one call moves
    /// at most `piece` bytes.
    pub fn new(
        alloc: Global,
        room: usize,
        fails: Vec<u64>,
        piece: usize,
    ) -> Result<MemSink, NoMemory>
        requires { 0 < piece }
        ensures { IfOk result (λ sink. sink ≡ record {
          taken = [];
          room = room;
          fails = fails.items;
          piece = piece;
          calls = 0;
          faults = 0;
        }) }
    {
        let bytes = Vec::with_capacity(alloc, room)?;
        Ok(MemSink {
            bytes,
            space: room,
            refused: fails,
            most: piece,
            calls: 0,
            faults: 0,
        })
    }

    /// The bytes that the sink took.
    pub fn taken(&self) -> &[u8]
        ensures { result.now ≡ self.now.taken }
    {
        &self.bytes
    }
}

impl Sink for MemSink {
    ghost taken = { λ s. Some s.taken };

    ghost faults = { λ s. s.faults };

    fn write(&mut self, piece: &[u8]) -> Result<usize, Failed>
        ensures bound { IfOk result (λ n. n ≤ length piece.now) }
        ensures some { IfOk result (λ n. 0 < length piece.now → 0 < n) }
        ensures took { IfOk result (λ n. Some self.new.taken ≡ append_known (Some self.old.taken) (take n piece.now)) }
        ensures none { OnErr result (Some self.new.taken ≡ Some self.old.taken) }
        ensures cause { OnErr result (Rose self.old.faults self.new.faults) }
        ensures later { self.old.faults ≤ self.new.faults }

        // what this sink promises beyond the trait
        ensures refused { IsErr result ↔ Refuses self.old (length piece.now) }
        ensures moved { IfOk result (λ n. n ≡ min (length piece.now) self.old.piece) }
        ensures ok { IfOk result (λ n. self.new ≡ record self.old {
          taken = self.old.taken ++ take n piece.now;
          calls = raised self.old.calls;
        }) }
        ensures err { OnErr result (self.new ≡ record self.old {
          calls = raised self.old.calls;
          faults = raised self.old.faults;
        }) }
    {
        self.calls = self.calls.saturating_add(1);
        let count = piece.len().min(self.most);
        if self.refused.contains(&self.calls) || count > self.space - self.bytes.len() {
            self.faults = self.faults.saturating_add(1);
            return Err(Failed);
        }
        self.bytes.extend_from_slice(&piece[..count]).unwrap();
        Ok(count)
    }
}

/// A sink that takes everything and keeps only the count of bytes, up to `u64::MAX`.
#[derive(Drop)]
pub struct NullSink {
    count: u64,
}

impl Model for NullSink {
    ghost Value = { ℕ };

    ghost view = { λ s. s.count };
}

impl NullSink {
    /// A sink that has taken nothing.
    #[allow(clippy::new_without_default)]
    pub fn new() -> NullSink
        ensures { result ≡ 0 }
    {
        NullSink { count: 0 }
    }

    /// The count of bytes that the sink took. It stays at `u64::MAX` once it is there.
    pub fn taken(&self) -> u64
        ensures { result ≡ self.now }
    {
        self.count
    }
}

impl Sink for NullSink {
    ghost taken = { λ _. None };

    ghost faults = { λ _. 0 };

    fn write(&mut self, piece: &[u8]) -> Result<usize, Failed>
        ensures bound { IfOk result (λ n. n ≤ length piece.now) }
        ensures some { IfOk result (λ n. 0 < length piece.now → 0 < n) }
        ensures whole { result ≡ Ok (length piece.now) }
        ensures counted { self.new ≡ min (self.old + length piece.now) (2 ^ 64 - 1) }
    {
        self.count = self.count.saturating_add(piece.len() as u64);
        Ok(piece.len())
    }
}

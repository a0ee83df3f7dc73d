//! Files in memory that fail on chosen calls.

ghost use Rattle.std.specs.Prelude.{◌≡◌, ◌↔◌, ◌-◌, ◌<◌, ◌≤◌, ◌^◌, min, length, map, IsErr, IfOk, OnOk};
ghost use Rattle.std.specs.Prelude.{OnErr};
ghost use Rattle.mm_io.specs.Files.{Rose, ReadsAt, raised};
ghost use Rattle.mm_io.specs.Memory.{MemoryFiles, RefusesRead, file_in, moved, named};

use crate::named::find;
use crate::{Failed, Files};
use std::marker::Model;

/// Files in memory that fail on chosen calls.
///
/// If two files have one name, the first counts. A call moves at most `piece` bytes. The calls that `fails` lists,
/// counted from 1, fail, and so does a call for an absent name. Each failed call raises the count of faults, which all
/// names share.
#[derive(Drop)]
pub struct MemFiles {
    held: Vec<(String, Vec<u8>)>,
    refused: Vec<u64>,
    most: usize,
    calls: u64,
    faults: u64,
}

impl Model for MemFiles {
    ghost Value = { MemoryFiles };

    ghost view = { λ s. record {
      files = map named s.held.items;
      fails = s.refused.items;
      piece = s.most;
      calls = s.calls;
      faults = s.faults;
    } };

    ghost invariant = { λ s. 0 < s.most };
}

impl MemFiles {
    /// The files with these names and bytes. `fails` lists the calls that fail; one call moves at most `piece` bytes.
    pub fn new(files: Vec<(String, Vec<u8>)>, fails: Vec<u64>, piece: usize) -> MemFiles
        requires { 0 < piece }
        ensures { result ≡ record {
          files = map named files.items;
          fails = fails.items;
          piece = piece;
          calls = 0;
          faults = 0;
        } }
    {
        MemFiles {
            held: files,
            refused: fails,
            most: piece,
            calls: 0,
            faults: 0,
        }
    }
}

impl Files for MemFiles {
    ghost held = { λ s name. file_in s.files name };

    ghost faults = { λ s _. s.faults };

    // the calls are counted
    ghost asked = { λ s reads. s.calls ≡ min (length reads) (2 ^ 64 - 1) };

    fn read_at(&mut self, name: &str, offset: u64, buf: &mut [u8]) -> Result<usize, Failed>
        requires { offset < 2 ^ 32 }
        ensures bound { IfOk result (λ n. n ≤ length buf.new) }
        ensures bytes { IfOk result (λ n. ReadsAt (file_in self.old.files name.now) offset n buf.new) }
        ensures cause { OnErr result (Rose self.old.faults self.new.faults) }
        ensures later { self.old.faults ≤ self.new.faults }

        // what these files promise beyond the trait
        ensures refused { IsErr result ↔ RefusesRead self.old name.now }
        ensures moved { IfOk result (λ n. n ≡ moved self.old name.now offset (length buf.new)) }
        ensures ok { OnOk result (self.new ≡ record self.old { calls = raised self.old.calls }) }
        ensures err { OnErr result (self.new ≡ record self.old {
          calls = raised self.old.calls;
          faults = raised self.old.faults;
        }) }
    {
        self.calls = self.calls.saturating_add(1);
        match find(&self.held, name) {
            Some(bytes) if !self.refused.contains(&self.calls) => {
                let rest = &bytes[bytes.len().min(offset as usize)..];
                let count = rest.len().min(buf.len().min(self.most));
                buf[..count].copy_from_slice(&rest[..count]);
                Ok(count)
            }
            _ => {
                self.faults = self.faults.saturating_add(1);
                Err(Failed)
            }
        }
    }
}

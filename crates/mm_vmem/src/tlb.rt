//! The translation buffer (TLB).

ghost use Rattle.std.specs.Prelude.{◌≡◌, ◌==◌, ◌↔◌, [], ◌∷◌, ◌++◌, true, position, IfSome, IfNone, IsNone};
ghost use Rattle.mm_model.specs.Counted.{has};
ghost use Rattle.mm_vmem.specs.Stands.{IsDistinct};
ghost use Rattle.mm_vmem.specs.Entries.{pages_in, entries_without};

use arrayvec::ArrayVec;
use std::marker::Model;

/// The most entries that a TLB has.
pub const ENTRIES: usize = 16;

/// An entry of the TLB: a page that was looked up, and its frame.
#[derive(Clone, Copy, Default, PartialEq, Eq)]
pub struct Entry {
    pub page: u64,
    pub frame: u32,
}

/// A translation buffer (TLB): up to 16 pages with their frames, each page once, the last used first.
#[derive(Drop)]
pub struct Tlb {
    entries: ArrayVec<Entry, ENTRIES>,
}

impl Model for Tlb {
    ghost use Rattle.std.specs.Prelude.{List};
    ghost use Rattle.mm_vmem.specs.declared.tlb.Entry.{Entry};
    ghost use Rattle.mm_vmem.specs.Entries.{AreEntries};

    ghost Value = { List Entry };

    ghost view = { λ b. b.entries.items };

    ghost invariant = { λ b. AreEntries b.entries.items };
}

/// The index of the entry of a page.
fn position(entries: &[Entry], page: u64) -> Option<usize>
    ensures { result ≡ position (λ entry. entry.page == page) entries.now }
{
    entries.iter().position(|entry| entry.page == page)
}

/// Puts an entry first, and moves the entries before the old one of its page one place down. If its page has no entry
/// yet, moves all of them, and gives the last, for which there is no place.
fn move_down(entries: &mut [Entry], first: Entry) -> Option<Entry>
    requires { IsDistinct (pages_in entries.old) }
    ensures found { IsNone result ↔ (has first.page (pages_in entries.old) ≡ true) }
    ensures moved { IfNone result (entries.new ≡ first ∷ entries_without first.page entries.old) }
    ensures left { IfSome result (λ last. entries.new ++ last ∷ [] ≡ first ∷ entries.old) }
{
    let mut carried = first;
    for entry in entries.iter_mut() {
        let old = *entry;
        *entry = carried;
        if old.page == first.page {
            return None;
        }
        carried = old;
    }
    Some(carried)
}

impl Tlb {
    ghost use Rattle.mm_vmem.specs.Entries.{frame_in, after_look_up};

    /// An empty TLB.
    pub fn new() -> Tlb
        ensures { result ≡ [] }
    {
        Tlb {
            entries: ArrayVec::new(),
        }
    }

    /// The frame of a page, if the TLB has the page. The order of the entries stays.
    pub fn find(&self, page: u64) -> Option<u32>
        ensures { result ≡ frame_in page self.now }
    {
        let entries = self.entries.as_slice();
        let i = position(entries, page)?;
        Some(entries[i].frame)
    }

    /// Looks up a page with its frame, and says whether it was there. Its entry becomes the first; if there is no room,
    /// the last one goes.
    pub fn look_up(&mut self, page: u64, frame: u32) -> bool
        ensures found { result ≡ has page (pages_in self.old) }
        ensures after { self.new ≡ after_look_up (record { page = page; frame = frame }) self.old }
    {
        match move_down(self.entries.as_mut_slice(), Entry { page, frame }) {
            None => true,
            Some(last) => {
                if !self.entries.is_full() {
                    self.entries.push(last);
                }
                false
            }
        }
    }

    /// Removes all entries.
    pub fn clear(&mut self)
        ensures { self.new ≡ [] }
    {
        self.entries.clear();
    }
}

//! Images: what a machine starts from.

ghost use Rattle.std.specs.Prelude.{◌≡◌};

use crate::fits::is_image;
use mm_model::{Page, Slot};
use mm_word::Cell;
use std::marker::Model;

/// What a machine starts from: slots with ascending numbers, pages with ascending numbers, and the number of frames for
/// pages, within the limits of the image's version. In a split image the value of a load arrives later than the load.
#[derive(Drop)]
pub struct Image {
    pub(crate) version: u16,
    pub(crate) split: bool,
    pub(crate) slots: Vec<Slot>,
    pub(crate) pages: Vec<Page>,
    pub(crate) frames: u32,
}

impl Model for Image {
    ghost use Rattle.mm_model.specs.Image.{Image as ImageValue};
    ghost use Rattle.mm_model.specs.Spelling.{IsImage};
    ghost use Rattle.mm_image.specs.Images.{image_from};

    ghost Value = { ImageValue };

    ghost view = { λ i. image_from i.version i.split i.slots.items i.pages.items i.frames };

    ghost invariant = { λ i. IsImage (image_from i.version i.split i.slots.items i.pages.items i.frames) };
}

impl Image {
    ghost use Rattle.std.specs.Prelude.{◌%◌};
    ghost use Rattle.std.specs.Option.{SomeIff};
    ghost use Rattle.mm_model.specs.Memory.{cell_at};
    ghost use Rattle.mm_model.specs.Spelling.{IsImage};
    ghost use Rattle.mm_image.specs.Images.{image_from};

    /// The image of these parts. `None` exactly if they make no image: a version that is neither 1 nor 2, a split image
    /// of version 1, no slot or more slots than the version has, numbers of slots that do not ascend, a slot that has
    /// run or that a limit or its handler excludes, no frame or more frames than the version has, numbers of pages that
    /// do not ascend, more pages than frames.
    pub fn new(
        version: u16,
        split: bool,
        slots: Vec<Slot>,
        pages: Vec<Page>,
        frames: u32,
    ) -> Option<Image>
        ensures { SomeIff result (IsImage (image_from version split slots.items pages.items frames))
            (image_from version split slots.items pages.items frames) }
    {
        if !is_image(version, split, &slots, &pages, frames) {
            return None;
        }
        Some(Image::of(version, split, slots, pages, frames))
    }

    /// The image of these parts, for a caller that knows that they make one.
    pub fn of(version: u16, split: bool, slots: Vec<Slot>, pages: Vec<Page>, frames: u32) -> Image
        requires { IsImage (image_from version split slots.items pages.items frames) }
        ensures { result ≡ image_from version split slots.items pages.items frames }
    {
        Image {
            version,
            split,
            slots,
            pages,
            frames,
        }
    }

    /// The version of the image's file, 1 or 2.
    pub fn version(&self) -> u16
        ensures version { result ≡ self.now.version }
        ensures image { IsImage self.now }
    {
        self.version
    }

    /// Whether the value of a load arrives later than the load.
    pub fn split(&self) -> bool
        ensures split { result ≡ self.now.split }
    {
        self.split
    }

    /// The slots, by ascending number.
    pub fn slots(&self) -> &[Slot]
        ensures slots { result.now ≡ self.now.slots }
        ensures image { IsImage self.now }
    {
        self.slots.as_slice()
    }

    /// The pages, by ascending number.
    pub fn pages(&self) -> &[Page]
        ensures pages { result.now ≡ self.now.memory.pages }
        ensures image { IsImage self.now }
    {
        self.pages.as_slice()
    }

    /// The number of frames for pages.
    pub fn frames(&self) -> u32
        ensures frames { result ≡ self.now.memory.frames }
        ensures image { IsImage self.now }
    {
        self.frames
    }

    /// The cell of a word, if the image has its page.
    #[tactic(auto, unfolding(mm_model::specs::Memory::cell_at))]
    pub fn cell(&self, word: u64) -> Option<Cell>
        requires { word % 8 ≡ 0 }
        ensures { result ≡ cell_at self.now.memory word }
    {
        let page = page_of(&self.pages, word / 4096)?;
        Some(page.cells()[(word % 4096 / 8) as usize])
    }
}

ghost use Rattle.std.specs.Prelude.{IsTrue};
ghost use Rattle.std.specs.Option.{option_map};
ghost use Rattle.std.specs.Ordering.{nat_cmp};
ghost use Rattle.std.specs.FinMap.{find, is_sorted};

/// The page of a number, found by binary search.
fn page_of(pages: &[Page], number: u64) -> Option<&Page>
    requires { IsTrue (is_sorted nat_cmp pages.now) }
    ensures { option_map (λ page. page.now.1) result ≡ find nat_cmp number pages.now }
{
    match pages.binary_search_by_key(&number, |page| page.number()) {
        Ok(at) => Some(&pages[at]),
        Err(_) => None,
    }
}

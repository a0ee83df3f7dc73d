//! The items that name an image's slots and their ports.

ghost use Rattle.std.specs.Prelude.{◌≡◌, ◌+◌, ◌<◌, ◌≤◌, ◌++◌, length};
ghost use Rattle.std.specs.List.{AllByRecursion};
ghost use Rattle.arrayvec.specs.ArrayVec.{array_vec_len};
ghost use Rattle.mm_model.specs.Slot.{Slot as SlotValue};
ghost use Rattle.mm_top.specs.Groups.{named, members_of};

use arrayvec::ArrayVec;
use mm_image::Image;
use mm_model::Slot;

/// The items that name an image's slots: the numbers of the slots and, if the image is split, the numbers of their
/// ports.
pub fn members(image: &Image) -> ArrayVec<u8, 128>
    ensures { result.items ≡ members_of image.now }
{
    let mut members = ArrayVec::new();
    push_numbers(&mut members, image.slots(), 0);
    if image.split() {
        push_numbers(&mut members, image.slots(), 128);
    }
    members
}

/// Appends the numbers of the slots, with `from` added to each.
fn push_numbers(members: &mut ArrayVec<u8, 128>, slots: &[Slot], from: u8)
    requires room { array_vec_len members.old + length slots.now ≤ 128 }
    requires few { AllByRecursion (λ (s : SlotValue). from + s.number < 256) slots.now }
    ensures items { members.new.items ≡ members.old.items ++ named from slots.now }
    ensures len { array_vec_len members.new ≡ array_vec_len members.old + length slots.now }
{
    for slot in slots {
        members.push(from + slot.number);
    }
}

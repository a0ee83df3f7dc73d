//! Sets of parties.

ghost use Rattle.std.specs.Prelude.{◌≡◌, ◌⊎◌, ◌↔◌, ◌<◌, ℕ, true};
ghost use Rattle.std.specs.Int.{bit_at};
ghost use Rattle.mm_hold.specs.Parties.{In, Is};

/// The mask of a slot or a group; it is empty for a number that none has.
pub fn mask_of(number: u8) -> u64
    ensures { (g : ℕ) → (bit_at result g ≡ 1) ↔ ((g ≡ number) × (g < 64)) }
{
    if number < 64 { 1u64 << number } else { 0 }
}

/// A set of parties: groups, by what their callers hold, and slots of the kernel.
#[derive(Clone, Copy, PartialEq, Eq)]
pub struct Parties {
    /// The mask of the groups.
    pub groups: u64,
    /// The mask of the slots.
    pub slots: u64,
}

impl Parties {
    /// No party.
    pub fn none() -> Parties
        ensures { Is result (λ x. ⊥) }
    {
        Parties {
            groups: 0,
            slots: 0,
        }
    }

    /// The parties of both sets.
    pub fn and(self, other: Parties) -> Parties
        ensures { Is result (λ x. In x self ⊎ In x other) }
    {
        Parties {
            groups: self.groups | other.groups,
            slots: self.slots | other.slots,
        }
    }

    /// The groups alone.
    pub fn groups_alone(self) -> Parties
        ensures groups { result.groups ≡ self.groups }
        ensures slots { result.slots ≡ 0 }
    {
        Parties {
            groups: self.groups,
            slots: 0,
        }
    }
}

/// Whether two sets are one.
pub fn same(a: Parties, b: Parties) -> bool
    ensures { (result ≡ true) ↔ (a ≡ b) }
{
    a.groups == b.groups && a.slots == b.slots
}

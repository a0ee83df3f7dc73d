//! Lists of groups as the command line writes them.

ghost use Rattle.std.specs.Prelude.{◌≡◌, ◌≢◌, ◌++◌, ◌∷◌, [], ℕ, List, IsNone, IsSome, IsTrue, MatchOption, ◌<◌, ◌↔◌};
ghost use Rattle.std.specs.Prelude.{decimal};
ghost use Rattle.std.specs.List.{AllByRecursion};
ghost use Rattle.mm_model.specs.Audit.{groups_text};
ghost use Rattle.mm_cli.specs.ItemList.{InOrder};
ghost use Rattle.mm_cli.specs.GroupList.{AreGroups, AreFirstGroups, IsBelow, IsNextGroup};

use crate::lists::index_of;
use arrayvec::ArrayVec;
use mm_sched::number;

/// The greatest group.
const MAX_GROUP: u64 = 63;

/// Reads one or more groups in decimal digits, ascending and separated by single commas.
pub fn read_groups(text: &[u8]) -> Option<ArrayVec<u8, 64>>
    ensures { MatchOption result ((groups : List ℕ) → AreGroups groups → text.now ≢ groups_text groups)
        (λ groups. (text.now ≡ groups_text groups.items) × AreGroups groups.items) }
{
    let mut groups = ArrayVec::new();
    let mut rest = text;
    while let Some(at) = index_of(rest, b',') {
        push_group(&mut groups, &rest[..at])?;
        rest = &rest[at + 1..];
    }
    push_group(&mut groups, rest)?;
    Some(groups)
}

/// Reads a group and appends it, if it is above the groups in the list.
fn push_group(groups: &mut ArrayVec<u8, 64>, word: &[u8]) -> Option<()>
    requires { AreFirstGroups groups.old.items }
    ensures some { IsSome result → (g : ℕ) × IsNextGroup groups.old.items g × (word.now ≡ decimal g)
        × (groups.new.items ≡ groups.old.items ++ g ∷ []) }
    ensures none { IsNone result → (g : ℕ) → IsNextGroup groups.old.items g → word.now ≢ decimal g }
{
    let group = number(word, MAX_GROUP)? as u8;
    if !is_above(groups.as_slice(), group) {
        return None;
    }
    groups.push(group);
    Some(())
}

/// Whether a group is above each of some ascending groups.
fn is_above(groups: &[u8], group: u8) -> bool
    requires { InOrder IsBelow groups.now }
    ensures { IsTrue result ↔ AllByRecursion (λ h. h < group) groups.now }
{
    match groups.last() {
        None => true,
        Some(last) => *last < group,
    }
}

//! What the memory that the program runs over adds to its reports.
ghost use Rattle.mm_top.specs.Memories.{CountsStandBehind};

use mm_mem::{Inspect, PlainMem};
use mm_vmem::VMem;

/// The law of counting memories. For every image and list of items, the report over the cached memory is the report
/// over the plain one, followed by the count line of the run's uses. The items of every order and number of cycles are
/// such a list. The function does nothing: its contract is the law.
pub fn counts_stand_behind()
    ensures { CountsStandBehind ⟦<VMem as Inspect>⟧.tells ⟦<PlainMem as Inspect>⟧.tells }
{}

//! What a turn leaves as it was.
ghost use Rattle.mm_laws.specs.Frames.{TurnsLeaveTheRest};

/// A turn changes no more than its slot, slots that this one handles and that do not run, this one's queue and that of its
/// handler, the output of its group, and the word that it touched or one page. A turn of no slot changes nothing.
pub fn turns_leave_the_rest()
    ensures { TurnsLeaveTheRest }
{}

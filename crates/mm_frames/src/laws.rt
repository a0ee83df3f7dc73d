//! What holds of blocks. This function does nothing when it runs: its contract is the law.
ghost use Rattle.mm_frames.specs.Laws.{BlocksAreKept};

/// A block that was written is read again, each other block stays, and no page is mapped or removed.
pub fn blocks_are_kept()
    ensures { BlocksAreKept }
{}

//! What a kernel keeps, whatever its callers do.
ghost use Rattle.mm_kernel.specs.Laws.{KeepersAreVariants, KernelsKeep};

/// A kernel of which no leak is derived keeps its segments in every run of every variant of its image: each access on a
/// kept word is of a turn that fetched code of the kernel, what others have is shared, kept cells have one of their
/// forms, and fixed cells do not change.
pub fn kernels_keep()
    ensures { KernelsKeep }
{}

/// An image that keeps its segments is a variant of itself.
pub fn keepers_are_variants()
    ensures { KeepersAreVariants }
{}

//! What makes a summary of each group's pointers exact.
//!
//! A summary says which groups are privileged, and which pointers each group knows. If all that it says is granted, and
//! no rule of reach adds to it, it is exact: its privileged groups are the privileged ones, each known pointer is
//! granted, and each pointer that a group is granted is below one that it knows, unless the group is privileged or the
//! pointer permits nothing. The marks of a graph that stands for an image are such a summary.
ghost use Rattle.mm_graph.specs.Laws.{SummariesDecide, GraphsDecide};

/// A summary of granted pointers to which no rule adds is exact.
pub fn summaries_decide()
    ensures { SummariesDecide }
{}

/// The marks of a graph that stands for an image are an exact summary of it.
pub fn graphs_decide()
    ensures { GraphsDecide }
{}

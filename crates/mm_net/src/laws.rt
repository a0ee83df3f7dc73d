//! What holds of all nets.
//!
//! These functions do nothing when they run: the contract of each is the law.
ghost use Rattle.mm_net.specs.InOrder.{ArrivesInOrder};
ghost use Rattle.mm_net.specs.Granted.{NodesAreGranted, LinksCarryIntegers};
ghost use Rattle.mm_net.specs.Isolated.{NetWorlds, ItemsAreOne};
ghost use Rattle.mm_net.specs.Moves.{LinksActExactly, LinksTellWhatTheyCarry, NodesRunAlone};

/// At each link the integers that arrived are a prefix of those that were sent, even if an integer is carried early,
/// twice or never: each arrives at most once, and in order.
pub fn arrives_in_order()
    ensures { ArrivesInOrder }
{}

/// After every list of items each node is in a state that fits its image. Its words are granted by that image under the
/// entries of its own turns, and so is all that its next turn touches, enters and changes.
pub fn nodes_are_granted()
    ensures { NodesAreGranted }
{}

/// A link changes nothing of a node but cells that it empties and cells that it fills with integers: no pointer
/// crosses.
pub fn links_carry_integers()
    ensures { LinksCarryIntegers }
{}

/// If two nets have the same links, their images agree on some groups and have equal cells at the ends of these groups'
/// links, and in both the groups stand apart, then after any two lists with the same items of the groups, the slots,
/// queues and outputs of the groups are the same in both nets, and so are the cells at the words that the groups can
/// touch, the integers that their links sent, and those that arrived.
pub fn net_worlds()
    ensures { NetWorlds }
{}

/// A list of items has at most one list of the groups' items among them, and it is impossible that it has none.
pub fn items_are_one()
    ensures { ItemsAreOne }
{}

/// A link takes exactly if its cell is full, and puts exactly if its cell is empty and the integer is the next to
/// arrive. Then one cell changes, and what the link carried. If it can do neither, nothing changes.
pub fn links_act_exactly()
    ensures { LinksActExactly }
{}

/// The integers that a link sent, and those that arrived by it, are the ones in the ticks of its items, in order.
pub fn links_tell_what_they_carry()
    ensures { LinksTellWhatTheyCarry }
{}

/// In a net without links each node is in the state to which the run of its own items leads, and asks of its memory
/// what that run asks.
pub fn nodes_run_alone()
    ensures { NodesRunAlone }
{}

//! Why objects do not link.

ghost use Rattle.std.specs.Prelude.{◌≡◌};
ghost use Rattle.mm_link.specs.Faults.{number_of};
ghost use Rattle.mm_link.specs.declared.fault.LinkError.TheVariants.{NoMemory};

use mm_object::Name;
use std::alloc::{AllocError, AllocFailed};

/// Why objects do not link. The numbers 1 to 7 are the order in which faults are tested: the error has the first.
#[derive(Drop)]
pub enum LinkFault {
    /// 1: this is the name of a segment, and also of one that is given before it.
    Twice(Name),
    /// 2: an object needs this name, and no segment has it.
    Undefined(Name),
    /// 3: an object points to or past the end of the segment that has this name.
    Offset(Name),
    /// 4: two threads have this slot.
    SlotTwice(u8),
    /// 5: there is no thread.
    NoThread,
    /// 6: the handler of this slot is no thread's slot.
    Handler(u8),
    /// 7: pages and spare frames are more than 256.
    TooLarge,
}

/// Why there is no image: a fault of the objects, or memory ran out.
#[derive(Drop)]
pub enum LinkError {
    Fault(LinkFault),
    NoMemory,
}

impl LinkFault {
    /// The fault's number, 1 to 7.
    pub fn number(&self) -> u8
        ensures { result ≡ number_of self.now }
    {
        match self {
            LinkFault::Twice(_) => 1,
            LinkFault::Undefined(_) => 2,
            LinkFault::Offset(_) => 3,
            LinkFault::SlotTwice(_) => 4,
            LinkFault::NoThread => 5,
            LinkFault::Handler(_) => 6,
            LinkFault::TooLarge => 7,
        }
    }
}

impl From<AllocError> for LinkError {
    ghost from_gives = { λ _ e. e ≡ NoMemory };

    fn from(_: AllocError) -> LinkError {
        LinkError::NoMemory
    }
}

impl<T: Drop> From<AllocFailed<T>> for LinkError {
    ghost from_gives = { λ _ e. e ≡ NoMemory };

    fn from(_: AllocFailed<T>) -> LinkError {
        LinkError::NoMemory
    }
}

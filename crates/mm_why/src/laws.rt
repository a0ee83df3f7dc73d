//! What a derivation shows.
ghost use Rattle.mm_why.specs.Derivations.{DerivationsGrant};

/// Each line of a right derivation is granted.
pub fn derivations_grant()
    ensures { DerivationsGrant }
{}

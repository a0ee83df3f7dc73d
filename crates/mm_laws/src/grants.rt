//! What is granted under any entries.
ghost use Rattle.mm_laws.specs.Grants.{GrantsGrow, AllGrantMost, PrivilegedIsGrantedAll, WritingTouches};

/// Grants grow with entries, and the grants under all entries contain those under every list.
pub fn grants_grow()
    ensures grow { GrantsGrow }
    ensures most { AllGrantMost }
{}

/// A privileged group is granted every well-formed pointer.
pub fn privileged_is_granted_all()
    ensures { PrivilegedIsGrantedAll }
{}

/// A group can touch every word that it can write.
pub fn writing_touches()
    ensures { WritingTouches }
{}

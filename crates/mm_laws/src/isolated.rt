//! Groups that stand apart cannot tell what the others do.
ghost use Rattle.mm_laws.specs.Isolated.{WorldsStep, TwoWorlds, AloneAgrees, ExtractsAgree, AloneSeesTheSame};
ghost use Rattle.mm_laws.specs.Isolated.{ExtractsSeeTheSame};

/// In two states that are alike to groups that stand apart, the same turn of the groups goes on in both and has the
/// same step. A turn outside the groups goes on in one state alone.
pub fn worlds_step()
    ensures { WorldsStep }
{}

/// Two runs with the same items of the groups show the groups the same: slots, queues, outputs and cells; and so the
/// sections of the report, the lines of the trace and the cells that changed.
pub fn two_worlds()
    ensures { TwoWorlds }
{}

/// If groups that have a slot stand apart, the image of their slots alone agrees with the whole image on them, and they
/// stand apart in it.
pub fn alone_agrees()
    ensures { AloneAgrees }
{}

/// If groups that have a slot stand apart, each image that extracts them agrees with the whole image on them, and they
/// stand apart in it.
pub fn extracts_agree()
    ensures { ExtractsAgree }
{}

/// Groups that stand apart see of a run what they see alone, or in an extracted image, with their own items.
pub fn own_images_show_the_same()
    ensures alone { AloneSeesTheSame }
    ensures extracted { ExtractsSeeTheSame }
{}

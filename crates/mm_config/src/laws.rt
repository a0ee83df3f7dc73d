//! Laws of names.

ghost use Rattle.mm_config.specs.Naming.{NamesAreOfOne};

/// Names are the same exactly if they are of one configuration.
pub fn names_are_of_one()
    ensures { NamesAreOfOne }
{}

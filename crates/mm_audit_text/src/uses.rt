//! The names of the uses of words.

ghost use Rattle.std.specs.Prelude.{◌≡◌};
ghost use Rattle.mm_model.specs.Audit.{use_text};

use mm_model::WordUse;

/// The name of a use, as the lines of an audit have it.
pub fn use_name(how: WordUse) -> &'static str
    ensures { result.now ≡ use_text how }
{
    match how {
        WordUse::Touch => "touch",
        WordUse::Write => "write",
    }
}

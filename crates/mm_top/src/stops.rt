//! Why a command stops, given what the auditor and the sweeper answer.

ghost use Rattle.std.specs.Prelude.{◌≡◌};
ghost use Rattle.mm_top.specs.Stops.{stop_of_extract, stop_of_sweep};

use mm_audit::ExtractError;
use mm_load::{CommandError, Refusal};
use mm_sweep::SweepError;

/// Why the command stops if groups cannot be extracted.
pub fn stop_of_extract(error: ExtractError) -> CommandError
    ensures { result ≡ stop_of_extract error }
{
    match error {
        ExtractError::NoGroup => CommandError::Refused(Refusal::NoGroup),
        ExtractError::Crosses { slot } => CommandError::Refused(Refusal::Crosses { slot }),
        ExtractError::NoMemory => CommandError::NoMemory,
    }
}

/// Why the command stops if a range cannot be swept.
pub fn stop_of_sweep(error: SweepError) -> CommandError
    ensures { result ≡ stop_of_sweep error }
{
    match error {
        SweepError::Held { slot } => CommandError::Refused(Refusal::Held { slot }),
        SweepError::Privileged { group } => CommandError::Refused(Refusal::Privileged { group }),
        SweepError::NoMemory => CommandError::NoMemory,
    }
}

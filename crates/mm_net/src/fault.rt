//! Why a text has no links or no events.

ghost use Rattle.std.specs.Prelude.{◌≡◌};
ghost use Rattle.mm_net.specs.Errors.{net_error};

use mm_sched::SchedError;

/// Why a text has no links or no events.
#[derive(Clone, Copy, Debug, PartialEq, Eq, thiserror::Error)]
pub enum NetError {
    /// The first word that is no item, or whose item breaks a rule, begins at `offset`, in bytes.
    #[error("fault at {offset}")]
    Fault { offset: u64 },
    #[error("out of memory")]
    NoMemory,
}

/// Makes an error of `read_items` one of links or of events.
impl From<SchedError> for NetError {
    ghost from_gives = { λ error net. net ≡ net_error error };

    fn from(error: SchedError) -> NetError {
        match error {
            SchedError::Fault { offset } => NetError::Fault { offset },
            SchedError::NoMemory => NetError::NoMemory,
        }
    }
}

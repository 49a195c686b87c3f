// Why a folder is refused.
ghost use Rattle.std.specs.Prelude.{◌≡◌};

use sj_names::{NoMemory, Text};
use thiserror::Error;

/// Why there is nothing reached.
#[derive(Debug, Drop, Error)]
pub enum ReachError {
    /// A reference doesn't resolve: the code, 12 to 16, and the place, a class or a member of it.
    #[error("{code} at {place}")]
    Refused { code: u8, place: Text },
    /// No memory was left.
    #[error("no memory is left")]
    NoMemory,
}

impl From<NoMemory> for ReachError {
    ghost use Rattle.sj_reach.specs.declared.errors.ReachError.TheVariants.{NoMemory};

    ghost from_gives = { λ _ e. e ≡ NoMemory };

    fn from(_error: NoMemory) -> ReachError {
        ReachError::NoMemory
    }
}

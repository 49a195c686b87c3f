// Why a folder isn't accepted.
ghost use Rattle.std.specs.Prelude.{◌≡◌};

use sj_names::{NoMemory, Text};
use std::alloc::AllocFailed;
use thiserror::Error;

/// Why a folder isn't accepted.
#[derive(Debug, Drop, Error)]
pub enum JudgeError {
    /// The verdict is a refusal, with this code and place.
    #[error("refused {code} at {place}")]
    Refused { code: u8, place: Text },
    /// No memory was left.
    #[error("no memory is left")]
    NoMemory,
}

impl From<NoMemory> for JudgeError {
    ghost use Rattle.folder_judging.specs.declared.errors.JudgeError.TheVariants.{NoMemory};

    ghost from_gives = { λ _ e. e ≡ NoMemory };

    fn from(_error: NoMemory) -> JudgeError {
        JudgeError::NoMemory
    }
}

impl<T: Drop> From<AllocFailed<T>> for JudgeError {
    ghost use Rattle.folder_judging.specs.declared.errors.JudgeError.TheVariants.{NoMemory};

    ghost from_gives = { λ _ e. e ≡ NoMemory };

    fn from(_error: AllocFailed<T>) -> JudgeError {
        JudgeError::NoMemory
    }
}

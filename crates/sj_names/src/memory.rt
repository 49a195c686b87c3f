// Want of memory, and the refusal of a text that is no name.
ghost use Rattle.std.specs.Prelude.{◌≡◌};

use std::alloc::{AllocError, AllocFailed};
use thiserror::Error;

/// No memory was left. The value on which the call was made is as it was, unless the call says otherwise.
#[derive(Clone, Copy, Debug, PartialEq, Eq, Error)]
#[error("no memory is left")]
pub struct NoMemory;

impl From<AllocError> for NoMemory {
    fn from(_error: AllocError) -> NoMemory {
        NoMemory
    }
}

impl<T: Drop> From<AllocFailed<T>> for NoMemory {
    fn from(_error: AllocFailed<T>) -> NoMemory {
        NoMemory
    }
}

/// Why a text gives no name.
#[derive(Clone, Copy, Debug, PartialEq, Eq, Error)]
pub enum NameError {
    /// The text isn't in the grammar of the name.
    #[error("the text is no such name")]
    BadName,
    /// No memory was left.
    #[error("no memory is left")]
    NoMemory,
}

impl From<AllocError> for NameError {
    ghost use Rattle.sj_names.specs.declared.memory.NameError.TheVariants.{NoMemory};

    ghost from_gives = { λ _ e. e ≡ NoMemory };

    fn from(_error: AllocError) -> NameError {
        NameError::NoMemory
    }
}

impl<T: Drop> From<AllocFailed<T>> for NameError {
    ghost use Rattle.sj_names.specs.declared.memory.NameError.TheVariants.{NoMemory};

    ghost from_gives = { λ _ e. e ≡ NoMemory };

    fn from(_error: AllocFailed<T>) -> NameError {
        NameError::NoMemory
    }
}

impl From<NoMemory> for NameError {
    ghost use Rattle.sj_names.specs.declared.memory.NameError.TheVariants.{NoMemory};

    ghost from_gives = { λ _ e. e ≡ NoMemory };

    fn from(_error: NoMemory) -> NameError {
        NameError::NoMemory
    }
}

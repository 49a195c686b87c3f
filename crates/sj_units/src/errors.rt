// The refusal of bytes that are no text.
ghost use Rattle.std.specs.Prelude.{◌≡◌};

use sj_names::NoMemory;
use std::alloc::AllocFailed;
use thiserror::Error;

/// Why bytes give no text.
#[derive(Clone, Copy, Debug, PartialEq, Eq, Error)]
pub enum UnitsError {
    /// The bytes aren't modified UTF-8.
    #[error("the bytes are not modified UTF-8")]
    BadText,
    /// No memory was left.
    #[error("no memory is left")]
    NoMemory,
}

impl<T: Drop> From<AllocFailed<T>> for UnitsError {
    ghost use Rattle.sj_units.specs.declared.errors.UnitsError.TheVariants.{NoMemory};

    ghost from_gives = { λ _ e. e ≡ NoMemory };

    fn from(_error: AllocFailed<T>) -> UnitsError {
        UnitsError::NoMemory
    }
}

impl From<NoMemory> for UnitsError {
    ghost use Rattle.sj_units.specs.declared.errors.UnitsError.TheVariants.{NoMemory};

    ghost from_gives = { λ _ e. e ≡ NoMemory };

    fn from(_error: NoMemory) -> UnitsError {
        UnitsError::NoMemory
    }
}

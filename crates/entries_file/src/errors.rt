// Why a file gives no entries.
ghost use Rattle.std.specs.Prelude.{◌≡◌};

use sj_names::NoMemory;
use std::alloc::AllocFailed;
use thiserror::Error;

/// Why an entries file gives no entries.
#[derive(Clone, Copy, Debug, PartialEq, Eq, Error)]
pub enum EntriesError {
    /// The line of this number is the first bad one; 0 where no line is at fault.
    #[error("the entries file is bad")]
    BadLine(u32),
    /// No memory was left.
    #[error("no memory is left")]
    NoMemory,
}

impl<T: Drop> From<AllocFailed<T>> for EntriesError {
    ghost use Rattle.entries_file.specs.declared.errors.EntriesError.TheVariants.{NoMemory};

    ghost from_gives = { λ _ e. e ≡ NoMemory };

    fn from(_error: AllocFailed<T>) -> EntriesError {
        EntriesError::NoMemory
    }
}

impl From<NoMemory> for EntriesError {
    ghost use Rattle.entries_file.specs.declared.errors.EntriesError.TheVariants.{NoMemory};

    ghost from_gives = { λ _ e. e ≡ NoMemory };

    fn from(_error: NoMemory) -> EntriesError {
        EntriesError::NoMemory
    }
}

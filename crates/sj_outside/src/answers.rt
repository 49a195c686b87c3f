// What the calls answer.
ghost use Rattle.std.specs.Prelude.{◌≡◌};

use sj_names::{Bytes, NoMemory, Text};
use std::alloc::{AllocError, AllocFailed};
use thiserror::Error;

/// Why a call of the outside answers nothing.
#[derive(Clone, Copy, Debug, PartialEq, Eq, Error)]
pub enum OutsideError {
    /// The outside refused the call. The object's count of faults rose in it.
    #[error("the outside failed")]
    Failed,
    /// No memory was left.
    #[error("no memory is left")]
    NoMemory,
}

impl From<AllocError> for OutsideError {
    ghost use Rattle.sj_outside.specs.declared.answers.OutsideError.TheVariants.{NoMemory};

    ghost from_gives = { λ _ e. e ≡ NoMemory };

    fn from(_error: AllocError) -> OutsideError {
        OutsideError::NoMemory
    }
}

impl<T: Drop> From<AllocFailed<T>> for OutsideError {
    ghost use Rattle.sj_outside.specs.declared.answers.OutsideError.TheVariants.{NoMemory};

    ghost from_gives = { λ _ e. e ≡ NoMemory };

    fn from(_error: AllocFailed<T>) -> OutsideError {
        OutsideError::NoMemory
    }
}

impl From<NoMemory> for OutsideError {
    ghost use Rattle.sj_outside.specs.declared.answers.OutsideError.TheVariants.{NoMemory};

    ghost from_gives = { λ _ e. e ≡ NoMemory };

    fn from(_error: NoMemory) -> OutsideError {
        OutsideError::NoMemory
    }
}

/// One entry of a folder: a file or a folder.
#[derive(Debug, PartialEq, Eq, PartialOrd, Ord, Drop)]
pub struct Entry {
    pub name: Text,
    pub is_folder: bool,
}

/// A file that was put: the folder `out`, the number of the edit, the file's name and its bytes.
#[derive(Drop)]
pub struct PutFile {
    pub out: Text,
    pub edit: u32,
    pub name: Text,
    pub bytes: Bytes,
}

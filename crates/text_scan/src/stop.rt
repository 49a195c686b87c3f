//! Why a reader stopped.
ghost use Rattle.std.specs.Prelude.{◌≡◌};

use sj_names::NoMemory;
use std::alloc::{AllocError, AllocFailed};

/// Why a reader stopped: the bytes that were left there, or want of memory.
#[derive(Clone, Copy)]
pub enum Stop {
    /// No text of the kind goes on here, and so many bytes were left.
    Bad(usize),
    /// No memory was left.
    NoMemory,
}

impl From<NoMemory> for Stop {
    ghost use Rattle.text_scan.specs.declared.stop.Stop.TheVariants.{NoMemory};

    ghost from_gives = { λ _ e. e ≡ NoMemory };

    fn from(_error: NoMemory) -> Stop {
        Stop::NoMemory
    }
}

impl From<AllocError> for Stop {
    ghost use Rattle.text_scan.specs.declared.stop.Stop.TheVariants.{NoMemory};

    ghost from_gives = { λ _ e. e ≡ NoMemory };

    fn from(_error: AllocError) -> Stop {
        Stop::NoMemory
    }
}

impl<T: Drop> From<AllocFailed<T>> for Stop {
    ghost use Rattle.text_scan.specs.declared.stop.Stop.TheVariants.{NoMemory};

    ghost from_gives = { λ _ e. e ≡ NoMemory };

    fn from(_error: AllocFailed<T>) -> Stop {
        Stop::NoMemory
    }
}

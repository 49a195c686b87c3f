// Why a run ends early.
ghost use Rattle.std.specs.Prelude.{◌≡◌};
ghost use Rattle.sjsir.specs.Printing.{status_after};

use crate::answers::Status;
use sj_names::NoMemory;
use std::alloc::AllocFailed;

/// Why a run ends early.
#[derive(Clone, Copy, Debug, PartialEq, Eq)]
pub enum Stop {
    /// A file could not be read.
    ReadFault,
    /// A file or a line could not be written.
    WriteFault,
    /// No memory was left.
    NoMemory,
}

impl Stop {
    /// The status of the run.
    pub fn status(self) -> Status
        ensures { result ≡ status_after self }
    {
        match self {
            Stop::ReadFault => Status::ReadFault,
            Stop::WriteFault => Status::WriteFault,
            Stop::NoMemory => Status::NoMemory,
        }
    }
}

impl From<NoMemory> for Stop {
    ghost use Rattle.std.specs.Prelude.{◌≡◌};
    ghost use Rattle.sjsir.specs.declared.stops.Stop.TheVariants.{NoMemory};

    ghost from_gives = { λ _ e. e ≡ NoMemory };

    fn from(_error: NoMemory) -> Stop {
        Stop::NoMemory
    }
}

impl<T: Drop> From<AllocFailed<T>> for Stop {
    ghost use Rattle.std.specs.Prelude.{◌≡◌};
    ghost use Rattle.sjsir.specs.declared.stops.Stop.TheVariants.{NoMemory};

    ghost from_gives = { λ _ e. e ≡ NoMemory };

    fn from(_error: AllocFailed<T>) -> Stop {
        Stop::NoMemory
    }
}

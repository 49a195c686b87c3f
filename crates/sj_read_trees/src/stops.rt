// Why a reader stops.
ghost use Rattle.std.specs.Prelude.{◌≡◌};
ghost use Rattle.sj_read_spec.specs.Reading.{fault};

use sj_names::NoMemory;
use sj_read_spec::Fault;
use sj_trees::Code;
use std::alloc::AllocFailed;

/// Why a reader stops: at a fault of the file, or for want of memory.
#[derive(Clone, Copy, Debug, PartialEq, Eq)]
pub enum Stop {
    NoMemory,
    Bad(Fault),
}

impl From<NoMemory> for Stop {
    ghost use Rattle.sj_read_trees.specs.declared.stops.Stop.TheVariants.{NoMemory};

    ghost from_gives = { λ _ e. e ≡ NoMemory };

    fn from(_error: NoMemory) -> Stop {
        Stop::NoMemory
    }
}

impl<T: Drop> From<AllocFailed<T>> for Stop {
    ghost use Rattle.sj_read_trees.specs.declared.stops.Stop.TheVariants.{NoMemory};

    ghost from_gives = { λ _ e. e ≡ NoMemory };

    fn from(_error: AllocFailed<T>) -> Stop {
        Stop::NoMemory
    }
}

/// The fault of this code where `bytes` are left.
pub fn bad(code: Code, bytes: &[u8]) -> Stop
    ensures { result ≡ Stop.Bad (fault code bytes.now) }
{
    Stop::Bad(Fault {
        code,
        left: bytes.len(),
    })
}

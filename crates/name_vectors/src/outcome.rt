// Why a case isn't decided.
ghost use Rattle.name_vectors.specs.Taken.{IsNameTaken, AreUnitsTaken};

use hex::FromHexError;
use sj_names::{NameError, NoMemory};
use sj_units::UnitsError;
use std::alloc::AllocFailed;

/// The case isn't decided: no memory was left, or its text isn't hexadecimal.
#[derive(Clone, Copy, Debug)]
pub struct Undecided;

impl<T: Drop> From<AllocFailed<T>> for Undecided {
    fn from(_error: AllocFailed<T>) -> Undecided {
        Undecided
    }
}

impl From<NoMemory> for Undecided {
    fn from(_error: NoMemory) -> Undecided {
        Undecided
    }
}

impl From<FromHexError> for Undecided {
    fn from(_error: FromHexError) -> Undecided {
        Undecided
    }
}

/// What a call that may refuse a text has taken: none where it refused. The case isn't decided where no memory was left.
pub fn taken_name<T: Drop>(outcome: Result<T, NameError>) -> Result<Option<T>, Undecided>
    ensures { IsNameTaken outcome result }
{
    match outcome {
        Ok(name) => Ok(Some(name)),
        Err(NameError::BadName) => Ok(None),
        Err(NameError::NoMemory) => Err(Undecided),
    }
}

/// What a call that may refuse bytes has taken: none where it refused. The case isn't decided where no memory was left.
pub fn taken_units<T: Drop>(outcome: Result<T, UnitsError>) -> Result<Option<T>, Undecided>
    ensures { AreUnitsTaken outcome result }
{
    match outcome {
        Ok(units) => Ok(Some(units)),
        Err(UnitsError::BadText) => Ok(None),
        Err(UnitsError::NoMemory) => Err(Undecided),
    }
}

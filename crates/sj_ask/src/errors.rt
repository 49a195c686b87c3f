// Why a method has no type.
ghost use Rattle.std.specs.Prelude.{◌≡◌};

use sj_names::NoMemory;
use std::alloc::AllocFailed;
use thiserror::Error;

/// Why the check of a method's types ends.
#[derive(Clone, Copy, Debug, PartialEq, Eq, Error)]
pub enum TypeError {
    /// A tree doesn't meet the rule of its form: the tag of that form, and the number of the tree, parents first, from 0. Where the body
    /// doesn't yield the method's result, both are 0.
    #[error("the tree {place} breaks rule {rule}")]
    Refused { rule: u8, place: u32 },
    /// No memory was left.
    #[error("no memory is left")]
    NoMemory,
}

impl<T: Drop> From<AllocFailed<T>> for TypeError {
    ghost use Rattle.sj_ask.specs.declared.errors.TypeError.TheVariants.{NoMemory};

    ghost from_gives = { λ _ e. e ≡ NoMemory };

    fn from(_error: AllocFailed<T>) -> TypeError {
        TypeError::NoMemory
    }
}

impl From<NoMemory> for TypeError {
    ghost use Rattle.sj_ask.specs.declared.errors.TypeError.TheVariants.{NoMemory};

    ghost from_gives = { λ _ e. e ≡ NoMemory };

    fn from(_error: NoMemory) -> TypeError {
        TypeError::NoMemory
    }
}

// The lines that are printed.
ghost use Rattle.std.specs.Prelude.{◌≡◌, ℕ, List, [], Option, OnOk, OnErr};
ghost use Rattle.sj_outside.specs.Faults.{HasCause};
ghost use Rattle.sj_outside.specs.Writing.{Appends};

use crate::OutsideError;
use std::alloc::Global;

/// A place for lines.
///
/// `printed` is what an object holds, where it tells that. `faults` counts what failed, and never falls.
pub trait Lines {
    ghost printed: { Self → Option (List ℕ) };

    ghost faults: { Self → ℕ };

    /// Appends the bytes of `text`.
    ///
    /// `Failed` only where `faults` rose in this call. An object that tells what it holds leaves that at an error.
    fn line(&mut self, alloc: Global, text: &[u8]) -> Result<(), OutsideError>
        ensures line { OnOk result (Appends (printed self.old) (printed self.new) text.now) }
        ensures unchanged { OnErr result (Appends (printed self.old) (printed self.new) []) }
        ensures cause { HasCause (faults self.old) (faults self.new) result };
}

// The files that are written.
ghost use Rattle.std.specs.Prelude.{◌≡◌, ℕ, List, [], ◌∷◌, Option, OnOk, OnErr};
ghost use Rattle.sj_outside.specs.declared.answers.PutFile.{PutFile};
ghost use Rattle.sj_outside.specs.Faults.{HasCause};
ghost use Rattle.sj_outside.specs.Writing.{Appends};

use crate::OutsideError;
use std::alloc::Global;

/// A place for files.
///
/// `puts` is the list of the files that an object holds, where it tells that. `faults` counts what failed, and never falls.
pub trait Outputs {
    ghost puts: { Self → Option (List PutFile) };

    ghost faults: { Self → ℕ };

    /// Puts the file `name` of the edit numbered `edit` into the folder `out`.
    ///
    /// `Failed` only where `faults` rose in this call. An object that tells what it holds leaves that at an error.
    fn put(
        &mut self,
        alloc: Global,
        out: &str,
        edit: u32,
        name: &str,
        bytes: &[u8],
    ) -> Result<(), OutsideError>
        ensures put { let file : PutFile = record { out = out.now; edit = edit; name = name.now; bytes = bytes.now } in
            OnOk result (Appends (puts self.old) (puts self.new) (file ∷ [])) }
        ensures unchanged { OnErr result (Appends (puts self.old) (puts self.new) []) }
        ensures cause { HasCause (faults self.old) (faults self.new) result };
}

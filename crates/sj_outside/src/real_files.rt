// Real files that are written.
ghost use Rattle.std.specs.Prelude.{◌≡◌, [], ◌∷◌, None, OnOk, OnErr};
ghost use Rattle.sj_outside.specs.declared.answers.PutFile.{PutFile};
ghost use Rattle.sj_outside.specs.Faults.{HasCause, faults_after};
ghost use Rattle.sj_outside.specs.Writing.{Appends};

use crate::real::{failure, write_file};
use crate::{Outputs, OutsideError};
use std::alloc::Global;
use std::rt::Files;

/// Real files. They don't tell what they hold.
#[derive(Drop)]
pub struct RealFiles<'r, R> {
    rt: &'r R,
    /// How many calls failed.
    pub faults: u64,
}

impl<'r, R: Files> RealFiles<'r, R> {
    /// The files that `rt` reaches.
    pub fn new(rt: &'r R) -> RealFiles<'r, R>
        ensures { result.faults ≡ 0 }
    {
        RealFiles { rt, faults: 0 }
    }
}

impl<R: Files> Outputs for RealFiles<'_, R> {
    ghost puts = { λ _. None };

    ghost faults = { λ s. s.faults };

    /// Writes the file at the path `name`, in place of what it held. There is one folder and one edit, so these play no part.
    fn put(
        &mut self,
        _alloc: Global,
        out: &str,
        edit: u32,
        name: &str,
        bytes: &[u8],
    ) -> Result<(), OutsideError>
        ensures put { let file : PutFile = record { out = out.now; edit = edit; name = name.now; bytes = bytes.now } in
            OnOk result (Appends None None (file ∷ [])) }
        ensures unchanged { OnErr result (Appends {A = PutFile} None None []) }
        ensures cause { HasCause self.old.faults self.new.faults result }
        ensures counted { self.new.faults ≡ faults_after result self.old.faults }
    {
        match write_file(self.rt, name, bytes) {
            Ok(()) => Ok(()),
            Err(error) => Err(failure(&mut self.faults, error)),
        }
    }
}

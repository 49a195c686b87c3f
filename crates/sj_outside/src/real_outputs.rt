// Files that are put into real folders.
ghost use Rattle.std.specs.Prelude.{◌≡◌, [], ◌∷◌, None, OnOk, OnErr};
ghost use Rattle.sj_outside.specs.declared.answers.PutFile.{PutFile};
ghost use Rattle.sj_outside.specs.Faults.{HasCause, faults_after};
ghost use Rattle.sj_outside.specs.Writing.{Appends};

use crate::real::{failure, write_file};
use crate::{Outputs, OutsideError};
use std::alloc::Global;
use std::rt::Files;
use std::{fs, io};

/// Real folders, into which files are put. They don't tell what they hold.
#[derive(Drop)]
pub struct RealOutputs<'r, R> {
    rt: &'r R,
    /// How many calls failed.
    pub faults: u64,
}

impl<'r, R: Files> RealOutputs<'r, R> {
    /// The folders that `rt` reaches.
    pub fn new(rt: &'r R) -> RealOutputs<'r, R>
        ensures { result.faults ≡ 0 }
    {
        RealOutputs { rt, faults: 0 }
    }
}

impl<R: Files> Outputs for RealOutputs<'_, R> {
    ghost puts = { λ _. None };

    ghost faults = { λ s. s.faults };

    /// Writes `OUT/K/name`, K the edit's number in decimal, and makes the folders that are missing.
    fn put(
        &mut self,
        alloc: Global,
        out: &str,
        edit: u32,
        name: &str,
        bytes: &[u8],
    ) -> Result<(), OutsideError>
        ensures put { let file : PutFile = record { out = out.now; edit = edit; name = name.now; bytes = bytes.now } in
            OnOk result (Appends None None (file ∷ [])) }
        ensures unchanged { OnErr result (Appends {A = PutFile} None None []) }
        ensures cause { HasCause self.old.faults self.new.faults result }
        ensures counted { self.new.faults ≡ faults_after result self.old.faults }
    {
        match put_file(self.rt, alloc, out, edit, name, bytes) {
            Ok(()) => Ok(()),
            Err(error) => Err(failure(&mut self.faults, error)),
        }
    }
}

/// Puts `bytes` as `OUT/K/name`: whole, or not at all. They are written beside under a name that no module has, which ends in `.part`, and that file
/// is renamed. So where the disk is full the file that stood there stays.
fn put_file<R: Files>(
    rt: &R,
    alloc: Global,
    out: &str,
    edit: u32,
    name: &str,
    bytes: &[u8],
) -> io::Result<()> {
    let folder = format!(in alloc; "{out}/{edit}")?;
    fs::create_dir_all(rt, folder.as_str())?;
    let path = format!(in alloc; "{folder}/{name}")?;
    let beside = format!(in alloc; "{folder}/.{name}.part")?;
    let replaced = match write_file(rt, beside.as_str(), bytes) {
        Ok(()) => fs::rename(rt, beside.as_str(), path.as_str()),
        Err(error) => Err(error),
    };
    if replaced.is_err() {
        let _ = fs::remove_file(rt, beside.as_str());
    }
    replaced
}

// Real folders that are read.
ghost use Rattle.std.specs.Prelude.{◌≡◌, ◌≤◌, [], None, IfOk, IsTrue, length, map};
ghost use Rattle.std.specs.Ordering.{nat_cmp, is_lt};
ghost use Rattle.std.specs.Cmp.Lexicographic.{slice_cmp};
ghost use Rattle.sj_outside.specs.Contents.{entry_name, are_names};
ghost use Rattle.sj_outside.specs.Faults.{HasCause, faults_after};
ghost use Rattle.sj_outside.specs.Reading.{Lists, Reads};
ghost use Rattle.sj_outside.specs.Increasing.{are_increasing};

use crate::names::is_name;
use crate::real::failure;
use crate::{Entry, Folders, OutsideError};
use sj_names::Text;
use std::alloc::Global;
use std::io::{ErrorKind, Read};
use std::rt::Files;
use std::{fs, io};

/// A folder of more entries than this isn't listed.
pub const MOST_ENTRIES: usize = 1_000_000;

/// Real folders. They don't tell what they hold.
#[derive(Drop)]
pub struct RealFolders<'r, R> {
    rt: &'r R,
    /// How many calls failed.
    pub faults: u64,
}

impl<'r, R: Files + AllocGlobal + Clone + Drop> RealFolders<'r, R> {
    /// The folders that `rt` reaches.
    pub fn new(rt: &'r R) -> RealFolders<'r, R>
        ensures { result.faults ≡ 0 }
    {
        RealFolders { rt, faults: 0 }
    }
}

impl<R: Files + AllocGlobal + Clone + Drop> Folders for RealFolders<'_, R> {
    ghost use Rattle.std.specs.Prelude.{None, refl};

    ghost holds = { λ _. None };

    ghost faults = { λ s. s.faults };

    ghost missing = { λ _. 0 };

    ghost untold = { λ _ _. refl };

    /// Fails also where a name isn't UTF-8, is empty, holds `/` or comes twice, and where there are more than 1,000,000
    /// entries. The entries come in the order of their names. A symbolic link is no folder.
    fn list(&mut self, alloc: Global, path: &str) -> Result<Vec<Entry>, OutsideError>
        ensures entries { IfOk result (λ v. Lists None path.now v.items) }
        ensures names { IfOk result (λ v. IsTrue (are_names (map entry_name v.items))) }
        ensures cause { HasCause self.old.faults self.new.faults result }
        ensures counted { self.new.faults ≡ faults_after result self.old.faults }
    {
        match entries_of_folder(self.rt, alloc, path) {
            Ok(entries) => Ok(entries),
            Err(error) => Err(failure(&mut self.faults, error)),
        }
    }

    fn read(&mut self, alloc: Global, path: &str, most: usize) -> Result<Vec<u8>, OutsideError>
        ensures bytes { IfOk result (λ v. Reads None path.now most v.items) }
        ensures most { IfOk result (λ v. length v.items ≤ most) }
        ensures cause { HasCause self.old.faults self.new.faults result }
        ensures counted { self.new.faults ≡ faults_after result self.old.faults }
    {
        match front_of_file(self.rt, alloc, path, most) {
            Ok(bytes) => Ok(bytes),
            Err(error) => Err(failure(&mut self.faults, error)),
        }
    }
}

#[tactic(auto, using(crate::proofs::Increasing::increasing))]
fn entries_of_folder<R: Files + AllocGlobal + Clone + Drop>(
    rt: &R,
    alloc: Global,
    path: &str,
) -> io::Result<Vec<Entry>>
    ensures { IfOk result (λ v. IsTrue (are_names (map entry_name v.items))) }
{
    let mut entries = Vec::new(alloc);
    for found in fs::read_dir(rt, path)? {
        if entries.len() == MOST_ENTRIES {
            return Err(io::Error::from(ErrorKind::Other));
        }
        let found = found?;
        let is_folder = found.file_type()?.is_dir();
        let Ok(name) = Text::from_str(alloc, found.file_name()) else {
            return Err(io::Error::from(ErrorKind::OutOfMemory));
        };
        entries.push(Entry { name, is_folder })?;
    }
    entries.sort()?;
    if !are_increasing(entries.as_slice()) {
        return Err(io::Error::from(ErrorKind::InvalidFilename));
    }
    Ok(entries)
}

// Whether the entries' names are names, each above the one before it.
fn are_increasing(entries: &[Entry]) -> bool
    ensures { result ≡ are_increasing [] (map entry_name entries.now) }
{
    let mut previous: &[u8] = &[];
    for entry in entries {
        let name = entry.name.as_str().as_bytes();
        if !is_above(previous, name) || !is_name(name) {
            return false;
        }
        previous = name;
    }
    true
}

fn is_above(least: &[u8], name: &[u8]) -> bool
    ensures { result ≡ is_lt (slice_cmp nat_cmp least.now name.now) }
{
    least.cmp(name).is_lt()
}

fn front_of_file<R: Files>(rt: &R, alloc: Global, path: &str, most: usize) -> io::Result<Vec<u8>>
    ensures { IfOk result (λ v. length v.items ≤ most) }
{
    let mut file = fs::open(rt, path)?;
    let mut bytes = Vec::new(alloc);
    let mut buffer = [0u8; 16384];
    for _ in 0..u64::MAX {
        let wanted = buffer.len().min(most - bytes.len());
        let count = file.read(&mut buffer[..wanted])?;
        if count == 0 {
            break;
        }
        bytes.extend_from_slice(&buffer[..count])?;
    }
    Ok(bytes)
}

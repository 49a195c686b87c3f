// Folders in memory.
ghost use Rattle.std.specs.Prelude.{◌≡◌, ◌≤◌, ◌↔◌, ◌||◌, Some, IfOk, IsErrOf, IsTrue, length, map, take};
ghost use Rattle.sj_outside.specs.Contents.{are_names, entry_name};
ghost use Rattle.sj_outside.specs.Faults.{HasCause, IsMissing, Rose};
ghost use Rattle.sj_outside.specs.Holding.{contents_view};
ghost use Rattle.sj_names.specs.Counting.{raised};
ghost use Rattle.sj_outside.specs.InMemory.{after_call, failed, is_due};
ghost use Rattle.sj_outside.specs.Reading.{Lists, Reads, lacks_file, lacks_folder};

use crate::parts::entries;
use crate::{Calls, Contents, Entry, Folders, OutsideError};
use sj_names::NoMemory;
use std::alloc::Global;

/// Folders that are kept in memory, and calls of which some are to fail.
#[derive(Drop)]
pub struct FoldersInMemory {
    pub contents: Contents,
    pub calls: Calls,
    pub missing: u64,
}

impl FoldersInMemory {
    /// These contents. The calls with the numbers in `failing` fail, where the first call has the number 1.
    pub fn new(contents: Contents, failing: Vec<u64>) -> FoldersInMemory
        ensures contents { result.contents ≡ contents }
        ensures calls { result.calls ≡ record { failing = failing.items; made = 0; faults = 0 } }
        ensures missing { result.missing ≡ 0 }
    {
        FoldersInMemory {
            contents,
            calls: Calls::new(failing),
            missing: 0,
        }
    }

    fn miss(&mut self)
        ensures contents { self.new.contents ≡ self.old.contents }
        ensures calls { self.new.calls ≡ failed self.old.calls }
        ensures missing { self.new.missing ≡ raised self.old.missing }
        ensures faults_rose { Rose self.old.calls.faults self.new.calls.faults }
        ensures missing_rose { Rose self.old.missing self.new.missing }
    {
        self.calls.fail();
        self.missing = self.missing.saturating_add(1);
    }
}

impl Folders for FoldersInMemory {
    ghost holds = { λ s. Some (contents_view s.contents) };

    ghost faults = { λ s. s.calls.faults };

    ghost missing = { λ s. s.missing };

    ghost untold = { λ s h. Prim.cc };

    /// `Failed` exactly where the call's number is among those that are to fail, or no folder is held at `path`.
    #[tactic(auto, using(std::proofs::lemmas::Grind::common_steps, crate::proofs::Wellness::wellness))]
    fn list(&mut self, alloc: Global, path: &str) -> Result<Vec<Entry>, OutsideError>
        ensures same { contents_view self.new.contents ≡ contents_view self.old.contents }
        ensures entries { IfOk result (λ v. Lists (Some (contents_view self.old.contents)) path.now v.items) }
        ensures names { IfOk result (λ v. IsTrue (are_names (map entry_name v.items))) }
        ensures cause { HasCause self.old.calls.faults self.new.calls.faults result }
        ensures missing { IsMissing (lacks_folder (Some (contents_view self.old.contents)) path.now) self.old.missing self.new.missing result }
        ensures fails { IsErrOf result OutsideError.Failed
            ↔ IsTrue (is_due self.old.calls || lacks_folder (Some (contents_view self.old.contents)) path.now) }
        ensures calls { self.new.calls ≡ after_call result self.old.calls }
    {
        let is_due = self.calls.begin();
        let Some(parts) = self.contents.folder_at(path) else {
            self.miss();
            return Err(OutsideError::Failed);
        };
        if is_due {
            self.calls.fail();
            return Err(OutsideError::Failed);
        }
        let entries = entries(alloc, parts)?;
        Ok(entries)
    }

    /// `Failed` exactly where the call's number is among those that are to fail, or no file is held at `path`.
    fn read(&mut self, alloc: Global, path: &str, most: usize) -> Result<Vec<u8>, OutsideError>
        ensures same { contents_view self.new.contents ≡ contents_view self.old.contents }
        ensures bytes { IfOk result (λ v. Reads (Some (contents_view self.old.contents)) path.now most v.items) }
        ensures most { IfOk result (λ v. length v.items ≤ most) }
        ensures cause { HasCause self.old.calls.faults self.new.calls.faults result }
        ensures missing { IsMissing (lacks_file (Some (contents_view self.old.contents)) path.now) self.old.missing self.new.missing result }
        ensures fails { IsErrOf result OutsideError.Failed
            ↔ IsTrue (is_due self.old.calls || lacks_file (Some (contents_view self.old.contents)) path.now) }
        ensures calls { self.new.calls ≡ after_call result self.old.calls }
    {
        let is_due = self.calls.begin();
        let Some(bytes) = self.contents.file_at(path) else {
            self.miss();
            return Err(OutsideError::Failed);
        };
        if is_due {
            self.calls.fail();
            return Err(OutsideError::Failed);
        }
        let bytes = front(alloc, bytes.as_slice(), most)?;
        Ok(bytes)
    }
}

fn front(alloc: Global, bytes: &[u8], most: usize) -> Result<Vec<u8>, NoMemory>
    ensures bytes { IfOk result (λ v. v.items ≡ take most bytes.now) }
    ensures most { IfOk result (λ v. length v.items ≤ most) }
{
    let front = if bytes.len() > most {
        &bytes[..most]
    } else {
        bytes
    };
    Ok(front.to_vec(alloc)?)
}

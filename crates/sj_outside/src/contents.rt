// The contents of folders in memory, in which each folder's parts have names, each of them once.
ghost use Rattle.std.specs.Prelude.{◌≡◌, ◌↔◌, false, IfOk, IfSome, IsErrOf, IsTrue, option_map, true};
ghost use Rattle.sj_outside.specs.Contents.{file_at, file_part, folder_at, folder_part, is_new, is_well, no_parts};
ghost use Rattle.sj_outside.specs.View.{parts_view};

use crate::parts::{Found, Part, found_at, is_new};
use sj_names::{Bytes, NoMemory, Text};
use std::alloc::{AllocFailed, Global};
use thiserror::Error;

/// Why contents don't get a part.
#[derive(Clone, Copy, Debug, PartialEq, Eq, Error)]
pub enum ContentsError {
    /// The part's name is empty, holds `/`, or is that of another part.
    #[error("the name can't be given to a part")]
    BadName,
    /// No memory was left.
    #[error("no memory is left")]
    NoMemory,
}

impl<T: Drop> From<AllocFailed<T>> for ContentsError {
    ghost use Rattle.sj_outside.specs.declared.contents.ContentsError.TheVariants.{NoMemory};

    ghost from_gives = { λ _ e. e ≡ NoMemory };

    fn from(_error: AllocFailed<T>) -> ContentsError {
        ContentsError::NoMemory
    }
}

impl From<NoMemory> for ContentsError {
    ghost use Rattle.sj_outside.specs.declared.contents.ContentsError.TheVariants.{NoMemory};

    ghost from_gives = { λ _ e. e ≡ NoMemory };

    fn from(_error: NoMemory) -> ContentsError {
        ContentsError::NoMemory
    }
}

/// What folders in memory hold: a tree of names.
#[derive(Drop)]
pub struct Contents {
    parts: Vec<Part>,
    ghost well: { IsTrue (is_well (parts_view parts.items)) },
}

impl Contents {
    ghost use Rattle.sj_outside.specs.Holding.{contents_view};

    /// No file and no folder.
    pub fn new(alloc: Global) -> Contents
        ensures contents { contents_view result ≡ no_parts }
        ensures well { is_well (contents_view result) ≡ true }
    {
        Contents {
            parts: Vec::new(alloc),
        }
    }

    /// These contents with a further file, listed first. `BadName` exactly where the name is empty, holds `/`, or is that of
    /// a part.
    pub fn with_file(
        self,
        alloc: Global,
        name: &str,
        bytes: &[u8],
    ) -> Result<Contents, ContentsError>
        ensures contents { IfOk result (λ c. contents_view c ≡ file_part name.now bytes.now (contents_view self)) }
        ensures well { IfOk result (λ c. is_well (contents_view c) ≡ true) }
        ensures bad_name { IsErrOf result ContentsError.BadName ↔ (is_new name.now (contents_view self) ≡ false) }
    {
        let mut parts = self.parts;
        if !is_new(parts.as_slice(), name) {
            return Err(ContentsError::BadName);
        }
        let part = Part::File(
            Text::from_str(alloc, name)?,
            Bytes::from_slice(alloc, bytes)?,
        );
        parts.insert(0, part)?;
        Ok(Contents { parts })
    }

    /// These contents with a further folder that holds `inner`, listed first. `BadName` exactly where the name is empty,
    /// holds `/`, or is that of a part.
    pub fn with_folder(
        self,
        alloc: Global,
        name: &str,
        inner: Contents,
    ) -> Result<Contents, ContentsError>
        ensures contents { IfOk result (λ c. contents_view c ≡ folder_part name.now (contents_view inner) (contents_view self)) }
        ensures well { IfOk result (λ c. is_well (contents_view c) ≡ true) }
        ensures bad_name { IsErrOf result ContentsError.BadName ↔ (is_new name.now (contents_view self) ≡ false) }
    {
        let mut parts = self.parts;
        if !is_new(parts.as_slice(), name) {
            return Err(ContentsError::BadName);
        }
        let part = Part::Folder(Text::from_str(alloc, name)?, inner.parts);
        parts.insert(0, part)?;
        Ok(Contents { parts })
    }

    /// The parts of the folder at `path`, if one is held there.
    #[tactic(auto, using(std::proofs::lemmas::Grind::common_steps, crate::proofs::Wellness::wellness))]
    pub(crate) fn folder_at(&self, path: &str) -> Option<&[Part]>
        ensures parts { option_map (λ r. parts_view r.now) result ≡ folder_at (contents_view self.now) path.now }
        ensures well { IfSome result (λ r. IsTrue (is_well (parts_view r.now))) }
    {
        match found_at(self.parts.as_slice(), path)? {
            Found::File(_) => None,
            Found::Folder(parts) => Some(parts),
        }
    }

    /// The bytes of the file at `path`, if one is held there.
    pub fn file_at(&self, path: &str) -> Option<&Bytes>
        ensures bytes { option_map (λ r. r.now) result ≡ file_at (contents_view self.now) path.now }
        ensures well { is_well (contents_view self.now) ≡ true }
    {
        match found_at(self.parts.as_slice(), path)? {
            Found::File(bytes) => Some(bytes),
            Found::Folder(_) => None,
        }
    }
}

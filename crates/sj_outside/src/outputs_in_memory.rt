// Files that are put into memory.
ghost use Rattle.std.specs.Prelude.{◌≡◌, ◌↔◌, [], ◌∷◌, Some, OnOk, OnErr, IsErrOf, IsTrue};
ghost use Rattle.sj_outside.specs.declared.answers.PutFile.{PutFile};
ghost use Rattle.sj_outside.specs.Faults.{HasCause};
ghost use Rattle.sj_outside.specs.InMemory.{after_call, is_due};
ghost use Rattle.sj_outside.specs.Writing.{Appends};

use crate::{Calls, Outputs, OutsideError, PutFile};
use sj_names::{Bytes, Text};
use std::alloc::{AllocError, Global};

/// Files that are kept in memory, and calls of which some are to fail.
#[derive(Drop)]
pub struct OutputsInMemory {
    pub puts: Vec<PutFile>,
    pub calls: Calls,
}

impl OutputsInMemory {
    /// No file yet. The calls with the numbers in `failing` fail, where the first call has the number 1.
    pub fn new(alloc: Global, failing: Vec<u64>) -> OutputsInMemory
        ensures puts { result.puts.items ≡ [] }
        ensures calls { result.calls ≡ record { failing = failing.items; made = 0; faults = 0 } }
    {
        OutputsInMemory {
            puts: Vec::new(alloc),
            calls: Calls::new(failing),
        }
    }
}

impl Outputs for OutputsInMemory {
    ghost puts = { λ s. Some s.puts.items };

    ghost faults = { λ s. s.calls.faults };

    /// `Failed` exactly where the call's number is among those that are to fail.
    fn put(
        &mut self,
        alloc: Global,
        out: &str,
        edit: u32,
        name: &str,
        bytes: &[u8],
    ) -> Result<(), OutsideError>
        ensures put { let file : PutFile = record { out = out.now; edit = edit; name = name.now; bytes = bytes.now } in
            OnOk result (Appends (Some self.old.puts.items) (Some self.new.puts.items) (file ∷ [])) }
        ensures unchanged { OnErr result (Appends (Some self.old.puts.items) (Some self.new.puts.items) []) }
        ensures cause { HasCause self.old.calls.faults self.new.calls.faults result }
        ensures fails { IsErrOf result OutsideError.Failed ↔ IsTrue (is_due self.old.calls) }
        ensures calls { self.new.calls ≡ after_call result self.old.calls }
    {
        if self.calls.begin() {
            self.calls.fail();
            return Err(OutsideError::Failed);
        }
        let file = PutFile {
            out: Text::from_str(alloc, out)?,
            edit,
            name: Text::from_str(alloc, name)?,
            bytes: Bytes::from_slice(alloc, bytes)?,
        };
        self.puts.push(file)?;
        Ok(())
    }
}

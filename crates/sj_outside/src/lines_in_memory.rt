// Lines in memory.
ghost use Rattle.std.specs.Prelude.{◌≡◌, ◌↔◌, [], Some, OnOk, OnErr, IsErrOf, IsTrue};
ghost use Rattle.sj_outside.specs.Faults.{HasCause};
ghost use Rattle.sj_outside.specs.InMemory.{after_call, is_due};
ghost use Rattle.sj_outside.specs.Writing.{Appends};

use crate::{Calls, Lines, OutsideError};
use std::alloc::Global;

/// Lines that are kept in memory, and calls of which some are to fail.
#[derive(Drop)]
pub struct LinesInMemory {
    pub text: Vec<u8>,
    pub calls: Calls,
}

impl LinesInMemory {
    /// No line yet. The calls with the numbers in `failing` fail, where the first call has the number 1.
    pub fn new(alloc: Global, failing: Vec<u64>) -> LinesInMemory
        ensures text { result.text.items ≡ [] }
        ensures calls { result.calls ≡ record { failing = failing.items; made = 0; faults = 0 } }
    {
        LinesInMemory {
            text: Vec::new(alloc),
            calls: Calls::new(failing),
        }
    }
}

impl Lines for LinesInMemory {
    ghost printed = { λ s. Some s.text.items };

    ghost faults = { λ s. s.calls.faults };

    /// `Failed` exactly where the call's number is among those that are to fail.
    fn line(&mut self, _alloc: Global, text: &[u8]) -> Result<(), OutsideError>
        ensures line { OnOk result (Appends (Some self.old.text.items) (Some self.new.text.items) text.now) }
        ensures unchanged { OnErr result (Appends (Some self.old.text.items) (Some self.new.text.items) []) }
        ensures cause { HasCause self.old.calls.faults self.new.calls.faults result }
        ensures fails { IsErrOf result OutsideError.Failed ↔ IsTrue (is_due self.old.calls) }
        ensures calls { self.new.calls ≡ after_call result self.old.calls }
    {
        if self.calls.begin() {
            self.calls.fail();
            return Err(OutsideError::Failed);
        }
        self.text.extend_from_slice(text)?;
        Ok(())
    }
}

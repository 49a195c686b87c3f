// Lines on standard output.
ghost use Rattle.std.specs.Prelude.{◌≡◌, ℕ, [], None, OnOk, OnErr};
ghost use Rattle.sj_outside.specs.Faults.{HasCause, faults_after};
ghost use Rattle.sj_outside.specs.Writing.{Appends};

use crate::real::failure;
use crate::{Lines, OutsideError};
use std::alloc::Global;
use std::io;
use std::io::Write;

/// Standard output. It doesn't tell what was printed.
#[derive(Drop)]
pub struct RealLines<'r, R> {
    rt: &'r R,
    /// How many calls failed.
    pub faults: u64,
}

impl<'r, R: Print> RealLines<'r, R> {
    /// Lines that are printed by `rt`.
    pub fn new(rt: &'r R) -> RealLines<'r, R>
        ensures { result.faults ≡ 0 }
    {
        RealLines { rt, faults: 0 }
    }
}

impl<R: Print> Lines for RealLines<'_, R> {
    ghost printed = { λ _. None };

    ghost faults = { λ s. s.faults };

    fn line(&mut self, _alloc: Global, text: &[u8]) -> Result<(), OutsideError>
        ensures line { OnOk result (Appends None None text.now) }
        ensures unchanged { OnErr result (Appends {A = ℕ} None None []) }
        ensures cause { HasCause self.old.faults self.new.faults result }
        ensures counted { self.new.faults ≡ faults_after result self.old.faults }
    {
        match io::writer(self.rt).write_all(text) {
            Ok(()) => Ok(()),
            Err(error) => Err(failure(&mut self.faults, error)),
        }
    }
}

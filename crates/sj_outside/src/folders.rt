// The folders that are read.
ghost use Rattle.std.specs.Prelude.{◌≡◌, ℕ, ◌≤◌, Option, None, IfOk, IsTrue, length, map};
ghost use Rattle.sj_outside.specs.Contents.{Parts, entry_name, are_names};
ghost use Rattle.sj_outside.specs.Faults.{HasCause, IsMissing};
ghost use Rattle.sj_outside.specs.Reading.{Lists, Reads, lacks_folder, lacks_file};

use crate::{Entry, OutsideError};
use std::alloc::Global;

/// Folders that can be read.
///
/// `holds` is what an object holds, where it tells that. `faults` counts what failed, and never falls. `missing` counts the
/// calls that failed on a path that the object tells it doesn't hold; where it tells nothing, that is 0. A call leaves what
/// is held, whatever it answers.
pub trait Folders {
    ghost holds: { Self → Option Parts };

    ghost faults: { Self → ℕ };

    ghost missing: { Self → ℕ };

    /// The entries of the folder at `path`, each name once, nonempty and without `/`. Names in a path are separated by `/`.
    ///
    /// `Failed` only where `faults` rose in this call.
    fn list(&mut self, alloc: Global, path: &str) -> Result<Vec<Entry>, OutsideError>
        ensures same { holds self.new ≡ holds self.old }
        ensures entries { IfOk result (λ v. Lists (holds self.old) path.now v.items) }
        ensures names { IfOk result (λ v. IsTrue (are_names (map entry_name v.items))) }
        ensures cause { HasCause (faults self.old) (faults self.new) result }
        ensures missing { IsMissing (lacks_folder (holds self.old) path.now) (missing self.old) (missing self.new) result };

    /// The bytes of the file at `path`, or the first `most` of them where it has more.
    ///
    /// `Failed` only where `faults` rose in this call.
    fn read(&mut self, alloc: Global, path: &str, most: usize) -> Result<Vec<u8>, OutsideError>
        ensures same { holds self.new ≡ holds self.old }
        ensures bytes { IfOk result (λ v. Reads (holds self.old) path.now most v.items) }
        ensures most { IfOk result (λ v. length v.items ≤ most) }
        ensures cause { HasCause (faults self.old) (faults self.new) result }
        ensures missing { IsMissing (lacks_file (holds self.old) path.now) (missing self.old) (missing self.new) result };

    ghost untold: { (f : Self) → holds f ≡ None → missing f ≡ 0 };
}

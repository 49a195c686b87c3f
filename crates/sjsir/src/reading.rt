// Files that are read whole.
ghost use Rattle.std.specs.Prelude.{◌≡◌, Some, IfOk, IsTrue, Err, is_some};
ghost use Rattle.sj_outside.specs.Contents.{Parts, file_at};
ghost use Rattle.sjsir.specs.Printing.{HasCause};

use crate::stops::Stop;
use sj_outside::{Folders, OutsideError};
use std::alloc::Global;

/// The bytes of the file at `path`, all of them. `ReadFault` where the read fails, `NoMemory` where the bytes can't be held.
pub fn read_whole<F: Folders>(alloc: Global, path: &str, folders: &mut F) -> Result<Vec<u8>, Stop>
    ensures same { F.holds folders.new ≡ F.holds folders.old }
    ensures told { (c : Parts) → F.holds folders.old ≡ Some c → IfOk result (λ bytes. file_at c path.now ≡ Some bytes.items) }
    ensures read_fault { HasCause (result ≡ Err Stop.ReadFault) (F.faults folders.old) (F.faults folders.new) }
    ensures no_write_fault { result ≡ Err Stop.WriteFault → ⊥ }
    ensures missing { (c : Parts) → F.holds folders.old ≡ Some c → IsTrue (is_some (file_at c path.now)) → F.missing folders.new ≡ F.missing folders.old }
{
    match folders.read(alloc, path, usize::MAX) {
        Ok(bytes) => {
            if bytes.as_slice().len() < usize::MAX {
                Ok(bytes)
            } else {
                Err(Stop::NoMemory)
            }
        }
        Err(OutsideError::Failed) => Err(Stop::ReadFault),
        Err(OutsideError::NoMemory) => Err(Stop::NoMemory),
    }
}

// What the adapters over real files and standard output share.
ghost use Rattle.std.specs.Prelude.{◌≡◌, ◌≤◌, ◌↔◌};
ghost use Rattle.std.specs.IoError.{error_kind};
ghost use Rattle.sj_outside.specs.Faults.{Rose, raised_by};

use crate::OutsideError;
use std::io::{ErrorKind, Write};
use std::rt::Files;
use std::{fs, io};

/// What a refusal by the system comes to. Want of memory is `NoMemory`; everything else is counted in `faults`.
pub fn failure(faults: &mut u64, error: io::Error) -> OutsideError
    ensures counted { faults.new ≡ raised_by result faults.old }
    ensures never_falls { faults.old ≤ faults.new }
    ensures rose { result ≡ OutsideError.Failed → Rose faults.old faults.new }
    ensures memory { (result ≡ OutsideError.NoMemory) ↔ (error_kind error ≡ ErrorKind.OutOfMemory) }
{
    if error.kind() == ErrorKind::OutOfMemory {
        return OutsideError::NoMemory;
    }
    *faults = faults.saturating_add(1);
    OutsideError::Failed
}

/// Writes the file at the path, in place of what it held. What a real file holds is said by no clause; the error is the system's.
pub(crate) fn write_file<R: Files>(rt: &R, path: &str, bytes: &[u8]) -> io::Result<()> {
    let mut file = fs::create(rt, path)?;
    file.write_all(bytes)
}

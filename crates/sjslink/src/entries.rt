// The entries file is read.
ghost use Rattle.std.specs.Prelude.{◌≡◌, Some, Err, IsTrue, is_some};
ghost use Rattle.sj_outside.specs.Contents.{Parts, file_at};
ghost use Rattle.entries_file.specs.EntriesFile as spec;
ghost use Rattle.sjslink.specs.Input.{HasEntries};
ghost use Rattle.sjslink.specs.Editing.{Says, HasReadCause};

use entries_file::{EntriesError, entries_of};
use sj_names::Entries;
use sj_outside::{Folders, OutsideError};
use std::alloc::Global;

/// Why there are no entries.
pub enum NoEntries {
    /// The line of this number is bad, or the file as a whole at 0.
    BadLine(u32),
    /// The file could not be read.
    ReadFault,
    /// No memory was left.
    NoMemory,
}

// A byte more than an entries file may have.
const MOST_READ: usize = 1_048_577;

/// The entries that the entries file at `path` says.
pub fn read_entries<F: Folders>(
    alloc: Global,
    path: &str,
    folders: &mut F,
) -> Result<Entries, NoEntries>
    ensures same { F.holds folders.new ≡ F.holds folders.old }
    ensures told { (c : Parts) → F.holds folders.old ≡ Some c → Says (HasEntries c path.now) result }
    ensures cause { HasReadCause (F.faults folders.old) (F.faults folders.new) result }
    ensures missing { (c : Parts) → F.holds folders.old ≡ Some c → IsTrue (is_some (file_at c path.now)) → F.missing folders.new ≡ F.missing folders.old }
{
    match folders.read(alloc, path, MOST_READ) {
        Ok(bytes) => said_by(alloc, bytes.as_slice()),
        Err(OutsideError::Failed) => Err(NoEntries::ReadFault),
        Err(OutsideError::NoMemory) => Err(NoEntries::NoMemory),
    }
}

fn said_by(alloc: Global, bytes: &[u8]) -> Result<Entries, NoEntries>
    ensures says { Says (λ said. spec.entries_of bytes.now ≡ said) result }
    ensures no_fault { result ≡ Err NoEntries.ReadFault → ⊥ }
{
    match entries_of(alloc, bytes) {
        Ok(entries) => Ok(entries),
        Err(EntriesError::BadLine(number)) => Err(NoEntries::BadLine(number)),
        Err(EntriesError::NoMemory) => Err(NoEntries::NoMemory),
    }
}

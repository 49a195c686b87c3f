// The class files of a folder are read.
ghost use Rattle.std.specs.Prelude.{◌≡◌, ◌≤◌, ◌+◌, Some, IfOk, IsTrue, is_some, length};
ghost use Rattle.sj_names.specs.declared.folders.SourceFile.{SourceFile};
ghost use Rattle.sj_outside.specs.Contents.{Parts, folder_at};
ghost use Rattle.sj_outside.specs.Faults.{HasCause};
ghost use Rattle.folder_sizes.specs.Sizes.{largest_file};
ghost use Rattle.folder_files.specs.Files.{HasRead, IsReadOf, front};
ghost use Rattle.folder_files.specs.Walking.{ArePathsOf, IsHeld};

use crate::walking::{path_in, paths_in_order};
use folder_sizes::is_over;
use sj_names::{Bytes, SourceFile, Text};
use sj_outside::{Folders, OutsideError};
use std::alloc::Global;

/// One byte more than a file may have.
const MOST_READ: usize = 16_777_217;

/// The class files of the folder at `path`, in byte order of their own paths, as far as they are read: each whole or one byte more
/// than a file may have, and none behind the first at which they are too large. A class file has at most 32 folders above its name.
///
/// `Failed` only where a folder could not be listed or a file could not be read, so that `faults` rose in this call.
pub fn read_folder<F: Folders>(
    alloc: Global,
    path: &str,
    folders: &mut F,
) -> Result<Vec<SourceFile>, OutsideError>
    ensures same { F.holds folders.new ≡ F.holds folders.old }
    ensures told { (c : Parts) → F.holds folders.old ≡ Some c → IfOk result (λ files. HasRead c path.now files.items) }
    ensures cause { HasCause (F.faults folders.old) (F.faults folders.new) result }
    ensures missing { (c : Parts) → F.holds folders.old ≡ Some c → IsTrue (is_some (folder_at c path.now)) → F.missing folders.new ≡ F.missing folders.old }
{
    let paths = paths_in_order(alloc, path, folders)?;
    read_files(alloc, path, paths.as_slice(), folders)
}

/// The files at these paths from the folder, as far as they are read.
fn read_files<F: Folders>(
    alloc: Global,
    folder: &str,
    paths: &[Text],
    folders: &mut F,
) -> Result<Vec<SourceFile>, OutsideError>
    ensures same { F.holds folders.new ≡ F.holds folders.old }
    ensures told { (c : Parts) → F.holds folders.old ≡ Some c → (are : ArePathsOf c folder.now paths.now) → IfOk result (λ files. IsReadOf are.files files.items) }
    ensures cause { HasCause (F.faults folders.old) (F.faults folders.new) result }
    ensures missing { (c : Parts) → F.holds folders.old ≡ Some c → ArePathsOf c folder.now paths.now → F.missing folders.new ≡ F.missing folders.old }
{
    let mut files = Vec::new(alloc);
    let mut total = 0;
    for path in paths {
        let file = read_file(alloc, folder, path, folders)?;
        let size = file.bytes.as_slice().len() as u64;
        let is_last = is_over(files.len(), total, size);
        files.push(file)?;
        if is_last {
            return Ok(files);
        }
        total += size;
    }
    Ok(files)
}

/// The file at this path from the folder, whole or one byte more than it may have.
fn read_file<F: Folders>(
    alloc: Global,
    folder: &str,
    path: &Text,
    folders: &mut F,
) -> Result<SourceFile, OutsideError>
    ensures same { F.holds folders.new ≡ F.holds folders.old }
    ensures told { (c : Parts) (file : SourceFile) → F.holds folders.old ≡ Some c → file.path ≡ path.now → IsHeld c folder.now file → IfOk result (λ read. read ≡ front file) }
    ensures most { IfOk result (λ read. length read.bytes ≤ largest_file + 1) }
    ensures cause { HasCause (F.faults folders.old) (F.faults folders.new) result }
    ensures missing { (c : Parts) (file : SourceFile) → F.holds folders.old ≡ Some c → file.path ≡ path.now → IsHeld c folder.now file → F.missing folders.new ≡ F.missing folders.old }
{
    let whole = path_in(alloc, folder, path.as_str())?;
    let path = path.copied()?;
    let bytes = folders.read(alloc, whole.as_str(), MOST_READ)?;
    Ok(SourceFile {
        path,
        bytes: Bytes::from_vec(bytes),
    })
}

// The sizes of files.
ghost use Rattle.std.specs.Prelude.{◌≡◌, IfOk};
ghost use Rattle.folder_sizes.specs.Files as spec;

use sj_names::{NoMemory, SourceFile};
use std::alloc::Global;

/// The sizes of the files, in bytes.
pub fn sizes_of(alloc: Global, files: &[SourceFile]) -> Result<Vec<u64>, NoMemory>
    ensures { IfOk result (λ sizes. sizes.items ≡ spec.sizes files.now) }
{
    let mut sizes = Vec::new(alloc);
    for file in files {
        sizes.push(file.bytes.as_slice().len() as u64)?;
    }
    Ok(sizes)
}

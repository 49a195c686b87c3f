// Files that are read.
ghost use Rattle.std.specs.Prelude.{◌≡◌, List, MatchResult};
ghost use Rattle.sj_read_spec.specs.Files.{FileIs};
ghost use Rattle.sj_names.specs.declared.entry_points.EntryPoint.{EntryPoint};
ghost use Rattle.folder_judging_spec.specs.Stages.{AreRead};
ghost use Rattle.folder_judging_spec.specs.Verdicts.{ByFiles};
ghost use Rattle.folder_judging.specs.Counts.{with_reads, HasRead};
ghost use Rattle.folder_judging.specs.Refusals.{IsRefusal};
ghost use Rattle.folder_judging.specs.Reading.{IsFaultOf};

use crate::JudgeError;
use crate::refusals::refusal_in_file;
use sj_names::SourceFile;
use sj_trees::{ClassDef, ReadRefusal};
use sj_workers::Workers;
use std::alloc::Global;

/// The classes of the files, in their order; else the refusal of the first that isn't the file of a class.
pub fn read_files<W: Workers>(
    alloc: Global,
    files: &[SourceFile],
    work: &mut W,
) -> Result<Vec<ClassDef>, JudgeError>
    ensures read { MatchResult result (λ classes. AreRead files.now classes.items) (IsRefusal (λ v. (entries : List EntryPoint) → ByFiles entries files.now v)) }
    ensures counted { HasRead files.now result (W.meter work.old) (W.meter work.new) }
{
    let mut classes = Vec::new(alloc);
    for file in files {
        let class = read_file(alloc, file.path.as_str(), file.bytes.as_slice(), work)?;
        classes.push(class)?;
    }
    Ok(classes)
}

fn read_file<W: Workers>(
    alloc: Global,
    path: &str,
    bytes: &[u8],
    work: &mut W,
) -> Result<ClassDef, JudgeError>
    ensures read { MatchResult result (FileIs bytes.now) (IsRefusal (IsFaultOf (record { path = path.now; bytes = bytes.now }))) }
    ensures counted { W.meter work.new ≡ with_reads 1 (W.meter work.old) }
{
    match work.read_class(alloc, bytes) {
        Ok(class) => Ok(class),
        Err(ReadRefusal::Bad { code, place }) => {
            Err(refusal_in_file(alloc, code.number(), path, place))
        }
        Err(ReadRefusal::NoMemory) => Err(JudgeError::NoMemory),
    }
}

// The modules of a plan, printed.
ghost use Rattle.std.specs.Prelude.{◌≡◌, ◌<◌, IfOk, List, length, map};
ghost use Rattle.js_tree.specs.Terms.{Piece};
ghost use Rattle.js_tree.specs.Views.{piece_view};
ghost use Rattle.linked_modules.specs.Files.{AreFilesOf};
ghost use Rattle.folder_linking.specs.Modules.{ArePrintableShares, IsFileAt, KeepRules, as_file};
ghost use Rattle.sj_emit_module.specs.Shares.{AreShares};

use crate::ModuleFile;
use js_print::print_module;
use js_tree::JsPiece;
use sj_emit_module::{Shares, file_name};
use sj_names::{Bytes, NoMemory};
use sj_split::Plan;
use std::alloc::Global;

/// The files of the modules of a plan, in their order. What the modules share is found once for all of them.
pub fn printed_files(
    alloc: Global,
    plan: &Plan,
    pieces: &[JsPiece],
) -> Result<Vec<ModuleFile>, NoMemory>
    requires { KeepRules plan.now (map piece_view pieces.now) }
    ensures { IfOk result (λ files. AreFilesOf plan.now (map piece_view pieces.now) plan.now (map as_file files.items)) }
{
    let shares = Shares::of(alloc, plan, pieces)?;
    let mut files = Vec::new(alloc);
    for which in 0..plan.len() {
        let file = printed_file(alloc, &shares, plan, which)?;
        files.push(file)?;
    }
    Ok(files)
}

fn printed_file(
    alloc: Global,
    shares: &Shares,
    plan: &Plan,
    which: usize,
) -> Result<ModuleFile, NoMemory>
    requires there { which < length plan.now }
    requires printable { ArePrintableShares plan.now shares.now }
    ensures { (ps : List Piece) → AreShares plan.now ps shares.now → IfOk result (IsFileAt plan.now which ps) }
{
    let modules = plan.modules();
    let planned = &modules[which];
    let module = shares.module(alloc, planned)?;
    let bytes = print_module(alloc, &module)?;
    let name = file_name(alloc, planned.name.as_str())?;
    Ok(ModuleFile {
        name,
        bytes: Bytes::from_vec(bytes),
    })
}

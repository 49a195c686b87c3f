// What is used in files.
ghost use Rattle.std.specs.Prelude.{◌≡◌, ◌++◌, ◌∷◌, [], List, IfOk, OnOk, map, filter, if◌then◌else◌};
ghost use Rattle.std.specs.List.{flat_map};
ghost use Rattle.js_tree.specs.Views.{piece_view};
ghost use Rattle.js_tree.specs.declared.items.Binding.{Binding as Bound};
ghost use Rattle.sj_emit_module_spec.specs.Modules.{called_in, is_owned_in, uses_of};
ghost use Rattle.sj_emit_module.specs.Files.{file_in};
ghost use Rattle.sj_emit_module.specs.Groups.{HoldNames};
ghost use Rattle.sj_emit_module.specs.Lists.{items_at};
ghost use Rattle.sj_emit_module.specs.Shares.{crossing, crossing_calls};
ghost use Rattle.sj_split.specs.Orders.{Bytes, is_same};

use crate::calls::add_called;
use crate::files::{ClassFiles, file_name};
use crate::groups::NameGroups;
use crate::imports::add_uses;
use crate::lists::FileLists;
use js_tree::{Binding, JsPiece};
use sj_names::{NoMemory, Text};
use sj_split::PlannedModule;
use std::alloc::Global;

/// The bindings that pieces use, under the files of their classes.
pub fn uses_by_file(
    alloc: Global,
    files: &ClassFiles,
    pieces: &[JsPiece],
) -> Result<FileLists<Binding>, NoMemory>
    ensures { IfOk result (λ lists. (f : Bytes) → items_at lists f ≡ flat_map uses_of (filter (is_owned_in (file_in files.now) f) (map piece_view pieces.now))) }
{
    let mut lists = FileLists::new(alloc);
    for piece in pieces {
        put_uses(alloc, files, piece, &mut lists)?;
    }
    Ok(lists)
}

// Puts what a piece uses under the file of its class, if it stands in one.
fn put_uses(
    alloc: Global,
    files: &ClassFiles,
    piece: &JsPiece,
    lists: &mut FileLists<Binding>,
) -> Result<(), NoMemory>
    ensures { OnOk result ((f : Bytes) → items_at lists.new f ≡ items_at lists.old f ++ flat_map uses_of (filter (is_owned_in (file_in files.now) f) (piece_view piece.now ∷ []))) }
{
    match files.file(&piece.owner) {
        Some(file) => {
            put_bindings(alloc, file, piece.uses.as_slice(), lists)?;
            Ok(())
        }
        None => Ok(()),
    }
}

// Puts bindings under a file.
fn put_bindings(
    alloc: Global,
    file: &Text,
    bindings: &[Binding],
    lists: &mut FileLists<Binding>,
) -> Result<(), NoMemory>
    ensures { OnOk result ((f : Bytes) → items_at lists.new f ≡ items_at lists.old f ++ (if is_same file.now f then bindings.now else [])) }
{
    for binding in bindings {
        lists.put(alloc, file, copied(binding)?)?;
    }
    Ok(())
}

fn copied(binding: &Binding) -> Result<Binding, NoMemory>
    ensures { IfOk result (λ b. b ≡ binding.now) }
{
    Ok(Binding {
        owner: binding.owner.copied()?,
        name: binding.name.copied()?,
    })
}

/// The names of bindings that pieces of other files use, under the files of the classes that own them.
pub fn exports_by_file(
    alloc: Global,
    files: &ClassFiles,
    pieces: &[JsPiece],
) -> Result<NameGroups, NoMemory>
    ensures { IfOk result (λ groups. HoldNames (file_in files.now) (flat_map (crossing (file_in files.now)) (map piece_view pieces.now)) groups) }
{
    let mut groups = NameGroups::new(alloc);
    for piece in pieces {
        put_exports(alloc, files, piece, &mut groups)?;
    }
    Ok(groups)
}

// Puts the names of what a piece uses of other files.
fn put_exports(
    alloc: Global,
    files: &ClassFiles,
    piece: &JsPiece,
    groups: &mut NameGroups,
) -> Result<(), NoMemory>
    ensures { OnOk result ((bs : List Bound) → HoldNames (file_in files.now) bs groups.old → HoldNames (file_in files.now) (bs ++ flat_map (crossing (file_in files.now)) (piece_view piece.now ∷ [])) groups.new) }
{
    match files.file(&piece.owner) {
        Some(file) => {
            add_uses(alloc, files, file, piece.uses.as_slice(), groups)?;
            Ok(())
        }
        None => Ok(()),
    }
}

/// Puts what the initializers of modules call: the bindings under their files, and the names of those of other files under these.
pub fn put_calls(
    alloc: Global,
    files: &ClassFiles,
    modules: &[PlannedModule],
    uses: &mut FileLists<Binding>,
    exports: &mut NameGroups,
) -> Result<(), NoMemory>
    ensures uses { OnOk result ((f : Bytes) → items_at uses.new f ≡ items_at uses.old f ++ called_in modules.now f) }
    ensures exports { OnOk result ((bs : List Bound) → HoldNames (file_in files.now) bs exports.old → HoldNames (file_in files.now) (bs ++ flat_map (crossing_calls (file_in files.now)) modules.now) exports.new) }
{
    for planned in modules {
        put_own_calls(alloc, files, planned, uses, exports)?;
    }
    Ok(())
}

fn put_own_calls(
    alloc: Global,
    files: &ClassFiles,
    planned: &PlannedModule,
    uses: &mut FileLists<Binding>,
    exports: &mut NameGroups,
) -> Result<(), NoMemory>
    ensures uses { OnOk result ((f : Bytes) → items_at uses.new f ≡ items_at uses.old f ++ called_in (planned.now ∷ []) f) }
    ensures exports { OnOk result ((bs : List Bound) → HoldNames (file_in files.now) bs exports.old → HoldNames (file_in files.now) (bs ++ flat_map (crossing_calls (file_in files.now)) (planned.now ∷ [])) exports.new) }
{
    let file = file_name(alloc, planned.name.as_str())?;
    let mut calls = Vec::new(alloc);
    add_called(alloc, planned.initializers.as_slice(), &mut calls)?;
    put_bindings(alloc, &file, &calls, uses)?;
    add_uses(alloc, files, &file, &calls, exports)?;
    Ok(())
}

// The items of modules.
ghost use Rattle.std.specs.Prelude.{◌≡◌, ◌++◌, ◌∷◌, [], IfOk, OnOk, map, filter};
ghost use Rattle.js_tree.specs.Views.{item_view, piece_view};
ghost use Rattle.sj_emit_module_spec.specs.Modules.{is_owned_in, item_of};
ghost use Rattle.sj_emit_module.specs.Files.{file_in};
ghost use Rattle.sj_emit_module.specs.Lists.{items_at};
ghost use Rattle.sj_split.specs.Orders.{Bytes};

use crate::files::ClassFiles;
use crate::lists::FileLists;
use js_tree::{JsItem, JsPiece};
use sj_names::NoMemory;
use std::alloc::Global;
use std::rc::Rc;

/// The items of pieces, under the files of their classes.
pub fn items_by_file(
    alloc: Global,
    files: &ClassFiles,
    pieces: &[JsPiece],
) -> Result<FileLists<Rc<JsItem>>, NoMemory>
    ensures { IfOk result (λ lists. (f : Bytes) → map (λ i. item_view i.value) (items_at lists f) ≡ map item_of (filter (is_owned_in (file_in files.now) f) (map piece_view pieces.now))) }
{
    let mut lists = FileLists::new(alloc);
    for piece in pieces {
        put_item(alloc, files, piece, &mut lists)?;
    }
    Ok(lists)
}

// Puts the item of a piece under the file of its class, if it stands in one.
fn put_item(
    alloc: Global,
    files: &ClassFiles,
    piece: &JsPiece,
    lists: &mut FileLists<Rc<JsItem>>,
) -> Result<(), NoMemory>
    ensures { OnOk result ((f : Bytes) → map (λ i. item_view i.value) (items_at lists.new f) ≡ map (λ i. item_view i.value) (items_at lists.old f) ++ map item_of (filter (is_owned_in (file_in files.now) f) (piece_view piece.now ∷ []))) }
{
    match files.file(&piece.owner) {
        Some(file) => {
            lists.put(alloc, file, piece.item.clone()?)?;
            Ok(())
        }
        None => Ok(()),
    }
}

/// The same items, which are shared.
pub fn shared(alloc: Global, items: &[Rc<JsItem>]) -> Result<Vec<Rc<JsItem>>, NoMemory>
    ensures { IfOk result (λ list. map (λ i. item_view i.value) list.items ≡ map (λ i. item_view i.value) items.now) }
{
    let mut list = Vec::new(alloc);
    for item in items {
        list.push(item.clone()?)?;
    }
    Ok(list)
}

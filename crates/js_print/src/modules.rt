//! The printer's calls.
ghost use Rattle.std.specs.Prelude.{◌≡◌, IfOk};
ghost use Rattle.js_tree.specs.Rules.{IsModule, IsPiece};
ghost use Rattle.js_tree.specs.Spelling.{Spells, PieceSpells};
ghost use Rattle.js_tree.specs.Texts.{module_text, piece_text};
ghost use Rattle.js_tree.specs.Views.{module_view, piece_view};

use crate::items::{append_exports, append_imports, append_item_line, append_items};
use js_tree::{JsModule, JsPiece, each_has_one_text};
use sj_names::NoMemory;
use std::alloc::Global;

/// The text of a piece: its item on its own lines. The piece keeps the rules of the subset on names, property names, numbers,
/// units, keys, lists and the expression before `.` or `[`.
pub fn print_piece(alloc: Global, p: &JsPiece) -> Result<Vec<u8>, NoMemory>
    requires { IsPiece (piece_view p.now) }
    ensures spelled { IfOk result (λ v. PieceSpells (piece_view p.now) v.items) }
    ensures text { IfOk result (λ v. v.items ≡ piece_text (piece_view p.now)) }
{
    each_has_one_text();
    let mut out = Vec::new(alloc);
    append_item_line(&mut out, p.item.as_ref())?;
    Ok(out)
}

/// The text of a module, which keeps the same rules.
pub fn print_module(alloc: Global, m: &JsModule) -> Result<Vec<u8>, NoMemory>
    requires { IsModule (module_view m.now) }
    ensures spelled { IfOk result (λ v. Spells (module_view m.now) v.items) }
    ensures text { IfOk result (λ v. v.items ≡ module_text (module_view m.now)) }
{
    each_has_one_text();
    let mut out = Vec::new(alloc);
    append_imports(&mut out, m.imports.as_slice())?;
    append_items(&mut out, m.items.as_slice())?;
    append_exports(&mut out, m.exports.as_slice())?;
    Ok(out)
}

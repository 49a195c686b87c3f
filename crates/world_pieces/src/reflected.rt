// The functions by which receivers are called under reflective names, of which pieces use the names.
ghost use Rattle.std.specs.Prelude.{◌↔◌, Contains, IfOk, List, All, map};
ghost use Rattle.std.specs.List.{IsDistinct};
ghost use Rattle.js_tree.specs.Rules.{IsPiece};
ghost use Rattle.js_tree.specs.Terms.{Name, Piece};
ghost use Rattle.js_tree.specs.Views.{piece_view};
ghost use Rattle.linked_pieces.specs.Reflected.{AreReflectivePieces};
ghost use Rattle.sj_emit_class_spec.specs.Dispatch.{IsReflectivePiece};
ghost use Rattle.sj_baselink.specs.Steps.{OfOne};
ghost use Rattle.sj_mangling.specs.declared.bindings.MethodBinding.TheVariants.{Reflective};
ghost use Rattle.sj_names.specs.contracts.method_names.MethodNamePartialEq.TheImpl as method_eq;
ghost use Rattle.sj_names.specs.declared.method_names.MethodName.{MethodName as Method};
ghost use Rattle.world_pieces.specs.Helpers.{UsesWord};
ghost use Rattle.world_pieces.specs.Told.{IsUsedMethod, IsUsedName, AreTheirs};

use crate::functions::in_order;
use crate::method_names::{listed, put_used};
use call_cases::reflective_of;
use indexmap::IndexSet;
use js_tree::JsPiece;
use sj_baselink::reflective_names;
use sj_mangling::MethodBinding;
use sj_names::{MethodName, NoMemory, Text};
use sj_world::LinkedWorld;
use std::alloc::Global;

/// The pieces of exactly the functions of reflective names by which bodies call that are needed, where these names, which pieces use, have theirs among them, in
/// the order of their names. Each keeps the rules of printing.
pub fn reflective_pieces(
    alloc: Global,
    linked: &LinkedWorld,
    words: &IndexSet<Text>,
) -> Result<Vec<JsPiece>, NoMemory>
    ensures pieces { (ps : List Piece) → ((x : Name) → Contains words.now.keys x ↔ OfOne ps UsesWord x) → IfOk result (λ told. AreReflectivePieces linked.now ps (map piece_view told.items)) }
    ensures rules { IfOk result (λ told. All IsPiece (map piece_view told.items)) }
{
    let names = used_names(alloc, linked, words)?;
    let pieces = pieces_of(alloc, linked, &names)?;
    Ok(in_order(pieces))
}

// The reflective names by which bodies call that are needed, of which the functions have these names, each once.
fn used_names(
    alloc: Global,
    linked: &LinkedWorld,
    words: &IndexSet<Text>,
) -> Result<Vec<MethodName>, NoMemory>
    ensures exact { IfOk result (λ names. (p : Method) → Contains names.items p ↔ IsUsedName linked.now words.now.keys p) }
    ensures once { IfOk result (λ names. IsDistinct method_eq.ghosts.eq names.items) }
{
    let called = reflective_names(alloc, linked.world(), linked.facts())?;
    let names = listed(alloc, called)?;
    let used = used_among(alloc, &names, words)?;
    listed(alloc, used)
}

// Those of the reflective names of which the functions have these names.
fn used_among(
    alloc: Global,
    names: &[MethodName],
    words: &IndexSet<Text>,
) -> Result<IndexSet<MethodName>, NoMemory>
    ensures { IfOk result (λ used. (p : Method) → Contains used.keys p ↔ OfOne names.now (IsUsedMethod Reflective words.now.keys) p) }
{
    let mut used = IndexSet::new(alloc);
    for name in names {
        put_used(alloc, words, MethodBinding::Reflective, name, &mut used)?;
    }
    Ok(used)
}

// A piece for each of the reflective names.
fn pieces_of(
    alloc: Global,
    linked: &LinkedWorld,
    names: &[MethodName],
) -> Result<Vec<JsPiece>, NoMemory>
    ensures pieces { IfOk result (λ ps. AreTheirs Reflective (IsReflectivePiece linked.now.world linked.now.facts) names.now (map piece_view ps.items)) }
    ensures rules { IfOk result (λ ps. All IsPiece (map piece_view ps.items)) }
{
    let mut pieces = Vec::new(alloc);
    for name in names {
        pieces.push(reflective_of(alloc, linked, name)?)?;
    }
    Ok(pieces)
}

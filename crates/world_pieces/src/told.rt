// The functions that tell primitive receivers apart, of which pieces use the names: of methods, and of reflective names.
ghost use Rattle.std.specs.Prelude.{◌↔◌, Contains, IfOk, OnOk, List, All, map};
ghost use Rattle.js_tree.specs.Rules.{IsPiece};
ghost use Rattle.js_tree.specs.Terms.{Name, Piece};
ghost use Rattle.js_tree.specs.Views.{piece_view};
ghost use Rattle.linked_pieces.specs.Dispatched.{AreDispatchPieces};
ghost use Rattle.linked_pieces.specs.Reflected.{AreToldPieces};
ghost use Rattle.sj_emit_class_spec.specs.Dispatch.{IsDispatchPiece};
ghost use Rattle.sj_baselink.specs.Steps.{Puts, OfOne};
ghost use Rattle.sj_mangling.specs.declared.bindings.MethodBinding.TheVariants.{Dispatch};
ghost use Rattle.sj_names.specs.declared.method_names.MethodName.{MethodName as Method};
ghost use Rattle.world_pieces.specs.Helpers.{UsesWord};
ghost use Rattle.world_pieces.specs.Told.{IsUsedBy, AreTheirs};

use crate::functions::in_order;
use crate::method_names::{listed, put_used};
use crate::reflected::reflective_pieces;
use call_cases::dispatch_of;
use indexmap::IndexSet;
use js_tree::JsPiece;
use sj_mangling::MethodBinding;
use sj_names::{MethodName, NoMemory, Text};
use sj_world::{Fact, LinkedWorld};
use std::alloc::Global;

/// The pieces of exactly the functions of methods that are called on receivers, and behind them of reflective names by which bodies call that are needed, where
/// these names, which pieces use, have theirs among them, each in the order of their names. Each keeps the rules of printing.
pub fn told_pieces(
    alloc: Global,
    linked: &LinkedWorld,
    words: &IndexSet<Text>,
) -> Result<Vec<JsPiece>, NoMemory>
    ensures pieces { (ps : List Piece) → ((x : Name) → Contains words.now.keys x ↔ OfOne ps UsesWord x) → IfOk result (λ told. AreToldPieces linked.now ps (map piece_view told.items)) }
    ensures rules { IfOk result (λ told. All IsPiece (map piece_view told.items)) }
{
    let mut pieces = dispatch_pieces(alloc, linked, words)?;
    let mut reflective = reflective_pieces(alloc, linked, words)?;
    pieces.append(&mut reflective)?;
    Ok(pieces)
}

// The pieces of exactly the functions of methods that are called on receivers, where these names, which pieces use, have theirs among them, in the order of
// their names. Each keeps the rules of printing.
fn dispatch_pieces(
    alloc: Global,
    linked: &LinkedWorld,
    words: &IndexSet<Text>,
) -> Result<Vec<JsPiece>, NoMemory>
    ensures pieces { (ps : List Piece) → ((x : Name) → Contains words.now.keys x ↔ OfOne ps UsesWord x) → IfOk result (λ told. AreDispatchPieces linked.now ps (map piece_view told.items)) }
    ensures rules { IfOk result (λ told. All IsPiece (map piece_view told.items)) }
{
    let called = called_methods(alloc, linked.facts(), words)?;
    let methods = listed(alloc, called)?;
    let pieces = pieces_of(alloc, linked, &methods)?;
    Ok(in_order(pieces))
}

// The methods that are called, of which the functions have these names.
fn called_methods(
    alloc: Global,
    facts: &[Fact],
    words: &IndexSet<Text>,
) -> Result<IndexSet<MethodName>, NoMemory>
    ensures { IfOk result (λ methods. (m : Method) → Contains methods.keys m ↔ OfOne facts.now (IsUsedBy words.now.keys) m) }
{
    let mut methods = IndexSet::new(alloc);
    for fact in facts {
        put_called(alloc, words, fact, &mut methods)?;
    }
    Ok(methods)
}

// Puts the method that the fact calls, if it calls one and the function of this has one of the names.
fn put_called(
    alloc: Global,
    words: &IndexSet<Text>,
    fact: &Fact,
    methods: &mut IndexSet<MethodName>,
) -> Result<(), NoMemory>
    ensures { OnOk result (Puts (IsUsedBy words.now.keys fact.now) methods.old.keys methods.new.keys) }
{
    match fact {
        Fact::Called(_, method) => {
            put_used(alloc, words, MethodBinding::Dispatch, method, methods)
        }
        _ => Ok(()),
    }
}

// A piece for each of the methods.
fn pieces_of(
    alloc: Global,
    linked: &LinkedWorld,
    methods: &[MethodName],
) -> Result<Vec<JsPiece>, NoMemory>
    ensures pieces { IfOk result (λ ps. AreTheirs Dispatch (IsDispatchPiece linked.now.world linked.now.facts) methods.now (map piece_view ps.items)) }
    ensures rules { IfOk result (λ ps. All IsPiece (map piece_view ps.items)) }
{
    let mut pieces = Vec::new(alloc);
    for method in methods {
        pieces.push(dispatch_of(alloc, linked, method)?)?;
    }
    Ok(pieces)
}

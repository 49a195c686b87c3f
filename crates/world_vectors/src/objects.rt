// Which fields, lengths and items are those of objects.
ghost use Rattle.std.specs.Prelude.{◌≡◌, true, false};
ghost use Rattle.sj_emit_expr_pieces.specs.Owners.{OnObjects, AllOnObjects, CasesOnObjects};
ghost use Rattle.sj_trees.specs.TypeOf.{type_of_term};
ghost use Rattle.sj_trees.specs.View.{view, terms_view, cases_view};
ghost use Rattle.sure_receivers.specs.Sure.{is_sure_type};
ghost use Rattle.tree_parts.specs.Parts.{parts_of};
ghost use Rattle.world_vectors.specs.Objects.{IsOfObject, PartsOnObjects};

use sj_trees::{IrType, MatchCase, Tree};
use tree_parts::{Parts, parts_in};

/// Whether each field, length or item in the tree is one of a tree that is by its form of a type other than the primitive ones.
#[cycle(objects)]
pub(crate) fn is_on_objects(tree: &Tree) -> bool
    ensures { result ≡ true → OnObjects (view tree.now) }
{
    is_of_object(tree) && are_parts_on_objects(tree)
}

#[cycle(objects)]
fn are_parts_on_objects(tree: &Tree) -> bool
    ensures { result ≡ true → PartsOnObjects (parts_of (view tree.now)) }
{
    match parts_in(tree) {
        Parts::None => true,
        Parts::One(one) => is_on_objects(one),
        Parts::Two(one, two) => is_on_objects(one) && is_on_objects(two),
        Parts::Three(one, two, three) => {
            is_on_objects(one) && is_on_objects(two) && is_on_objects(three)
        }
        Parts::Many(trees) => are_on_objects(trees),
        Parts::OneAndMany(one, trees) => is_on_objects(one) && are_on_objects(trees),
        Parts::Cases(one, cases, two) => {
            is_on_objects(one) && are_cases_on_objects(cases) && is_on_objects(two)
        }
    }
}

#[cycle(objects)]
fn are_on_objects(trees: &[Tree]) -> bool
    ensures { result ≡ true → AllOnObjects (terms_view trees.now) }
{
    for tree in trees {
        if !is_on_objects(tree) {
            return false;
        }
    }
    true
}

#[cycle(objects)]
fn are_cases_on_objects(cases: &[MatchCase]) -> bool
    ensures { result ≡ true → CasesOnObjects (cases_view cases.now) }
{
    for case in cases {
        if !is_on_objects(&case.body) {
            return false;
        }
    }
    true
}

// Whether the tree is no field, length or item, or one of an object.
fn is_of_object(tree: &Tree) -> bool
    ensures { result ≡ true → IsOfObject (view tree.now) }
{
    match tree {
        Tree::Select { object, .. }
        | Tree::ArrayLength { array: object, .. }
        | Tree::ArraySelect { array: object, .. } => is_object(object),
        _ => true,
    }
}

// Whether a tree is by its form of a type whose values aren't primitive.
fn is_object(tree: &Tree) -> bool
    ensures { result ≡ true → is_sure_type (type_of_term (view tree.now)) ≡ false }
{
    match tree {
        Tree::This { tpe, .. }
        | Tree::VarRef { tpe, .. }
        | Tree::Labeled { tpe, .. }
        | Tree::If { tpe, .. }
        | Tree::TryCatch { tpe, .. }
        | Tree::Match { tpe, .. }
        | Tree::Select { tpe, .. }
        | Tree::SelectStatic { tpe, .. }
        | Tree::Apply { tpe, .. }
        | Tree::ApplyStatically { tpe, .. }
        | Tree::ApplyStatic { tpe, .. }
        | Tree::ArraySelect { tpe, .. }
        | Tree::AsInstanceOf { tpe, .. } => !is_primitive(tpe),
        Tree::New { .. }
        | Tree::LoadModule { .. }
        | Tree::NewArray { .. }
        | Tree::ArrayValue { .. } => true,
        _ => false,
    }
}

// Whether a type is a primitive one other than null.
fn is_primitive(tpe: &IrType) -> bool
    ensures { result ≡ is_sure_type tpe.now }
{
    match tpe {
        IrType::Undefined
        | IrType::Boolean
        | IrType::Char
        | IrType::Byte
        | IrType::Short
        | IrType::Int
        | IrType::Long
        | IrType::String => true,
        _ => false,
    }
}

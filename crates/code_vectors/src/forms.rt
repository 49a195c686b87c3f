// The methods in whose bodies no form has to do with objects.
ghost use Rattle.std.specs.Prelude.{◌≡◌, true};
ghost use Rattle.code_vectors.specs.Forms as forms;
ghost use Rattle.sj_emit_expr_pieces.specs.Owners.{BodyOnObjects};
ghost use Rattle.sj_trees.specs.View.{view, terms_view, cases_view};

use sj_trees::{MatchCase, MethodDef, Tree};

/// Whether a method has a body, and no tree of it is of a form that has to do with objects. Then no field in it is one of a primitive value.
pub(crate) fn is_without_objects(method: &MethodDef) -> bool
    ensures { result ≡ true → BodyOnObjects method.now.body }
{
    has_static_body(method)
}

fn has_static_body(method: &MethodDef) -> bool
    ensures { result ≡ forms.is_static_body method.now.body }
{
    match &method.body {
        Some(body) => is_static_tree(body.tree()),
        None => false,
    }
}

#[cycle(forms)]
fn is_static_tree(tree: &Tree) -> bool
    ensures { result ≡ forms.is_static (view tree.now) }
{
    match tree {
        Tree::VarDef { value, .. }
        | Tree::Labeled { body: value, .. }
        | Tree::Return { value, .. }
        | Tree::UnaryOp { operand: value, .. }
        | Tree::Log { value, .. } => is_static_tree(value),
        Tree::Block { trees, .. }
        | Tree::ApplyStatic {
            arguments: trees,
            ..
        } => are_static_trees(trees),
        Tree::Assign {
            target: first,
            value: second,
            ..
        }
        | Tree::While {
            condition: first,
            body: second,
            ..
        }
        | Tree::DoWhile {
            body: first,
            condition: second,
            ..
        }
        | Tree::BinaryOp {
            left: first,
            right: second,
            ..
        } => is_static_tree(first) && is_static_tree(second),
        Tree::If {
            condition,
            yes,
            no,
            ..
        } => { is_static_tree(condition) && is_static_tree(yes) && is_static_tree(no) }
        Tree::Match {
            selector,
            cases,
            default,
            ..
        } => { is_static_tree(selector) && are_static_cases(cases) && is_static_tree(default) }
        Tree::Skip { .. }
        | Tree::Undefined { .. }
        | Tree::Null { .. }
        | Tree::BooleanLiteral { .. }
        | Tree::CharLiteral { .. }
        | Tree::ByteLiteral { .. }
        | Tree::ShortLiteral { .. }
        | Tree::IntLiteral { .. }
        | Tree::LongLiteral { .. }
        | Tree::StringLiteral { .. }
        | Tree::VarRef { .. } => true,
        Tree::TryCatch { .. }
        | Tree::TryFinally { .. }
        | Tree::Throw { .. }
        | Tree::New { .. }
        | Tree::LoadModule { .. }
        | Tree::StoreModule { .. }
        | Tree::Select { .. }
        | Tree::SelectStatic { .. }
        | Tree::Apply { .. }
        | Tree::ApplyStatically { .. }
        | Tree::NewArray { .. }
        | Tree::ArrayValue { .. }
        | Tree::ArrayLength { .. }
        | Tree::ArraySelect { .. }
        | Tree::IsInstanceOf { .. }
        | Tree::AsInstanceOf { .. }
        | Tree::This { .. } => false,
    }
}

#[cycle(forms)]
fn are_static_trees(trees: &[Tree]) -> bool
    ensures { result ≡ forms.are_static (terms_view trees.now) }
{
    for each in trees {
        if !is_static_tree(each) {
            return false;
        }
    }
    true
}

#[cycle(forms)]
fn are_static_cases(cases: &[MatchCase]) -> bool
    ensures { result ≡ forms.are_static_cases (cases_view cases.now) }
{
    for each in cases {
        if !is_static_tree(&each.body) {
            return false;
        }
    }
    true
}

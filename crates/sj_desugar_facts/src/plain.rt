// Trees that may stand inside an expression, and those whose value nothing around them can change.
ghost use Rattle.std.specs.Prelude.{◌≡◌};
ghost use Rattle.sj_desugar_spec.specs.Plain as plain;
ghost use Rattle.sj_trees.specs.View.{view, terms_view};

use sj_names::LocalName;
use sj_trees::{IrType, Tree};

/// Whether a type is that of statements.
pub fn is_no_type(tpe: &IrType) -> bool
    ensures { result ≡ plain.is_no_type tpe.now }
{
    match tpe {
        IrType::NoType => true,
        _ => false,
    }
}

/// Whether a tree may stand inside an expression.
#[cycle(plain)]
pub fn is_plain(tree: &Tree) -> bool
    ensures { result ≡ plain.is_plain (view tree.now) }
{
    match tree {
        Tree::VarDef { .. }
        | Tree::Skip { .. }
        | Tree::Block { .. }
        | Tree::Labeled { .. }
        | Tree::Assign { .. }
        | Tree::Return { .. }
        | Tree::While { .. }
        | Tree::DoWhile { .. }
        | Tree::TryCatch { .. }
        | Tree::TryFinally { .. }
        | Tree::Throw { .. }
        | Tree::Match { .. }
        | Tree::StoreModule { .. }
        | Tree::Log { .. } => false,
        Tree::If {
            condition,
            yes,
            no,
            tpe,
            ..
        } => { !is_no_type(tpe) && is_plain(condition) && is_plain(yes) && is_plain(no) }
        Tree::New {
            arguments: trees,
            ..
        } => are_plain(trees),
        Tree::ApplyStatic {
            arguments: trees,
            ..
        } => are_plain(trees),
        Tree::ArrayValue { items: trees, .. } => are_plain(trees),
        Tree::Apply {
            receiver,
            arguments: trees,
            ..
        } => is_plain(receiver) && are_plain(trees),
        Tree::ApplyStatically {
            receiver,
            arguments: trees,
            ..
        } => { is_plain(receiver) && are_plain(trees) }
        Tree::Select {
            object: operand,
            ..
        }
        | Tree::UnaryOp { operand, .. }
        | Tree::NewArray {
            length: operand,
            ..
        }
        | Tree::ArrayLength { array: operand, .. }
        | Tree::IsInstanceOf { value: operand, .. }
        | Tree::AsInstanceOf { value: operand, .. } => is_plain(operand),
        Tree::BinaryOp { left, right, .. }
        | Tree::ArraySelect {
            array: left,
            index: right,
            ..
        } => { is_plain(left) && is_plain(right) }
        Tree::LoadModule { .. }
        | Tree::SelectStatic { .. }
        | Tree::Undefined { .. }
        | Tree::Null { .. }
        | Tree::BooleanLiteral { .. }
        | Tree::CharLiteral { .. }
        | Tree::ByteLiteral { .. }
        | Tree::ShortLiteral { .. }
        | Tree::IntLiteral { .. }
        | Tree::LongLiteral { .. }
        | Tree::StringLiteral { .. }
        | Tree::VarRef { .. }
        | Tree::This { .. } => true,
    }
}

/// Whether each of the trees may stand inside an expression.
#[cycle(plain)]
pub fn are_plain(trees: &[Tree]) -> bool
    ensures { result ≡ plain.are_plain (terms_view trees.now) }
{
    for each in trees {
        if !is_plain(each) {
            return false;
        }
    }
    true
}

//// Whether a name is among others.
pub fn is_among(names: &[LocalName], name: &LocalName) -> bool
    ensures { result ≡ plain.is_among names.now name.now }
{
    names.iter().any(|each| name.is_same(each))
}

/// Whether nothing around a tree can change its value: it is a literal, `This`, or a local that isn't among the mutable ones.
pub fn is_fixed(mutable: &[LocalName], tree: &Tree) -> bool
    ensures { result ≡ plain.is_fixed (plain.is_among mutable.now) (view tree.now) }
{
    match tree {
        Tree::Undefined { .. }
        | Tree::Null { .. }
        | Tree::BooleanLiteral { .. }
        | Tree::CharLiteral { .. }
        | Tree::ByteLiteral { .. }
        | Tree::ShortLiteral { .. }
        | Tree::IntLiteral { .. }
        | Tree::LongLiteral { .. }
        | Tree::StringLiteral { .. }
        | Tree::This { .. } => true,
        Tree::VarRef { name, .. } => !is_among(mutable, name),
        _ => false,
    }
}

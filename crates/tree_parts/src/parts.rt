// The parts of a tree.
ghost use Rattle.std.specs.Prelude.{◌≡◌, ◌<◌};
ghost use Rattle.sj_trees.specs.View.{view};
ghost use Rattle.tree_parts.specs.Parts.{parts_of, seen};
ghost use Rattle.tree_parts.specs.Sizes.{size, size_of_parts};

use sj_trees::{MatchCase, Tree};

/// The trees in a tree, in order.
#[derive(Clone, Copy)]
pub enum Parts<'a> {
    None,
    One(&'a Tree),
    Two(&'a Tree, &'a Tree),
    Three(&'a Tree, &'a Tree, &'a Tree),
    Many(&'a [Tree]),
    OneAndMany(&'a Tree, &'a [Tree]),
    Cases(&'a Tree, &'a [MatchCase], &'a Tree),
}

/// The trees in `tree`. They are fewer than the trees that `tree` is, which is the measure of a walk.
pub fn parts_in(tree: &Tree) -> Parts<'_>
    ensures parts { seen result ≡ parts_of (view tree.now) }
    ensures smaller { size_of_parts (seen result) < size (view tree.now) }
{
    match tree {
        Tree::VarDef { value: one, .. }
        | Tree::Labeled { body: one, .. }
        | Tree::Return { value: one, .. }
        | Tree::Throw { value: one, .. }
        | Tree::StoreModule { value: one, .. }
        | Tree::Select { object: one, .. }
        | Tree::UnaryOp { operand: one, .. }
        | Tree::NewArray { length: one, .. }
        | Tree::ArrayLength { array: one, .. }
        | Tree::IsInstanceOf { value: one, .. }
        | Tree::AsInstanceOf { value: one, .. }
        | Tree::Log { value: one, .. } => Parts::One(one),
        Tree::Assign {
            target: one,
            value: two,
            ..
        }
        | Tree::While {
            condition: one,
            body: two,
            ..
        }
        | Tree::DoWhile {
            body: one,
            condition: two,
            ..
        }
        | Tree::TryCatch {
            block: one,
            handler: two,
            ..
        }
        | Tree::TryFinally {
            block: one,
            finalizer: two,
            ..
        }
        | Tree::BinaryOp {
            left: one,
            right: two,
            ..
        }
        | Tree::ArraySelect {
            array: one,
            index: two,
            ..
        } => Parts::Two(one, two),
        Tree::If {
            condition: one,
            yes: two,
            no: three,
            ..
        } => Parts::Three(one, two, three),
        Tree::Block { trees, .. }
        | Tree::New {
            arguments: trees,
            ..
        }
        | Tree::ApplyStatic {
            arguments: trees,
            ..
        }
        | Tree::ArrayValue { items: trees, .. } => Parts::Many(trees),
        Tree::Apply {
            receiver: one,
            arguments: trees,
            ..
        }
        | Tree::ApplyStatically {
            receiver: one,
            arguments: trees,
            ..
        } => Parts::OneAndMany(one, trees),
        Tree::Match {
            selector: one,
            cases,
            default: two,
            ..
        } => Parts::Cases(one, cases, two),
        Tree::Skip { .. }
        | Tree::LoadModule { .. }
        | Tree::SelectStatic { .. }
        | Tree::Undefined { .. }
        | Tree::Null { .. }
        | Tree::BooleanLiteral { .. }
        | Tree::CharLiteral { .. }
        | Tree::ByteLiteral { .. }
        | Tree::ShortLiteral { .. }
        | Tree::IntLiteral { .. }
        | Tree::LongLiteral { .. }
        | Tree::StringLiteral { .. }
        | Tree::VarRef { .. }
        | Tree::This { .. } => Parts::None,
    }
}

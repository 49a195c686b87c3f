// The words of trees.
ghost use Rattle.std.specs.Prelude.{◌≡◌};
ghost use Rattle.sj_trees.specs.View.{view};
ghost use Rattle.sj_text_print.specs.TreeFields.{word_of};

use sj_trees::Tree;

/// The word of a tree's form.
pub(crate) fn word_of(tree: &Tree) -> &'static str
    ensures { result.now ≡ word_of (view tree.now) }
{
    match tree {
        Tree::VarDef { .. } => "VarDef",
        Tree::Skip { .. } => "Skip",
        Tree::Block { .. } => "Block",
        Tree::Labeled { .. } => "Labeled",
        Tree::Assign { .. } => "Assign",
        Tree::Return { .. } => "Return",
        Tree::If { .. } => "If",
        Tree::While { .. } => "While",
        Tree::DoWhile { .. } => "DoWhile",
        Tree::TryCatch { .. } => "TryCatch",
        Tree::TryFinally { .. } => "TryFinally",
        Tree::Throw { .. } => "Throw",
        Tree::Match { .. } => "Match",
        Tree::New { .. } => "New",
        Tree::LoadModule { .. } => "LoadModule",
        Tree::StoreModule { .. } => "StoreModule",
        Tree::Select { .. } => "Select",
        Tree::SelectStatic { .. } => "SelectStatic",
        Tree::Apply { .. } => "Apply",
        Tree::ApplyStatically { .. } => "ApplyStatically",
        Tree::ApplyStatic { .. } => "ApplyStatic",
        Tree::UnaryOp { .. } => "UnaryOp",
        Tree::BinaryOp { .. } => "BinaryOp",
        Tree::NewArray { .. } => "NewArray",
        Tree::ArrayValue { .. } => "ArrayValue",
        Tree::ArrayLength { .. } => "ArrayLength",
        Tree::ArraySelect { .. } => "ArraySelect",
        Tree::IsInstanceOf { .. } => "IsInstanceOf",
        Tree::AsInstanceOf { .. } => "AsInstanceOf",
        Tree::Undefined { .. } => "Undefined",
        Tree::Null { .. } => "Null",
        Tree::BooleanLiteral { .. } => "BooleanLiteral",
        Tree::CharLiteral { .. } => "CharLiteral",
        Tree::ByteLiteral { .. } => "ByteLiteral",
        Tree::ShortLiteral { .. } => "ShortLiteral",
        Tree::IntLiteral { .. } => "IntLiteral",
        Tree::LongLiteral { .. } => "LongLiteral",
        Tree::StringLiteral { .. } => "StringLiteral",
        Tree::VarRef { .. } => "VarRef",
        Tree::This { .. } => "This",
        Tree::Log { .. } => "Log",
    }
}

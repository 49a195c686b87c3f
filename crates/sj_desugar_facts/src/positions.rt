// The positions of trees.
ghost use Rattle.std.specs.Prelude.{◌≡◌};
ghost use Rattle.sj_desugar_spec.specs.Desugar as desugar;
ghost use Rattle.sj_trees.specs.View.{view};

use sj_trees::{Position, Tree};

/// The position of a tree.
pub fn position_of(tree: &Tree) -> Position
    ensures { result ≡ desugar.position_of (view tree.now) }
{
    match tree {
        Tree::VarDef { position, .. }
        | Tree::Skip { position }
        | Tree::Block { position, .. }
        | Tree::Labeled { position, .. }
        | Tree::Assign { position, .. }
        | Tree::Return { position, .. }
        | Tree::If { position, .. }
        | Tree::While { position, .. }
        | Tree::DoWhile { position, .. }
        | Tree::TryCatch { position, .. }
        | Tree::TryFinally { position, .. }
        | Tree::Throw { position, .. }
        | Tree::Match { position, .. }
        | Tree::New { position, .. }
        | Tree::LoadModule { position, .. }
        | Tree::StoreModule { position, .. }
        | Tree::Select { position, .. }
        | Tree::SelectStatic { position, .. }
        | Tree::Apply { position, .. }
        | Tree::ApplyStatically { position, .. }
        | Tree::ApplyStatic { position, .. }
        | Tree::UnaryOp { position, .. }
        | Tree::BinaryOp { position, .. }
        | Tree::NewArray { position, .. }
        | Tree::ArrayValue { position, .. }
        | Tree::ArrayLength { position, .. }
        | Tree::ArraySelect { position, .. }
        | Tree::IsInstanceOf { position, .. }
        | Tree::AsInstanceOf { position, .. }
        | Tree::Undefined { position }
        | Tree::Null { position }
        | Tree::BooleanLiteral { position, .. }
        | Tree::CharLiteral { position, .. }
        | Tree::ByteLiteral { position, .. }
        | Tree::ShortLiteral { position, .. }
        | Tree::IntLiteral { position, .. }
        | Tree::LongLiteral { position, .. }
        | Tree::StringLiteral { position, .. }
        | Tree::VarRef { position, .. }
        | Tree::This { position, .. }
        | Tree::Log { position, .. } => *position,
    }
}

// The types of trees.
ghost use Rattle.std.specs.Prelude.{◌≡◌, IfOk};
ghost use Rattle.sj_trees.specs.TypeOf.{type_of_term, type_of_last, loop_type};
ghost use Rattle.sj_trees.specs.View.{view, terms_view};

use crate::{IrType, Tree};
use sj_names::NoMemory;
use std::alloc::Global;

/// The type of a tree, by its form: declared, that of a part, or that of the operator. Nothing is checked of its parts.
#[cycle(typing)]
pub fn type_of(alloc: Global, tree: &Tree) -> Result<IrType, NoMemory>
    ensures { IfOk result (λ t. t ≡ type_of_term (view tree.now)) }
{
    Ok(match tree {
        Tree::Block { trees, .. } => type_of_last_tree(alloc, trees)?,
        Tree::TryFinally { block, .. } => type_of(alloc, block)?,
        Tree::While { condition, .. } | Tree::DoWhile { condition, .. } => type_of_loop(condition),
        Tree::Labeled { tpe, .. }
        | Tree::If { tpe, .. }
        | Tree::TryCatch { tpe, .. }
        | Tree::Match { tpe, .. }
        | Tree::Select { tpe, .. }
        | Tree::SelectStatic { tpe, .. }
        | Tree::Apply { tpe, .. }
        | Tree::ApplyStatically { tpe, .. }
        | Tree::ApplyStatic { tpe, .. }
        | Tree::ArraySelect { tpe, .. }
        | Tree::AsInstanceOf { tpe, .. }
        | Tree::VarRef { tpe, .. }
        | Tree::This { tpe, .. } => tpe.copied()?,
        Tree::New { class, .. } | Tree::LoadModule { class, .. } => {
            IrType::of_class(class.copied()?)
        }
        Tree::NewArray { array, .. } | Tree::ArrayValue { array, .. } => IrType::Array(
            array.copied()?,
        ),
        Tree::UnaryOp { operator: op, .. } => op.result_type(),
        Tree::BinaryOp { operator: op, .. } => op.result_type(),
        Tree::Return { .. } | Tree::Throw { .. } => IrType::Nothing,
        Tree::Undefined { .. } => IrType::Undefined,
        Tree::Null { .. } => IrType::Null,
        Tree::BooleanLiteral { .. } | Tree::IsInstanceOf { .. } => IrType::Boolean,
        Tree::CharLiteral { .. } => IrType::Char,
        Tree::ByteLiteral { .. } => IrType::Byte,
        Tree::ShortLiteral { .. } => IrType::Short,
        Tree::IntLiteral { .. } | Tree::ArrayLength { .. } => IrType::Int,
        Tree::LongLiteral { .. } => IrType::Long,
        Tree::StringLiteral { .. } => IrType::String,
        Tree::VarDef { .. }
        | Tree::Skip { .. }
        | Tree::Assign { .. }
        | Tree::StoreModule { .. }
        | Tree::Log { .. } => IrType::NoType,
    })
}

#[cycle(typing)]
#[tactic(auto, using(std::proofs::lemmas::Grind::common_steps, crate::proofs::LastTypes::last_types))]
fn type_of_last_tree(alloc: Global, trees: &[Tree]) -> Result<IrType, NoMemory>
    ensures { IfOk result (λ t. t ≡ type_of_last IrType.NoType (terms_view trees.now)) }
{
    match trees.last() {
        Some(last) => Ok(type_of(alloc, last)?),
        None => Ok(IrType::NoType),
    }
}

fn type_of_loop(condition: &Tree) -> IrType
    ensures { result ≡ loop_type (view condition.now) }
{
    match condition {
        Tree::BooleanLiteral { value: true, .. } => IrType::Nothing,
        _ => IrType::NoType,
    }
}

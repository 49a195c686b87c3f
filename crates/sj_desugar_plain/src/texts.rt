// Operands of operators.
ghost use Rattle.std.specs.Prelude.{◌≡◌, IfOk};
ghost use Rattle.sj_core.specs.Views.{expression_view};
ghost use Rattle.sj_desugar_spec.specs.Texts as texts;
ghost use Rattle.sj_trees.specs.TypeOf.{type_of_term};
ghost use Rattle.sj_trees.specs.View.{view};

use crate::coercions::coerced;
use sj_core::CoreExpression;
use sj_names::NoMemory;
use sj_trees::{BinaryOp, IrType, Tree, type_of};
use std::alloc::Global;

/// The expression of a tree as an operand of an operator: in a join of texts, its text, and where it is compared by identity, a char as an object that holds it.
pub fn operand_of(
    alloc: Global,
    op: BinaryOp,
    tree: &Tree,
    expression: CoreExpression,
) -> Result<Box<CoreExpression>, NoMemory>
    ensures { IfOk result (λ e. expression_view e.value ≡ texts.operand_of op (type_of_term (view tree.now)) (expression_view expression)) }
{
    match op {
        BinaryOp::StringConcatenate => {
            let own = type_of(alloc, tree)?;
            text_of(alloc, &own, expression)
        }
        BinaryOp::StrictEqual | BinaryOp::StrictNotEqual => {
            let own = type_of(alloc, tree)?;
            Ok(Box::new(alloc, coerced(alloc, &IrType::Any, &own, expression)?)?)
        }
        _ => Ok(Box::new(alloc, expression)?),
    }
}

// The text of an expression of this type.
fn text_of(
    alloc: Global,
    own: &IrType,
    expression: CoreExpression,
) -> Result<Box<CoreExpression>, NoMemory>
    ensures { IfOk result (λ e. expression_view e.value ≡ texts.text_of own.now (expression_view expression)) }
{
    let value = Box::new(alloc, expression)?;
    match own {
        IrType::String => Ok(value),
        IrType::Char => Ok(Box::new(alloc, CoreExpression::CharText(value))?),
        _ => Ok(Box::new(alloc, CoreExpression::ValueText(value))?),
    }
}

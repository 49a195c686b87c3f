// What is written for arrays behind their operands.
ghost use Rattle.std.specs.Prelude.{◌≡◌, false, Some, IfOk};
ghost use Rattle.sj_core.specs.Terms as terms;
ghost use Rattle.sj_core.specs.Views.{expression_view, expressions_of, statement_view};
ghost use Rattle.sj_desugar_spec.specs.Coercions as coercions;
ghost use Rattle.sj_desugar_spec.specs.Desugar as desugar;
ghost use Rattle.sj_desugar_spec.specs.Spill as spill;
ghost use Rattle.sj_desugar_forms.specs.Forms.{behind};
ghost use Rattle.sj_desugar_forms.specs.Views.{destination_view, code_view, placed_view, all_view};
ghost use Rattle.sj_trees.specs.TypeOf.{type_of_term};
ghost use Rattle.sj_trees.specs.View.{view};
ghost use Rattle.sj_trees.specs.declared.types.IrType.TheVariants.{Array, Int};

use crate::destinations::Destination;
use crate::forms::finish;
use crate::objects::coerced_value;
use crate::placing::{Placed, PlacedAll};
use crate::writing::{Written, joined, one};
use sj_core::{CoreExpression, CoreStatement};
use sj_desugar_plain::{array_of, element_of, length_of, new_array};
use sj_names::{ArrayRef, NoMemory};
use sj_trees::{IrType, Position, Tree};
use std::alloc::Global;

/// A new array of this type, of a length that is an operand. It goes to a destination. Want of memory is the only error.
pub fn new_array_value(
    alloc: Global,
    destination: &Destination,
    position: Position,
    array: &ArrayRef,
    length: Placed,
) -> Result<Written, NoMemory>
    ensures { IfOk result (λ w. code_view w ≡ behind (placed_view length) (λ e. desugar.finish (destination_view destination.now) position (Array array.now) false (terms.new_array_of array.now e))) }
{
    let value = new_array(array, Box::new(alloc, length.expression)?)?;
    let tpe = IrType::Array(array.copied()?);
    let back = finish(
        alloc,
        destination,
        position,
        &tpe,
        false,
        value,
        length.next,
    )?;
    let front = Written {
        statements: length.statements,
        next: length.next,
    };
    joined(front, back)
}

/// A new array of this type with these items. It goes to a destination. Want of memory is the only error.
pub fn array_value(
    alloc: Global,
    destination: &Destination,
    position: Position,
    array: &ArrayRef,
    items: PlacedAll,
) -> Result<Written, NoMemory>
    ensures { IfOk result (λ w. code_view w ≡ spill.then_use (all_view items) (λ es. desugar.finish (destination_view destination.now) position (Array array.now) false (terms.array_of array.now (expressions_of es)))) }
{
    let value = array_of(array, items.expressions)?;
    let tpe = IrType::Array(array.copied()?);
    let back = finish(alloc, destination, position, &tpe, false, value, items.next)?;
    let front = Written {
        statements: items.statements,
        next: items.next,
    };
    joined(front, back)
}

/// The length of an array, which goes to a destination. Want of memory is the only error.
pub fn length_value(
    alloc: Global,
    destination: &Destination,
    position: Position,
    array: Placed,
) -> Result<Written, NoMemory>
    ensures { IfOk result (λ w. code_view w ≡ behind (placed_view array) (λ e. desugar.finish (destination_view destination.now) position Int false (terms.length_of e))) }
{
    let value = length_of(alloc, array.expression)?;
    let back = finish(
        alloc,
        destination,
        position,
        &IrType::Int,
        false,
        value,
        array.next,
    )?;
    let front = Written {
        statements: array.statements,
        next: array.next,
    };
    joined(front, back)
}

/// The element of an array at an index, which goes to a destination. Want of memory is the only error.
pub fn element_value(
    alloc: Global,
    destination: &Destination,
    position: Position,
    tpe: &IrType,
    array: Placed,
    index: Placed,
) -> Result<Written, NoMemory>
    ensures { IfOk result (λ w. code_view w ≡ behind (placed_view array) (λ e j. behind (placed_view index) (λ i. desugar.finish (destination_view destination.now) position tpe.now false (terms.element_of e i)))) }
{
    let value = element_of(alloc, array.expression, index.expression)?;
    let back = finish(alloc, destination, position, tpe, false, value, index.next)?;
    let first = Written {
        statements: array.statements,
        next: array.next,
    };
    let second = Written {
        statements: index.statements,
        next: index.next,
    };
    joined(first, joined(second, back)?)
}

fn element_assigned(
    position: Position,
    tpe: &IrType,
    array: CoreExpression,
    index: CoreExpression,
    value: CoreExpression,
) -> Result<CoreStatement, NoMemory>
    ensures { IfOk result (λ s. statement_view s ≡ terms.assign_element (Some position) tpe.now (expression_view array) (expression_view index) (expression_view value)) }
{
    let tpe = tpe.copied()?;
    Ok(CoreStatement::AssignElement {
        position: Some(position),
        tpe,
        array,
        index,
        value,
    })
}

/// The element of an array of elements of this type at an index is set to what this tree comes to as an operand. Want of memory is the only error.
pub fn element_set(
    alloc: Global,
    position: Position,
    tpe: &IrType,
    tree: &Tree,
    array: Placed,
    index: Placed,
    operand: Placed,
) -> Result<Written, NoMemory>
    ensures { IfOk result (λ w. code_view w ≡ behind (placed_view array) (λ e j. behind (placed_view index) (λ i k. behind (placed_view operand) (λ g. spill.one (terms.assign_element (Some position) tpe.now e i (coercions.coerced tpe.now (type_of_term (view tree.now)) g)))))) }
{
    let value = coerced_value(alloc, tpe, tree, operand.expression)?;
    let statement = element_assigned(position, tpe, array.expression, index.expression, value)?;
    let first = Written {
        statements: array.statements,
        next: array.next,
    };
    let second = Written {
        statements: index.statements,
        next: index.next,
    };
    let third = Written {
        statements: operand.statements,
        next: operand.next,
    };
    let back = one(alloc, statement, operand.next)?;
    joined(first, joined(second, joined(third, back)?)?)
}

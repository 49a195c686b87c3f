// Operands in their places, or in variables of their own.
ghost use Rattle.std.specs.Prelude.{◌≡◌, suc, IfOk};
ghost use Rattle.sj_core.specs.Terms as terms;
ghost use Rattle.sj_core.specs.Views.{expression_view};
ghost use Rattle.sj_desugar_forms.specs.Placing as placing;
ghost use Rattle.sj_desugar_forms.specs.Views.{destination_view, code_view, placed_view};
ghost use Rattle.sj_core.specs.Terms.{named, numbered};
ghost use Rattle.sj_desugar_spec.specs.Spill.{to_variable};
ghost use Rattle.sj_trees.specs.TypeOf.{type_of_term};
ghost use Rattle.sj_trees.specs.View.{view};

use crate::destinations::Destination;
use crate::writing::{Written, one, put_first};
use sj_core::{CoreExpression, CoreStatement, CoreVariable};
use sj_names::{LocalName, NoMemory};
use sj_trees::{IrType, Position, Tree, type_of};
use std::alloc::Global;

/// Statements, the expression of an operand behind them, and the number of the next variable for an operand.
#[derive(Drop)]
pub struct Placed {
    pub statements: Vec<CoreStatement>,
    pub expression: CoreExpression,
    pub next: u64,
}

/// Statements, the expressions of operands behind them, and the number of the next variable for an operand.
#[derive(Drop)]
pub struct PlacedAll {
    pub statements: Vec<CoreStatement>,
    pub expressions: Vec<CoreExpression>,
    pub next: u64,
}

/// The number behind this one. That there is none counts as want of memory, since each number is that of a variable.
pub fn number_behind(number: u64) -> Result<u64, NoMemory>
    ensures { IfOk result (λ n. n ≡ suc number) }
{
    match number.checked_add(1) {
        Some(next) => Ok(next),
        None => Err(NoMemory),
    }
}

/// The operand as it is.
pub fn in_place(alloc: Global, expression: CoreExpression, next: u64) -> Placed
    ensures { placed_view result ≡ placing.in_place (expression_view expression) next }
{
    Placed {
        statements: Vec::new(alloc),
        expression,
        next,
    }
}

fn numbered(number: u64) -> CoreExpression
    ensures { expression_view result ≡ terms.variable_use (terms.numbered number) }
{
    CoreExpression::Variable(CoreVariable::Numbered(number))
}

/// A variable of this number that keeps the operand.
pub fn kept(
    alloc: Global,
    position: Position,
    expression: CoreExpression,
    number: u64,
) -> Result<Placed, NoMemory>
    ensures { IfOk result (λ p. placed_view p ≡ placing.kept position (expression_view expression) number) }
{
    let next = number_behind(number)?;
    let variable = CoreVariable::Numbered(number);
    let statement = CoreStatement::Constant {
        position: Some(position),
        variable,
        value: expression,
    };
    let written = one(alloc, statement, next)?;
    Ok(Placed {
        statements: written.statements,
        expression: numbered(number),
        next,
    })
}

/// The variable of this number, behind the code that brings the operand there.
pub fn brought(
    alloc: Global,
    position: Position,
    number: u64,
    code: Written,
) -> Result<Placed, NoMemory>
    ensures { IfOk result (λ p. placed_view p ≡ placing.brought position number (code_view code)) }
{
    let variable = CoreVariable::Numbered(number);
    let written = put_first(
        alloc,
        CoreStatement::Declare {
            position: Some(position),
            variable,
        },
        code,
    )?;
    Ok(Placed {
        statements: written.statements,
        expression: numbered(number),
        next: written.next,
    })
}

/// A local of this type as the destination.
pub fn local_destination(name: &LocalName, tpe: &IrType) -> Result<Destination, NoMemory>
    ensures { IfOk result (λ d. destination_view d ≡ to_variable (named name.now) tpe.now) }
{
    let variable = CoreVariable::Local(name.copied()?);
    Ok(Destination::Variable(variable, tpe.copied()?))
}

/// The variable of this number, which is to hold a value of this tree, as the destination.
pub fn operand_destination(alloc: Global, number: u64, tree: &Tree) -> Result<Destination, NoMemory>
    ensures { IfOk result (λ d. destination_view d ≡ to_variable (numbered number) (type_of_term (view tree.now))) }
{
    let tpe = type_of(alloc, tree)?;
    Ok(Destination::Variable(CoreVariable::Numbered(number), tpe))
}

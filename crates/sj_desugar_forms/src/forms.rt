// What is written for each form behind its operands.
ghost use Rattle.std.specs.Prelude.{◌≡◌, true, false, Some, None, IfOk};
ghost use Rattle.sj_core.specs.Terms as terms;
ghost use Rattle.sj_core.specs.Views.{expression_view, expressions_of, statement_view, statements_view, case_view};
ghost use Rattle.sj_desugar_spec.specs.Coercions as coercions;
ghost use Rattle.sj_desugar_spec.specs.Desugar as desugar;
ghost use Rattle.sj_desugar_spec.specs.Plain.{is_among};
ghost use Rattle.sj_desugar_spec.specs.Spill as spill;
ghost use Rattle.sj_desugar_spec.specs.Texts as texts;
ghost use Rattle.sj_desugar_forms.specs.Forms.{behind};
ghost use Rattle.sj_trees.specs.TypeOf.{type_of_term, unary_result, binary_result};
ghost use Rattle.sj_trees.specs.View.{view};
ghost use Rattle.sj_trees.specs.declared.operators.UnaryOp.TheVariants.{BooleanNot};
ghost use Rattle.sj_desugar_forms.specs.Views.{destination_view, code_view, placed_view, all_view, branches_view};

use crate::destinations::{Destination, copied_variable};
use crate::placing::{Placed, PlacedAll};
use crate::writing::{Written, joined, nothing, one, put_first};
use sj_core::{CoreCase, CoreExpression, CoreStatement, CoreVariable};
use sj_desugar_plain::{coerced, expression_of, operand_of, static_call};
use sj_names::{ClassName, Items, LocalName, MethodName, Namespace, NoMemory};
use sj_trees::{BinaryOp, IrType, Position, Tree, UnaryOp, type_of};
use std::alloc::Global;

/// The cases of a switch, and the number of the next variable for an operand.
#[derive(Drop)]
pub struct SwitchCases {
    pub cases: Vec<CoreCase>,
    pub next: u64,
}

// Whether a tree of this type has no value to bring anywhere.
fn has_no_value(tpe: &IrType) -> bool
    ensures { result ≡ desugar.has_no_value tpe.now }
{
    match tpe {
        IrType::NoType | IrType::Nothing => true,
        _ => false,
    }
}

// An expression of this type as a statement.
fn evaluated(
    alloc: Global,
    position: Position,
    value: CoreExpression,
    next: u64,
) -> Result<Written, NoMemory>
    ensures { IfOk result (λ w. code_view w ≡ spill.one (terms.evaluate_of (Some position) (expression_view value)) next) }
{
    one(
        alloc,
        CoreStatement::Evaluate {
            position: Some(position),
            value,
        },
        next,
    )
}

/// The value of an expression of this type goes to a destination. Where the value goes nowhere, a quiet one is left out.
pub fn finish(
    alloc: Global,
    destination: &Destination,
    position: Position,
    tpe: &IrType,
    quiet: bool,
    value: CoreExpression,
    next: u64,
) -> Result<Written, NoMemory>
    ensures { IfOk result (λ w. code_view w ≡ desugar.finish (destination_view destination.now) position tpe.now quiet (expression_view value) next) }
{
    match destination {
        Destination::Discard if quiet => Ok(nothing(alloc, next)),
        Destination::Discard => evaluated(alloc, position, value, next),
        _ if has_no_value(tpe) => evaluated(alloc, position, value, next),
        Destination::Variable(variable, expected) => {
            let value = coerced(alloc, expected, tpe, value)?;
            let variable = copied_variable(variable)?;
            one(
                alloc,
                CoreStatement::Assign {
                    position: Some(position),
                    variable,
                    value,
                },
                next,
            )
        }
        Destination::Result(expected) => {
            let value = coerced(alloc, expected, tpe, value)?;
            one(
                alloc,
                CoreStatement::Return {
                    position: Some(position),
                    value,
                },
                next,
            )
        }
    }
}

/// A definition of a local of this type with a plain value.
pub fn defined(
    alloc: Global,
    sure: &[LocalName],
    position: Position,
    name: &LocalName,
    tpe: &IrType,
    value: &Tree,
    next: u64,
) -> Result<Written, NoMemory>
    ensures { IfOk result (λ w. code_view w ≡ spill.one (terms.define_of (Some position) (terms.named name.now) (coercions.coerced tpe.now (type_of_term (view value.now)) (desugar.expression_of (is_among sure.now) (view value.now)))) next) }
{
    let value = value_as(alloc, sure, tpe, value)?;
    let variable = CoreVariable::Local(name.copied()?);
    one(
        alloc,
        CoreStatement::Define {
            position: Some(position),
            variable,
            value,
        },
        next,
    )
}

// A plain value where this type is expected.
fn value_as(
    alloc: Global,
    sure: &[LocalName],
    expected: &IrType,
    value: &Tree,
) -> Result<CoreExpression, NoMemory>
    ensures { IfOk result (λ e. expression_view e ≡ coercions.coerced expected.now (type_of_term (view value.now)) (desugar.expression_of (is_among sure.now) (view value.now))) }
{
    let own = type_of(alloc, value)?;
    let expression = expression_of(alloc, sure, value)?;
    coerced(alloc, expected, &own, expression)
}

/// A definition of a local in front of the code that brings its value there.
pub fn declared(
    alloc: Global,
    position: Position,
    name: &LocalName,
    code: Written,
) -> Result<Written, NoMemory>
    ensures { IfOk result (λ w. code_view w ≡ spill.put_first (terms.declare_of (Some position) (terms.named name.now)) (code_view code)) }
{
    let variable = CoreVariable::Local(name.copied()?);
    put_first(
        alloc,
        CoreStatement::Declare {
            position: Some(position),
            variable,
        },
        code,
    )
}

/// An assignment to a local of this type of what this tree comes to as an operand.
pub fn assigned(
    alloc: Global,
    position: Position,
    name: &LocalName,
    tpe: &IrType,
    value: &Tree,
    operand: Placed,
) -> Result<Written, NoMemory>
    ensures { IfOk result (λ w. code_view w ≡ behind (placed_view operand) (λ e. spill.one (terms.assign_to (Some position) (terms.named name.now) (coercions.coerced tpe.now (type_of_term (view value.now)) e)))) }
{
    let front = Written {
        statements: operand.statements,
        next: operand.next,
    };
    let statement = assignment(alloc, position, name, tpe, value, operand.expression)?;
    joined(front, one(alloc, statement, operand.next)?)
}

fn assignment(
    alloc: Global,
    position: Position,
    name: &LocalName,
    expected: &IrType,
    tree: &Tree,
    value: CoreExpression,
) -> Result<CoreStatement, NoMemory>
    ensures { IfOk result (λ s. statement_view s ≡ terms.assign_to (Some position) (terms.named name.now) (coercions.coerced expected.now (type_of_term (view tree.now)) (expression_view value))) }
{
    let own = type_of(alloc, tree)?;
    let value = coerced(alloc, expected, &own, value)?;
    let variable = CoreVariable::Local(name.copied()?);
    Ok(CoreStatement::Assign {
        position: Some(position),
        variable,
        value,
    })
}

/// A line of output of an operand.
pub fn logged(alloc: Global, position: Position, operand: Placed) -> Result<Written, NoMemory>
    ensures { IfOk result (λ w. code_view w ≡ behind (placed_view operand) (λ e. spill.one (terms.log_of (Some position) e))) }
{
    let front = Written {
        statements: operand.statements,
        next: operand.next,
    };
    let statement = CoreStatement::Log {
        position: Some(position),
        value: operand.expression,
    };
    joined(front, one(alloc, statement, operand.next)?)
}

/// A choice between the codes of two branches.
pub fn branched(
    alloc: Global,
    position: Position,
    condition: Placed,
    yes: Written,
    no: Written,
) -> Result<Written, NoMemory>
    ensures { IfOk result (λ w. code_view w ≡ behind (placed_view condition) (λ e j. desugar.branched position e (code_view yes) (code_view no))) }
{
    let front = Written {
        statements: condition.statements,
        next: condition.next,
    };
    let statement = CoreStatement::If {
        position: Some(position),
        test: condition.expression,
        yes: yes.statements,
        no: no.statements,
    };
    joined(front, one(alloc, statement, no.next)?)
}

/// A block whose thrown value is caught under a name, for the code of the handler. Want of memory is the only error.
pub fn tried(
    alloc: Global,
    position: Position,
    block: Written,
    name: &LocalName,
    handler: Written,
) -> Result<Written, NoMemory>
    ensures { IfOk result (λ w. code_view w ≡ desugar.tried position name.now (code_view block) (code_view handler)) }
{
    let caught = CoreVariable::Local(name.copied()?);
    let statement = CoreStatement::Try {
        position: Some(position),
        block: block.statements,
        variable: caught,
        handler: handler.statements,
    };
    one(alloc, statement, handler.next)
}

/// A block behind which the code of a finalizer runs, however it ends. Want of memory is the only error.
pub fn finished(
    alloc: Global,
    position: Position,
    block: Written,
    finalizer: Written,
) -> Result<Written, NoMemory>
    ensures { IfOk result (λ w. code_view w ≡ desugar.finished position (code_view block) (code_view finalizer)) }
{
    let statement = CoreStatement::Finally {
        position: Some(position),
        block: block.statements,
        finalizer: finalizer.statements,
    };
    one(alloc, statement, finalizer.next)
}

// `(!c)`
fn negated(alloc: Global, condition: CoreExpression) -> Result<CoreExpression, NoMemory>
    ensures { IfOk result (λ e. expression_view e ≡ terms.unary_of BooleanNot (expression_view condition)) }
{
    let operand = Box::new(alloc, condition)?;
    Ok(CoreExpression::Unary(UnaryOp::BooleanNot, operand))
}

// `break;`
fn nearest_break(alloc: Global) -> Result<Vec<CoreStatement>, NoMemory>
    ensures { IfOk result (λ ss. statements_view ss.items ≡ terms.statement (terms.break_nearest None) terms.no_statements) }
{
    let mut statements = Vec::new(alloc);
    statements.push(CoreStatement::Break { position: None })?;
    Ok(statements)
}

// `if (!c) { break; }`
fn break_unless(alloc: Global, condition: CoreExpression) -> Result<CoreStatement, NoMemory>
    ensures { IfOk result (λ s. statement_view s ≡ desugar.break_unless (expression_view condition)) }
{
    let test = negated(alloc, condition)?;
    let leaving = nearest_break(alloc)?;
    Ok(CoreStatement::If {
        position: None,
        test,
        yes: leaving,
        no: Vec::new(alloc),
    })
}

/// A loop with a plain condition.
pub fn looped(
    alloc: Global,
    sure: &[LocalName],
    position: Position,
    condition: &Tree,
    body: Written,
) -> Result<Written, NoMemory>
    ensures { IfOk result (λ w. code_view w ≡ desugar.wrapped (terms.while_of (Some position) (desugar.expression_of (is_among sure.now) (view condition.now))) (code_view body)) }
{
    let test = expression_of(alloc, sure, condition)?;
    while_code(alloc, position, test, body)
}

fn while_code(
    alloc: Global,
    position: Position,
    test: CoreExpression,
    body: Written,
) -> Result<Written, NoMemory>
    ensures { IfOk result (λ w. code_view w ≡ desugar.wrapped (terms.while_of (Some position) (expression_view test)) (code_view body)) }
{
    let statement = CoreStatement::While {
        position: Some(position),
        test,
        body: body.statements,
    };
    one(alloc, statement, body.next)
}

/// A loop whose turns begin with the condition, and a break where it is false.
pub fn tested_loop(
    alloc: Global,
    position: Position,
    condition: Placed,
    body: Written,
) -> Result<Written, NoMemory>
    ensures { IfOk result (λ w. code_view w ≡ desugar.wrapped (terms.while_of (Some position) (terms.boolean_value true)) (behind (placed_view condition) (λ e j. spill.put_first (desugar.break_unless e) (code_view body)))) }
{
    let front = Written {
        statements: condition.statements,
        next: condition.next,
    };
    let test = break_unless(alloc, condition.expression)?;
    let turn = joined(front, put_first(alloc, test, body)?)?;
    while_code(alloc, position, CoreExpression::Boolean(true), turn)
}

/// A loop whose turns end with the condition, and a break where it is false.
pub fn looped_behind(
    alloc: Global,
    position: Position,
    body: Written,
    condition: Placed,
) -> Result<Written, NoMemory>
    ensures { IfOk result (λ w. code_view w ≡ desugar.wrapped (terms.loop_of (Some position)) (spill.joined (code_view body) (behind (placed_view condition) (λ e. spill.one (desugar.break_unless e))))) }
{
    let front = Written {
        statements: condition.statements,
        next: condition.next,
    };
    let test = break_unless(alloc, condition.expression)?;
    let turn = joined(body, joined(front, one(alloc, test, condition.next)?)?)?;
    one(
        alloc,
        CoreStatement::Loop {
            position: Some(position),
            body: turn.statements,
        },
        turn.next,
    )
}

/// A case of a switch: its keys, and its code with a break behind it.
pub fn case_of(alloc: Global, keys: &[i32], code: Written) -> Result<CoreCase, NoMemory>
    ensures { IfOk result (λ c. case_view c ≡ (keys.now, terms.followed (code_view code).statements (terms.statement (terms.break_nearest None) terms.no_statements))) }
{
    let next = code.next;
    let body = joined(
        code,
        one(alloc, CoreStatement::Break { position: None }, next)?,
    )?;
    Ok(CoreCase {
        keys: copied_keys(alloc, keys)?,
        body: body.statements,
    })
}

fn copied_keys(alloc: Global, keys: &[i32]) -> Result<Items<i32>, NoMemory>
    ensures { IfOk result (λ copies. copies ≡ keys.now) }
{
    let mut copies = Vec::new(alloc);
    for key in keys {
        copies.push(*key)?;
    }
    Ok(Items::from_vec(copies))
}

/// A choice between cases by a selector.
pub fn switched(
    alloc: Global,
    position: Position,
    selector: Placed,
    branches: SwitchCases,
    default: Written,
) -> Result<Written, NoMemory>
    ensures { IfOk result (λ w. code_view w ≡ behind (placed_view selector) (λ e j. desugar.switched position e (branches_view branches) (code_view default))) }
{
    let front = Written {
        statements: selector.statements,
        next: selector.next,
    };
    let statement = CoreStatement::Switch {
        position: Some(position),
        selector: selector.expression,
        cases: branches.cases,
        default: default.statements,
    };
    joined(front, one(alloc, statement, default.next)?)
}

/// An operator on an operand, whose value goes to a destination.
pub fn unary_value(
    alloc: Global,
    destination: &Destination,
    position: Position,
    op: UnaryOp,
    operand: Placed,
) -> Result<Written, NoMemory>
    ensures { IfOk result (λ w. code_view w ≡ behind (placed_view operand) (λ e. desugar.finish (destination_view destination.now) position (unary_result op) false (terms.unary_of op e))) }
{
    let front = Written {
        statements: operand.statements,
        next: operand.next,
    };
    let value = CoreExpression::Unary(op, Box::new(alloc, operand.expression)?);
    let tpe = op.result_type();
    let back = finish(
        alloc,
        destination,
        position,
        &tpe,
        false,
        value,
        operand.next,
    )?;
    joined(front, back)
}

/// An operator with the trees of its operands.
#[derive(Clone, Copy)]
pub struct Operation<'t> {
    pub op: BinaryOp,
    pub left: &'t Tree,
    pub right: &'t Tree,
}

/// An operator on what its two trees come to as operands. Its value goes to a destination.
pub fn binary_value(
    alloc: Global,
    destination: &Destination,
    position: Position,
    operation: &Operation<'_>,
    left: Placed,
    right: Placed,
) -> Result<Written, NoMemory>
    ensures { IfOk result (λ w. code_view w ≡ behind (placed_view left) (λ e j. behind (placed_view right) (λ g. desugar.finish (destination_view destination.now) position (binary_result operation.now.op) false (terms.binary_of operation.now.op (texts.operand_of operation.now.op (type_of_term (view operation.now.left.now)) e) (texts.operand_of operation.now.op (type_of_term (view operation.now.right.now)) g))))) }
{
    let value = binary(alloc, operation, left.expression, right.expression)?;
    let tpe = operation.op.result_type();
    let back = finish(alloc, destination, position, &tpe, false, value, right.next)?;
    let first = Written {
        statements: left.statements,
        next: left.next,
    };
    let second = Written {
        statements: right.statements,
        next: right.next,
    };
    joined(first, joined(second, back)?)
}

fn binary(
    alloc: Global,
    operation: &Operation<'_>,
    left: CoreExpression,
    right: CoreExpression,
) -> Result<CoreExpression, NoMemory>
    ensures { IfOk result (λ e. expression_view e ≡ terms.binary_of operation.now.op (texts.operand_of operation.now.op (type_of_term (view operation.now.left.now)) (expression_view left)) (texts.operand_of operation.now.op (type_of_term (view operation.now.right.now)) (expression_view right))) }
{
    let left = operand_of(alloc, operation.op, operation.left, left)?;
    let right = operand_of(alloc, operation.op, operation.right, right)?;
    Ok(CoreExpression::Binary(operation.op, left, right))
}

/// The member that a call names.
#[derive(Clone, Copy)]
pub struct CalledMember<'m> {
    pub class: &'m ClassName,
    pub namespace: Namespace,
    pub method: &'m MethodName,
}

/// A call with these arguments, whose value goes to a destination.
pub fn call_value(
    alloc: Global,
    destination: &Destination,
    position: Position,
    callee: &CalledMember<'_>,
    tpe: &IrType,
    arguments: PlacedAll,
) -> Result<Written, NoMemory>
    ensures { IfOk result (λ w. code_view w ≡ spill.then_use (all_view arguments) (λ es. desugar.finish (destination_view destination.now) position tpe.now false (terms.static_call (desugar.member callee.now.class.now callee.now.namespace callee.now.method.now) (expressions_of es)))) }
{
    let front = Written {
        statements: arguments.statements,
        next: arguments.next,
    };
    let value = static_call(
        callee.class,
        callee.namespace,
        callee.method,
        arguments.expressions,
    )?;
    let back = finish(
        alloc,
        destination,
        position,
        tpe,
        false,
        value,
        arguments.next,
    )?;
    joined(front, back)
}

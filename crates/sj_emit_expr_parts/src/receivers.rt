// What has to be asked for what a body calls on receivers.
ghost use Rattle.std.specs.Prelude.{◌≡◌, ◌++◌, IfOk, OnOk};
ghost use Rattle.sj_emit_expr_questions.specs.Calls as calls;
ghost use Rattle.sj_core.specs.Views as core;

use sj_core::{Callee, CoreCase, CoreExpression, CoreStatement};
use sj_emit_expr_questions::Inquiry;
use sj_names::{Member, Namespace, NoMemory};
use std::alloc::Global;

// Adds the target of a public member.
fn add_target(member: &Member, inquiries: &mut Vec<Inquiry>) -> Result<(), NoMemory>
    ensures { OnOk result (inquiries.new.items ≡ inquiries.old.items ++ calls.if_public member.now.namespace member.now) }
{
    match member.namespace {
        Namespace::Public => {
            inquiries.push(Inquiry::Target(member.copied()?))?;
            Ok(())
        }
        _ => Ok(()),
    }
}

// Adds what has to be asked for what is called.
fn add(callee: &Callee, inquiries: &mut Vec<Inquiry>) -> Result<(), NoMemory>
    ensures { OnOk result (inquiries.new.items ≡ inquiries.old.items ++ calls.own_call callee.now) }
{
    match callee {
        Callee::Member(member) => add_target(member, inquiries),
        Callee::LookedUp(class, _) => {
            inquiries.push(Inquiry::Hijacked(class.copied()?))?;
            Ok(())
        }
        Callee::OfArray(_) | Callee::Reflective(_) => Ok(()),
    }
}

#[cycle(expression_calls)]
fn add_calls_in(expression: &CoreExpression, inquiries: &mut Vec<Inquiry>) -> Result<(), NoMemory>
    ensures { OnOk result (inquiries.new.items ≡ inquiries.old.items ++ calls.calls_in (core.expression_view expression.now)) }
{
    match expression {
        CoreExpression::Boxed(operand)
        | CoreExpression::CharText(operand)
        | CoreExpression::ValueText(operand)
        | CoreExpression::Field(operand, _, _)
        | CoreExpression::Checked(operand)
        | CoreExpression::Test(_, operand)
        | CoreExpression::Cast(_, operand)
        | CoreExpression::NewArray {
            array: _,
            length: operand,
        }
        | CoreExpression::Length { array: operand }
        | CoreExpression::Unary(_, operand) => add_calls_in(operand, inquiries),
        CoreExpression::Choice(test, yes, no) => {
            add_calls_in(test, inquiries)?;
            add_calls_in(yes, inquiries)?;
            add_calls_in(no, inquiries)
        }
        CoreExpression::StaticCall(_, arguments)
        | CoreExpression::Made(_, arguments)
        | CoreExpression::Array {
            array: _,
            items: arguments,
        } => add_calls_in_all(arguments, inquiries),
        CoreExpression::ReceiverCall(callee, receiver, arguments) => {
            add_calls_in(receiver, inquiries)?;
            add_calls_in_all(arguments, inquiries)?;
            add(callee, inquiries)
        }
        CoreExpression::Binary(_, left, right)
        | CoreExpression::Element {
            array: left,
            index: right,
        } => {
            add_calls_in(left, inquiries)?;
            add_calls_in(right, inquiries)
        }
        CoreExpression::Undefined
        | CoreExpression::Null
        | CoreExpression::Boolean(_)
        | CoreExpression::Number(_)
        | CoreExpression::Long(_)
        | CoreExpression::Text(_)
        | CoreExpression::Variable(_)
        | CoreExpression::StaticField(_, _)
        | CoreExpression::Module(_) => Ok(()),
    }
}

#[cycle(expression_calls)]
fn add_calls_in_all(
    expressions: &[CoreExpression],
    inquiries: &mut Vec<Inquiry>,
) -> Result<(), NoMemory>
    ensures { OnOk result (inquiries.new.items ≡ inquiries.old.items ++ calls.calls_in_all (core.expressions_view expressions.now)) }
{
    for each in expressions {
        add_calls_in(each, inquiries)?;
    }
    Ok(())
}

#[cycle(statement_calls)]
fn add_calls_of(statement: &CoreStatement, inquiries: &mut Vec<Inquiry>) -> Result<(), NoMemory>
    ensures { OnOk result (inquiries.new.items ≡ inquiries.old.items ++ calls.calls_of (core.statement_view statement.now)) }
{
    match statement {
        CoreStatement::Constant { value, .. }
        | CoreStatement::Define { value, .. }
        | CoreStatement::Assign { value, .. }
        | CoreStatement::Evaluate { value, .. }
        | CoreStatement::Return { value, .. }
        | CoreStatement::Log { value, .. }
        | CoreStatement::AssignStatic { value, .. }
        | CoreStatement::StoreModule { value, .. }
        | CoreStatement::Throw { value, .. } => add_calls_in(value, inquiries),
        CoreStatement::Declare { .. } | CoreStatement::Leave { .. } | CoreStatement::Break { .. } =>
            { Ok(()) }
        CoreStatement::AssignField { object, value, .. } => {
            add_calls_in(object, inquiries)?;
            add_calls_in(value, inquiries)
        }
        CoreStatement::AssignElement {
            position: _,
            tpe: _,
            array,
            index,
            value,
        } => {
            add_calls_in(array, inquiries)?;
            add_calls_in(index, inquiries)?;
            add_calls_in(value, inquiries)
        }
        CoreStatement::If { test, yes, no, .. } => {
            add_calls_in(test, inquiries)?;
            add_calls_of_all(yes, inquiries)?;
            add_calls_of_all(no, inquiries)
        }
        CoreStatement::While { test, body, .. } => {
            add_calls_in(test, inquiries)?;
            add_calls_of_all(body, inquiries)
        }
        CoreStatement::Loop { body, .. } | CoreStatement::Labeled { body, .. } => {
            add_calls_of_all(body, inquiries)
        }
        CoreStatement::Finally {
            block,
            finalizer,
            ..
        } => {
            add_calls_of_all(block, inquiries)?;
            add_calls_of_all(finalizer, inquiries)
        }
        CoreStatement::Try { block, handler, .. } => {
            add_calls_of_all(block, inquiries)?;
            add_calls_of_all(handler, inquiries)
        }
        CoreStatement::Switch {
            selector,
            cases,
            default,
            ..
        } => {
            add_calls_in(selector, inquiries)?;
            add_calls_of_cases(cases, inquiries)?;
            add_calls_of_all(default, inquiries)
        }
    }
}

#[cycle(statement_calls)]
fn add_calls_of_all(
    statements: &[CoreStatement],
    inquiries: &mut Vec<Inquiry>,
) -> Result<(), NoMemory>
    ensures { OnOk result (inquiries.new.items ≡ inquiries.old.items ++ calls.calls_of_all (core.statements_view statements.now)) }
{
    for each in statements {
        add_calls_of(each, inquiries)?;
    }
    Ok(())
}

#[cycle(statement_calls)]
fn add_calls_of_cases(cases: &[CoreCase], inquiries: &mut Vec<Inquiry>) -> Result<(), NoMemory>
    ensures { OnOk result (inquiries.new.items ≡ inquiries.old.items ++ calls.calls_of_cases (core.cases_view cases.now)) }
{
    for each in cases {
        add_calls_of_case(each, inquiries)?;
    }
    Ok(())
}

#[cycle(statement_calls)]
fn add_calls_of_case(case: &CoreCase, inquiries: &mut Vec<Inquiry>) -> Result<(), NoMemory>
    ensures { OnOk result (inquiries.new.items ≡ inquiries.old.items ++ calls.calls_of_all (core.case_view case.now).1) }
{
    add_calls_of_all(&case.body, inquiries)
}

/// What has to be asked for the calls of statements on receivers, each time something is called, in the order in which the calls are evaluated.
pub fn calls_of(alloc: Global, statements: &[CoreStatement]) -> Result<Vec<Inquiry>, NoMemory>
    ensures { IfOk result (λ inquiries. inquiries.items ≡ calls.calls_of_all (core.statements_view statements.now)) }
{
    let mut inquiries = Vec::new(alloc);
    add_calls_of_all(statements, &mut inquiries)?;
    Ok(inquiries)
}

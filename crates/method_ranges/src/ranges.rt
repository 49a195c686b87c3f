// What the types of a method's parts say of their values, learned part by part.
ghost use Rattle.std.specs.Prelude.{◌<◌, ◌^◌, All};
ghost use Rattle.js_tree.specs.Rules.{IsNumber, IsBig};
ghost use Rattle.sj_core.specs.Views as core;
ghost use Rattle.sj_emit_expr_pieces.specs.Ranges.{AreBytes, FitsBase, FitsArray, FitsType, FitsCallee, FitsVariable, FitsExpression, FitExpressions, FitsStatement, FitStatements, FitCases, FitsMethod};

use sj_core::{Callee, CoreCase, CoreExpression, CoreMethod, CoreStatement, CoreVariable};
use sj_emit_class_printing::text_fits;
use sj_emit_expr_pieces::{member_fits, method_name_fits};
use sj_names::{ArrayRef, BaseRef, LocalName};
use sj_trees::IrType;

fn base_fits(base: &BaseRef)
    ensures { FitsBase base.now }
{
    if let BaseRef::Class(name) = base {
        text_fits(name.text());
    }
}

fn byte_fits(byte: u8)
    ensures { byte < 2 ^ 8 }
{}

fn array_fits(array: &ArrayRef)
    ensures { FitsArray array.now }
{
    byte_fits(array.dimensions);
    base_fits(&array.base);
}

fn type_fits(tpe: &IrType)
    ensures { FitsType tpe.now }
{
    match tpe {
        IrType::Class(name) => text_fits(name.text()),
        IrType::Array(array) => array_fits(array),
        _ => {}
    }
}

fn callee_fits(callee: &Callee)
    ensures { FitsCallee callee.now }
{
    match callee {
        Callee::Member(member) => member_fits(member),
        Callee::LookedUp(class, method) => {
            text_fits(class.text());
            method_name_fits(method);
        }
        Callee::OfArray(method) | Callee::Reflective(method) => method_name_fits(method),
    }
}

fn variable_fits(variable: &CoreVariable)
    ensures { FitsVariable (core.variable_view variable.now) }
{
    if let CoreVariable::Local(name) = variable {
        text_fits(name.text());
    }
}

fn number_fits(number: i32)
    ensures { IsNumber number }
{}

fn long_fits(number: i64)
    ensures { IsBig number }
{}

#[cycle(expression_ranges)]
fn expression_fits(expression: &CoreExpression)
    ensures { FitsExpression (core.expression_view expression.now) }
{
    match expression {
        CoreExpression::Number(number) => number_fits(*number),
        CoreExpression::Long(number) => long_fits(*number),
        CoreExpression::Text(units) => {
            let _units = units.as_slice();
        }
        CoreExpression::Variable(variable) => variable_fits(variable),
        CoreExpression::Boxed(operand)
        | CoreExpression::CharText(operand)
        | CoreExpression::ValueText(operand)
        | CoreExpression::Checked(operand)
        | CoreExpression::Length { array: operand }
        | CoreExpression::Unary(_, operand) => expression_fits(operand),
        CoreExpression::NewArray { array, length } => {
            array_fits(array);
            expression_fits(length);
        }
        CoreExpression::Array { array, items } => {
            array_fits(array);
            expressions_fit(items);
        }
        CoreExpression::Choice(test, yes, no) => {
            expression_fits(test);
            expression_fits(yes);
            expression_fits(no);
        }
        CoreExpression::StaticCall(member, arguments) | CoreExpression::Made(member, arguments) => {
            member_fits(member);
            expressions_fit(arguments);
        }
        CoreExpression::Field(object, class, name) => {
            expression_fits(object);
            text_fits(class.text());
            text_fits(name.text());
        }
        CoreExpression::StaticField(class, name) => {
            text_fits(class.text());
            text_fits(name.text());
        }
        CoreExpression::Module(class) => text_fits(class.text()),
        CoreExpression::ReceiverCall(callee, object, arguments) => {
            callee_fits(callee);
            expression_fits(object);
            expressions_fit(arguments);
        }
        CoreExpression::Test(tpe, operand) | CoreExpression::Cast(tpe, operand) => {
            type_fits(tpe);
            expression_fits(operand);
        }
        CoreExpression::Binary(_, left, right)
        | CoreExpression::Element {
            array: left,
            index: right,
        } => {
            expression_fits(left);
            expression_fits(right);
        }
        CoreExpression::Undefined | CoreExpression::Null | CoreExpression::Boolean(_) => {}
    }
}

#[cycle(expression_ranges)]
fn expressions_fit(expressions: &[CoreExpression])
    ensures { FitExpressions (core.expressions_view expressions.now) }
{
    for each in expressions {
        expression_fits(each);
    }
}

fn keys_fit(keys: &[i32])
    ensures { All IsNumber keys.now }
{
    for key in keys {
        number_fits(*key);
    }
}

#[cycle(statement_ranges)]
fn statement_fits(statement: &CoreStatement)
    ensures { FitsStatement (core.statement_view statement.now) }
{
    match statement {
        CoreStatement::Constant {
            variable,
            value,
            ..
        }
        | CoreStatement::Define {
            variable,
            value,
            ..
        }
        | CoreStatement::Assign {
            variable,
            value,
            ..
        } => {
            variable_fits(variable);
            expression_fits(value);
        }
        CoreStatement::Declare { variable, .. } => variable_fits(variable),
        CoreStatement::Evaluate { value, .. }
        | CoreStatement::Return { value, .. }
        | CoreStatement::Log { value, .. }
        | CoreStatement::Throw { value, .. } => expression_fits(value),
        CoreStatement::AssignField {
            object,
            class,
            field: name,
            value,
            ..
        } => {
            expression_fits(object);
            text_fits(class.text());
            text_fits(name.text());
            expression_fits(value);
        }
        CoreStatement::AssignStatic {
            class,
            field: name,
            value,
            ..
        } => {
            text_fits(class.text());
            text_fits(name.text());
            expression_fits(value);
        }
        CoreStatement::AssignElement {
            position: _,
            tpe: _,
            array,
            index,
            value,
        } => {
            expression_fits(array);
            expression_fits(index);
            expression_fits(value);
        }
        CoreStatement::StoreModule { class, value, .. } => {
            text_fits(class.text());
            expression_fits(value);
        }
        CoreStatement::Leave { label, .. } => text_fits(label.text()),
        CoreStatement::Break { .. } => {}
        CoreStatement::If { test, yes, no, .. } => {
            expression_fits(test);
            statements_fit(yes);
            statements_fit(no);
        }
        CoreStatement::While { test, body, .. } => {
            expression_fits(test);
            statements_fit(body);
        }
        CoreStatement::Loop { body, .. } => statements_fit(body),
        CoreStatement::Labeled { label, body, .. } => {
            text_fits(label.text());
            statements_fit(body);
        }
        CoreStatement::Try {
            block,
            variable: name,
            handler,
            ..
        } => {
            statements_fit(block);
            variable_fits(name);
            statements_fit(handler);
        }
        CoreStatement::Finally {
            block,
            finalizer,
            ..
        } => {
            statements_fit(block);
            statements_fit(finalizer);
        }
        CoreStatement::Switch {
            selector,
            cases,
            default,
            ..
        } => {
            expression_fits(selector);
            cases_fit(cases);
            statements_fit(default);
        }
    }
}

#[cycle(statement_ranges)]
fn statements_fit(statements: &[CoreStatement])
    ensures { FitStatements (core.statements_view statements.now) }
{
    for each in statements {
        statement_fits(each);
    }
}

#[cycle(statement_ranges)]
fn cases_fit(cases: &[CoreCase])
    ensures { FitCases (core.cases_view cases.now) }
{
    for each in cases {
        case_fits(each);
    }
}

#[cycle(statement_ranges)]
fn case_fits(case: &CoreCase)
    ensures { All IsNumber (core.case_view case.now).0 × FitStatements (core.case_view case.now).1 }
{
    keys_fit(case.keys.as_slice());
    statements_fit(&case.body);
}

fn params_fit(params: &[LocalName])
    ensures { All AreBytes params.now }
{
    for param in params {
        text_fits(param.text());
    }
}

/// Each name, number and unit in a method of the core is in the range of its type.
pub fn method_fits(m: &CoreMethod)
    ensures { FitsMethod (core.method_view m.now) }
{
    params_fit(m.params.as_slice());
    statements_fit(&m.body);
}

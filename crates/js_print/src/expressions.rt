//! Expressions.
ghost use Rattle.std.specs.Prelude.{◌≡◌, OnOk, codes};
ghost use Rattle.js_tree.specs.Written.{put, ◌▸◌};
ghost use Rattle.js_tree.specs.Texts.{put_name, put_property, put_expression, put_expressions};
ghost use Rattle.js_tree.specs.Views.{expression_view, expressions_view};

use crate::writing::{append_big, append_boolean, append_number};
use js_tree::JsExpr;
use sj_names::{NoMemory, Text};
use text_print::{append, append_text};

// Appends an expression.
#[cycle(expression)]
pub(crate) fn append_expression(out: &mut Vec<u8>, expression: &JsExpr) -> Result<(), NoMemory>
    ensures { OnOk result (out.new.items ≡ put_expression (expression_view expression.now) out.old.items) }
{
    match expression {
        JsExpr::Null => append(out, "null"),
        JsExpr::Boolean(value) => append_boolean(out, *value),
        JsExpr::Undefined => append(out, "(void 0)"),
        JsExpr::Number(number) => append_number(out, *number),
        JsExpr::BigInt(number) => append_big(out, *number),
        JsExpr::Text(units) => append_text(out, units.as_slice()),
        JsExpr::Name(name) => append(out, name.as_str()),
        JsExpr::This => append(out, "this"),
        JsExpr::Property { object, property } => append_access(out, object, property),
        JsExpr::Index { object, index } => {
            append_expression(out, object)?;
            append_between(out, "[", index, "]")
        }
        JsExpr::Call {
            function,
            arguments,
        } => append_call(out, function, arguments),
        JsExpr::MethodCall {
            object,
            property,
            arguments,
        } => {
            append_access(out, object, property)?;
            append_list(out, "(", arguments, ")")
        }
        JsExpr::New { class, arguments } => {
            append(out, "new ")?;
            append_call(out, class, arguments)
        }
        JsExpr::NewArray(length) => append_between(out, "new Array(", length, ")"),
        JsExpr::List(items) => append_list(out, "[", items, "]"),
        JsExpr::Binary {
            left,
            operator,
            right,
        } => {
            append_between(out, "(", left, " ")?;
            append(out, operator.text())?;
            append_between(out, " ", right, ")")
        }
        JsExpr::Unary { operator, operand } => {
            append(out, "(")?;
            append_between(out, operator.text(), operand, ")")
        }
        JsExpr::Conditional { test, yes, no } => {
            append_between(out, "(", test, " ? ")?;
            append_before(out, yes, " : ")?;
            append_before(out, no, ")")
        }
        JsExpr::Host { function, argument } => {
            append(out, function.text())?;
            append_between(out, "(", argument, ")")
        }
        JsExpr::HostOfTwo {
            function,
            first,
            second,
        } => {
            append(out, function.text())?;
            append_between(out, "(", first, ", ")?;
            append_before(out, second, ")")
        }
    }
}

// Appends `e.p`
#[cycle(expression)]
pub(crate) fn append_access(
    out: &mut Vec<u8>,
    object: &JsExpr,
    property: &Text,
) -> Result<(), NoMemory>
    ensures { OnOk result (out.new.items ≡ (put_expression (expression_view object.now) ▸ put (codes ".") ▸ put_property property.now) out.old.items) }
{
    append_expression(out, object)?;
    append(out, ".")?;
    append(out, property.as_str())
}

// Appends an expression and a text behind it.
#[cycle(expression)]
pub(crate) fn append_before(
    out: &mut Vec<u8>,
    expression: &JsExpr,
    end: &str,
) -> Result<(), NoMemory>
    ensures { OnOk result (out.new.items ≡ (put_expression (expression_view expression.now) ▸ put end.now) out.old.items) }
{
    append_expression(out, expression)?;
    append(out, end)
}

// Appends an expression with a text in front of it and one behind it.
#[cycle(expression)]
pub(crate) fn append_between(
    out: &mut Vec<u8>,
    lead: &str,
    expression: &JsExpr,
    end: &str,
) -> Result<(), NoMemory>
    ensures { OnOk result (out.new.items ≡ (put lead.now ▸ put_expression (expression_view expression.now) ▸ put end.now) out.old.items) }
{
    append(out, lead)?;
    append_before(out, expression, end)
}

// Appends a name and the arguments of its call.
#[cycle(expression)]
fn append_call(out: &mut Vec<u8>, name: &Text, arguments: &[JsExpr]) -> Result<(), NoMemory>
    ensures { OnOk result (out.new.items ≡ (put_name name.now ▸ put (codes "(") ▸ put_expressions (expressions_view arguments.now) ▸ put (codes ")")) out.old.items) }
{
    append(out, name.as_str())?;
    append_list(out, "(", arguments, ")")
}

// Appends expressions in brackets.
#[cycle(expression)]
fn append_list(
    out: &mut Vec<u8>,
    open: &str,
    expressions: &[JsExpr],
    close: &str,
) -> Result<(), NoMemory>
    ensures { OnOk result (out.new.items ≡ (put open.now ▸ put_expressions (expressions_view expressions.now) ▸ put close.now) out.old.items) }
{
    append(out, open)?;
    append_expressions(out, expressions)?;
    append(out, close)
}

// Appends expressions with a comma and a space between them.
#[cycle(expression)]
fn append_expressions(out: &mut Vec<u8>, expressions: &[JsExpr]) -> Result<(), NoMemory>
    ensures { OnOk result (out.new.items ≡ put_expressions (expressions_view expressions.now) out.old.items) }
{
    match expressions {
        [] => Ok(()),
        [first, others @ ..] => {
            append_expression(out, first)?;
            for each in others {
                append(out, ", ")?;
                append_expression(out, each)?;
            }
            Ok(())
        }
    }
}

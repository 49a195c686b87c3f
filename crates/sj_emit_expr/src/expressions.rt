// The emitted text of expressions.
ghost use Rattle.std.specs.Prelude.{◌≡◌, IfOk};
ghost use Rattle.js_tree.specs.Views as js;
ghost use Rattle.sj_core.specs.Views as core;
ghost use Rattle.sj_emit_expr_spec.specs.Names.{variable_name, label_name};
ghost use Rattle.sj_emit_expr_spec.specs.Templates as templates;
ghost use Rattle.sj_emit_expr_parts.specs.Known.{lookup_of};

use js_tree::{HostFunction, JsExpr};
use sj_core::CoreExpression;
use sj_emit_expr_parts::{
    CallLookup, array_of, as_text, binary_template, boxed_char, call_of_callee, call_of_one,
    call_on, cast_template, element_of, host_call, is_nonzero_literal, length_of, new_array,
    new_object, test_template, unary_template, variable_name,
};
use sj_mangling::{ClassBinding, FieldBinding, class_binding, field_binding, function_name};
use sj_names::{NoMemory, Text};
use std::alloc::Global;

/// The expression that an expression of the core is emitted as.
#[cycle(expression)]
pub fn emit_expression(
    alloc: Global,
    known: &CallLookup,
    expression: &CoreExpression,
) -> Result<JsExpr, NoMemory>
    ensures { IfOk result (λ e. js.expression_view e ≡ templates.expression_template variable_name label_name (lookup_of known.now) (core.expression_view expression.now)) }
{
    match expression {
        CoreExpression::Undefined => Ok(JsExpr::Undefined),
        CoreExpression::Null => Ok(JsExpr::Null),
        CoreExpression::Boolean(value) => Ok(JsExpr::Boolean(*value)),
        CoreExpression::Number(value) => Ok(JsExpr::Number(*value)),
        CoreExpression::Long(value) => Ok(JsExpr::BigInt(*value)),
        CoreExpression::Text(units) => Ok(JsExpr::Text(units.copied()?)),
        CoreExpression::Variable(variable) => Ok(JsExpr::Name(variable_name(alloc, variable)?)),
        CoreExpression::Boxed(operand) => {
            let operand = emit_expression(alloc, known, operand)?;
            boxed_char(alloc, operand)
        }
        CoreExpression::CharText(operand) => {
            let operand = emit_expression(alloc, known, operand)?;
            host_call(alloc, HostFunction::StringFromCharCode, operand)
        }
        CoreExpression::ValueText(operand) => {
            let operand = emit_expression(alloc, known, operand)?;
            as_text(alloc, operand)
        }
        CoreExpression::Choice(test, yes, no) => {
            let test = emit_boxed(alloc, known, test)?;
            let yes = emit_boxed(alloc, known, yes)?;
            let no = emit_boxed(alloc, known, no)?;
            Ok(JsExpr::Conditional { test, yes, no })
        }
        CoreExpression::StaticCall(member, arguments) => {
            let function = function_name(alloc, member)?;
            let arguments = emit_expressions(alloc, known, arguments)?;
            Ok(JsExpr::Call {
                function,
                arguments,
            })
        }
        CoreExpression::Field(object, class, field) => {
            let property = field_binding(alloc, FieldBinding::Property, class, field)?;
            let object = emit_boxed(alloc, known, object)?;
            Ok(JsExpr::Property { object, property })
        }
        CoreExpression::StaticField(class, field) => Ok(JsExpr::Name(field_binding(
            alloc,
            FieldBinding::Variable,
            class,
            field,
        )?)),
        CoreExpression::Module(class) => {
            let function = class_binding(alloc, ClassBinding::LoadModule, class)?;
            Ok(JsExpr::Call {
                function,
                arguments: Vec::new(alloc),
            })
        }
        CoreExpression::Checked(operand) => {
            let check = Text::from_str(alloc, "$nn")?;
            let operand = emit_expression(alloc, known, operand)?;
            call_of_one(alloc, check, operand)
        }
        CoreExpression::Made(member, arguments) => {
            let constructor = function_name(alloc, member)?;
            let class = class_binding(alloc, ClassBinding::Class, &member.class)?;
            let arguments = emit_expressions(alloc, known, arguments)?;
            call_on(alloc, constructor, new_object(alloc, class), arguments)
        }
        CoreExpression::ReceiverCall(callee, receiver, arguments) => {
            let receiver = emit_expression(alloc, known, receiver)?;
            let arguments = emit_expressions(alloc, known, arguments)?;
            call_of_callee(alloc, known, callee, receiver, arguments)
        }
        CoreExpression::Test(tpe, operand) => {
            let operand = emit_expression(alloc, known, operand)?;
            test_template(alloc, tpe, operand)
        }
        CoreExpression::Cast(tpe, operand) => {
            let operand = emit_expression(alloc, known, operand)?;
            cast_template(alloc, tpe, operand)
        }
        CoreExpression::NewArray { array, length } => {
            let length = emit_expression(alloc, known, length)?;
            new_array(alloc, array, length)
        }
        CoreExpression::Array { array, items } => {
            let items = emit_expressions(alloc, known, items)?;
            array_of(alloc, array, items)
        }
        CoreExpression::Length { array } => {
            let array = emit_expression(alloc, known, array)?;
            length_of(alloc, array)
        }
        CoreExpression::Element { array, index } => {
            let array = emit_expression(alloc, known, array)?;
            let index = emit_expression(alloc, known, index)?;
            element_of(alloc, array, index)
        }
        CoreExpression::Unary(op, operand) => {
            let operand = emit_expression(alloc, known, operand)?;
            unary_template(alloc, *op, operand)
        }
        CoreExpression::Binary(op, left, right) => {
            let nonzero = is_nonzero_literal(right);
            let left = emit_expression(alloc, known, left)?;
            let right = emit_expression(alloc, known, right)?;
            binary_template(alloc, nonzero, *op, left, right)
        }
    }
}

#[cycle(expression)]
fn emit_boxed(
    alloc: Global,
    known: &CallLookup,
    expression: &CoreExpression,
) -> Result<Box<JsExpr>, NoMemory>
    ensures { IfOk result (λ e. js.expression_view e.value ≡ templates.expression_template variable_name label_name (lookup_of known.now) (core.expression_view expression.now)) }
{
    Ok(Box::new(alloc, emit_expression(alloc, known, expression)?)?)
}

#[cycle(expression)]
#[tactic(auto, using(std::proofs::lemmas::Grind::common_steps, crate::proofs::Lists::pushes))]
fn emit_expressions(
    alloc: Global,
    known: &CallLookup,
    expressions: &[CoreExpression],
) -> Result<Vec<JsExpr>, NoMemory>
    ensures { IfOk result (λ es. js.expressions_view es.items ≡ templates.expression_templates variable_name label_name (lookup_of known.now) (core.expressions_view expressions.now)) }
{
    let mut emitted = Vec::new(alloc);
    for each in expressions {
        emitted.push(emit_expression(alloc, known, each)?)?;
    }
    Ok(emitted)
}

// Arrays: their types as arguments of helpers, and the helpers that make them, read them and set their elements.
ghost use Rattle.std.specs.Prelude.{◌≡◌, IfOk, codes};
ghost use Rattle.js_tree.specs.Terms as js;
ghost use Rattle.js_tree.specs.Views.{expression_view, expressions_view};
ghost use Rattle.sj_emit_expr_spec.specs.Templates as templates;
ghost use Rattle.sj_emit_expr_spec.specs.Tests as tests;
ghost use Rattle.sj_trees.specs.Types.{element_type};

use crate::calls::in_front;
use crate::operators::{empty_text, helper_call};
use js_tree::JsExpr;
use piece_making::{text_of, wide_text};
use sj_mangling::{ClassBinding, class_binding};
use sj_names::{ArrayRef, BaseRef, NoMemory, Text, TypeRef};
use sj_trees::IrType;
use std::alloc::Global;

fn letter(alloc: Global, text: &str) -> Result<JsExpr, NoMemory>
    ensures { IfOk result (λ e. expression_view e ≡ js.text_literal text.now) }
{
    text_of(alloc, Ok(Text::from_str(alloc, text)?))
}

// The base of a type of arrays: the letter of a primitive one, or the constants of a class.
fn base_template(alloc: Global, base: &BaseRef) -> Result<JsExpr, NoMemory>
    ensures { IfOk result (λ e. expression_view e ≡ tests.base_template base.now) }
{
    match base {
        BaseRef::Boolean => letter(alloc, "Z"),
        BaseRef::Char => letter(alloc, "C"),
        BaseRef::Byte => letter(alloc, "B"),
        BaseRef::Short => letter(alloc, "S"),
        BaseRef::Int => letter(alloc, "I"),
        BaseRef::Long => letter(alloc, "J"),
        BaseRef::Class(class) => Ok(JsExpr::Name(class_binding(
            alloc,
            ClassBinding::Constants,
            class,
        )?)),
    }
}

/// The arguments that tell a type of arrays, in front of others: how many dimensions it has, and its base.
pub fn of_array(
    alloc: Global,
    array: &ArrayRef,
    others: Vec<JsExpr>,
) -> Result<Vec<JsExpr>, NoMemory>
    ensures { IfOk result (λ es. expressions_view es.items ≡ tests.of_array array.now (expressions_view others.items)) }
{
    let base = base_template(alloc, &array.base)?;
    let dimensions = JsExpr::Number(i32::from(array.dimensions));
    in_front(alloc, dimensions, in_front(alloc, base, others)?)
}

/// The spelling of a reference to arrays as a text.
pub fn array_text(alloc: Global, array: &ArrayRef) -> Result<JsExpr, NoMemory>
    ensures { IfOk result (λ e. expression_view e ≡ js.text_literal (tests.array_text array.now)) }
{
    let reference = TypeRef::Array(array.copied()?);
    let spelling = reference.spelled(alloc)?;
    wide_text(alloc, spelling.as_str())
}

// The value that an element of a type begins with.
fn zero_template(alloc: Global, tpe: &IrType) -> Result<JsExpr, NoMemory>
    ensures { IfOk result (λ e. expression_view e ≡ templates.zero_template tpe.now) }
{
    match tpe {
        IrType::Boolean => Ok(JsExpr::Boolean(false)),
        IrType::Char | IrType::Byte | IrType::Short | IrType::Int => Ok(JsExpr::Number(0)),
        IrType::Long => Ok(JsExpr::BigInt(0)),
        IrType::String => empty_text(alloc),
        IrType::Undefined => Ok(JsExpr::Undefined),
        _ => Ok(JsExpr::Null),
    }
}

fn zero_of_element(alloc: Global, array: &ArrayRef) -> Result<JsExpr, NoMemory>
    ensures { IfOk result (λ e. expression_view e ≡ templates.zero_template (element_type array.now)) }
{
    let element = IrType::of_items(array)?;
    zero_template(alloc, &element)
}

fn one_expression(alloc: Global, only: JsExpr) -> Result<Vec<JsExpr>, NoMemory>
    ensures { IfOk result (λ es. expressions_view es.items ≡ js.expression (expression_view only) js.no_expressions) }
{
    in_front(alloc, only, Vec::new(alloc))
}

/// `$mk(dimensions, base, length, zero)`: a new array of this length.
pub fn new_array(alloc: Global, array: &ArrayRef, length: JsExpr) -> Result<JsExpr, NoMemory>
    ensures { IfOk result (λ e. expression_view e ≡ js.call_of (codes "$mk") (tests.of_array array.now (js.expression (expression_view length) (js.expression (templates.zero_template (element_type array.now)) js.no_expressions)))) }
{
    let zero = one_expression(alloc, zero_of_element(alloc, array)?)?;
    let others = in_front(alloc, length, zero)?;
    let arguments = of_array(alloc, array, others)?;
    Ok(JsExpr::Call {
        function: Text::from_str(alloc, "$mk")?,
        arguments,
    })
}

/// `new $A(dimensions, base, [items])`: a new array with these items.
pub fn array_of(alloc: Global, array: &ArrayRef, items: Vec<JsExpr>) -> Result<JsExpr, NoMemory>
    ensures { IfOk result (λ e. expression_view e ≡ js.new_of (codes "$A") (tests.of_array array.now (js.expression (js.list_of (expressions_view items.items)) js.no_expressions))) }
{
    let others = one_expression(alloc, JsExpr::List(items))?;
    let arguments = of_array(alloc, array, others)?;
    let class = Text::from_str(alloc, "$A")?;
    Ok(JsExpr::New { class, arguments })
}

fn property_of(alloc: Global, object: JsExpr, property: &str) -> Result<JsExpr, NoMemory>
    ensures { IfOk result (λ e. expression_view e ≡ js.property_of (expression_view object) property.now) }
{
    let object = Box::new(alloc, object)?;
    let property = Text::from_str(alloc, property)?;
    Ok(JsExpr::Property { object, property })
}

/// `array.a.length`
pub fn length_of(alloc: Global, array: JsExpr) -> Result<JsExpr, NoMemory>
    ensures { IfOk result (λ e. expression_view e ≡ js.property_of (js.property_of (expression_view array) (codes "a")) (codes "length")) }
{
    let items = property_of(alloc, array, "a")?;
    property_of(alloc, items, "length")
}

/// `$get(array, index)`
pub fn element_of(alloc: Global, array: JsExpr, index: JsExpr) -> Result<JsExpr, NoMemory>
    ensures { IfOk result (λ e. expression_view e ≡ js.call_of (codes "$get") (js.expression (expression_view array) (js.expression (expression_view index) js.no_expressions))) }
{
    helper_call(alloc, "$get", array, index)
}

/// The helper that sets an element of this type.
pub fn element_setter(alloc: Global, tpe: &IrType) -> Result<Text, NoMemory>
    ensures { IfOk result (λ name. name ≡ templates.element_setter tpe.now) }
{
    match tpe {
        IrType::Undefined
        | IrType::Boolean
        | IrType::Char
        | IrType::Byte
        | IrType::Short
        | IrType::Int
        | IrType::Long
        | IrType::String
        | IrType::Null => Ok(Text::from_str(alloc, "$set")?),
        IrType::Any | IrType::Nothing | IrType::Class(_) | IrType::Array(_) | IrType::NoType => Ok(
            Text::from_str(alloc, "$put")?,
        ),
    }
}

/// `$set(array, index, value)` or `$put(array, index, value)`, by the type of the elements
pub fn element_set(
    alloc: Global,
    tpe: &IrType,
    array: JsExpr,
    index: JsExpr,
    value: JsExpr,
) -> Result<JsExpr, NoMemory>
    ensures { IfOk result (λ e. expression_view e ≡ js.call_of (templates.element_setter tpe.now) (js.expression (expression_view array) (js.expression (expression_view index) (js.expression (expression_view value) js.no_expressions)))) }
{
    let mut arguments = Vec::new(alloc);
    arguments.push(array)?;
    arguments.push(index)?;
    arguments.push(value)?;
    let function = element_setter(alloc, tpe)?;
    Ok(JsExpr::Call {
        function,
        arguments,
    })
}

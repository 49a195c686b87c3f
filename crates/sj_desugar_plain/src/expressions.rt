// Plain trees as expressions.
ghost use Rattle.std.specs.Prelude.{◌≡◌, IfOk, map};
ghost use Rattle.sj_core.specs.Views.{expression_view};
ghost use Rattle.sj_desugar_spec.specs.Coercions as coercions;
ghost use Rattle.sj_desugar_spec.specs.Desugar as desugar;
ghost use Rattle.sj_desugar_spec.specs.Plain as plain;
ghost use Rattle.sj_desugar_spec.specs.Texts as texts;
ghost use Rattle.sj_desugar_plain.specs.Arguments as arguments;
ghost use Rattle.sj_trees.specs.TypeOf.{type_of_term};
ghost use Rattle.sj_trees.specs.Types.{element_type};
ghost use Rattle.sj_trees.specs.View.{view, terms_view};
ghost use Rattle.sj_core.specs.Terms as terms;
ghost use Rattle.sj_core.specs.Views as core;
ghost use Rattle.sj_names.specs.declared.method_names.Namespace.TheVariants.{Constructor};
ghost use Rattle.sure_receivers.specs.Sure as receivers;

use crate::arrays::{array_of, element_of, length_of, new_array};
use crate::callees::{callee_on, member_called};
use crate::coercions::{coerced, coerced_argument};
use crate::texts::operand_of;
use sj_core::{Callee, CoreExpression, CoreVariable};
use sj_desugar_facts::is_sure;
use sj_names::{
    ArrayRef, ClassName, FieldName, LocalName, Member, MethodName, Namespace, NoMemory, TypeRef,
};
use sj_trees::{BinaryOp, IrType, Tree, type_of};
use std::alloc::Global;

/// A plain tree as an expression, in a body whose locals `sure` are never null. Any other stands as undefined.
#[cycle(expression)]
pub fn expression_of(
    alloc: Global,
    sure: &[LocalName],
    tree: &Tree,
) -> Result<CoreExpression, NoMemory>
    ensures { IfOk result (λ e. expression_view e ≡ desugar.expression_of (plain.is_among sure.now) (view tree.now)) }
{
    match tree {
        Tree::If {
            condition,
            yes,
            no,
            tpe,
            ..
        } => {
            let condition = boxed_expression(alloc, sure, condition)?;
            let yes = branch(alloc, sure, tpe, yes)?;
            let no = branch(alloc, sure, tpe, no)?;
            Ok(CoreExpression::Choice(condition, yes, no))
        }
        Tree::ApplyStatic {
            class,
            namespace,
            method,
            arguments: trees,
            ..
        } => {
            let arguments = arguments_of(alloc, sure, method.params.as_slice(), trees)?;
            static_call(class, *namespace, method, arguments)
        }
        Tree::Apply {
            receiver: object,
            method,
            arguments: trees,
            ..
        } => {
            let callee = callee_on(alloc, object, method)?;
            let arguments = arguments_of(alloc, sure, method.params.as_slice(), trees)?;
            call_on(alloc, sure, callee, object, arguments)
        }
        Tree::ApplyStatically {
            receiver: object,
            class,
            namespace,
            method,
            arguments: trees,
            ..
        } => {
            let callee = member_called(class, *namespace, method)?;
            let arguments = arguments_of(alloc, sure, method.params.as_slice(), trees)?;
            call_on(alloc, sure, callee, object, arguments)
        }
        Tree::This { .. } => Ok(CoreExpression::Variable(CoreVariable::Receiver)),
        Tree::New {
            class,
            constructor: method,
            arguments: trees,
            ..
        } => {
            let arguments = arguments_of(alloc, sure, method.params.as_slice(), trees)?;
            made(class, method, arguments)
        }
        Tree::Select {
            object,
            class,
            field,
            ..
        } => {
            let object = received(alloc, sure, object)?;
            field_of(alloc, object, class, field)
        }
        Tree::SelectStatic { class, field, .. } => static_field(class, field),
        Tree::LoadModule { class, .. } => module_of(class),
        Tree::UnaryOp {
            operator: op,
            operand,
            ..
        } => { Ok(CoreExpression::Unary(*op, boxed_expression(alloc, sure, operand)?)) }
        Tree::BinaryOp {
            operator: op,
            left,
            right,
            ..
        } => {
            let left = operand(alloc, sure, *op, left)?;
            let right = operand(alloc, sure, *op, right)?;
            Ok(CoreExpression::Binary(*op, left, right))
        }
        Tree::IsInstanceOf { value, tpe, .. } => {
            let value = branch(alloc, sure, &IrType::Any, value)?;
            tested(tpe, value)
        }
        Tree::AsInstanceOf { value, tpe, .. } => {
            let value = branch(alloc, sure, &IrType::Any, value)?;
            cast(tpe, value)
        }
        Tree::NewArray { array, length, .. } => array_sized(alloc, sure, array, length),
        Tree::ArrayValue {
            array,
            items: trees,
            ..
        } => array_with(alloc, sure, array, trees),
        Tree::ArrayLength { array, .. } => length_at(alloc, sure, array),
        Tree::ArraySelect { array, index, .. } => {
            let index = expression_of(alloc, sure, index)?;
            element_at(alloc, sure, array, index)
        }
        Tree::Null { .. } => Ok(CoreExpression::Null),
        Tree::BooleanLiteral { value, .. } => Ok(CoreExpression::Boolean(*value)),
        Tree::CharLiteral { value: unit, .. } => Ok(CoreExpression::Number(i32::from(*unit))),
        Tree::ByteLiteral { value, .. } => Ok(CoreExpression::Number(i32::from(*value))),
        Tree::ShortLiteral { value, .. } => Ok(CoreExpression::Number(i32::from(*value))),
        Tree::IntLiteral { value, .. } => Ok(CoreExpression::Number(*value)),
        Tree::LongLiteral { value, .. } => Ok(CoreExpression::Long(*value)),
        Tree::StringLiteral { value: units, .. } => Ok(CoreExpression::Text(units.copied()?)),
        Tree::VarRef { name, .. } => local_use(name),
        Tree::VarDef { .. }
        | Tree::Skip { .. }
        | Tree::Block { .. }
        | Tree::Labeled { .. }
        | Tree::Assign { .. }
        | Tree::Return { .. }
        | Tree::While { .. }
        | Tree::DoWhile { .. }
        | Tree::TryCatch { .. }
        | Tree::TryFinally { .. }
        | Tree::Throw { .. }
        | Tree::Match { .. }
        | Tree::StoreModule { .. }
        | Tree::Undefined { .. }
        | Tree::Log { .. } => Ok(CoreExpression::Undefined),
    }
}

#[cycle(expression)]
fn boxed_expression(
    alloc: Global,
    sure: &[LocalName],
    tree: &Tree,
) -> Result<Box<CoreExpression>, NoMemory>
    ensures { IfOk result (λ e. expression_view e.value ≡ desugar.expression_of (plain.is_among sure.now) (view tree.now)) }
{
    Ok(Box::new(alloc, expression_of(alloc, sure, tree)?)?)
}

// An operand of an operator.
#[cycle(expression)]
fn operand(
    alloc: Global,
    sure: &[LocalName],
    op: BinaryOp,
    tree: &Tree,
) -> Result<Box<CoreExpression>, NoMemory>
    ensures { IfOk result (λ e. expression_view e.value ≡ texts.operand_of op (type_of_term (view tree.now)) (desugar.expression_of (plain.is_among sure.now) (view tree.now))) }
{
    let expression = expression_of(alloc, sure, tree)?;
    operand_of(alloc, op, tree, expression)
}

// A receiver, with its null check unless it is sure.
#[cycle(expression)]
fn received(alloc: Global, sure: &[LocalName], tree: &Tree) -> Result<CoreExpression, NoMemory>
    ensures { IfOk result (λ e. expression_view e ≡ desugar.received_text (receivers.is_sure (plain.is_among sure.now) (view tree.now)) (desugar.expression_of (plain.is_among sure.now) (view tree.now))) }
{
    let never_null = is_sure(alloc, sure, tree)?;
    let value = expression_of(alloc, sure, tree)?;
    received_text(alloc, never_null, value)
}

// The receiver of a call: a char is called as an object that holds it.
#[cycle(expression)]
fn called(alloc: Global, sure: &[LocalName], tree: &Tree) -> Result<Box<CoreExpression>, NoMemory>
    ensures { IfOk result (λ e. expression_view e.value ≡ coercions.coerced_receiver (type_of_term (view tree.now)) (desugar.received_text (receivers.is_sure (plain.is_among sure.now) (view tree.now)) (desugar.expression_of (plain.is_among sure.now) (view tree.now)))) }
{
    let own = type_of(alloc, tree)?;
    let value = received(alloc, sure, tree)?;
    coerced_receiver(alloc, &own, value)
}

// A call on the value of a tree.
#[cycle(expression)]
fn call_on(
    alloc: Global,
    sure: &[LocalName],
    callee: Callee,
    object: &Tree,
    arguments: Vec<CoreExpression>,
) -> Result<CoreExpression, NoMemory>
    ensures { IfOk result (λ e. expression_view e ≡ terms.receiver_call callee (coercions.coerced_receiver (type_of_term (view object.now)) (desugar.received_text (receivers.is_sure (plain.is_among sure.now) (view object.now)) (desugar.expression_of (plain.is_among sure.now) (view object.now)))) (core.expressions_view arguments.items)) }
{
    let receiver = called(alloc, sure, object)?;
    Ok(receiver_call(callee, receiver, arguments))
}

// A branch of a choice of this type, or an operand where it is expected.
#[cycle(expression)]
fn branch(
    alloc: Global,
    sure: &[LocalName],
    tpe: &IrType,
    tree: &Tree,
) -> Result<Box<CoreExpression>, NoMemory>
    ensures { IfOk result (λ e. expression_view e.value ≡ coercions.coerced tpe.now (type_of_term (view tree.now)) (desugar.expression_of (plain.is_among sure.now) (view tree.now))) }
{
    Ok(Box::new(alloc, value_as(alloc, sure, tpe, tree)?)?)
}

// A tree where a value of this type is expected.
#[cycle(expression)]
fn value_as(
    alloc: Global,
    sure: &[LocalName],
    tpe: &IrType,
    tree: &Tree,
) -> Result<CoreExpression, NoMemory>
    ensures { IfOk result (λ e. expression_view e ≡ coercions.coerced tpe.now (type_of_term (view tree.now)) (desugar.expression_of (plain.is_among sure.now) (view tree.now))) }
{
    let own = type_of(alloc, tree)?;
    let expression = expression_of(alloc, sure, tree)?;
    coerced(alloc, tpe, &own, expression)
}

// A new array of this type and length.
#[cycle(expression)]
fn array_sized(
    alloc: Global,
    sure: &[LocalName],
    array: &ArrayRef,
    length: &Tree,
) -> Result<CoreExpression, NoMemory>
    ensures { IfOk result (λ e. expression_view e ≡ terms.new_array_of array.now (desugar.expression_of (plain.is_among sure.now) (view length.now))) }
{
    let length = boxed_expression(alloc, sure, length)?;
    new_array(array, length)
}

// A new array of this type with these items.
#[cycle(expression)]
fn array_with(
    alloc: Global,
    sure: &[LocalName],
    array: &ArrayRef,
    trees: &[Tree],
) -> Result<CoreExpression, NoMemory>
    ensures { IfOk result (λ e. expression_view e ≡ terms.array_of array.now (core.expressions_of (coercions.coerced_items (element_type array.now) (desugar.types_of (terms_view trees.now)) (desugar.all_expressions (plain.is_among sure.now) (terms_view trees.now))))) }
{
    let tpe = IrType::of_items(array)?;
    let items = items_of(alloc, sure, &tpe, trees)?;
    array_of(array, items)
}

// The length of an array.
#[cycle(expression)]
fn length_at(alloc: Global, sure: &[LocalName], array: &Tree) -> Result<CoreExpression, NoMemory>
    ensures { IfOk result (λ e. expression_view e ≡ terms.length_of (desugar.received_text (receivers.is_sure (plain.is_among sure.now) (view array.now)) (desugar.expression_of (plain.is_among sure.now) (view array.now)))) }
{
    let array = received(alloc, sure, array)?;
    length_of(alloc, array)
}

// The element of an array at an index.
#[cycle(expression)]
fn element_at(
    alloc: Global,
    sure: &[LocalName],
    array: &Tree,
    index: CoreExpression,
) -> Result<CoreExpression, NoMemory>
    ensures { IfOk result (λ e. expression_view e ≡ terms.element_of (desugar.received_text (receivers.is_sure (plain.is_among sure.now) (view array.now)) (desugar.expression_of (plain.is_among sure.now) (view array.now))) (expression_view index)) }
{
    let array = received(alloc, sure, array)?;
    element_of(alloc, array, index)
}

// The items of an array with elements of this type.
#[cycle(expression)]
fn items_of(
    alloc: Global,
    sure: &[LocalName],
    tpe: &IrType,
    trees: &[Tree],
) -> Result<Vec<CoreExpression>, NoMemory>
    ensures { IfOk result (λ es. map expression_view es.items ≡ coercions.coerced_items tpe.now (desugar.types_of (terms_view trees.now)) (desugar.all_expressions (plain.is_among sure.now) (terms_view trees.now))) }
{
    let mut items = Vec::new(alloc);
    for each in trees {
        items.push(value_as(alloc, sure, tpe, each)?)?;
    }
    Ok(items)
}

// The arguments of a call whose parameters have these references.
#[cycle(expression)]
#[tactic(auto, using(std::proofs::lemmas::Grind::common_steps, crate::proofs::Arguments::arguments))]
fn arguments_of(
    alloc: Global,
    sure: &[LocalName],
    params: &[TypeRef],
    trees: &[Tree],
) -> Result<Vec<CoreExpression>, NoMemory>
    ensures { IfOk result (λ es. map expression_view es.items ≡ coercions.coerced_arguments params.now (desugar.types_of (terms_view trees.now)) (desugar.all_expressions (plain.is_among sure.now) (terms_view trees.now))) }
{
    let mut arguments = Vec::new(alloc);
    let mut left = params;
    for each in trees {
        arguments.push(argument_of(alloc, sure, left, each)?)?;
        left = without_first(left);
    }
    Ok(arguments)
}

// An argument for the first of these parameters.
#[cycle(expression)]
fn argument_of(
    alloc: Global,
    sure: &[LocalName],
    params: &[TypeRef],
    tree: &Tree,
) -> Result<CoreExpression, NoMemory>
    ensures { IfOk result (λ e. expression_view e ≡ arguments.coerced_argument params.now (type_of_term (view tree.now)) (desugar.expression_of (plain.is_among sure.now) (view tree.now))) }
{
    let own = type_of(alloc, tree)?;
    let expression = expression_of(alloc, sure, tree)?;
    coerced_argument(alloc, params, &own, expression)
}

/// The parameters behind the first.
pub fn without_first(params: &[TypeRef]) -> &[TypeRef]
    ensures { result.now ≡ arguments.without_first params.now }
{
    match params {
        [] => params,
        [_, others @ ..] => others,
    }
}

/// A call of a static method.
pub fn static_call(
    class: &ClassName,
    namespace: Namespace,
    method: &MethodName,
    arguments: Vec<CoreExpression>,
) -> Result<CoreExpression, NoMemory>
    ensures { IfOk result (λ e. expression_view e ≡ terms.static_call (desugar.member class.now namespace method.now) (core.expressions_view arguments.items)) }
{
    let class = class.copied()?;
    let method = method.copied()?;
    Ok(CoreExpression::StaticCall(
        Member {
            class,
            namespace,
            method,
        },
        arguments,
    ))
}

/// Whether a value is an instance of the type.
pub fn tested(tpe: &IrType, value: Box<CoreExpression>) -> Result<CoreExpression, NoMemory>
    ensures { IfOk result (λ e. expression_view e ≡ terms.test_of tpe.now (expression_view value.value)) }
{
    Ok(CoreExpression::Test(tpe.copied()?, value))
}

/// A value that is cast to the type.
pub fn cast(tpe: &IrType, value: Box<CoreExpression>) -> Result<CoreExpression, NoMemory>
    ensures { IfOk result (λ e. expression_view e ≡ terms.cast_of tpe.now (expression_view value.value)) }
{
    Ok(CoreExpression::Cast(tpe.copied()?, value))
}

/// A receiver with its null check, unless it is never null.
fn received_text(
    alloc: Global,
    never_null: bool,
    value: CoreExpression,
) -> Result<CoreExpression, NoMemory>
    ensures { IfOk result (λ e. expression_view e ≡ desugar.received_text never_null (expression_view value)) }
{
    if never_null {
        Ok(value)
    } else {
        checked(alloc, value)
    }
}

/// A value with its null check.
pub fn checked(alloc: Global, value: CoreExpression) -> Result<CoreExpression, NoMemory>
    ensures { IfOk result (λ e. expression_view e ≡ terms.checked_value (expression_view value)) }
{
    Ok(CoreExpression::Checked(Box::new(alloc, value)?))
}

/// The receiver of a call that has this type: a char is called as an object that holds it.
pub fn coerced_receiver(
    alloc: Global,
    own: &IrType,
    value: CoreExpression,
) -> Result<Box<CoreExpression>, NoMemory>
    ensures { IfOk result (λ e. expression_view e.value ≡ coercions.coerced_receiver own.now (expression_view value)) }
{
    let value = Box::new(alloc, value)?;
    match own {
        IrType::Char => Ok(Box::new(alloc, CoreExpression::Boxed(value))?),
        _ => Ok(value),
    }
}

/// A call on a receiver.
pub fn receiver_call(
    callee: Callee,
    receiver: Box<CoreExpression>,
    arguments: Vec<CoreExpression>,
) -> CoreExpression
    ensures { expression_view result ≡ terms.receiver_call callee (expression_view receiver.value) (core.expressions_view arguments.items) }
{
    CoreExpression::ReceiverCall(callee, receiver, arguments)
}

/// A new object of the class, on which this constructor of it runs.
pub fn made(
    class: &ClassName,
    method: &MethodName,
    arguments: Vec<CoreExpression>,
) -> Result<CoreExpression, NoMemory>
    ensures { IfOk result (λ e. expression_view e ≡ terms.made_of (desugar.member class.now Constructor method.now) (core.expressions_view arguments.items)) }
{
    let class = class.copied()?;
    let method = method.copied()?;
    Ok(CoreExpression::Made(
        Member {
            class,
            namespace: Namespace::Constructor,
            method,
        },
        arguments,
    ))
}

/// A field of an object.
pub fn field_of(
    alloc: Global,
    object: CoreExpression,
    class: &ClassName,
    field: &FieldName,
) -> Result<CoreExpression, NoMemory>
    ensures { IfOk result (λ e. expression_view e ≡ terms.field_of (expression_view object) class.now field.now) }
{
    let object = Box::new(alloc, object)?;
    let class = class.copied()?;
    Ok(CoreExpression::Field(object, class, field.copied()?))
}

/// A static field.
pub fn static_field(class: &ClassName, field: &FieldName) -> Result<CoreExpression, NoMemory>
    ensures { IfOk result (λ e. expression_view e ≡ terms.static_of class.now field.now) }
{
    let class = class.copied()?;
    Ok(CoreExpression::StaticField(class, field.copied()?))
}

/// The one object of a class. Want of memory is the only error.
pub fn module_of(class: &ClassName) -> Result<CoreExpression, NoMemory>
    ensures { IfOk result (λ e. expression_view e ≡ terms.module_of class.now) }
{
    Ok(CoreExpression::Module(class.copied()?))
}

/// A local by its name.
pub fn local_use(name: &LocalName) -> Result<CoreExpression, NoMemory>
    ensures { IfOk result (λ e. expression_view e ≡ terms.variable_use (terms.named name.now)) }
{
    let name = name.copied()?;
    Ok(CoreExpression::Variable(CoreVariable::Local(name)))
}

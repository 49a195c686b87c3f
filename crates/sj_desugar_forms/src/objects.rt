// What is written for objects, tests and casts behind their operands.
ghost use Rattle.std.specs.Prelude.{◌≡◌, false, Some, IfOk};
ghost use Rattle.sj_core.specs.Terms as terms;
ghost use Rattle.sj_core.specs.Views.{expression_view, expressions_of};
ghost use Rattle.sj_core.specs.declared.callees.Callee.TheVariants as callees;
ghost use Rattle.sj_desugar_spec.specs.Coercions as coercions;
ghost use Rattle.sj_desugar_spec.specs.Desugar as desugar;
ghost use Rattle.sj_desugar_spec.specs.Spill as spill;
ghost use Rattle.sj_desugar_forms.specs.Forms.{behind};
ghost use Rattle.sj_names.specs.declared.method_names.Namespace.TheVariants.{Constructor};
ghost use Rattle.sj_trees.specs.TypeOf.{type_of_term};
ghost use Rattle.sj_trees.specs.Types.{class_type};
ghost use Rattle.sj_trees.specs.View.{view};
ghost use Rattle.sj_trees.specs.declared.types.IrType.TheVariants.{Any, Boolean};
ghost use Rattle.sj_desugar_forms.specs.Views.{destination_view, code_view, placed_view, all_view};

use crate::destinations::Destination;
use crate::forms::{CalledMember, finish};
use crate::placing::{Placed, PlacedAll};
use crate::writing::{Written, joined, one};
use sj_core::{Callee, CoreExpression, CoreStatement};
use sj_desugar_plain::{
    callee_on, cast, checked, coerced, coerced_receiver, field_of, made, member_called,
    position_of, receiver_call, tested,
};
use sj_names::{ClassName, FieldName, MethodName, NoMemory};
use sj_trees::{IrType, Position, Tree, type_of};
use std::alloc::Global;

/// A field that is read or set.
#[derive(Clone, Copy)]
pub struct FieldPlace<'f> {
    pub class: &'f ClassName,
    pub name: &'f FieldName,
    pub tpe: &'f IrType,
}

/// A value of this tree where a value of the type is expected.
pub fn coerced_value(
    alloc: Global,
    expected: &IrType,
    tree: &Tree,
    value: CoreExpression,
) -> Result<CoreExpression, NoMemory>
    ensures { IfOk result (λ e. expression_view e ≡ coercions.coerced expected.now (type_of_term (view tree.now)) (expression_view value)) }
{
    let own = type_of(alloc, tree)?;
    coerced(alloc, expected, &own, value)
}

/// A field of the object is set to what this tree comes to as an operand.
pub fn field_set(
    alloc: Global,
    position: Position,
    place: &FieldPlace<'_>,
    value: &Tree,
    object: Placed,
    operand: Placed,
) -> Result<Written, NoMemory>
    ensures { IfOk result (λ w. code_view w ≡ behind (placed_view object) (λ e j. behind (placed_view operand) (λ g. spill.one (terms.assign_field (Some position) e place.now.class.now place.now.name.now (coercions.coerced place.now.tpe.now (type_of_term (view value.now)) g))))) }
{
    let new_value = coerced_value(alloc, place.tpe, value, operand.expression)?;
    let statement = CoreStatement::AssignField {
        position: Some(position),
        object: object.expression,
        class: place.class.copied()?,
        field: place.name.copied()?,
        value: new_value,
    };
    let back = one(alloc, statement, operand.next)?;
    let first = Written {
        statements: object.statements,
        next: object.next,
    };
    let second = Written {
        statements: operand.statements,
        next: operand.next,
    };
    joined(first, joined(second, back)?)
}

/// A static field is set to what this tree comes to as an operand.
pub fn static_set(
    alloc: Global,
    position: Position,
    place: &FieldPlace<'_>,
    value: &Tree,
    operand: Placed,
) -> Result<Written, NoMemory>
    ensures { IfOk result (λ w. code_view w ≡ behind (placed_view operand) (λ e. spill.one (terms.assign_static (Some position) place.now.class.now place.now.name.now (coercions.coerced place.now.tpe.now (type_of_term (view value.now)) e)))) }
{
    let new_value = coerced_value(alloc, place.tpe, value, operand.expression)?;
    let class = place.class.copied()?;
    let name = place.name.copied()?;
    let statement = CoreStatement::AssignStatic {
        position: Some(position),
        class,
        field: name,
        value: new_value,
    };
    let front = Written {
        statements: operand.statements,
        next: operand.next,
    };
    joined(front, one(alloc, statement, operand.next)?)
}

/// The one object of the class is what this tree comes to as an operand. Want of memory is the only error.
pub fn module_stored(
    alloc: Global,
    position: Position,
    class: &ClassName,
    value: &Tree,
    operand: Placed,
) -> Result<Written, NoMemory>
    ensures { IfOk result (λ w. code_view w ≡ behind (placed_view operand) (λ e. spill.one (terms.store_module_of (Some position) class.now (coercions.coerced (class_type class.now) (type_of_term (view value.now)) e)))) }
{
    let expected = IrType::of_class(class.copied()?);
    let object = coerced_value(alloc, &expected, value, operand.expression)?;
    let statement = CoreStatement::StoreModule {
        position: Some(position),
        class: class.copied()?,
        value: object,
    };
    let front = Written {
        statements: operand.statements,
        next: operand.next,
    };
    joined(front, one(alloc, statement, operand.next)?)
}

/// What this tree comes to as an operand is thrown.
pub fn thrown(
    alloc: Global,
    position: Position,
    value: &Tree,
    operand: Placed,
) -> Result<Written, NoMemory>
    ensures { IfOk result (λ w. code_view w ≡ behind (placed_view operand) (λ e. spill.one (terms.throw_of (Some position) (coercions.coerced Any (type_of_term (view value.now)) e)))) }
{
    let object = coerced_value(alloc, &IrType::Any, value, operand.expression)?;
    let statement = CoreStatement::Throw {
        position: Some(position),
        value: object,
    };
    let front = Written {
        statements: operand.statements,
        next: operand.next,
    };
    joined(front, one(alloc, statement, operand.next)?)
}

/// A field of the object, whose value goes to a destination.
pub fn field_value(
    alloc: Global,
    destination: &Destination,
    position: Position,
    place: &FieldPlace<'_>,
    object: Placed,
) -> Result<Written, NoMemory>
    ensures { IfOk result (λ w. code_view w ≡ behind (placed_view object) (λ e. desugar.finish (destination_view destination.now) position place.now.tpe.now false (terms.field_of e place.now.class.now place.now.name.now))) }
{
    let value = field_of(alloc, object.expression, place.class, place.name)?;
    let back = finish(
        alloc,
        destination,
        position,
        place.tpe,
        false,
        value,
        object.next,
    )?;
    let front = Written {
        statements: object.statements,
        next: object.next,
    };
    joined(front, back)
}

// What this tree comes to as an operand, where any value is expected.
fn any_value(
    alloc: Global,
    tree: &Tree,
    value: CoreExpression,
) -> Result<Box<CoreExpression>, NoMemory>
    ensures { IfOk result (λ e. expression_view e.value ≡ coercions.coerced Any (type_of_term (view tree.now)) (expression_view value)) }
{
    Ok(Box::new(alloc, coerced_value(alloc, &IrType::Any, tree, value)?)?)
}

/// Whether what this tree comes to as an operand is an instance of the type. That goes to a destination.
pub fn tested_value(
    alloc: Global,
    destination: &Destination,
    position: Position,
    tpe: &IrType,
    tree: &Tree,
    operand: Placed,
) -> Result<Written, NoMemory>
    ensures { IfOk result (λ w. code_view w ≡ behind (placed_view operand) (λ e. desugar.finish (destination_view destination.now) position Boolean false (terms.test_of tpe.now (coercions.coerced Any (type_of_term (view tree.now)) e)))) }
{
    let value = tested(tpe, any_value(alloc, tree, operand.expression)?)?;
    let back = finish(
        alloc,
        destination,
        position,
        &IrType::Boolean,
        false,
        value,
        operand.next,
    )?;
    let front = Written {
        statements: operand.statements,
        next: operand.next,
    };
    joined(front, back)
}

/// What this tree comes to as an operand, cast to the type. It goes to a destination.
pub fn cast_value(
    alloc: Global,
    destination: &Destination,
    position: Position,
    tpe: &IrType,
    tree: &Tree,
    operand: Placed,
) -> Result<Written, NoMemory>
    ensures { IfOk result (λ w. code_view w ≡ behind (placed_view operand) (λ e. desugar.finish (destination_view destination.now) position tpe.now false (terms.cast_of tpe.now (coercions.coerced Any (type_of_term (view tree.now)) e)))) }
{
    let value = cast(tpe, any_value(alloc, tree, operand.expression)?)?;
    let back = finish(
        alloc,
        destination,
        position,
        tpe,
        false,
        value,
        operand.next,
    )?;
    let front = Written {
        statements: operand.statements,
        next: operand.next,
    };
    joined(front, back)
}

/// A new object of the class, on which this constructor runs with these arguments. It goes to a destination.
pub fn made_value(
    alloc: Global,
    destination: &Destination,
    position: Position,
    class: &ClassName,
    method: &MethodName,
    arguments: PlacedAll,
) -> Result<Written, NoMemory>
    ensures { IfOk result (λ w. code_view w ≡ spill.then_use (all_view arguments) (λ es. desugar.finish (destination_view destination.now) position (class_type class.now) false (terms.made_of (desugar.member class.now Constructor method.now) (expressions_of es)))) }
{
    let value = made(class, method, arguments.expressions)?;
    let tpe = IrType::of_class(class.copied()?);
    let back = finish(
        alloc,
        destination,
        position,
        &tpe,
        false,
        value,
        arguments.next,
    )?;
    let front = Written {
        statements: arguments.statements,
        next: arguments.next,
    };
    joined(front, back)
}

/// A call of this member on what a tree comes to as a receiver, with these arguments. Its value goes to a destination.
pub fn member_value(
    alloc: Global,
    destination: &Destination,
    position: Position,
    member: &CalledMember<'_>,
    tpe: &IrType,
    tree: &Tree,
    receiver: Placed,
    arguments: PlacedAll,
) -> Result<Written, NoMemory>
    ensures { IfOk result (λ w. code_view w ≡ behind (placed_view receiver) (λ e j. spill.then_use (all_view arguments) (λ es. desugar.finish (destination_view destination.now) position tpe.now false (terms.receiver_call (callees.Member (desugar.member member.now.class.now member.now.namespace member.now.method.now)) (coercions.coerced_receiver (type_of_term (view tree.now)) e) (expressions_of es))))) }
{
    let callee = member_called(member.class, member.namespace, member.method)?;
    receiver_value(
        alloc,
        destination,
        position,
        callee,
        tpe,
        tree,
        receiver,
        arguments,
    )
}

/// A call of what this name calls on what a tree comes to as a receiver, with these arguments. Its value goes to a destination.
pub fn looked_up_value(
    alloc: Global,
    destination: &Destination,
    position: Position,
    method: &MethodName,
    tpe: &IrType,
    tree: &Tree,
    receiver: Placed,
    arguments: PlacedAll,
) -> Result<Written, NoMemory>
    ensures { IfOk result (λ w. code_view w ≡ behind (placed_view receiver) (λ e j. spill.then_use (all_view arguments) (λ es. desugar.finish (destination_view destination.now) position tpe.now false (terms.receiver_call (desugar.callee_of (type_of_term (view tree.now)) method.now) (coercions.coerced_receiver (type_of_term (view tree.now)) e) (expressions_of es))))) }
{
    let callee = callee_on(alloc, tree, method)?;
    receiver_value(
        alloc,
        destination,
        position,
        callee,
        tpe,
        tree,
        receiver,
        arguments,
    )
}

// A call on what a tree comes to as a receiver, with these arguments. Its value goes to a destination.
fn receiver_value(
    alloc: Global,
    destination: &Destination,
    position: Position,
    callee: Callee,
    tpe: &IrType,
    tree: &Tree,
    receiver: Placed,
    arguments: PlacedAll,
) -> Result<Written, NoMemory>
    ensures { IfOk result (λ w. code_view w ≡ behind (placed_view receiver) (λ e j. spill.then_use (all_view arguments) (λ es. desugar.finish (destination_view destination.now) position tpe.now false (terms.receiver_call callee (coercions.coerced_receiver (type_of_term (view tree.now)) e) (expressions_of es))))) }
{
    let own = type_of(alloc, tree)?;
    let called = coerced_receiver(alloc, &own, receiver.expression)?;
    let value = receiver_call(callee, called, arguments.expressions);
    let back = finish(
        alloc,
        destination,
        position,
        tpe,
        false,
        value,
        arguments.next,
    )?;
    let first = Written {
        statements: receiver.statements,
        next: receiver.next,
    };
    let second = Written {
        statements: arguments.statements,
        next: arguments.next,
    };
    joined(first, joined(second, back)?)
}

/// What comes to this operand, with its null check. It goes to a destination.
pub fn checked_operand(
    alloc: Global,
    destination: &Destination,
    tree: &Tree,
    operand: Placed,
) -> Result<Written, NoMemory>
    ensures { IfOk result (λ w. code_view w ≡ behind (placed_view operand) (λ e. desugar.finish (destination_view destination.now) (desugar.position_of (view tree.now)) (type_of_term (view tree.now)) false (terms.checked_value e))) }
{
    let own = type_of(alloc, tree)?;
    let value = checked(alloc, operand.expression)?;
    let position = position_of(tree);
    let back = finish(
        alloc,
        destination,
        position,
        &own,
        false,
        value,
        operand.next,
    )?;
    let front = Written {
        statements: operand.statements,
        next: operand.next,
    };
    joined(front, back)
}

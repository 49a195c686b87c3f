// The bindings that a function uses.
ghost use Rattle.std.specs.Prelude.{◌≡◌, ◌∷◌, IfOk, OnOk};
ghost use Rattle.std.specs.List.{list_any};
ghost use Rattle.sj_core.specs.Views as core;
ghost use Rattle.sj_emit_expr_spec.specs.Uses as uses;
ghost use Rattle.sj_emit_expr.specs.Collecting.{with_use, with_uses};
ghost use Rattle.sj_emit_expr_parts.specs.Known.{lookup_of};
ghost use Rattle.sj_mangling.specs.Bindings as bindings_of;

use js_tree::Binding;
use sj_core::{Callee, CoreCase, CoreExpression, CoreStatement};
use sj_emit_expr_parts::{CallLookup, cast_name, element_setter, is_nonzero_literal, test_name};
use sj_mangling::{
    ClassBinding, FieldBinding, MethodBinding, class_binding, field_binding, function_name,
    method_binding,
};
use sj_names::{
    ArrayRef, BaseRef, ClassName, FieldName, Items, Member, MethodName, NoMemory, Text,
};
use sj_trees::{BinaryOp, IrType};
use std::alloc::Global;

const OBJECT: &str = "java.lang.Object";

fn is_same_binding(one: &Binding, other: &Binding) -> bool
    ensures { result ≡ uses.is_same_binding one.now other.now }
{
    one.owner.text() == other.owner.text() && one.name.as_str() == other.name.as_str()
}

fn is_used(bindings: &[Binding], binding: &Binding) -> bool
    ensures { result ≡ list_any (uses.is_same_binding binding.now) bindings.now }
{
    bindings.iter().any(|each| is_same_binding(binding, each))
}

// Adds a binding behind others, if it isn't there.
fn add(bindings: &mut Vec<Binding>, binding: Binding) -> Result<(), NoMemory>
    ensures { OnOk result (bindings.new.items ≡ with_use bindings.old.items binding) }
{
    if !is_used(bindings, &binding) {
        bindings.push(binding)?;
    }
    Ok(())
}

// A binding of `java.lang.Object`.
fn object_binding(alloc: Global, name: &str) -> Result<Binding, NoMemory>
    ensures { IfOk result (λ b. b ≡ uses.object_binding name.now) }
{
    let owner = Text::from_str(alloc, OBJECT)?;
    let name = Text::from_str(alloc, name)?;
    Ok(Binding {
        owner: ClassName::of_text(owner),
        name,
    })
}

// A binding of `java.lang.Object` with this name.
fn helper_binding(alloc: Global, name: Text) -> Result<Binding, NoMemory>
    ensures { IfOk result (λ b. b ≡ uses.object_binding name) }
{
    let owner = Text::from_str(alloc, OBJECT)?;
    Ok(Binding {
        owner: ClassName::of_text(owner),
        name,
    })
}

fn function_binding(alloc: Global, member: &Member) -> Result<Binding, NoMemory>
    ensures { IfOk result (λ b. b ≡ uses.function_binding member.now) }
{
    let owner = member.class.copied()?;
    let name = function_name(alloc, member)?;
    Ok(Binding { owner, name })
}

// A binding of a class.
fn class_use(alloc: Global, binding: ClassBinding, class: &ClassName) -> Result<Binding, NoMemory>
    ensures { IfOk result (λ b. b ≡ record { owner = class.now; name = bindings_of.class_binding binding class.now }) }
{
    let name = class_binding(alloc, binding, class)?;
    let owner = class.copied()?;
    Ok(Binding { owner, name })
}

fn static_use(alloc: Global, class: &ClassName, field: &FieldName) -> Result<Binding, NoMemory>
    ensures { IfOk result (λ b. b ≡ uses.static_use class.now field.now) }
{
    let name = field_binding(alloc, FieldBinding::Variable, class, field)?;
    let owner = class.copied()?;
    Ok(Binding { owner, name })
}

fn setter_use(alloc: Global, class: &ClassName, field: &FieldName) -> Result<Binding, NoMemory>
    ensures { IfOk result (λ b. b ≡ uses.setter_use class.now field.now) }
{
    let name = field_binding(alloc, FieldBinding::Setter, class, field)?;
    let owner = class.copied()?;
    Ok(Binding { owner, name })
}

// Adds the helper that an operator calls.
fn add_helper(
    alloc: Global,
    nonzero: bool,
    op: BinaryOp,
    bindings: &mut Vec<Binding>,
) -> Result<(), NoMemory>
    ensures { OnOk result (bindings.new.items ≡ with_uses bindings.old.items (uses.helper_of nonzero op)) }
{
    match op {
        BinaryOp::StrictEqual | BinaryOp::StrictNotEqual => {
            add(bindings, object_binding(alloc, "$eq")?)
        }
        BinaryOp::IntDivide if !nonzero => add(bindings, object_binding(alloc, "$id")?),
        BinaryOp::IntRemainder if !nonzero => add(bindings, object_binding(alloc, "$im")?),
        BinaryOp::LongDivide if !nonzero => add(bindings, object_binding(alloc, "$ld")?),
        BinaryOp::LongRemainder if !nonzero => add(bindings, object_binding(alloc, "$lm")?),
        _ => Ok(()),
    }
}

// Adds the function that a test calls.
fn add_test(alloc: Global, tpe: &IrType, bindings: &mut Vec<Binding>) -> Result<(), NoMemory>
    ensures { OnOk result (bindings.new.items ≡ with_uses bindings.old.items (uses.test_uses tpe.now)) }
{
    match tpe {
        IrType::Class(class) => {
            let name = test_name(alloc, tpe)?;
            let owner = class.copied()?;
            add(bindings, Binding { owner, name })
        }
        _ => add(bindings, helper_binding(alloc, test_name(alloc, tpe)?)?),
    }
}

// Adds the function that a cast calls.
fn add_cast(alloc: Global, tpe: &IrType, bindings: &mut Vec<Binding>) -> Result<(), NoMemory>
    ensures { OnOk result (bindings.new.items ≡ with_uses bindings.old.items (uses.cast_uses tpe.now)) }
{
    match tpe {
        IrType::Any => Ok(()),
        IrType::Class(class) => {
            let name = cast_name(alloc, tpe)?;
            let owner = class.copied()?;
            add(bindings, Binding { owner, name })
        }
        _ => add(bindings, helper_binding(alloc, cast_name(alloc, tpe)?)?),
    }
}

// Adds what the base of arrays names.
fn add_base(alloc: Global, base: &BaseRef, bindings: &mut Vec<Binding>) -> Result<(), NoMemory>
    ensures { OnOk result (bindings.new.items ≡ with_uses bindings.old.items (uses.base_uses base.now)) }
{
    match base {
        BaseRef::Class(class) => {
            add(bindings, class_use(alloc, ClassBinding::Constants, class)?)
        }
        _ => Ok(()),
    }
}

// Adds what a type names as the base of arrays.
fn add_type(alloc: Global, tpe: &IrType, bindings: &mut Vec<Binding>) -> Result<(), NoMemory>
    ensures { OnOk result (bindings.new.items ≡ with_uses bindings.old.items (uses.type_uses tpe.now)) }
{
    match tpe {
        IrType::Array(array) => add_base(alloc, &array.base, bindings),
        _ => Ok(()),
    }
}

// Adds the helper that makes an array, and what the base of the array names.
fn add_array(
    alloc: Global,
    helper: &str,
    array: &ArrayRef,
    bindings: &mut Vec<Binding>,
) -> Result<(), NoMemory>
    ensures { OnOk result (bindings.new.items ≡ with_uses bindings.old.items (uses.object_binding helper.now ∷ uses.base_uses array.now.base)) }
{
    add(bindings, object_binding(alloc, helper)?)?;
    add_base(alloc, &array.base, bindings)
}

// The function for all receivers of methods of this name.
fn method_use(
    alloc: Global,
    binding: MethodBinding,
    method: &MethodName,
) -> Result<Binding, NoMemory>
    ensures { IfOk result (λ b. b ≡ uses.object_binding (bindings_of.method_binding binding method.now)) }
{
    let name = method_binding(alloc, binding, method)?;
    helper_binding(alloc, name)
}

// Adds the function that looks a method up, where primitive values may be the receiver.
fn add_looked_up(
    alloc: Global,
    has_primitives: bool,
    method: &MethodName,
    bindings: &mut Vec<Binding>,
) -> Result<(), NoMemory>
    ensures { OnOk result (bindings.new.items ≡ with_uses bindings.old.items (uses.looked_up_uses has_primitives method.now)) }
{
    if has_primitives {
        let function = method_use(alloc, MethodBinding::Dispatch, method)?;
        add(bindings, function)
    } else {
        Ok(())
    }
}

// Adds what a call on a receiver names.
fn add_call(
    alloc: Global,
    known: &CallLookup,
    callee: &Callee,
    bindings: &mut Vec<Binding>,
) -> Result<(), NoMemory>
    ensures { OnOk result (bindings.new.items ≡ with_uses bindings.old.items (uses.call_uses (lookup_of known.now) callee.now)) }
{
    match callee {
        Callee::Member(member) => add(bindings, function_binding(alloc, known.called(member))?),
        Callee::LookedUp(class, method) => {
            add_looked_up(alloc, known.has_hijacked(class), method, bindings)
        }
        Callee::OfArray(_) => Ok(()),
        Callee::Reflective(method) => {
            add(
                bindings,
                method_use(alloc, MethodBinding::Reflective, method)?,
            )
        }
    }
}

#[cycle(expression_uses)]
#[tactic(auto, using(std::proofs::lemmas::Grind::common_steps, crate::proofs::Collected::steps))]
fn add_uses_in(
    alloc: Global,
    known: &CallLookup,
    expression: &CoreExpression,
    bindings: &mut Vec<Binding>,
) -> Result<(), NoMemory>
    ensures { OnOk result (bindings.new.items ≡ with_uses bindings.old.items (uses.uses_in (lookup_of known.now) (core.expression_view expression.now))) }
{
    match expression {
        CoreExpression::Boxed(operand) => {
            add(bindings, object_binding(alloc, "$C")?)?;
            add_uses_in(alloc, known, operand, bindings)
        }
        CoreExpression::Choice(test, yes, no) => {
            add_uses_in(alloc, known, test, bindings)?;
            add_uses_in(alloc, known, yes, bindings)?;
            add_uses_in(alloc, known, no, bindings)
        }
        CoreExpression::StaticCall(member, arguments) => {
            add(bindings, function_binding(alloc, member)?)?;
            add_all_uses_in(alloc, known, arguments, bindings)
        }
        CoreExpression::StaticField(class, field) => {
            add(bindings, static_use(alloc, class, field)?)
        }
        CoreExpression::Module(class) => {
            add(bindings, class_use(alloc, ClassBinding::LoadModule, class)?)
        }
        CoreExpression::Checked(operand) => {
            add(bindings, object_binding(alloc, "$nn")?)?;
            add_uses_in(alloc, known, operand, bindings)
        }
        CoreExpression::Made(member, arguments) => {
            add(bindings, function_binding(alloc, member)?)?;
            add(
                bindings,
                class_use(alloc, ClassBinding::Class, &member.class)?,
            )?;
            add_all_uses_in(alloc, known, arguments, bindings)
        }
        CoreExpression::ReceiverCall(callee, receiver, arguments) => {
            add_call(alloc, known, callee, bindings)?;
            add_uses_in(alloc, known, receiver, bindings)?;
            add_all_uses_in(alloc, known, arguments, bindings)
        }
        CoreExpression::Test(tpe, operand) => {
            add_test(alloc, tpe, bindings)?;
            add_uses_in(alloc, known, operand, bindings)?;
            add_type(alloc, tpe, bindings)
        }
        CoreExpression::Cast(tpe, operand) => {
            add_cast(alloc, tpe, bindings)?;
            add_uses_in(alloc, known, operand, bindings)?;
            add_type(alloc, tpe, bindings)
        }
        CoreExpression::NewArray { array, length } => {
            add_array(alloc, "$mk", array, bindings)?;
            add_uses_in(alloc, known, length, bindings)
        }
        CoreExpression::Array { array, items } => {
            add_array(alloc, "$A", array, bindings)?;
            add_all_uses_in(alloc, known, items, bindings)
        }
        CoreExpression::Element { array, index } => {
            add(bindings, object_binding(alloc, "$get")?)?;
            add_uses_in(alloc, known, array, bindings)?;
            add_uses_in(alloc, known, index, bindings)
        }
        CoreExpression::CharText(operand)
        | CoreExpression::Field(operand, _, _)
        | CoreExpression::ValueText(operand)
        | CoreExpression::Length { array: operand }
        | CoreExpression::Unary(_, operand) => add_uses_in(alloc, known, operand, bindings),
        CoreExpression::Binary(op, left, right) => {
            add_helper(alloc, is_nonzero_literal(right), *op, bindings)?;
            add_uses_in(alloc, known, left, bindings)?;
            add_uses_in(alloc, known, right, bindings)
        }
        CoreExpression::Undefined
        | CoreExpression::Null
        | CoreExpression::Boolean(_)
        | CoreExpression::Number(_)
        | CoreExpression::Long(_)
        | CoreExpression::Text(_)
        | CoreExpression::Variable(_) => Ok(()),
    }
}

#[cycle(expression_uses)]
#[tactic(auto, using(std::proofs::lemmas::Grind::common_steps, crate::proofs::Collected::steps))]
fn add_all_uses_in(
    alloc: Global,
    known: &CallLookup,
    expressions: &[CoreExpression],
    bindings: &mut Vec<Binding>,
) -> Result<(), NoMemory>
    ensures { OnOk result (bindings.new.items ≡ with_uses bindings.old.items (uses.uses_in_all (lookup_of known.now) (core.expressions_view expressions.now))) }
{
    for each in expressions {
        add_uses_in(alloc, known, each, bindings)?;
    }
    Ok(())
}

#[cycle(statement_uses)]
#[tactic(auto, using(std::proofs::lemmas::Grind::common_steps, crate::proofs::Collected::steps))]
fn add_uses_of(
    alloc: Global,
    known: &CallLookup,
    statement: &CoreStatement,
    bindings: &mut Vec<Binding>,
) -> Result<(), NoMemory>
    ensures { OnOk result (bindings.new.items ≡ with_uses bindings.old.items (uses.uses_of (lookup_of known.now) (core.statement_view statement.now))) }
{
    match statement {
        CoreStatement::Constant { value, .. }
        | CoreStatement::Define { value, .. }
        | CoreStatement::Assign { value, .. }
        | CoreStatement::Evaluate { value, .. }
        | CoreStatement::Return { value, .. }
        | CoreStatement::Throw { value, .. }
        | CoreStatement::Log { value, .. } => add_uses_in(alloc, known, value, bindings),
        CoreStatement::Declare { .. } | CoreStatement::Leave { .. } | CoreStatement::Break { .. } =>
            { Ok(()) }
        CoreStatement::AssignField { object, value, .. } => {
            add_uses_in(alloc, known, object, bindings)?;
            add_uses_in(alloc, known, value, bindings)
        }
        CoreStatement::AssignStatic {
            class,
            field,
            value,
            ..
        } => {
            add(bindings, setter_use(alloc, class, field)?)?;
            add_uses_in(alloc, known, value, bindings)
        }
        CoreStatement::StoreModule { class, value, .. } => {
            add(
                bindings,
                class_use(alloc, ClassBinding::StoreModule, class)?,
            )?;
            add_uses_in(alloc, known, value, bindings)
        }
        CoreStatement::AssignElement {
            position: _,
            tpe,
            array,
            index,
            value,
        } => {
            add(
                bindings,
                helper_binding(alloc, element_setter(alloc, tpe)?)?,
            )?;
            add_uses_in(alloc, known, array, bindings)?;
            add_uses_in(alloc, known, index, bindings)?;
            add_uses_in(alloc, known, value, bindings)
        }
        CoreStatement::If { test, yes, no, .. } => {
            add_uses_in(alloc, known, test, bindings)?;
            add_uses_of_all(alloc, known, yes, bindings)?;
            add_uses_of_all(alloc, known, no, bindings)
        }
        CoreStatement::While { test, body, .. } => {
            add_uses_in(alloc, known, test, bindings)?;
            add_uses_of_all(alloc, known, body, bindings)
        }
        CoreStatement::Loop { body, .. } | CoreStatement::Labeled { body, .. } => {
            add_uses_of_all(alloc, known, body, bindings)
        }
        CoreStatement::Finally {
            block,
            finalizer,
            ..
        } => {
            add_uses_of_all(alloc, known, block, bindings)?;
            add_uses_of_all(alloc, known, finalizer, bindings)
        }
        CoreStatement::Try { block, handler, .. } => {
            add_uses_of_all(alloc, known, block, bindings)?;
            add_uses_of_all(alloc, known, handler, bindings)
        }
        CoreStatement::Switch {
            selector,
            cases,
            default,
            ..
        } => {
            add_uses_in(alloc, known, selector, bindings)?;
            add_uses_of_cases(alloc, known, cases, bindings)?;
            add_uses_of_all(alloc, known, default, bindings)
        }
    }
}

#[cycle(statement_uses)]
#[tactic(auto, using(std::proofs::lemmas::Grind::common_steps, crate::proofs::Collected::steps))]
fn add_uses_of_all(
    alloc: Global,
    known: &CallLookup,
    statements: &[CoreStatement],
    bindings: &mut Vec<Binding>,
) -> Result<(), NoMemory>
    ensures { OnOk result (bindings.new.items ≡ with_uses bindings.old.items (uses.uses_of_all (lookup_of known.now) (core.statements_view statements.now))) }
{
    for each in statements {
        add_uses_of(alloc, known, each, bindings)?;
    }
    Ok(())
}

#[cycle(statement_uses)]
#[tactic(auto, using(std::proofs::lemmas::Grind::common_steps, crate::proofs::Collected::steps))]
fn add_uses_of_cases(
    alloc: Global,
    known: &CallLookup,
    cases: &[CoreCase],
    bindings: &mut Vec<Binding>,
) -> Result<(), NoMemory>
    ensures { OnOk result (bindings.new.items ≡ with_uses bindings.old.items (uses.uses_of_cases (lookup_of known.now) (core.cases_view cases.now))) }
{
    for each in cases {
        add_uses_of_case(alloc, known, each, bindings)?;
    }
    Ok(())
}

#[cycle(statement_uses)]
fn add_uses_of_case(
    alloc: Global,
    known: &CallLookup,
    case: &CoreCase,
    bindings: &mut Vec<Binding>,
) -> Result<(), NoMemory>
    ensures { OnOk result (bindings.new.items ≡ with_uses bindings.old.items (uses.uses_of_all (lookup_of known.now) (core.case_view case.now).1)) }
{
    add_uses_of_all(alloc, known, &case.body, bindings)
}

/// The bindings that statements use, each once, in order of first use.
#[tactic(auto, using(std::proofs::lemmas::Grind::common_steps, crate::proofs::Collected::once))]
pub fn uses_of(
    alloc: Global,
    known: &CallLookup,
    statements: &[CoreStatement],
) -> Result<Items<Binding>, NoMemory>
    ensures { IfOk result (λ bs. bs ≡ uses.uses (lookup_of known.now) (core.statements_view statements.now)) }
{
    let mut bindings = Vec::new(alloc);
    add_uses_of_all(alloc, known, statements, &mut bindings)?;
    Ok(Items::from_vec(bindings))
}

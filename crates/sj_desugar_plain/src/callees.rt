// What calls on receivers call.
ghost use Rattle.std.specs.Prelude.{◌≡◌, IfOk, IsTrue, Some};
ghost use Rattle.sj_core.specs.declared.callees.Callee.TheVariants as callees;
ghost use Rattle.sj_desugar_spec.specs.Desugar as desugar;
ghost use Rattle.sj_names.specs.Grammar.{is_class_name};
ghost use Rattle.sj_trees.specs.TypeOf.{type_of_term};
ghost use Rattle.sj_trees.specs.View.{view};

use sj_core::Callee;
use sj_names::{
    ClassName, INTEGER, Member, MethodName, Namespace, NoMemory, OBJECT, Text, is_hijacked,
};
use sj_trees::{IrType, Tree, type_of};
use std::alloc::Global;

/// This member of the class as a callee.
pub fn member_called(
    class: &ClassName,
    namespace: Namespace,
    method: &MethodName,
) -> Result<Callee, NoMemory>
    ensures { IfOk result (λ k. k ≡ callees.Member (desugar.member class.now namespace method.now)) }
{
    let class = class.copied()?;
    let method = method.copied()?;
    Ok(Callee::Member(Member {
        class,
        namespace,
        method,
    }))
}

/// What a call under this name calls on the value of a tree.
pub fn callee_on(alloc: Global, tree: &Tree, method: &MethodName) -> Result<Callee, NoMemory>
    ensures { IfOk result (λ k. k ≡ desugar.callee_of (type_of_term (view tree.now)) method.now) }
{
    let own = type_of(alloc, tree)?;
    callee_of(alloc, &own, method)
}

// What a call under this name calls on a receiver of the type: a name without a result is a reflective one.
fn callee_of(alloc: Global, tpe: &IrType, method: &MethodName) -> Result<Callee, NoMemory>
    ensures { IfOk result (λ k. k ≡ desugar.callee_of tpe.now method.now) }
{
    match &method.result {
        None => Ok(Callee::Reflective(method.copied()?)),
        Some(_) => called_on(alloc, tpe, method),
    }
}

// The same under a name with a result. Null, nothing and no type have no value, and are called as arrays.
fn called_on(alloc: Global, tpe: &IrType, method: &MethodName) -> Result<Callee, NoMemory>
    ensures { IfOk result (λ k. k ≡ desugar.called_on tpe.now method.now) }
{
    match tpe {
        IrType::Any => called_under(alloc, OBJECT, method),
        IrType::Class(name) => called_in(name.copied()?, method),
        IrType::Undefined => called_under(alloc, "java.lang.Void", method),
        IrType::Boolean => called_under(alloc, "java.lang.Boolean", method),
        IrType::Char => called_under(alloc, "java.lang.Character", method),
        IrType::Byte => called_under(alloc, "java.lang.Byte", method),
        IrType::Short => called_under(alloc, "java.lang.Short", method),
        IrType::Int => called_under(alloc, INTEGER, method),
        IrType::Long => called_under(alloc, "java.lang.Long", method),
        IrType::String => called_under(alloc, "java.lang.String", method),
        IrType::Array(_) | IrType::Null | IrType::Nothing | IrType::NoType => {
            Ok(Callee::OfArray(method.copied()?))
        }
    }
}

// A public method that is called in the class of this name.
fn called_under(alloc: Global, name: &str, method: &MethodName) -> Result<Callee, NoMemory>
    requires { IsTrue (is_class_name name.now) }
    ensures { IfOk result (λ k. k ≡ desugar.called_in (Some name.now) method.now) }
{
    let text = Text::from_str(alloc, name)?;
    called_in(ClassName::of_text(text), method)
}

// A public method that is called in this class: a hijacked class decides by itself what is called.
fn called_in(class: ClassName, method: &MethodName) -> Result<Callee, NoMemory>
    ensures { IfOk result (λ k. k ≡ desugar.called_in (Some class) method.now) }
{
    let method = method.copied()?;
    if is_hijacked(class.text()) {
        Ok(Callee::Member(Member {
            class,
            namespace: Namespace::Public,
            method,
        }))
    } else {
        Ok(Callee::LookedUp(class, method))
    }
}

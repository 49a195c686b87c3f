// What each form asks for.
ghost use Rattle.std.specs.Prelude.{◌≡◌, ◌++◌, ◌∷◌, [], map, IfOk, OnOk, IsTrue};
ghost use Rattle.std.specs.List.{flat_map};
ghost use Rattle.sj_names.specs.Grammar.{is_class_name};
ghost use Rattle.sj_trees.specs.View.{view};
ghost use Rattle.sj_trees.specs.TypeOf.{type_of_term};
ghost use Rattle.sj_infos.specs.Receivers.{receiver_class as class_of_receiver};
ghost use Rattle.sj_infos.specs.Infos as specs;
ghost use Rattle.sj_infos.specs.declared.infos.Info.TheVariants as variants;

use crate::infos::{Info, Infos, once};
use crate::sure::{is_primitive, is_sure, sure_locals};
use crate::trees::trees_in;
use indexmap::IndexSet;
use sj_names::{
    ArrayRef, BaseRef, ClassName, FieldName, INTEGER, LocalName, Member, MethodName, Namespace,
    NoMemory, OBJECT, Text,
};
use sj_trees::{BinaryOp, Body, IrType, MethodDef, Tree, type_of};
use std::alloc::Global;

/// What the body of a method asks for, once each: a tree's before those in it, these from left to right, and of one tree in the order
/// of `Info`'s variants, exceptions in the order null pointer, arithmetic, class cast, index out of bounds, array store, negative
/// size, no such method. An abstract method asks for nothing.
pub fn infos_of(alloc: Global, m: &MethodDef) -> Result<Infos, NoMemory>
    ensures { IfOk result (specs.AreInfosOf m.now) }
{
    let asked = asked_by(alloc, m)?;
    once(alloc, asked)
}

// What the trees of a method ask for, one by one.
fn asked_by(alloc: Global, m: &MethodDef) -> Result<Vec<Info>, NoMemory>
    ensures { IfOk result (λ asked. asked.items ≡ specs.asked_by m.now) }
{
    match &m.body {
        Some(body) => asked_in(alloc, body),
        None => Ok(Vec::new(alloc)),
    }
}

fn asked_in(alloc: Global, body: &Body) -> Result<Vec<Info>, NoMemory>
    ensures { IfOk result (λ asked. asked.items ≡ specs.asked_in body.now) }
{
    let trees = trees_in(alloc, body.tree())?;
    asked_among(alloc, &trees)
}

fn asked_among(alloc: Global, trees: &[&Tree]) -> Result<Vec<Info>, NoMemory>
    ensures { IfOk result (λ asked. asked.items ≡ specs.asked_among (map (λ t. view t.now) trees.now)) }
{
    let sure = sure_locals(alloc, trees)?;
    let mut asked = Vec::new(alloc);
    ask_all(alloc, &sure, trees, &mut asked)?;
    Ok(asked)
}

fn ask_all(
    alloc: Global,
    sure: &IndexSet<LocalName>,
    trees: &[&Tree],
    asked: &mut Vec<Info>,
) -> Result<(), NoMemory>
    ensures { OnOk result (asked.new.items ≡ asked.old.items ++ flat_map (specs.asks sure.now.keys) (map (λ t. view t.now) trees.now)) }
{
    for tree in trees {
        ask(alloc, sure, tree, asked)?;
    }
    Ok(())
}

// What one tree asks for.
fn ask(
    alloc: Global,
    sure: &IndexSet<LocalName>,
    tree: &Tree,
    asked: &mut Vec<Info>,
) -> Result<(), NoMemory>
    ensures { OnOk result (asked.new.items ≡ asked.old.items ++ specs.asks sure.now.keys (view tree.now)) }
{
    match tree {
        Tree::Assign { target: left, .. } => ask_store(alloc, left, asked),
        Tree::New {
            class,
            constructor: method,
            ..
        } => ask_new(class, method, asked),
        Tree::LoadModule { class, .. } => ask_load(class, asked),
        Tree::Select {
            object,
            class,
            field,
            ..
        } => {
            ask_field(class, field, false, asked)?;
            ask_receiver(alloc, sure, object, asked)
        }
        Tree::SelectStatic { class, field, .. } => ask_field(class, field, true, asked),
        Tree::Apply {
            receiver,
            method,
            ..
        } => ask_call(alloc, sure, receiver, method, asked),
        Tree::ApplyStatically {
            receiver,
            class,
            namespace,
            method,
            ..
        } => {
            ask_static_call(class, *namespace, method, asked)?;
            ask_receiver(alloc, sure, receiver, asked)
        }
        Tree::ApplyStatic {
            class,
            namespace,
            method,
            ..
        } => { ask_member(class, *namespace, method, asked) }
        Tree::BinaryOp {
            operator,
            right,
            ..
        } => ask_division(alloc, *operator, right, asked),
        Tree::NewArray { array, .. } => {
            ask_array(array, asked)?;
            ask_exception(alloc, "java.lang.NegativeArraySizeException", asked)
        }
        Tree::ArrayValue { array, .. } => ask_array(array, asked),
        Tree::ArrayLength { array, .. } => ask_receiver(alloc, sure, array, asked),
        Tree::ArraySelect { array, .. } => {
            ask_receiver(alloc, sure, array, asked)?;
            ask_exception(alloc, "java.lang.ArrayIndexOutOfBoundsException", asked)
        }
        Tree::IsInstanceOf { tpe, .. } => ask_type(tpe, asked),
        Tree::AsInstanceOf { tpe, .. } => ask_cast(alloc, tpe, asked),
        _ => Ok(()),
    }
}

fn ask_new(class: &ClassName, method: &MethodName, asked: &mut Vec<Info>) -> Result<(), NoMemory>
    ensures { OnOk result (asked.new.items ≡ asked.old.items ++ variants.New class.now method.now ∷ []) }
{
    asked.push(Info::New(class.copied()?, method.copied()?))?;
    Ok(())
}

fn ask_load(class: &ClassName, asked: &mut Vec<Info>) -> Result<(), NoMemory>
    ensures { OnOk result (asked.new.items ≡ asked.old.items ++ variants.Load class.now ∷ []) }
{
    asked.push(Info::Load(class.copied()?))?;
    Ok(())
}

fn ask_field(
    class: &ClassName,
    field: &FieldName,
    is_static: bool,
    asked: &mut Vec<Info>,
) -> Result<(), NoMemory>
    ensures { OnOk result (asked.new.items ≡ asked.old.items ++ variants.Field class.now field.now is_static ∷ []) }
{
    asked.push(Info::Field(class.copied()?, field.copied()?, is_static))?;
    Ok(())
}

fn ask_member(
    class: &ClassName,
    namespace: Namespace,
    method: &MethodName,
    asked: &mut Vec<Info>,
) -> Result<(), NoMemory>
    ensures { OnOk result (asked.new.items ≡ asked.old.items ++ specs.of_member class.now namespace method.now) }
{
    let class = class.copied()?;
    let method = method.copied()?;
    asked.push(Info::Static(Member {
        class,
        namespace,
        method,
    }))?;
    Ok(())
}

fn ask_static_call(
    class: &ClassName,
    namespace: Namespace,
    method: &MethodName,
    asked: &mut Vec<Info>,
) -> Result<(), NoMemory>
    ensures { OnOk result (asked.new.items ≡ asked.old.items ++ specs.of_static_call class.now namespace method.now) }
{
    match namespace {
        Namespace::Public => {
            asked.push(Info::Resolved(class.copied()?, method.copied()?))?;
            Ok(())
        }
        Namespace::PublicStatic
        | Namespace::Private
        | Namespace::PrivateStatic
        | Namespace::Constructor => ask_member(class, namespace, method, asked),
    }
}

// What a call on a receiver asks for.
fn ask_call(
    alloc: Global,
    sure: &IndexSet<LocalName>,
    receiver: &Tree,
    method: &MethodName,
    asked: &mut Vec<Info>,
) -> Result<(), NoMemory>
    ensures { OnOk result (asked.new.items ≡ asked.old.items ++ specs.of_apply sure.now.keys (view receiver.now) method.now) }
{
    if method.result.is_none() {
        asked.push(Info::Reflective(method.copied()?))?;
        ask_receiver(alloc, sure, receiver, asked)?;
        ask_exception(alloc, "java.lang.NoSuchMethodException", asked)
    } else {
        ask_called(alloc, receiver, method, asked)?;
        ask_receiver(alloc, sure, receiver, asked)
    }
}

fn ask_called(
    alloc: Global,
    receiver: &Tree,
    method: &MethodName,
    asked: &mut Vec<Info>,
) -> Result<(), NoMemory>
    ensures { OnOk result (asked.new.items ≡ asked.old.items ++ specs.of_call method.now (class_of_receiver (type_of_term (view receiver.now)))) }
{
    let tpe = type_of(alloc, receiver)?;
    if let Some(class) = receiver_class(alloc, &tpe)? {
        asked.push(Info::Called(class, method.copied()?))?;
    }
    Ok(())
}

// The class in which a call on a receiver of the type is looked up.
fn receiver_class(alloc: Global, tpe: &IrType) -> Result<Option<ClassName>, NoMemory>
    ensures { IfOk result (λ class. class ≡ class_of_receiver tpe.now) }
{
    let name = match tpe {
        IrType::Class(name) => name.copied()?,
        IrType::Any | IrType::Array(_) => class_name(alloc, OBJECT)?,
        IrType::Undefined => class_name(alloc, "java.lang.Void")?,
        IrType::Boolean => class_name(alloc, "java.lang.Boolean")?,
        IrType::Char => class_name(alloc, "java.lang.Character")?,
        IrType::Byte => class_name(alloc, "java.lang.Byte")?,
        IrType::Short => class_name(alloc, "java.lang.Short")?,
        IrType::Int => class_name(alloc, INTEGER)?,
        IrType::Long => class_name(alloc, "java.lang.Long")?,
        IrType::String => class_name(alloc, "java.lang.String")?,
        IrType::Null | IrType::Nothing | IrType::NoType => return Ok(None),
    };
    Ok(Some(name))
}

// The class name that `text` is.
fn class_name(alloc: Global, text: &str) -> Result<ClassName, NoMemory>
    requires { IsTrue (is_class_name text.now) }
    ensures { IfOk result (λ name. name ≡ text.now) }
{
    let text = Text::from_str(alloc, text)?;
    Ok(ClassName::of_text(text))
}

fn ask_exception(alloc: Global, class: &str, asked: &mut Vec<Info>) -> Result<(), NoMemory>
    requires { IsTrue (is_class_name class.now) }
    ensures { OnOk result (asked.new.items ≡ asked.old.items ++ variants.Throws class.now ∷ []) }
{
    asked.push(Info::Throws(class_name(alloc, class)?))?;
    Ok(())
}

// A receiver that isn't sure may be null.
fn ask_receiver(
    alloc: Global,
    sure: &IndexSet<LocalName>,
    receiver: &Tree,
    asked: &mut Vec<Info>,
) -> Result<(), NoMemory>
    ensures { OnOk result (asked.new.items ≡ asked.old.items ++ specs.of_receiver sure.now.keys (view receiver.now)) }
{
    if is_sure(alloc, sure, receiver)? {
        Ok(())
    } else {
        ask_exception(alloc, "java.lang.NullPointerException", asked)
    }
}

fn ask_division(
    alloc: Global,
    operator: BinaryOp,
    divisor: &Tree,
    asked: &mut Vec<Info>,
) -> Result<(), NoMemory>
    ensures { OnOk result (asked.new.items ≡ asked.old.items ++ specs.of_division operator (view divisor.now)) }
{
    if divides(operator) && !is_other_than_zero(divisor) {
        ask_exception(alloc, "java.lang.ArithmeticException", asked)
    } else {
        Ok(())
    }
}

fn divides(operator: BinaryOp) -> bool
    ensures { result ≡ specs.divides operator }
{
    matches!(
        operator,
        BinaryOp::IntDivide
            | BinaryOp::IntRemainder
            | BinaryOp::LongDivide
            | BinaryOp::LongRemainder
    )
}

fn is_other_than_zero(tree: &Tree) -> bool
    ensures { result ≡ specs.is_other_than_zero (view tree.now) }
{
    match tree {
        Tree::Undefined { .. }
        | Tree::Null { .. }
        | Tree::BooleanLiteral { .. }
        | Tree::StringLiteral { .. } => true,
        Tree::CharLiteral { value, .. } => *value != 0,
        Tree::ByteLiteral { value, .. } => *value != 0,
        Tree::ShortLiteral { value, .. } => *value != 0,
        Tree::IntLiteral { value, .. } => *value != 0,
        Tree::LongLiteral { value, .. } => *value != 0,
        _ => false,
    }
}

fn ask_array(array: &ArrayRef, asked: &mut Vec<Info>) -> Result<(), NoMemory>
    ensures { OnOk result (asked.new.items ≡ asked.old.items ++ specs.of_array array.now) }
{
    if let BaseRef::Class(class) = &array.base {
        asked.push(Info::Class(class.copied()?))?;
    }
    asked.push(Info::ArrayForm)?;
    Ok(())
}

// What a test of the type asks for.
fn ask_type(tpe: &IrType, asked: &mut Vec<Info>) -> Result<(), NoMemory>
    ensures { OnOk result (asked.new.items ≡ asked.old.items ++ specs.of_type tpe.now) }
{
    match tpe {
        IrType::Class(class) => {
            asked.push(Info::Class(class.copied()?))?;
            Ok(())
        }
        IrType::Array(array) => ask_array(array, asked),
        _ => Ok(()),
    }
}

fn ask_cast(alloc: Global, tpe: &IrType, asked: &mut Vec<Info>) -> Result<(), NoMemory>
    ensures { OnOk result (asked.new.items ≡ asked.old.items ++ specs.of_cast tpe.now) }
{
    ask_type(tpe, asked)?;
    if is_any(tpe) {
        Ok(())
    } else {
        ask_exception(alloc, "java.lang.ClassCastException", asked)
    }
}

fn is_any(tpe: &IrType) -> bool
    ensures { result ≡ specs.is_any tpe.now }
{
    matches!(tpe, IrType::Any)
}

// What an assignment asks for beside what its left side does.
fn ask_store(alloc: Global, left: &Tree, asked: &mut Vec<Info>) -> Result<(), NoMemory>
    ensures { OnOk result (asked.new.items ≡ asked.old.items ++ specs.of_store (view left.now)) }
{
    match left {
        Tree::ArraySelect { tpe, .. } => ask_element(alloc, tpe, asked),
        _ => Ok(()),
    }
}

fn ask_element(alloc: Global, tpe: &IrType, asked: &mut Vec<Info>) -> Result<(), NoMemory>
    ensures { OnOk result (asked.new.items ≡ asked.old.items ++ specs.of_element tpe.now) }
{
    if is_primitive(tpe) {
        Ok(())
    } else {
        ask_exception(alloc, "java.lang.ArrayStoreException", asked)
    }
}

// What the bodies of a class ask for.
use crate::texts::{add, add_field, add_member, add_method, class_of};
use sj_infos::{Info, infos_of};
use sj_names::{ClassName, Member, MethodName, NameError, NoMemory};
use sj_trees::{ClassDef, MethodDef};
use std::alloc::Global;

/// Adds for each method with a body the line `method MEMBER` and behind it a line for each thing that the body asks for.
pub(crate) fn add_answer(alloc: Global, file: &str, text: &mut String) -> Result<(), NameError> {
    match class_of(alloc, file) {
        Some(class) => add_methods(alloc, &class, text),
        None => add(&["no class\n"], text),
    }
}

fn add_methods(alloc: Global, class: &ClassDef, text: &mut String) -> Result<(), NameError> {
    for method in class.methods.as_slice() {
        if method.body.is_some() {
            add_heading(alloc, &class.name, method, text)?;
            add_infos(alloc, method, text)?;
        }
    }
    Ok(())
}

fn add_heading(
    alloc: Global,
    class: &ClassName,
    method: &MethodDef,
    text: &mut String,
) -> Result<(), NameError> {
    let member = member_of(class, method)?;
    add_named(alloc, "method\t", &member, text)
}

fn member_of(class: &ClassName, method: &MethodDef) -> Result<Member, NoMemory> {
    Ok(Member {
        class: class.copied()?,
        namespace: method.namespace,
        method: method.name.copied()?,
    })
}

fn add_infos(alloc: Global, method: &MethodDef, text: &mut String) -> Result<(), NameError> {
    let infos = infos_of(alloc, method)?;
    for info in infos.as_slice() {
        add_info(alloc, info, text)?;
    }
    Ok(())
}

fn add_info(alloc: Global, info: &Info, text: &mut String) -> Result<(), NameError> {
    match info {
        Info::New(class, method) => add_call(alloc, "info\tnew\t", class, method, text),
        Info::Load(class) => add(&["info\tload\t", class.text(), "\n"], text),
        Info::Field(class, field, is_static) => {
            add(&["info\tfield\t"], text)?;
            add_field(class, field, *is_static, text)?;
            add(&["\n"], text)
        }
        Info::Static(member) => add_named(alloc, "info\tstatic\t", member, text),
        Info::Resolved(class, method) => add_call(alloc, "info\tresolved\t", class, method, text),
        Info::Called(class, method) => add_call(alloc, "info\tcalled\t", class, method, text),
        Info::Reflective(method) => add_reflective(alloc, method, text),
        Info::Class(class) => add(&["info\tclass\t", class.text(), "\n"], text),
        Info::ArrayForm => add(&["info\tarray-form\n"], text),
        Info::Throws(class) => add(&["info\tthrows\t", class.text(), "\n"], text),
    }
}

fn add_named(
    alloc: Global,
    front: &str,
    member: &Member,
    text: &mut String,
) -> Result<(), NameError> {
    add(&[front], text)?;
    add_member(alloc, member, text)?;
    add(&["\n"], text)
}

fn add_call<'t>(
    alloc: Global,
    front: &'t str,
    class: &'t ClassName,
    method: &MethodName,
    text: &mut String,
) -> Result<(), NameError> {
    add(&[front, class.text(), "\t"], text)?;
    add_method(alloc, method, text)?;
    add(&["\n"], text)
}

fn add_reflective(alloc: Global, method: &MethodName, text: &mut String) -> Result<(), NameError> {
    add(&["info\treflective\t"], text)?;
    add_method(alloc, method, text)?;
    add(&["\n"], text)
}

// The generated classes.
ghost use Rattle.std.specs.Prelude.{◌≡◌, ◌≤◌, ◌<◌, [], ◌∷◌, IfOk};
ghost use Rattle.sj_gen.specs.Classes as spec;

use crate::trees::{NOWHERE, class_name, function_body, function_name, main_body, parameter_name};
use sj_names::{
    ClassName, MethodName, Namespace, NoMemory, OBJECT, Shared, SimpleName, Text, TypeRef,
};
use sj_trees::{Body, ClassDef, ClassKind, IrType, MethodDef, ParamDef};
use std::alloc::Global;

fn object_name(alloc: Global) -> Result<ClassName, NoMemory>
    ensures { IfOk result (λ name. name ≡ spec.object_name) }
{
    Ok(ClassName::of_text(Text::from_str(alloc, OBJECT)?))
}

// The one parameter of the function of each class.
fn parameters(alloc: Global) -> Result<Shared<ParamDef>, NoMemory>
    ensures { IfOk result (λ params. params ≡ spec.parameters) }
{
    let parameter = ParamDef {
        name: parameter_name(alloc)?,
        mutable: false,
        tpe: IrType::Int,
    };
    Ok(Shared::from_vec(vec![in alloc; parameter]?)?)
}

fn function(alloc: Global, number: u32, edited: bool) -> Result<MethodDef, NoMemory>
    requires { number ≤ 20000 }
    ensures { IfOk result (λ method. method ≡ spec.function_of edited number) }
{
    let name = function_name(alloc)?;
    let params = parameters(alloc)?;
    let body = Body::new(alloc, function_body(alloc, number, edited)?)?;
    Ok(MethodDef {
        pos: NOWHERE,
        namespace: Namespace::PublicStatic,
        name,
        params,
        result: IrType::Int,
        body: Some(body),
        hash: None,
    })
}

fn main_name(alloc: Global) -> Result<MethodName, NoMemory>
    ensures { IfOk result (λ name. name ≡ spec.main_name) }
{
    Ok(MethodName {
        simple: SimpleName::of_text(Text::from_str(alloc, "main")?),
        params: Shared::from_vec(Vec::new(alloc))?,
        result: Some(TypeRef::Void),
    })
}

fn main_method(alloc: Global, count: u32) -> Result<MethodDef, NoMemory>
    requires { 0 < count }
    ensures { IfOk result (λ method. method ≡ spec.main_of count) }
{
    let name = main_name(alloc)?;
    let params = Shared::from_vec(Vec::new(alloc))?;
    let body = Body::new(alloc, main_body(alloc, count)?)?;
    Ok(MethodDef {
        pos: NOWHERE,
        namespace: Namespace::PublicStatic,
        name,
        params,
        result: IrType::NoType,
        body: Some(body),
        hash: None,
    })
}

// A class with one method.
fn class_with(
    alloc: Global,
    name: ClassName,
    superclass: Option<ClassName>,
    method: MethodDef,
) -> Result<ClassDef, NoMemory>
    ensures { IfOk result (λ class. class ≡ spec.class_with name superclass method) }
{
    let methods = Shared::from_vec(vec![in alloc; method]?)?;
    let files = source_files(alloc)?;
    Ok(ClassDef {
        pos: NOWHERE,
        files,
        name,
        kind: ClassKind::Class,
        superclass,
        interfaces: Shared::from_vec(Vec::new(alloc))?,
        fields: Shared::from_vec(Vec::new(alloc))?,
        methods,
    })
}

// The one source file, which has the empty name.
fn source_files(alloc: Global) -> Result<Shared<Text>, NoMemory>
    ensures { IfOk result (λ files. files ≡ [] ∷ []) }
{
    let name = Text::from_str(alloc, "")?;
    Ok(Shared::from_vec(vec![in alloc; name]?)?)
}

/// The class of this number.
pub fn numbered_class(alloc: Global, number: u32, edited: bool) -> Result<ClassDef, NoMemory>
    requires { number ≤ 20000 }
    ensures { IfOk result (λ class. class ≡ spec.class_of edited number) }
{
    let method = function(alloc, number, edited)?;
    let name = class_name(alloc, number)?;
    class_with(alloc, name, Some(object_name(alloc)?), method)
}

/// `java.lang.Object` above `count` classes.
pub fn object_class(alloc: Global, count: u32) -> Result<ClassDef, NoMemory>
    requires { 0 < count }
    ensures { IfOk result (λ class. class ≡ spec.object_of count) }
{
    let method = main_method(alloc, count)?;
    class_with(alloc, object_name(alloc)?, None, method)
}

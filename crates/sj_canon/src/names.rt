// What appends references, names of methods and types.
ghost use Rattle.std.specs.Prelude.{◌≡◌, ◌++◌, OnOk, option_map};
ghost use Rattle.sj_canon.specs.Numbers.{list_bytes, each_bytes, option_bytes};
ghost use Rattle.sj_canon.specs.Names as names;
ghost use Rattle.sj_canon.specs.Names.{base_bytes, array_bytes, made_bytes, reference_bytes, type_bytes, method_name_bytes};

use crate::numbers::{put_byte, put_number, put_text};
use sj_names::{ArrayRef, BaseRef, MethodName, Namespace, NoMemory, TypeRef};
use sj_trees::IrType;

#[tactic(auto, unfolding(crate::specs::Names::base_bytes))]
fn put_base(out: &mut Vec<u8>, base: &BaseRef) -> Result<(), NoMemory>
    ensures { OnOk result (out.new.items ≡ out.old.items ++ base_bytes base.now) }
{
    put_byte(out, base_code(base))?;
    put_text(out, base_class(base))
}

fn base_code(base: &BaseRef) -> u8
    ensures { result ≡ names.base_code base.now }
{
    match base {
        BaseRef::Boolean => 2,
        BaseRef::Char => 3,
        BaseRef::Byte => 4,
        BaseRef::Short => 5,
        BaseRef::Int => 6,
        BaseRef::Long => 7,
        BaseRef::Class(_) => 8,
    }
}

fn base_class(base: &BaseRef) -> &str
    ensures { result.now ≡ names.base_class base.now }
{
    match base {
        BaseRef::Class(name) => name.text(),
        _ => "",
    }
}

#[tactic(auto, unfolding(crate::specs::Names::array_bytes))]
fn put_array(out: &mut Vec<u8>, array: &ArrayRef) -> Result<(), NoMemory>
    ensures { OnOk result (out.new.items ≡ out.old.items ++ array_bytes array.now) }
{
    put_byte(out, array.dimensions)?;
    put_base(out, &array.base)
}

/// Appends an array, if there is one.
pub fn put_some_array(out: &mut Vec<u8>, array: Option<&ArrayRef>) -> Result<(), NoMemory>
    ensures { OnOk result (out.new.items ≡ out.old.items ++ option_bytes array_bytes (option_map (λ a. a.now) array.entry)) }
{
    match array {
        None => put_byte(out, 0),
        Some(array) => {
            put_byte(out, 1)?;
            put_array(out, array)
        }
    }
}

// Appends what a reference or a type is made of.
#[tactic(auto, unfolding(crate::specs::Names::made_bytes))]
fn put_made(
    out: &mut Vec<u8>,
    code: u8,
    class: &str,
    array: Option<&ArrayRef>,
) -> Result<(), NoMemory>
    ensures { OnOk result (out.new.items ≡ out.old.items ++ made_bytes (record { code = code; class = class.now; array = option_map (λ a. a.now) array.entry })) }
{
    put_byte(out, code)?;
    put_text(out, class)?;
    put_some_array(out, array)
}

fn put_reference(out: &mut Vec<u8>, reference: &TypeRef) -> Result<(), NoMemory>
    ensures { OnOk result (out.new.items ≡ out.old.items ++ reference_bytes reference.now) }
{
    match reference {
        TypeRef::Void => put_made(out, 1, "", None),
        TypeRef::Boolean => put_made(out, 2, "", None),
        TypeRef::Char => put_made(out, 3, "", None),
        TypeRef::Byte => put_made(out, 4, "", None),
        TypeRef::Short => put_made(out, 5, "", None),
        TypeRef::Int => put_made(out, 6, "", None),
        TypeRef::Long => put_made(out, 7, "", None),
        TypeRef::Class(name) => put_made(out, 8, name.text(), None),
        TypeRef::Array(array) => put_made(out, 9, "", Some(array)),
    }
}

/// Appends a type.
pub fn put_type(out: &mut Vec<u8>, tpe: &IrType) -> Result<(), NoMemory>
    ensures { OnOk result (out.new.items ≡ out.old.items ++ type_bytes tpe.now) }
{
    match tpe {
        IrType::Any => put_made(out, 1, "", None),
        IrType::Nothing => put_made(out, 2, "", None),
        IrType::Undefined => put_made(out, 3, "", None),
        IrType::Boolean => put_made(out, 4, "", None),
        IrType::Char => put_made(out, 5, "", None),
        IrType::Byte => put_made(out, 6, "", None),
        IrType::Short => put_made(out, 7, "", None),
        IrType::Int => put_made(out, 8, "", None),
        IrType::Long => put_made(out, 9, "", None),
        IrType::String => put_made(out, 10, "", None),
        IrType::Null => put_made(out, 11, "", None),
        IrType::Class(name) => put_made(out, 12, name.text(), None),
        IrType::Array(array) => put_made(out, 13, "", Some(array)),
        IrType::NoType => put_made(out, 14, "", None),
    }
}

/// Appends a type, if there is one.
pub fn put_some_type(out: &mut Vec<u8>, tpe: Option<&IrType>) -> Result<(), NoMemory>
    ensures { OnOk result (out.new.items ≡ out.old.items ++ option_bytes type_bytes (option_map (λ t. t.now) tpe.entry)) }
{
    match tpe {
        None => put_byte(out, 0),
        Some(tpe) => {
            put_byte(out, 1)?;
            put_type(out, tpe)
        }
    }
}

/// Appends the name of a method.
#[tactic(auto, unfolding(crate::specs::Names::method_name_bytes))]
pub fn put_method_name(out: &mut Vec<u8>, name: &MethodName) -> Result<(), NoMemory>
    ensures { OnOk result (out.new.items ≡ out.old.items ++ method_name_bytes name.now) }
{
    put_text(out, name.simple.text())?;
    put_references(out, name.params.as_slice())?;
    put_result(out, &name.result)
}

fn put_references(out: &mut Vec<u8>, references: &[TypeRef]) -> Result<(), NoMemory>
    ensures { OnOk result (out.new.items ≡ out.old.items ++ list_bytes reference_bytes references.now) }
{
    put_number(out, references.len() as u64)?;
    put_each_reference(out, references)
}

fn put_each_reference(out: &mut Vec<u8>, references: &[TypeRef]) -> Result<(), NoMemory>
    ensures { OnOk result (out.new.items ≡ out.old.items ++ each_bytes reference_bytes references.now) }
{
    for reference in references {
        put_reference(out, reference)?;
    }
    Ok(())
}

fn put_result(out: &mut Vec<u8>, reference: &Option<TypeRef>) -> Result<(), NoMemory>
    ensures { OnOk result (out.new.items ≡ out.old.items ++ option_bytes reference_bytes reference.now) }
{
    match reference {
        None => put_byte(out, 0),
        Some(reference) => {
            put_byte(out, 1)?;
            put_reference(out, reference)
        }
    }
}

/// Appends the name of a method, if there is one.
pub fn put_some_method_name(out: &mut Vec<u8>, name: Option<&MethodName>) -> Result<(), NoMemory>
    ensures { OnOk result (out.new.items ≡ out.old.items ++ option_bytes method_name_bytes (option_map (λ g. g.now) name.entry)) }
{
    match name {
        None => put_byte(out, 0),
        Some(name) => {
            put_byte(out, 1)?;
            put_method_name(out, name)
        }
    }
}

/// The code of a namespace.
pub fn namespace_code(namespace: Namespace) -> u8
    ensures { result ≡ names.namespace_byte namespace }
{
    match namespace {
        Namespace::Public => 1,
        Namespace::PublicStatic => 2,
        Namespace::Private => 3,
        Namespace::PrivateStatic => 4,
        Namespace::Constructor => 5,
    }
}

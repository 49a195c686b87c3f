// The spellings of types: a word, or a class or an array in parentheses.
use crate::texts::add;
use sj_names::{ArrayRef, ClassName, NameError, TypeRef};
use sj_trees::IrType;
use std::alloc::Global;

/// The type of a spelling.
pub(crate) fn type_of(alloc: Global, text: &str) -> Result<IrType, NameError> {
    if let Some(name) = quoted(text, "(L \"") {
        return Ok(IrType::Class(ClassName::parse(alloc, name)?));
    }
    if let Some(reference) = quoted(text, "(A \"") {
        return array_type(alloc, reference);
    }
    plain_type(text)
}

fn quoted<'t>(text: &'t str, front: &str) -> Option<&'t str> {
    text.strip_prefix(front)?.strip_suffix("\")")
}

fn array_type(alloc: Global, reference: &str) -> Result<IrType, NameError> {
    match &TypeRef::parse(alloc, reference)? {
        TypeRef::Array(array) => Ok(IrType::Array(array.copied()?)),
        _ => Err(NameError::BadName),
    }
}

fn plain_type(text: &str) -> Result<IrType, NameError> {
    match text {
        "any" => Ok(IrType::Any),
        "nothing" => Ok(IrType::Nothing),
        "undef" => Ok(IrType::Undefined),
        "boolean" => Ok(IrType::Boolean),
        "char" => Ok(IrType::Char),
        "byte" => Ok(IrType::Byte),
        "short" => Ok(IrType::Short),
        "int" => Ok(IrType::Int),
        "long" => Ok(IrType::Long),
        "string" => Ok(IrType::String),
        "null" => Ok(IrType::Null),
        "none" => Ok(IrType::NoType),
        _ => Err(NameError::BadName),
    }
}

/// Adds the spelling of a type.
pub(crate) fn add_type(alloc: Global, tpe: &IrType, text: &mut String) -> Result<(), NameError> {
    match tpe {
        IrType::Class(name) => add(&["(L \"", name.text(), "\")"], text),
        IrType::Array(array) => add_array(alloc, array, text),
        _ => add(&[word(tpe)], text),
    }
}

fn add_array(alloc: Global, array: &ArrayRef, text: &mut String) -> Result<(), NameError> {
    let reference = TypeRef::Array(array.copied()?).spelled(alloc)?;
    add(&["(A \"", reference.as_str(), "\")"], text)
}

fn word(tpe: &IrType) -> &'static str {
    match tpe {
        IrType::Any => "any",
        IrType::Nothing => "nothing",
        IrType::Undefined => "undef",
        IrType::Boolean => "boolean",
        IrType::Char => "char",
        IrType::Byte => "byte",
        IrType::Short => "short",
        IrType::Int => "int",
        IrType::Long => "long",
        IrType::String => "string",
        IrType::Null => "null",
        IrType::NoType => "none",
        IrType::Class(_) | IrType::Array(_) => "",
    }
}

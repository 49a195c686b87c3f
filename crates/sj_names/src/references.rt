// References to types, as method names and array types hold them.
ghost use Rattle.std.specs.Prelude.{◌≡◌, ◌↔◌, ◌+◌, ◌++◌, ◌∷◌, IfOk, OnOk, IsTrue, Some, None, is_some, string_bytes};
ghost use Rattle.sj_names.specs.Bases as bases;
ghost use Rattle.sj_names.specs.References as references;

use crate::cuts::{behind, behind_dimensions};
use crate::naming::is_class_name;
use crate::{ClassName, NameError, NoMemory, Text};
use std::alloc::Global;

/// A reference to a type.
#[derive(PartialEq, Eq, PartialOrd, Ord, Hash)]
pub enum TypeRef {
    Void,
    Boolean,
    Char,
    Byte,
    Short,
    Int,
    Long,
    Class(ClassName),
    Array(ArrayRef),
}

/// A reference to an array type: how many dimensions it has, 1 to 255, and what it has at the bottom.
#[derive(Drop, PartialEq, Eq, PartialOrd, Ord, Hash)]
pub struct ArrayRef {
    pub dimensions: u8,
    pub base: BaseRef,
}

/// The base of an array: a reference that is neither an array nor `Void`.
#[derive(PartialEq, Eq, PartialOrd, Ord, Hash)]
pub enum BaseRef {
    Boolean,
    Char,
    Byte,
    Short,
    Int,
    Long,
    Class(ClassName),
}

impl Drop for TypeRef {
    fn drop(self) {
        match self {
            TypeRef::Class(_name) => {}
            TypeRef::Array(_array) => {}
            TypeRef::Void
            | TypeRef::Boolean
            | TypeRef::Char
            | TypeRef::Byte
            | TypeRef::Short
            | TypeRef::Int
            | TypeRef::Long => {}
        }
    }
}

impl Drop for BaseRef {
    fn drop(self) {
        match self {
            BaseRef::Class(_name) => {}
            BaseRef::Boolean
            | BaseRef::Char
            | BaseRef::Byte
            | BaseRef::Short
            | BaseRef::Int
            | BaseRef::Long => {}
        }
    }
}

impl TypeRef {
    /// The spelling of the reference.
    pub fn spelled(&self, alloc: Global) -> Result<Text, NoMemory>
        ensures { IfOk result (λ text. text ≡ references.spelled self.now) }
    {
        let mut text = String::new(alloc);
        self.push_spelled(&mut text)?;
        Ok(Text::from_string(text)?)
    }

    // Writes the spelling behind `text`.
    pub(crate) fn push_spelled(&self, text: &mut String) -> Result<(), NoMemory>
        ensures { OnOk result (string_bytes text.new ≡ string_bytes text.old ++ references.spelled self.now) }
    {
        match self {
            TypeRef::Void => push(text, "V"),
            TypeRef::Boolean => push(text, "Z"),
            TypeRef::Char => push(text, "C"),
            TypeRef::Byte => push(text, "B"),
            TypeRef::Short => push(text, "S"),
            TypeRef::Int => push(text, "I"),
            TypeRef::Long => push(text, "J"),
            TypeRef::Class(name) => push_class(text, name),
            TypeRef::Array(array) => array.push_spelled(text),
        }
    }

    /// The reference that `text` spells: `V` `Z` `C` `B` `S` `I` `J`, or `L` and the name of a class, or one to 255 times `[`
    /// and then a reference that is neither an array nor `V`. `BadName` exactly where it spells none.
    pub fn parse(alloc: Global, text: &str) -> Result<TypeRef, NameError>
        ensures found { IfOk result (λ r. references.reference_of text.now ≡ Some r) }
        ensures bad { result ≡ Err NameError.BadName ↔ (references.reference_of text.now ≡ None) }
    {
        if text == "V" {
            return Ok(TypeRef::Void);
        }
        let base = behind_dimensions(text);
        let dimensions = text.len() - base.len();
        if dimensions > 255 {
            return Err(NameError::BadName);
        }
        let base = BaseRef::parse(alloc, base)?;
        Ok(reference(dimensions as u8, base))
    }

    /// The same reference once more.
    pub fn copied(&self) -> Result<TypeRef, NoMemory>
        ensures { IfOk result (λ r. r ≡ self.now) }
    {
        Ok(match self {
            TypeRef::Void => TypeRef::Void,
            TypeRef::Boolean => TypeRef::Boolean,
            TypeRef::Char => TypeRef::Char,
            TypeRef::Byte => TypeRef::Byte,
            TypeRef::Short => TypeRef::Short,
            TypeRef::Int => TypeRef::Int,
            TypeRef::Long => TypeRef::Long,
            TypeRef::Class(name) => TypeRef::Class(name.copied()?),
            TypeRef::Array(array) => TypeRef::Array(array.copied()?),
        })
    }

    /// Whether both are the same reference.
    pub fn is_same(&self, other: &TypeRef) -> bool
        ensures { IsTrue result ↔ (self.now ≡ other.now) }
    {
        match (self, other) {
            (TypeRef::Void, TypeRef::Void) => true,
            (TypeRef::Boolean, TypeRef::Boolean) => true,
            (TypeRef::Char, TypeRef::Char) => true,
            (TypeRef::Byte, TypeRef::Byte) => true,
            (TypeRef::Short, TypeRef::Short) => true,
            (TypeRef::Int, TypeRef::Int) => true,
            (TypeRef::Long, TypeRef::Long) => true,
            (TypeRef::Class(one), TypeRef::Class(another)) => one.is_same(another),
            (TypeRef::Array(one), TypeRef::Array(another)) => one.is_same(another),
            _ => false,
        }
    }
}

// Writes `part` behind `text`.
pub(crate) fn push(text: &mut String, part: &str) -> Result<(), NoMemory>
    ensures { OnOk result (string_bytes text.new ≡ string_bytes text.old ++ part.now) }
{
    text.push_str(part)?;
    Ok(())
}

// Writes `L` and the name behind `text`.
fn push_class(text: &mut String, name: &ClassName) -> Result<(), NoMemory>
    ensures { OnOk result (string_bytes text.new ≡ string_bytes text.old ++ (0x4c ∷ name.now)) }
{
    push(text, "L")?;
    push(text, name.text())
}

impl ArrayRef {
    // Writes the spelling behind `text`.
    fn push_spelled(&self, text: &mut String) -> Result<(), NoMemory>
        ensures { OnOk result (string_bytes text.new ≡ string_bytes text.old ++ references.spelled_array self.now) }
    {
        for _ in 0..self.dimensions {
            push(text, "[")?;
        }
        self.base.push_spelled(text)
    }

    /// The same reference once more.
    pub fn copied(&self) -> Result<ArrayRef, NoMemory>
        ensures { IfOk result (λ r. r ≡ self.now) }
    {
        Ok(ArrayRef {
            dimensions: self.dimensions,
            base: self.base.copied()?,
        })
    }

    /// Whether both are the same reference.
    pub fn is_same(&self, other: &ArrayRef) -> bool
        ensures { IsTrue result ↔ (self.now ≡ other.now) }
    {
        self.dimensions == other.dimensions && self.base.is_same(&other.base)
    }
}

// The reference to a base, or to an array of it.
fn reference(dimensions: u8, base: BaseRef) -> TypeRef
    ensures { result ≡ references.reference dimensions base }
{
    if dimensions == 0 {
        base.into_reference()
    } else {
        TypeRef::Array(ArrayRef { dimensions, base })
    }
}

/// Whether `text` spells a reference.
pub fn is_reference(text: &str) -> bool
    ensures { result ≡ is_some (references.reference_of text.now) }
{
    if text == "V" {
        return true;
    }
    let base = behind_dimensions(text);
    text.len() - base.len() <= 255 && is_base(base)
}

// Whether `text` spells a base.
fn is_base(text: &str) -> bool
    ensures { result ≡ is_some (bases.base_of text.now) }
{
    match text {
        "Z" | "C" | "B" | "S" | "I" | "J" => true,
        _ => match behind(text, 'L') {
            Some(name) => is_class_name(name),
            None => false,
        },
    }
}

impl BaseRef {
    /// The base that `text` spells: `Z` `C` `B` `S` `I` `J`, or `L` and the name of a class. `BadName` exactly where it spells
    /// none.
    pub fn parse(alloc: Global, text: &str) -> Result<BaseRef, NameError>
        ensures found { IfOk result (λ r. bases.base_of text.now ≡ Some r) }
        ensures bad { result ≡ Err NameError.BadName ↔ (bases.base_of text.now ≡ None) }
    {
        match text {
            "Z" => Ok(BaseRef::Boolean),
            "C" => Ok(BaseRef::Char),
            "B" => Ok(BaseRef::Byte),
            "S" => Ok(BaseRef::Short),
            "I" => Ok(BaseRef::Int),
            "J" => Ok(BaseRef::Long),
            _ => match behind(text, 'L') {
                Some(name) => Ok(BaseRef::Class(ClassName::parse(alloc, name)?)),
                None => Err(NameError::BadName),
            },
        }
    }

    // Writes the spelling behind `text`.
    fn push_spelled(&self, text: &mut String) -> Result<(), NoMemory>
        ensures { OnOk result (string_bytes text.new ≡ string_bytes text.old ++ bases.spelled_base self.now) }
    {
        match self {
            BaseRef::Boolean => push(text, "Z"),
            BaseRef::Char => push(text, "C"),
            BaseRef::Byte => push(text, "B"),
            BaseRef::Short => push(text, "S"),
            BaseRef::Int => push(text, "I"),
            BaseRef::Long => push(text, "J"),
            BaseRef::Class(name) => push_class(text, name),
        }
    }

    // The reference to this base itself.
    fn into_reference(self) -> TypeRef
        ensures { result ≡ references.base_itself self }
    {
        match self {
            BaseRef::Boolean => TypeRef::Boolean,
            BaseRef::Char => TypeRef::Char,
            BaseRef::Byte => TypeRef::Byte,
            BaseRef::Short => TypeRef::Short,
            BaseRef::Int => TypeRef::Int,
            BaseRef::Long => TypeRef::Long,
            BaseRef::Class(name) => TypeRef::Class(name),
        }
    }

    /// The same base once more.
    pub fn copied(&self) -> Result<BaseRef, NoMemory>
        ensures { IfOk result (λ r. r ≡ self.now) }
    {
        Ok(match self {
            BaseRef::Boolean => BaseRef::Boolean,
            BaseRef::Char => BaseRef::Char,
            BaseRef::Byte => BaseRef::Byte,
            BaseRef::Short => BaseRef::Short,
            BaseRef::Int => BaseRef::Int,
            BaseRef::Long => BaseRef::Long,
            BaseRef::Class(name) => BaseRef::Class(name.copied()?),
        })
    }

    /// Whether both are the same base.
    pub fn is_same(&self, other: &BaseRef) -> bool
        ensures { IsTrue result ↔ (self.now ≡ other.now) }
    {
        match (self, other) {
            (BaseRef::Boolean, BaseRef::Boolean) => true,
            (BaseRef::Char, BaseRef::Char) => true,
            (BaseRef::Byte, BaseRef::Byte) => true,
            (BaseRef::Short, BaseRef::Short) => true,
            (BaseRef::Int, BaseRef::Int) => true,
            (BaseRef::Long, BaseRef::Long) => true,
            (BaseRef::Class(one), BaseRef::Class(another)) => one.is_same(another),
            _ => false,
        }
    }
}

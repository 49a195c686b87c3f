// The types of the IR.
ghost use Rattle.std.specs.Prelude.{◌≡◌, ◌↔◌, IfOk, IsTrue};
ghost use Rattle.sj_trees.specs.Types.{class_type, base_type, element_type, reference_type};

use sj_names::{ArrayRef, BaseRef, ClassName, NoMemory, OBJECT, TypeRef};

/// A type of the IR.
pub enum IrType {
    /// Every value.
    Any,
    /// No value: the type of what never ends normally.
    Nothing,
    /// The undefined value.
    Undefined,
    Boolean,
    Char,
    Byte,
    Short,
    Int,
    Long,
    /// Texts that aren't null.
    String,
    /// The null value.
    Null,
    /// The instances of a class other than `java.lang.Object`, and null.
    Class(ClassName),
    /// Arrays, and null.
    Array(ArrayRef),
    /// The type of a statement, which gives no value.
    NoType,
}

impl Drop for IrType {
    fn drop(self) {
        match self {
            IrType::Class(_one) => {}
            IrType::Array(_one) => {}
            IrType::Any
            | IrType::Nothing
            | IrType::Undefined
            | IrType::Boolean
            | IrType::Char
            | IrType::Byte
            | IrType::Short
            | IrType::Int
            | IrType::Long
            | IrType::String
            | IrType::Null
            | IrType::NoType => {}
        }
    }
}

impl IrType {
    /// The same type once more.
    pub fn copied(&self) -> Result<IrType, NoMemory>
        ensures { IfOk result (λ t. t ≡ self.now) }
    {
        Ok(match self {
            IrType::Any => IrType::Any,
            IrType::Nothing => IrType::Nothing,
            IrType::Undefined => IrType::Undefined,
            IrType::Boolean => IrType::Boolean,
            IrType::Char => IrType::Char,
            IrType::Byte => IrType::Byte,
            IrType::Short => IrType::Short,
            IrType::Int => IrType::Int,
            IrType::Long => IrType::Long,
            IrType::String => IrType::String,
            IrType::Null => IrType::Null,
            IrType::Class(name) => IrType::Class(name.copied()?),
            IrType::Array(array) => IrType::Array(array.copied()?),
            IrType::NoType => IrType::NoType,
        })
    }

    /// Whether both are the same type.
    pub fn is_same(&self, other: &IrType) -> bool
        ensures { IsTrue result ↔ (self.now ≡ other.now) }
    {
        match (self, other) {
            (IrType::Any, IrType::Any) => true,
            (IrType::Nothing, IrType::Nothing) => true,
            (IrType::Undefined, IrType::Undefined) => true,
            (IrType::Boolean, IrType::Boolean) => true,
            (IrType::Char, IrType::Char) => true,
            (IrType::Byte, IrType::Byte) => true,
            (IrType::Short, IrType::Short) => true,
            (IrType::Int, IrType::Int) => true,
            (IrType::Long, IrType::Long) => true,
            (IrType::String, IrType::String) => true,
            (IrType::Null, IrType::Null) => true,
            (IrType::Class(one), IrType::Class(another)) => one.is_same(another),
            (IrType::Array(one), IrType::Array(another)) => one.is_same(another),
            (IrType::NoType, IrType::NoType) => true,
            _ => false,
        }
    }

    /// The type of a class: any for `java.lang.Object`, else the class type.
    pub fn of_class(name: ClassName) -> IrType
        ensures { result ≡ class_type name }
    {
        if name.text() == OBJECT {
            IrType::Any
        } else {
            IrType::Class(name)
        }
    }

    /// The type that a reference stands for: none for `V`.
    pub fn of_reference(reference: &TypeRef) -> Result<IrType, NoMemory>
        ensures { IfOk result (λ t. t ≡ reference_type reference.now) }
    {
        Ok(match reference {
            TypeRef::Void => IrType::NoType,
            TypeRef::Boolean => IrType::Boolean,
            TypeRef::Char => IrType::Char,
            TypeRef::Byte => IrType::Byte,
            TypeRef::Short => IrType::Short,
            TypeRef::Int => IrType::Int,
            TypeRef::Long => IrType::Long,
            TypeRef::Class(name) => IrType::of_class(name.copied()?),
            TypeRef::Array(array) => IrType::Array(array.copied()?),
        })
    }

    /// The type that the base of an array stands for.
    pub fn of_base(base: &BaseRef) -> Result<IrType, NoMemory>
        ensures { IfOk result (λ t. t ≡ base_type base.now) }
    {
        Ok(match base {
            BaseRef::Boolean => IrType::Boolean,
            BaseRef::Char => IrType::Char,
            BaseRef::Byte => IrType::Byte,
            BaseRef::Short => IrType::Short,
            BaseRef::Int => IrType::Int,
            BaseRef::Long => IrType::Long,
            BaseRef::Class(name) => IrType::of_class(name.copied()?),
        })
    }

    /// The type of the items of an array: an array with one dimension less, or at one dimension the type of the base.
    pub fn of_items(array: &ArrayRef) -> Result<IrType, NoMemory>
        ensures { IfOk result (λ t. t ≡ element_type array.now) }
    {
        match array.dimensions {
            0 | 1 => Ok(IrType::of_base(&array.base)?),
            dimensions => Ok(IrType::Array(ArrayRef {
                dimensions: dimensions - 1,
                base: array.base.copied()?,
            })),
        }
    }
}

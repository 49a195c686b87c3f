// What the codes of the format stand for.
ghost use Rattle.std.specs.Prelude.{◌≡◌};
ghost use Rattle.sj_read_spec.specs.Codes.{reserved_trees, plain_types, reserved_types, kinds, reserved_kinds, namespaces, reserved_namespaces, member_tags, reserved_members, reserved_operators};
ghost use Rattle.sj_trees.specs.Forms.{among};

use sj_names::Namespace;
use sj_trees::{ClassKind, IrType, Reserved};

/// A kind of member.
#[derive(Clone, Copy)]
pub enum MemberTag {
    Field,
    Method,
}

impl MemberTag {
    /// The kind of member with this code; None where it has none.
    pub fn from_code(code: u8) -> Option<MemberTag>
        ensures { result ≡ among member_tags code }
    {
        match code {
            1 => Some(MemberTag::Field),
            2 => Some(MemberTag::Method),
            _ => None,
        }
    }
}

/// The type that this code gives alone; None where it gives none.
pub fn plain_type(code: u8) -> Option<IrType>
    ensures { result ≡ among plain_types code }
{
    match code {
        1 => Some(IrType::Any),
        2 => Some(IrType::Nothing),
        3 => Some(IrType::Undefined),
        4 => Some(IrType::Boolean),
        5 => Some(IrType::Char),
        6 => Some(IrType::Byte),
        7 => Some(IrType::Short),
        8 => Some(IrType::Int),
        9 => Some(IrType::Long),
        10 => Some(IrType::String),
        11 => Some(IrType::Null),
        14 => Some(IrType::NoType),
        _ => None,
    }
}

/// The kind of class with this code; None where it has none.
pub fn kind_with(code: u8) -> Option<ClassKind>
    ensures { result ≡ among kinds code }
{
    match code {
        1 => Some(ClassKind::Class),
        2 => Some(ClassKind::ModuleClass),
        3 => Some(ClassKind::Interface),
        4 => Some(ClassKind::HijackedClass),
        _ => None,
    }
}

/// The namespace with this code; None where it has none.
pub fn namespace_with(code: u8) -> Option<Namespace>
    ensures { result ≡ among namespaces code }
{
    match code {
        0 => Some(Namespace::Public),
        1 => Some(Namespace::PublicStatic),
        2 => Some(Namespace::Private),
        3 => Some(Namespace::PrivateStatic),
        4 => Some(Namespace::Constructor),
        _ => None,
    }
}

/// The form of a tree for which this code is reserved; None where it isn't.
pub fn reserved_tree(code: u8) -> Option<Reserved>
    ensures { result ≡ among reserved_trees code }
{
    match code {
        64 => Some(Reserved::FloatLiteral),
        65 => Some(Reserved::DoubleLiteral),
        66 => Some(Reserved::Closure),
        67 => Some(Reserved::JsNew),
        68 => Some(Reserved::JsSelect),
        69 => Some(Reserved::JsFunctionApply),
        70 => Some(Reserved::JsMethodApply),
        71 => Some(Reserved::JsObjectConstr),
        72 => Some(Reserved::JsArrayConstr),
        73 => Some(Reserved::JsImportCall),
        74 => Some(Reserved::JsGlobalRef),
        75 => Some(Reserved::ForIn),
        76 => Some(Reserved::Debugger),
        77 => Some(Reserved::ClassOf),
        78 => Some(Reserved::GetClass),
        79 => Some(Reserved::RecordValue),
        _ => None,
    }
}

/// The type for which this code is reserved; None where it isn't.
pub fn reserved_type(code: u8) -> Option<Reserved>
    ensures { result ≡ among reserved_types code }
{
    match code {
        15 => Some(Reserved::FloatType),
        16 => Some(Reserved::DoubleType),
        17 => Some(Reserved::RecordType),
        _ => None,
    }
}

/// The kind of class for which this code is reserved; None where it isn't.
pub fn reserved_kind(code: u8) -> Option<Reserved>
    ensures { result ≡ among reserved_kinds code }
{
    match code {
        5 => Some(Reserved::JsClass),
        6 => Some(Reserved::JsModuleClass),
        7 => Some(Reserved::NativeJsClass),
        8 => Some(Reserved::NativeJsModuleClass),
        9 => Some(Reserved::AbstractJsType),
        _ => None,
    }
}

/// The namespace for which this code is reserved; None where it isn't.
pub fn reserved_namespace(code: u8) -> Option<Reserved>
    ensures { result ≡ among reserved_namespaces code }
{
    match code {
        5 => Some(Reserved::StaticConstructor),
        _ => None,
    }
}

/// The member for which this code is reserved; None where it isn't.
pub fn reserved_member(code: u8) -> Option<Reserved>
    ensures { result ≡ among reserved_members code }
{
    match code {
        3 => Some(Reserved::JsMethodDef),
        4 => Some(Reserved::JsPropertyDef),
        _ => None,
    }
}

/// The operator for which this code is reserved; None where it isn't.
pub fn reserved_operator(code: u8) -> Option<Reserved>
    ensures { result ≡ reserved_operators code }
{
    if code >= 128 {
        Some(Reserved::Operator)
    } else {
        None
    }
}

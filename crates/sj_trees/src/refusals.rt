// Why the bytes of a file give no class.
ghost use Rattle.std.specs.Prelude.{◌≡◌};
ghost use Rattle.sj_trees.specs.Refusals.{name_of, number_of, reserved_of};

use std::alloc::AllocFailed;
use thiserror::Error;

/// A reserved part of the format, which this profile doesn't read.
#[derive(Clone, Copy, Debug, PartialEq, Eq)]
pub enum Reserved {
    FloatLiteral,
    DoubleLiteral,
    Closure,
    JsNew,
    JsSelect,
    JsFunctionApply,
    JsMethodApply,
    JsObjectConstr,
    JsArrayConstr,
    JsImportCall,
    JsGlobalRef,
    ForIn,
    Debugger,
    ClassOf,
    GetClass,
    RecordValue,
    JsClass,
    JsModuleClass,
    NativeJsClass,
    NativeJsModuleClass,
    AbstractJsType,
    StaticConstructor,
    JsMethodDef,
    JsPropertyDef,
    FloatType,
    DoubleType,
    RecordType,
    Operator,
}

/// Which rule of the format the bytes break.
#[derive(Clone, Copy, Debug, PartialEq, Eq)]
pub enum Code {
    /// The first four bytes aren't CA FE 4A 53.
    BadMagic,
    /// The version isn't `1.0-i1`.
    BadVersion,
    /// A field isn't whole.
    Truncated,
    /// An index is no index of its table.
    BadIndex,
    /// A byte is a code that no table gives, or a mark other than 0 and 1.
    BadTag,
    /// A name isn't in the grammar that is wanted where it is used.
    BadName,
    /// The bytes of a text aren't UTF-8, or those of a string aren't modified UTF-8.
    BadText,
    /// A code is reserved for a form that this profile doesn't read.
    Unsupported(Reserved),
    /// More than 200 trees stand one in another.
    TooDeep,
    /// Bytes stand behind the class.
    Trailing,
}

/// Why a class file gives no class.
#[derive(Clone, Copy, Debug, PartialEq, Eq, Error)]
pub enum ReadRefusal {
    /// The bytes break a rule of the format first at this place, an offset in bytes.
    #[error("the file is bad at {place}")]
    Bad { code: Code, place: u64 },
    /// No memory was left.
    #[error("no memory is left")]
    NoMemory,
}

impl Reserved {
    /// The name of the form.
    pub fn name(self) -> &'static str
        ensures { result.now ≡ name_of self }
    {
        match self {
            Reserved::FloatLiteral => "FloatLiteral",
            Reserved::DoubleLiteral => "DoubleLiteral",
            Reserved::Closure => "Closure",
            Reserved::JsNew => "JSNew",
            Reserved::JsSelect => "JSSelect",
            Reserved::JsFunctionApply => "JSFunctionApply",
            Reserved::JsMethodApply => "JSMethodApply",
            Reserved::JsObjectConstr => "JSObjectConstr",
            Reserved::JsArrayConstr => "JSArrayConstr",
            Reserved::JsImportCall => "JSImportCall",
            Reserved::JsGlobalRef => "JSGlobalRef",
            Reserved::ForIn => "ForIn",
            Reserved::Debugger => "Debugger",
            Reserved::ClassOf => "ClassOf",
            Reserved::GetClass => "GetClass",
            Reserved::RecordValue => "RecordValue",
            Reserved::JsClass => "JSClass",
            Reserved::JsModuleClass => "JSModuleClass",
            Reserved::NativeJsClass => "NativeJSClass",
            Reserved::NativeJsModuleClass => "NativeJSModuleClass",
            Reserved::AbstractJsType => "AbstractJSType",
            Reserved::StaticConstructor => "StaticConstructor",
            Reserved::JsMethodDef => "JSMethodDef",
            Reserved::JsPropertyDef => "JSPropertyDef",
            Reserved::FloatType => "float",
            Reserved::DoubleType => "double",
            Reserved::RecordType => "record",
            Reserved::Operator => "operator",
        }
    }
}

impl Code {
    /// The number of the code, 1 to 10.
    pub fn number(self) -> u8
        ensures { result ≡ number_of self }
    {
        match self {
            Code::BadMagic => 1,
            Code::BadVersion => 2,
            Code::Truncated => 3,
            Code::BadIndex => 4,
            Code::BadTag => 5,
            Code::BadName => 6,
            Code::BadText => 7,
            Code::Unsupported(_) => 8,
            Code::TooDeep => 9,
            Code::Trailing => 10,
        }
    }

    /// The form that isn't supported, where the code is Unsupported.
    pub fn form(self) -> Option<Reserved>
        ensures { result ≡ reserved_of self }
    {
        match self {
            Code::Unsupported(form) => Some(form),
            _ => None,
        }
    }
}

impl<T: Drop> From<AllocFailed<T>> for ReadRefusal {
    ghost use Rattle.sj_trees.specs.declared.refusals.ReadRefusal.TheVariants.{NoMemory};

    ghost from_gives = { λ _ e. e ≡ NoMemory };

    fn from(_error: AllocFailed<T>) -> ReadRefusal {
        ReadRefusal::NoMemory
    }
}

// The bindings that helpers use.
ghost use Rattle.std.specs.Prelude.{◌≡◌, IfOk, IsTrue};
ghost use Rattle.sj_names.specs.Grammar.{is_class_name};
ghost use Rattle.sj_emit_help_spec.specs.Helpers as rules;
ghost use Rattle.sj_emit_help_spec.specs.Words as words;
ghost use Rattle.sj_emit_help_spec.specs.declared.kinds.Helper.TheVariants.{CastTo};

use js_tree::Binding;
use piece_making::helper_binding;
use sj_emit_help_spec::{Failure, Helper, Kind};
use sj_names::{ClassName, NoMemory, Text};
use std::alloc::Global;

/// The helpers that a helper uses, once each, in order of first use.
pub fn used_helpers(helper: Helper) -> &'static [Helper]
    ensures { result.now ≡ rules.used_helpers helper }
{
    match helper {
        Helper::TestOf(Kind::Char) => &[Helper::BoxedChar],
        Helper::TestOf(_) => &[],
        Helper::CastTo(kind) => used_in_cast(kind),
        Helper::ConstantsOf(_) => &[],
        Helper::NotNull => &[Helper::Throws(Failure::NullReceiver)],
        Helper::IntQuotient => &[Helper::Throws(Failure::Division)],
        Helper::IntRemainder => &[Helper::Throws(Failure::Division)],
        Helper::LongQuotient => &[Helper::Throws(Failure::Division)],
        Helper::LongRemainder => &[Helper::Throws(Failure::Division)],
        Helper::BoxedChar => &[Helper::ConstantsOf(Kind::Char)],
        Helper::Equal => &[Helper::BoxedChar],
        Helper::ArrayClass => &[],
        Helper::MakeArray => &[Helper::Throws(Failure::Size), Helper::ArrayClass],
        Helper::CheckIndex => &[Helper::Throws(Failure::Index)],
        Helper::Get => &[Helper::CheckIndex],
        Helper::Set => &[Helper::CheckIndex],
        Helper::Put => &[
            Helper::CheckIndex,
            Helper::Fits,
            Helper::Throws(Failure::Store),
        ],
        Helper::Covers => &[],
        Helper::Fits => &[
            Helper::ArrayClass,
            Helper::Covers,
            Helper::TestOf(Kind::Byte),
            Helper::TestOf(Kind::Short),
            Helper::ClassOf,
        ],
        Helper::ClassOf => &[
            Helper::TestOf(Kind::Undefined),
            Helper::ConstantsOf(Kind::Undefined),
            Helper::TestOf(Kind::Boolean),
            Helper::ConstantsOf(Kind::Boolean),
            Helper::TestOf(Kind::Int),
            Helper::ConstantsOf(Kind::Int),
            Helper::TestOf(Kind::Long),
            Helper::ConstantsOf(Kind::Long),
            Helper::TestOf(Kind::Text),
            Helper::ConstantsOf(Kind::Text),
        ],
        Helper::TestOfArray => &[Helper::ArrayClass, Helper::Covers],
        Helper::CastToArray => &[Helper::TestOfArray, Helper::Throws(Failure::Cast)],
        Helper::Throws(_) => &[],
    }
}

fn used_in_cast(kind: Kind) -> &'static [Helper]
    ensures { result.now ≡ rules.used_helpers (CastTo kind) }
{
    match kind {
        Kind::Undefined => &[
            Helper::TestOf(Kind::Undefined),
            Helper::Throws(Failure::Cast),
        ],
        Kind::Boolean => &[Helper::TestOf(Kind::Boolean), Helper::Throws(Failure::Cast)],
        Kind::Char => &[Helper::TestOf(Kind::Char), Helper::Throws(Failure::Cast)],
        Kind::Byte => &[Helper::TestOf(Kind::Byte), Helper::Throws(Failure::Cast)],
        Kind::Short => &[Helper::TestOf(Kind::Short), Helper::Throws(Failure::Cast)],
        Kind::Int => &[Helper::TestOf(Kind::Int), Helper::Throws(Failure::Cast)],
        Kind::Long => &[Helper::TestOf(Kind::Long), Helper::Throws(Failure::Cast)],
        Kind::Text => &[Helper::TestOf(Kind::Text), Helper::Throws(Failure::Cast)],
    }
}

/// The bindings that a helper uses, once each, in order of first use.
pub fn helper_uses(alloc: Global, helper: Helper) -> Result<Vec<Binding>, NoMemory>
    ensures { IfOk result (λ bs. bs.items ≡ rules.helper_uses helper) }
{
    let mut bindings = used_of_classes(alloc, helper)?;
    let helpers = used_helpers(helper);
    for used in helpers {
        bindings.push(helper_binding(alloc, *used)?)?;
    }
    Ok(bindings)
}

fn used_of_classes(alloc: Global, helper: Helper) -> Result<Vec<Binding>, NoMemory>
    ensures { IfOk result (λ bs. bs.items ≡ rules.used_of_classes helper) }
{
    match helper {
        Helper::ArrayClass => Ok(vec![in alloc;
            binding(alloc, "java.lang.Object", "c_java_lang_Object")?,
        ]?),
        Helper::Throws(failure) => raises(alloc, failure),
        _ => Ok(Vec::new(alloc)),
    }
}

fn binding(alloc: Global, owner: &str, name: &str) -> Result<Binding, NoMemory>
    requires { IsTrue (is_class_name owner.now) }
    ensures { IfOk result (λ b. b ≡ words.bound owner.now name.now) }
{
    let owner = Text::from_str(alloc, owner)?;
    Ok(Binding {
        owner: ClassName::of_text(owner),
        name: Text::from_str(alloc, name)?,
    })
}

// The constructor of what is thrown, and its class.
fn raises(alloc: Global, failure: Failure) -> Result<Vec<Binding>, NoMemory>
    ensures { IfOk result (λ bs. bs.items ≡ rules.raises (rules.failure_class failure)) }
{
    let thrown = thrown_by(failure);
    let constructor = binding(alloc, thrown.class, thrown.constructor)?;
    let mut bindings = vec![in alloc; constructor]?;
    bindings.push(binding(alloc, thrown.class, thrown.made)?)?;
    Ok(bindings)
}

// An exception, and the bindings of its constructor and of its class.
#[derive(Clone, Copy)]
struct Thrown {
    class: &'static str,
    constructor: &'static str,
    made: &'static str,
}

fn thrown_by(failure: Failure) -> Thrown
    ensures class { result.class.now ≡ rules.failure_class failure }
    ensures name { IsTrue (is_class_name result.class.now) }
    ensures constructor { result.constructor.now ≡ rules.init_name (rules.failure_class failure) }
    ensures made { result.made.now ≡ words.class_name (rules.failure_class failure) }
{
    match failure {
        Failure::NullReceiver => Thrown {
            class: "java.lang.NullPointerException",
            constructor: "ct_java_lang_NullPointerException__$3cinit$3e$$Ljava_lang_String$$V",
            made: "c_java_lang_NullPointerException",
        },
        Failure::Division => Thrown {
            class: "java.lang.ArithmeticException",
            constructor: "ct_java_lang_ArithmeticException__$3cinit$3e$$Ljava_lang_String$$V",
            made: "c_java_lang_ArithmeticException",
        },
        Failure::Cast => Thrown {
            class: "java.lang.ClassCastException",
            constructor: "ct_java_lang_ClassCastException__$3cinit$3e$$Ljava_lang_String$$V",
            made: "c_java_lang_ClassCastException",
        },
        Failure::Index => Thrown {
            class: "java.lang.ArrayIndexOutOfBoundsException",
            constructor: "ct_java_lang_ArrayIndexOutOfBoundsException__$3cinit$3e$$Ljava_lang_String$$V",
            made: "c_java_lang_ArrayIndexOutOfBoundsException",
        },
        Failure::Store => Thrown {
            class: "java.lang.ArrayStoreException",
            constructor: "ct_java_lang_ArrayStoreException__$3cinit$3e$$Ljava_lang_String$$V",
            made: "c_java_lang_ArrayStoreException",
        },
        Failure::Size => Thrown {
            class: "java.lang.NegativeArraySizeException",
            constructor: "ct_java_lang_NegativeArraySizeException__$3cinit$3e$$Ljava_lang_String$$V",
            made: "c_java_lang_NegativeArraySizeException",
        },
        Failure::Method => Thrown {
            class: "java.lang.NoSuchMethodException",
            constructor: "ct_java_lang_NoSuchMethodException__$3cinit$3e$$Ljava_lang_String$$V",
            made: "c_java_lang_NoSuchMethodException",
        },
    }
}

// The names of helpers, and the classes of kinds.
ghost use Rattle.std.specs.Prelude.{◌≡◌, IsTrue};
ghost use Rattle.sj_names.specs.Grammar.{is_class_name};
ghost use Rattle.sj_emit_help_spec.specs.Helpers.{helper_name as name_of_helper};
ghost use Rattle.sj_emit_help_spec.specs.Words.{kind_class, is_name, as_name};
ghost use Rattle.sj_emit_help_spec.specs.declared.kinds.Helper.TheVariants.{ConstantsOf, Throws};

use sj_emit_help_spec::{Failure, Helper, Kind};

/// The class of a kind.
pub fn class_of_kind(kind: Kind) -> &'static str
    ensures class { result.now ≡ kind_class kind }
    ensures name { IsTrue (is_class_name result.now) }
{
    match kind {
        Kind::Undefined => "java.lang.Void",
        Kind::Boolean => "java.lang.Boolean",
        Kind::Char => "java.lang.Character",
        Kind::Byte => "java.lang.Byte",
        Kind::Short => "java.lang.Short",
        Kind::Int => "java.lang.Integer",
        Kind::Long => "java.lang.Long",
        Kind::Text => "java.lang.String",
    }
}

/// The name of a helper.
pub fn helper_name(helper: Helper) -> &'static str
    ensures { result.now ≡ name_of_helper helper }
{
    match helper {
        Helper::TestOf(kind) => test_name(kind),
        Helper::CastTo(kind) => cast_name(kind),
        Helper::ConstantsOf(kind) => constants_name(kind),
        Helper::NotNull => "$nn",
        Helper::IntQuotient => "$id",
        Helper::IntRemainder => "$im",
        Helper::LongQuotient => "$ld",
        Helper::LongRemainder => "$lm",
        Helper::BoxedChar => "$C",
        Helper::Equal => "$eq",
        Helper::ArrayClass => "$A",
        Helper::MakeArray => "$mk",
        Helper::CheckIndex => "$ix",
        Helper::Get => "$get",
        Helper::Set => "$set",
        Helper::Put => "$put",
        Helper::Covers => "$cov",
        Helper::Fits => "$fits",
        Helper::ClassOf => "$kof",
        Helper::TestOfArray => "$isA",
        Helper::CastToArray => "$asA",
        Helper::Throws(failure) => failure_name(failure),
    }
}

fn test_name(kind: Kind) -> &'static str
    ensures { result.now ≡ is_name kind }
{
    match kind {
        Kind::Undefined => "$isV",
        Kind::Boolean => "$isZ",
        Kind::Char => "$isC",
        Kind::Byte => "$isB",
        Kind::Short => "$isS",
        Kind::Int => "$isI",
        Kind::Long => "$isJ",
        Kind::Text => "$isT",
    }
}

fn cast_name(kind: Kind) -> &'static str
    ensures { result.now ≡ as_name kind }
{
    match kind {
        Kind::Undefined => "$asV",
        Kind::Boolean => "$asZ",
        Kind::Char => "$asC",
        Kind::Byte => "$asB",
        Kind::Short => "$asS",
        Kind::Int => "$asI",
        Kind::Long => "$asJ",
        Kind::Text => "$asT",
    }
}

fn constants_name(kind: Kind) -> &'static str
    ensures { result.now ≡ name_of_helper (ConstantsOf kind) }
{
    match kind {
        Kind::Undefined => "$kV",
        Kind::Boolean => "$kZ",
        Kind::Char => "$kC",
        Kind::Byte => "$kB",
        Kind::Short => "$kS",
        Kind::Int => "$kI",
        Kind::Long => "$kJ",
        Kind::Text => "$kT",
    }
}

fn failure_name(failure: Failure) -> &'static str
    ensures { result.now ≡ name_of_helper (Throws failure) }
{
    match failure {
        Failure::NullReceiver => "$npe",
        Failure::Division => "$ae",
        Failure::Cast => "$cce",
        Failure::Index => "$ioe",
        Failure::Store => "$ase",
        Failure::Size => "$nse",
        Failure::Method => "$nme",
    }
}

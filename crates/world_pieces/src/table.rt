// All helpers.
ghost use Rattle.std.specs.Prelude.{◌≡◌};
ghost use Rattle.world_pieces.specs.Helpers.{every_helper};

use sj_emit_help_spec::{Failure, Helper, Kind};

/// Every helper, in the order of their names.
pub fn all_helpers() -> &'static [Helper]
    ensures { result.now ≡ every_helper }
{
    &[
        Helper::ArrayClass,
        Helper::BoxedChar,
        Helper::Throws(Failure::Division),
        Helper::CastToArray,
        Helper::CastTo(Kind::Byte),
        Helper::CastTo(Kind::Char),
        Helper::CastTo(Kind::Int),
        Helper::CastTo(Kind::Long),
        Helper::CastTo(Kind::Short),
        Helper::CastTo(Kind::Text),
        Helper::CastTo(Kind::Undefined),
        Helper::CastTo(Kind::Boolean),
        Helper::Throws(Failure::Store),
        Helper::Throws(Failure::Cast),
        Helper::Covers,
        Helper::Equal,
        Helper::Fits,
        Helper::Get,
        Helper::IntQuotient,
        Helper::IntRemainder,
        Helper::Throws(Failure::Index),
        Helper::TestOfArray,
        Helper::TestOf(Kind::Byte),
        Helper::TestOf(Kind::Char),
        Helper::TestOf(Kind::Int),
        Helper::TestOf(Kind::Long),
        Helper::TestOf(Kind::Short),
        Helper::TestOf(Kind::Text),
        Helper::TestOf(Kind::Undefined),
        Helper::TestOf(Kind::Boolean),
        Helper::CheckIndex,
        Helper::ConstantsOf(Kind::Byte),
        Helper::ConstantsOf(Kind::Char),
        Helper::ConstantsOf(Kind::Int),
        Helper::ConstantsOf(Kind::Long),
        Helper::ConstantsOf(Kind::Short),
        Helper::ConstantsOf(Kind::Text),
        Helper::ConstantsOf(Kind::Undefined),
        Helper::ConstantsOf(Kind::Boolean),
        Helper::ClassOf,
        Helper::LongQuotient,
        Helper::LongRemainder,
        Helper::MakeArray,
        Helper::Throws(Failure::Method),
        Helper::NotNull,
        Helper::Throws(Failure::NullReceiver),
        Helper::Throws(Failure::Size),
        Helper::Put,
        Helper::Set,
    ]
}

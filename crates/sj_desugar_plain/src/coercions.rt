// Where a char becomes an object that holds it.
ghost use Rattle.std.specs.Prelude.{◌≡◌, IfOk};
ghost use Rattle.sj_core.specs.Views.{expression_view};
ghost use Rattle.sj_desugar_spec.specs.Coercions as coercions;
ghost use Rattle.sj_desugar_plain.specs.Arguments.{coerced_argument};

use sj_core::CoreExpression;
use sj_names::{NoMemory, TypeRef};
use sj_trees::IrType;
use std::alloc::Global;

/// Whether a type is that of chars.
pub fn is_char(tpe: &IrType) -> bool
    ensures { result ≡ coercions.is_char tpe.now }
{
    match tpe {
        IrType::Char => true,
        _ => false,
    }
}

/// An expression of the second type where the first is expected.
pub fn coerced(
    alloc: Global,
    expected: &IrType,
    own: &IrType,
    expression: CoreExpression,
) -> Result<CoreExpression, NoMemory>
    ensures { IfOk result (λ e. expression_view e ≡ coercions.coerced expected.now own.now (expression_view expression)) }
{
    if is_char(own) && !is_char(expected) {
        Ok(CoreExpression::Boxed(Box::new(alloc, expression)?))
    } else {
        Ok(expression)
    }
}

/// An argument of this type for the first of the parameters with these references; one that there is no parameter for stays as it is.
pub fn coerced_argument(
    alloc: Global,
    params: &[TypeRef],
    own: &IrType,
    argument: CoreExpression,
) -> Result<CoreExpression, NoMemory>
    ensures { IfOk result (λ e. expression_view e ≡ coerced_argument params.now own.now (expression_view argument)) }
{
    match params {
        [] => Ok(argument),
        [param, ..] => {
            let expected = IrType::of_reference(param)?;
            coerced(alloc, &expected, own, argument)
        }
    }
}

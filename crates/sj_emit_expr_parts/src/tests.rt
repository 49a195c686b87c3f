// Tests, casts and identity.
ghost use Rattle.std.specs.Prelude.{◌≡◌, IfOk};
ghost use Rattle.js_tree.specs.Views.{expression_view};
ghost use Rattle.sj_emit_expr_spec.specs.Tests as tests;

use crate::arrays::{array_text, of_array};
use crate::calls::{call_of_one, call_on, in_front};
use js_tree::JsExpr;
use sj_mangling::{ClassBinding, class_binding};
use sj_names::{NoMemory, Text};
use sj_trees::IrType;
use std::alloc::Global;

/// The function that tests for a type.
pub fn test_name(alloc: Global, tpe: &IrType) -> Result<Text, NoMemory>
    ensures { IfOk result (λ name. name ≡ tests.test_name tpe.now) }
{
    match tpe {
        IrType::Class(class) => class_binding(alloc, ClassBinding::IsInstance, class),
        IrType::Undefined => Ok(Text::from_str(alloc, "$isV")?),
        IrType::Boolean => Ok(Text::from_str(alloc, "$isZ")?),
        IrType::Char => Ok(Text::from_str(alloc, "$isC")?),
        IrType::Byte => Ok(Text::from_str(alloc, "$isB")?),
        IrType::Short => Ok(Text::from_str(alloc, "$isS")?),
        IrType::Int => Ok(Text::from_str(alloc, "$isI")?),
        IrType::Long => Ok(Text::from_str(alloc, "$isJ")?),
        IrType::Array(_) => Ok(Text::from_str(alloc, "$isA")?),
        IrType::String | IrType::Any | IrType::Nothing | IrType::Null | IrType::NoType => Ok(
            Text::from_str(alloc, "$isT")?,
        ),
    }
}

/// The function that casts to a type.
pub fn cast_name(alloc: Global, tpe: &IrType) -> Result<Text, NoMemory>
    ensures { IfOk result (λ name. name ≡ tests.cast_name tpe.now) }
{
    match tpe {
        IrType::Class(class) => class_binding(alloc, ClassBinding::AsInstance, class),
        IrType::Undefined => Ok(Text::from_str(alloc, "$asV")?),
        IrType::Boolean => Ok(Text::from_str(alloc, "$asZ")?),
        IrType::Char => Ok(Text::from_str(alloc, "$asC")?),
        IrType::Byte => Ok(Text::from_str(alloc, "$asB")?),
        IrType::Short => Ok(Text::from_str(alloc, "$asS")?),
        IrType::Int => Ok(Text::from_str(alloc, "$asI")?),
        IrType::Long => Ok(Text::from_str(alloc, "$asJ")?),
        IrType::Array(_) => Ok(Text::from_str(alloc, "$asA")?),
        IrType::String | IrType::Any | IrType::Nothing | IrType::Null | IrType::NoType => Ok(
            Text::from_str(alloc, "$asT")?,
        ),
    }
}

/// Whether a value is an instance of a type.
pub fn test_template(alloc: Global, tpe: &IrType, value: JsExpr) -> Result<JsExpr, NoMemory>
    ensures { IfOk result (λ e. expression_view e ≡ tests.test_template tpe.now (expression_view value)) }
{
    match tpe {
        IrType::Array(array) => {
            let others = of_array(alloc, array, Vec::new(alloc))?;
            call_on(alloc, test_name(alloc, tpe)?, value, others)
        }
        _ => call_of_one(alloc, test_name(alloc, tpe)?, value),
    }
}

/// A value that is cast to a type: to any as it is.
pub fn cast_template(alloc: Global, tpe: &IrType, value: JsExpr) -> Result<JsExpr, NoMemory>
    ensures { IfOk result (λ e. expression_view e ≡ tests.cast_template tpe.now (expression_view value)) }
{
    match tpe {
        IrType::Any => Ok(value),
        IrType::Array(array) => {
            let text = in_front(alloc, array_text(alloc, array)?, Vec::new(alloc))?;
            let others = of_array(alloc, array, text)?;
            call_on(alloc, cast_name(alloc, tpe)?, value, others)
        }
        _ => call_of_one(alloc, cast_name(alloc, tpe)?, value),
    }
}

// Arrays, their lengths and their elements.
ghost use Rattle.std.specs.Prelude.{◌≡◌, IfOk};
ghost use Rattle.sj_core.specs.Terms as terms;
ghost use Rattle.sj_core.specs.Views as core;
ghost use Rattle.sj_core.specs.Views.{expression_view};

use sj_core::CoreExpression;
use sj_names::{ArrayRef, NoMemory};
use std::alloc::Global;

/// A new array of this type and length.
pub fn new_array(array: &ArrayRef, length: Box<CoreExpression>) -> Result<CoreExpression, NoMemory>
    ensures { IfOk result (λ e. expression_view e ≡ terms.new_array_of array.now (expression_view length.value)) }
{
    let array = array.copied()?;
    Ok(CoreExpression::NewArray { array, length })
}

/// A new array of this type with these items.
pub fn array_of(array: &ArrayRef, items: Vec<CoreExpression>) -> Result<CoreExpression, NoMemory>
    ensures { IfOk result (λ e. expression_view e ≡ terms.array_of array.now (core.expressions_view items.items)) }
{
    let array = array.copied()?;
    Ok(CoreExpression::Array { array, items })
}

/// The length of an array.
pub fn length_of(alloc: Global, array: CoreExpression) -> Result<CoreExpression, NoMemory>
    ensures { IfOk result (λ e. expression_view e ≡ terms.length_of (expression_view array)) }
{
    let array = Box::new(alloc, array)?;
    Ok(CoreExpression::Length { array })
}

/// The element of an array at an index.
pub fn element_of(
    alloc: Global,
    array: CoreExpression,
    index: CoreExpression,
) -> Result<CoreExpression, NoMemory>
    ensures { IfOk result (λ e. expression_view e ≡ terms.element_of (expression_view array) (expression_view index)) }
{
    let array = Box::new(alloc, array)?;
    let index = Box::new(alloc, index)?;
    Ok(CoreExpression::Element { array, index })
}

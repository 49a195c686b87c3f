// Parts behind a space.
ghost use Rattle.std.specs.Prelude.{◌≡◌, ◌^◌, codes};
ghost use Rattle.exact_place.specs.Reading.{lead_at};
ghost use Rattle.text_scan.specs.Gives.{Gives};
ghost use Rattle.sj_text_spec.specs.Names as names;
ghost use Rattle.sj_text_spec.specs.Reading as reading;

use crate::tables::{kind_of, namespace_of};
use crate::texts::text_of;
use crate::types::type_of;
use sj_names::{ArrayRef, ClassName, FieldName, LabelName, LocalName, MethodName, Namespace};
use sj_text_scan::{
    array_of, binary_op_of, byte_of, class_name_of, field_name_of, int_of, label_name_of,
    local_name_of, long_of, mark_of, method_name_of, short_of, unary_op_of, unit_of,
};
use sj_trees::{BinaryOp, ClassKind, IrType, UnaryOp};
use sj_units::Units;
use std::alloc::Global;
use text_scan::{Stop, literal};

/// The name of a local behind a space.
pub fn name_field<'a>(
    alloc: Global,
    fuel: usize,
    bytes: &'a [u8],
) -> Result<(LocalName, &'a [u8]), Stop>
    ensures { Gives (λ x. (x.0, x.1.now)) result (lead_at (codes " ") (names.plain_name_at fuel) bytes.now) }
{
    local_name_of(alloc, fuel, literal(b" ", bytes)?)
}

/// The name of a field behind a space.
pub fn field_field<'a>(
    alloc: Global,
    fuel: usize,
    bytes: &'a [u8],
) -> Result<(FieldName, &'a [u8]), Stop>
    ensures { Gives (λ x. (x.0, x.1.now)) result (lead_at (codes " ") (names.plain_name_at fuel) bytes.now) }
{
    field_name_of(alloc, fuel, literal(b" ", bytes)?)
}

/// A label behind a space.
pub fn label_field<'a>(
    alloc: Global,
    fuel: usize,
    bytes: &'a [u8],
) -> Result<(LabelName, &'a [u8]), Stop>
    ensures { Gives (λ x. (x.0, x.1.now)) result (lead_at (codes " ") (names.plain_name_at fuel) bytes.now) }
{
    label_name_of(alloc, fuel, literal(b" ", bytes)?)
}

/// The name of a class behind a space.
pub fn class_field<'a>(
    alloc: Global,
    fuel: usize,
    bytes: &'a [u8],
) -> Result<(ClassName, &'a [u8]), Stop>
    ensures { Gives (λ x. (x.0, x.1.now)) result (lead_at (codes " ") (names.class_name_at fuel) bytes.now) }
{
    class_name_of(alloc, fuel, literal(b" ", bytes)?)
}

/// A method name behind a space.
pub fn method_field<'a>(
    alloc: Global,
    fuel: usize,
    bytes: &'a [u8],
) -> Result<(MethodName, &'a [u8]), Stop>
    ensures { Gives (λ x. (x.0, x.1.now)) result (lead_at (codes " ") (names.method_name_at fuel) bytes.now) }
{
    method_name_of(alloc, fuel, literal(b" ", bytes)?)
}

/// A reference to an array behind a space.
pub fn array_field<'a>(
    alloc: Global,
    fuel: usize,
    bytes: &'a [u8],
) -> Result<(ArrayRef, &'a [u8]), Stop>
    ensures { Gives (λ x. (x.0, x.1.now)) result (lead_at (codes " ") (names.array_at fuel) bytes.now) }
{
    array_of(alloc, fuel, literal(b" ", bytes)?)
}

/// A type behind a space.
pub fn type_field<'a>(
    alloc: Global,
    fuel: usize,
    bytes: &'a [u8],
) -> Result<(IrType, &'a [u8]), Stop>
    ensures { Gives (λ x. (x.0, x.1.now)) result (lead_at (codes " ") (reading.type_at fuel) bytes.now) }
{
    type_of(alloc, fuel, literal(b" ", bytes)?)
}

/// A text behind a space.
pub fn string_field<'a>(
    alloc: Global,
    fuel: usize,
    bytes: &'a [u8],
) -> Result<(Units, &'a [u8]), Stop>
    ensures { Gives (λ x. (x.0, x.1.now)) result (lead_at (codes " ") (reading.text_at fuel) bytes.now) }
{
    text_of(alloc, fuel, literal(b" ", bytes)?)
}

/// A mark behind a space.
pub fn mark_field(bytes: &[u8]) -> Result<(bool, &[u8]), Stop>
    ensures { Gives (λ x. (x.0, x.1.now)) result (lead_at (codes " ") (reading.mark_at) bytes.now) }
{
    mark_of(literal(b" ", bytes)?)
}

/// An operator with one operand behind a space.
pub fn unary_field(bytes: &[u8]) -> Result<(UnaryOp, &[u8]), Stop>
    ensures { Gives (λ x. (x.0, x.1.now)) result (lead_at (codes " ") (reading.unary_op_at) bytes.now) }
{
    unary_op_of(literal(b" ", bytes)?)
}

/// An operator with two operands behind a space.
pub fn binary_field(bytes: &[u8]) -> Result<(BinaryOp, &[u8]), Stop>
    ensures { Gives (λ x. (x.0, x.1.now)) result (lead_at (codes " ") (reading.binary_op_at) bytes.now) }
{
    binary_op_of(literal(b" ", bytes)?)
}

/// A namespace behind a space.
pub fn namespace_field(bytes: &[u8]) -> Result<(Namespace, &[u8]), Stop>
    ensures { Gives (λ x. (x.0, x.1.now)) result (lead_at (codes " ") (reading.namespace_at) bytes.now) }
{
    namespace_of(literal(b" ", bytes)?)
}

/// A kind of class behind a space.
pub fn kind_field(bytes: &[u8]) -> Result<(ClassKind, &[u8]), Stop>
    ensures { Gives (λ x. (x.0, x.1.now)) result (lead_at (codes " ") (reading.kind_at) bytes.now) }
{
    kind_of(literal(b" ", bytes)?)
}

/// A 16-bit unit behind a space.
pub fn char_field(bytes: &[u8]) -> Result<(u16, &[u8]), Stop>
    ensures { Gives (λ x. (x.0, x.1.now)) result (lead_at (codes " ") (reading.natural_at (2 ^ 16)) bytes.now) }
{
    unit_of(literal(b" ", bytes)?)
}

/// A number of 8 bits behind a space.
pub fn byte_field(bytes: &[u8]) -> Result<(i8, &[u8]), Stop>
    ensures { Gives (λ x. (x.0, x.1.now)) result (lead_at (codes " ") (reading.integer_at (2 ^ 7)) bytes.now) }
{
    byte_of(literal(b" ", bytes)?)
}

/// A number of 16 bits behind a space.
pub fn short_field(bytes: &[u8]) -> Result<(i16, &[u8]), Stop>
    ensures { Gives (λ x. (x.0, x.1.now)) result (lead_at (codes " ") (reading.integer_at (2 ^ 15)) bytes.now) }
{
    short_of(literal(b" ", bytes)?)
}

/// A number of 32 bits behind a space.
pub fn int_field(bytes: &[u8]) -> Result<(i32, &[u8]), Stop>
    ensures { Gives (λ x. (x.0, x.1.now)) result (lead_at (codes " ") (reading.integer_at (2 ^ 31)) bytes.now) }
{
    int_of(literal(b" ", bytes)?)
}

/// A number of 64 bits behind a space.
pub fn long_field(bytes: &[u8]) -> Result<(i64, &[u8]), Stop>
    ensures { Gives (λ x. (x.0, x.1.now)) result (lead_at (codes " ") (reading.integer_at (2 ^ 63)) bytes.now) }
{
    long_of(literal(b" ", bytes)?)
}

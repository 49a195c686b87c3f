// Numbers in decimal, marks and the codes of operators.
ghost use Rattle.std.specs.Prelude.{◌≡◌, ◌<◌, ◌^◌, IfOk};
ghost use Rattle.text_scan.specs.Gives.{Gives};
ghost use Rattle.sj_text_spec.specs.Reading as reading;

use sj_trees::{BinaryOp, UnaryOp};
use text_scan::{Stop, digits_of, literal, negated, next_is};

/// A number that isn't negative, below the limit.
#[tactic(auto, unfolding(sj_text_spec::specs::Reading::natural_at))]
fn natural_of<'a>(limit: u128, bytes: &'a [u8]) -> Result<(u128, &'a [u8]), Stop>
    requires some { 9 < limit }
    requires fits { limit < 2 ^ 100 }
    ensures gives { Gives (λ x. (x.0, x.1.now)) result (reading.natural_at limit bytes.now) }
    ensures below { IfOk result (λ x. x.0 < limit) }
{
    digits_of(true, limit, bytes)
}

/// A number from 1 on, below the limit.
#[tactic(auto, unfolding(sj_text_spec::specs::Reading::code_at))]
fn code_of<'a>(limit: u128, bytes: &'a [u8]) -> Result<(u128, &'a [u8]), Stop>
    requires some { 9 < limit }
    requires fits { limit < 2 ^ 100 }
    ensures gives { Gives (λ x. (x.0, x.1.now)) result (reading.code_at limit bytes.now) }
    ensures below { IfOk result (λ x. (0 < x.0) × (x.0 < limit)) }
{
    digits_of(false, limit, bytes)
}

/// A 16-bit unit.
pub fn unit_of<'a>(bytes: &'a [u8]) -> Result<(u16, &'a [u8]), Stop>
    ensures { Gives (λ x. (x.0, x.1.now)) result (reading.natural_at (2 ^ 16) bytes.now) }
{
    let (value, rest) = natural_of(65536, bytes)?;
    Ok((value as u16, rest))
}

/// A number of 8 bits.
#[tactic(auto, unfolding(sj_text_spec::specs::Reading::integer_at))]
pub fn byte_of<'a>(bytes: &'a [u8]) -> Result<(i8, &'a [u8]), Stop>
    ensures { Gives (λ x. (x.0, x.1.now)) result (reading.integer_at (2 ^ 7) bytes.now) }
{
    if next_is(b'-', bytes) {
        let rest = literal(b"-", bytes)?;
        let (value, rest) = code_of(129, rest)?;
        Ok((negated(value) as i8, rest))
    } else {
        let (value, rest) = natural_of(128, bytes)?;
        Ok((value as i8, rest))
    }
}

/// A number of 16 bits.
#[tactic(auto, unfolding(sj_text_spec::specs::Reading::integer_at))]
pub fn short_of<'a>(bytes: &'a [u8]) -> Result<(i16, &'a [u8]), Stop>
    ensures { Gives (λ x. (x.0, x.1.now)) result (reading.integer_at (2 ^ 15) bytes.now) }
{
    if next_is(b'-', bytes) {
        let rest = literal(b"-", bytes)?;
        let (value, rest) = code_of(32769, rest)?;
        Ok((negated(value) as i16, rest))
    } else {
        let (value, rest) = natural_of(32768, bytes)?;
        Ok((value as i16, rest))
    }
}

/// A number of 32 bits.
#[tactic(auto, unfolding(sj_text_spec::specs::Reading::integer_at))]
pub fn int_of<'a>(bytes: &'a [u8]) -> Result<(i32, &'a [u8]), Stop>
    ensures { Gives (λ x. (x.0, x.1.now)) result (reading.integer_at (2 ^ 31) bytes.now) }
{
    if next_is(b'-', bytes) {
        let rest = literal(b"-", bytes)?;
        let (value, rest) = code_of(2147483649, rest)?;
        Ok((negated(value) as i32, rest))
    } else {
        let (value, rest) = natural_of(2147483648, bytes)?;
        Ok((value as i32, rest))
    }
}

/// A number of 64 bits.
#[tactic(auto, unfolding(sj_text_spec::specs::Reading::integer_at))]
pub fn long_of<'a>(bytes: &'a [u8]) -> Result<(i64, &'a [u8]), Stop>
    ensures { Gives (λ x. (x.0, x.1.now)) result (reading.integer_at (2 ^ 63) bytes.now) }
{
    if next_is(b'-', bytes) {
        let rest = literal(b"-", bytes)?;
        let (value, rest) = code_of(9223372036854775809, rest)?;
        Ok((negated(value), rest))
    } else {
        let (value, rest) = natural_of(9223372036854775808, bytes)?;
        Ok((value as i64, rest))
    }
}

/// The mark 0 or 1.
#[tactic(auto, unfolding(sj_text_spec::specs::Reading::mark_at))]
pub fn mark_of<'a>(bytes: &'a [u8]) -> Result<(bool, &'a [u8]), Stop>
    ensures { Gives (λ x. (x.0, x.1.now)) result (reading.mark_at bytes.now) }
{
    match bytes {
        [first, rest @ ..] => match *first {
            b'0' => Ok((false, rest)),
            b'1' => Ok((true, rest)),
            _ => Err(Stop::Bad(bytes.len())),
        },
        [] => Err(Stop::Bad(0)),
    }
}

/// An operator with one operand, by its code.
#[tactic(auto, unfolding(sj_text_spec::specs::Reading::unary_op_at))]
pub fn unary_op_of<'a>(bytes: &'a [u8]) -> Result<(UnaryOp, &'a [u8]), Stop>
    ensures { Gives (λ x. (x.0, x.1.now)) result (reading.unary_op_at bytes.now) }
{
    let (code, rest) = code_of(10, bytes)?;
    Ok((
        UnaryOp::from_code(code as u8).unwrap_or(UnaryOp::BooleanNot),
        rest,
    ))
}

/// An operator with two operands, by its code.
#[tactic(auto, unfolding(sj_text_spec::specs::Reading::binary_op_at))]
pub fn binary_op_of<'a>(bytes: &'a [u8]) -> Result<(BinaryOp, &'a [u8]), Stop>
    ensures { Gives (λ x. (x.0, x.1.now)) result (reading.binary_op_at bytes.now) }
{
    let (code, rest) = code_of(42, bytes)?;
    Ok((
        BinaryOp::from_code(code as u8).unwrap_or(BinaryOp::StrictEqual),
        rest,
    ))
}

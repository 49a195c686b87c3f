//! Numbers and BigInts.
ghost use Rattle.std.specs.Prelude.{◌≡◌, ◌<◌, ◌≤◌, ◌^◌};
ghost use Rattle.js_tree.specs.Views.{expression_view};
ghost use Rattle.text_scan.specs.Gives.{Gives};
ghost use Rattle.js_read_spec.specs.Tokens.{number_end_at, number_at, below_end_at, below_at, key_at};

use js_tree::JsExpr;
use text_scan::{Stop, digits_of, literal, negated, next_is};

// What stands behind the digits of a Number or a BigInt.
#[tactic(auto, unfolding(js_read_spec::specs::Tokens::number_end_at))]
fn number_end<'a>(value: u128, bytes: &'a [u8]) -> Result<(JsExpr, &'a [u8]), Stop>
    requires { value < 2 ^ 63 }
    ensures { Gives (λ x. (expression_view x.0, x.1.now)) result (number_end_at value bytes.now) }
{
    if value < 2147483648 && !next_is(b'n', bytes) {
        Ok((JsExpr::Number(value as i32), bytes))
    } else {
        let rest = literal(b"n", bytes)?;
        Ok((JsExpr::BigInt(value as i64), rest))
    }
}

/// A Number or a BigInt without parentheses.
#[tactic(auto, unfolding(js_read_spec::specs::Tokens::number_at, js_read_spec::specs::Tokens::digits_at))]
pub fn number_of<'a>(bytes: &'a [u8]) -> Result<(JsExpr, &'a [u8]), Stop>
    ensures { Gives (λ x. (expression_view x.0, x.1.now)) result (number_at bytes.now) }
{
    let (value, rest) = digits_of(true, 9223372036854775808, bytes)?;
    number_end(value, rest)
}

// What stands behind the digits of a negative number.
#[tactic(auto, unfolding(js_read_spec::specs::Tokens::below_end_at))]
fn below_end<'a>(value: u128, bytes: &'a [u8]) -> Result<(JsExpr, &'a [u8]), Stop>
    requires some { 0 < value }
    requires fits { value ≤ 2 ^ 63 }
    ensures { Gives (λ x. (expression_view x.0, x.1.now)) result (below_end_at value bytes.now) }
{
    if value < 2147483649 && !next_is(b'n', bytes) {
        let rest = literal(b")", bytes)?;
        Ok((JsExpr::Number(negated(value) as i32), rest))
    } else {
        let rest = literal(b"n)", bytes)?;
        Ok((JsExpr::BigInt(negated(value)), rest))
    }
}

/// A negative number, behind `(-`.
#[tactic(auto, unfolding(js_read_spec::specs::Tokens::below_at, js_read_spec::specs::Tokens::below_digits_at))]
pub fn below_of<'a>(bytes: &'a [u8]) -> Result<(JsExpr, &'a [u8]), Stop>
    ensures { Gives (λ x. (expression_view x.0, x.1.now)) result (below_at bytes.now) }
{
    let (value, rest) = digits_of(false, 9223372036854775809, bytes)?;
    below_end(value, rest)
}

/// The key of a case.
#[tactic(auto, unfolding(js_read_spec::specs::Tokens::key_at, js_read_spec::specs::Tokens::key_digits_at, js_read_spec::specs::Tokens::below_key_digits_at))]
pub fn key_of<'a>(bytes: &'a [u8]) -> Result<(i32, &'a [u8]), Stop>
    ensures { Gives (λ x. (x.0, x.1.now)) result (key_at bytes.now) }
{
    if next_is(b'(', bytes) {
        let rest = literal(b"(-", bytes)?;
        let (value, rest) = digits_of(false, 2147483649, rest)?;
        let rest = literal(b")", rest)?;
        Ok((negated(value) as i32, rest))
    } else {
        let (value, rest) = digits_of(true, 2147483648, bytes)?;
        Ok((value as i32, rest))
    }
}

// One character of a name, as it stands or by an escape.
ghost use Rattle.std.specs.Prelude.{◌≡◌, ◌<◌, ◌≤◌, ◌+◌, ◌*◌, ◌==◌, IfOk};
ghost use Rattle.exact_place.specs.Reading.{one_at};
ghost use Rattle.text_scan.specs.Gives.{Gives};
ghost use Rattle.js_read_spec.specs.Tokens.{hex_of};
ghost use Rattle.sj_text_spec.specs.Names as names;

use crate::spots::{is_open, step};
use sj_text_spec::Spot;
use text_scan::{Stop, hex_digit, hex_value, literal, next_is, simple_escape};

/// The first digit.
fn first_digit(bytes: &[u8]) -> Result<(u32, &[u8]), Stop>
    ensures gives { Gives (λ x. (x.0, x.1.now)) result (one_at hex_of bytes.now) }
    ensures below { IfOk result (λ x. x.0 < 16) }
{
    let (value, rest) = hex_digit(bytes)?;
    Ok((u32::from(value), rest))
}

/// The second digit: a pair begins with its high unit.
fn second_digit(high: u32, bytes: &[u8]) -> Result<(u32, &[u8]), Stop>
    requires { high < 16 }
    ensures gives { Gives (λ x. (x.0, x.1.now)) result (one_at (names.second_of high) bytes.now) }
    ensures below { IfOk result (λ x. x.0 < 256) }
{
    match bytes {
        [first, rest @ ..] => match hex_value(*first) {
            Some(value) => {
                if high == 13 && value >= 12 {
                    Err(Stop::Bad(bytes.len()))
                } else {
                    Ok((high * 16 + u32::from(value), rest))
                }
            }
            None => Err(Stop::Bad(bytes.len())),
        },
        [] => Err(Stop::Bad(0)),
    }
}

/// The third digit: units below 0080 have no escape.
fn third_digit(high: u32, bytes: &[u8]) -> Result<(u32, &[u8]), Stop>
    requires { high < 256 }
    ensures gives { Gives (λ x. (x.0, x.1.now)) result (one_at (names.third_of high) bytes.now) }
    ensures below { IfOk result (λ x. x.0 < 4096) }
{
    match bytes {
        [first, rest @ ..] => match hex_value(*first) {
            Some(value) => {
                if high == 0 && value < 8 {
                    Err(Stop::Bad(bytes.len()))
                } else {
                    Ok((high * 16 + u32::from(value), rest))
                }
            }
            None => Err(Stop::Bad(bytes.len())),
        },
        [] => Err(Stop::Bad(0)),
    }
}

fn next_digit(high: u32, bytes: &[u8]) -> Result<(u32, &[u8]), Stop>
    requires { high < 4096 }
    ensures gives { Gives (λ x. (x.0, x.1.now)) result (one_at (names.digit_of high) bytes.now) }
    ensures range { IfOk result (λ x. (high * 16 ≤ x.0) × (x.0 < high * 16 + 16)) }
{
    match bytes {
        [first, rest @ ..] => match hex_value(*first) {
            Some(value) => Ok((high * 16 + u32::from(value), rest)),
            None => Err(Stop::Bad(bytes.len())),
        },
        [] => Err(Stop::Bad(0)),
    }
}

/// The second digit of the low unit of a pair.
fn low_digit(bytes: &[u8]) -> Result<(u32, &[u8]), Stop>
    ensures gives { Gives (λ x. (x.0, x.1.now)) result (one_at names.low_of bytes.now) }
    ensures range { IfOk result (λ x. (220 ≤ x.0) × (x.0 < 224)) }
{
    match bytes {
        [first, rest @ ..] => match hex_value(*first) {
            Some(value) => {
                if value >= 12 {
                    Ok((208 + u32::from(value), rest))
                } else {
                    Err(Stop::Bad(bytes.len()))
                }
            }
            None => Err(Stop::Bad(bytes.len())),
        },
        [] => Err(Stop::Bad(0)),
    }
}

/// The four digits behind `\u`.
#[tactic(auto, unfolding(sj_text_spec::specs::Names::unit_at))]
fn unit_of(bytes: &[u8]) -> Result<(u32, &[u8]), Stop>
    ensures gives { Gives (λ x. (x.0, x.1.now)) result (names.unit_at bytes.now) }
    ensures below { IfOk result (λ x. x.0 < 65536) }
{
    let (first, rest) = first_digit(bytes)?;
    let (second, rest) = second_digit(first, rest)?;
    let (third, rest) = third_digit(second, rest)?;
    next_digit(third, rest)
}

/// The three digits of the low unit of a pair.
#[tactic(auto, unfolding(sj_text_spec::specs::Names::low_at))]
fn low_of(bytes: &[u8]) -> Result<(u32, &[u8]), Stop>
    ensures gives { Gives (λ x. (x.0, x.1.now)) result (names.low_at bytes.now) }
    ensures range { IfOk result (λ x. (0xdc00 ≤ x.0) × (x.0 < 0xe000)) }
{
    let (second, rest) = low_digit(bytes)?;
    let (third, rest) = next_digit(second, rest)?;
    next_digit(third, rest)
}

/// The character of a unit, or of a pair.
#[tactic(auto, unfolding(sj_text_spec::specs::Names::pair_at))]
fn pair_of(unit: u32, bytes: &[u8]) -> Result<(u32, &[u8]), Stop>
    requires { unit < 65536 }
    ensures { Gives (λ x. (x.0, x.1.now)) result (names.pair_at unit bytes.now) }
{
    if unit >= 0xd800 && unit < 0xdc00 {
        let rest = literal(b"\\ud", bytes)?;
        let (low, rest) = low_of(rest)?;
        Ok((0x1_0000 + (unit - 0xd800) * 0x400 + (low - 0xdc00), rest))
    } else {
        Ok((unit, bytes))
    }
}

#[tactic(auto, unfolding(sj_text_spec::specs::Names::escape_at))]
fn escape_of(bytes: &[u8]) -> Result<(u32, &[u8]), Stop>
    ensures { Gives (λ x. (x.0, x.1.now)) result (names.escape_at bytes.now) }
{
    if next_is(b'u', bytes) {
        let rest = literal(b"u", bytes)?;
        let (unit, rest) = unit_of(rest)?;
        pair_of(unit, rest)
    } else {
        let (unit, rest) = simple_escape(bytes)?;
        Ok((u32::from(unit), rest))
    }
}

/// A character that stands as it is, and may stand here.
fn plain_of(spot: Spot, bytes: &[u8]) -> Result<(u32, &[u8]), Stop>
    ensures { Gives (λ x. (x.0, x.1.now)) result (one_at (names.plain_of spot) bytes.now) }
{
    match bytes {
        [first, rest @ ..] => {
            if *first >= b' '
                && *first <= b'~'
                && !(*first == b'"' || *first == b'\\')
                && step(spot, u32::from(*first)).is_some()
            {
                Ok((u32::from(*first), rest))
            } else {
                Err(Stop::Bad(bytes.len()))
            }
        }
        [] => Err(Stop::Bad(0)),
    }
}

/// The code of a character that may stand here.
#[tactic(auto, unfolding(sj_text_spec::specs::Names::character_at))]
pub fn character_of(spot: Spot, bytes: &[u8]) -> Result<(u32, &[u8]), Stop>
    ensures { Gives (λ x. (x.0, x.1.now)) result (names.character_at spot bytes.now) }
{
    if is_open(spot) && next_is(b'\\', bytes) {
        let rest = literal(b"\\", bytes)?;
        escape_of(rest)
    } else {
        plain_of(spot, bytes)
    }
}

//! The 16-bit units of a string in quotes.
ghost use Rattle.std.specs.Prelude.{◌≡◌, ◌<◌, ◌==◌, not, IfOk};
ghost use Rattle.text_scan.specs.Gives.{Gives};
ghost use Rattle.js_read_spec.specs.Tokens as tokens;
ghost use Rattle.exact_place.specs.Reading.{one_at, list_at};

use crate::bytes::{literal, next_is, next_other};
use crate::lists::{Item, list_of};
use crate::stop::Stop;
use sj_names::NoMemory;
use sj_units::Units;
use std::alloc::Global;

/// The value of a hexadecimal digit, lower case, if the byte is one.
pub fn hex_value(byte: u8) -> Option<u16>
    ensures value { result ≡ tokens.hex_of byte }
{
    match byte {
        b'0'..=b'9' => Some(u16::from(byte - b'0')),
        b'a'..=b'f' => Some(u16::from(byte - b'a' + 10)),
        _ => None,
    }
}

/// The value of the hexadecimal digit in front, lower case, and the rest. It stops at any other byte.
pub fn hex_digit(bytes: &[u8]) -> Result<(u16, &[u8]), Stop>
    ensures gives { Gives (λ x. (x.0, x.1.now)) result (one_at tokens.hex_of bytes.now) }
    ensures below { IfOk result (λ x. x.0 < 16) }
{
    match bytes {
        [first, rest @ ..] => match hex_value(*first) {
            Some(value) => Ok((value, rest)),
            None => Err(Stop::Bad(bytes.len())),
        },
        [] => Err(Stop::Bad(0)),
    }
}

// The third digit behind the number of the first two.
fn third_digit(high: u16, bytes: &[u8]) -> Result<(u16, &[u8]), Stop>
    requires { high < 256 }
    ensures gives { Gives (λ x. (x.0, x.1.now)) result (one_at (tokens.third_of high) bytes.now) }
    ensures below { IfOk result (λ x. x.0 < 4096) }
{
    match bytes {
        [first, rest @ ..] => match hex_value(*first) {
            Some(value) => {
                if value >= 2 && value <= 6 && high == 0 {
                    Err(Stop::Bad(bytes.len()))
                } else {
                    Ok((high * 16 + value, rest))
                }
            }
            None => Err(Stop::Bad(bytes.len())),
        },
        [] => Err(Stop::Bad(0)),
    }
}

// The fourth digit behind the number of the first three.
fn fourth_digit(high: u16, bytes: &[u8]) -> Result<(u16, &[u8]), Stop>
    requires { high < 4096 }
    ensures { Gives (λ x. (x.0, x.1.now)) result (one_at (tokens.fourth_of high) bytes.now) }
{
    match bytes {
        [first, rest @ ..] => match hex_value(*first) {
            Some(value) => {
                if value != 15 && high == 7 {
                    Err(Stop::Bad(bytes.len()))
                } else {
                    Ok((high * 16 + value, rest))
                }
            }
            None => Err(Stop::Bad(bytes.len())),
        },
        [] => Err(Stop::Bad(0)),
    }
}

#[tactic(auto, unfolding(js_read_spec::specs::Tokens::hex_at))]
fn hex_of_four(bytes: &[u8]) -> Result<(u16, &[u8]), Stop>
    ensures { Gives (λ x. (x.0, x.1.now)) result (tokens.hex_at bytes.now) }
{
    let (first, rest) = hex_digit(bytes)?;
    let (second, rest) = hex_digit(rest)?;
    let (third, rest) = third_digit(first * 16 + second, rest)?;
    fourth_digit(third, rest)
}

/// The quote or the backslash, behind a backslash, and the rest. It stops at any other byte.
pub fn simple_escape(bytes: &[u8]) -> Result<(u16, &[u8]), Stop>
    ensures { Gives (λ x. (x.0, x.1.now)) result (one_at tokens.simple_escape bytes.now) }
{
    match bytes {
        [first, rest @ ..] => {
            if *first == b'"' || *first == b'\\' {
                Ok((u16::from(*first), rest))
            } else {
                Err(Stop::Bad(bytes.len()))
            }
        }
        [] => Err(Stop::Bad(0)),
    }
}

// A character that stands as it is.
fn plain_unit(bytes: &[u8]) -> Result<(u16, &[u8]), Stop>
    ensures { Gives (λ x. (x.0, x.1.now)) result (one_at tokens.plain_unit bytes.now) }
{
    match bytes {
        [first, rest @ ..] => {
            if *first >= b' ' && *first <= b'~' && (*first != b'"' && *first != b'\\') {
                Ok((u16::from(*first), rest))
            } else {
                Err(Stop::Bad(bytes.len()))
            }
        }
        [] => Err(Stop::Bad(0)),
    }
}

#[tactic(auto, unfolding(js_read_spec::specs::Tokens::escape_at))]
fn escape_of(bytes: &[u8]) -> Result<(u16, &[u8]), Stop>
    ensures { Gives (λ x. (x.0, x.1.now)) result (tokens.escape_at bytes.now) }
{
    if next_is(b'u', bytes) {
        let rest = literal(b"u", bytes)?;
        hex_of_four(rest)
    } else {
        simple_escape(bytes)
    }
}

#[tactic(auto, unfolding(js_read_spec::specs::Tokens::unit_at))]
fn unit_of(bytes: &[u8]) -> Result<(u16, &[u8]), Stop>
    ensures { Gives (λ x. (x.0, x.1.now)) result (tokens.unit_at bytes.now) }
{
    if next_is(b'\\', bytes) {
        let rest = literal(b"\\", bytes)?;
        escape_of(rest)
    } else {
        plain_unit(bytes)
    }
}

#[derive(Drop)]
struct UnitItem;

impl Item for UnitItem {
    ghost use Rattle.std.specs.Prelude.{ℕ, ◌==◌, not};
    ghost use Rattle.js_read_spec.specs.Tokens.{unit_at};

    type Value = u16;

    ghost Seen = { ℕ };

    ghost seen = { λ u. u };

    ghost test = { λ s c. not (c == 34) };

    ghost reading = { λ s. unit_at };

    fn starts(&self, bytes: &[u8]) -> bool {
        next_other(b'"', bytes)
    }

    fn read<'a>(&self, _alloc: Global, bytes: &'a [u8]) -> Result<(u16, &'a [u8]), Stop> {
        unit_of(bytes)
    }
}

// The text of these units.
fn text_of_units(units: Vec<u16>) -> Result<Units, NoMemory>
    ensures { IfOk result (λ u. u ≡ units.items) }
{
    Ok(Units::from_vec(units)?)
}

/// The units up to the next quote or the end, and the rest. It stops where no unit goes on, and where `fuel` units are not all.
pub fn units_of<'a>(alloc: Global, fuel: usize, bytes: &'a [u8]) -> Result<(Units, &'a [u8]), Stop>
    ensures { Gives (λ x. (x.0, x.1.now)) result (list_at fuel (λ c. not (c == 34)) tokens.unit_at bytes.now) }
{
    let (units, rest) = list_of(alloc, fuel, &UnitItem, bytes)?;
    Ok((text_of_units(units)?, rest))
}

//! Strings of 16-bit units.
ghost use Rattle.std.specs.Prelude.{◌≡◌, ◌<◌, OnOk};
ghost use Rattle.js_tree.specs.Written.{put, put_each};
ghost use Rattle.js_tree.specs.Texts.{put_unit, put_text};
ghost use Rattle.js_tree.specs.Words.{hex_digit, unit_escape};

use crate::words::append;
use sj_names::NoMemory;

// A hexadecimal digit, lower case.
fn hex_digit_of(digit: u8) -> u8
    requires { digit < 16 }
    ensures { result ≡ hex_digit digit }
{
    if digit < 10 {
        b'0' + digit
    } else {
        b'a' - 10 + digit
    }
}

// Appends `\u` and the four hexadecimal digits of a unit.
#[tactic(auto, unfolding(js_tree::specs::Written::put))]
fn append_escape(out: &mut Vec<u8>, unit: u16) -> Result<(), NoMemory>
    ensures { OnOk result (out.new.items ≡ put (unit_escape unit) out.old.items) }
{
    let first = hex_digit_of((unit / 4096) as u8);
    let second = hex_digit_of((unit / 256 % 16) as u8);
    let third = hex_digit_of((unit / 16 % 16) as u8);
    let fourth = hex_digit_of((unit % 16) as u8);
    out.extend_from_slice(&[b'\\', b'u', first, second, third, fourth])?;
    Ok(())
}

const QUOTE: u16 = b'"' as u16;

const BACKSLASH: u16 = b'\\' as u16;

const SPACE: u16 = b' ' as u16;

const TILDE: u16 = b'~' as u16;

/// Appends a unit of a string as it is written in double quotes.
#[tactic(auto, unfolding(js_tree::specs::Written::put))]
pub fn append_unit(out: &mut Vec<u8>, unit: u16) -> Result<(), NoMemory>
    ensures { OnOk result (out.new.items ≡ put_unit unit out.old.items) }
{
    match unit {
        QUOTE => append(out, "\\\""),
        BACKSLASH => append(out, "\\\\"),
        SPACE..=TILDE => {
            out.push(unit as u8)?;
            Ok(())
        }
        _ => append_escape(out, unit),
    }
}

/// Appends a string in double quotes.
pub fn append_text(out: &mut Vec<u8>, units: &[u16]) -> Result<(), NoMemory>
    ensures { OnOk result (out.new.items ≡ put_text units.now out.old.items) }
{
    append(out, "\"")?;
    append_units(out, units)?;
    append(out, "\"")
}

// Appends the units of a string.
fn append_units(out: &mut Vec<u8>, units: &[u16]) -> Result<(), NoMemory>
    ensures { OnOk result (out.new.items ≡ put_each put_unit units.now out.old.items) }
{
    for unit in units {
        append_unit(out, *unit)?;
    }
    Ok(())
}

// Modified UTF-8, read and written.
ghost use Rattle.std.specs.Prelude.{◌≡◌, ◌↔◌, ◌<◌, ◌++◌, IsTrue, IfOk, OnOk, Some, None, Err, option_map, is_some};
ghost use Rattle.sj_units.specs.Modified as modified;

use crate::{NoMemory, Units, UnitsError};
use std::alloc::Global;

/// The text that `bytes` code in modified UTF-8: each 16-bit unit by itself, 0000 as C0 80, 0001 to 007F in one byte,
/// 0080 to 07FF in two, all others in three. `BadText` exactly where the bytes are no such code.
pub fn read_modified(alloc: Global, bytes: &[u8]) -> Result<Units, UnitsError>
    ensures units { IfOk result (λ units. modified.modified_units bytes.now ≡ Some units) }
    ensures bytes { IfOk result (λ units. modified.modified_bytes units ≡ bytes.now) }
    ensures bad { result ≡ Err UnitsError.BadText ↔ (modified.modified_units bytes.now ≡ None) }
{
    if !is_modified(bytes) {
        return Err(UnitsError::BadText);
    }
    let mut units = Vec::new(alloc);
    let mut rest = bytes;
    while let Some((unit, after)) = first_unit(rest) {
        units.push(unit)?;
        rest = after;
    }
    Ok(Units::from_vec(units)?)
}

/// The law of reading and writing: bytes are read as a text exactly where they are what that text, of 16-bit units, is
/// written as. So no two texts have the same bytes.
pub fn reads_what_is_written()
    ensures { modified.ReadsWhatIsWritten }
{}

/// Whether `bytes` are modified UTF-8.
pub fn is_modified(bytes: &[u8]) -> bool
    ensures { result ≡ is_some (modified.modified_units bytes.now) }
{
    let mut rest = bytes;
    while let Some((_, after)) = first_unit(rest) {
        rest = after;
    }
    rest.is_empty()
}

// The unit that the bytes begin with, and the bytes behind it.
fn first_unit(bytes: &[u8]) -> Option<(u16, &[u8])>
    ensures { option_map (λ x. (x.0, x.1.now)) result ≡ modified.first_unit bytes.now }
{
    let (a, rest) = bytes.split_first()?;
    if is_one_byte(*a) {
        return Some((u16::from(*a), rest));
    }
    let (b, rest) = rest.split_first()?;
    if is_two_bytes(*a, *b) {
        return Some((unit_of_two(*a, *b), rest));
    }
    let (c, rest) = rest.split_first()?;
    if is_three_bytes(*a, *b, *c) {
        return Some((unit_of_three(*a, *b, *c), rest));
    }
    None
}

fn is_continuation(byte: u8) -> bool
    ensures { result ≡ modified.is_continuation byte }
{
    byte >= 0x80 && byte < 0xc0
}

fn is_one_byte(a: u8) -> bool
    ensures { result ≡ modified.is_one_byte a }
{
    a > 0 && a < 0x80
}

fn is_two_bytes(a: u8, b: u8) -> bool
    ensures { result ≡ modified.is_two_bytes a b }
{
    if a == 0xc0 {
        b == 0x80
    } else {
        a >= 0xc2 && a < 0xe0 && is_continuation(b)
    }
}

fn is_three_bytes(a: u8, b: u8, c: u8) -> bool
    ensures { result ≡ modified.is_three_bytes a b c }
{
    a >= 0xe0 && a < 0xf0 && is_continuation(b) && is_continuation(c) && (a > 0xe0 || b >= 0xa0)
}

// The unit of two bytes.
fn unit_of_two(a: u8, b: u8) -> u16
    requires { IsTrue (modified.is_two_bytes a b) }
    ensures { result ≡ modified.unit_of_two a b }
{
    u16::from(a - 0xc0) * 0x40 + u16::from(b - 0x80)
}

// The unit of three bytes.
fn unit_of_three(a: u8, b: u8, c: u8) -> u16
    requires { IsTrue (modified.is_three_bytes a b c) }
    ensures { result ≡ modified.unit_of_three a b c }
{
    u16::from(a - 0xe0) * 0x1000 + u16::from(b - 0x80) * 0x40 + u16::from(c - 0x80)
}

/// The modified UTF-8 of `units`.
pub fn write_modified(alloc: Global, units: &Units) -> Result<Vec<u8>, NoMemory>
    ensures { IfOk result (λ bytes. bytes.items ≡ modified.modified_bytes units.now) }
{
    let mut bytes = Vec::new(alloc);
    for unit in units.as_slice() {
        write_unit(&mut bytes, *unit)?;
    }
    Ok(bytes)
}

// Writes the bytes of one unit behind `bytes`.
fn write_unit(bytes: &mut Vec<u8>, unit: u16) -> Result<(), NoMemory>
    ensures { OnOk result (bytes.new.items ≡ bytes.old.items ++ modified.unit_bytes unit) }
{
    if unit > 0 && unit < 0x80 {
        bytes.push(unit as u8)?;
    } else if unit < 0x800 {
        bytes.push((0xc0 + unit / 0x40) as u8)?;
        bytes.push((0x80 + unit % 0x40) as u8)?;
    } else {
        bytes.push((0xe0 + unit / 0x1000) as u8)?;
        bytes.push((0x80 + unit / 0x40 % 0x40) as u8)?;
        bytes.push((0x80 + unit % 0x40) as u8)?;
    }
    Ok(())
}

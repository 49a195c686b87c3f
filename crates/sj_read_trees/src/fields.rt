// Fields of numbers, bytes and texts.
ghost use Rattle.std.specs.Prelude.{◌≡◌, true, false, length, MatchOption, Some};
ghost use Rattle.std.specs.Int.{w8, w16, w32, w64};
ghost use Rattle.std.specs.Str.{is_utf8};
ghost use Rattle.sj_read_spec.specs.Reading.{byte_at, number_at, bytes_at};
ghost use Rattle.sj_read_spec.specs.Tables.{below_at, entry_at, text_at, string_at};
ghost use Rattle.sj_read_spec.specs.Types.{mark_at, signed_at};
ghost use Rattle.sj_read_trees.specs.Stops.{Gives};

use crate::stops::{Stop, bad};
use byteorder::{BigEndian, ByteOrder};
use sj_names::Text;
use sj_trees::Code;
use sj_units::{Units, UnitsError, read_modified};
use std::alloc::Global;
use std::str;

// One byte.
pub fn byte_of(bytes: &[u8]) -> Result<(u8, &[u8]), Stop>
    ensures { Gives (λ x. (x.0, x.1.now)) result (byte_at bytes.now) }
{
    match bytes {
        [] => Err(bad(Code::Truncated, bytes)),
        [byte, rest @ ..] => Ok((*byte, rest)),
    }
}

/// A number of two bytes.
pub fn short_of(bytes: &[u8]) -> Result<(u16, &[u8]), Stop>
    ensures { Gives (λ x. (x.0, x.1.now)) result (number_at 2 bytes.now) }
{
    if bytes.len() < 2 {
        return Err(bad(Code::Truncated, bytes));
    }
    Ok((BigEndian::read_u16(bytes), &bytes[2..]))
}

/// A number of four bytes.
pub fn number_of(bytes: &[u8]) -> Result<(u32, &[u8]), Stop>
    ensures { Gives (λ x. (x.0, x.1.now)) result (number_at 4 bytes.now) }
{
    if bytes.len() < 4 {
        return Err(bad(Code::Truncated, bytes));
    }
    Ok((BigEndian::read_u32(bytes), &bytes[4..]))
}

// A signed number of one byte.
pub fn signed_byte_of(bytes: &[u8]) -> Result<(i8, &[u8]), Stop>
    ensures { Gives (λ x. (x.0, x.1.now)) result (signed_at w8 1 bytes.now) }
{
    if bytes.len() < 1 {
        return Err(bad(Code::Truncated, bytes));
    }
    Ok((bytes[0].cast_signed(), &bytes[1..]))
}

// A signed number of two bytes.
pub fn signed_short_of(bytes: &[u8]) -> Result<(i16, &[u8]), Stop>
    ensures { Gives (λ x. (x.0, x.1.now)) result (signed_at w16 2 bytes.now) }
{
    if bytes.len() < 2 {
        return Err(bad(Code::Truncated, bytes));
    }
    Ok((BigEndian::read_i16(bytes), &bytes[2..]))
}

// A signed number of four bytes.
pub fn signed_number_of(bytes: &[u8]) -> Result<(i32, &[u8]), Stop>
    ensures { Gives (λ x. (x.0, x.1.now)) result (signed_at w32 4 bytes.now) }
{
    if bytes.len() < 4 {
        return Err(bad(Code::Truncated, bytes));
    }
    Ok((BigEndian::read_i32(bytes), &bytes[4..]))
}

// A signed number of eight bytes.
pub fn signed_long_of(bytes: &[u8]) -> Result<(i64, &[u8]), Stop>
    ensures { Gives (λ x. (x.0, x.1.now)) result (signed_at w64 8 bytes.now) }
{
    if bytes.len() < 8 {
        return Err(bad(Code::Truncated, bytes));
    }
    Ok((BigEndian::read_i64(bytes), &bytes[8..]))
}

/// This many bytes.
pub fn bytes_of(count: usize, bytes: &[u8]) -> Result<(&[u8], &[u8]), Stop>
    ensures { Gives (λ x. (x.0.now, x.1.now)) result (bytes_at count bytes.now) }
{
    if bytes.len() < count {
        return Err(bad(Code::Truncated, bytes));
    }
    Ok(bytes.split_at(count))
}

/// A mark, 0 or 1.
pub fn mark_of(bytes: &[u8]) -> Result<(bool, &[u8]), Stop>
    ensures { Gives (λ x. (x.0, x.1.now)) result (mark_at bytes.now) }
{
    let (code, rest) = byte_of(bytes)?;
    match code {
        0 => Ok((false, rest)),
        1 => Ok((true, rest)),
        _ => Err(bad(Code::BadTag, bytes)),
    }
}

// A number below `limit`.
pub fn below_of(limit: usize, bytes: &[u8]) -> Result<(u32, &[u8]), Stop>
    ensures { Gives (λ x. (x.0, x.1.now)) result (below_at limit bytes.now) }
{
    let (number, rest) = number_of(bytes)?;
    if (number as usize) < limit {
        Ok((number, rest))
    } else {
        Err(bad(Code::BadIndex, bytes))
    }
}

// The entry of a table at an index.
pub fn entry_of<'t, 'a, T>(table: &'t [T], bytes: &'a [u8]) -> Result<(&'t T, &'a [u8]), Stop>
    ensures { Gives (λ x. (x.0.now, x.1.now)) result (entry_at table.now bytes.now) }
{
    let (index, rest) = number_of(bytes)?;
    match table.get(index as usize) {
        Some(entry) => Ok((entry, rest)),
        None => Err(bad(Code::BadIndex, bytes)),
    }
}

// The text that bytes are, where they are UTF-8.
fn utf8(bytes: &[u8]) -> Option<&str>
    ensures { MatchOption result (is_utf8 bytes.now ≡ false) (λ s. (s.now ≡ bytes.now) × (is_utf8 bytes.now ≡ true)) }
{
    match str::from_utf8(bytes) {
        Ok(text) => Some(text),
        Err(_) => None,
    }
}

// A text behind its length.
pub fn text_of(alloc: Global, bytes: &[u8]) -> Result<(Text, &[u8]), Stop>
    ensures { Gives (λ x. (x.0, x.1.now)) result (text_at bytes.now) }
{
    let (count, rest) = number_of(bytes)?;
    let (text, after) = bytes_of(count as usize, rest)?;
    match utf8(text) {
        Some(text) => Ok((Text::from_str(alloc, text)?, after)),
        None => Err(bad(Code::BadText, rest)),
    }
}

// A string behind its length.
pub fn string_of(alloc: Global, bytes: &[u8]) -> Result<(Units, &[u8]), Stop>
    ensures { Gives (λ x. (x.0, x.1.now)) result (string_at bytes.now) }
{
    let (count, rest) = number_of(bytes)?;
    let (text, after) = bytes_of(count as usize, rest)?;
    match read_modified(alloc, text) {
        Ok(units) => Ok((units, after)),
        Err(UnitsError::BadText) => Err(bad(Code::BadText, rest)),
        Err(UnitsError::NoMemory) => Err(Stop::NoMemory),
    }
}

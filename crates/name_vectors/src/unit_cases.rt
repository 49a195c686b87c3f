// Cases of modified UTF-8.
use crate::outcome::{Undecided, taken_units};
use sj_units::{Units, read_modified, write_modified};
use std::alloc::Global;

/// Whether the case is met: the bytes, in hexadecimal, are read exactly where `verdict` is `ok`, as the units told, four
/// hexadecimal digits each, and are written again.
pub(crate) fn is_met(
    alloc: Global,
    bytes: &str,
    verdict: &str,
    units: &str,
) -> Result<bool, Undecided> {
    let bytes = hex::decode(alloc, bytes)?;
    match taken_units(read_modified(alloc, bytes.as_slice()))? {
        Some(read) => {
            let is_right = is_written_as(alloc, &read, &bytes)? && are_told(alloc, &read, units)?;
            Ok(verdict == "ok" && is_right)
        }
        None => Ok(verdict == "bad"),
    }
}

fn is_written_as(alloc: Global, units: &Units, bytes: &[u8]) -> Result<bool, Undecided> {
    let written = write_modified(alloc, units)?;
    Ok(written.as_slice() == bytes)
}

fn are_told(alloc: Global, units: &Units, digits: &str) -> Result<bool, Undecided> {
    let expected = hex::decode(alloc, digits)?;
    let big = big_endian(alloc, units)?;
    Ok(big.as_slice() == expected.as_slice())
}

// The units as bytes, high ones first.
fn big_endian(alloc: Global, units: &Units) -> Result<Vec<u8>, Undecided> {
    let mut bytes = Vec::new(alloc);
    for unit in units.as_slice() {
        bytes.push((*unit >> 8) as u8)?;
        bytes.push((*unit & 0xff) as u8)?;
    }
    Ok(bytes)
}

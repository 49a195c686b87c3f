//! The first code unit that a string literal escapes.
ghost use Rattle.std.specs.Prelude.{◌≡◌, ◌+◌, ◌<◌, ◌≤◌, length, map, position};
ghost use Rattle.std.specs.Simd.Lanes.{chunk, mask_l};
ghost use Rattle.sj_lanes.specs.SpecialUnit.{is_special_unit};

use std::simd::prelude::*;

/// The index of the first code unit that is below 0x20, above 0x7E, a quotation mark (0x22) or a
/// backslash (0x5C), and `None` where there is no such unit. The units before it stand in a string
/// literal of the emitted JavaScript as they are.
pub fn first_special_unit(units: &[u16]) -> Option<usize>
    ensures { result ≡ position is_special_unit units.now }
{
    match units.len() {
        32.. => first_special_by::<32>(units),
        8.. => first_special_by::<8>(units),
        _ => units.iter().position(|&unit| is_special_unit(unit)),
    }
}

// The last N units may overlap those before them.
fn first_special_by<const N: usize>(units: &[u16]) -> Option<usize>
    requires lanes { (0 < N) × (N ≤ 64) }
    requires long { N ≤ length units.now }
    ensures { result ≡ position is_special_unit units.now }
{
    let last = units.len() - N;
    let mut at = 0;
    while at < last {
        let marks = special_lanes::<N>(units, at);
        if marks != 0 {
            return Some(at + marks.trailing_zeros() as usize);
        }
        at += N;
    }
    let marks = special_lanes::<N>(units, last);
    if marks == 0 {
        None
    } else {
        Some(last + marks.trailing_zeros() as usize)
    }
}

// Bit k says whether the k-th unit from `at` on is special.
#[inline(always)]
fn special_lanes<const N: usize>(units: &[u16], at: usize) -> u64
    requires lanes { N ≤ 64 }
    requires long { at + N ≤ length units.now }
    ensures { result ≡ mask_l (map is_special_unit (chunk at N units.now)) }
{
    let v = Simd::<u16, N>::from_slice(&units[at..]);
    let special = v.simd_lt(Simd::splat(0x20))
        | v.simd_gt(Simd::splat(0x7e))
        | v.simd_eq(Simd::splat(0x22))
        | v.simd_eq(Simd::splat(0x5c));
    special.to_bitmask()
}

fn is_special_unit(unit: u16) -> bool
    ensures { result ≡ is_special_unit unit }
{
    unit < 0x20 || unit > 0x7e || unit == 0x22 || unit == 0x5c
}

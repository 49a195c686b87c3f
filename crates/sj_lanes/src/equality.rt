//! Equality of two runs of bytes.
ghost use Rattle.std.specs.Prelude.{◌≡◌, ◌↔◌, ◌+◌, ◌<◌, ◌≤◌, IsTrue, length};
ghost use Rattle.std.specs.Simd.Lanes.{chunk};

use std::simd::prelude::*;

/// Whether both hold the same bytes, in the same order and number.
pub fn same_bytes(a: &[u8], b: &[u8]) -> bool
    ensures { IsTrue result ↔ (a.now ≡ b.now) }
{
    if a.len() != b.len() {
        return false;
    }
    match a.len() {
        64.. => same_by::<64>(a, b),
        16.. => same_by::<16>(a, b),
        4.. => same_by::<4>(a, b),
        _ => same_by_one(a, b),
    }
}

// The last N bytes may overlap those before them.
fn same_by<const N: usize>(a: &[u8], b: &[u8]) -> bool
    requires lanes { (0 < N) × (N ≤ 64) }
    requires lengths { (N ≤ length a.now) × (length a.now ≡ length b.now) }
    ensures { IsTrue result ↔ (a.now ≡ b.now) }
{
    let last = a.len() - N;
    let mut at = 0;
    while at < last {
        if !same_lanes::<N>(a, b, at) {
            return false;
        }
        at += N;
    }
    same_lanes::<N>(a, b, last)
}

#[inline(always)]
fn same_lanes<const N: usize>(a: &[u8], b: &[u8], at: usize) -> bool
    requires lanes { N ≤ 64 }
    requires lengths { (at + N ≤ length a.now) × (at + N ≤ length b.now) }
    ensures { IsTrue result ↔ (chunk at N a.now ≡ chunk at N b.now) }
{
    let differing = Simd::<u8, N>::from_slice(&a[at..]).simd_ne(Simd::from_slice(&b[at..]));
    differing.to_bitmask() == 0
}

fn same_by_one(a: &[u8], b: &[u8]) -> bool
    requires { length a.now ≡ length b.now }
    ensures { IsTrue result ↔ (a.now ≡ b.now) }
{
    a.iter().zip(b).all(|(x, y)| x == y)
}

//! The number of line feeds.
ghost use Rattle.std.specs.Prelude.{◌≡◌, ◌==◌, ◌+◌, ◌*◌, ◌≤◌, count_by, length};
ghost use Rattle.std.specs.Simd.Lanes.{chunk};

use std::simd::prelude::*;

const LANES: usize = 64;

// A lane of eight bits counts no further.
const MAX_BLOCKS: usize = 255;

/// How many of the bytes are line feeds (0x0A).
pub fn count_newlines(bytes: &[u8]) -> usize
    ensures { result ≡ count_by (λ x. x == 10) bytes.now }
{
    let mut total = 0;
    let mut at = 0;
    while bytes.len() - at >= LANES {
        let blocks = ((bytes.len() - at) / LANES).min(MAX_BLOCKS);
        total += count_in_blocks(bytes, at, blocks);
        at += LANES * blocks;
    }
    total + count_by_one(&bytes[at..])
}

fn count_in_blocks(bytes: &[u8], at: usize, blocks: usize) -> usize
    requires lanes { blocks ≤ MAX_BLOCKS }
    requires long { at + LANES * blocks ≤ length bytes.now }
    ensures { result ≡ count_by (λ x. x == 10) (chunk at (LANES * blocks) bytes.now) }
{
    let newline = u8x64::splat(b'\n');
    let mut counts = u8x64::splat(0);
    for block in 0..blocks {
        let found = u8x64::from_slice(&bytes[at + LANES * block..]).simd_eq(newline);
        counts = counts.strict_add(found.select(u8x64::splat(1), u8x64::splat(0)));
    }
    counts.cast::<u16>().strict_reduce_sum() as usize
}

fn count_by_one(bytes: &[u8]) -> usize
    ensures { result ≡ count_by (λ x. x == 10) bytes.now }
{
    bytes.iter().filter(|&&byte| byte == b'\n').count()
}

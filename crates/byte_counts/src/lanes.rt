//! A byte in a part of a text, looked for in all its places at once.
ghost use Rattle.std.specs.Prelude.{◌≡◌, ◌≤◌, ◌+◌, count_by, drop, length, take};
ghost use Rattle.byte_counts.specs.Counts.{is_byte};

use std::simd::prelude::*;

/// How many bytes are looked at together.
pub(crate) const LANES: usize = 64;

/// How often a byte stands in the part that begins at an offset.
#[inline(always)]
pub(crate) fn count_in(byte: u8, text: &[u8], at: usize) -> usize
    requires { at + LANES ≤ length text.now }
    ensures value { result ≡ count_by (is_byte byte) (take LANES (drop at text.now)) }
    ensures few { result ≤ LANES }
{
    let part = u8x64::from_slice(&text[at..]);
    part.simd_eq(u8x64::splat(byte)).to_bitmask().count_ones() as usize
}

//! The classes of 64 bytes at once.

ghost use Rattle.std.specs.Prelude.{◌≡◌, ◌==◌};
ghost use Rattle.mm_spec.specs.Bytes.{is_white};
ghost use Rattle.mm_bytes.specs.Masks.{is_bad, mask};

use std::simd::prelude::*;

/// The white-space bytes, a bit each: bit i is lane i. 0x0C is the form feed.
#[inline(always)]
pub fn white_mask(lanes: u8x64) -> u64
    ensures { result ≡ mask is_white lanes }
{
    (lanes.simd_eq(u8x64::splat(b' '))
        | lanes.simd_eq(u8x64::splat(b'\n'))
        | lanes.simd_eq(u8x64::splat(b'\t'))
        | lanes.simd_eq(u8x64::splat(0x0C))
        | lanes.simd_eq(u8x64::splat(b'\r'))).to_bitmask()
}

/// The bytes that are neither white space nor printable, a bit each. 0x0C is the form feed.
#[inline(always)]
pub fn bad_mask(lanes: u8x64) -> u64
    ensures { result ≡ mask is_bad lanes }
{
    let white = lanes.simd_eq(u8x64::splat(b' '))
        | lanes.simd_eq(u8x64::splat(b'\n'))
        | lanes.simd_eq(u8x64::splat(b'\t'))
        | lanes.simd_eq(u8x64::splat(0x0C))
        | lanes.simd_eq(u8x64::splat(b'\r'));
    let unprintable = lanes.simd_lt(u8x64::splat(b'!')) | lanes.simd_gt(u8x64::splat(b'~'));
    // White space is unprintable, so this leaves the unprintable bytes that aren't white space.
    (unprintable ^ white).to_bitmask()
}

/// The line feeds, a bit each.
#[inline(always)]
pub fn lf_mask(lanes: u8x64) -> u64
    ensures { result ≡ mask (λ b. b == 0x0A) lanes }
{
    lanes.simd_eq(u8x64::splat(b'\n')).to_bitmask()
}

/// The dollar signs, a bit each.
#[inline(always)]
pub fn dollar_mask(lanes: u8x64) -> u64
    ensures { result ≡ mask (λ b. b == 0x24) lanes }
{
    lanes.simd_eq(u8x64::splat(b'$')).to_bitmask()
}

//! Rows of marks as digits `0` and `1`, one for each column. The 64 digits of a word are computed
//! at once, by lanes.

ghost use Rattle.std.specs.Prelude.{◌≡◌, ◌<◌, ◌*◌, ◌==◌, ℕ, length, slice_index};
ghost use Rattle.std.specs.Int.{bit_at};
ghost use Rattle.mm_spec.specs.Report.{digit_of};
ghost use Rattle.mm_rows.specs.Bits.{is_bit};

use std::simd::prelude::*;

/// For each bit of a word, which byte of the word it is in.
const BYTES: [usize; 64] = [
    0, 0, 0, 0, 0, 0, 0, 0, 1, 1, 1, 1, 1, 1, 1, 1, 2, 2, 2, 2, 2, 2, 2, 2, 3, 3, 3, 3, 3, 3, 3, 3,
    4, 4, 4, 4, 4, 4, 4, 4, 5, 5, 5, 5, 5, 5, 5, 5, 6, 6, 6, 6, 6, 6, 6, 6, 7, 7, 7, 7, 7, 7, 7, 7,
];

/// For each bit of a word, the number that has this bit of the byte alone.
const BITS: [u8; 64] = [
    1, 2, 4, 8, 16, 32, 64, 128, 1, 2, 4, 8, 16, 32, 64, 128, 1, 2, 4, 8, 16, 32, 64, 128, 1, 2, 4,
    8, 16, 32, 64, 128, 1, 2, 4, 8, 16, 32, 64, 128, 1, 2, 4, 8, 16, 32, 64, 128, 1, 2, 4, 8, 16,
    32, 64, 128, 1, 2, 4, 8, 16, 32, 64, 128,
];

/// Returns the digits of the cells of a word.
#[inline(always)]
fn word_cells(word: u64) -> u8x64
    ensures length_is { length result ≡ 64 }
    ensures digits_are { (k : ℕ) → k < 64 → slice_index result k ≡ digit_of (bit_at word k == 1) }
{
    let bits = u8x64::from_array(BITS);
    let bytes = u64x8::splat(word).to_le_bytes().swizzle(BYTES);
    (bytes & bits)
        .simd_eq(bits)
        .select(u8x64::splat(b'1'), u8x64::splat(b'0'))
}

/// Writes the digits of the cells of words.
pub fn write_cells(into: &mut [u8], words: &[u64])
    requires { length into.old ≡ 64 * length words.now }
    ensures length_stays { length into.new ≡ length into.old }
    ensures digits_are { (i : ℕ) → i < length into.old
        → slice_index into.new i ≡ digit_of (is_bit words.now i) }
{
    for (w, word) in words.iter().enumerate() {
        word_cells(*word).copy_to_slice(&mut into[64 * w..]);
    }
}

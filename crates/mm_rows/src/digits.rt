//! Rows of marks as hexadecimal digits: a digit has four columns, the first of them as its highest
//! bit. The 16 digits of a word are computed at once, by lanes.

ghost use Rattle.std.specs.Prelude.{◌≡◌, ◌<◌, ◌*◌, ◌/◌, ◌%◌, ℕ, length, slice_index};
ghost use Rattle.mm_spec.specs.Report.{hex_digit};
ghost use Rattle.mm_rows.specs.Bits.{four_at};

use std::simd::prelude::*;

/// The number of four columns, whose first column is the highest bit. The index is the number that
/// they make in a word of marks, where the first column is the lowest bit.
const NUMBERS: [u8; 16] = [0, 8, 4, 12, 2, 10, 6, 14, 1, 9, 5, 13, 3, 11, 7, 15];

/// The same numbers as hexadecimal digits, with the same index.
const DIGITS: [u8; 16] = *b"084c2a6e195d3b7f";

/// Returns the number that digit `k` of a word stands for, that of its four columns.
pub fn digit_value(word: u64, k: usize) -> u8
    requires { k < 16 }
    ensures { result ≡ four_at word k }
{
    NUMBERS[((word >> (4 * k)) & 15) as usize]
}

/// Returns the digits of a word. A byte of the word has two of them, the first in its lower half.
#[inline(always)]
fn word_digits(word: u64) -> u8x16
    ensures length_is { length result ≡ 16 }
    ensures digits_are { (k : ℕ) → k < 16 → slice_index result k ≡ hex_digit (four_at word k) }
{
    let bytes = u64x2::splat(word).to_le_bytes();
    let first = bytes & u8x16::splat(15);
    let second = bytes >> u8x16::splat(4);
    let fours = first.shuffle(
        second,
        [0, 16, 1, 17, 2, 18, 3, 19, 4, 20, 5, 21, 6, 22, 7, 23],
    );
    u8x16::from_array(DIGITS).swizzle_dyn(fours)
}

/// Writes the digits of words.
pub fn write_digits(into: &mut [u8], words: &[u64])
    requires { length into.old ≡ 16 * length words.now }
    ensures length_stays { length into.new ≡ length into.old }
    ensures digits_are { (i : ℕ) → i < length into.old
        → slice_index into.new i
        ≡ hex_digit (four_at (slice_index words.now (i / 16)) (i % 16)) }
{
    for (w, word) in words.iter().enumerate() {
        word_digits(*word).copy_to_slice(&mut into[16 * w..]);
    }
}

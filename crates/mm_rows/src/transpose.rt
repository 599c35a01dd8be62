//! Rows of bits as columns, a band of 64 rows at a time: band w has the rows from `64 * w` on,
//! and makes word w of each column. So a word of a column is written once. Writing one mark at a
//! time would fetch the word again for each of its bits.

ghost use Rattle.std.specs.Prelude.{◌≡◌, ◌<◌, ◌≤◌, ◌+◌, ◌*◌, ℕ, length, slice_index, IfOk, true};
ghost use Rattle.std.specs.Prelude.{◌^◌, false};
ghost use Rattle.std.specs.Int.{bit_at};
ghost use Rattle.mm_rows.specs.Bits.{is_bit, words_for, AreTransposed, IsTable};
ghost use Rattle.mm_rows.specs.Bands.{bit_in_rows, AreRowBytes, ColumnsWritten};

use crate::bits::{next_set, or_row};
use std::alloc::{AllocError, Allocator};
use std::simd::prelude::*;

/// Sets in `has_mark` the bits of the columns in which a row of band w has a mark, and no others.
/// There are at most 2 ^ 26 words in a row, so that its bits have numbers of 32 bits.
fn mark_columns(has_mark: &mut [u64], bits: &[u64], rows: usize, w: usize)
    requires size_is { length bits.now ≡ rows * length has_mark.old }
    requires rows_lt_2_31 { rows < 2 ^ 31 }
    requires words_le_2_26 { length has_mark.old ≤ 2 ^ 26 }
    requires band_has_row { 64 * w < rows }
    ensures { (k j : ℕ) → k < 64 → j < 64 * length has_mark.old
        → bit_in_rows rows (length has_mark.old) bits.now (64 * w + k) j ≡ true
        → is_bit has_mark.new j ≡ true }
{
    let across = has_mark.len();
    has_mark.fill(0);
    for i in 64 * w..(64 * w + 64).min(rows) {
        or_row(has_mark, &bits[i * across..i * across + across]);
    }
}

/// Returns byte `byte_index` of each row of band w, and zeros past the last row.
#[tactic(auto, using(crate::proofs::BandLaw::row_word_lt_length))]
fn row_bytes(bits: &[u64], across: usize, rows: usize, w: usize, byte_index: usize) -> [u8; 64]
    requires size_is { length bits.now ≡ rows * across }
    requires rows_lt_2_31 { rows < 2 ^ 31 }
    requires words_le_2_26 { across ≤ 2 ^ 26 }
    requires band_has_row { 64 * w < rows }
    requires byte_lt_row { byte_index < 8 * across }
    ensures { AreRowBytes rows across bits.now w byte_index result }
{
    let mut bytes = [0u8; 64];
    for k in 0..(rows - 64 * w).min(64) {
        let word = bits[(64 * w + k) * across + byte_index / 8];
        bytes[k] = ((word >> (8 * (byte_index % 8))) & 0xFF) as u8;
    }
    bytes
}

/// Returns a word with bit `b` of each of 64 bytes.
#[inline(always)]
fn lane_bits(bytes: u8x64, b: usize) -> u64
    requires { b < 8 }
    ensures { (k : ℕ) → k < 64 → bit_at result k ≡ bit_at (slice_index bytes k) b }
{
    let bit = u8x64::splat(1u8 << b);
    (bytes & bit).simd_eq(bit).to_bitmask()
}

/// Writes the words that band w makes of the columns of byte `byte_index`.
#[tactic(auto, using(crate::proofs::BandLaw::row_word_lt_length))]
fn write_columns(
    transposed: &mut [u64],
    bits: &[u64],
    rows: usize,
    columns: usize,
    w: usize,
    byte_index: usize,
)
    requires is_table { IsTable rows columns bits.now }
    requires band_has_row { 64 * w < rows }
    requires byte_lt_row { byte_index < 8 * words_for columns }
    requires columns_written { ColumnsWritten rows columns bits.now transposed.old w (8 *
        byte_index) }
    ensures { ColumnsWritten rows columns bits.now transposed.new w (8 * byte_index + 8) }
{
    let down = rows.div_ceil(64);
    let bytes = u8x64::from_array(row_bytes(bits, columns.div_ceil(64), rows, w, byte_index));
    for j in 8 * byte_index..(8 * byte_index + 8).min(columns) {
        let word = lane_bits(bytes, j % 8);
        // If the band has no mark in a column, the word is zero already and isn't fetched.
        if word != 0 {
            transposed[j * down + w] = word;
        }
    }
}

/// Writes the word that band w makes of each column. `has_mark` is a row of bits for the call to
/// work in: what it has before and after doesn't matter.
fn transpose_band(
    transposed: &mut [u64],
    bits: &[u64],
    has_mark: &mut [u64],
    rows: usize,
    columns: usize,
    w: usize,
)
    requires is_table { IsTable rows columns bits.now }
    requires band_has_row { 64 * w < rows }
    requires width_is { length has_mark.old ≡ words_for columns }
    requires columns_written { ColumnsWritten rows columns bits.now transposed.old w 0 }
    ensures { ColumnsWritten rows columns bits.now transposed.new (w + 1) 0 }
{
    mark_columns(has_mark, bits, rows, w);
    let mut byte_index = 0usize;
    while let Some(j) = next_set(has_mark, 8 * byte_index) {
        write_columns(transposed, bits, rows, columns, w, j / 8);
        byte_index = j / 8 + 1;
    }
}

/// Writes the words that all bands make of each column.
fn transpose_bands(
    transposed: &mut [u64],
    bits: &[u64],
    has_mark: &mut [u64],
    rows: usize,
    columns: usize,
)
    requires is_table { IsTable rows columns bits.now }
    requires width_is { length has_mark.old ≡ words_for columns }
    requires size_is { length transposed.old ≡ columns * words_for rows }
    requires is_zero { (k : ℕ) → slice_index transposed.old k ≡ 0 }
    ensures { AreTransposed rows columns bits.now transposed.new }
{
    for w in 0..rows.div_ceil(64) {
        transpose_band(transposed, bits, has_mark, rows, columns, w);
    }
}

/// Returns the columns of a table of bits.
pub fn transpose<A: Allocator + Copy>(
    alloc: A,
    bits: &[u64],
    rows: u32,
    columns: u32,
) -> Result<Vec<u64, A>, AllocError>
    requires { IsTable rows columns bits.now }
    ensures { IfOk result (λ v. AreTransposed rows columns bits.now v.items) }
{
    let rows = rows as usize;
    let columns = columns as usize;
    let mut has_mark = Vec::new(alloc);
    has_mark.resize(columns.div_ceil(64), 0u64)?;
    let mut transposed = Vec::new(alloc);
    transposed.resize(columns * rows.div_ceil(64), 0u64)?;
    transpose_bands(&mut transposed, bits, &mut has_mark, rows, columns);
    Ok(transposed)
}

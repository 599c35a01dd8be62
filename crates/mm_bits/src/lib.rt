//! Rows of bits, in words of 64 bits: bit `j` of a row is bit `j % 64` of word `j / 64`, the lowest
//! bit of a word first. This layer doesn't know what a bit says. It promises which bits are set,
//! and that one row is found to have the bits of another exactly if it has.
//!
//! A caller sets bits with [`set`], and asks for one with [`is_set`] and for many with [`has_all`].
#![tactic(auto)]

ghost use Rattle.std.specs.Prelude.{◌≡◌, ◌<◌, ◌≤◌, ◌/◌, ◌==◌, ◌||◌, ℕ, length};
ghost use Rattle.std.specs.Bool.{Decides};
ghost use Rattle.mm_bits.specs.Bits.{is_bit, HasBitsOf};

/// Whether a bit is set.
pub fn is_set(row: &[u64], j: usize) -> bool
    requires { j / 64 < length row.now }
    ensures { result ≡ is_bit row.now j }
{
    (row[j / 64] >> (j % 64)) & 1 == 1
}

/// Sets a bit.
pub fn set(row: &mut [u64], j: usize)
    requires { j / 64 < length row.old }
    ensures { (k : ℕ) → is_bit row.new k ≡ ((k == j) || is_bit row.old k) }
{
    row[j / 64] |= 1u64 << (j % 64);
}

/// Whether each bit that is set in `bits` is set in `row`, which has as many words or more.
pub fn has_all(row: &[u64], bits: &[u64]) -> bool
    requires { length bits.now ≤ length row.now }
    ensures { Decides result (HasBitsOf row.now bits.now) }
{
    for (index, word) in bits.iter().enumerate() {
        if row[index] & *word != *word {
            return false;
        }
    }
    true
}

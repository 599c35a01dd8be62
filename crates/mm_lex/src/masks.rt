//! The next and the last bit of a mask that is 1.

ghost use Rattle.std.specs.Prelude.{◌≡◌, ◌<◌, ◌≤◌, ℕ};
ghost use Rattle.std.specs.Int.{bit_at};

/// The index of the first bit, from `from` on, that is 1; 64 if there is none.
#[inline(always)]
pub fn first_one(mask: u64, from: usize) -> usize
    requires { from < 64 }
    ensures from_le_index { from ≤ result }
    ensures index_le_64 { result ≤ 64 }
    ensures zeros { (i : ℕ) → from ≤ i → i < result → bit_at mask i ≡ 0 }
    ensures one { result < 64 → bit_at mask result ≡ 1 }
{
    let rest = mask >> from;
    if rest == 0 {
        64
    } else {
        from + rest.trailing_zeros() as usize
    }
}

/// The index of the last bit, up to `upto`, that is 1; 0 if there is none.
#[inline(always)]
pub fn last_one(mask: u64, upto: usize) -> usize
    requires { upto < 64 }
    ensures index_le_upto { result ≤ upto }
    ensures one { 0 < result → bit_at mask result ≡ 1 }
{
    let rest = mask << (63 - upto);
    if rest == 0 {
        0
    } else {
        upto - rest.leading_zeros() as usize
    }
}

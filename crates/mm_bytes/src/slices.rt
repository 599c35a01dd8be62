//! Any number of bytes, in blocks of 64 and a rest.

ghost use Rattle.std.specs.Prelude.{◌≡◌, ◌==◌, count_by};
ghost use Rattle.std.specs.List.{position};
ghost use Rattle.mm_bytes.specs.Masks.{is_bad};

use crate::classes::is_bad;
use crate::lanes::{bad_mask, lf_mask};
use std::simd::prelude::*;

/// The place of the first byte that is neither white space nor printable.
pub fn first_bad(bytes: &[u8]) -> Option<usize>
    ensures { result ≡ position is_bad bytes.now }
{
    let mut at = 0;
    while 64 <= bytes.len() - at {
        let bad = bad_mask(u8x64::from_slice(&bytes[at..]));
        if bad != 0 {
            return Some(at + bad.trailing_zeros() as usize);
        }
        at += 64;
    }
    while at < bytes.len() {
        if is_bad(bytes[at]) {
            return Some(at);
        }
        at += 1;
    }
    None
}

/// The number of line feeds.
pub fn count_lf(bytes: &[u8]) -> usize
    ensures { result ≡ count_by (λ b. b == 0x0A) bytes.now }
{
    let mut count = 0usize;
    let mut at = 0usize;
    while 64 <= bytes.len() - at {
        count += lf_mask(u8x64::from_slice(&bytes[at..])).count_ones() as usize;
        at += 64;
    }
    while at < bytes.len() {
        if bytes[at] == b'\n' {
            count += 1;
        }
        at += 1;
    }
    count
}

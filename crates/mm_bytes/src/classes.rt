//! The classes of up to 64 bytes.

ghost use Rattle.std.specs.Prelude.{◌≡◌, ◌==◌, ◌<◌, ◌-◌, ◌++◌, length, replicate};
ghost use Rattle.mm_spec.specs.Bytes.{is_white, is_printable};
ghost use Rattle.mm_bytes.specs.Masks.{is_bad, mask};

use crate::lanes::{bad_mask, dollar_mask, white_mask};
use std::simd::prelude::*;

/// The classes of up to 64 bytes, a bit each: bit i is byte i.
#[derive(Clone, Copy, PartialEq, Eq, Debug)]
pub struct Classes {
    /// The white-space bytes: tab, line feed, form feed, carriage return and space.
    pub white: u64,
    /// The bytes that are neither white space nor printable.
    pub bad: u64,
}

/// The classes of 64 bytes.
pub fn class_block(bytes: &[u8; 64]) -> Classes
    ensures white_is { result.white ≡ mask is_white bytes.now }
    ensures bad_is { result.bad ≡ mask is_bad bytes.now }
{
    let lanes = u8x64::from_array(*bytes);
    Classes {
        white: white_mask(lanes),
        bad: bad_mask(lanes),
    }
}

/// The classes of at most 63 bytes; the bits after the last byte are 0.
pub fn class_tail(bytes: &[u8]) -> Classes
    requires { length bytes.now < 64 }
    ensures white_is { result.white ≡ mask is_white bytes.now }
    ensures bad_is { result.bad ≡ mask is_bad bytes.now }
{
    class_block(&padded(bytes))
}

/// The dollar signs among 64 bytes, a bit each: bit i is byte i.
pub fn dollars_block(bytes: &[u8; 64]) -> u64
    ensures { result ≡ mask (λ b. b == 0x24) bytes.now }
{
    dollar_mask(u8x64::from_array(*bytes))
}

/// The dollar signs among at most 63 bytes; the bits after the last byte are 0.
pub fn dollars_tail(bytes: &[u8]) -> u64
    requires { length bytes.now < 64 }
    ensures { result ≡ mask (λ b. b == 0x24) bytes.now }
{
    dollars_block(&padded(bytes))
}

/// Fewer than 64 bytes, padded to 64 with `a`, which is neither white space nor bad nor `$`.
#[inline(always)]
fn padded(bytes: &[u8]) -> [u8; 64]
    requires { length bytes.now < 64 }
    ensures { result ≡ bytes.now ++ replicate (64 - length bytes.now) 0x61 }
{
    let mut block = [b'a'; 64];
    block[..bytes.len()].copy_from_slice(bytes);
    block
}

/// Whether a byte is white space: tab, line feed, form feed, carriage return or space.
#[tactic(auto, unfolding(mm_spec::specs::Bytes::is_white))]
#[inline(always)]
pub fn is_white(byte: u8) -> bool
    ensures { result ≡ is_white byte }
{
    matches!(byte, b'\t' | b'\n' | 0x0C | b'\r' | b' ')
}

/// Whether a byte is printable and no space: `!` to `~`.
#[tactic(auto, unfolding(mm_spec::specs::Bytes::is_printable))]
#[inline(always)]
pub fn is_printable(byte: u8) -> bool
    ensures { result ≡ is_printable byte }
{
    matches!(byte, b'!'..=b'~')
}

#[tactic(auto, unfolding(crate::specs::Masks::is_bad))]
pub(crate) fn is_bad(byte: u8) -> bool
    ensures { result ≡ is_bad byte }
{
    !is_white(byte) && !is_printable(byte)
}

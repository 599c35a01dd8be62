//! The letters of compressed proofs, and the numbers that they spell.

ghost use Rattle.std.specs.Prelude.{◌≡◌, ◌+◌, ◌*◌, ◌<◌, ◌≤◌, ℕ, IfSome, IfNone};
ghost use Rattle.mm_proof.specs.Number.{IsNumber, HasLetterKind, saturated};

/// What a byte after the brackets of a compressed proof is (Metamath book, "Compressed Proofs").
#[derive(Clone, Copy)]
pub(crate) enum LetterKind {
    /// `U` to `Y`: a digit 1 to 5 of a number that continues.
    Early(u64),
    /// `A` to `T`: the last digit of a number, 1 to 20.
    Last(u64),
    /// `Z`: the step before it is marked.
    Mark,
    /// `?`: a step is missing.
    UnknownStep,
    /// Any other byte.
    Other,
}

/// Returns what a byte is.
pub(crate) fn letter_of(byte: u8) -> LetterKind
    ensures { HasLetterKind byte result }
{
    // `A` is byte 65 and spells 1, and so does `U`, which is byte 85.
    if b'A' <= byte && byte <= b'T' {
        LetterKind::Last(u64::from(byte) - 64)
    } else if b'U' <= byte && byte <= b'Y' {
        LetterKind::Early(u64::from(byte) - 84)
    } else {
        match byte {
            b'Z' => LetterKind::Mark,
            b'?' => LetterKind::UnknownStep,
            _ => LetterKind::Other,
        }
    }
}

/// A number with one more digit, `base * number + digit`, or the greatest 64-bit number if that is
/// smaller.
#[inline(always)]
pub(crate) fn with_digit(number: u64, base: u64, digit: u64) -> u64
    requires base_le_20 { base ≤ 20 }
    requires digit_le_20 { digit ≤ 20 }
    ensures { result ≡ saturated (base * number + digit) }
{
    // For a small number nothing can wrap. (This bound fits in an instruction, 32 bits don't.)
    if number < 0x4000_0000 {
        base * number + digit
    } else {
        with_digit_of_large(number, base, digit)
    }
}

/// Returns what [`with_digit`] returns, for a large number, which proofs hardly ever have: a call,
/// so that the usual path has no jump.
#[cold]
#[inline(never)]
fn with_digit_of_large(number: u64, base: u64, digit: u64) -> u64
    ensures { result ≡ saturated (base * number + digit) }
{
    number.saturating_mul(base).saturating_add(digit)
}

/// The value of a number in letters: any number of letters `U` to `Y`, followed by one of `A` to
/// `T`. It is `None` for any other word, and for a value above 4,294,967,295.
pub fn number(letters: &[u8]) -> Option<u32>
    ensures value_is { IfSome result (λ n. IsNumber letters.now n) }
    ensures is_too_large { IfNone result ((n : ℕ) → IsNumber letters.now n → 4294967295 < n) }
{
    let (last, early) = letters.split_last()?;
    let LetterKind::Last(digit) = letter_of(*last) else {
        return None;
    };
    let mut value = 0u64;
    for byte in early {
        let LetterKind::Early(digit) = letter_of(*byte) else {
            return None;
        };
        value = with_digit(value, 5, digit);
    }
    u32::try_from(with_digit(value, 20, digit)).ok()
}

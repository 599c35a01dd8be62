//! A label or a symbol as a key of a hash map.

ghost use Rattle.std.specs.Prelude.{◌≡◌, ◌≢◌, ◌≤◌, ◌+◌, [], ◌∷◌, bytes_eq, length, true, false};
ghost use Rattle.std.specs.Cmp.Lexicographic.{bytes_decides, nat_list_eq_equiv};
ghost use Rattle.std.specs.Cmp.{on_equiv, on_per, partial_equiv_from_equiv};
ghost use Rattle.std.proofs.Common.{ap};
ghost use Rattle.mm_database.specs.Ends.{ends_of, number_at, wide_number_at};

use indexmap::Equivalent;
use std::hash::{Hash, Hasher};

/// A word of at most so many bytes is told by its length and its ends.
const BOTH_ENDS: usize = 16;

/// The bytes of a label or a symbol, borrowed from the text. They are hashed all at once, whereas a
/// slice is hashed byte by byte. Their ends stand beside them, so that most names are compared with
/// a word without a look at the text: where the name stands there is mostly in no cache.
#[derive(Clone, Copy)]
pub struct Name<'a> {
    pub bytes: &'a [u8],
    ends: (u64, u64),
    ghost ends_are: { ends ≡ ends_of bytes.now },
}

/// Returns the four bytes of a word from `at` on as a number.
#[inline(always)]
fn number_at(word: &[u8], at: usize) -> u32
    requires { at + 4 ≤ length word.now }
    ensures { result ≡ number_at word.now at }
{
    u32::from_le_bytes([word[at], word[at + 1], word[at + 2], word[at + 3]])
}

/// Returns the eight bytes of a word from `at` on as a number.
#[inline(always)]
fn wide_number_at(word: &[u8], at: usize) -> u64
    requires { at + 8 ≤ length word.now }
    ensures { result ≡ wide_number_at word.now at }
{
    u64::from_le_bytes([
        word[at],
        word[at + 1],
        word[at + 2],
        word[at + 3],
        word[at + 4],
        word[at + 5],
        word[at + 6],
        word[at + 7],
    ])
}

/// Returns the first and the last eight bytes of a word, each as a number; of a word of four to
/// seven bytes the first and the last four; and of a shorter one the first byte, and a number of
/// the middle and the last one.
#[inline(always)]
fn ends_of(word: &[u8]) -> (u64, u64)
    ensures { result ≡ ends_of word.now }
{
    let len = word.len();
    if len >= 8 {
        (wide_number_at(word, 0), wide_number_at(word, len - 8))
    } else if len >= 4 {
        (number_at(word, 0) as u64, number_at(word, len - 4) as u64)
    } else if len > 0 {
        (
            word[0] as u64,
            word[len / 2] as u64 * 256 + word[len - 1] as u64,
        )
    } else {
        (0, 0)
    }
}

/// Whether two words of one length and with the same ends are the same.
#[inline(always)]
fn is_word_with_ends(word: &[u8], other: &[u8]) -> bool
    requires same_length { length word.now ≡ length other.now }
    requires same_ends { ends_of word.now ≡ ends_of other.now }
    ensures { result ≡ bytes_eq word.now other.now }
{
    // Slices of the whole, since the prover takes from a slice that its elements are bytes.
    let bytes = &word[..];
    let others = &other[..];
    bytes.len() <= BOTH_ENDS || bytes == others
}

impl<'a> Name<'a> {
    /// Returns the name with these bytes.
    #[inline(always)]
    pub fn new(bytes: &'a [u8]) -> Name<'a>
        ensures { result.bytes.now ≡ bytes.entry.now }
    {
        Name {
            bytes,
            ends: ends_of(bytes),
        }
    }

    /// Returns the ends of the bytes.
    #[inline(always)]
    pub fn ends(&self) -> (u64, u64)
        ensures { result ≡ ends_of self.now.bytes.now }
    {
        self.ends
    }

    /// Whether both names have as many bytes, and the same ends.
    #[inline(always)]
    fn has_ends_of(&self, other: &Name) -> bool
        ensures are_same_if_true { result ≡ true
            → (length self.now.bytes.now ≡ length other.now.bytes.now)
            × (ends_of self.now.bytes.now ≡ ends_of other.now.bytes.now) }
        ensures differ_if_false { result ≡ false → self.now.bytes.now ≢ other.now.bytes.now }
    {
        self.bytes.len() == other.bytes.len()
            && self.ends.0 == other.ends.0
            && self.ends.1 == other.ends.1
    }

    /// Whether both names have the same bytes.
    #[inline(always)]
    pub fn is(&self, other: &Name) -> bool
        ensures { result ≡ bytes_eq self.now.bytes.now other.now.bytes.now }
    {
        if !self.has_ends_of(other) {
            return false;
        }
        is_word_with_ends(self.bytes, other.bytes)
    }
}

impl<'a> PartialEq for Name<'a> {
    ghost eq = { λ x y. bytes_eq x.bytes.now y.bytes.now };

    ghost laws = { on_per (λ x. x.bytes.now) (partial_equiv_from_equiv nat_list_eq_equiv) };

    fn eq(&self, other: &Self) -> bool {
        self.bytes == other.bytes
    }
}

impl<'a> Eq for Name<'a> {
    ghost laws = { on_equiv (λ x. x.bytes.now) nat_list_eq_equiv };
}

impl<'a> Hash for Name<'a> {
    ghost hash_input = { λ x. x.bytes.now ∷ [] };

    ghost respects_eq = { λ x y h.
        ap (λ n. n ∷ []) ((bytes_decides x.bytes.now y.bytes.now).0 h) };

    fn hash<H: Hasher>(&self, state: &mut H) {
        state.write(self.bytes);
    }
}

impl<'a, 'b> Equivalent<Name<'b>> for Name<'a> {
    ghost equivalent = { λ q k. bytes_eq q.bytes.now k.bytes.now };

    ghost respects_hash = { λ q k h.
        ap (λ n. n ∷ []) ((bytes_decides q.bytes.now k.bytes.now).0 h) };

    ghost respects_eq = { λ q x y.
        nat_list_eq_equiv.congr q.bytes.now x.bytes.now y.bytes.now };

    fn equivalent(&self, key: &Name<'b>) -> bool {
        self.bytes == key.bytes
    }
}

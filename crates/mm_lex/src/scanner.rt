//! The words of a text, found from the classes of its blocks of 64 bytes.

ghost use Rattle.std.specs.Prelude.{◌≡◌, ◌<◌, ◌≤◌, ◌+◌, ◌-◌, ◌||◌, ◌==◌, ℕ, true, false, [], ◌∷◌};
ghost use Rattle.std.specs.Prelude.{length, take, drop, min, IfNone, IfSome, MatchOption};
ghost use Rattle.std.specs.Prelude.{if◌then◌else◌};
ghost use Rattle.std.specs.Int.{bit_at};
ghost use Rattle.mm_bytes.specs.Masks.{is_bad, mask};
ghost use Rattle.mm_spec.specs.Bytes.{is_white};
ghost use Rattle.mm_spec.specs.Readings.{bytes_of};
ghost use Rattle.mm_spec.specs.Words.{begins_word, white_at, words_between};
ghost use Rattle.mm_spec.specs.Laws.Words.{IsWord};
ghost use Rattle.mm_lex.specs.Plain.{plain_at, IsPlainWord};
ghost use Rattle.mm_lex.specs.Beginnings.{ArePlain, IsFirstWordStart, IsTaken, IsPassed};
ghost use Rattle.mm_lex.specs.Beginnings.{IsWordFrom};

use crate::masks::{first_one, last_one};
use crate::{TEXT_LIMIT, Word};
use mm_bytes::{Classes, class_block, class_tail, dollars_block, dollars_tail, is_white};

/// The classes of the first 64 bytes, or of all if there are fewer.
#[inline(always)]
pub fn classes_of(bytes: &[u8]) -> Classes
    ensures white_is { result.white ≡ mask is_white (take 64 bytes.now) }
    ensures bad_is { result.bad ≡ mask is_bad (take 64 bytes.now) }
{
    match bytes.first_chunk::<64>() {
        Some(block) => class_block(block),
        None => class_tail(bytes),
    }
}

/// The dollar signs among the first 64 bytes, or among all if there are fewer.
#[inline(always)]
fn dollars_of(bytes: &[u8]) -> u64
    ensures { result ≡ mask (λ b. b == 0x24) (take 64 bytes.now) }
{
    match bytes.first_chunk::<64>() {
        Some(block) => dollars_block(block),
        None => dollars_tail(bytes),
    }
}

/// Masks with a bit for each of the first 64 bytes, or for each byte if there are fewer.
#[derive(Clone, Copy)]
struct Masks {
    /// White space.
    white: u64,
    /// White space, bad bytes and dollar signs: what ends a word, or keeps it from being plain.
    stops: u64,
}

/// The masks of a block: of the first 64 bytes, or of all if there are fewer.
#[inline(always)]
fn masks_of(bytes: &[u8]) -> Masks
    ensures white_is { result.white ≡ mask is_white (take 64 bytes.now) }
    ensures others_are_plain { (i : ℕ) → i < 64 → i < length bytes.now → bit_at result.stops i ≡ 0
        → plain_at bytes.now i ≡ true }
    ensures others_not_white { (i : ℕ) → i < 64 → i < length bytes.now → bit_at result.stops i ≡ 0
        → white_at bytes.now i ≡ false }
{
    let classes = classes_of(bytes);
    let dollars = dollars_of(bytes);
    Masks {
        white: classes.white,
        stops: classes.white | classes.bad | dollars,
    }
}

/// Where words begin in a block: the zero bits of the mask of its white space that follow a one
/// bit, and bit 0, if it is zero and a word may begin there.
#[inline(always)]
fn starts_of(white: u64, may_begin_at_0: bool) -> u64
    ensures first_bit { bit_at result 0 ≡ (if may_begin_at_0 then 1 - bit_at white 0 else 0) }
    ensures next_bits { (i : ℕ) → i + 1 < 64
        → bit_at result (i + 1) ≡ min (1 - bit_at white (i + 1)) (bit_at white i) }
{
    !white & (white << 1 | u64::from(may_begin_at_0))
}

/// Whether a word may begin at the place: before it there is a white-space byte, or nothing.
#[inline(always)]
#[tactic(auto, unfolding(mm_spec::specs::Words::white_at))]
fn may_begin(text: &[u8], at: usize) -> bool
    requires { at ≤ length text.now }
    ensures { result ≡ (at == 0 || white_at text.now (at - 1)) }
{
    at == 0 || is_white(text[at - 1])
}

/// A text, its current block, and where further words begin in that block.
#[derive(Clone, Copy)]
pub struct WordScanner<'a> {
    text: &'a [u8],
    /// The words that begin before this place have been taken or left out.
    from: usize,
    /// Where the current block begins. Bit i of the masks is byte `base + i` of the text.
    base: usize,
    /// The white-space bytes of the block.
    white: u64,
    /// Its white-space bytes, bad bytes and dollar signs.
    stops: u64,
    /// Where words begin, from `from` on. Bits after the text's end mean nothing.
    starts: u64,
    ghost base_le_length: { base ≤ length text.now },
    ghost base_le_from: { base ≤ from },
    ghost from_le_block_end: { from ≤ base + 64 },
    ghost white_is: { white ≡ mask is_white (take 64 (drop base text.now)) },
    ghost others_are_plain: { (i : ℕ) → i < 64 → base + i < length text.now → bit_at stops i ≡ 0
        → plain_at text.now (base + i) ≡ true },
    ghost others_not_white: { (i : ℕ) → i < 64 → base + i < length text.now → bit_at stops i ≡ 0
        → white_at text.now (base + i) ≡ false },
    ghost begins: { (i : ℕ) → i < 64 → base + i < length text.now → bit_at starts i ≡ 1
        → begins_word text.now (base + i) ≡ true },
    ghost starts_ge_from: { (i : ℕ) → i < 64 → bit_at starts i ≡ 1 → from ≤ base + i },
    ghost begins_none: { (i : ℕ) → i < 64 → base + i < length text.now → from ≤ base + i
        → bit_at starts i ≡ 0 → begins_word text.now (base + i) ≡ false },
}

/// A word. If `is_plain` is true, it is known to have only printable bytes, and no `$`.
#[derive(Clone, Copy)]
pub struct FoundWord {
    pub word: Word,
    pub is_plain: bool,
}

impl<'a> WordScanner<'a> {
    /// The block that begins at `base`, with all words that begin in it.
    fn at(text: &'a [u8], base: usize) -> WordScanner<'a>
        requires { base ≤ length text.now }
        ensures text_is { result.text.now ≡ text.now }
        ensures base_is { result.base ≡ base }
        ensures from_is { result.from ≡ base }
    {
        let masks = masks_of(&text[base..]);
        WordScanner {
            text,
            from: base,
            base,
            white: masks.white,
            stops: masks.stops,
            starts: starts_of(masks.white, may_begin(text, base)),
        }
    }

    /// The words of a text that begin at `from` or after it.
    pub fn new(text: &'a [u8], from: usize) -> WordScanner<'a>
        requires { from ≤ length text.now }
        ensures text_is { result.text.now ≡ text.now }
        ensures from_is { result.from ≡ from }
    {
        let bit = from % 64;
        let block = WordScanner::at(text, from - bit);
        WordScanner {
            text: block.text,
            from,
            base: block.base,
            white: block.white,
            stops: block.stops,
            starts: block.starts >> bit << bit,
        }
    }

    /// Continues with the next block.
    #[inline(always)]
    fn next_block(&mut self)
        requires { self.old.base + 64 ≤ length self.old.text.now }
        ensures text_is { self.new.text.now ≡ self.old.text.now }
        ensures base_is { self.new.base ≡ self.old.base + 64 }
        ensures from_is { self.new.from ≡ self.old.base + 64 }
    {
        *self = WordScanner::at(self.text, self.base + 64);
    }

    /// The word that begins at `start`, and the scanner from its end on. `start` is in the current
    /// block, and is the beginning that was taken last.
    fn word_from(self, start: usize) -> (WordScanner<'a>, FoundWord)
        requires is_taken { IsTaken self.text.now self.base self.from start }
        requires text_fits_limit { length self.text.now ≤ TEXT_LIMIT }
        ensures text_is { result.0.text.now ≡ self.entry.text.now }
        ensures onward { IsPassed self.entry.text.now start result.0.from }
        ensures is_word_from { IsWordFrom self.entry.text.now start result.1.word
            result.1.is_plain }
    {
        let len = self.text.len();
        let mut scanner = self;
        let mut stop = first_one(scanner.white, start - scanner.base);
        let mut is_plain = first_one(scanner.stops, start - scanner.base) == stop;
        while stop == 64 && 64 < len - scanner.base {
            scanner = WordScanner::at(self.text, scanner.base + 64);
            stop = first_one(scanner.white, 0);
            is_plain = is_plain && first_one(scanner.stops, 0) == stop;
        }
        let end = (scanner.base + stop).min(len);
        let word = Word {
            start: start as u32,
            end: end as u32,
        };
        (scanner, FoundWord { word, is_plain })
    }

    /// Takes the first further place before `to` at which a word begins.
    #[inline(always)]
    fn next_start(&mut self, to: usize) -> Option<usize>
        requires to_le_length { to ≤ length self.old.text.now }
        requires text_fits_limit { length self.old.text.now ≤ TEXT_LIMIT }
        ensures text_is { self.new.text.now ≡ self.old.text.now }
        ensures is_first { MatchOption result
            (words_between self.old.text.now self.old.from to ≡ [])
            (IsFirstWordStart self.old.text.now self.old.from to) }
        ensures none_left { IfNone result (words_between self.old.text.now self.new.from to ≡ []) }
        ensures is_taken { IfSome result (IsTaken self.new.text.now self.new.base self.new.from) }
    {
        while self.starts == 0 {
            if to <= self.base + 64 {
                return None;
            }
            self.next_block();
        }
        let bit = self.starts.trailing_zeros() as usize;
        let start = self.base + bit;
        if to <= start {
            return None;
        }
        self.starts &= !(1 << bit);
        self.from = start + 1;
        Some(start)
    }

    /// Takes the first further word that begins before `to`.
    #[inline(always)]
    pub fn next_word(&mut self, to: usize) -> Option<FoundWord>
        requires to_le_length { to ≤ length self.old.text.now }
        requires text_fits_limit { length self.old.text.now ≤ TEXT_LIMIT }
        ensures text_is { self.new.text.now ≡ self.old.text.now }
        ensures is_next_word { MatchOption result
            (words_between self.old.text.now self.old.from to ≡ [])
            (λ found. words_between self.old.text.now self.old.from to
            ≡ found.word ∷ words_between self.old.text.now self.new.from to) }
        ensures none_left { IfNone result (words_between self.old.text.now self.new.from to ≡ []) }
        ensures found_is_word { IfSome result (λ found. IsWord self.old.text.now found.word) }
        ensures plain_if_known { IfSome result
            (λ found. found.is_plain ≡ true → IsPlainWord (bytes_of self.old.text.now found.word)) }
        ensures onward { IfSome result (λ found. self.old.from < self.new.from) }
    {
        let start = self.next_start(to)?;
        let stop = first_one(self.stops, start - self.base);
        if stop < 64 && (self.white >> stop) & 1 == 1 {
            let word = Word {
                start: start as u32,
                end: (self.base + stop) as u32,
            };
            return Some(FoundWord {
                word,
                is_plain: true,
            });
        }
        let (scanner, found) = self.word_from(start);
        *self = scanner;
        Some(found)
    }

    /// Leaves out further words that are plain, all at once, as most words of a comment are. They
    /// are those that begin and end in the current block before its next `$` or bad byte.
    #[inline(always)]
    pub fn skip_plain(&mut self)
        ensures text_is { self.new.text.now ≡ self.old.text.now }
        ensures onward { self.old.from ≤ self.new.from }
        ensures are_plain { ArePlain self.old.text.now self.old.from self.new.from }
    {
        if self.starts != 0 {
            let bit = self.starts.trailing_zeros() as usize;
            let special = first_one(self.stops & !self.white, bit);
            let end = last_one(self.white, special.min(63));
            if bit < end {
                self.from = self.base + end;
                self.starts = self.starts >> end << end;
            }
        }
    }
}

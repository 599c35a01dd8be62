//! Stretches of a text, each read in both comment modes, and how adjacent stretches are joined.

ghost use Rattle.std.specs.Prelude.{◌≡◌, ◌<◌, ◌≤◌, ◌+◌, ℕ, List, ◌++◌, length, IfOk, not, is_some};
ghost use Rattle.std.specs.Prelude.{if◌then◌else◌};
ghost use Rattle.std.specs.Option.{option_map};
ghost use Rattle.mm_lex.specs.Pieces.{fault_in_mode, head_of, resolved, stretch, tail_of};
ghost use Rattle.mm_lex.specs.Pieces.{tokens_in_mode, AreReadings, IsSummary, IsWholeText, Stretch};
ghost use Rattle.mm_lex.specs.Between.{between_of, IsJoined, side};
ghost use Rattle.mm_lex.specs.Stretches.{joined_word};
ghost use Rattle.mm_spec.specs.Lexed.{fault_in, lexical_fault, tokens_of};
ghost use Rattle.mm_spec.specs.Words.{words_between};

use crate::ends::head_and_tail;
use crate::modes::{CommentState, ModeReading, NOT_KNOWN_PLAIN};
use crate::scanner::WordScanner;
use crate::{Code, Fault, Lexed, TEXT_LIMIT, Word};
use std::alloc::{AllocError, Allocator};
use std::marker::Model;

/// What is between the head and the tail of a stretch, read outside a comment and inside one.
#[derive(Drop)]
pub struct Between<A: Allocator> {
    /// The place at which the head ends, a byte offset from 0.
    pub head_end: u32,
    /// The place at which the tail begins, a byte offset from 0.
    pub tail_start: u32,
    pub outside: ModeReading<A>,
    pub inside: ModeReading<A>,
}

/// The summary of a stretch of a text: what is known from the stretch alone. Its head goes up to
/// its first white-space byte, and its tail begins after its last one. Each may be a part of a word
/// or a whole word; the stretch alone doesn't show which. The words between them were read twice,
/// once as words of the text and once as words of a comment. A stretch without white space that
/// touches neither end of the text is unbroken: a part of a word, or empty.
#[derive(Drop)]
pub struct Piece<A: Allocator> {
    from: u32,
    to: u32,
    between: Option<Between<A>>,
}

impl<A: Allocator> Model for Piece<A> {
    ghost Value = { Stretch };

    ghost view = { λ p. stretch p.from p.to (option_map between_of p.between) };
}

impl<A: Allocator> Piece<A> {
    /// The place at which the stretch begins.
    pub fn from(&self) -> u32
        ensures { result ≡ self.now.from }
    {
        self.from
    }

    /// The place after its last byte.
    pub fn to(&self) -> u32
        ensures { result ≡ self.now.to }
    {
        self.to
    }

    /// Whether it is a part of a word, or empty, and touches neither end of the text.
    pub fn unbroken(&self) -> bool
        ensures { result ≡ not (is_some self.now.between) }
    {
        self.between.is_none()
    }

    /// Its bytes before the first white space, which may end a word of the stretch before it.
    /// Empty, at `from`, if there are none, or if the stretch is unbroken or begins the text.
    pub fn head(&self) -> Word
        ensures { result ≡ head_of self.now }
    {
        Word {
            start: self.from,
            end: self
                .between
                .as_ref()
                .map_or(self.from, |between| between.head_end),
        }
    }

    /// Its bytes after the last white space, which may begin a word of the stretch after it. Empty,
    /// at `to`, if there are none, or if the stretch is unbroken or ends the text.
    pub fn tail(&self) -> Word
        ensures { result ≡ tail_of self.now }
    {
        Word {
            start: self
                .between
                .as_ref()
                .map_or(self.to, |between| between.tail_start),
            end: self.to,
        }
    }

    /// The tokens between head and tail up to the first faulty word: if `inside`, those that are
    /// there if a comment is open after the head, otherwise those that are there if none is.
    pub fn tokens(&self, inside: bool) -> &[Word]
        ensures { result.now ≡ tokens_in_mode inside self.now }
    {
        match &self.between {
            None => &[],
            Some(between) => between.reading(inside).tokens.as_slice(),
        }
    }

    /// The fault of the first faulty word between head and tail, in the same mode. That a comment
    /// stays open isn't a fault here.
    pub fn fault(&self, inside: bool) -> Option<Fault>
        ensures { result ≡ fault_in_mode inside self.now }
    {
        self.between
            .as_ref()
            .and_then(|between| between.reading(inside).fault)
    }

    /// The tokens and the lexical fault of the whole text that this is the summary of, by its
    /// reading outside a comment.
    pub(crate) fn into_lexed(self) -> Lexed<A>
        requires { (text : List ℕ) × IsWholeText text self }
        ensures tokens_are { (text : List ℕ) → IsWholeText text self
            → result.tokens.items ≡ tokens_of text }
        ensures fault_is { (text : List ℕ) → IsWholeText text self
            → result.fault ≡ lexical_fault text }
    {
        let reading = match self.between {
            Some(between) => between.outside,
            None => unreachable!("a stretch that begins the text isn't unbroken"),
        };
        Lexed {
            tokens: reading.tokens,
            fault: fault_of(reading.fault, reading.open_comment),
        }
    }
}

impl<A: Allocator> Between<A> {
    fn reading(&self, inside: bool) -> &ModeReading<A>
        ensures { result.now ≡ (if inside then self.now.inside else self.now.outside) }
    {
        if inside { &self.inside } else { &self.outside }
    }
}

/// The words that begin between two places, read in both modes. `capacity` is the number of tokens
/// for which memory is reserved at first.
fn lex_between<A: Allocator + Copy>(
    alloc: A,
    text: &[u8],
    head_end: usize,
    tail_start: usize,
    capacity: usize,
) -> Result<Between<A>, AllocError>
    requires head_le_tail { head_end ≤ tail_start }
    requires tail_le_length { tail_start ≤ length text.now }
    requires text_fits_limit { length text.now ≤ TEXT_LIMIT }
    ensures head_end_is { IfOk result (λ between. between.head_end ≡ head_end) }
    ensures tail_start_is { IfOk result (λ between. between.tail_start ≡ tail_start) }
    ensures are_readings { IfOk result
        (λ between. AreReadings text.now (words_between text.now head_end tail_start)
        (side between.outside) (side between.inside)) }
{
    let mut outside = ModeReading::with_expected_capacity(alloc, CommentState::Nowhere, capacity);
    let mut inside = ModeReading::new(alloc, CommentState::Before);
    let mut scanner = WordScanner::new(text, head_end);
    while inside.fault.is_none()
        && let Some(found) = scanner.next_word(tail_start)
    {
        // A plain word that changes neither reading is left out, as are those that follow it.
        if found.is_plain && outside.ignores_plain() && inside.ignores_plain() {
            scanner.skip_plain();
        } else {
            outside.read_word(text, found.word, found.is_plain)?;
            inside.read_word(text, found.word, found.is_plain)?;
        }
    }
    // A reading stays as it is after its fault, so only the reading outside is continued.
    outside.read_rest(text, scanner, tail_start)?;
    Ok(Between {
        head_end: head_end as u32,
        tail_start: tail_start as u32,
        outside,
        inside,
    })
}

/// The summary of the stretch of a text from `from` up to `to`, as [`lex_piece`] makes it.
/// `capacity` is the number of tokens for which memory is reserved at first.
pub(crate) fn lex_piece_with_capacity<A: Allocator + Copy>(
    alloc: A,
    text: &[u8],
    from: usize,
    to: usize,
    capacity: usize,
) -> Result<Piece<A>, AllocError>
    requires from_le_to { from ≤ to }
    requires to_le_length { to ≤ length text.now }
    requires text_fits_limit { length text.now ≤ TEXT_LIMIT }
    ensures from_is { IfOk result (λ piece. piece.from ≡ from) }
    ensures to_is { IfOk result (λ piece. piece.to ≡ to) }
    ensures is_summary { IfOk result (IsSummary text.now) }
{
    let between = match head_and_tail(text, from, to) {
        None => None,
        Some((head_end, tail_start)) => {
            Some(lex_between(alloc, text, head_end, tail_start, capacity)?)
        },
    };
    Ok(Piece {
        from: from as u32,
        to: to as u32,
        between,
    })
}

/// The summary of the stretch of a text from `from` up to `to`, read in both comment modes, since
/// either may hold after its head. Fails only if out of memory.
pub fn lex_piece<A: Allocator + Copy>(
    alloc: A,
    text: &[u8],
    from: usize,
    to: usize,
) -> Result<Piece<A>, AllocError>
    requires from_le_to { from ≤ to }
    requires to_le_length { to ≤ length text.now }
    requires text_fits_limit { length text.now ≤ TEXT_LIMIT }
    ensures from_is { IfOk result (λ piece. piece.from ≡ from) }
    ensures to_is { IfOk result (λ piece. piece.to ≡ to) }
    ensures is_summary { IfOk result (IsSummary text.now) }
{
    // There is at least a byte between two words.
    lex_piece_with_capacity(alloc, text, from, to, (to - from) / 2 + 1)
}

/// What is between the head of one stretch and the tail of the next.
fn join_between<A: Allocator + Copy>(
    text: &[u8],
    before: Between<A>,
    after: Between<A>,
) -> Result<Between<A>, AllocError>
    requires head_end_le_length { after.head_end ≤ length text.now }
    requires text_fits_limit { length text.now ≤ TEXT_LIMIT }
    ensures head_end_is { IfOk result (λ between. between.head_end ≡ before.head_end) }
    ensures tail_start_is { IfOk result (λ between. between.tail_start ≡ after.tail_start) }
    ensures are_joined { IfOk result
        (λ between. IsJoined text.now (between_of before) (between_of after) (between_of between)) }
{
    let mut outside = before.outside;
    let mut inside = before.inside;
    if before.tail_start < after.head_end {
        let word = Word {
            start: before.tail_start,
            end: after.head_end,
        };
        outside.read_word(text, word, NOT_KNOWN_PLAIN)?;
        inside.read_word(text, word, NOT_KNOWN_PLAIN)?;
    }
    outside.append_reading(&after.outside, &after.inside)?;
    inside.append_reading(&after.outside, &after.inside)?;
    Ok(Between {
        head_end: before.head_end,
        tail_start: after.tail_start,
        outside,
        inside,
    })
}

/// The summary of two adjacent stretches of one text together. The tokens of the second are
/// appended to those of the first. Fails only if out of memory; then both are dropped.
pub fn join<A: Allocator + Copy>(
    _alloc: A,
    text: &[u8],
    first: Piece<A>,
    second: Piece<A>,
) -> Result<Piece<A>, AllocError>
    requires text_fits_limit { length text.now ≤ TEXT_LIMIT }
    requires first_has_summary { IsSummary text.now first }
    requires second_has_summary { IsSummary text.now second }
    requires neighbours { first.to ≡ second.from }
    ensures from_is { IfOk result (λ piece. piece.from ≡ first.from) }
    ensures to_is { IfOk result (λ piece. piece.to ≡ second.to) }
    ensures is_summary { IfOk result (IsSummary text.now) }
{
    let from = first.from;
    let to = second.to;
    let between = match first.between {
        None => second.between,
        Some(before) => match second.between {
            None => Some(before),
            Some(after) => Some(join_between(text, before, after)?),
        },
    };
    Ok(Piece { from, to, between })
}

/// The fault of a faulty word if there is one, otherwise that of a comment open at the end.
fn fault_of(fault: Option<Fault>, open_comment: CommentState) -> Option<Fault>
    ensures { result ≡ fault_in fault (resolved 0 open_comment) }
{
    let unclosed = |at| Fault {
        at,
        code: Code::OpenComment,
    };
    match (fault, open_comment) {
        (Some(fault), _) => Some(fault),
        (None, CommentState::At(at)) => Some(unclosed(at)),
        (None, CommentState::Before) => Some(unclosed(0)),
        (None, CommentState::Nowhere) => None,
    }
}

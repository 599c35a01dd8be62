//! Lists of words, each read in one comment mode.

ghost use Rattle.std.specs.Prelude.{◌≡◌, ◌<◌, ◌≤◌, ◌+◌, ℕ, List, [], ◌∷◌, ◌++◌, length, OnOk};
ghost use Rattle.std.specs.Prelude.{is_some, true, ◌||◌};
ghost use Rattle.mm_spec.specs.Readings.{bytes_of};
ghost use Rattle.mm_spec.specs.Words.{words_between};
ghost use Rattle.mm_spec.specs.Laws.Readings.{append_reading, start};
ghost use Rattle.mm_lex.specs.Pieces.{resolved, side_reading, AreReadings};
ghost use Rattle.mm_lex.specs.Between.{carried, side};
ghost use Rattle.mm_lex.specs.Plain.{IsPlainWord};

use crate::roles::{role, word_fault};
use crate::scanner::WordScanner;
use crate::{Fault, TEXT_LIMIT, Word};
use mm_spec::Role;
use std::alloc::{AllocError, Allocator};

/// For [`ModeReading::read_word`]: the word isn't known to be plain, so its bytes are tested.
pub const NOT_KNOWN_PLAIN: bool = false;

/// The comment that is open after a list of words: none, or one that began before them or in them.
#[derive(Clone, Copy)]
pub enum CommentState {
    /// None is open.
    Nowhere,
    /// It began before the words.
    Before,
    /// It began at this place among them.
    At(u32),
}

impl CommentState {
    fn is_open(self) -> bool
        ensures { (p : ℕ) → result ≡ is_some (resolved p self) }
    {
        !matches!(self, CommentState::Nowhere)
    }

    /// The comment that is open after these words, if `before` is open after the ones before them.
    fn after(self, before: CommentState) -> CommentState
        ensures { result ≡ carried before self }
    {
        match self {
            CommentState::Before => before,
            comment => comment,
        }
    }
}

/// A list of words that was read in one comment mode.
#[derive(Drop)]
pub struct ModeReading<A: Allocator> {
    pub tokens: Vec<Word, A>,
    pub fault: Option<Fault>,
    pub open_comment: CommentState,
}

impl<A: Allocator + Copy> ModeReading<A> {
    pub fn new(alloc: A, open_comment: CommentState) -> ModeReading<A>
        ensures { (p : ℕ) → side_reading p (side result) ≡ start (resolved p open_comment) }
    {
        ModeReading {
            tokens: Vec::new(alloc),
            fault: None,
            open_comment,
        }
    }

    /// A reading of no words yet. Its list has capacity for `capacity` tokens if there is that much
    /// memory, so that it needn't be moved as it grows.
    pub fn with_expected_capacity(
        alloc: A,
        open_comment: CommentState,
        capacity: usize,
    ) -> ModeReading<A>
        ensures { (p : ℕ) → side_reading p (side result) ≡ start (resolved p open_comment) }
    {
        let mut reading = ModeReading::new(alloc, open_comment);
        match reading.tokens.reserve(capacity) {
            Ok(()) => {}
            Err(_) => {}
        }
        reading
    }

    /// Whether further plain words change nothing: inside a comment, and after a fault.
    #[inline(always)]
    pub fn ignores_plain(&self) -> bool
        ensures { (p : ℕ)
            → result ≡ (is_some self.now.fault || is_some (resolved p self.now.open_comment)) }
    {
        self.fault.is_some() || self.open_comment.is_open()
    }

    /// Reads one further word. If `is_plain` is true, the word is known to be plain.
    #[inline(always)]
    pub fn read_word(&mut self, text: &[u8], word: Word, is_plain: bool) -> Result<(), AllocError>
        requires start_le_end { word.start ≤ word.end }
        requires end_le_length { word.end ≤ length text.now }
        requires text_fits_limit { length text.now ≤ TEXT_LIMIT }
        requires plain_if_known { is_plain ≡ true → IsPlainWord (bytes_of text.now word) }
        ensures { OnOk result
            ((p : ℕ)
            → side_reading p (side self.new)
            ≡ append_reading text.now (side_reading p (side self.old)) (word ∷ [])) }
    {
        if self.fault.is_some() {
            return Ok(());
        }
        let in_comment = self.open_comment.is_open();
        let bytes = word.bytes(text);
        match role(in_comment, is_plain, bytes) {
            Role::Token => self.tokens.push(word)?,
            Role::Opening => self.open_comment = CommentState::At(word.start),
            Role::Closing => self.open_comment = CommentState::Nowhere,
            Role::Comment => {}
            Role::Faulty => self.fault = Some(word_fault(in_comment, word.start, bytes)),
        }
        Ok(())
    }

    /// Reads the words that begin from the scanner's place on and before `to`. A plain word is a
    /// token outside a comment; inside it changes nothing, and those that follow it are left out.
    pub fn read_rest(
        &mut self,
        text: &[u8],
        mut scanner: WordScanner<'_>,
        to: usize,
    ) -> Result<(), AllocError>
        requires texts_equal { scanner.text.now ≡ text.now }
        requires to_le_length { to ≤ length text.now }
        requires text_fits_limit { length text.now ≤ TEXT_LIMIT }
        ensures { OnOk result
            ((p : ℕ)
            → side_reading p (side self.new)
            ≡ append_reading text.now (side_reading p (side self.old))
            (words_between text.now scanner.entry.from to)) }
    {
        if self.fault.is_some() {
            return Ok(());
        }
        while let Some(found) = scanner.next_word(to) {
            if !found.is_plain {
                self.read_word(text, found.word, NOT_KNOWN_PLAIN)?;
                if self.fault.is_some() {
                    return Ok(());
                }
            } else if self.open_comment.is_open() {
                scanner.skip_plain();
            } else {
                self.tokens.push(found.word)?;
            }
        }
        Ok(())
    }

    /// Reads further words, given their readings in both modes.
    pub fn append_reading(
        &mut self,
        outside: &ModeReading<A>,
        inside: &ModeReading<A>,
    ) -> Result<(), AllocError>
        ensures { OnOk result
            ((text : List ℕ) (ws : List Word)
            → AreReadings text ws (side outside.now) (side inside.now) →
            (p : ℕ)
            → side_reading p (side self.new)
            ≡ append_reading text (side_reading p (side self.old)) ws) }
    {
        if self.fault.is_some() {
            return Ok(());
        }
        let next = if self.open_comment.is_open() {
            inside
        } else {
            outside
        };
        self.tokens.extend_from_slice(&next.tokens)?;
        self.fault = next.fault;
        self.open_comment = next.open_comment.after(self.open_comment);
        Ok(())
    }
}

//! The letters of a compressed proof.

ghost use Rattle.std.specs.Prelude.{All, IfSome, ◌≡◌, ◌<◌, ◌≤◌, ◌+◌, ◌*◌, ◌∷◌, ◌++◌, [], ℕ, None};
ghost use Rattle.std.specs.Prelude.{length, IfOk, IfErr, IfNone, OnOk};
ghost use Rattle.mm_spec.specs.Steps.{placed};
ghost use Rattle.mm_spec.specs.CompressedProof.{letters_of, letter_faults, mark_letter, step_of};
ghost use Rattle.mm_outline.specs.Parts.{as_tokens, AreWithin};
ghost use Rattle.mm_steps.specs.TheoremSteps.{theorem_steps, as_step, IsEarlier};
ghost use Rattle.mm_proof.specs.Number.{HasLetterKind, saturated};
ghost use Rattle.mm_proof.specs.declared.numerals.LetterKind.TheVariants.{Last};
ghost use Rattle.mm_proof.specs.Letters.{letters_state, letter, with_number, step_as_list};
ghost use Rattle.mm_proof.specs.Letters.{if_begun, AreInOrder, StandsAt, IsReadUpTo, BeginsAt};
ghost use Rattle.mm_proof.specs.Letters.{word_letters, ReadsLetters, ReadsAllLetters};
ghost use Rattle.mm_proof.specs.Letters.{RefusesLetters};
ghost use Rattle.mm_proof.specs.Refused.{StartsWith};

use crate::numerals::{LetterKind, letter_of, with_digit};
use crate::refused::{ProofRefused, refused};
use mm_database::capacity::with_expected_capacity;
use mm_database::{Code, Word};
use mm_steps::{Step, Steps};
use std::alloc::{AllocError, Allocator};
use std::marker::Model;

/// The number of marks for which capacity is reserved at first. Most proofs have fewer.
const MARK_CAPACITY: usize = 64;

/// The number to which the next letter belongs, if that is a letter of a number.
#[derive(Clone, Copy)]
pub(crate) struct BegunNumber {
    /// The place of its first letter.
    at: u32,
    /// The value of its letters so far, or the greatest 64-bit number if that is smaller: 0 as long
    /// as it has none.
    value: u64,
}

/// Returns a number with one more digit.
fn with_next_digit(number: BegunNumber, base: u64, digit: u64) -> BegunNumber
    requires base_le_20 { base ≤ 20 }
    requires digit_le_20 { digit ≤ 20 }
    ensures place_stays { result.at ≡ number.at }
    ensures value_is_saturated { result.value ≡ saturated (base * number.value + digit) }
{
    BegunNumber {
        at: number.at,
        value: with_digit(number.value, base, digit),
    }
}

/// Lets a number that has no letters yet begin at place `at`.
fn begin_at(number: &mut BegunNumber, at: u32)
    ensures begins_at_place { BeginsAt number.new at }
    ensures begun_stays { if_begun number.new ≡ if_begun number.old }
{
    if number.value == 0 {
        number.at = at;
    }
}

/// What the letters so far stand for, except for a number whose last letter hasn't been read yet.
/// That number is passed as an argument of its own, so that it stays in registers.
#[derive(Drop)]
pub(crate) struct LettersRead<A: Allocator> {
    /// The statements whose labels have numbers: the theorem's mandatory hypotheses, and those in
    /// brackets.
    labels: Vec<u32, A>,
    /// The steps that were marked, one for each `Z`.
    marks: Vec<u32, A>,
    /// The steps that the numbers so far stand for.
    steps: Steps<A>,
}

impl<A: Allocator> Model for LettersRead<A> {
    ghost use Rattle.std.specs.Prelude.{None};
    ghost use Rattle.mm_proof.specs.Letters.{LettersState, letters_state};

    ghost Value = { LettersState };

    ghost view = { λ p. letters_state p.steps.theorem p.labels.items p.marks.items None
        p.steps.steps };
}

impl<A: Allocator> LettersRead<A> {
    /// Returns the state in which no letters are read yet, of at most `max_letters`. `labels` has
    /// the statements whose labels have numbers.
    pub(crate) fn none(alloc: A, theorem: u32, labels: Vec<u32, A>, max_letters: usize) -> Self
    where
        A: Copy,
        ensures { result ≡ letters_state theorem labels.items [] None [] }
    {
        LettersRead {
            labels,
            marks: with_expected_capacity(alloc, MARK_CAPACITY),
            steps: Steps::none(alloc, theorem, max_letters),
        }
    }

    /// The steps.
    pub(crate) fn into_steps(self) -> Steps<A>
        ensures { result ≡ theorem_steps self.theorem self.steps }
    {
        self.steps
    }

    /// Returns the step that a number names, if it names one. `value` is the number's value, or the
    /// greatest 64-bit number if that is smaller.
    fn step_named(&self, value: u64) -> Option<Step>
        requires { 0 < value }
        ensures step_is_of_number { (n : ℕ) → value ≡ saturated n
            → step_of self.now.labels self.now.marks n ≡ step_as_list result }
        ensures no_step_has_number { IfNone result
            ((n : ℕ) → value ≡ saturated n → length self.now.labels + length self.now.marks < n) }
        ensures step_is_earlier { IfSome result
            (λ s. (n : ℕ) → All (λ j. j < n) self.now.marks → IsEarlier (as_step s) n) }
    {
        let labels = self.labels.as_slice();
        let marks = self.marks.as_slice();
        let index = value - 1;
        if index < labels.len() as u64 {
            return Some(Step::Label(labels[index as usize]));
        }
        let mark = index - labels.len() as u64;
        if mark < marks.len() as u64 {
            Some(Step::Marked(marks[mark as usize]))
        } else {
            None
        }
    }

    /// Appends the step of a number that ends. The step is a label or an earlier step.
    fn add_step(&mut self, at: u32, step: Step) -> Result<(), AllocError>
        requires step_is_earlier { IsEarlier (as_step step) (length self.old.steps) }
        ensures { OnOk result
            (self.new
            ≡ letters_state self.old.theorem self.old.labels self.old.marks None
            (self.old.steps ++ placed at (as_step step) ∷ [])) }
    {
        self.steps.push(at, step)?;
        Ok(())
    }

    /// Reads the last letter of a number, which is at place `_at`.
    fn end_number(&mut self, number: BegunNumber, _at: u32, digit: u64) -> Result<(), ProofRefused>
        requires digit_gt_0 { 0 < digit }
        requires digit_le_20 { digit ≤ 20 }
        requires is_read_up_to { IsReadUpTo self.old number _at }
        ensures stands_after { OnOk result (StandsAt self.new (_at + 1)) }
        ensures reads { OnOk result ((byte : ℕ) → HasLetterKind byte (Last digit)
            → ReadsLetters (with_number self.old (if_begun number)) (letter _at byte ∷ [])
            (with_number self.new None)) }
        ensures refuses { IfErr result (λ e. (byte : ℕ) → HasLetterKind byte (Last digit)
            → RefusesLetters (with_number self.old (if_begun number)) (letter _at byte ∷ []) e) }
    {
        let begun = with_next_digit(number, 20, digit);
        let Some(step) = self.step_named(begun.value) else {
            return Err(refused(begun.at, Code::NumberTooLarge));
        };
        self.add_step(begun.at, step)?;
        Ok(())
    }

    /// Reads a `Z` after a number that has ended.
    fn mark(&mut self, at: u32) -> Result<(), ProofRefused>
        requires stands_at { StandsAt self.old at }
        ensures stands_after { OnOk result (StandsAt self.new (at + 1)) }
        ensures reads { OnOk result
            (ReadsLetters (with_number self.old None) (letter at mark_letter ∷ [])
            (with_number self.new None)) }
        ensures refuses { IfErr result
            (λ e. RefusesLetters (with_number self.old None) (letter at mark_letter ∷ []) e) }
    {
        if self.steps.len() == 0 {
            return Err(refused(at, Code::MarkBeforeStep));
        }
        self.marks.push((self.steps.len() - 1) as u32)?;
        Ok(())
    }

    /// Reads a letter.
    fn read(&mut self, number: &mut BegunNumber, at: u32, byte: u8) -> Result<(), ProofRefused>
        requires place_lt_max { at < 4294967295 }
        requires is_read_up_to { IsReadUpTo self.old number.old at }
        ensures is_read_after { OnOk result (IsReadUpTo self.new number.new (at + 1)) }
        ensures reads { OnOk result
            (ReadsLetters (with_number self.old (if_begun number.old)) (letter at byte ∷ [])
            (with_number self.new (if_begun number.new))) }
        ensures refuses { IfErr result
            (λ e. RefusesLetters (with_number self.old (if_begun number.old))
            (letter at byte ∷ []) e) }
    {
        match letter_of(byte) {
            LetterKind::Early(digit) => {
                *number = with_next_digit(*number, 5, digit);
                Ok(())
            }
            LetterKind::Last(digit) => {
                self.end_number(*number, at, digit)?;
                *number = BegunNumber {
                    at: at + 1,
                    value: 0,
                };
                Ok(())
            }
            LetterKind::Mark => {
                if number.value > 0 {
                    return Err(refused(at, Code::OpenNumber));
                }
                self.mark(at)?;
                number.at = at + 1;
                Ok(())
            }
            LetterKind::UnknownStep => Err(refused(at, Code::IncompleteProof)),
            LetterKind::Other => Err(refused(at, Code::BadLetter)),
        }
    }

    /// Reads the letters of a word.
    fn read_word(
        &mut self,
        number: &mut BegunNumber,
        text: &[u8],
        word: Word,
    ) -> Result<(), ProofRefused>
        requires start_le_end { word.start ≤ word.end }
        requires end_le_length { word.end ≤ length text.now }
        requires stands_at { StandsAt self.old word.start }
        ensures stands_after { OnOk result (StandsAt self.new word.end) }
        ensures reads { OnOk result
            (ReadsLetters (with_number self.old (if_begun number.old)) (word_letters text.now word)
            (with_number self.new (if_begun number.new))) }
        ensures refuses { IfErr result
            (λ e. RefusesLetters (with_number self.old (if_begun number.old))
            (word_letters text.now word) e) }
    {
        begin_at(number, word.start);
        for place in word.start as usize..word.end as usize {
            self.read(number, place as u32, text[place])?;
        }
        Ok(())
    }

    /// Reads all letters, which end at place `end`.
    pub(crate) fn read_all(
        &mut self,
        text: &[u8],
        words: &[Word],
        end: u32,
    ) -> Result<(), ProofRefused>
        requires words_within { AreWithin text.now words.now }
        requires in_order { AreInOrder 0 (as_tokens text.now words.now) end }
        requires none_read { self.old ≡ letters_state self.old.theorem self.old.labels [] None [] }
        ensures reads { OnOk result
            (ReadsAllLetters self.old (letters_of (as_tokens text.now words.now)) end self.new) }
        ensures fault_is_first { IfErr result
            (λ e. StartsWith
            (letter_faults (length self.old.labels) end
            (letters_of (as_tokens text.now words.now))) e) }
    {
        if words.is_empty() {
            return Err(refused(end, Code::EmptyProof));
        }
        let mut begun = BegunNumber { at: 0, value: 0 };
        for word in words {
            self.read_word(&mut begun, text, *word)?;
        }
        if begun.value > 0 {
            return Err(refused(end, Code::OpenNumber));
        }
        Ok(())
    }
}

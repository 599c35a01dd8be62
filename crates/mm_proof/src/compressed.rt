//! The reader of compressed proofs.

ghost use Rattle.std.specs.Prelude.{◌≡◌, ◌<◌, [], length, IfOk, IfErr, IsTrue};
ghost use Rattle.mm_spec.specs.CompressedProof.{bracketed, compressed_faults, compressed_steps};
ghost use Rattle.mm_spec.specs.Output.{is_theorem_at};
ghost use Rattle.mm_outline.specs.Parts.{as_tokens, AreWithin};
ghost use Rattle.mm_steps.specs.TheoremSteps.{theorem_steps};
ghost use Rattle.mm_proof.specs.Letters.{AreInOrder, ReadsLabels};
ghost use Rattle.mm_proof.specs.Refused.{StartsWith};

use crate::labels::usable_label;
use crate::letters::LettersRead;
use crate::refused::{ProofRefused, refused};
use mm_database::capacity::with_expected_capacity;
use mm_database::{Code, Database, Word};
use mm_steps::Steps;
use std::alloc::Allocator;

/// Reads the labels in brackets, up to the `)`, and returns how many there are. Their statements
/// are appended to `labels`.
fn read_labels<A: Allocator>(
    database: &Database<A>,
    theorem: u32,
    words: &[Word],
    end: u32,
    labels: &mut Vec<u32, A>,
) -> Result<usize, ProofRefused>
    requires theorem_lt_length { theorem < length database.now.statements }
    requires words_within { AreWithin database.now.text words.now }
    ensures reads { IfOk result
        (λ n. ReadsLabels database.now.statements theorem database.now.text words.now n
        labels.old.items labels.new.items) }
    ensures fault_is_first { IfErr result
        (λ e. StartsWith
        (compressed_faults database.now.statements theorem end
        (bracketed (as_tokens database.now.text words.now))) e) }
{
    let text = database.text();
    for index in 0..words.len() {
        let word = words[index];
        let label = word.bytes(text);
        if label == b")".as_slice() {
            return Ok(index);
        }
        match usable_label(database, theorem, label) {
            None => return Err(refused(word.start, Code::UnusableLabel)),
            Some(statement) => labels.push(statement)?,
        }
    }
    Err(refused(end, Code::OpenBrackets))
}

/// The least number of labels for which capacity is reserved at first. Most proofs name fewer.
const MIN_LABEL_CAPACITY: usize = 64;

/// Returns an upper bound of the number of letters of the words: they end at place `end`, and a
/// place is a byte offset.
fn max_letters(words: &[Word], end: u32) -> usize {
    match words.first() {
        Some(first) => end.saturating_sub(first.start) as usize,
        None => 0,
    }
}

/// Reads the words of a compressed proof after its `(`. The proof ends at place `end`.
pub(crate) fn read_compressed<A: Allocator + Copy>(
    alloc: A,
    database: &Database<A>,
    theorem: u32,
    words: &[Word],
    end: u32,
) -> Result<Steps<A>, ProofRefused>
    requires is_theorem { IsTrue (is_theorem_at database.now.statements theorem) }
    requires words_within { AreWithin database.now.text words.now }
    requires in_order { AreInOrder 0 (as_tokens database.now.text words.now) end }
    ensures steps_are_read { IfOk result
        (λ s. s ≡ theorem_steps theorem
        (compressed_steps database.now.statements theorem
        (bracketed (as_tokens database.now.text words.now)))) }
    ensures has_no_fault { IfOk result
        (λ s. compressed_faults database.now.statements theorem end
        (bracketed (as_tokens database.now.text words.now))
        ≡ []) }
    ensures fault_is_first { IfErr result
        (λ e. StartsWith
        (compressed_faults database.now.statements theorem end
        (bracketed (as_tokens database.now.text words.now))) e) }
{
    let mut labels = with_expected_capacity(alloc, words.len().max(MIN_LABEL_CAPACITY));
    labels.extend_from_slice(database.frame(theorem).hyps.as_slice())?;
    let label_count = read_labels(database, theorem, words, end, &mut labels)?;
    let letter_words = &words[label_count + 1..];
    let mut letters = LettersRead::none(alloc, theorem, labels, max_letters(letter_words, end));
    letters.read_all(database.text(), letter_words, end)?;
    Ok(letters.into_steps())
}

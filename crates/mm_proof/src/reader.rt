//! The reader of proofs.

ghost use Rattle.std.specs.Prelude.{◌≡◌, ◌<◌, ◌≤◌, [], length, slice_range, flat_map, IfOk};
ghost use Rattle.std.specs.Prelude.{IfErr, IsTrue, true};
ghost use Rattle.std.specs.List.{AllPairs};
ghost use Rattle.mm_spec.specs.NormalProof.{usable, normal_steps};
ghost use Rattle.mm_spec.specs.Citation.{steps_at, reading_faults_at};
ghost use Rattle.mm_spec.specs.Output.{is_theorem_at};
ghost use Rattle.mm_outline.specs.Parts.{as_tokens, AreWithin};
ghost use Rattle.mm_steps.specs.TheoremSteps.{TheoremSteps, theorem_steps};
ghost use Rattle.mm_proof.specs.Refused.{IsProofRefusal, word_faults};

use crate::compressed::read_compressed;
use crate::labels::usable_label;
use crate::refused::{ProofRefused, refused};
use mm_database::{Code, Database, Word};
use mm_steps::{Step, Steps};
use std::alloc::Allocator;

/// Reads the words of a normal proof.
fn read_normal<A: Allocator + Copy>(
    alloc: A,
    database: &Database<A>,
    theorem: u32,
    words: &[Word],
) -> Result<Steps<A>, ProofRefused>
    requires theorem_lt_length { theorem < length database.now.statements }
    requires words_within { AreWithin database.now.text words.now }
    requires words_rise { AllPairs (λ t u. t.at < u.at) (as_tokens database.now.text words.now) }
    ensures steps_are_read { IfOk result
        (λ s. s
        ≡ theorem_steps theorem
        (normal_steps database.now.statements theorem (as_tokens database.now.text words.now))) }
    ensures has_no_fault { IfOk result
        (λ s. flat_map (word_faults database.now.statements theorem)
        (as_tokens database.now.text words.now)
        ≡ []) }
    ensures fault_is_first { IfErr result
        (λ e. IsProofRefusal
        (flat_map (word_faults database.now.statements theorem)
        (as_tokens database.now.text words.now)) e) }
{
    let mut steps = Steps::none(alloc, theorem, words.len());
    let text = database.text();
    for word in words {
        let label = word.bytes(text);
        if label == b"?".as_slice() {
            return Err(refused(word.start, Code::IncompleteProof));
        }
        match usable_label(database, theorem, label) {
            None => return Err(refused(word.start, Code::UnusableLabel)),
            Some(statement) => steps.push(word.start, Step::Label(statement))?,
        }
    }
    Ok(steps)
}

/// Reads the proof of `theorem`, the number of a `$p` statement. Fails with the first reading fault
/// (E31 to E33, E41 to E45), whose place is a byte offset from 0, or if it runs out of memory.
#[inline(never)]
pub fn read_proof<A: Allocator + Copy>(
    alloc: A,
    database: &Database<A>,
    theorem: u32,
) -> Result<Steps<A>, ProofRefused>
    requires { IsTrue (is_theorem_at database.now.statements theorem) }
    ensures steps_are_read { IfOk result
        (λ s. s ≡ theorem_steps theorem (steps_at database.now.statements theorem)) }
    ensures has_no_fault { IfOk result
        (λ s. reading_faults_at database.now.statements theorem ≡ []) }
    ensures fault_is_first { IfErr result
        (λ e. IsProofRefusal (reading_faults_at database.now.statements theorem) e) }
{
    // The proof needs the clauses of `len`.
    let _ = database.len();
    let words = database.proof_words(theorem);
    let end = database.end_at(theorem);
    let Some((first, rest)) = words.split_first() else {
        return Err(refused(end, Code::EmptyProof));
    };
    if first.bytes(database.text()) == b"(".as_slice() {
        return read_compressed(alloc, database, theorem, rest, end);
    }
    read_normal(alloc, database, theorem, words)
}

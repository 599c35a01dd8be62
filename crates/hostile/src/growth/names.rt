//! Runs on texts whose names all have the same guesses, so that most of them have to be found by
//! their hashes. What is written for such a text is what is written for one with other names.

use super::runs::assert_right_with_each_refusal;
use crate::calls::{ended, plan_of};
use crate::heap::Refusing;
use crate::texts::BEGINNING;
use mm_plan::Cutting;
use mm_run::RunEnd;
use mm_spec::Sections;
use std::alloc::{AllocError, Global};
use std::sync::Wait;
use std::thread::Threads;

/// How many names a text has. Four of them at most are guessed.
const NAMES: u32 = 300;

/// What names have at both ends.
#[derive(Clone, Copy)]
enum Ends {
    /// All names have the same eight bytes there, and so the same guesses.
    Same,
    /// The digits of their number.
    Digits,
}

/// The section `matrix` alone.
fn matrix_alone() -> Sections {
    Sections {
        matrix: true,
        ..Sections::none()
    }
}

/// Appends the name of a number. All names have 20 bytes.
fn push_name(text: &mut Vec<u8>, ends: Ends, number: u32) -> Result<(), AllocError> {
    let mut digits = [b'0'; 4];
    digits[1] = b'0' + (number / 100 % 10) as u8;
    digits[2] = b'0' + (number / 10 % 10) as u8;
    digits[3] = b'0' + (number % 10) as u8;
    match ends {
        Ends::Same => {
            text.extend_from_slice(b"the-same")?;
            text.extend_from_slice(&digits)?;
            text.extend_from_slice(b"-as-ends")
        }
        Ends::Digits => {
            text.extend_from_slice(&digits)?;
            text.extend_from_slice(b"in-the-midst")?;
            text.extend_from_slice(&digits)
        }
    }
}

/// Appends every `step`th name, each after a space.
fn push_names(text: &mut Vec<u8>, ends: Ends, step: u32) -> Result<(), AllocError> {
    for number in 0..NAMES {
        if number % step.max(1) == 0 {
            text.push(b' ')?;
            push_name(text, ends, number)?;
        }
    }
    Ok(())
}

/// A text with an axiom of each name, and a theorem that cites every third of them.
fn with_labels(alloc: Global, ends: Ends) -> Result<Vec<u8>, AllocError> {
    let mut text = BEGINNING.to_vec(alloc)?;
    for number in 0..NAMES {
        push_name(&mut text, ends, number)?;
        text.extend_from_slice(b" $a wff p $.\n")?;
    }
    text.extend_from_slice(b"t $p wff p $= wp")?;
    push_names(&mut text, ends, 3)?;
    text.extend_from_slice(b" $.\n")?;
    Ok(text)
}

/// A text with a constant of each name, an axiom that has all of them, and a theorem that has every
/// `step`th of them and cites the axiom. Its proof is valid if these are all.
fn with_symbols(alloc: Global, ends: Ends, step: u32) -> Result<Vec<u8>, AllocError> {
    let mut text = BEGINNING.to_vec(alloc)?;
    for number in 0..NAMES {
        text.extend_from_slice(b"$c ")?;
        push_name(&mut text, ends, number)?;
        text.extend_from_slice(b" $.\n")?;
    }
    text.extend_from_slice(b"a $a wff")?;
    push_names(&mut text, ends, 1)?;
    text.extend_from_slice(b" $.\nt $p wff")?;
    push_names(&mut text, ends, step)?;
    text.extend_from_slice(b" $= a $.\n")?;
    Ok(text)
}

/// How a run ends, and what it writes.
#[derive(Drop)]
struct Outcome {
    end: Option<RunEnd>,
    written: Vec<u8>,
}

/// What a run on a text comes to, which writes only marks: no names of axioms.
fn outcome_of<R: Threads + Wait + Sync>(rt: &R, alloc: Global, mut text: &[u8]) -> Outcome {
    let heap = Refusing::new(alloc);
    let plan = plan_of(Cutting::Count(1), 1, matrix_alone());
    let mut written = Vec::new(alloc);
    let end = ended(rt, &heap, &plan, &mut text, &mut written);
    Outcome { end, written }
}

#[test]
fn labels_with_the_same_guesses(rt: HostRuntime) -> Result<(), AllocError> {
    let alloc = rt.alloc();
    let text = with_labels(alloc, Ends::Same)?;
    let usual = outcome_of(&rt, alloc, &with_labels(alloc, Ends::Digits)?);
    assert!(&rt; usual.end == Some(RunEnd::Accepted));
    assert_right_with_each_refusal(&rt, alloc, matrix_alone(), &text, &usual.written, 1);
    Ok(())
}

#[test]
fn symbols_with_the_same_guesses(rt: HostRuntime) -> Result<(), AllocError> {
    let alloc = rt.alloc();
    let text = with_symbols(alloc, Ends::Same, 1)?;
    let usual = outcome_of(&rt, alloc, &with_symbols(alloc, Ends::Digits, 1)?);
    assert!(&rt; usual.end == Some(RunEnd::Accepted));
    assert_right_with_each_refusal(&rt, alloc, matrix_alone(), &text, &usual.written, 1);
    Ok(())
}

#[test]
fn symbols_with_the_same_guesses_are_told_apart(rt: HostRuntime) -> Result<(), AllocError> {
    let alloc = rt.alloc();
    let found = outcome_of(&rt, alloc, &with_symbols(alloc, Ends::Same, 2)?);
    let usual = outcome_of(&rt, alloc, &with_symbols(alloc, Ends::Digits, 2)?);
    assert!(&rt;
        usual.end != Some(RunEnd::Accepted)
            && found.end == usual.end
            && found.written.as_slice() == usual.written.as_slice()
    );
    Ok(())
}

//! Texts that several tests read, and the reports on them.

use std::alloc::{AllocError, Global};

/// The symbols and formulas of a conditional, its first axiom, and a theorem that rests on one of
/// the two axioms.
pub(crate) const FIRST_TEXT: &[u8] =
    b"$c wff |- ( -> ) $.\n$v p q $.\nwp $f wff p $.\nwq $f wff q $.\nwi $a wff ( p -> q ) $.\nax-1 $a |- ( p -> ( q -> p ) ) $.\nwi2 $p wff ( p -> ( q -> p ) ) $= wp wq wp wi wi $.\n";

/// The report on it.
pub(crate) const FIRST_REPORT: &[u8] =
    b"mmdepend 1\naxioms 2\ntheorems 1\nmatrix\nwi2:10\ncounts\nwi2:1\nusage\nwi:1:wi2\nax-1:0:\nend\n";

/// Symbols, the formulas of a conditional, and the first axiom.
pub(crate) const BASE: &[u8] =
    b"$c wff |- ( -> ) $.\n$v p q $.\nwp $f wff p $.\nwq $f wff q $.\nwi $a wff ( p -> q ) $.\nax-1 $a |- ( p -> ( q -> p ) ) $.\n";

/// The rule of detachment.
pub(crate) const DETACHMENT: &[u8] =
    b"${ min $e |- p $. maj $e |- ( p -> q ) $. ax-mp $a |- q $. $}\n";

/// A theorem with a hypothesis, up to its proof, which begins at column 41.
pub(crate) const A1I_UP_TO_PROOF: &[u8] = b"${ h $e |- p $. a1i $p |- ( q -> p ) $= ";

/// What follows the proof of that theorem.
pub(crate) const AFTER_PROOF: &[u8] = b" $. $}\n";

/// The proof of that theorem.
pub(crate) const A1I_PROOF: &[u8] = b"wp wq wp wi h wp wq ax-1 ax-mp";

/// The report on a text with that theorem.
pub(crate) const A1I_REPORT: &[u8] =
    b"mmdepend 1\naxioms 3\ntheorems 1\nmatrix\na1i:111\ncounts\na1i:3\nusage\nwi:1:a1i\nax-1:1:a1i\nax-mp:1:a1i\nend\n";

/// A theorem that cites the theorem before it, twice.
pub(crate) const THROUGH_THEOREM: &[u8] =
    b"${ g $e |- p $. a2 $p |- ( q -> ( q -> p ) ) $= wq wp wi wq wp wq g a1i a1i $. $}\n";

/// The report on a text with that theorem and the one before it.
pub(crate) const THROUGH_REPORT: &[u8] =
    b"mmdepend 1\naxioms 3\ntheorems 2\nmatrix\na1i:111\na2:111\ncounts\na1i:3\na2:3\nusage\nwi:2:a1i a2\nax-1:2:a1i a2\nax-mp:2:a1i a2\nend\n";

/// A theorem that cites nothing.
pub(crate) const NO_CITATIONS: &[u8] =
    b"$c wff |- $. $v p $. wp $f wff p $.\n${ h $e |- p $. same $p |- p $= h $. $}\n";

/// A theorem whose proof isn't valid, and takes longer to check than the next one's.
pub(crate) const LONG_FAULTY: &[u8] = b"long $p wff p $= wp wq wp wi wp wi wp wi wp wi $.\n";

/// Another theorem whose proof isn't valid.
pub(crate) const SHORT_FAULTY: &[u8] = b"short $p wff p $= wq $.\n";

/// The report on a text without axioms and theorems.
pub(crate) const NOTHING_REPORT: &[u8] =
    b"mmdepend 1\naxioms 0\ntheorems 0\nmatrix\ncounts\nusage\nend\n";

/// The parts, concatenated.
pub(crate) fn joined(alloc: Global, parts: &[&[u8]]) -> Result<Vec<u8>, AllocError> {
    let mut text = Vec::new(alloc);
    for part in parts {
        text.extend_from_slice(part)?;
    }
    Ok(text)
}

/// A theorem with a hypothesis, by the rule of detachment.
pub(crate) fn consequent(alloc: Global) -> Result<Vec<u8>, AllocError> {
    joined(
        alloc,
        &[BASE, DETACHMENT, A1I_UP_TO_PROOF, A1I_PROOF, AFTER_PROOF],
    )
}

/// The same, and a theorem by that theorem.
pub(crate) fn through_a_theorem(alloc: Global) -> Result<Vec<u8>, AllocError> {
    let mut text = consequent(alloc)?;
    text.extend_from_slice(THROUGH_THEOREM)?;
    Ok(text)
}

/// Adds the decimal digits of a number below a thousand.
pub(crate) fn add_number(text: &mut Vec<u8>, number: u32) -> Result<(), AllocError> {
    let digits = b"0123456789";
    if number >= 100 {
        text.push(digits[number as usize / 100 % 10])?;
    }
    if number >= 10 {
        text.push(digits[number as usize / 10 % 10])?;
    }
    text.push(digits[number as usize % 10])?;
    Ok(())
}

/// Seventy axioms, and two theorems that rest on some of them.
pub(crate) fn seventy_axioms_text(alloc: Global) -> Result<Vec<u8>, AllocError> {
    let mut text = joined(alloc, &[b"$c wff $.\n$v p $.\nwp $f wff p $.\n"])?;
    for k in 0..70 {
        text.push(b'a')?;
        add_number(&mut text, k)?;
        text.extend_from_slice(b" $a wff p $.\n")?;
    }
    text.extend_from_slice(b"t $p wff p $= wp a0 a63 a64 a69 $.\nu $p wff p $= wp t a1 $.\n")?;
    Ok(text)
}

/// A theorem, and 129 more, each of which cites the one before it.
pub(crate) fn chain_text(alloc: Global) -> Result<Vec<u8>, AllocError> {
    let mut text = joined(
        alloc,
        &[
            BASE,
            b"t0 $p wff ( p -> ( q -> p ) ) $= wp wq wp wi wi $.\n",
        ],
    )?;
    for k in 1..130 {
        text.push(b't')?;
        add_number(&mut text, k)?;
        text.extend_from_slice(b" $p wff ( p -> ( q -> p ) ) $= wp wq t")?;
        add_number(&mut text, k - 1)?;
        text.extend_from_slice(b" $.\n")?;
    }
    Ok(text)
}

/// How many theorems `many_theorems_text` has.
pub(crate) const THEOREM_COUNT: u32 = 3000;

/// The first theorem of that text whose proof lacks its last step, in tests of its first fault.
pub(crate) const FIRST_FAULTY: u32 = 2000;

/// Another such theorem.
pub(crate) const ANOTHER_FAULTY: u32 = 2900;

/// That all proofs of that text are valid.
pub(crate) const NONE_FAULTY: &[u32] = &[];

/// How many bytes `BASE` has.
const BASE_BYTES: u32 = 118;

/// How many bytes each of these theorems has.
const BYTES_OF_EACH: u32 = 54;

/// The place of the first fault of that text: the `$.` of the first theorem whose proof lacks its
/// last step, 48 bytes from its beginning.
pub(crate) const FIRST_FAULT_PLACE: u32 = BASE_BYTES + FIRST_FAULTY * BYTES_OF_EACH + 48;

/// Adds a label: a letter, and the four digits of a number below ten thousand.
pub(crate) fn add_label(text: &mut Vec<u8>, letter: u8, number: u32) -> Result<(), AllocError> {
    text.push(letter)?;
    for unit in [1000, 100, 10, 1] {
        text.push(b'0' + (number / unit % 10) as u8)?;
    }
    Ok(())
}

/// A text of `THEOREM_COUNT` theorems, all with the same formula. The proofs of those whose numbers
/// are in `faulty` lack their last step.
pub(crate) fn many_theorems_text(alloc: Global, faulty: &[u32]) -> Result<Vec<u8>, AllocError> {
    let mut text = BASE.to_vec(alloc)?;
    for k in 0..THEOREM_COUNT {
        add_label(&mut text, b't', k)?;
        text.extend_from_slice(b" $p wff ( p -> ( q -> p ) ) $= wp wq wp wi")?;
        if !faulty.contains(&k) {
            text.extend_from_slice(b" wi")?;
        }
        text.extend_from_slice(b" $.\n")?;
    }
    Ok(text)
}

//! Runs on texts of many theorems, with 1, with 2 and with 64 workers.

use super::writes;
use crate::texts::{
    ANOTHER_FAULTY, FIRST_FAULTY, NONE_FAULTY, THEOREM_COUNT, add_label, add_number, joined,
    many_theorems_text,
};
use std::alloc::{AllocError, Global};
use std::sync::Wait;
use std::thread::Threads;

/// Whether runs with 1, with 2 and with 64 workers all write these bytes, if there is memory for
/// them and for the text.
fn is_written_by_any_workers<R: Threads + Wait + Sync>(
    rt: &R,
    alloc: Global,
    text: Result<Vec<u8>, AllocError>,
    output: Result<Vec<u8>, AllocError>,
) -> Result<bool, AllocError> {
    let text = text?;
    let output = output?;
    Ok(
        writes(rt, alloc, &["mmdepend", "--workers", "1"], &text, &output)
            && writes(rt, alloc, &["mmdepend", "--workers", "2"], &text, &output)
            && writes(rt, alloc, &["mmdepend", "--workers", "64"], &text, &output),
    )
}

/// The report on the many theorems, all of which rest on the first of two axioms.
fn many_report(alloc: Global) -> Result<Vec<u8>, AllocError> {
    let mut report = joined(alloc, &[b"mmdepend 1\naxioms 2\ntheorems 3000\nmatrix\n"])?;
    add_lines(&mut report, b't', THEOREM_COUNT, b":10\n")?;
    report.extend_from_slice(b"counts\n")?;
    add_lines(&mut report, b't', THEOREM_COUNT, b":1\n")?;
    report.extend_from_slice(b"usage\nwi:3000:")?;
    add_lines(&mut report, b't', THEOREM_COUNT - 1, b" ")?;
    report.extend_from_slice(b"t2999\nax-1:0:\nend\n")?;
    Ok(report)
}

#[test]
fn many_theorems(rt: HostRuntime) {
    let alloc = rt.alloc();
    let text = many_theorems_text(alloc, NONE_FAULTY);
    let is_valid = is_written_by_any_workers(&rt, alloc, text, many_report(alloc));
    let faulty = many_theorems_text(alloc, &[FIRST_FAULTY, ANOTHER_FAULTY]);
    let refusal = b"refused 2007:49 E37\n".as_slice().to_vec(alloc);
    let is_faulty = is_written_by_any_workers(&rt, alloc, faulty, refusal);
    assert!(&rt; is_valid.unwrap_or(false) && is_faulty.unwrap_or(false));
}

/// How many axioms the wide text has: more than a word of a row has bits.
pub(crate) const AXIOMS: u32 = 70;

/// How many theorems each of its two waves has.
pub(crate) const WAVE_LENGTH: u32 = 700;

/// Adds the labels with this letter, each with this end.
fn add_lines(report: &mut Vec<u8>, letter: u8, count: u32, end: &[u8]) -> Result<(), AllocError> {
    for k in 0..count {
        add_label(report, letter, k)?;
        report.extend_from_slice(end)?;
    }
    Ok(())
}

/// The axiom that the k-th theorem with this letter cites: `t` is the first wave, `u` the second,
/// whose theorems also cite that of the first wave with their number.
fn axiom_of(letter: u8, k: u32) -> u32 {
    if letter == b't' {
        k % AXIOMS
    } else {
        (k % AXIOMS * 3 + 1) % AXIOMS
    }
}

/// Adds a wave of theorems to the wide text.
fn add_wave(text: &mut Vec<u8>, letter: u8) -> Result<(), AllocError> {
    for k in 0..WAVE_LENGTH {
        add_label(text, letter, k)?;
        text.extend_from_slice(b" $p wff p $= wp ")?;
        if letter == b'u' {
            add_label(text, b't', k)?;
            text.push(b' ')?;
        }
        text.push(b'a')?;
        add_number(text, axiom_of(letter, k))?;
        text.extend_from_slice(b" $.\n")?;
    }
    Ok(())
}

/// Seventy axioms, 700 theorems that cite one of them each, and 700 that cite one of these theorems
/// and another axiom.
pub(crate) fn wide_text(alloc: Global) -> Result<Vec<u8>, AllocError> {
    let mut text = joined(alloc, &[b"$c wff $.\n$v p $.\nwp $f wff p $.\n"])?;
    for axiom in 0..AXIOMS {
        text.push(b'a')?;
        add_number(&mut text, axiom)?;
        text.extend_from_slice(b" $a wff p $.\n")?;
    }
    add_wave(&mut text, b't')?;
    add_wave(&mut text, b'u')?;
    Ok(text)
}

/// Whether the theorem with this letter and number rests on the axiom.
pub(crate) fn rests_on(letter: u8, k: u32, axiom: u32) -> bool {
    axiom == axiom_of(b't', k) || letter == b'u' && axiom == axiom_of(b'u', k)
}

/// Adds the rows of the wave with this letter.
fn add_rows(report: &mut Vec<u8>, letter: u8) -> Result<(), AllocError> {
    for k in 0..WAVE_LENGTH {
        add_label(report, letter, k)?;
        report.push(b':')?;
        for axiom in 0..AXIOMS {
            report.push(if rests_on(letter, k, axiom) {
                b'1'
            } else {
                b'0'
            })?;
        }
        report.push(b'\n')?;
    }
    Ok(())
}

/// How many bytes a label and the space before it have.
const SPACED_LABEL_BYTES: usize = 6;

/// Adds the line of an axiom with its users.
fn add_usage(report: &mut Vec<u8>, alloc: Global, axiom: u32) -> Result<(), AllocError> {
    let mut users = Vec::new(alloc);
    for letter in [b't', b'u'] {
        for k in 0..WAVE_LENGTH {
            if rests_on(letter, k, axiom) {
                users.push(b' ')?;
                add_label(&mut users, letter, k)?;
            }
        }
    }
    report.push(b'a')?;
    add_number(report, axiom)?;
    report.push(b':')?;
    add_number(report, (users.len() / SPACED_LABEL_BYTES % 1000) as u32)?;
    report.push(b':')?;
    report.extend_from_slice(users.get(1..).unwrap_or(&[]))?;
    report.push(b'\n')?;
    Ok(())
}

/// The report on the wide text.
fn wide_report(alloc: Global) -> Result<Vec<u8>, AllocError> {
    let mut report = joined(alloc, &[b"mmdepend 1\naxioms 70\ntheorems 1400\nmatrix\n"])?;
    add_rows(&mut report, b't')?;
    add_rows(&mut report, b'u')?;
    report.extend_from_slice(b"counts\n")?;
    add_lines(&mut report, b't', WAVE_LENGTH, b":1\n")?;
    add_lines(&mut report, b'u', WAVE_LENGTH, b":2\n")?;
    report.extend_from_slice(b"usage\n")?;
    for axiom in 0..AXIOMS {
        add_usage(&mut report, alloc, axiom)?;
    }
    report.extend_from_slice(b"end\n")?;
    Ok(report)
}

// The rows of each wave differ, and those of the second are made from those of the first.
#[test]
fn rows_of_wide_waves(rt: HostRuntime) {
    let alloc = rt.alloc();
    let is_right = is_written_by_any_workers(&rt, alloc, wide_text(alloc), wide_report(alloc));
    assert!(&rt; is_right.unwrap_or(false));
}

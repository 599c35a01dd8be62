//! Runs with two workers and three pieces.

use super::{MOST_GROWTHS, was_refused};
use crate::calls::{ended, plan_of};
use crate::heap::Refusing;
use crate::readers_and_writers::GrowthWatching;
use crate::texts::{
    BEGINNING, CITED_TWICE, CITED_TWICE_REPORT, CITED_TWICE_STATEMENTS, COMPRESSED,
    COMPRESSED_REPORT, DISJOINT, DISJOINT_REPORT, DUMMIES, DUMMIES_STATEMENTS, FIRST_REPORT,
    FIRST_TEXT, NOT_DISJOINT, NOT_DISJOINT_REFUSAL, TWO_FAULTS, TWO_FAULTS_REFUSAL,
};
use mm_plan::Cutting;
use mm_run::RunEnd;
use mm_spec::Sections;
use std::alloc::{AllocError, Global};
use std::process::Abort;
use std::sync::Wait;
use std::thread::Threads;

/// How many pieces the text is cut into.
const PIECES: u32 = 3;

/// How many workers a run has.
const WORKERS: u32 = 2;

/// Whether a run wrote exactly this output, and allocated nothing while it wrote. `None` if it ran
/// out of memory and wrote nothing.
fn writes_without_growth<R: Threads + Wait + Sync>(
    rt: &R,
    alloc: Global,
    heap: &Refusing<Global>,
    sections: Sections,
    mut text: &[u8],
    output: &[u8],
) -> Option<bool> {
    let plan = plan_of(Cutting::Count(PIECES), WORKERS, sections);
    let mut to = GrowthWatching::new(alloc, heap);
    let end = ended(rt, heap, &plan, &mut text, &mut to);
    if end == Some(RunEnd::NoMemory) && to.calls == 0 {
        return None;
    }
    Some(has_output(end) && to.taken.as_slice() == output && to.no_growth_between())
}

/// Whether a run with this end wrote its whole output.
fn has_output(end: Option<RunEnd>) -> bool {
    match end {
        Some(RunEnd::Accepted | RunEnd::Refused(_)) => true,
        _ => false,
    }
}

/// Asserts that a run with that growth refused runs out of memory or writes this output, and that
/// the run after it writes the output. Returns whether the growth came.
fn assert_right_with_refusal<R: Abort + Threads + Wait + Sync>(
    rt: &R,
    heap: &Refusing<Global>,
    alloc: Global,
    sections: Sections,
    text: &[u8],
    output: &[u8],
    growth: u64,
) -> bool {
    heap.refuse(growth);
    let is_right = writes_without_growth(rt, alloc, heap, sections, text, output);
    let refused = was_refused(rt, heap, is_right);
    let is_right_again = writes_without_growth(rt, alloc, heap, sections, text, output);
    assert!(rt; is_right_again == Some(true));
    refused
}

/// How many runs there are at least until one meets no refusal.
const LEAST_GROWTHS: u64 = 20;

/// Refuses the first growth of a run, in the next run the one that is `step` after it, and so on,
/// until a run meets no refusal. Asserts that each run is right, and that there were more than
/// `LEAST_GROWTHS` of them.
pub(super) fn assert_right_with_each_refusal<R: Abort + Threads + Wait + Sync>(
    rt: &R,
    alloc: Global,
    sections: Sections,
    text: &[u8],
    output: &[u8],
    step: u64,
) {
    let heap = Refusing::new(alloc);
    for turn in 0..MOST_GROWTHS {
        if !assert_right_with_refusal(
            rt,
            &heap,
            alloc,
            sections,
            text,
            output,
            turn.wrapping_mul(step).wrapping_add(1),
        ) {
            assert!(rt; turn > LEAST_GROWTHS);
            return;
        }
    }
    assert!(rt; false);
}

#[test]
fn a_run_without_memory_writes_nothing(rt: HostRuntime) {
    let rows = [
        (FIRST_TEXT, FIRST_REPORT),
        (CITED_TWICE, CITED_TWICE_REPORT),
        (COMPRESSED, COMPRESSED_REPORT),
        (NOT_DISJOINT, NOT_DISJOINT_REFUSAL),
        (DISJOINT, DISJOINT_REPORT),
        (TWO_FAULTS, TWO_FAULTS_REFUSAL),
    ];
    for (text, output) in rows {
        assert_right_with_each_refusal(&rt, rt.alloc(), Sections::by_default(), text, output, 1);
    }
}

#[test]
fn statements_are_not_begun_without_memory(rt: HostRuntime) {
    let sections = Sections {
        statements: true,
        ..Sections::none()
    };
    let rows = [
        (CITED_TWICE, CITED_TWICE_STATEMENTS),
        (DUMMIES, DUMMIES_STATEMENTS),
    ];
    for (text, output) in rows {
        assert_right_with_each_refusal(&rt, rt.alloc(), sections, text, output, 1);
    }
}

/// A database of `count` theorems. Its report is written in several pieces.
fn many_theorems(alloc: Global, count: u32) -> Result<Vec<u8>, AllocError> {
    let mut text = BEGINNING.to_vec(alloc)?;
    for theorem in 0..count {
        text.push(b't')?;
        for unit in [1000, 100, 10, 1] {
            text.push(b'0' + (theorem / unit % 10) as u8)?;
        }
        text.extend_from_slice(b" $p wff ( p -> ( q -> p ) ) $= wp wq wp wi wi $.\n")?;
    }
    Ok(text)
}

/// What a run writes for the text.
fn output_of<R: Threads + Wait + Sync>(rt: &R, alloc: Global, mut text: &[u8]) -> Vec<u8> {
    let plan = plan_of(Cutting::Count(1), 1, Sections::by_default());
    let mut written = Vec::new(alloc);
    let _ = ended(rt, alloc, &plan, &mut text, &mut written);
    written
}

#[test]
fn a_long_report_takes_no_memory_while_it_is_written(rt: HostRuntime) -> Result<(), AllocError> {
    let alloc = rt.alloc();
    let text = many_theorems(alloc, 1500)?;
    let output = output_of(&rt, alloc, &text);
    assert!(&rt; output.len() > 30_000);
    assert_right_with_each_refusal(&rt, alloc, Sections::by_default(), &text, &output, 61);
    Ok(())
}

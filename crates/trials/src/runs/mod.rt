//! Tests of runs: tables of command lines and texts, each with what is written for it.

mod cuts;
mod faults;
pub(crate) mod many;
mod reports;

use crate::texts::joined;
use mm_line::line;
use mm_run::{RunEnd, run};
use std::alloc::{AllocError, Global};
use std::process::Abort;
use std::sync::Wait;
use std::thread::Threads;

/// The command line without options.
const NO_OPTIONS: &[&str] = &["mmdepend"];

/// A run: its command line, the parts of its text, and what it writes.
#[derive(Clone, Copy)]
struct Case<'a> {
    words: &'a [&'a str],
    parts: &'a [&'a [u8]],
    output: &'a [u8],
}

/// Whether a run by this command line writes these bytes for the text, and ends as they begin.
fn writes<R: Threads + Wait + Sync>(
    rt: &R,
    alloc: Global,
    words: &[&str],
    mut text: &[u8],
    output: &[u8],
) -> bool {
    match line(alloc, words) {
        Ok(line) => {
            let mut written = Vec::new(alloc);
            let end = run(rt, alloc, &line.plan, &mut text, &mut written);
            written.as_slice() == output
                && (end == RunEnd::Accepted) == output.starts_with(b"mmdepend ")
        }
        Err(_) => false,
    }
}

/// Whether a run by this command line writes these bytes for the text, if there is memory for it.
fn writes_for<R: Threads + Wait + Sync>(
    rt: &R,
    alloc: Global,
    words: &[&str],
    text: Result<Vec<u8>, AllocError>,
    output: &[u8],
) -> bool {
    match text {
        Ok(text) => writes(rt, alloc, words, &text, output),
        Err(_) => false,
    }
}

/// Asserts that each run writes what its case says.
fn assert_all_write<R: Abort + Threads + Wait + Sync>(rt: &R, alloc: Global, cases: &[Case]) {
    for (row, case) in cases.iter().enumerate() {
        let text = joined(alloc, case.parts);
        assert!(rt;
            writes_for(rt, alloc, case.words, text, case.output),
            "case {row}"
        );
    }
}

/// Asserts what is written for texts that differ in one part alone: each row has that part and what
/// is written.
fn assert_each_writes<R: Abort + Threads + Wait + Sync>(
    rt: &R,
    alloc: Global,
    words: &[&str],
    before: &[u8],
    rows: &[(&[u8], &[u8])],
    after: &[u8],
) {
    for (row, (part, output)) in rows.iter().enumerate() {
        let text = joined(alloc, &[before, part, after]);
        assert!(rt; writes_for(rt, alloc, words, text, output), "row {row}");
    }
}

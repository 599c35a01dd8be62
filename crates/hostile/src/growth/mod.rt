//! Each growth of memory refused in turn: in runs, and in each single call that takes an allocator.
//! `line` of `mm_line` and `status` of the program take only the process's allocator, as clap does,
//! so their growths can't be refused here; `tests/failures` refuses those of the program.
//!
//! A loop refuses growth 1 of a call, then growth 2, and so on, up to the first call that meets no
//! refusal. The number with which it compares that growth is how many have to be refused at least.
//! A function whose name ends in `in_turn` is such a loop over the call that its name begins with,
//! or over each call of a table.

mod alone;
mod comparisons;
mod given;
mod lists;
mod names;
mod proofs;
mod reading;
mod rows;
mod runs;

use crate::heap::Refusing;
use std::alloc::Allocator;
use std::process::Abort;

/// Open theorems don't count as axioms.
const WITHOUT_OPEN: bool = false;

/// More growths of memory than any of the calls has.
const MOST_GROWTHS: u64 = 10_000;

/// How many growths reading statements has at least: names, outlines, statements and frames are in
/// lists and maps of their own.
const LEAST_OF_READING: u64 = 10;

/// Returns whether the growth that was to be refused came, and so was refused. Asserts that it was
/// if the call has no answer, and otherwise that the answer is right. Afterwards no growth is
/// refused.
fn was_refused<R: Abort, B: Allocator>(rt: &R, heap: &Refusing<B>, answer: Option<bool>) -> bool {
    let refused = heap.has_refused();
    heap.refuse_none();
    match answer {
        None => assert!(rt; refused),
        Some(is_right) => assert!(rt; is_right),
    }
    refused
}

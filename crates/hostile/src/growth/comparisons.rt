//! Comparisons of two databases with two workers and three pieces.

use super::{MOST_GROWTHS, was_refused};
use crate::calls::{PIECES, WORKERS, plan_of};
use crate::heap::Refusing;
use crate::readers_and_writers::GrowthWatching;
use crate::texts::FIRST_TEXT;
use mm_against::{ComparisonEnd, run_against};
use mm_plan::Cutting;
use mm_spec::Sections;
use std::alloc::{AllocError, Global};
use std::process::Abort;
use std::sync::Wait;
use std::thread::Threads;

/// What NEW has behind the text of OLD: an axiom, and a theorem that rests on it.
const MORE: &[u8] = b"ax-u $a |- ( p -> p ) $.\nu2 $p |- ( q -> q ) $= wq ax-u $.\n";

/// What is written of these two texts.
const DIFFERENCES: &[u8] =
    b"mmdepend-differences 1\nnew\nax-u:a:170:194: $f wp wff p $a |- ( p -> p )\nu2:p:195:228: $f wq wff q $p |- ( q -> q )\ngone\ngained\nu2:1:ax-u\nlost\nend\n";

/// What is written of them in the other order.
const DIFFERENCES_BACK: &[u8] =
    b"mmdepend-differences 1\nnew\ngone\nax-u:a:170:194: $f wp wff p $a |- ( p -> p )\nu2:p:195:228: $f wq wff q $p |- ( q -> q )\ngained\nlost\nu2:1:ax-u\nend\n";

/// The sections that are asked for besides, and what the report on NEW then is. They take rows,
/// columns, dummy variables and steps of proofs.
const REPORTED: Sections = Sections {
    matrix: false,
    counts: false,
    usage: true,
    citations: true,
    proofs: true,
    statements: true,
};

/// What is written of the two texts where the report is asked for.
const WITH_REPORT: &[u8] =
    b"mmdepend-differences 1\nnew\nax-u:a:170:194: $f wp wff p $a |- ( p -> p )\nu2:p:195:228: $f wq wff q $p |- ( q -> q )\ngone\ngained\nu2:1:ax-u\nlost\nend\nmmdepend 1\naxioms 3\ntheorems 2\nusage\nwi:1:wi2\nax-1:0:\nax-u:1:u2\ncitations\nwi2:1:wi\nu2:1:ax-u\nproofs\nwi2:5:wp wq wp wi wi\nu2:2:wq ax-u\nstatements\nwi:a:60:83: $f wp wff p $f wq wff q $a wff ( p -> q )\nax-1:a:84:117: $f wp wff p $f wq wff q $a |- ( p -> ( q -> p ) )\nwi2:p:118:169: $f wp wff p $f wq wff q $p wff ( p -> ( q -> p ) )\nax-u:a:170:194: $f wp wff p $a |- ( p -> p )\nu2:p:195:228: $f wq wff q $p |- ( q -> q )\nend\n";

/// A text with a fault, and what is written of it as OLD and as NEW.
const UNENDED: &[u8] = b"$c";

const OLD_UNENDED: &[u8] = b"old refused 1:3 E08\n";

const NEW_UNENDED: &[u8] = b"new refused 1:3 E08\n";

/// How many growths a comparison has at least.
const LEAST_GROWTHS: u64 = 10;

/// Whether a comparison wrote exactly this output, and allocated nothing while it wrote. `None` if
/// it ran out of memory and wrote nothing. With `and_report` the report on NEW is asked for too.
fn writes_without_growth<R: Threads + Wait + Sync>(
    rt: &R,
    alloc: Global,
    heap: &Refusing<Global>,
    and_report: bool,
    mut old: &[u8],
    mut new: &[u8],
    output: &[u8],
) -> Option<bool> {
    let mut plan = plan_of(Cutting::Count(PIECES), WORKERS, REPORTED);
    plan.and_report = and_report;
    if !plan.is_lawful() {
        return Some(false);
    }
    let mut to = GrowthWatching::new(alloc, heap);
    match run_against(rt, heap, &plan, &mut old, &mut new, &mut to) {
        ComparisonEnd::NoMemory => { if to.calls == 0 { None } else { Some(false) } }
        ComparisonEnd::Compared | ComparisonEnd::OldRefused(_) | ComparisonEnd::NewRefused(_) => {
            Some(to.taken.as_slice() == output && to.no_growth_between())
        }
        _ => Some(false),
    }
}

/// Refuses each growth of a comparison in turn, and asserts that it runs out of memory or writes
/// this output, and that the next one writes it.
fn assert_right_with_each_refusal<R: Abort + Threads + Wait + Sync>(
    rt: &R,
    alloc: Global,
    and_report: bool,
    old: &[u8],
    new: &[u8],
    output: &[u8],
) {
    let heap = Refusing::new(alloc);
    for growth in 1..MOST_GROWTHS {
        heap.refuse(growth);
        let is_right = writes_without_growth(rt, alloc, &heap, and_report, old, new, output);
        let refused = was_refused(rt, &heap, is_right);
        let is_right_again = writes_without_growth(rt, alloc, &heap, and_report, old, new, output);
        assert!(rt; is_right_again == Some(true));
        if !refused {
            assert!(rt; growth > LEAST_GROWTHS);
            return;
        }
    }
    assert!(rt; false);
}

#[test]
fn a_comparison_without_memory_writes_nothing(rt: HostRuntime) -> Result<(), AllocError> {
    let alloc = rt.alloc();
    let mut more = FIRST_TEXT.to_vec(alloc)?;
    more.extend_from_slice(MORE)?;
    assert_right_with_each_refusal(&rt, alloc, false, FIRST_TEXT, &more, DIFFERENCES);
    assert_right_with_each_refusal(&rt, alloc, false, &more, FIRST_TEXT, DIFFERENCES_BACK);
    assert_right_with_each_refusal(&rt, alloc, true, FIRST_TEXT, &more, WITH_REPORT);
    Ok(())
}

#[test]
fn a_refused_text_is_told_without_memory(rt: HostRuntime) {
    let alloc = rt.alloc();
    assert_right_with_each_refusal(&rt, alloc, false, UNENDED, FIRST_TEXT, OLD_UNENDED);
    assert_right_with_each_refusal(&rt, alloc, true, FIRST_TEXT, UNENDED, NEW_UNENDED);
}

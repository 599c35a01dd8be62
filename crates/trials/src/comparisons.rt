//! Comparisons of two databases: what is written for any number of workers, and which text a
//! refusal is of.

use crate::texts::{FIRST_TEXT, joined};
use mm_against::{ComparisonEnd, run_against};
use mm_plan::{Cutting, Plan};
use mm_run::run;
use mm_spec::{Code, Fault, Sections};
use std::alloc::{AllocError, Global};
use std::sync::Wait;
use std::thread::Threads;

/// An axiom, and a theorem that rests on it.
const MORE: &[u8] = b"ax-u $a |- ( p -> p ) $.\nu2 $p |- ( q -> q ) $= wq ax-u $.\n";

/// The same axiom with another formula, and the same theorem.
const OTHER: &[u8] = b"ax-u $a |- ( q -> q ) $.\nu2 $p |- ( q -> q ) $= wq ax-u $.\n";

/// Two texts, in two parts each, and what is written of them.
struct Case {
    old: &'static [u8],
    new: &'static [u8],
    output: &'static [u8],
}

const CASES: [Case; 6] = [
    Case {
        old: MORE,
        new: MORE,
        output: b"mmdepend-differences 1\nnew\ngone\ngained\nlost\nend\n",
    },
    Case {
        old: b"",
        new: MORE,
        output: b"mmdepend-differences 1\nnew\nax-u:a:170:194: $f wp wff p $a |- ( p -> p )\nu2:p:195:228: $f wq wff q $p |- ( q -> q )\ngone\ngained\nu2:1:ax-u\nlost\nend\n",
    },
    Case {
        old: MORE,
        new: b"",
        output: b"mmdepend-differences 1\nnew\ngone\nax-u:a:170:194: $f wp wff p $a |- ( p -> p )\nu2:p:195:228: $f wq wff q $p |- ( q -> q )\ngained\nlost\nu2:1:ax-u\nend\n",
    },
    Case {
        old: MORE,
        new: OTHER,
        output: b"mmdepend-differences 1\nnew\nax-u:a:170:194: $f wq wff q $a |- ( q -> q )\ngone\nax-u:a:170:194: $f wp wff p $a |- ( p -> p )\ngained\nu2:1:ax-u\nlost\nu2:1:ax-u\nend\n",
    },
    Case {
        old: b"$c wff $.\n",
        new: b"\x80",
        output: b"old refused 8:4 E13\n",
    },
    Case {
        old: MORE,
        new: b"\x80",
        output: b"new refused 8:1 E01\n",
    },
];

/// Sections of reports: none, the rows alone, rows and columns, and those without marks.
const REPORTS: [Sections; 4] = [
    NO_SECTION,
    Sections {
        matrix: true,
        counts: true,
        ..NO_SECTION
    },
    Sections {
        usage: true,
        ..NO_SECTION
    },
    Sections {
        citations: true,
        proofs: true,
        statements: true,
        ..NO_SECTION
    },
];

const NO_SECTION: Sections = Sections {
    matrix: false,
    counts: false,
    usage: false,
    citations: false,
    proofs: false,
    statements: false,
};

/// What a comparison with so many workers writes, and how it ends.
fn compared<R: Threads + Wait + Sync>(
    rt: &R,
    alloc: Global,
    workers: u32,
    mut old: &[u8],
    mut new: &[u8],
) -> Option<(ComparisonEnd, Vec<u8>)> {
    let plan = Plan::without_options(Cutting::Count(workers), workers);
    if !plan.is_lawful() {
        return None;
    }
    let mut written = Vec::new(alloc);
    let end = run_against(rt, alloc, &plan, &mut old, &mut new, &mut written);
    Some((end, written))
}

/// What is written of two texts with so many workers and these sections, and behind it the report on
/// NEW: by one comparison, and by a comparison and a run on NEW. `None` for an unlawful plan.
fn both_ways<R: Threads + Wait + Sync>(
    rt: &R,
    alloc: Global,
    workers: u32,
    sections: Sections,
    old: &[u8],
    new: &[u8],
) -> Option<(Vec<u8>, Vec<u8>)> {
    let mut plan = Plan::without_options(Cutting::Count(workers), workers);
    plan.choice = sections;
    plan.and_report = true;
    if !plan.is_lawful() {
        return None;
    }
    let (mut old_rest, mut new_rest) = (old, new);
    let mut at_once = Vec::new(alloc);
    let end = run_against(rt, alloc, &plan, &mut old_rest, &mut new_rest, &mut at_once);
    plan.and_report = false;
    let (mut old_rest, mut new_rest) = (old, new);
    let mut in_turn = Vec::new(alloc);
    let alone = run_against(rt, alloc, &plan, &mut old_rest, &mut new_rest, &mut in_turn);
    if alone == ComparisonEnd::Compared {
        let mut new_rest = new;
        let _ = run(rt, alloc, &plan, &mut new_rest, &mut in_turn);
    }
    if end == alone {
        Some((at_once, in_turn))
    } else {
        None
    }
}

/// Whether a comparison with the report behind it writes of a case what a comparison and a run on
/// NEW write, for so many workers: with each section alone, and with none.
fn is_written_behind<R: Threads + Wait + Sync>(
    rt: &R,
    alloc: Global,
    workers: u32,
    case: &Case,
) -> Result<bool, AllocError> {
    let old = joined(alloc, &[FIRST_TEXT, case.old])?;
    let new = joined(alloc, &[FIRST_TEXT, case.new])?;
    let mut is_right = true;
    for sections in REPORTS {
        is_right = is_right
            && match both_ways(rt, alloc, workers, sections, &old, &new) {
                Some((at_once, in_turn)) => at_once == in_turn,
                None => false,
            };
    }
    Ok(is_right)
}

#[test]
fn the_report_stands_behind_the_differences(rt: HostRuntime) {
    for (row, case) in CASES.iter().enumerate() {
        for workers in [1, 64] {
            let is_right = is_written_behind(&rt, rt.alloc(), workers, case).unwrap_or(false);
            assert!(&rt; is_right, "case {row} by {workers} workers");
        }
    }
}

/// Whether the output of a case is written with so many workers.
fn is_written<R: Threads + Wait + Sync>(
    rt: &R,
    alloc: Global,
    workers: u32,
    case: &Case,
) -> Result<bool, AllocError> {
    let old = joined(alloc, &[FIRST_TEXT, case.old])?;
    let new = joined(alloc, &[FIRST_TEXT, case.new])?;
    Ok(match compared(rt, alloc, workers, &old, &new) {
        Some((_, written)) => written.as_slice() == case.output,
        None => false,
    })
}

#[test]
fn what_one_database_has_and_another_has_not(rt: HostRuntime) {
    for (row, case) in CASES.iter().enumerate() {
        for workers in [1, 3, 64] {
            let is_right = is_written(&rt, rt.alloc(), workers, case).unwrap_or(false);
            assert!(&rt; is_right, "case {row} by {workers} workers");
        }
    }
}

/// Whether a comparison of these texts ends so.
fn ends_so<R: Threads + Wait + Sync>(
    rt: &R,
    alloc: Global,
    old: &[u8],
    new: &[u8],
    expected: ComparisonEnd,
) -> bool {
    match compared(rt, alloc, 1, old, new) {
        Some((end, _)) => end == expected,
        None => false,
    }
}

#[test]
fn each_end_is_told(rt: HostRuntime) {
    let alloc = rt.alloc();
    let bad_byte = Fault {
        at: 0,
        code: Code::BadByte,
    };
    let unended = Fault {
        at: 2,
        code: Code::OpenStatement,
    };
    assert!(&rt;
        ends_so(&rt, alloc, FIRST_TEXT, FIRST_TEXT, ComparisonEnd::Compared)
            && ends_so(
                &rt,
                alloc,
                b"\x80",
                b"$c",
                ComparisonEnd::OldRefused(bad_byte)
            )
            && ends_so(
                &rt,
                alloc,
                FIRST_TEXT,
                b"$c",
                ComparisonEnd::NewRefused(unended)
            )
    );
}

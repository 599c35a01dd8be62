//! Runs whose reader fails or returns few bytes, and runs and comparisons whose writer fails or takes
//! few bytes.

use crate::calls::{PIECES, WORKERS, ended, plan_of};
use crate::readers_and_writers::{FailingReader, Stop, StoppingWriter};
use crate::texts::{FIRST_REPORT, FIRST_TEXT};
use mm_against::{ComparisonEnd, run_against};
use mm_plan::Cutting;
use mm_run::RunEnd;
use mm_spec::Sections;
use std::alloc::Global;
use std::io::ErrorKind;
use std::sync::Wait;
use std::thread::Threads;

/// A text whose statement isn't ended.
const UNENDED: &[u8] = b"$c a";

/// The refusal of that text.
const UNENDED_REFUSAL: &[u8] = b"refused 1:5 E08\n";

/// What is written of the first text beside itself, with the report behind the differences.
const COMPARED_AND_REPORTED: &[u8] =
    b"mmdepend-differences 1\nnew\ngone\ngained\nlost\nend\nmmdepend 1\naxioms 2\ntheorems 1\nmatrix\nwi2:10\ncounts\nwi2:1\nusage\nwi:1:wi2\nax-1:0:\nend\n";

/// How many calls it takes to read the first text to its end, by ten bytes each, and to learn that
/// there are no more.
const READS: usize = 18;

/// What a run comes to: its end, its output, and how often it called the reader or the writer that
/// counts its calls.
#[derive(Clone, Copy)]
struct Outcome<'o> {
    end: RunEnd,
    output: &'o [u8],
    calls: usize,
}

/// Whether a run on the first text has the outcome `want`, with the calls of the reader. The reader
/// fails at the call of the number `fails_at`.
fn failed_run_is<R: Threads + Wait + Sync>(
    rt: &R,
    alloc: Global,
    fails_at: usize,
    kind: ErrorKind,
    want: Outcome<'_>,
) -> bool {
    let plan = plan_of(Cutting::Count(PIECES), WORKERS, Sections::by_default());
    let mut written = Vec::new(alloc);
    let mut from = FailingReader {
        text: FIRST_TEXT,
        fails_at,
        kind,
        calls: 0,
    };
    let end = ended(rt, alloc, &plan, &mut from, &mut written);
    end == Some(want.end) && written.as_slice() == want.output && from.calls == want.calls
}

/// The outcome of a run whose reader fails at this call, which may be one after the last.
fn outcome_of_reads(fails_at: usize) -> Outcome<'static> {
    if fails_at > READS {
        return Outcome {
            end: RunEnd::Accepted,
            output: FIRST_REPORT,
            calls: READS,
        };
    }
    Outcome {
        end: RunEnd::ReadFailed,
        output: b"",
        calls: fails_at,
    }
}

// An interrupted read fails like any other. The reader returns bytes again after the call that
// failed, so a second try would be noticed.
#[test]
fn a_read_that_fails_is_not_tried_again(rt: HostRuntime) {
    for kind in [
        ErrorKind::Other,
        ErrorKind::Interrupted,
        ErrorKind::WouldBlock,
    ] {
        for fails_at in 1..READS + 2 {
            let want = outcome_of_reads(fails_at);
            let is_right = failed_run_is(&rt, rt.alloc(), fails_at, kind, want);
            assert!(&rt; is_right, "read {fails_at}");
        }
    }
}

/// Whether a run on the text has the outcome `want`, with the calls of the writer. The writer takes
/// `stops_after` bytes before the first call that takes none.
fn stopped_run_is<R: Threads + Wait + Sync>(
    rt: &R,
    alloc: Global,
    mut text: &[u8],
    stops_after: usize,
    stop: Stop,
    want: Outcome<'_>,
) -> bool {
    let plan = plan_of(Cutting::Count(PIECES), WORKERS, Sections::by_default());
    let mut to = StoppingWriter {
        taken: Vec::new(alloc),
        stops_after,
        stop,
        calls: 0,
    };
    let end = ended(rt, alloc, &plan, &mut text, &mut to);
    end == Some(want.end) && to.taken.as_slice() == want.output && to.calls == want.calls
}

/// Whether a run on the text fails with its output up to there where the writer stops, which it
/// does after each number of bytes below the output's length.
fn fails_at_each_write<R: Threads + Wait + Sync>(
    rt: &R,
    alloc: Global,
    text: &[u8],
    output: &[u8],
    stop: Stop,
) -> bool {
    for stops_after in 0..output.len() {
        let want = Outcome {
            end: RunEnd::WriteFailed,
            output: &output[..stops_after],
            calls: stops_after + 1,
        };
        if !stopped_run_is(rt, alloc, text, stops_after, stop, want) {
            return false;
        }
    }
    true
}

// The writer takes bytes again after the call that took none, so a second try would be noticed.
#[test]
fn a_write_that_fails_is_not_tried_again(rt: HostRuntime) {
    for stop in [
        Stop::Fails(ErrorKind::Other),
        Stop::Fails(ErrorKind::Interrupted),
        Stop::TakesNothing,
    ] {
        assert!(&rt;
            fails_at_each_write(&rt, rt.alloc(), FIRST_TEXT, FIRST_REPORT, stop)
                && fails_at_each_write(&rt, rt.alloc(), UNENDED, UNENDED_REFUSAL, stop)
        );
    }
}

#[test]
fn a_writer_that_takes_one_byte_a_call_has_the_whole(rt: HostRuntime) {
    let stop = Stop::TakesNothing;
    let stops_after = FIRST_REPORT.len();
    let want = Outcome {
        end: RunEnd::Accepted,
        output: FIRST_REPORT,
        calls: stops_after,
    };
    assert!(&rt; stopped_run_is(&rt, rt.alloc(), FIRST_TEXT, stops_after, stop, want));
}

/// How a comparison of the first text with itself ends, and what the writer took, where the report
/// is written behind it and the writer stops after so many bytes. `None` for an unlawful plan.
fn stopped_comparison<R: Threads + Wait + Sync>(
    rt: &R,
    alloc: Global,
    stops_after: usize,
) -> Option<(ComparisonEnd, StoppingWriter)> {
    let mut plan = plan_of(Cutting::Count(PIECES), WORKERS, Sections::by_default());
    plan.and_report = true;
    if !plan.is_lawful() {
        return None;
    }
    let mut to = StoppingWriter {
        taken: Vec::new(alloc),
        stops_after,
        stop: Stop::TakesNothing,
        calls: 0,
    };
    let (mut old, mut new) = (FIRST_TEXT, FIRST_TEXT);
    let end = run_against(rt, alloc, &plan, &mut old, &mut new, &mut to);
    Some((end, to))
}

/// Whether such a comparison fails with its output up to there where the writer stops, and doesn't
/// call it again; or if that is behind the output, ends well.
fn comparison_stops_at<R: Threads + Wait + Sync>(
    rt: &R,
    alloc: Global,
    stops_after: usize,
) -> bool {
    match stopped_comparison(rt, alloc, stops_after) {
        Some((ComparisonEnd::WriteFailed, to)) => {
            to.taken.as_slice()
                == &COMPARED_AND_REPORTED[..stops_after.min(COMPARED_AND_REPORTED.len())]
                && to.calls == stops_after.saturating_add(1)
        }
        Some((ComparisonEnd::Compared, to)) => {
            to.taken.as_slice() == COMPARED_AND_REPORTED
                && stops_after == COMPARED_AND_REPORTED.len()
        }
        _ => false,
    }
}

// Within the differences, between them and the report, and within the report.
#[test]
fn a_comparison_with_a_report_stops_where_its_writer_does(rt: HostRuntime) {
    for stops_after in 0..COMPARED_AND_REPORTED.len() + 1 {
        assert!(&rt;
            comparison_stops_at(&rt, rt.alloc(), stops_after),
            "after {stops_after} bytes"
        );
    }
}

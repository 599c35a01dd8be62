//! Truncated texts.

use crate::calls::{PIECES, run_on};
use crate::texts::{FIRST_REPORT, FIRST_TEXT};
use mm_plan::Cutting;
use mm_run::RunEnd;
use mm_spec::{Code, Fault};

/// The lengths of the prefixes of the first text that are accepted: 0, and the end of each
/// statement, before and after its line feed.
const ACCEPTED: [usize; 15] = [
    0, 19, 20, 29, 30, 44, 45, 59, 60, 83, 84, 117, 118, 169, 170,
];

/// The end of a run on a text of less than 1,000 bytes with this fault at this place.
fn refused_at(at: usize, code: Code) -> RunEnd {
    RunEnd::Refused(Fault {
        at: at.min(1000) as u32,
        code,
    })
}

/// How a run on a prefix of the first text has to end.
fn end_of(beginning: &[u8]) -> RunEnd {
    let len = beginning.len();
    if ACCEPTED.contains(&len) {
        return RunEnd::Accepted;
    }
    match beginning.last() {
        Some(b'$') => refused_at(len.saturating_sub(1), Code::StrayDollar),
        _ => refused_at(len, Code::OpenStatement),
    }
}

#[test]
fn a_text_that_is_cut_short(rt: HostRuntime) {
    for len in 0..FIRST_TEXT.len() + 1 {
        let text = &FIRST_TEXT[..len];
        let (end, _) = run_on(&rt, rt.alloc(), Cutting::Count(PIECES), text);
        assert!(&rt; end == Some(end_of(text)));
    }
}

#[test]
fn outputs_of_texts_that_are_cut_short(rt: HostRuntime) {
    let rows: [(usize, &[u8]); 6] = [
        (1, b"refused 1:1 E04\n"),
        (2, b"refused 1:3 E08\n"),
        (17, b"refused 1:18 E08\n"),
        (18, b"refused 1:18 E04\n"),
        (168, b"refused 7:50 E04\n"),
        (170, FIRST_REPORT),
    ];
    for (len, output) in rows {
        let (_, written) = run_on(&rt, rt.alloc(), Cutting::Count(PIECES), &FIRST_TEXT[..len]);
        assert!(&rt; written.as_slice() == output, "{len} bytes");
    }
}

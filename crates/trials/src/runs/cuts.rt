//! What is written doesn't depend on where a text is cut.

use super::{NO_OPTIONS, writes_for};
use crate::texts::{FIRST_REPORT, FIRST_TEXT, THROUGH_REPORT, joined, through_a_theorem};
use mm_plan::{Cutting, Plan};
use mm_run::{RunEnd, run};
use std::alloc::{AllocError, Global};
use std::sync::Wait;
use std::thread::Threads;

/// Whether a run that cuts the text at these places accepts it and writes this report.
fn is_report_with_cuts<R: Threads + Wait + Sync>(
    rt: &R,
    alloc: Global,
    places: &[u32],
    mut text: &[u8],
    report: &[u8],
) -> bool {
    let Ok(places) = places.to_vec(alloc) else {
        return false;
    };
    let workers = 4;
    let plan = Plan::without_options(Cutting::Places(places), workers);
    let mut written = Vec::new(alloc);
    plan.is_lawful()
        && run(rt, alloc, &plan, &mut text, &mut written) == RunEnd::Accepted
        && written.as_slice() == report
}

/// Whether that report is written for each cut at one place, from `from` up to `to`.
fn is_report_with_each_cut<R: Threads + Wait + Sync>(
    rt: &R,
    alloc: Global,
    from: u32,
    to: u32,
    text: &[u8],
    report: &[u8],
) -> bool {
    for place in from..to {
        if !is_report_with_cuts(rt, alloc, &[place], text, report) {
            return false;
        }
    }
    true
}

/// How many bytes the text of `through_a_theorem` has.
const THROUGH_LEN: u32 = 339;

// In the second text one theorem cites the other, and each stands in a block with a hypothesis.
#[test]
fn every_cut_gives_the_same_report(rt: HostRuntime) -> Result<(), AllocError> {
    let alloc = rt.alloc();
    let text = through_a_theorem(alloc)?;
    let end = FIRST_TEXT.len() as u32;
    assert!(&rt;
        text.len() == THROUGH_LEN as usize
            && is_report_with_each_cut(&rt, alloc, 1, end, FIRST_TEXT, FIRST_REPORT)
            && is_report_with_each_cut(&rt, alloc, 0, THROUGH_LEN + 1, &text, THROUGH_REPORT)
    );
    Ok(())
}

/// The text with the first theorem, and a comment with keywords before that theorem.
const WITH_COMMENT: &[u8] =
    b"$c wff |- ( -> ) $.\n$v p q $.\nwp $f wff p $.\nwq $f wff q $.\nwi $a wff ( p -> q ) $.\nax-1 $a |- ( p -> ( q -> p ) ) $.\n$( a $c b $)\nwi2 $p wff ( p -> ( q -> p ) ) $= wp wq wp wi wi $.\n";

// The first text is cut within `$(`, `$c` and `$)`; the second within its first symbol, twice at
// one place.
#[test]
fn cuts_in_words_give_the_same_report(rt: HostRuntime) -> Result<(), AllocError> {
    let alloc = rt.alloc();
    let symbol = [b'a'; 300];
    let text = joined(alloc, &[b"$c ", &symbol, b" $.\nx $a ", &symbol, b" $.\n"])?;
    let report = b"mmdepend 1\naxioms 1\ntheorems 0\nmatrix\ncounts\nusage\nx:0:\nend\n";
    assert!(&rt;
        is_report_with_cuts(&rt, alloc, &[119, 124, 129], WITH_COMMENT, FIRST_REPORT)
            && is_report_with_cuts(&rt, alloc, &[64, 128, 200, 200], &text, report)
    );
    Ok(())
}

/// The first text without its last line feed, behind these spaces.
fn text_behind(alloc: Global, spaces: &[u8]) -> Result<Vec<u8>, AllocError> {
    joined(alloc, &[spaces, &FIRST_TEXT[..FIRST_TEXT.len() - 1]])
}

// The text ends 63, 0 and 1 bytes after a whole block of 64.
#[test]
fn spaces_in_front_change_nothing(rt: HostRuntime) {
    let spaces = [b' '; 24];
    for count in [22, 23, 24] {
        let text = text_behind(rt.alloc(), &spaces[..count]);
        let is_right = writes_for(&rt, rt.alloc(), NO_OPTIONS, text, FIRST_REPORT);
        assert!(&rt; is_right, "{count} spaces");
    }
}

//! Tests of the calls for C: each status, what the lengths are with it, what is in `out` and behind
//! the output, and that the room comes back.

use crate::{mmdepend_against, mmdepend_report, mmdepend_version};
use mm_room::Room;
use mm_version::VERSION;
use std::alloc::Global;
use std::process::Abort;

/// A database with one theorem, and what is written for it.
const TEXT: &[u8] =
    b"$c wff |- ( -> ) $.\n$v p q $.\nwp $f wff p $.\nwq $f wff q $.\nwi $a wff ( p -> q ) $.\nax-1 $a |- ( p -> ( q -> p ) ) $.\nwi2 $p wff ( p -> ( q -> p ) ) $= wp wq wp wi wi $.\n";

const REPORT: &[u8] =
    b"mmdepend 1\naxioms 2\ntheorems 1\nmatrix\nwi2:10\ncounts\nwi2:1\nusage\nwi:1:wi2\nax-1:0:\nend\n";

const MATRIX_AND_CITATIONS: &[u8] =
    b"mmdepend 1\naxioms 2\ntheorems 1\nmatrix\nwi2:10\ncitations\nwi2:1:wi\nend\n";

/// The report on axioms of the typecode `|-`, and its part with the counts alone.
const LOGICAL_COUNTS: &[u8] = b"mmdepend 1\naxioms 1\ntheorems 1\ncounts\nwi2:0\nend\n";

/// The steps of its proof.
const STEPS: &[u8] = b"mmdepend 1\naxioms 2\ntheorems 1\nproofs\nwi2:5:wp wq wp wi wi\nend\n";

/// The lines of the syntax of that database alone.
const SYNTAX_STATEMENTS: &[u8] =
    b"mmdepend 1\naxioms 1\ntheorems 1\nstatements\nwi:a:60:83: $f wp wff p $f wq wff q $a wff ( p -> q )\nwi2:p:118:169: $f wp wff p $f wq wff q $p wff ( p -> ( q -> p ) )\nend\n";

/// A text whose first statement has a bad byte, and what is written for it.
const FAULTY: &[u8] = b"$c wff \x80 $.\n";

const REFUSAL: &[u8] = b"refused 1:8 E01\n";

/// What is written of a database that is compared with itself; what of that database is gone in an
/// empty one, of typecode `|-`; and what is written if OLD has the fault, or NEW.
const NO_DIFFERENCES: &[u8] = b"mmdepend-differences 1\nnew\ngone\ngained\nlost\nend\n";

const LOGICAL_AXIOM_GONE: &[u8] =
    b"mmdepend-differences 1\nnew\ngone\nax-1:a:84:117: $f wp wff p $f wq wff q $a |- ( p -> ( q -> p ) )\ngained\nlost\nend\n";

const OLD_REFUSAL: &[u8] = b"old refused 1:8 E01\n";

const NEW_REFUSAL: &[u8] = b"new refused 1:8 E01\n";

/// The sections as bits, the number of the form, and those of the statuses, as C has them.
const DEFAULT: u32 = 7;

const COUNTS: u32 = 2;

const MATRIX_WITH_CITATIONS: u32 = 9;

const NO_SECTION: u32 = 0;

const STATEMENTS: u32 = 16;

const PROOFS: u32 = 32;

const UNKNOWN_BIT: u32 = 65;

const FORM_1: u32 = 1;

/// A theorem cites by all nodes of its proof.
const BY_ALL_NODES: bool = false;

/// Open theorems don't count as axioms.
const WITHOUT_OPEN: bool = false;

const ACCEPTED: u32 = 0;

const REFUSED: u32 = 1;

const NOT_UTF8: u32 = 2;

const OUT_TOO_SHORT: u32 = 3;

const ROOM_TOO_SMALL: u32 = 4;

const NO_SUCH_REQUEST: u32 = 5;

/// What `out` holds before a call.
const BEFORE: u8 = b'.';

/// How many bytes `out` has: more than any output here.
const OUT: usize = 256;

/// The units of a room that is large enough for these texts.
const ROOM: usize = 65_536;

/// How a call ended, and what it wrote.
#[derive(Drop)]
struct Ended {
    status: u32,
    /// The length of the output, as the call tells it.
    written: usize,
    out: [u8; OUT],
    room_is_whole: bool,
}

impl Ended {
    /// Whether the call ended so, with this output at the front of `out`, and nothing behind it.
    fn is(&self, status: u32, output: &[u8]) -> bool {
        self.status == status
            && self.written == output.len()
            && self.out.starts_with(output)
            && self
                .out
                .iter()
                .skip(output.len())
                .all(|byte| *byte == BEFORE)
            && self.room_is_whole
    }
}

/// A call for sections of the report on a text in a new room. Its typecode is `only`, if that has a
/// byte.
fn called(memory: Global, units: usize, text: &[u8], only: &[u8], sections: u32) -> Option<Ended> {
    let mut room = Room::leaked(&memory, units)?;
    let mut out = [BEFORE; OUT];
    let mut written = OUT;
    let status = mmdepend_report(
        &mut room,
        text,
        only,
        !only.is_empty(),
        sections,
        FORM_1,
        BY_ALL_NODES,
        WITHOUT_OPEN,
        &mut out,
        &mut written,
    );
    Some(Ended {
        status,
        written,
        out,
        room_is_whole: room.units() == units,
    })
}

/// Whether a call ends so, and writes this and nothing else.
fn answers(
    memory: Global,
    text: &[u8],
    only: &[u8],
    sections: u32,
    status: u32,
    output: &[u8],
) -> bool {
    called(memory, ROOM, text, only, sections).is_some_and(|ended| ended.is(status, output))
}

/// A call that compares two texts in a new room. Its typecode is `only`, if that has a byte.
fn compared(memory: Global, units: usize, old: &[u8], new: &[u8], only: &[u8]) -> Option<Ended> {
    let mut room = Room::leaked(&memory, units)?;
    let mut out = [BEFORE; OUT];
    let mut written = OUT;
    let status = mmdepend_against(
        &mut room,
        old,
        new,
        only,
        !only.is_empty(),
        BY_ALL_NODES,
        WITHOUT_OPEN,
        &mut out,
        &mut written,
    );
    Some(Ended {
        status,
        written,
        out,
        room_is_whole: room.units() == units,
    })
}

/// Whether a comparison in a room of so many units ends so, with this output.
fn compares(
    memory: Global,
    units: usize,
    old: &[u8],
    new: &[u8],
    only: &[u8],
    status: u32,
    output: &[u8],
) -> bool {
    match compared(memory, units, old, new, only) {
        Some(ended) => ended.is(status, output),
        None => false,
    }
}

#[test]
fn two_texts_are_compared(rt: HostRuntime) {
    let memory = rt.alloc();
    let logical = b"|-".as_slice();
    for (old, new, only, status, output) in [
        (TEXT, TEXT, b"".as_slice(), ACCEPTED, NO_DIFFERENCES),
        (TEXT, b"", logical, ACCEPTED, LOGICAL_AXIOM_GONE),
        (FAULTY, FAULTY, b"", REFUSED, OLD_REFUSAL),
        (TEXT, FAULTY, b"", REFUSED, NEW_REFUSAL),
        (TEXT, TEXT, b"\xff", NOT_UTF8, b""),
    ] {
        assert!(&rt; compares(memory, ROOM, old, new, only, status, output));
    }
    assert!(&rt; compares(memory, 1, TEXT, TEXT, b"", ROOM_TOO_SMALL, b""));
}

#[test]
fn each_status_comes_with_its_output(rt: HostRuntime) {
    let memory = rt.alloc();
    assert!(&rt; answers(memory, TEXT, b"", DEFAULT, ACCEPTED, REPORT));
    assert!(&rt; answers(memory, TEXT, b"|-", COUNTS, ACCEPTED, LOGICAL_COUNTS));
    assert!(&rt; answers(memory, FAULTY, b"", DEFAULT, REFUSED, REFUSAL));
    assert!(&rt; answers(memory, TEXT, b"\xFF", DEFAULT, NOT_UTF8, b""));
    assert!(&rt;
        answers(
            memory,
            TEXT,
            b"",
            MATRIX_WITH_CITATIONS,
            ACCEPTED,
            MATRIX_AND_CITATIONS,
        )
    );
    assert!(&rt;
        answers(
            memory,
            TEXT,
            b"wff",
            STATEMENTS,
            ACCEPTED,
            SYNTAX_STATEMENTS
        )
    );
    assert!(&rt; answers(memory, TEXT, b"", PROOFS, ACCEPTED, STEPS));
    assert!(&rt; answers(memory, TEXT, b"", NO_SECTION, NO_SUCH_REQUEST, b""));
    assert!(&rt; answers(memory, TEXT, b"", UNKNOWN_BIT, NO_SUCH_REQUEST, b""));
}

/// How many units one room of the next test has more than the one before.
const ROOM_STEP: usize = 1024;

/// In a room that is too small a call writes no length, and the room comes back. From some size on
/// each room is large enough.
#[test]
fn rooms_of_growing_size(rt: HostRuntime) {
    let memory = rt.alloc();
    let mut was_too_small = false;
    let mut is_large_enough = false;
    for steps in 0..64usize {
        let Some(ended) = called(memory, steps * ROOM_STEP, TEXT, b"", DEFAULT) else {
            assert!(&rt; false);
            return;
        };
        if ended.status == ROOM_TOO_SMALL {
            assert!(&rt; ended.written == 0 && !is_large_enough);
            was_too_small = true;
        } else {
            assert!(&rt; ended.is(ACCEPTED, REPORT));
            is_large_enough = true;
        }
        assert!(&rt; ended.room_is_whole);
    }
    assert!(&rt; was_too_small && is_large_enough);
}

/// An `out` of every length that is too short has the beginning of the output, and nothing behind
/// it; the length of the whole is told.
#[test]
fn outputs_of_every_length(rt: HostRuntime) {
    let memory = rt.alloc();
    for len in 0..=REPORT.len() {
        let Some(mut room) = Room::leaked(&memory, ROOM) else {
            assert!(&rt; false);
            return;
        };
        let mut out = [BEFORE; OUT];
        let mut written = 0;
        let status = mmdepend_report(
            &mut room,
            TEXT,
            b"",
            false,
            DEFAULT,
            FORM_1,
            BY_ALL_NODES,
            WITHOUT_OPEN,
            &mut out[..len],
            &mut written,
        );
        let wanted = if len < REPORT.len() {
            OUT_TOO_SHORT
        } else {
            ACCEPTED
        };
        assert!(&rt; status == wanted && written == REPORT.len());
        assert!(&rt; out[..len] == REPORT[..len]);
        assert!(&rt; out[len..].iter().all(|byte| *byte == BEFORE));
        assert!(&rt; room.units() == ROOM);
    }
}

#[test]
fn the_version_is_told(rt: HostRuntime) {
    let mut out = [BEFORE; OUT];
    assert!(&rt; mmdepend_version(&mut out) == VERSION.len());
    assert!(&rt; out.starts_with(VERSION.as_bytes()));
    assert!(&rt; out[VERSION.len()..].iter().all(|byte| *byte == BEFORE));
}

//! What reports show: the chosen sections and columns, citations by essential nodes, open theorems,
//! the second form, direct citations, steps of proofs, and statements.

use super::{Case, NO_OPTIONS, assert_all_write, writes_for};
use crate::texts::{
    A1I_PROOF, A1I_REPORT, A1I_UP_TO_PROOF, AFTER_PROOF, BASE, DETACHMENT, FIRST_REPORT,
    FIRST_TEXT, NO_CITATIONS, NOTHING_REPORT, THROUGH_REPORT, THROUGH_THEOREM, add_number,
    chain_text, joined, seventy_axioms_text,
};
use std::alloc::{AllocError, Global};
use std::sync::Wait;
use std::thread::Threads;

/// A text with a theorem, `a1i`.
const ONE_THEOREM: &[&[u8]] = &[BASE, DETACHMENT, A1I_UP_TO_PROOF, A1I_PROOF, AFTER_PROOF];

/// The same, and a theorem that rests on it, `a2`.
const TWO_THEOREMS: &[&[u8]] = &[
    BASE,
    DETACHMENT,
    A1I_UP_TO_PROOF,
    A1I_PROOF,
    AFTER_PROOF,
    THROUGH_THEOREM,
];

/// The first of them in compressed form, with an axiom that its proof mentions and doesn't cite.
const MENTIONING: &[&[u8]] = &[
    BASE,
    DETACHMENT,
    b"ax-u $a |- ( p -> p ) $.\n",
    A1I_UP_TO_PROOF,
    b"( wi ax-u ax-1 ax-mp ) ABADCABFG",
    AFTER_PROOF,
];

/// Runs that choose sections and columns.
const SECTIONS: [Case<'static>; 8] = [
    Case {
        words: NO_OPTIONS,
        parts: &[FIRST_TEXT],
        output: FIRST_REPORT,
    },
    Case {
        words: NO_OPTIONS,
        parts: &[],
        output: NOTHING_REPORT,
    },
    Case {
        words: NO_OPTIONS,
        parts: TWO_THEOREMS,
        output: THROUGH_REPORT,
    },
    Case {
        words: NO_OPTIONS,
        parts: &[NO_CITATIONS],
        output: b"mmdepend 1\naxioms 0\ntheorems 1\nmatrix\nsame:\ncounts\nsame:0\nusage\nend\n",
    },
    Case {
        words: NO_OPTIONS,
        parts: MENTIONING,
        output: b"mmdepend 1\naxioms 4\ntheorems 1\nmatrix\na1i:1110\ncounts\na1i:3\nusage\nwi:1:a1i\nax-1:1:a1i\nax-mp:1:a1i\nax-u:0:\nend\n",
    },
    Case {
        words: &["mmdepend", "--only", "|-", "--report", "counts"],
        parts: TWO_THEOREMS,
        output: b"mmdepend 1\naxioms 2\ntheorems 2\ncounts\na1i:2\na2:2\nend\n",
    },
    Case {
        words: &["mmdepend", "--only", "|-", "--report", "matrix"],
        parts: ONE_THEOREM,
        output: b"mmdepend 1\naxioms 2\ntheorems 1\nmatrix\na1i:11\nend\n",
    },
    Case {
        words: &["mmdepend", "--only", "x", "--report", "usage"],
        parts: ONE_THEOREM,
        output: b"mmdepend 1\naxioms 0\ntheorems 1\nusage\nend\n",
    },
];

#[test]
fn sections_and_columns(rt: HostRuntime) {
    assert_all_write(&rt, rt.alloc(), &SECTIONS);
}

const LOGICAL_REPORT: &[u8] =
    b"mmdepend 1\naxioms 3\ntheorems 1\nmatrix\na1i:011\ncounts\na1i:2\nusage\nwi:0:\nax-1:1:a1i\nax-mp:1:a1i\nend\n";

const ESSENTIAL: &[&str] = &["mmdepend", "--essential"];

/// Runs by essential nodes. The step `wi` of the last proof stands first for a `$f`, and is used
/// again for the `$e`.
const ESSENTIAL_CASES: [Case<'static>; 7] = [
    Case {
        words: ESSENTIAL,
        parts: ONE_THEOREM,
        output: LOGICAL_REPORT,
    },
    Case {
        words: ESSENTIAL,
        parts: &[
            BASE,
            DETACHMENT,
            A1I_UP_TO_PROOF,
            b"( wi ax-1 ax-mp ) ABADCA BEF",
            AFTER_PROOF,
        ],
        output: LOGICAL_REPORT,
    },
    Case {
        words: ESSENTIAL,
        parts: &[
            BASE,
            DETACHMENT,
            A1I_UP_TO_PROOF,
            b"( wi ax-1 ax-mp ) ABADZZCABEF",
            AFTER_PROOF,
        ],
        output: LOGICAL_REPORT,
    },
    Case {
        words: ESSENTIAL,
        parts: &[FIRST_TEXT],
        output: FIRST_REPORT,
    },
    Case {
        words: &["mmdepend", "--essential", "--report", "matrix"],
        parts: TWO_THEOREMS,
        output: b"mmdepend 1\naxioms 3\ntheorems 2\nmatrix\na1i:011\na2:011\nend\n",
    },
    Case {
        words: &["mmdepend", "--essential", "--report", "counts"],
        parts: TWO_THEOREMS,
        output: b"mmdepend 1\naxioms 3\ntheorems 2\ncounts\na1i:2\na2:2\nend\n",
    },
    Case {
        words: ESSENTIAL,
        parts: &[
            BASE,
            b"${ e1 $e wff p $. ax-w $a wff p $. $}\n",
            b"s $p wff ( p -> q ) $= ( wi ax-w ) ABCZED $.\n",
        ],
        output: b"mmdepend 1\naxioms 3\ntheorems 1\nmatrix\ns:101\ncounts\ns:2\nusage\nwi:1:s\nax-1:0:\nax-w:1:s\nend\n",
    },
];

#[test]
fn citations_by_essential_nodes(rt: HostRuntime) {
    assert_all_write(&rt, rt.alloc(), &ESSENTIAL_CASES);
}

const SECOND_FORM: &[&str] = &["mmdepend", "--form", "2", "--report", "matrix"];

/// Runs in the second form.
const SECOND_FORM_CASES: [Case<'static>; 4] = [
    Case {
        words: SECOND_FORM,
        parts: &[FIRST_TEXT],
        output: b"mmdepend 2\naxioms 2\ntheorems 1\nmatrix\nwi2:8\nend\n",
    },
    Case {
        words: SECOND_FORM,
        parts: ONE_THEOREM,
        output: b"mmdepend 2\naxioms 3\ntheorems 1\nmatrix\na1i:e\nend\n",
    },
    Case {
        words: SECOND_FORM,
        parts: MENTIONING,
        output: b"mmdepend 2\naxioms 4\ntheorems 1\nmatrix\na1i:e\nend\n",
    },
    Case {
        words: &["mmdepend", "--form", "2"],
        parts: &[NO_CITATIONS],
        output: b"mmdepend 2\naxioms 0\ntheorems 1\nmatrix\nsame:\ncounts\nsame:0\nusage\nend\n",
    },
];

/// The matrix of seventy axioms in the second form.
const SEVENTY_DIGITS: &[u8] =
    b"mmdepend 2\naxioms 70\ntheorems 2\nmatrix\nt:800000000000000184\nu:c00000000000000184\nend\n";

#[test]
fn the_second_form(rt: HostRuntime) {
    let alloc = rt.alloc();
    assert_all_write(&rt, alloc, &SECOND_FORM_CASES);
    let text = seventy_axioms_text(alloc);
    assert!(&rt; writes_for(&rt, alloc, SECOND_FORM, text, SEVENTY_DIGITS));
}

const CITATIONS: &[&str] = &["mmdepend", "--report", "citations"];

const LOGICAL_CITATIONS: &[&str] = &["mmdepend", "--report", "citations", "--only", "|-"];

const ESSENTIAL_CITATIONS: &[&str] = &["mmdepend", "--report", "citations", "--essential"];

/// Runs that report direct citations.
const CITATIONS_CASES: [Case<'static>; 8] = [
    Case {
        words: CITATIONS,
        parts: TWO_THEOREMS,
        output: b"mmdepend 1\naxioms 3\ntheorems 2\ncitations\na1i:3:wi ax-1 ax-mp\na2:2:wi a1i\nend\n",
    },
    Case {
        words: LOGICAL_CITATIONS,
        parts: TWO_THEOREMS,
        output: b"mmdepend 1\naxioms 2\ntheorems 2\ncitations\na1i:2:ax-1 ax-mp\na2:1:a1i\nend\n",
    },
    Case {
        words: ESSENTIAL_CITATIONS,
        parts: TWO_THEOREMS,
        output: b"mmdepend 1\naxioms 3\ntheorems 2\ncitations\na1i:2:ax-1 ax-mp\na2:1:a1i\nend\n",
    },
    Case {
        words: &["mmdepend", "--report", "citations", "--only", "x"],
        parts: ONE_THEOREM,
        output: b"mmdepend 1\naxioms 0\ntheorems 1\ncitations\na1i:0:\nend\n",
    },
    Case {
        words: CITATIONS,
        parts: &[],
        output: b"mmdepend 1\naxioms 0\ntheorems 0\ncitations\nend\n",
    },
    Case {
        words: &["mmdepend", "--report", "citations", "--form", "2"],
        parts: &[FIRST_TEXT],
        output: b"mmdepend 2\naxioms 2\ntheorems 1\ncitations\nwi2:1:wi\nend\n",
    },
    Case {
        words: &["mmdepend", "--report", "citations,matrix", "--form", "2"],
        parts: TWO_THEOREMS,
        output: b"mmdepend 2\naxioms 3\ntheorems 2\nmatrix\na1i:e\na2:e\ncitations\na1i:3:wi ax-1 ax-mp\na2:2:wi a1i\nend\n",
    },
    Case {
        words: &[
            "mmdepend",
            "--report",
            "citations,usage,usage",
            "--only",
            "|-",
        ],
        parts: TWO_THEOREMS,
        output: b"mmdepend 1\naxioms 2\ntheorems 2\nusage\nax-1:2:a1i a2\nax-mp:2:a1i a2\ncitations\na1i:2:ax-1 ax-mp\na2:1:a1i\nend\n",
    },
];

#[test]
fn direct_citations(rt: HostRuntime) {
    assert_all_write(&rt, rt.alloc(), &CITATIONS_CASES);
}

/// A theorem whose proof repeats its third step, a formula that it uses twice.
const REPEATING: &[u8] = b"twice $p wff ( ( p -> q ) -> ( p -> q ) ) $= ( wi ) ABCZDC $.\n";

/// Runs that report the steps of proofs.
const PROOFS_CASES: [Case<'static>; 4] = [
    Case {
        words: &["mmdepend", "--report", "proofs"],
        parts: TWO_THEOREMS,
        output: b"mmdepend 1\naxioms 3\ntheorems 2\nproofs\na1i:9:wp wq wp wi h wp wq ax-1 ax-mp\na2:9:wq wp wi wq wp wq g a1i a1i\nend\n",
    },
    Case {
        words: &["mmdepend", "--report", "proofs"],
        parts: &[BASE, REPEATING],
        output: b"mmdepend 1\naxioms 2\ntheorems 1\nproofs\ntwice:5:wp wq wi *3 wi\nend\n",
    },
    Case {
        words: &["mmdepend", "--open", "--report", "counts,proofs"],
        parts: OPEN,
        output: b"mmdepend 1\naxioms 4\nopen 1\ntheorems 1\ncounts\nu:1\nproofs\nu:2:wp o\nend\n",
    },
    Case {
        words: &[
            "mmdepend",
            "--only",
            "wff",
            "--report",
            "statements,proofs,citations",
        ],
        parts: &[BASE, REPEATING],
        output: b"mmdepend 1\naxioms 1\ntheorems 1\ncitations\ntwice:1:wi\nproofs\ntwice:5:wp wq wi *3 wi\nstatements\nwi:a:60:83: $f wp wff p $f wq wff q $a wff ( p -> q )\ntwice:p:118:179: $f wp wff p $f wq wff q $p wff ( ( p -> q ) -> ( p -> q ) )\nend\n",
    },
];

#[test]
fn steps_of_proofs_are_told(rt: HostRuntime) {
    assert_all_write(&rt, rt.alloc(), &PROOFS_CASES);
}

/// Two blocks with `$f` of their own for the same variables. The formula of `one` is empty behind
/// its typecode. The proofs of `p` and `q` have the dummy variable `z`, and `o` is an open theorem.
const TWO_BLOCKS: &[u8] =
    b"$c wff |- $. $v x y z $.\n${ fx $f wff x $. fy $f wff y $. fz $f wff z $. $d x y z $. e $e |- x y $. ax $a |- y $. $}\n${ gx $f wff x $. gz $f wff z $. $d x z $. one $a wff $. two $a |- x $.\n${ m $e |- z $. cut $a |- x $. $}\np $p |- x $= gx gz gz two cut $.\nq $p |- x $= ( gz two cut ) ABBCD $.\no $p |- x $= ? $. $}\n";

/// Runs that report what the assertions say.
const STATEMENTS_CASES: [Case<'static>; 5] = [
    Case {
        words: &["mmdepend", "--report", "statements"],
        parts: &[],
        output: b"mmdepend 1\naxioms 0\ntheorems 0\nstatements\nend\n",
    },
    Case {
        words: &["mmdepend", "--report", "statements"],
        parts: TWO_THEOREMS,
        output: b"mmdepend 1\naxioms 3\ntheorems 2\nstatements\nwi:a:60:83: $f wp wff p $f wq wff q $a wff ( p -> q )\nax-1:a:84:117: $f wp wff p $f wq wff q $a |- ( p -> ( q -> p ) )\nax-mp:a:160:176: $f wp wff p $f wq wff q $e min |- p $e maj |- ( p -> q ) $a |- q\na1i:p:196:253: $f wp wff p $f wq wff q $e h |- p $p |- ( q -> p )\na2:p:273:335: $f wp wff p $f wq wff q $e g |- p $p |- ( q -> ( q -> p ) )\nend\n",
    },
    Case {
        words: &["mmdepend", "--open", "--report", "statements"],
        parts: &[TWO_BLOCKS],
        output: b"mmdepend 1\naxioms 5\nopen 1\ntheorems 2\nstatements\nax:a:100:113: $f fx wff x $f fy wff y $e e |- x y $d x y $a |- y\none:a:160:173: $a wff\ntwo:a:174:188: $f gx wff x $a |- x\ncut:a:205:219: $f gx wff x $f gz wff z $e m |- z $d x z $a |- x\np:p:223:255: $f gx wff x $v z $d x z $p |- x\nq:p:256:292: $f gx wff x $v z $d x z $p |- x\no:o:293:310: $f gx wff x $p |- x\nend\n",
    },
    Case {
        words: &[
            "mmdepend",
            "--open",
            "--only",
            "wff",
            "--report",
            "statements",
        ],
        parts: &[TWO_BLOCKS],
        output: b"mmdepend 1\naxioms 1\nopen 0\ntheorems 2\nstatements\none:a:160:173: $a wff\nend\n",
    },
    Case {
        words: &[
            "mmdepend",
            "--open",
            "--only",
            "wff",
            "--form",
            "2",
            "--report",
            "statements,citations,matrix",
        ],
        parts: &[TWO_BLOCKS],
        output: b"mmdepend 2\naxioms 1\nopen 0\ntheorems 2\nmatrix\np:0\nq:0\ncitations\np:0:\nq:0:\nstatements\none:a:160:173: $a wff\nend\n",
    },
];

#[test]
fn statements_are_told(rt: HostRuntime) {
    assert_all_write(&rt, rt.alloc(), &STATEMENTS_CASES);
}

/// An open theorem, `o`, and one that cites it, `u`.
const OPEN: &[&[u8]] = &[
    BASE,
    DETACHMENT,
    b"o $p |- ( p -> p ) $= ? $.\nu $p |- ( p -> p ) $= wp o $.\n",
];

/// The same, with the proof of `o` in the other form.
const OPEN_IN_BRACKETS: &[&[u8]] = &[
    BASE,
    DETACHMENT,
    b"o $p |- ( p -> p ) $= ( ) ? $.\nu $p |- ( p -> p ) $= wp o $.\n",
];

const OPEN_REPORT: &[u8] =
    b"mmdepend 1\naxioms 4\nopen 1\ntheorems 1\nmatrix\nu:0001\ncounts\nu:1\nusage\nwi:0:\nax-1:0:\nax-mp:0:\no:1:u\nend\n";

const OPEN_REPORT_IN_THE_SECOND_FORM: &[u8] =
    b"mmdepend 2\naxioms 4\nopen 1\ntheorems 1\nmatrix\nu:1\ncounts\nu:1\nusage\nwi:0:\nax-1:0:\nax-mp:0:\no:1:u\nend\n";

const WORDS_WITH_OPEN: &[&str] = &["mmdepend", "--open"];

/// Runs with open theorems. The citation by which `u` rests on `o` is essential, so the flag for
/// these changes nothing.
const OPEN_CASES: [Case<'static>; 8] = [
    Case {
        words: WORDS_WITH_OPEN,
        parts: OPEN,
        output: OPEN_REPORT,
    },
    Case {
        words: WORDS_WITH_OPEN,
        parts: OPEN_IN_BRACKETS,
        output: OPEN_REPORT,
    },
    Case {
        words: &["mmdepend", "--open", "--only", "wff", "--report", "counts"],
        parts: OPEN,
        output: b"mmdepend 1\naxioms 1\nopen 0\ntheorems 1\ncounts\nu:0\nend\n",
    },
    Case {
        words: &["mmdepend", "--open", "--only", "|-", "--report", "counts"],
        parts: OPEN,
        output: b"mmdepend 1\naxioms 3\nopen 1\ntheorems 1\ncounts\nu:1\nend\n",
    },
    Case {
        words: WORDS_WITH_OPEN,
        parts: &[],
        output: b"mmdepend 1\naxioms 0\nopen 0\ntheorems 0\nmatrix\ncounts\nusage\nend\n",
    },
    Case {
        words: &["mmdepend", "--open", "--form", "2"],
        parts: OPEN,
        output: OPEN_REPORT_IN_THE_SECOND_FORM,
    },
    Case {
        words: &["mmdepend", "--open", "--form", "2", "--essential"],
        parts: OPEN,
        output: OPEN_REPORT_IN_THE_SECOND_FORM,
    },
    Case {
        words: &["mmdepend", "--open", "--report", "citations"],
        parts: OPEN,
        output: b"mmdepend 1\naxioms 4\nopen 1\ntheorems 1\ncitations\nu:1:o\nend\n",
    },
];

#[test]
fn open_theorems_are_columns(rt: HostRuntime) {
    assert_all_write(&rt, rt.alloc(), &OPEN_CASES);
}

/// Runs whose proofs are incomplete.
const INCOMPLETE_CASES: [Case<'static>; 3] = [
    Case {
        words: NO_OPTIONS,
        parts: OPEN,
        output: b"refused 8:23 E32\n",
    },
    Case {
        words: WORDS_WITH_OPEN,
        parts: &[BASE, DETACHMENT, b"v $p |- ( p -> p ) $= wp ? $.\n"],
        output: b"refused 8:26 E32\n",
    },
    Case {
        words: WORDS_WITH_OPEN,
        parts: &[BASE, DETACHMENT, b"v $p |- ( p -> p ) $= ? ? $.\n"],
        output: b"refused 8:23 E32\n",
    },
];

#[test]
fn other_incomplete_proofs_are_refused(rt: HostRuntime) {
    assert_all_write(&rt, rt.alloc(), &INCOMPLETE_CASES);
}

/// The report on seventy axioms and two theorems: a row of marks for each, and the axioms that they
/// rest on with their users.
fn seventy_report(alloc: Global) -> Result<Vec<u8>, AllocError> {
    let mut text = joined(alloc, &[b"mmdepend 1\naxioms 70\ntheorems 2\nmatrix\n"])?;
    for (label, others) in [(b't', [0, 63, 64, 69, 0]), (b'u', [0, 1, 63, 64, 69])] {
        text.push(label)?;
        text.push(b':')?;
        for k in 0..70 {
            text.push(if others.contains(&k) { b'1' } else { b'0' })?;
        }
        text.push(b'\n')?;
    }
    text.extend_from_slice(b"counts\nt:4\nu:5\nusage\n")?;
    for k in 0..70 {
        text.push(b'a')?;
        add_number(&mut text, k)?;
        text.extend_from_slice(match k {
            0 | 63 | 64 | 69 => b":2:t u\n".as_slice(),
            1 => b":1:u\n".as_slice(),
            _ => b":0:\n".as_slice(),
        })?;
    }
    text.extend_from_slice(b"end\n")?;
    Ok(text)
}

/// Whether a run writes this report for the text, if there is memory for both.
fn is_reported<R: Threads + Wait + Sync>(
    rt: &R,
    alloc: Global,
    words: &[&str],
    text: Result<Vec<u8>, AllocError>,
    report: Result<Vec<u8>, AllocError>,
) -> bool {
    match report {
        Ok(report) => writes_for(rt, alloc, words, text, &report),
        Err(_) => false,
    }
}

#[test]
fn rows_of_more_than_a_word(rt: HostRuntime) {
    let alloc = rt.alloc();
    let text = seventy_axioms_text(alloc);
    assert!(&rt; is_reported(&rt, alloc, NO_OPTIONS, text, seventy_report(alloc)));
}

/// The matrix of a chain of theorems.
fn chain_report(alloc: Global) -> Result<Vec<u8>, AllocError> {
    let mut report = joined(alloc, &[b"mmdepend 1\naxioms 2\ntheorems 130\nmatrix\n"])?;
    for k in 0..130 {
        report.push(b't')?;
        add_number(&mut report, k)?;
        report.extend_from_slice(b":10\n")?;
    }
    report.extend_from_slice(b"end\n")?;
    Ok(report)
}

#[test]
fn a_chain_has_the_same_row_all_along(rt: HostRuntime) {
    let alloc = rt.alloc();
    let words = ["mmdepend", "--report", "matrix"];
    assert!(&rt; is_reported(&rt, alloc, &words, chain_text(alloc), chain_report(alloc)));
}

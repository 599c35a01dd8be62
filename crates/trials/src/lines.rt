//! Tests of command lines: what the words say, and the texts of help and of faults.

use crate::flags::{BY_ALL_NODES, BY_ESSENTIAL_NODES, WITH_OPEN, WITHOUT_OPEN};
use mm_line::{LineRefused, line};
use mm_plan::Cutting;
use mm_spec::{Code, Form, Sections};
use std::alloc::{AllocError, Global};

/// What `--help` prints.
const HELP: &str =
    "Verifies a Metamath database and reports on which axioms each theorem rests\n\nUsage: mmdepend [OPTIONS] [FILE]\n\nArguments:\n  [FILE]  The database; without it, or where it is -, the standard input is read\n\nOptions:\n      --workers <N>    Check the proofs by N threads, 1 to 64 [default: 4]\n      --pieces <N>     Read the text in N pieces, 1 to 64 [default: 4]\n      --only <T>       Report on the axioms of typecode T alone, such as '|-'\n      --report <PART>  Write these parts of the report, with commas between them: matrix, counts, usage, citations, proofs, statements, or all, which is the first three [default: all]\n      --form <N>       Write the matrix as a digit for each column, or for each four [default: 1] [possible values: 1, 2]\n      --essential      Count what the logical part of a proof cites, and not what builds its formulas\n      --open           Count a theorem whose proof is ? as an axiom\n      --against <OLD>  Write what FILE has and OLD hasn't, and the other way round, in place of the report\n      --and-report     With --against, write the report on FILE behind that, as --report asks for it\n  -h, --help           Print help\n  -V, --version        Print version\n\nThe standard output gets the report, or one line with the first fault and its place.\nStatus: 0 accepted, 1 refused, 2 invalid command line, 3 reading or writing failed,\n4 out of memory. For 2 to 4 the standard error says why.\nThe codes of faults (E00 to E45) are explained in docs/FAULTS.md.\n";

/// The number of pieces and of workers of a line that names none.
const DEFAULT: u32 = 4;

/// Whether the words are accepted with these values.
fn is_line_of(
    alloc: Global,
    words: &[&str],
    pieces: u32,
    workers: u32,
    only: Option<&str>,
    sections: Sections,
    file: Option<&str>,
) -> bool {
    match line(alloc, words) {
        Ok(line) => {
            let is_cut_so = match &line.plan.cuts {
                Cutting::Count(count) => *count == pieces,
                Cutting::Places(_) => false,
            };
            is_cut_so
                && line.plan.workers == workers
                && line.plan.only.as_deref() == only
                && line.plan.choice == sections
                && line.file.as_deref() == file
        }
        Err(_) => false,
    }
}

/// Whether the words are accepted with the usual numbers of pieces and of workers, and these
/// sections, and name this file.
fn is_usual_line_of(alloc: Global, words: &[&str], sections: Sections, file: Option<&str>) -> bool {
    is_line_of(alloc, words, DEFAULT, DEFAULT, None, sections, file)
}

#[test]
fn defaults_stand_for_what_is_left_out(rt: HostRuntime) {
    let alloc = rt.alloc();
    let sections = Sections::by_default();
    assert!(&rt;
        is_usual_line_of(alloc, &["mmdepend"], sections, None)
            && is_usual_line_of(alloc, &["mmdepend", "set.mm"], sections, Some("set.mm"))
    );
}

/// Words with options before and after the file.
const AROUND_THE_FILE: &[&str] = &[
    "mmdepend",
    "--workers",
    "64",
    "--pieces=1",
    "set.mm",
    "--only",
    "|-",
    "--report",
    "usage",
];

#[test]
fn options_stand_before_and_after_the_file(rt: HostRuntime) {
    let alloc = rt.alloc();
    let usage = Sections {
        usage: true,
        ..Sections::none()
    };
    let after = ["mmdepend", "--", "--help"];
    assert!(&rt;
        is_line_of(
            alloc,
            AROUND_THE_FILE,
            1,
            64,
            Some("|-"),
            usage,
            Some("set.mm")
        ) && is_usual_line_of(alloc, &after, Sections::by_default(), Some("--help"))
    );
}

/// What `--report` is given, and whether this asks for the matrix, the counts, the usage, the
/// citations, the proofs and the statements.
const REPORTS: [(&str, bool, bool, bool, bool, bool, bool); 13] = [
    ("all", true, true, true, false, false, false),
    ("matrix", true, false, false, false, false, false),
    ("counts", false, true, false, false, false, false),
    ("usage", false, false, true, false, false, false),
    ("citations", false, false, false, true, false, false),
    ("proofs", false, false, false, false, true, false),
    ("statements", false, false, false, false, false, true),
    ("citations,matrix", true, false, false, true, false, false),
    ("counts,counts", false, true, false, false, false, false),
    ("citations,all", true, true, true, true, false, false),
    ("usage,all,usage", true, true, true, false, false, false),
    (
        "statements,matrix,statements",
        true,
        false,
        false,
        false,
        false,
        true,
    ),
    (
        "statements,proofs,citations,usage,counts,matrix",
        true,
        true,
        true,
        true,
        true,
        true,
    ),
];

#[test]
fn each_part_that_is_named_is_written(rt: HostRuntime) {
    for (word, matrix, counts, usage, citations, proofs, statements) in &REPORTS {
        let sections = Sections {
            matrix: *matrix,
            counts: *counts,
            usage: *usage,
            citations: *citations,
            proofs: *proofs,
            statements: *statements,
        };
        let words = ["mmdepend", "--report", *word];
        assert!(&rt;
            is_usual_line_of(rt.alloc(), &words, sections, None),
            "{word}"
        );
    }
}

/// Words, and the form, the nodes and the open theorems that they ask for.
const REPORT_OPTIONS: [(&[&str], Form, bool, bool); 5] = [
    (&["mmdepend"], Form::One, BY_ALL_NODES, WITHOUT_OPEN),
    (
        &["mmdepend", "--essential"],
        Form::One,
        BY_ESSENTIAL_NODES,
        WITHOUT_OPEN,
    ),
    (
        &["mmdepend", "--form", "2"],
        Form::Two,
        BY_ALL_NODES,
        WITHOUT_OPEN,
    ),
    (&["mmdepend", "--open"], Form::One, BY_ALL_NODES, WITH_OPEN),
    (
        &["mmdepend", "--form=1", "--essential", "-"],
        Form::One,
        BY_ESSENTIAL_NODES,
        WITHOUT_OPEN,
    ),
];

/// Whether the words are accepted, with this name of the file that is compared with, and ask for the
/// report besides or not.
fn is_compared_with(
    alloc: Global,
    words: &[&str],
    against: Option<&str>,
    and_report: bool,
    file: Option<&str>,
) -> bool {
    match line(alloc, words) {
        Ok(line) => {
            line.against.as_deref() == against
                && line.plan.and_report == and_report
                && line.file.as_deref() == file
        }
        Err(_) => false,
    }
}

#[test]
fn the_file_that_is_compared_with(rt: HostRuntime) {
    let alloc = rt.alloc();
    let both = ["mmdepend", "--against", "old.mm", "new.mm"];
    let reported = ["mmdepend", "--and-report", "--against", "old.mm"];
    assert!(&rt;
        is_compared_with(alloc, &["mmdepend", "new.mm"], None, false, Some("new.mm"))
            && is_compared_with(alloc, &both, Some("old.mm"), false, Some("new.mm"))
            && is_compared_with(alloc, &["mmdepend", "--against=-"], Some("-"), false, None)
            && is_compared_with(alloc, &reported, Some("old.mm"), true, None)
    );
}

/// Whether the words are accepted, and ask for this form, these nodes and these open theorems.
fn has_options(
    alloc: Global,
    words: &[&str],
    form: Form,
    essential: bool,
    with_open: bool,
) -> bool {
    match line(alloc, words) {
        Ok(line) => {
            line.plan.form == form
                && line.plan.essential == essential
                && line.plan.with_open == with_open
        }
        Err(_) => false,
    }
}

#[test]
fn options_of_the_report(rt: HostRuntime) {
    for (row, (words, form, essential, with_open)) in REPORT_OPTIONS.iter().enumerate() {
        let is_right = has_options(rt.alloc(), words, *form, *essential, *with_open);
        assert!(&rt; is_right, "row {row}");
    }
}

/// The texts of some codes.
const CODE_TEXTS: [(Code, &str); 3] = [
    (Code::TextTooLong, "E00"),
    (Code::UnopenedBlock, "E09"),
    (Code::NumberTooLarge, "E45"),
];

/// Whether a code is printed as this text.
fn is_printed_as(alloc: Global, code: Code, text: &str) -> Result<bool, AllocError> {
    let printed = format!(in alloc; "{code}")?;
    Ok(printed.as_str() == text)
}

#[test]
fn a_code_has_two_digits(rt: HostRuntime) {
    for (code, text) in &CODE_TEXTS {
        assert!(&rt;
            is_printed_as(rt.alloc(), *code, text).unwrap_or(false),
            "{text}"
        );
    }
}

/// The text with which the words are refused, and whether it is help.
fn refusal(alloc: Global, words: &[&str]) -> Option<(bool, String)> {
    match line(alloc, words) {
        Err(LineRefused::Help(text)) => Some((true, text)),
        Err(LineRefused::Bad(text)) => Some((false, text)),
        _ => None,
    }
}

/// Whether the words are refused with this text, which is help or tells a fault.
fn is_refused_with(alloc: Global, words: &[&str], is_help: bool, text: &str) -> bool {
    match refusal(alloc, words) {
        Some((is_told_as_help, told)) => is_told_as_help == is_help && told.as_str() == text,
        None => false,
    }
}

/// Words that are refused, and the texts that tell why.
const FAULTS: [(&[&str], &str); 12] = [
    (
        &["mmdepend", "--workers", "0"],
        "error: invalid value '0' for '--workers <N>': 0 is not in 1..=64\n\nFor more information, try '--help'.\n",
    ),
    (
        &["mmdepend", "--workers", "65", "x.mm"],
        "error: invalid value '65' for '--workers <N>': 65 is not in 1..=64\n\nFor more information, try '--help'.\n",
    ),
    (
        &["mmdepend", "--workers", "four"],
        "error: invalid value 'four' for '--workers <N>': invalid digit found in string\n\nFor more information, try '--help'.\n",
    ),
    (
        &["mmdepend", "--pieces", "65"],
        "error: invalid value '65' for '--pieces <N>': 65 is not in 1..=64\n\nFor more information, try '--help'.\n",
    ),
    (
        &["mmdepend", "--report", "none"],
        "error: invalid value 'none' for '--report <PART>'\n  [possible values: all, matrix, counts, usage, citations, proofs, statements]\n\nFor more information, try '--help'.\n",
    ),
    (
        &["mmdepend", "--report", "matrix,none,usage"],
        "error: invalid value 'matrix,none,usage' for '--report <PART>'\n  [possible values: all, matrix, counts, usage, citations, proofs, statements]\n\n  tip: a similar value exists: 'matrix'\n\nFor more information, try '--help'.\n",
    ),
    (
        &["mmdepend", "--report", "matrix,"],
        "error: invalid value 'matrix,' for '--report <PART>'\n  [possible values: all, matrix, counts, usage, citations, proofs, statements]\n\n  tip: a similar value exists: 'matrix'\n\nFor more information, try '--help'.\n",
    ),
    (
        &["mmdepend", "--report", "none", "--help"],
        "error: invalid value 'none' for '--report <PART>'\n  [possible values: all, matrix, counts, usage, citations, proofs, statements]\n\nFor more information, try '--help'.\n",
    ),
    (
        &["mmdepend", "a.mm", "b.mm"],
        "error: unexpected argument 'b.mm' found\n\nUsage: mmdepend [OPTIONS] [FILE]\n\nFor more information, try '--help'.\n",
    ),
    (
        &["mmdepend", "--threads", "2"],
        "error: unexpected argument '--threads' found\n\n  tip: to pass '--threads' as a value, use '-- --threads'\n\nUsage: mmdepend [OPTIONS] [FILE]\n\nFor more information, try '--help'.\n",
    ),
    (
        &["mmdepend", "--only"],
        "error: a value is required for '--only <T>' but none was supplied\n\nFor more information, try '--help'.\n",
    ),
    (
        &["mmdepend", "--only", "|-", "--only", "wff"],
        "error: the argument '--only <T>' cannot be used multiple times\n\nUsage: mmdepend [OPTIONS] [FILE]\n\nFor more information, try '--help'.\n",
    ),
];

#[test]
fn faults_are_told_by_their_texts(rt: HostRuntime) {
    for (row, (words, text)) in FAULTS.iter().enumerate() {
        assert!(&rt;
            is_refused_with(rt.alloc(), words, false, text),
            "row {row}"
        );
    }
}

#[test]
fn help_has_a_line_for_each_argument(rt: HostRuntime) {
    for word in ["--help", "-h"] {
        assert!(&rt;
            is_refused_with(rt.alloc(), &["mmdepend", word], true, HELP),
            "{word}"
        );
    }
}

/// Whether the words are answered by the version.
fn is_version_told(alloc: Global, words: &[&str]) -> bool {
    match refusal(alloc, words) {
        Some((is_help, told)) => {
            is_help
                && told.as_str().starts_with("mmdepend 0.1.0, proved with ")
                && told.as_str().ends_with("\n")
        }
        None => false,
    }
}

#[test]
fn the_version_is_told(rt: HostRuntime) {
    for word in ["--version", "-V"] {
        assert!(&rt; is_version_told(rt.alloc(), &["mmdepend", word]), "{word}");
    }
}

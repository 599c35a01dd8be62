//! Tests of the program: its statuses, its messages, and what it writes if a reader or a writer
//! fails.

use crate::{LineRefused, line, status};
use std::alloc::Global;
use std::io::{ErrorKind, Read, Write};
use std::rt::Files;
use std::sync::Wait;
use std::test::Fail;
use std::thread::Threads;
use std::{env, fs, io};

/// The text of the program's example, and the report on it.
const FIRST: &[u8] =
    b"$c wff |- ( -> ) $.\n$v p q $.\nwp $f wff p $.\nwq $f wff q $.\nwi $a wff ( p -> q ) $.\nax-1 $a |- ( p -> ( q -> p ) ) $.\nwi2 $p wff ( p -> ( q -> p ) ) $= wp wq wp wi wi $.\n";

const FIRST_REPORT: &[u8] =
    b"mmdepend 1\naxioms 2\ntheorems 1\nmatrix\nwi2:10\ncounts\nwi2:1\nusage\nwi:1:wi2\nax-1:0:\nend\n";

/// The status of a run that couldn't read, and of one that couldn't write.
const READ_FAILED: u8 = 3;

const WRITE_FAILED: u8 = 3;

/// A reader that fails at its first read.
#[derive(Drop)]
struct FailingReader {}

impl Read for FailingReader {
    fn read(&mut self, _: &mut [u8]) -> io::Result<usize> {
        Err(io::Error::from(ErrorKind::Other))
    }
}

/// A writer that takes one byte a call, up to a given number of bytes. After that its calls fail or
/// take nothing.
#[derive(Drop)]
struct LimitedWriter {
    /// How many bytes it still takes.
    bytes_left: usize,
    /// Whether calls after that fail.
    fails: bool,
}

/// A writer that fails from its first call on.
fn failing_writer() -> LimitedWriter {
    LimitedWriter {
        bytes_left: 0,
        fails: true,
    }
}

impl Write for LimitedWriter {
    fn write(&mut self, bytes: &[u8]) -> io::Result<usize> {
        if self.bytes_left > 0 && !bytes.is_empty() {
            self.bytes_left -= 1;
            return Ok(1);
        }
        if self.fails {
            return Err(io::Error::from(ErrorKind::BrokenPipe));
        }
        Ok(0)
    }

    fn flush(&mut self) -> io::Result<()> {
        Ok(())
    }
}

/// The text with which the words are refused, and whether it is help.
fn refusal(alloc: Global, words: &[&str]) -> Option<(bool, String)> {
    match line(alloc, words) {
        Err(LineRefused::Help(text)) => Some((true, text)),
        Err(LineRefused::Bad(text)) => Some((false, text)),
        _ => None,
    }
}

/// Whether the program, on these words and this input, has this status and writes these outputs.
fn is_run_of<R: Threads + Wait + Files + Sync + AllocGlobal, I: Read + Drop>(
    rt: &R,
    words: &[&str],
    mut input: I,
    exit_status: u8,
    output: &[u8],
    errors: &[u8],
) -> bool {
    let mut written = Vec::new(rt.alloc());
    let mut message = Vec::new(rt.alloc());
    let ended_with = status(
        rt,
        rt.alloc(),
        words,
        &mut input,
        &mut written,
        &mut message,
    );
    ended_with == exit_status && written.as_slice() == output && message.as_slice() == errors
}

#[test]
fn a_report_and_a_refusal(rt: HostRuntime) {
    let words = ["mmdepend"];
    assert!(&rt; is_run_of(&rt, &words, FIRST, 0, FIRST_REPORT, b""));
    assert!(&rt; is_run_of(&rt, &["mmdepend", "-"], FIRST, 0, FIRST_REPORT, b""));
    let unended = b"$c".as_slice();
    assert!(&rt; is_run_of(&rt, &words, unended, 1, b"refused 1:3 E08\n", b""));
}

#[test]
fn options_choose_workers_pieces_columns_and_sections(rt: HostRuntime) {
    let words = [
        "mmdepend",
        "--workers",
        "64",
        "--pieces",
        "64",
        "--only",
        "|-",
        "--report",
        "counts",
    ];
    let counts = b"mmdepend 1\naxioms 1\ntheorems 1\ncounts\nwi2:0\nend\n".as_slice();
    assert!(&rt; is_run_of(&rt, &words, FIRST, 0, counts, b""));
}

#[test]
fn words_that_are_no_line(rt: HostRuntime) {
    for (words, exit_status) in [
        (["mmdepend", "--workers", "65", "x.mm"].as_slice(), 2u8),
        (&["mmdepend", "--workers", "0"], 2),
        (&["mmdepend", "--pieces", "65", "x.mm"], 2),
        (&["mmdepend", "a.mm", "b.mm"], 2),
        (&["mmdepend", "--help"], 0),
        (&["mmdepend", "--version"], 0),
    ] {
        match refusal(rt.alloc(), words) {
            Some((true, help)) => {
                assert!(&rt; is_run_of(&rt, words, FIRST, exit_status, help.as_bytes(), b""));
            }
            Some((false, message)) => {
                assert!(&rt; is_run_of(&rt, words, FIRST, exit_status, b"", message.as_bytes()));
            }
            None => assert!(&rt; false),
        }
    }
}

// Where a file is named, standard input isn't read: that it would fail changes nothing. Where none
// is named, its failure is reported.
#[test]
fn files_that_cannot_be_opened_or_read(rt: HostRuntime) {
    let unopened = b"mmdepend: cannot open the file\n".as_slice();
    let missing = ["mmdepend", "no/such/file.mm"];
    assert!(&rt; is_run_of(&rt, &missing, FailingReader {}, READ_FAILED, b"", unopened));
    let unread = b"mmdepend: reading failed\n".as_slice();
    assert!(&rt; is_run_of(&rt, &["mmdepend", "/"], FIRST, READ_FAILED, b"", unread));
    assert!(&rt;
        is_run_of(
            &rt,
            &["mmdepend"],
            FailingReader {},
            READ_FAILED,
            b"",
            unread
        )
    );
}

#[test]
fn a_file_is_read_in_place_of_the_input(rt: HostRuntime) -> Result<(), Fail> {
    let mut path = env::temp_dir(&rt)?;
    path.push("mmdepend-first.mm")?;
    let name = path.as_str();
    fs::write(&rt, name, FIRST)?;
    let words = ["mmdepend", name];
    let is_read = is_run_of(&rt, &words, FailingReader {}, 0, FIRST_REPORT, b"");
    fs::remove_file(&rt, name)?;
    assert!(&rt; is_read);
    Ok(())
}

/// What is written of a database that is compared with itself.
const NO_DIFFERENCES: &[u8] = b"mmdepend-differences 1\nnew\ngone\ngained\nlost\nend\n";

/// The same, and behind it the report.
const DIFFERENCES_AND_REPORT: &[u8] =
    b"mmdepend-differences 1\nnew\ngone\ngained\nlost\nend\nmmdepend 1\naxioms 2\ntheorems 1\nmatrix\nwi2:10\ncounts\nwi2:1\nusage\nwi:1:wi2\nax-1:0:\nend\n";

// OLD is a file and NEW the input, or the other way round, or both are files; both can't be the
// input.
#[test]
fn two_databases_are_compared(rt: HostRuntime) -> Result<(), Fail> {
    let mut path = env::temp_dir(&rt)?;
    path.push("mmdepend-compared.mm")?;
    let name = path.as_str();
    fs::write(&rt, name, FIRST)?;
    let with_input = is_run_of(
        &rt,
        &["mmdepend", "--against", name],
        FIRST,
        0,
        NO_DIFFERENCES,
        b"",
    );
    let words = ["mmdepend", "--against", "-", name];
    let input_is_old = is_run_of(&rt, &words, FIRST, 0, NO_DIFFERENCES, b"");
    let words = ["mmdepend", "--against", name, name];
    let both_are_files = is_run_of(&rt, &words, FailingReader {}, 0, NO_DIFFERENCES, b"");
    let refusal = b"new refused 1:3 E08\n".as_slice();
    let unended = b"$c".as_slice();
    let is_refused = is_run_of(
        &rt,
        &["mmdepend", "--against", name],
        unended,
        1,
        refusal,
        b"",
    );
    fs::remove_file(&rt, name)?;
    assert!(&rt; with_input);
    assert!(&rt; input_is_old);
    assert!(&rt; both_are_files);
    assert!(&rt; is_refused);
    Ok(())
}

// The report on NEW stands behind the differences as a run on NEW alone writes it, with its
// sections. A refusal stands alone.
#[test]
fn the_report_behind_the_differences(rt: HostRuntime) -> Result<(), Fail> {
    let mut path = env::temp_dir(&rt)?;
    path.push("mmdepend-reported.mm")?;
    let name = path.as_str();
    fs::write(&rt, name, FIRST)?;
    let words = ["mmdepend", "--against", name, "--and-report"];
    let with_report = is_run_of(&rt, &words, FIRST, 0, DIFFERENCES_AND_REPORT, b"");
    let refusal = b"new refused 1:3 E08\n".as_slice();
    let unended = b"$c".as_slice();
    let is_refused = is_run_of(&rt, &words, unended, 1, refusal, b"");
    fs::remove_file(&rt, name)?;
    assert!(&rt; with_report);
    assert!(&rt; is_refused);
    Ok(())
}

#[test]
fn two_databases_that_cannot_be_compared(rt: HostRuntime) {
    let both = b"mmdepend: only one of two databases can be the standard input\n".as_slice();
    assert!(&rt; is_run_of(&rt, &["mmdepend", "--against", "-"], FIRST, 2, b"", both));
    let unopened = b"mmdepend: cannot open the file\n".as_slice();
    let words = ["mmdepend", "--against", "no/such/file.mm"];
    assert!(&rt; is_run_of(&rt, &words, FIRST, READ_FAILED, b"", unopened));
    let words = ["mmdepend", "--against", "-", "no/such/file.mm"];
    assert!(&rt; is_run_of(&rt, &words, FIRST, READ_FAILED, b"", unopened));
    let alone = b"mmdepend: --and-report needs --against\n".as_slice();
    assert!(&rt; is_run_of(&rt, &["mmdepend", "--and-report"], FIRST, 2, b"", alone));
}

/// Whether the program, on these words and the first text, says that writing failed, with an output
/// that takes the given number of bytes.
fn is_stopped_writing<R: Threads + Wait + Files + Sync + AllocGlobal>(
    rt: &R,
    words: &[&str],
    bytes_left: usize,
    fails: bool,
) -> bool {
    let mut text = FIRST;
    let mut output = LimitedWriter { bytes_left, fails };
    let mut message = Vec::new(rt.alloc());
    let ended_with = status(rt, rt.alloc(), words, &mut text, &mut output, &mut message);
    ended_with == WRITE_FAILED
        && output.bytes_left == 0
        && message.as_slice() == b"mmdepend: writing failed\n".as_slice()
}

#[test]
fn an_output_that_is_closed(rt: HostRuntime) {
    for fails in [true, false] {
        for bytes_left in [0, 1, 42, 84] {
            assert!(&rt; is_stopped_writing(&rt, &["mmdepend"], bytes_left, fails));
            assert!(&rt; is_stopped_writing(&rt, &["mmdepend", "--help"], bytes_left, fails));
        }
    }
}

#[test]
fn a_message_that_cannot_be_written_leaves_the_status(rt: HostRuntime) {
    let alloc = rt.alloc();
    for (words, exit_status) in [
        (["mmdepend", "--pieces", "0"].as_slice(), 2u8),
        (&["mmdepend", "no/such/file.mm"], 3),
        (&["mmdepend", "/"], 3),
    ] {
        let mut text = FIRST;
        let mut written = Vec::new(alloc);
        let ended_with = status(
            &rt,
            alloc,
            words,
            &mut text,
            &mut written,
            &mut failing_writer(),
        );
        assert_eq!(rt; ended_with, exit_status);
        assert_eq!(rt; written.len(), 0);
    }
}

// What fails first decides. The status says so even if nothing else can.
#[test]
fn both_outputs_closed(rt: HostRuntime) {
    for words in [["mmdepend"].as_slice(), &["mmdepend", "--help"]] {
        let mut text = FIRST;
        let ended_with = status(
            &rt,
            rt.alloc(),
            words,
            &mut text,
            &mut failing_writer(),
            &mut failing_writer(),
        );
        assert_eq!(rt; ended_with, WRITE_FAILED);
    }
}

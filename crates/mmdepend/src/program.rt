//! The program, given a reader and two writers.

ghost use Rattle.std.specs.Prelude.{◌≡◌, IsSome, IsTrue, List, None, map, option_map};
ghost use Rattle.std.specs.String.{string_bytes};
ghost use Rattle.std.specs.Io.KnownBytes.{Appends};
ghost use Rattle.clap.specs.Walk.{Text};
ghost use Rattle.mm_plan.specs.Plans.{IsLawfulPlan};
ghost use Rattle.mm_line.specs.Lines.{AreReadAs};
ghost use Rattle.mmdepend.specs.Endings.{Ended, IsEndingOf, IsPrefixWritten, opened_name};
ghost use Rattle.mmdepend.specs.Endings.{opened_old_of};

use crate::ending::Ending;
use mm_against::run_against;
use mm_line::{Line, LineRefused, line};
use mm_report::write_whole;
use mm_run::run;
use std::alloc::Global;
use std::convert::AsStr;
use std::fs;
use std::io::{Read, Write};
use std::rt::Files;
use std::sync::Wait;
use std::thread::Threads;

/// Writes the text and returns `true`, or returns `false` after a failed write, when a prefix of
/// the text was written.
fn write_text<W: Write>(to: &mut W, text: &[u8]) -> bool
    ensures whole_is_written { IsTrue result
        → Appends (W.contents to.old) (W.contents to.new) text.now }
    ensures prefix_is_written { IsPrefixWritten (W.contents to.old) (W.contents to.new) text.now }
{
    match write_whole(to, text) {
        Ok(()) => true,
        Err(_) => false,
    }
}

/// The file to open of a name; `None` if it is missing or `-`, which names standard input.
fn opened_name(name: &Option<String>) -> Option<&str>
    ensures { option_map (λ n. n.now) result ≡ opened_name (option_map string_bytes name.now) }
{
    match name {
        Some(name) => {
            if name.as_str() == "-" {
                None
            } else {
                Some(name.as_str())
            }
        }
        None => None,
    }
}

/// Opens the file that the line names, if it isn't standard input, and calls `run`; unless the line
/// asks for a report besides a comparison that it doesn't ask for.
fn run_line<R: Threads + Wait + Files + Sync, I: Read, O: Write>(
    rt: &R,
    alloc: Global,
    line: &Line,
    input: &mut I,
    output: &mut O,
) -> Ending
    requires is_lawful { IsLawfulPlan line.now.plan }
    requires is_run { line.now.against ≡ None }
    ensures { (words : List Text) → AreReadAs words line.now
        → IsEndingOf R.File.remaining words result (I.remaining input.old)
        (I.remaining input.new) (O.contents output.old) (O.contents output.new) }
{
    if line.plan.and_report {
        return Ending::NothingCompared;
    }
    match opened_name(&line.file) {
        None => Ending::Ran(run(rt, alloc, &line.plan, input, output)),
        Some(name) => match fs::open(rt, name) {
            Ok(mut file) => Ending::Ran(run(rt, alloc, &line.plan, &mut file, output)),
            Err(_) => Ending::NotOpened,
        },
    }
}

/// Opens NEW, if it isn't standard input, and compares it with OLD, a file that was opened.
fn compare_with_file<R: Threads + Wait + Files + Sync, I: Read, O: Write>(
    rt: &R,
    alloc: Global,
    line: &Line,
    old: &mut R::File,
    input: &mut I,
    output: &mut O,
) -> Ending
    requires is_lawful { IsLawfulPlan line.now.plan }
    requires is_comparison { IsSome line.now.against }
    requires old_is_opened { IsSome (opened_old_of line.now) }
    ensures { (words : List Text) → AreReadAs words line.now
        → IsEndingOf R.File.remaining words result (I.remaining input.old)
        (I.remaining input.new) (O.contents output.old) (O.contents output.new) }
{
    match opened_name(&line.file) {
        None => Ending::Compared(run_against(rt, alloc, &line.plan, old, input, output)),
        Some(name) => match fs::open(rt, name) {
            Ok(mut new) => {
                Ending::Compared(run_against(rt, alloc, &line.plan, old, &mut new, output))
            }
            Err(_) => Ending::NotOpened,
        },
    }
}

/// Opens NEW and compares it with OLD, which is standard input.
fn compare_with_input<R: Threads + Wait + Files + Sync, I: Read, O: Write>(
    rt: &R,
    alloc: Global,
    line: &Line,
    input: &mut I,
    output: &mut O,
) -> Ending
    requires is_lawful { IsLawfulPlan line.now.plan }
    requires is_comparison { IsSome line.now.against }
    requires old_is_input { opened_old_of line.now ≡ None }
    ensures { (words : List Text) → AreReadAs words line.now
        → IsEndingOf R.File.remaining words result (I.remaining input.old)
        (I.remaining input.new) (O.contents output.old) (O.contents output.new) }
{
    match opened_name(&line.file) {
        None => Ending::BothInputs,
        Some(name) => match fs::open(rt, name) {
            Ok(mut new) => {
                Ending::Compared(run_against(rt, alloc, &line.plan, input, &mut new, output))
            }
            Err(_) => Ending::NotOpened,
        },
    }
}

/// Opens the files that the line names, and compares them.
fn compare_line<R: Threads + Wait + Files + Sync, I: Read, O: Write>(
    rt: &R,
    alloc: Global,
    line: &Line,
    input: &mut I,
    output: &mut O,
) -> Ending
    requires is_lawful { IsLawfulPlan line.now.plan }
    requires is_comparison { IsSome line.now.against }
    ensures { (words : List Text) → AreReadAs words line.now
        → IsEndingOf R.File.remaining words result (I.remaining input.old)
        (I.remaining input.new) (O.contents output.old) (O.contents output.new) }
{
    match opened_name(&line.against) {
        None => compare_with_input(rt, alloc, line, input, output),
        Some(name) => match fs::open(rt, name) {
            Ok(mut old) => compare_with_file(rt, alloc, line, &mut old, input, output),
            Err(_) => Ending::NotOpened,
        },
    }
}

/// Reads the words, opens the files that they name, and calls `run` or `run_against`; or writes
/// help or the version.
fn run_words<S: AsStr, R: Threads + Wait + Files + Sync, I: Read, O: Write>(
    rt: &R,
    alloc: Global,
    words: &[S],
    input: &mut I,
    output: &mut O,
) -> Ending
    ensures { IsEndingOf R.File.remaining (map S.text words.now) result (I.remaining input.old)
        (I.remaining input.new) (O.contents output.old) (O.contents output.new) }
{
    let line = match line(alloc, words) {
        Ok(line) => line,
        Err(LineRefused::Help(text)) => {
            return if write_text(output, text.as_bytes()) {
                Ending::Helped(text)
            } else {
                Ending::HelpFailed(text)
            };
        }
        Err(LineRefused::Bad(text)) => return Ending::Misread(text),
        Err(LineRefused::Memory) => return Ending::NoMemory,
    };
    match &line.against {
        None => run_line(rt, alloc, &line, input, output),
        Some(_) => compare_line(rt, alloc, &line, input, output),
    }
}

/// The whole program, given a reader and two writers; returns the status. It reads the words first,
/// of which the first one is the program's name. A file that they name, other than `-`, it opens,
/// and reads its bytes instead of those of `input`.
pub fn status<S: AsStr, R: Threads + Wait + Files + Sync, I: Read, O: Write, E: Write>(
    rt: &R,
    alloc: Global,
    words: &[S],
    input: &mut I,
    output: &mut O,
    errors: &mut E,
) -> u8
    ensures { Ended R.File.remaining (map S.text words.now) result
        (I.remaining input.old) (I.remaining input.new)
        (O.contents output.old) (O.contents output.new)
        (E.contents errors.old) (E.contents errors.new) }
{
    let ending = run_words(rt, alloc, words, input, output);
    // If the message can't be written, the status says alone how the program ended.
    let _ = write_text(errors, ending.message());
    ending.status()
}

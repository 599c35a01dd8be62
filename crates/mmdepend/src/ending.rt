//! How the program ends.

ghost use Rattle.std.specs.Prelude.{◌≡◌};
ghost use Rattle.mmdepend.specs.Endings.{comparison_message_of, comparison_status_of, message_of};
ghost use Rattle.mmdepend.specs.Endings.{run_message_of, run_status_of, status_of};

use mm_against::ComparisonEnd;
use mm_run::RunEnd;

/// How the program ends.
#[derive(Drop)]
pub enum Ending {
    /// There was a run, and it ended in this way.
    Ran(RunEnd),
    /// Two texts were compared, and it ended in this way.
    Compared(ComparisonEnd),
    /// This text was written: that of the help or of the version.
    Helped(String),
    /// Writing this text failed; a prefix of it was written.
    HelpFailed(String),
    /// The words have a fault, and this text says which.
    Misread(String),
    /// Both databases that are to be compared are the standard input.
    BothInputs,
    /// The report on one of two databases was asked for besides, and there is only one.
    NothingCompared,
    /// A file couldn't be opened.
    NotOpened,
    /// Out of memory while the words were read.
    NoMemory,
}

const BOTH_INPUTS: &[u8] = b"mmdepend: only one of two databases can be the standard input\n";

const NOTHING_COMPARED: &[u8] = b"mmdepend: --and-report needs --against\n";

const CANNOT_OPEN: &[u8] = b"mmdepend: cannot open the file\n";

const READING_FAILED: &[u8] = b"mmdepend: reading failed\n";

const WRITING_FAILED: &[u8] = b"mmdepend: writing failed\n";

const OUT_OF_MEMORY: &[u8] = b"mmdepend: out of memory\n";

impl Ending {
    /// The status: 0 for a report, differences, help or the version, 1 for a refusal, 2 for an
    /// invalid command line, 3 if a file couldn't be opened or reading or writing failed, 4 if out
    /// of memory.
    pub fn status(&self) -> u8
        ensures { result ≡ status_of self.now }
    {
        match self {
            Ending::Ran(end) => run_status(*end),
            Ending::Compared(end) => comparison_status(*end),
            Ending::Helped(_) => 0,
            Ending::Misread(_) | Ending::BothInputs | Ending::NothingCompared => 2,
            Ending::HelpFailed(_) | Ending::NotOpened => 3,
            Ending::NoMemory => 4,
        }
    }

    /// The message on standard error.
    pub fn message(&self) -> &[u8]
        ensures { result.now ≡ message_of self.now }
    {
        match self {
            Ending::Ran(end) => run_message(*end),
            Ending::Compared(end) => comparison_message(*end),
            Ending::Helped(_) => b"",
            Ending::HelpFailed(_) => WRITING_FAILED,
            Ending::Misread(text) => text.as_bytes(),
            Ending::BothInputs => BOTH_INPUTS,
            Ending::NothingCompared => NOTHING_COMPARED,
            Ending::NotOpened => CANNOT_OPEN,
            Ending::NoMemory => OUT_OF_MEMORY,
        }
    }
}

/// The status after a run that ended so.
fn run_status(end: RunEnd) -> u8
    ensures { result ≡ run_status_of end }
{
    match end {
        RunEnd::Accepted => 0,
        RunEnd::Refused(_) => 1,
        RunEnd::ReadFailed | RunEnd::WriteFailed => 3,
        RunEnd::NoMemory => 4,
    }
}

/// The message after a run that ended so.
fn run_message(end: RunEnd) -> &'static [u8]
    ensures { result.now ≡ run_message_of end }
{
    match end {
        RunEnd::Accepted | RunEnd::Refused(_) => b"",
        RunEnd::ReadFailed => READING_FAILED,
        RunEnd::WriteFailed => WRITING_FAILED,
        RunEnd::NoMemory => OUT_OF_MEMORY,
    }
}

/// The status after a comparison that ended so.
fn comparison_status(end: ComparisonEnd) -> u8
    ensures { result ≡ comparison_status_of end }
{
    match end {
        ComparisonEnd::Compared => 0,
        ComparisonEnd::OldRefused(_) | ComparisonEnd::NewRefused(_) => 1,
        ComparisonEnd::ReadFailed | ComparisonEnd::WriteFailed => 3,
        ComparisonEnd::NoMemory => 4,
    }
}

/// The message after a comparison that ended so.
fn comparison_message(end: ComparisonEnd) -> &'static [u8]
    ensures { result.now ≡ comparison_message_of end }
{
    match end {
        ComparisonEnd::Compared | ComparisonEnd::OldRefused(_) | ComparisonEnd::NewRefused(_) =>
            b"",
        ComparisonEnd::ReadFailed => READING_FAILED,
        ComparisonEnd::WriteFailed => WRITING_FAILED,
        ComparisonEnd::NoMemory => OUT_OF_MEMORY,
    }
}

//! The program `mmdepend`: it reads a Metamath database, verifies every proof, and reports on which
//! axioms each theorem rests, or refuses the database for its first fault; or it says what one
//! database has and another hasn't. `status` is the whole program, given a reader and two writers:
//! it reads the words of the command line (`line`), opens the files that they name, and calls `run`
//! or `run_against`. It promises what is written, the message on standard error, and the status.
#![tactic(auto)]

mod ending;
mod program;
#[cfg(test)]
mod tests;

pub use mm_against::{ComparisonEnd, run_against};
pub use mm_line::{Line, LineRefused, line};
pub use mm_plan::{Cutting, Plan};
pub use mm_run::{RunEnd, run};
pub use program::status;
use std::env;
use std::io::{ErrorKind, Write};
use std::process::ExitCode;
use std::rt::Env;

/// How the program ends if it can't get the words of its command line.
struct NoWords {
    status: u8,
    message: &'static str,
}

/// The status of `Ending::NoMemory`, and its message after the prefix.
const OUT_OF_MEMORY: NoWords = NoWords {
    status: 4,
    message: "out of memory",
};

/// The status of `Ending::Misread`, and its message after the prefix.
const NOT_UTF8: NoWords = NoWords {
    status: 2,
    message: "a word of the command line isn't UTF-8",
};

/// The words of the command line.
fn given_words<R: Env + AllocGlobal>(rt: &R) -> Result<Vec<String>, NoWords> {
    match env::args(rt) {
        Ok(words) => match words.collect::<Vec<String>>(rt.alloc()) {
            Ok(words) => Ok(words),
            Err(_) => Err(OUT_OF_MEMORY),
        },
        Err(error) => match error.kind() {
            ErrorKind::OutOfMemory => Err(OUT_OF_MEMORY),
            _ => Err(NOT_UTF8),
        },
    }
}

/// Passes the words, standard input and the two outputs to `status`.
fn main(rt: HostRuntime) -> ExitCode {
    let mut errors = rt.stderr();
    match given_words(&rt) {
        Ok(words) => ExitCode::from(status(
            &rt,
            rt.alloc(),
            &words,
            &mut rt.stdin(),
            &mut rt.stdout(),
            &mut errors,
        )),
        Err(NoWords { status, message }) => {
            let _ = writeln!(errors, "mmdepend: {message}");
            ExitCode::from(status)
        }
    }
}

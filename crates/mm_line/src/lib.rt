//! The words of a command line. This crate knows clap's command and what the words say: a plan and
//! the files to read. `line` promises that each field of the line is the value that clap finds in
//! the words for its argument, that the plan is lawful, and that words that the command accepts are
//! refused only if out of memory. It reads no database.
#![tactic(auto)]

mod command_line;
mod options;
mod sections;

pub use command_line::{Line, LineRefused};
pub use options::line;

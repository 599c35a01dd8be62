//! Reading: from the tokens of a text to its database. This layer has the statements judged by
//! `mm_scope` and their frames made by `mm_frame`, and finds out what else is kept of them.
//! [`read`] borrows the tokens; [`read_owned`] takes them, frees them before it makes the frames,
//! and makes the frames by several threads; [`read_alone`] does the same on the calling thread. The
//! layer promises that the statements are those before the first malformed or unlawful one, and
//! that the fault is the fault there (`Rattle.mm_spec.specs.Output.IsRead`).
#![tactic(auto)]

mod kinds;
mod listed;
mod reader;
mod reading;
mod retained_words;
mod spaced_labels;
mod statement_lists;
mod unframed;

pub use mm_database::{Code, Database, Fault, Frame, Kind, Sym, Word};
pub use reader::{read, read_alone, read_owned};

//! What one database has and another one hasn't. This layer knows two databases that were read, and
//! finds which assertions of the one the other hasn't: an assertion is there if the other has one
//! with its label, of its kind, that says the same word for word. It promises that these are
//! exactly those of the definitions (`Rattle.mm_spec.specs.Comparison`).
#![tactic(auto)]

mod assertions;
mod frames;
mod hypotheses;
mod only_in;
mod pairs;
mod symbols;

pub use assertions::says_same;
pub use only_in::{find_same, label_of, list_only_in};

//! The steps of a theorem's proof, in the order in which the proof names them. A step is the label
//! of a statement, or repeats the subproof that an earlier step ended, which is then marked. Each
//! step has its place in the text. This layer keeps what another layer read: it knows neither words
//! nor letters, and doesn't check that the steps derive anything. It promises that the steps are
//! those that were pushed (`Rattle.mm_steps.specs.TheoremSteps`), and which of them are marked.
//!
//! A reader of proofs uses [`Steps::none`] and [`Steps::push`], and whoever checks them the other
//! calls.
#![tactic(auto)]

mod step_list;

pub use step_list::{Step, Steps};

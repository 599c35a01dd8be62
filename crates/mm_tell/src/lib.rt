//! What a report tells of proofs. This layer knows which variables a theorem's proof names beside
//! the mandatory ones: those of the active `$f` whose labels stand in it, also where a compressed
//! proof has such a label in brackets and no letter for it; which of them an active `$d` keeps
//! distinct from another variable that is mandatory or named (Metamath book, "Basic Syntax"); and
//! the steps of all proofs ("Proof Verification"). It promises that it finds exactly those of the
//! definitions (`Rattle.mm_spec.specs.Assertion`, `Rattle.mm_spec.specs.ProofLine`).
#![tactic(auto)]

mod dummies;
mod pairs;
mod proof_labels;
mod rising_lists;
mod step_lists;
mod told;
mod variables;

pub use dummies::Dummies;
pub use step_lists::StepLists;
pub use told::Told;

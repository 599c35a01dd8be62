//! Reading the proofs of theorems. This layer knows the words after the `$=` of a theorem, the
//! labels that are usable there, and the steps that the words stand for: in a normal proof the
//! labels, one by one; in a compressed proof the numbers in letters after the labels in brackets.
//! It promises that it returns the steps of the definitions
//! (`Rattle.mm_spec.specs.Citation.steps_at`) if the proof has no reading fault, and otherwise the
//! first such fault. A step that names a marked subproof stays one step: the list of labels that it
//! stands for is never written out.
#![tactic(auto)]

mod compressed;
mod labels;
mod letters;
mod numerals;
mod reader;
mod refused;

pub use mm_database::{Code, Fault};
pub use mm_steps::{Step, Steps};
pub use numerals::number;
pub use reader::read_proof;
pub use refused::ProofRefused;

//! What theorems rest on in one database and not in another. This layer knows two databases with
//! their marks, and finds for each theorem of the one the axioms on which it rests, while in the
//! other no theorem with its label rests on the same axiom. It promises that these are exactly
//! those of the definitions (`AreShifted` in `Rattle.mm_spec.specs.Comparison`).
#![tactic(auto)]

mod marked;
mod shifts;
mod there;

pub use marked::Marked;
pub use shifts::list_shifts;

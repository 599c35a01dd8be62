//! What is lawful. This layer knows labels, symbols and their scope. It finds the statements by
//! their shapes, and the numbers of their symbols, on the calling thread or by several threads.
//! Then it judges each statement by the names before it, and keeps the statements up to the first
//! malformed or unlawful one, with their blocks, their labels and their symbols. It promises that
//! these are the statements that the definition of reading gives, with the fault after them
//! (`Rattle.mm_spec.specs.Output.IsRead`).
#![tactic(auto)]

pub mod judge;
pub mod keys;
pub mod numbering;
pub mod outlines;
pub mod reading;
pub mod scope;
pub mod stretches;

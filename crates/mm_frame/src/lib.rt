//! Frames. This layer knows lawful statements with their blocks and the numbers of their symbols.
//! It finds for each assertion the mandatory hypotheses and the mandatory pairs of disjoint
//! variables, and for each variable the `$d` that contain it. It promises that these are those of
//! the definitions (`Rattle.mm_database.specs.FrameTables.AreFrameTables`).
#![tactic(auto)]

pub mod active;
pub mod chains;
pub mod disjoint;
pub mod disjoint_index;
mod disjoint_rows;
pub mod frames;
pub mod hypotheses;
mod lower_lists;
mod neighbours;
mod sources;
pub mod stretches;
mod symbol_facts;

//! Numbers cut into adjacent stretches, one for each worker. This layer knows neither what is
//! numbered nor threads. It promises that each stretch begins where the one before it ends, and
//! that the stretches have all numbers.
//!
//! A caller cuts the numbers with [`Stretches::new`], has a worker do [`Stretches::range`] for each
//! index below [`Stretches::len`], and puts together what the workers made in the order of the
//! indices.
#![tactic(auto)]

mod stretches;

pub use stretches::Stretches;

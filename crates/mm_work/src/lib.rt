//! The proofs of all theorems, checked by workers. This layer knows the theorems of a database by
//! their indices, 0 for the first in the file, and shares them out among threads with a claim
//! board: each worker draws an index, reads and checks that theorem's proof, and keeps what it
//! cites. It promises that the answer is that of one pass in file order, for every number of
//! workers and every order in which they run: what each theorem cites if all proofs are valid, and
//! otherwise the fault of the first proof that has one. It doesn't promise that a worker makes
//! progress, that workers get equally much work, or that a thread can be started.
//!
//! A caller uses, in this order: [`check_all`] with a [`Gate`], such as [`Open`], or
//! [`check_alone`] where there are no threads; [`Judged`]; and [`Citations`], which is that of
//! `mm_cites`.
#![tactic(auto)]

mod all;
mod capacity;
mod gate;
mod in_order;
mod job;
mod judged;
mod merge;
mod proof;
mod threads;
mod worker;

pub use all::check_all;
pub use gate::{Gate, Open};
pub use in_order::check_alone;
pub use judged::Judged;
pub use mm_cites::Citations;

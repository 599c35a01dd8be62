//! What is told of a database's assertions besides their marks and citations.

use crate::dummies::Dummies;
use crate::step_lists::StepLists;
use std::alloc::Allocator;

/// What is told of a database's assertions besides their marks and citations, and what takes memory
/// to make: the dummy variables of theorems, and the steps of their proofs. What isn't requested
/// needn't be there.
pub struct Told<A: Allocator> {
    pub dummy_lists: Dummies<A>,
    pub step_lists: StepLists<A>,
}

/// Dropped in one call: docs/PROOFS.md, "What a check costs".
impl<A: Allocator> Drop for Told<A> {
    fn drop(self) {
        let Self {
            dummy_lists: _,
            step_lists: _,
        } = self;
    }
}

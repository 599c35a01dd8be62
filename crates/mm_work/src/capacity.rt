//! For how many citations lists are reserved.

use mm_database::Database;
use std::alloc::Allocator;

/// At least as many citations as all theorems have: a proof cites no more assertions than it has
/// words. What isn't written of a list that has so much capacity takes no memory, and a list that
/// needn't be moved as it grows leaves no gaps.
pub(crate) fn citation_capacity<A: Allocator>(database: &Database<A>) -> usize {
    let mut capacity = 0usize;
    for statement in 0..database.len() {
        capacity = capacity.saturating_add(database.proof_words(statement).len());
    }
    capacity
}

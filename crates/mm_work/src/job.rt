//! What all workers are lent.

use mm_board::Board;
use mm_database::Database;
use mm_rules::Rules;
use std::alloc::Allocator;

/// What all workers have to do together: to check the proofs of the theorems of a database.
#[derive(Drop)]
pub(crate) struct Job<'j, 'd, A: Allocator> {
    /// The database.
    pub database: &'j Database<'d, A>,
    /// Its rules.
    pub rules: &'j Rules<A>,
    /// The board that hands out the indices of its theorems.
    pub board: &'j Board<A>,
    /// Whether a theorem cites only by the essential nodes of its proof.
    pub essential: bool,
    /// For how many citations a worker reserves memory: its share of at least as many as all
    /// theorems have.
    pub citation_capacity: usize,
}

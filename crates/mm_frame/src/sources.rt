//! What the frames are made from.

use mm_database::disjoint_index::DisjointIndex;
use mm_database::statements::Statements;
use std::alloc::Allocator;

/// The statements, the last active `$e` and the last active `$d`, `$e` or `$f` at each, and the
/// `$d` by their variables.
#[derive(Drop)]
pub struct FrameSources<'s, 't, A: Allocator> {
    pub statements: &'s Statements<'t, A>,
    pub essentials: &'s [u32],
    pub frame_parts: &'s [u32],
    pub disjoint_index: &'s DisjointIndex<A>,
}

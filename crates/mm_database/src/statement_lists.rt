//! The statements as they count, in lists: the kind of each, the theorems and the axioms.

use mm_lists::Lists;
use mm_outline::parts::Kind;
use std::alloc::Allocator;

/// What each statement counts as, the theorems and the axioms in file order, and the labels of the
/// theorems, each after a space. So the labels of adjacent theorems are one slice.
#[derive(Drop)]
pub struct StatementLists<A: Allocator> {
    pub kinds: Vec<Kind, A>,
    pub theorems: Vec<u32, A>,
    pub axioms: Vec<u32, A>,
    pub spaced_labels: Lists<u8, A>,
}

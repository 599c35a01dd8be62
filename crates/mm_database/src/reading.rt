//! What was read of a text: its statements and their names.

use crate::names::NameTable;
use crate::statements::Statements;
use mm_spec::Fault;
use std::alloc::Allocator;

/// The lawful statements of a text, the names after them, and the fault that stopped the reading,
/// if any.
pub struct Reading<'a, A: Allocator> {
    pub statements: Statements<'a, A>,
    pub names: NameTable<'a, A>,
    pub fault: Option<Fault>,
}

/// Dropped in one call: docs/PROOFS.md, "What a check costs".
impl<'a, A: Allocator> Drop for Reading<'a, A> {
    fn drop(self) {
        let Self {
            statements: _,
            names: _,
            fault: _,
        } = self;
    }
}

//! What is made of the statements once, so that the calls of a database only look it up.

use crate::frames::FrameTables;
use crate::statement_lists::StatementLists;
use mm_lists::Lists;
use mm_spec::Word;
use std::alloc::Allocator;

/// The frames and the `$d` by variables; the lists of statements as they count; and for each
/// statement the words that are needed again: its label, those of its proof, and its last token.
/// The other tokens are freed once the statements are read.
pub struct StatementTables<A: Allocator> {
    pub frame_tables: FrameTables<A>,
    pub statement_lists: StatementLists<A>,
    pub retained_words: Lists<Word, A>,
}

/// Dropped in one call: docs/PROOFS.md, "What a check costs".
impl<A: Allocator> Drop for StatementTables<A> {
    fn drop(self) {
        let Self {
            frame_tables: _,
            statement_lists: _,
            retained_words: _,
        } = self;
    }
}

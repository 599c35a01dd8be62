//! The databases of texts.

use mm_lex::{Cuts, lex};
use mm_spec::TEXT_LIMIT;
use mm_stmt::{Database, read};
use std::alloc::{AllocError, Global};
use std::thread::Threads;

/// The database of a text; open theorems count as axioms if `with_open` is set. Fails if the text
/// is too long, too.
pub(crate) fn database_of<'t, R: Threads + Sync>(
    rt: &R,
    alloc: Global,
    text: &'t [u8],
    with_open: bool,
) -> Result<Database<'t, Global>, AllocError> {
    if text.len() > TEXT_LIMIT {
        return Err(AllocError);
    }
    let cuts = Cuts::equal(alloc, text.len(), 1)?;
    let lexed = lex(rt, alloc, text, &cuts)?;
    read(alloc, text, &lexed, with_open)
}

//! What is read of a text before its frames are made.

ghost use Rattle.std.specs.Prelude.{◌≡◌, ◌<◌, IfOk, length};
ghost use Rattle.mm_spec.specs.Lexed.{tokens_of, lexical_fault, lexed_of};
ghost use Rattle.mm_spec.specs.Opened.{open_as_axioms};
ghost use Rattle.mm_spec.specs.Output.{IsRead};
ghost use Rattle.mm_database.specs.FrameTables.{AreFrameTables};
ghost use Rattle.mm_stmt.specs.Listed.{IsReadWith};
ghost use Rattle.mm_stmt.specs.Unframed.{IsUnframed};

use crate::listed::{Listed, read_listed, read_listed_alone};
use crate::reading::reading_of;
use mm_database::Database;
use mm_database::frames::FrameTables;
use mm_database::reading::Reading;
use mm_database::statement_lists::StatementLists;
use mm_database::tables::StatementTables;
use mm_lists::Lists;
use mm_scope::reading::Outlined;
use mm_spec::{Lexed, Word};
use std::alloc::{AllocError, Allocator};
use std::thread::Threads;

/// The statements of a text with all that is kept of them but their frames.
#[derive(Drop)]
pub struct Unframed<'a, A: Allocator> {
    pub reading: Reading<'a, A>,
    pub statement_lists: StatementLists<A>,
    pub retained_words: Lists<Word, A>,
}

/// Returns what is kept of a text. The memory of its tokens is given back: the frames and the index
/// of the `$d` need no tokens, so it is free for them.
fn unframed_of<'a, A: Allocator + Copy>(
    alloc: A,
    text: &'a [u8],
    tokens: Vec<Word, A>,
    with_open: bool,
    outlined: Outlined<'a, A>,
    listed: Listed<A>,
) -> Result<Unframed<'a, A>, AllocError>
    requires are_tokens { tokens.items ≡ tokens_of text.now }
    requires is_read { IsReadWith text.now tokens.items with_open outlined listed }
    ensures { IfOk result (IsUnframed text.now with_open) }
{
    drop(tokens);
    let reading = reading_of(alloc, text, outlined)?;
    let Listed {
        statement_lists,
        retained_words,
    } = listed;
    Ok(Unframed {
        reading,
        statement_lists,
        retained_words,
    })
}

/// Reads the statements of a text on the calling thread alone.
pub(crate) fn read_statements_alone<'a, A: Allocator + Copy>(
    alloc: A,
    text: &'a [u8],
    lexed: Lexed<A>,
    with_open: bool,
) -> Result<Unframed<'a, A>, AllocError>
    requires tokens_of_text { lexed.tokens.items ≡ tokens_of text.now }
    requires fault_of_text { lexed.fault ≡ lexical_fault text.now }
    ensures { IfOk result (IsUnframed text.now with_open) }
{
    let Lexed { tokens, fault } = lexed;
    let (outlined, listed) = read_listed_alone(alloc, text, &tokens, fault, with_open)?;
    unframed_of(alloc, text, tokens, with_open, outlined, listed)
}

/// Reads the statements of a text by as many threads as there are workers, at least one. It is
/// called for two or more.
pub(crate) fn read_statements<'a, R: Threads + Sync, A: Allocator + Copy + Send + Sync>(
    rt: &R,
    alloc: A,
    text: &'a [u8],
    lexed: Lexed<A>,
    with_open: bool,
    workers: u32,
) -> Result<Unframed<'a, A>, AllocError>
    requires tokens_of_text { lexed.tokens.items ≡ tokens_of text.now }
    requires fault_of_text { lexed.fault ≡ lexical_fault text.now }
    requires some_workers { 0 < workers }
    ensures { IfOk result (IsUnframed text.now with_open) }
{
    let Lexed { tokens, fault } = lexed;
    let (outlined, listed) = read_listed(rt, alloc, text, &tokens, fault, with_open, workers)?;
    unframed_of(alloc, text, tokens, with_open, outlined, listed)
}

/// Returns the database of a text, of what was read of it and its frames.
pub(crate) fn database_of<'a, A: Allocator>(
    text: &'a [u8],
    with_open: bool,
    unframed: Unframed<'a, A>,
    frame_tables: FrameTables<A>,
) -> Database<'a, A>
    requires is_unframed { IsUnframed text.now with_open unframed }
    requires are_frame_tables { AreFrameTables unframed.reading.statements.list
        unframed.reading.statements.blocks frame_tables }
    ensures text_is { result.text ≡ text.now }
    ensures flag_is { result.with_open ≡ with_open }
    ensures is_read { IsRead (length text.now) (lexed_of text.now) result.read result.fault }
    ensures are_counted { result.statements ≡ open_as_axioms with_open result.read }
{
    let Unframed {
        reading,
        statement_lists,
        retained_words,
    } = unframed;
    let tables = StatementTables {
        frame_tables,
        statement_lists,
        retained_words,
    };
    Database::new(with_open, reading, tables)
}

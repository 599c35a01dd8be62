//! The statements of a text up to its first fault.

ghost use Rattle.std.specs.Prelude.{◌≡◌, ◌<◌, IfOk, length};
ghost use Rattle.mm_spec.specs.Lexed.{tokens_of, lexical_fault, lexed_of};
ghost use Rattle.mm_spec.specs.Opened.{open_as_axioms};
ghost use Rattle.mm_spec.specs.Output.{IsRead};

use crate::unframed::{database_of, read_statements, read_statements_alone};
use mm_database::Database;
use mm_frame::stretches::{frame_tables_alone, frame_tables_of};
use mm_spec::Lexed;
use std::alloc::{AllocError, Allocator};
use std::thread::Threads;

/// Reads the statements of a text before its first fault of words, shape, symbols, labels or scope,
/// and that fault (Metamath book, "Specification of the Metamath Language"). `lexed` has the tokens
/// and the lexical fault of `text`. If `with_open` is set, open theorems, whose proof is `?` or
/// `( ) ?`, count as axioms. Fails only if out of memory; `text` and `lexed` are only read, so the
/// call can be made again.
pub fn read<'a, A: Allocator + Copy>(
    alloc: A,
    text: &'a [u8],
    lexed: &Lexed<A>,
    with_open: bool,
) -> Result<Database<'a, A>, AllocError>
    requires tokens_of_text { lexed.now.tokens.items ≡ tokens_of text.now }
    requires fault_of_text { lexed.now.fault ≡ lexical_fault text.now }
    ensures text_is { IfOk result (λ database. database.text ≡ text.now) }
    ensures flag_is { IfOk result (λ database. database.with_open ≡ with_open) }
    ensures is_read { IfOk result
        (λ database. IsRead (length text.now) (lexed_of text.now) database.read database.fault) }
    ensures are_counted { IfOk result
        (λ database. database.statements ≡ open_as_axioms with_open database.read) }
{
    let tokens = lexed.tokens.to_vec(alloc)?;
    let copy = Lexed {
        tokens,
        fault: lexed.fault,
    };
    read_alone(alloc, text, copy, with_open)
}

/// The same as [`read`], but `lexed` is used up in either case: its memory is given back before the
/// frames are made.
pub fn read_alone<'a, A: Allocator + Copy>(
    alloc: A,
    text: &'a [u8],
    lexed: Lexed<A>,
    with_open: bool,
) -> Result<Database<'a, A>, AllocError>
    requires tokens_of_text { lexed.tokens.items ≡ tokens_of text.now }
    requires fault_of_text { lexed.fault ≡ lexical_fault text.now }
    ensures text_is { IfOk result (λ database. database.text ≡ text.now) }
    ensures flag_is { IfOk result (λ database. database.with_open ≡ with_open) }
    ensures is_read { IfOk result
        (λ database. IsRead (length text.now) (lexed_of text.now) database.read database.fault) }
    ensures are_counted { IfOk result
        (λ database. database.statements ≡ open_as_axioms with_open database.read) }
{
    let unframed = read_statements_alone(alloc, text, lexed, with_open)?;
    let frame_tables = frame_tables_alone(alloc, &unframed.reading.statements)?;
    Ok(database_of(text, with_open, unframed, frame_tables))
}

/// The same as [`read_alone`], but as many threads as there are workers find where the statements
/// are, and later make the frames. In between one thread lists the statements while another one
/// judges them. With one worker no thread is started.
pub fn read_owned<'a, R: Threads + Sync, A: Allocator + Copy + Send + Sync>(
    rt: &R,
    alloc: A,
    text: &'a [u8],
    lexed: Lexed<A>,
    with_open: bool,
    workers: u32,
) -> Result<Database<'a, A>, AllocError>
    requires tokens_of_text { lexed.tokens.items ≡ tokens_of text.now }
    requires fault_of_text { lexed.fault ≡ lexical_fault text.now }
    requires some_workers { 0 < workers }
    ensures text_is { IfOk result (λ database. database.text ≡ text.now) }
    ensures flag_is { IfOk result (λ database. database.with_open ≡ with_open) }
    ensures is_read { IfOk result
        (λ database. IsRead (length text.now) (lexed_of text.now) database.read database.fault) }
    ensures are_counted { IfOk result
        (λ database. database.statements ≡ open_as_axioms with_open database.read) }
{
    let unframed = if workers > 1 {
        read_statements(rt, alloc, text, lexed, with_open, workers)?
    } else {
        read_statements_alone(alloc, text, lexed, with_open)?
    };
    let frame_tables = frame_tables_of(rt, alloc, &unframed.reading.statements, workers)?;
    Ok(database_of(text, with_open, unframed, frame_tables))
}

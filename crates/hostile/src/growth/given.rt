//! Calls that take a value for themselves: if memory is refused, they give back what the value had,
//! and leave alone what they only borrow. The memory is that of a heap that knows how much of it is
//! in use.

ghost use Rattle.std.specs.Prelude.{◌≡◌, IfOk};
ghost use Rattle.mm_spec.specs.Lexed.{tokens_of, lexical_fault};

use super::reading::{CUT_AT, is_summary};
use super::{LEAST_OF_READING, MOST_GROWTHS, WITHOUT_OPEN, was_refused};
use crate::heap::Refusing;
use crate::texts::{DISJOINT, FIRST_TEXT};
use linked_list_allocator::LocalHeap;
use mm_lex::{Cuts, Lexed, join, lex, lex_piece};
use mm_spec::TEXT_LIMIT;
use mm_stmt::{Database, Sym, read_alone};
use std::alloc::{AllocError, Allocator, Global};
use std::process::Abort;
use std::thread::Threads;

/// How many bytes the heap has, which is more than any of these calls takes.
const HEAP_SIZE: usize = 1_048_576;

/// How many growths joining two pieces has at least: the tokens of the second are appended to those
/// of the first.
const LEAST_OF_JOINING: u64 = 1;

/// What a text is read as, with the tokens in a heap.
fn lexed_in<'h, R: Threads + Sync>(
    rt: &R,
    alloc: Global,
    heap: &'h Refusing<&'h LocalHeap>,
    text: &[u8],
) -> Result<Lexed<&'h Refusing<&'h LocalHeap>>, AllocError>
    ensures tokens_are { IfOk result (λ lexed. lexed.tokens.items ≡ tokens_of text.now) }
    ensures fault_is { IfOk result (λ lexed. lexed.fault ≡ lexical_fault text.now) }
{
    if text.len() > TEXT_LIMIT {
        return Err(AllocError);
    }
    let cuts = Cuts::equal(alloc, text.len(), 1)?;
    let lexed = lex(rt, alloc, text, &cuts)?;
    Ok(Lexed {
        tokens: lexed.tokens.to_vec(heap)?,
        fault: lexed.fault,
    })
}

/// Whether this is the database of the text with two `$d`.
fn has_disjoint_variables<A: Allocator>(
    answer: Result<Database<'_, A>, AllocError>,
) -> Option<bool> {
    match answer {
        Ok(database) => Some(
            database.len() == 14
                && database.theorems() == [12u32].as_slice()
                && database.axioms() == [4u32, 5, 8].as_slice()
                && database.disjoint_at(12, Sym::new(5), Sym::new(6)),
        ),
        Err(_) => None,
    }
}

/// Reads statements with a growth refused. Asserts that the tokens are given back and the text is
/// as it was. Returns whether there was such a growth.
fn are_tokens_given_back<'h, R: Abort + Threads + Sync>(
    rt: &R,
    alloc: Global,
    local: &LocalHeap,
    heap: &'h Refusing<&'h LocalHeap>,
    text: &[u8],
    growth: u64,
) -> Result<bool, AllocError> {
    let unused = local.used();
    let lexed = lexed_in(rt, alloc, heap, text)?;
    assert!(rt; local.used() > unused);
    heap.refuse(growth);
    let is_right = has_disjoint_variables(read_alone(heap, text, lexed, WITHOUT_OPEN));
    let refused = was_refused(rt, heap, is_right);
    assert!(rt; local.used() == unused && text == DISJOINT);
    Ok(refused)
}

/// Refuses each growth of reading statements in turn.
fn tokens_in_turn<'h, R: Abort + Threads + Sync>(
    rt: &R,
    alloc: Global,
    local: &LocalHeap,
    heap: &'h Refusing<&'h LocalHeap>,
    text: &[u8],
) -> bool {
    for growth in 1..MOST_GROWTHS {
        match are_tokens_given_back(rt, alloc, local, heap, text, growth) {
            Ok(true) => {}
            Ok(false) => return growth > LEAST_OF_READING,
            Err(_) => return false,
        }
    }
    false
}

#[test]
fn tokens_are_given_back_and_the_text_is_as_it_was(rt: HostRuntime) -> Result<(), AllocError> {
    let local = LocalHeap::new(rt.alloc(), HEAP_SIZE)?;
    let heap = Refusing::new(&local);
    let text = DISJOINT.to_vec(rt.alloc())?;
    assert!(&rt; tokens_in_turn(&rt, rt.alloc(), &local, &heap, &text));
    Ok(())
}

/// Joins two pieces with a growth refused. Asserts that both are given back. Returns whether there
/// was such a growth.
fn are_pieces_given_back<'h, R: Abort>(
    rt: &R,
    local: &LocalHeap,
    heap: &'h Refusing<&'h LocalHeap>,
    growth: u64,
) -> Result<bool, AllocError> {
    let unused = local.used();
    let first = lex_piece(heap, FIRST_TEXT, 0, CUT_AT)?;
    let second = lex_piece(heap, FIRST_TEXT, CUT_AT, FIRST_TEXT.len())?;
    assert!(rt; local.used() > unused);
    heap.refuse(growth);
    let refused = was_refused(rt, heap, is_summary(join(heap, FIRST_TEXT, first, second)));
    assert!(rt; local.used() == unused);
    Ok(refused)
}

/// Refuses each growth of joining in turn.
fn pieces_in_turn<'h, R: Abort>(
    rt: &R,
    local: &LocalHeap,
    heap: &'h Refusing<&'h LocalHeap>,
) -> bool {
    for growth in 1..MOST_GROWTHS {
        match are_pieces_given_back(rt, local, heap, growth) {
            Ok(true) => {}
            Ok(false) => return growth > LEAST_OF_JOINING,
            Err(_) => return false,
        }
    }
    false
}

#[test]
fn pieces_are_given_back(rt: HostRuntime) -> Result<(), AllocError> {
    let local = LocalHeap::new(rt.alloc(), HEAP_SIZE)?;
    let heap = Refusing::new(&local);
    assert!(&rt; pieces_in_turn(&rt, &local, &heap));
    Ok(())
}

//! The calls that turn a text into statements.

ghost use Rattle.std.specs.Prelude.{◌≡◌};
ghost use Rattle.mm_spec.specs.Lexed.{tokens_of, lexical_fault};

use super::alone::{is_sound, judged};
use super::proofs::is_board;
use super::{LEAST_OF_READING, MOST_GROWTHS, WITHOUT_OPEN, was_refused};
use crate::heap::{NONE_REFUSED, Refusing};
use crate::texts::{CITED_TWICE, FIRST_TEXT};
use mm_board::Board;
use mm_lex::{Cuts, Lexed, Piece, Word, join, lex, lex_alone, lex_piece};
use mm_stmt::{Database, read, read_owned};
use std::alloc::{AllocError, Allocator, Global};
use std::process::Abort;
use std::thread::Threads;

/// No comment is open after the head of a piece.
const OUTSIDE_COMMENT: bool = false;

/// How many workers make frames: so many that the text with two theorems has three stretches.
const WORKERS: u32 = 3;

/// How many tokens the first text has.
const TOKENS: usize = 62;

/// Where that text is cut, in the middle of a word.
pub(crate) const CUT_AT: usize = 58;

/// A word, by its first byte and the byte behind its last.
fn word(start: u32, end: u32) -> Word {
    Word { start, end }
}

/// Whether these are cuts of the first text into three equal pieces.
fn are_cuts<A: Allocator + Copy>(answer: Result<Cuts<A>, AllocError>) -> Option<bool> {
    match answer {
        Ok(cuts) => Some(
            cuts.places() == [56u32, 113].as_slice() && cuts.text_len() == FIRST_TEXT.len(),
        ),
        Err(_) => None,
    }
}

/// Whether this is the summary of the first stretch of the first text.
fn is_beginning<A: Allocator>(answer: Result<Piece<A>, AllocError>) -> Option<bool> {
    match answer {
        Ok(piece) => Some(
            piece.from() == 0
                && piece.to() == CUT_AT as u32
                && piece.head() == word(0, 0)
                && piece.tail() == word(57, 58)
                && piece.tokens(OUTSIDE_COMMENT).len() == 20
                && piece.fault(OUTSIDE_COMMENT).is_none(),
        ),
        Err(_) => None,
    }
}

/// Whether this is the summary of the first text.
pub(crate) fn is_summary<A: Allocator>(answer: Result<Piece<A>, AllocError>) -> Option<bool> {
    match answer {
        Ok(piece) => Some(
            piece.from() == 0
                && piece.to() as usize == FIRST_TEXT.len()
                && piece.head() == word(0, 0)
                && piece.tail() == word(170, 170)
                && piece.tokens(OUTSIDE_COMMENT).len() == TOKENS
                && piece.fault(OUTSIDE_COMMENT).is_none(),
        ),
        Err(_) => None,
    }
}

/// Whether these are the tokens of the first text.
pub(crate) fn is_lexed<A: Allocator>(answer: Result<Lexed<A>, AllocError>) -> Option<bool> {
    match answer {
        Ok(lexed) => Some(
            lexed.tokens.len() == TOKENS
                && lexed.tokens.first().copied() == Some(word(0, 2))
                && lexed.tokens.last().copied() == Some(word(167, 169))
                && lexed.fault.is_none(),
        ),
        Err(_) => None,
    }
}

/// Reads the two parts of the first text with memory, and joins them with a growth refused. If the
/// join fails, both parts are dropped.
fn join_pieces(
    heap: &Refusing<Global>,
    growth: u64,
) -> Result<Result<Piece<&Refusing<Global>>, AllocError>, AllocError> {
    let first = lex_piece(heap, FIRST_TEXT, 0, CUT_AT)?;
    let second = lex_piece(heap, FIRST_TEXT, CUT_AT, FIRST_TEXT.len())?;
    heap.refuse(growth);
    Ok(join(heap, FIRST_TEXT, first, second))
}

/// Whether the pieces are joined; not so if there is no memory for the pieces themselves.
fn are_joined(heap: &Refusing<Global>, growth: u64) -> Option<bool> {
    match join_pieces(heap, growth) {
        Ok(answer) => is_summary(answer),
        Err(_) => Some(false),
    }
}

/// A call on a text, and the one that creates a board.
#[derive(Clone, Copy, PartialEq)]
enum TextCall {
    EqualCuts,
    LexPiece,
    Join,
    Lex,
    LexAlone,
    Judge,
    MakeBoard,
}

/// The calls, and how many growths each has at least.
const CALLS: [(TextCall, u64, &str); 7] = [
    (TextCall::EqualCuts, 1, "equal cuts"),
    (TextCall::LexPiece, 1, "a piece"),
    (TextCall::Join, 1, "pieces are joined"),
    (TextCall::Lex, 1, "tokens"),
    (TextCall::LexAlone, 1, "tokens on one thread"),
    (TextCall::Judge, 20, "a text is judged"),
    (TextCall::MakeBoard, 1, "a board"),
];

/// Whether the answer of such a call with this growth refused is right.
fn answer<'h, R: Threads + Sync>(
    rt: &R,
    heap: &'h Refusing<Global>,
    cuts: &Cuts<&'h Refusing<Global>>,
    call: TextCall,
    growth: u64,
) -> Option<bool> {
    if call == TextCall::Join {
        return are_joined(heap, growth);
    }
    heap.refuse(growth);
    match call {
        TextCall::EqualCuts => are_cuts(Cuts::equal(heap, FIRST_TEXT.len(), 3)),
        TextCall::LexPiece => is_beginning(lex_piece(heap, FIRST_TEXT, 0, CUT_AT)),
        TextCall::Lex if cuts.text_len() == FIRST_TEXT.len() => {
            is_lexed(lex(rt, heap, FIRST_TEXT, cuts))
        }
        TextCall::LexAlone => is_lexed(lex_alone(heap, FIRST_TEXT)),
        TextCall::Judge => is_sound(judged(heap, CITED_TWICE)),
        TextCall::MakeBoard => is_board(Board::new(heap, 3)),
        _ => Some(false),
    }
}

/// Refuses each growth of such a call in turn. Returns whether the last one met no refusal, and the
/// first `least` of them did.
fn call_in_turn<'h, R: Abort + Threads + Sync>(
    rt: &R,
    heap: &'h Refusing<Global>,
    cuts: &Cuts<&'h Refusing<Global>>,
    call: TextCall,
    least: u64,
) -> bool {
    for growth in 1..MOST_GROWTHS {
        let refused = was_refused(rt, heap, answer(rt, heap, cuts, call, growth));
        assert!(rt; answer(rt, heap, cuts, call, NONE_REFUSED) == Some(true));
        if !refused {
            return growth > least;
        }
    }
    false
}

#[test]
fn calls_on_texts_without_memory(rt: HostRuntime) -> Result<(), AllocError> {
    let heap = Refusing::new(rt.alloc());
    let cuts = Cuts::equal(&heap, FIRST_TEXT.len(), 3)?;
    for (call, least, what) in CALLS {
        assert!(&rt; call_in_turn(&rt, &heap, &cuts, call, least), "{what}");
    }
    Ok(())
}

/// Whether this is the database of the text with two theorems.
fn is_read<A: Allocator>(answer: Result<Database<'_, A>, AllocError>) -> Option<bool> {
    match answer {
        Ok(database) => Some(
            database.text() == CITED_TWICE
                && database.len() == 19
                && database.fault().is_none()
                && database.theorems() == [13u32, 17].as_slice()
                && database.axioms() == [4u32, 5, 9].as_slice(),
        ),
        Err(_) => None,
    }
}

/// Refuses each growth of reading statements in turn, and asserts that the tokens are left as they
/// were. Returns whether the last call met no refusal, and the first `LEAST_OF_READING` did.
fn statements_in_turn<'h, R: Abort>(
    rt: &R,
    heap: &'h Refusing<Global>,
    text: &[u8],
    lexed: &Lexed<&'h Refusing<Global>>,
    tokens: &[Word],
) -> bool
    requires tokens_are { lexed.now.tokens.items ≡ tokens_of text.now }
    requires fault_is { lexed.now.fault ≡ lexical_fault text.now }
{
    for growth in 1..MOST_GROWTHS {
        heap.refuse(growth);
        let refused = was_refused(rt, heap, is_read(read(heap, text, lexed, WITHOUT_OPEN)));
        assert!(rt;
            lexed.tokens.as_slice() == tokens
                && lexed.fault.is_none()
                && is_read(read(heap, text, lexed, WITHOUT_OPEN)) == Some(true)
        );
        if !refused {
            return growth > LEAST_OF_READING;
        }
    }
    false
}

#[test]
fn statements_without_memory(rt: HostRuntime) -> Result<(), AllocError> {
    let heap = Refusing::new(rt.alloc());
    let cuts = Cuts::equal(&heap, CITED_TWICE.len(), 1)?;
    let lexed = lex(&rt, &heap, CITED_TWICE, &cuts)?;
    let tokens = lexed.tokens.to_vec(&heap)?;
    assert!(&rt; statements_in_turn(&rt, &heap, CITED_TWICE, &lexed, &tokens));
    Ok(())
}

/// What it is read as by workers, which make its frames in threads. The tokens are copied first.
fn is_read_by_workers<R: Threads + Sync>(
    rt: &R,
    heap: &Refusing<Global>,
    text: &[u8],
    lexed: &Lexed<&Refusing<Global>>,
) -> Option<bool>
    requires tokens_are { lexed.now.tokens.items ≡ tokens_of text.now }
    requires fault_is { lexed.now.fault ≡ lexical_fault text.now }
{
    let Ok(tokens) = lexed.tokens.to_vec(heap) else {
        return None;
    };
    let copy = Lexed {
        tokens,
        fault: lexed.fault,
    };
    is_read(read_owned(rt, heap, text, copy, WITHOUT_OPEN, WORKERS))
}

/// Refuses each growth of reading statements by workers in turn.
fn statements_by_workers_in_turn<'h, R: Abort + Threads + Sync>(
    rt: &R,
    heap: &'h Refusing<Global>,
    text: &[u8],
    lexed: &Lexed<&'h Refusing<Global>>,
) -> bool
    requires tokens_are { lexed.now.tokens.items ≡ tokens_of text.now }
    requires fault_is { lexed.now.fault ≡ lexical_fault text.now }
{
    for growth in 1..MOST_GROWTHS {
        heap.refuse(growth);
        let refused = was_refused(rt, heap, is_read_by_workers(rt, heap, text, lexed));
        assert!(rt; is_read_by_workers(rt, heap, text, lexed) == Some(true));
        if !refused {
            return growth > LEAST_OF_READING;
        }
    }
    false
}

#[test]
fn statements_by_workers_without_memory(rt: HostRuntime) -> Result<(), AllocError> {
    let heap = Refusing::new(rt.alloc());
    let cuts = Cuts::equal(&heap, CITED_TWICE.len(), 1)?;
    let lexed = lex(&rt, &heap, CITED_TWICE, &cuts)?;
    assert!(&rt; statements_by_workers_in_turn(&rt, &heap, CITED_TWICE, &lexed));
    Ok(())
}

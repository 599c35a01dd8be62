//! Where statements stop, and what the calls of a database answer.

use crate::databases::database_of;
use crate::examples::{Example, SCOPES, SHAPES};
use crate::flags::WITHOUT_OPEN;
use mm_rule::is_assertion;
use mm_stmt::{Database, Kind, Sym, Word};
use std::alloc::{AllocError, Global};
use std::rt::HostRuntime;
use std::thread::Threads;

/// Whether a text has so many statements before its fault or its end, and this fault, by its place
/// and its number.
fn is_stopped_at<R: Threads + Sync>(
    rt: &R,
    alloc: Global,
    text: &[u8],
    statements: usize,
    fault: Option<(u32, u8)>,
) -> Result<bool, AllocError> {
    let database = database_of(rt, alloc, text, WITHOUT_OPEN)?;
    let found = match database.fault() {
        Some(fault) => Some((fault.at, fault.code.number())),
        None => None,
    };
    Ok(found == fault && database.len() as usize == statements)
}

/// Whether each of the texts stops where its row says.
fn are_stopped<R: Threads + Sync>(rt: &R, alloc: Global, rows: &[Example]) -> bool {
    for (text, statements, fault, _) in rows {
        if !is_stopped_at(rt, alloc, text, *statements, *fault).unwrap_or(false) {
            return false;
        }
    }
    true
}

#[test]
fn stops_where_a_statement_is_at_fault(rt: HostRuntime) {
    assert!(&rt; are_stopped(&rt, rt.alloc(), &SHAPES), "SHAPES");
    assert!(&rt; are_stopped(&rt, rt.alloc(), &SCOPES), "SCOPES");
}

/// The labels of the theorems with indices from `from` up to `to`; no labels if there are fewer
/// theorems.
fn labels_between<'d>(database: &'d Database<Global>, from: u32, to: u32) -> &'d [u8] {
    if from <= to && to as usize <= database.theorems().len() {
        database.spaced_labels(from, to)
    } else {
        b""
    }
}

/// Four statements that are theorems or an axiom, and a constant.
const LABELLED: &[u8] = b"$c a $. x $p a $= ? $. y $a a $. zz $p a $= ? $. t $p a $= ? $.";

/// Indices of theorems, and the labels between them.
const LABELS: [(u32, u32, &[u8]); 5] = [
    (0, 3, b" x zz t"),
    (0, 1, b" x"),
    (1, 3, b" zz t"),
    (1, 1, b""),
    (3, 3, b""),
];

/// Whether these are the labels between all of these indices.
fn are_labels(database: &Database<Global>) -> bool {
    for (from, to, labels) in &LABELS {
        if labels_between(database, *from, *to) != *labels {
            return false;
        }
    }
    true
}

#[test]
fn lends_labels_of_neighbours_as_one(rt: HostRuntime) {
    let is_right = match database_of(&rt, rt.alloc(), LABELLED, WITHOUT_OPEN) {
        Ok(database) => are_labels(&database),
        Err(_) => false,
    };
    assert!(&rt; is_right);
}

/// An open theorem `o` in a block with a `$d` and a `$e`, and a theorem `t` with a proof.
const TEXT_WITH_OPEN: &[u8] =
    b"$c wff $. $v p q $. wp $f wff p $. wq $f wff q $. a $a wff p $.\n${ $d p q $. h $e wff q $. o $p wff p $= ? $. $} t $p wff p $= wp a $.\n";

/// The statement number of the open theorem.
const OPEN: u32 = 8;

/// The statement number of the theorem with a proof.
const PROVED: u32 = 10;

/// The statement number of the axiom.
const AXIOM: u32 = 4;

/// How many statements there are.
const STATEMENT_COUNT: u32 = 11;

/// The byte offset of the question mark that is the open theorem's proof.
const QUESTION_MARK_PLACE: u32 = 105;

/// The numbers of the text's symbols: its constant, and its two variables.
const WFF: u32 = 0;

const P: u32 = 1;

const Q: u32 = 2;

/// What is answered with the flag, or else what is answered without it.
fn by_flag<T: Copy>(with_open: bool, with: T, without: T) -> T {
    if with_open { with } else { without }
}

/// Whether the open theorem counts as an axiom with the flag, and as a theorem without it.
fn is_counted_as(database: &Database<Global>, with_open: bool) -> bool {
    let question_mark: &[Word] = &[Word {
        start: QUESTION_MARK_PLACE,
        end: QUESTION_MARK_PLACE + 1,
    }];
    let proof: &[Word] = by_flag(with_open, &[], question_mark);
    let theorems: &[u32] = by_flag(with_open, &[PROVED], &[OPEN, PROVED]);
    let axioms: &[u32] = by_flag(with_open, &[AXIOM, OPEN], &[AXIOM]);
    let labels: &[u8] = by_flag(with_open, b" t", b" o t");
    database.len() == STATEMENT_COUNT
        && database.kind(OPEN) == by_flag(with_open, Kind::Axiom, Kind::Theorem)
        && database.is_open(OPEN) == with_open
        && database.proof_words(OPEN) == proof
        && database.theorems() == theorems
        && database.axioms() == axioms
        && labels_between(database, 0, by_flag(with_open, 1, 2)) == labels
}

/// Whether this is said of the open theorem's statement, with the flag and without.
fn is_open_statement(database: &Database<Global>) -> bool {
    database.text() == TEXT_WITH_OPEN
        && database.fault().is_none()
        && database.len() == STATEMENT_COUNT
        && database.end_at(OPEN) == QUESTION_MARK_PLACE + 2
        && database.label(OPEN) == Some(b"o".as_slice())
        && database.find(b"o") == Some(OPEN)
        && database.formula(OPEN) == [Sym::new(WFF), Sym::new(P)].as_slice()
        && database.typecode(OPEN) == Some(Sym::new(WFF))
        && database.active_at(OPEN, STATEMENT_COUNT)
        && database.disjoint_at(OPEN, Sym::new(P), Sym::new(Q))
}

/// Whether this is the symbol of the number.
fn is_symbol(database: &Database<Global>, number: u32, name: &[u8]) -> bool {
    number < database.symbol_count()
        && database.name(Sym::new(number)) == name
        && database.is_variable(Sym::new(number)) == (number != WFF)
}

/// Whether the symbols are these, with the flag and without.
fn are_symbols(database: &Database<Global>) -> bool {
    database.symbol_count() == 3
        && is_symbol(database, WFF, b"wff")
        && is_symbol(database, P, b"p")
        && is_symbol(database, Q, b"q")
}

/// Whether this is the open theorem's frame, with the flag and without.
fn is_open_frame(database: &Database<Global>) -> bool {
    if database.len() != STATEMENT_COUNT || !is_assertion(database, OPEN) {
        return false;
    }
    let frame = database.frame(OPEN);
    frame.hyps.as_slice() == [2u32, 3, 7].as_slice()
        && frame.pairs.as_slice() == [(Sym::new(P), Sym::new(Q))].as_slice()
}

/// Whether the calls answer this, with the flag or without.
fn are_answers<R: Threads + Sync>(rt: &R, alloc: Global, with_open: bool) -> bool {
    match database_of(rt, alloc, TEXT_WITH_OPEN, with_open) {
        Ok(database) => {
            is_counted_as(&database, with_open)
                && is_open_statement(&database)
                && are_symbols(&database)
                && is_open_frame(&database)
        }
        Err(_) => false,
    }
}

#[test]
fn what_the_calls_answer_of_an_open_theorem(rt: HostRuntime) {
    for with_open in [false, true] {
        assert!(&rt;
            are_answers(&rt, rt.alloc(), with_open),
            "with_open is {with_open}"
        );
    }
}

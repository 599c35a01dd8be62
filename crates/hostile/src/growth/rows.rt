//! The calls that compute rows, and the one that computes waves, on the database with two theorems.

use super::proofs::cited_twice_database;
use super::{MOST_GROWTHS, was_refused};
use crate::calls::all_checked;
use crate::heap::Refusing;
use mm_rows::{Columns, MarkedRows, Matrix, marked_rows, matrix, waves};
use mm_stmt::Database;
use mm_work::{Citations, Judged};
use std::alloc::{AllocError, Allocator, Global};
use std::process::Abort;
use std::sync::Wait;
use std::thread::Threads;

/// What the theorems of the database cite.
fn citations_of<R: Threads + Wait + Sync, A: Allocator + Copy + Send + Sync>(
    rt: &R,
    alloc: A,
) -> Result<Citations<A>, AllocError> {
    let database = cited_twice_database(rt, alloc)?;
    match all_checked(rt, alloc, &database, 1)? {
        Judged::Valid(citations) => Ok(citations),
        Judged::Faulty(_) => Err(AllocError),
    }
}

/// Whether these are the waves of the two theorems.
fn are_waves<A: Allocator>(answer: Result<Vec<u32, A>, AllocError>) -> Option<bool> {
    match answer {
        Ok(waves) => Some(waves.as_slice() == [0u32, 1].as_slice()),
        Err(_) => None,
    }
}

/// Whether these are the columns of the axioms of one typecode.
fn are_columns<A: Allocator>(answer: Result<Columns<A>, AllocError>) -> Option<bool> {
    match answer {
        Ok(columns) => Some(columns.statements() == [5u32, 9].as_slice()),
        Err(_) => None,
    }
}

/// Whether each of the two theorems rests on each of the three axioms.
fn is_full_matrix<A: Allocator>(answer: Result<Matrix<A>, AllocError>) -> Option<bool> {
    match answer {
        Ok(matrix) => Some(
            matrix.rows() == 2
                && matrix.columns() == 3
                && matrix.row_count(0) == 3
                && matrix.row_count(1) == 3
                && matrix.column_count(0) == 2
                && matrix.next_user(2, Some(0)) == Some(1),
        ),
        Err(_) => None,
    }
}

/// Whether each of the two theorems rests on each of the three axioms, from the rows alone.
fn are_full_rows<A: Allocator>(answer: Result<MarkedRows<A>, AllocError>) -> Option<bool> {
    match answer {
        Ok(marked) => Some(
            marked.rows() == 2
                && marked.columns() == 3
                && marked.row_count(0) == 3
                && marked.row_count(1) == 3,
        ),
        Err(_) => None,
    }
}

/// A call that computes something of what the two theorems cite.
#[derive(Clone, Copy)]
enum RowCall {
    Waves,
    Columns,
    Matrix,
    RowsAlone,
}

/// The calls, and how many growths each has at least.
const CALLS: [(RowCall, u64, &str); 4] = [
    (RowCall::Waves, 1, "waves"),
    (RowCall::Columns, 1, "columns"),
    (RowCall::Matrix, 6, "rows and columns"),
    (RowCall::RowsAlone, 4, "rows alone"),
];

/// Whether the answer of such a call is right. The database is in memory of its own.
fn answer<'h, R>(
    rt: &R,
    heap: &'h Refusing<Global>,
    database: &Database<'static, Global>,
    citations: &Citations<&'h Refusing<Global>>,
    columns: &Columns<&'h Refusing<Global>>,
    call: RowCall,
) -> Option<bool> {
    match call {
        RowCall::Waves => are_waves(waves(heap, citations)),
        RowCall::Columns => are_columns(Columns::new(heap, database, Some(b"|-".as_slice()))),
        RowCall::Matrix => is_full_matrix(matrix(rt, heap, citations, columns)),
        RowCall::RowsAlone => are_full_rows(marked_rows(heap, citations, columns)),
    }
}

/// Refuses each growth of such a call in turn. Returns whether the last one met no refusal, and the
/// first `least` of them did.
fn rows_in_turn<'h, R: Abort>(
    rt: &R,
    heap: &'h Refusing<Global>,
    database: &Database<'static, Global>,
    citations: &Citations<&'h Refusing<Global>>,
    columns: &Columns<&'h Refusing<Global>>,
    call: RowCall,
    least: u64,
) -> bool {
    for growth in 1..MOST_GROWTHS {
        heap.refuse(growth);
        let is_right = answer(rt, heap, database, citations, columns, call);
        let refused = was_refused(rt, heap, is_right);
        let is_right_again = answer(rt, heap, database, citations, columns, call);
        assert!(rt; is_right_again == Some(true));
        if !refused {
            return growth > least;
        }
    }
    false
}

/// Refuses each growth of each of these calls in turn.
fn all_in_turn<'h, R: Abort>(
    rt: &R,
    heap: &'h Refusing<Global>,
    database: &Database<'static, Global>,
    citations: &Citations<&'h Refusing<Global>>,
    columns: &Columns<&'h Refusing<Global>>,
) {
    for (call, least, what) in CALLS {
        let is_right = rows_in_turn(rt, heap, database, citations, columns, call, least);
        assert!(rt; is_right, "{what}");
    }
}

#[test]
fn rows_waves_and_columns_without_memory(rt: HostRuntime) -> Result<(), AllocError> {
    let heap = Refusing::new(rt.alloc());
    let database = cited_twice_database(&rt, rt.alloc())?;
    let citations = citations_of(&rt, &heap)?;
    let columns = Columns::new(&heap, &cited_twice_database(&rt, &heap)?, None)?;
    all_in_turn(&rt, &heap, &database, &citations, &columns);
    Ok(())
}

//! Checking all proofs by workers.

ghost use Rattle.std.specs.Prelude.{◌≡◌, ◌≤◌, IfOk};
ghost use Rattle.mm_spec.specs.Limits.{worker_limit};
ghost use Rattle.mm_work.specs.Judged.{IsJudgement};

use crate::capacity::citation_capacity;
use crate::gate::Gate;
use crate::in_order::{check_in_order, judged_valid};
use crate::job::Job;
use crate::judged::Judged;
use crate::merge::{found_fault, merge};
use crate::threads::work_all;
use mm_board::{Board, MOST_SEATS};
use mm_database::Database;
use mm_rules::rules_of;
use std::alloc::{AllocError, Allocator};
use std::sync::Wait;
use std::thread::Threads;

/// Checks the proofs of all theorems by `workers` workers, 1 to 64; the calling thread is the
/// first. Returns what each theorem cites, with `essential` only by the essential nodes of its
/// proof, or the fault of the first proof that has one, whose place is a byte offset from 0. Each
/// worker passes the gate between its claim of a theorem and its look. A thread that can't be
/// started doesn't change the answer: if it took its seat with it, the calling thread checks all
/// proofs again, in file order and without the gate. Fails only if out of memory, in whichever
/// worker.
pub fn check_all<'d, R: Threads + Wait + Sync, A: Allocator + Copy + Send + Sync, G: Gate>(
    rt: &R,
    alloc: A,
    database: &Database<'d, A>,
    workers: u32,
    essential: bool,
    gate: &G,
) -> Result<Judged<A>, AllocError>
    requires { (1 ≤ workers) × (workers ≤ worker_limit) }
    ensures { IfOk result (λ judged. IsJudgement database.now.statements essential judged) }
{
    let count = database.theorems().len();
    let rules = rules_of(rt, alloc, database, workers)?;
    let Ok((board, seat)) = Board::new(alloc, count as u32) else {
        return Err(AllocError);
    };
    let job = Job {
        database,
        rules: &rules,
        board: &board,
        essential,
        citation_capacity: citation_capacity(database) / workers as usize,
    };
    let gathered = work_all(rt, alloc, &job, gate, seat, workers)?;
    if gathered.seat.share() < MOST_SEATS {
        return check_in_order(alloc, database, &rules, essential);
    }
    // What follows needs no rules, and their memory.
    drop(rules);
    // The floor is the least index of a theorem whose proof has a fault, or the count.
    let (floor, _) = board.close(gathered.seat);
    if (floor as usize) < count {
        return Ok(Judged::Faulty(found_fault(database, essential, &gathered.all_findings, floor)));
    }
    let lists = merge(alloc, database, essential, &gathered.all_findings)?;
    judged_valid(alloc, database, essential, lists)
}

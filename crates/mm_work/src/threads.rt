//! The workers at one board, and what they found together.

ghost use Rattle.std.specs.Prelude.{◌≡◌, ◌++◌, ◌∷◌, [], All, IfNone, IfOk, IfSome, OnOk, false};
ghost use Rattle.mm_work.specs.Workers.{IsOfDatabase, IsFreshSeat, IsDone, AreGathered};

use crate::gate::Gate;
use crate::job::Job;
use crate::worker::{Findings, WorkerState, work};
use mm_board::{Board, Seat};
use std::alloc::{AllocError, Allocator};
use std::sync::Wait;
use std::thread;
use std::thread::{Promise, Threads};

/// A thread promises that it returns the state of a worker of this job that is done.
impl<'p, 'j, 'd, A: Allocator> Promise<WorkerState<A>> for &'p Job<'j, 'd, A> {
    ghost use Rattle.mm_work.specs.Workers.{IsDone};

    ghost kept_by = { λ job state. IsDone job.now state };
}

/// What the workers found, and the seat that absorbed theirs.
#[derive(Drop)]
pub(crate) struct Gathered<A: Allocator> {
    pub seat: Seat,
    pub all_findings: Vec<Findings<A>, A>,
}

/// A seat for one more worker, split off this one. `None` if this one has only its own share.
fn split_off<A: Allocator>(board: &Board<A>, seat: &mut Seat) -> Option<Seat>
    requires { IsFreshSeat board.now seat.old }
    ensures old_is_fresh { IsFreshSeat board.now seat.new }
    ensures new_is_fresh { IfSome result (λ new. IsFreshSeat board.now new) }
    ensures share_is_one { IfNone result (seat.old.view.share ≡ 1) }
{
    board.split(seat).ok()
}

/// Adds what a worker found to the list. Fails if the worker ran out of memory, or if there is none
/// for the list.
fn add_findings<A: Allocator>(
    all_findings: &mut Vec<Findings<A>, A>,
    findings: Findings<A>,
) -> Result<(), AllocError>
    ensures adds_findings { OnOk result
        (all_findings.new.items ≡ all_findings.old.items ++ findings ∷ []) }
    ensures has_memory { OnOk result (findings.short_of_memory ≡ false) }
{
    if findings.short_of_memory {
        return Err(AllocError);
    }
    all_findings.push(findings)?;
    Ok(())
}

/// Joins the seats of the other workers to that of the first, and lists what all workers found.
/// Fails if a worker ran out of memory, or if there is none for the list.
fn join_all<A: Allocator + Copy>(
    alloc: A,
    job: &Job<'_, '_, A>,
    first: WorkerState<A>,
    mut others: Vec<WorkerState<A>, A>,
) -> Result<Gathered<A>, AllocError>
    requires first_is_done { IsDone job.now first }
    requires others_are_done { All (IsDone job.now) others.items }
    ensures { IfOk result (λ g. AreGathered job.now g.seat g.all_findings.items) }
{
    let WorkerState { mut seat, findings } = first;
    let mut all_findings = Vec::new(alloc);
    add_findings(&mut all_findings, findings)?;
    while let Some(other) = others.pop() {
        let WorkerState {
            seat: other_seat,
            findings,
        } = other;
        add_findings(&mut all_findings, findings)?;
        job.board.join(&mut seat, other_seat);
    }
    Ok(Gathered { seat, all_findings })
}

/// Has all theorems checked by `workers` workers. The calling thread is worker 0. Each further
/// worker has a seat that was split off for it, and a thread of its own. If the thread can't be
/// started, its seat is lost.
pub(crate) fn work_all<R: Threads + Wait + Sync, A: Allocator + Copy + Send + Sync, G: Gate>(
    rt: &R,
    alloc: A,
    job: &Job<'_, '_, A>,
    gate: &G,
    seat: Seat,
    workers: u32,
) -> Result<Gathered<A>, AllocError>
    requires is_of_database { IsOfDatabase job.now }
    requires seat_is_fresh { IsFreshSeat job.now.board.now seat }
    ensures { IfOk result (λ g. AreGathered job.now g.seat g.all_findings.items) }
{
    thread::scope(
        thread::scope_env(),
        rt,
        move |scope| -> Result<Gathered<A>, AllocError>
            requires is_of_database { IsOfDatabase job.now }
            requires seat_is_fresh { IsFreshSeat job.now.board.now seat }
            ensures { IfOk result (λ g. AreGathered job.entry.now g.seat g.all_findings.items) }
        {
            let mut own_seat = seat;
            let mut handles = Vec::with_capacity(alloc, workers as usize)?;
            for worker in 1..workers {
                if let Some(new_seat) = split_off(job.board, &mut own_seat) {
                    if let Ok(handle) = scope.spawn_with(
                        job,
                        move || -> WorkerState<A>
                            requires is_of_database { IsOfDatabase job.now }
                            requires seat_is_fresh { IsFreshSeat job.now.board.now new_seat }
                            ensures { IsDone job.entry.now result }
                        { work(alloc, job, gate, new_seat, worker) },
                    ) {
                        handles.push(handle)?;
                    }
                }
            }
            let first = work(alloc, job, gate, own_seat, 0);
            let Ok(others) = thread::join_promised(rt, handles) else {
                return Err(AllocError);
            };
            join_all(alloc, job, first, others)
        },
    )
}

//! A worker: draws theorems from the board and checks their proofs.

ghost use Rattle.std.specs.Prelude.{◌≡◌, ◌<◌, ◌++◌, ◌∷◌, [], ℕ, None, OnOk, true, false, length};
ghost use Rattle.mm_check.specs.Checker.{IsMadeFor};
ghost use Rattle.mm_spec.specs.Output.{theorems};
ghost use Rattle.mm_board.specs.Records.{times_recorded};
ghost use Rattle.mm_work.specs.Workers.{FindsValid, FindsFault, IsOfDatabase, IsFreshSeat};
ghost use Rattle.mm_work.specs.Workers.{HasDrawn, IsBetweenTheorems, IsDone};

use crate::gate::Gate;
use crate::job::Job;
use crate::proof::{VerifyRefused, verify};
use mm_board::Seat;
use mm_check::Checker;
use mm_lists::Lists;
use mm_spec::Fault;
use std::alloc::{AllocError, Allocator};

/// The fault of a theorem's proof, and the theorem's index.
#[derive(Clone, Copy)]
pub(crate) struct IndexedFault {
    pub index: u32,
    pub fault: Fault,
}

/// What a worker found.
pub(crate) struct Findings<A: Allocator> {
    /// The indices of the theorems whose proofs are valid, in the order in which they were checked.
    pub valid: Vec<u32, A>,
    /// What each of these cites.
    pub cites: Lists<u32, A>,
    /// The fault of a proof that isn't valid. Once the worker has reported it, it skips all
    /// theorems that it draws.
    pub faulty: Option<IndexedFault>,
    /// Whether the worker ran out of memory. Then the other fields are meaningless.
    pub short_of_memory: bool,
}

/// Dropped in one call: docs/PROOFS.md, "What a check costs".
impl<A: Allocator> Drop for Findings<A> {
    fn drop(self) {
        let Self {
            valid: _,
            cites: _,
            faulty: _,
            short_of_memory: _,
        } = self;
    }
}

impl<A: Allocator> Findings<A> {
    /// Nothing found yet. Memory is reserved for the lists of `theorems` theorems, with
    /// `citation_capacity` citations in all.
    fn new(alloc: A, theorems: usize, citation_capacity: usize) -> Findings<A>
    where
        A: Copy,
        ensures none_valid { result.valid.items ≡ [] }
        ensures no_cites { result.cites ≡ [] }
        ensures no_fault { result.faulty ≡ None }
    {
        Findings {
            valid: Vec::new(alloc),
            cites: Lists::with_expected_capacity(alloc, theorems, citation_capacity),
            faulty: None,
            short_of_memory: false,
        }
    }

    /// Adds a theorem whose proof is valid, and what it cites.
    fn add_valid(&mut self, index: u32, cites: &[u32]) -> Result<(), AllocError>
        ensures adds_index { OnOk result
            (self.new.valid.items ≡ self.old.valid.items ++ index ∷ []) }
        ensures adds_cites { OnOk result (self.new.cites ≡ self.old.cites ++ cites.now ∷ []) }
        ensures fault_stays { self.new.faulty ≡ self.old.faulty }
        ensures memory_flag_stays { self.new.short_of_memory ≡ self.old.short_of_memory }
    {
        self.cites.push(cites)?;
        self.valid.push(index)?;
        Ok(())
    }
}

/// A worker's seat, and what it found.
#[derive(Drop)]
pub(crate) struct WorkerState<A: Allocator> {
    pub seat: Seat,
    pub findings: Findings<A>,
}

/// Checks the proof of the theorem with this index, and adds the result to what the worker found.
/// Returns whether the proof is valid and what the theorem cites was added.
fn check_theorem<A: Allocator + Copy>(
    alloc: A,
    job: &Job<'_, '_, A>,
    checker: &mut Checker<'_, A>,
    findings: &mut Findings<A>,
    index: u32,
) -> bool
    requires index_lt_count { index < length (theorems job.now.database.now.statements) }
    requires made_for { IsMadeFor job.now.database.now.statements checker.old }
    ensures made_for { IsMadeFor job.now.database.now.statements checker.new }
    ensures memory_lasted { findings.new.short_of_memory ≡ false
        → findings.old.short_of_memory ≡ false }
    ensures finds_valid { findings.new.short_of_memory ≡ false → result ≡ true
        → FindsValid job.now index findings.old findings.new }
    ensures finds_fault { findings.new.short_of_memory ≡ false → result ≡ false
        → FindsFault job.now index findings.old findings.new }
{
    let database = job.database;
    let theorem = database.theorems()[index as usize];
    match verify(alloc, database, checker, theorem, job.essential) {
        Ok(checked) => match findings.add_valid(index, checked.cites()) {
            Ok(()) => return true,
            Err(_) => findings.short_of_memory = true,
        },
        Err(VerifyRefused::Fault(fault)) => findings.faulty = Some(IndexedFault { index, fault }),
        Err(VerifyRefused::Memory) => findings.short_of_memory = true,
    }
    false
}

/// Looks whether the theorem that the seat has drawn is still wanted, and if so checks its proof,
/// and then settles or reports it.
fn settle_drawn<A: Allocator + Copy>(
    alloc: A,
    job: &Job<'_, '_, A>,
    checker: &mut Checker<'_, A>,
    state: &mut WorkerState<A>,
    index: u32,
)
    requires made_for { IsMadeFor job.now.database.now.statements checker.old }
    requires has_drawn { HasDrawn job.now index state.old }
    ensures made_for { IsMadeFor job.now.database.now.statements checker.new }
    ensures is_between { IsBetweenTheorems job.now state.new }
    ensures over_stays { state.new.seat.view.over ≡ state.old.seat.view.over }
    ensures record_stays { (i : ℕ)
        → times_recorded i state.new.seat.view ≡ times_recorded i state.old.seat.view }
{
    let board = job.board;
    board.look(&mut state.seat);
    if state.seat.held().is_none() {
        return;
    }
    if check_theorem(alloc, job, checker, &mut state.findings, index) {
        board.settle(&mut state.seat, index);
    } else {
        board.report(&mut state.seat, index);
    }
}

/// The work of one worker: draws theorems until none is left, and skips, settles or reports each.
pub(crate) fn work<A: Allocator + Copy, G: Gate>(
    alloc: A,
    job: &Job<'_, '_, A>,
    gate: &G,
    seat: Seat,
    worker: u32,
) -> WorkerState<A>
    requires is_of_database { IsOfDatabase job.now }
    requires seat_is_fresh { IsFreshSeat job.now.board.now seat }
    ensures { IsDone job.now result }
{
    let mut state = WorkerState {
        seat,
        findings: Findings::new(alloc, job.database.theorems().len(), job.citation_capacity),
    };
    let Ok(mut checker) = Checker::new(alloc, job.database, job.rules) else {
        state.findings.short_of_memory = true;
        return state;
    };
    let board = job.board;
    while let Some(index) = board.claim(&mut state.seat) {
        gate.enter(worker, index);
        settle_drawn(alloc, job, &mut checker, &mut state, index);
    }
    state
}

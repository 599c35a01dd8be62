//! Databases whose proofs are checked by one worker and by several, and gates at which workers wait
//! for one another.

ghost use Rattle.std.specs.Prelude.{◌≤◌};

use crate::databases::database_of;
use crate::flags::{BY_ALL_NODES, WITHOUT_OPEN};
use crate::texts::{
    ANOTHER_FAULTY, BASE, FIRST_FAULT_PLACE, FIRST_FAULTY, LONG_FAULTY, NONE_FAULTY, SHORT_FAULTY,
    THEOREM_COUNT, joined, many_theorems_text, through_a_theorem,
};
use mm_spec::Code;
use mm_work::{Citations, Gate, Judged, Open, check_all};
use std::alloc::{AllocError, Global};
use std::sync::Wait;
use std::sync::atomic::{AtomicU64, Ordering};
use std::thread;
use std::thread::Threads;

/// The number of turns after which a worker stops waiting at the gate.
const MOST_TURNS: u32 = 10_000_000;

/// What checking the proofs of a text finds.
#[derive(Clone, Copy)]
enum Finding {
    /// They are valid, and these are the citations of the text with two theorems.
    CitesThroughATheorem,
    /// They are valid, and each of the many theorems cites the same assertion.
    ManyCiteOne,
    /// At this place a proof ends with another number of entries than one.
    FaultAt(u32),
}

/// Whether these are the citations of the two theorems, by their statements.
fn cites_through_a_theorem(citations: &Citations<Global>) -> bool {
    citations.rows() == 2
        && citations.theorems() == [13u32, 17].as_slice()
        && citations.theorem(0) == 13
        && citations.of(0) == [4u32, 5, 9].as_slice()
        && citations.theorem(1) == 17
        && citations.of(1) == [4u32, 13].as_slice()
}

/// Whether each of the many theorems cites the same assertion.
fn many_cite_one(citations: &Citations<Global>) -> bool {
    for row in 0..citations.rows() {
        if citations.theorem(row) != row + 6 || citations.of(row) != [4u32].as_slice() {
            return false;
        }
    }
    citations.rows() == THEOREM_COUNT
}

/// Whether this was found.
fn is_so(judged: &Judged<Global>, finding: Finding) -> bool {
    match (judged, finding) {
        (Judged::Valid(citations), Finding::CitesThroughATheorem) => {
            cites_through_a_theorem(citations)
        }
        (Judged::Valid(citations), Finding::ManyCiteOne) => many_cite_one(citations),
        (Judged::Faulty(fault), Finding::FaultAt(at)) => {
            fault.at == at && fault.code == Code::NotOneEntry
        }
        _ => false,
    }
}

/// Whether checking the proofs of a text finds this, if there is memory for the text and the check.
fn is_found<R: Threads + Wait + Sync, G: Gate>(
    rt: &R,
    alloc: Global,
    text: Result<Vec<u8>, AllocError>,
    finding: Finding,
    workers: u32,
    gate: &G,
) -> bool
    requires { (1 ≤ workers) × (workers ≤ 64) }
{
    let Ok(text) = text else {
        return false;
    };
    let Ok(database) = database_of(rt, alloc, &text, WITHOUT_OPEN) else {
        return false;
    };
    match check_all(rt, alloc, &database, workers, BY_ALL_NODES, gate) {
        Ok(judged) => is_so(&judged, finding),
        Err(_) => false,
    }
}

#[test]
fn two_theorems_by_any_workers(rt: HostRuntime) {
    let alloc = rt.alloc();
    let fault = Finding::FaultAt(BASE.len() as u32 + 47);
    for workers in [1, 2, 64] {
        let valid = through_a_theorem(alloc);
        let faulty = joined(alloc, &[BASE, LONG_FAULTY, SHORT_FAULTY]);
        let is_valid = is_found(
            &rt,
            alloc,
            valid,
            Finding::CitesThroughATheorem,
            workers,
            &Open,
        );
        let is_faulty = is_found(&rt, alloc, faulty, fault, workers, &Open);
        assert!(&rt; is_valid && is_faulty, "{workers} workers");
    }
}

#[test]
fn many_theorems_by_any_workers(rt: HostRuntime) {
    let alloc = rt.alloc();
    let fault = Finding::FaultAt(FIRST_FAULT_PLACE);
    for workers in [1, 2, 64] {
        let valid = many_theorems_text(alloc, NONE_FAULTY);
        let faulty = many_theorems_text(alloc, &[FIRST_FAULTY, ANOTHER_FAULTY]);
        let is_valid = is_found(&rt, alloc, valid, Finding::ManyCiteOne, workers, &Open);
        let is_faulty = is_found(&rt, alloc, faulty, fault, workers, &Open);
        assert!(&rt; is_valid && is_faulty, "{workers} workers");
    }
}

/// A gate at which each worker's first call waits until all workers have come, for at most
/// `MOST_TURNS` turns.
struct Meeting {
    /// A bit for each worker.
    all: u64,
    /// The bits of the workers that have come.
    come: AtomicU64,
    /// How many workers stopped waiting.
    gave_up: AtomicU64,
}

impl Drop for Meeting {
    fn drop(self) {
        let Self {
            all: _,
            come: _,
            gave_up: _,
        } = self;
    }
}

impl Meeting {
    /// A gate for the workers whose bits are set in `all`.
    fn of(all: u64) -> Meeting {
        Meeting {
            all,
            come: AtomicU64::new(0),
            gave_up: AtomicU64::new(0),
        }
    }

    /// Whether all workers came, and none of them waited to the end of its turns.
    fn was_held(&self) -> bool {
        self.come.load(Ordering::SeqCst) == self.all && self.gave_up.load(Ordering::SeqCst) == 0
    }
}

impl Gate for Meeting {
    fn enter(&self, worker: u32, _theorem: u32) {
        let bit_of_worker = 1u64.wrapping_shl(worker);
        if self.come.fetch_or(bit_of_worker, Ordering::SeqCst) & bit_of_worker != 0 {
            return;
        }
        for _ in 0..MOST_TURNS {
            if self.come.load(Ordering::SeqCst) == self.all {
                return;
            }
            thread::yield_now();
        }
        self.gave_up.fetch_add(1, Ordering::SeqCst);
    }
}

#[test]
fn two_at_the_gate(rt: HostRuntime) {
    let text = through_a_theorem(rt.alloc());
    let gate = Meeting::of(0b11);
    let is_valid = is_found(
        &rt,
        rt.alloc(),
        text,
        Finding::CitesThroughATheorem,
        2,
        &gate,
    );
    assert!(&rt; is_valid && gate.was_held());
}

#[test]
fn four_at_the_gate(rt: HostRuntime) {
    let text = many_theorems_text(rt.alloc(), NONE_FAULTY);
    let gate = Meeting::of(0b1111);
    let is_valid = is_found(&rt, rt.alloc(), text, Finding::ManyCiteOne, 4, &gate);
    assert!(&rt; is_valid && gate.was_held());
}

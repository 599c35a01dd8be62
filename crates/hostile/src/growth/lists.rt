//! The lists in which layers keep what they find: if an element is refused, nothing was appended.

use super::{MOST_GROWTHS, was_refused};
use crate::heap::Refusing;
use mm_lists::Lists;
use mm_machine::{DisjointCache, Machine};
use mm_proof::{Step, Steps};
use mm_stmt::{Database, Sym};
use std::alloc::{AllocError, Allocator, Global};
use std::process::Abort;

/// How many growths appending the first list has at least: that of the elements, and that of the
/// bounds.
const LEAST_OF_LIST: u64 = 2;

/// What a theorem cites.
const FIRST_CITES: [u32; 3] = [4, 5, 9];

/// What the next theorem cites.
const SECOND_CITES: [u32; 2] = [4, 13];

/// Refuses a growth of appending a list to none. Asserts that after a refusal the next list is the
/// first. Returns whether there was such a growth.
fn list_refused<R: Abort>(rt: &R, heap: &Refusing<Global>, growth: u64) -> bool {
    let mut lists = Lists::new(heap);
    heap.refuse(growth);
    match lists.push(&FIRST_CITES) {
        Ok(()) => was_refused(rt, heap, Some(lists.get(0) == FIRST_CITES.as_slice())),
        Err(_) => {
            let refused = was_refused(rt, heap, None);
            let is_first = match lists.push(&SECOND_CITES) {
                Ok(()) => lists.get(0) == SECOND_CITES.as_slice(),
                Err(_) => false,
            };
            assert!(rt; is_first);
            refused
        }
    }
}

#[test]
fn a_list_that_is_refused_is_not_appended(rt: HostRuntime) {
    let heap = Refusing::new(rt.alloc());
    for growth in 1..MOST_GROWTHS {
        if !list_refused(&rt, &heap, growth) {
            assert!(&rt; growth > LEAST_OF_LIST);
            return;
        }
    }
    assert!(&rt; false);
}

/// The statement number of a theorem.
const THEOREM: u32 = 13;

/// Refuses a growth of appending a step to none, with capacity for `capacity` steps. Asserts that
/// after a refusal there is no step, and that the next one is the first. Returns whether there was
/// such a growth.
fn step_refused<R: Abort>(rt: &R, heap: &Refusing<Global>, capacity: usize, growth: u64) -> bool {
    heap.refuse(growth);
    let mut steps = Steps::none(heap, THEOREM, capacity);
    match steps.push(20, Step::Label(2)) {
        Ok(()) => was_refused(rt, heap, Some(steps.step(0) == Step::Label(2))),
        Err(_) => {
            let refused = was_refused(rt, heap, None);
            assert!(rt; steps.len() == 0);
            let is_first = match steps.push(30, Step::Label(3)) {
                Ok(()) => steps.step(0) == Step::Label(3) && steps.place(0) == 30,
                Err(_) => false,
            };
            assert!(rt; is_first);
            refused
        }
    }
}

#[test]
fn a_step_that_is_refused_is_not_appended(rt: HostRuntime) {
    let heap = Refusing::new(rt.alloc());
    for capacity in [0, 4] {
        assert!(&rt; step_refused(&rt, &heap, capacity, 1));
        assert!(&rt; !step_refused(&rt, &heap, capacity, 2));
    }
}

/// Whether there is a list of disjoint pairs.
fn is_disjoint_cache<A: Allocator>(answer: Result<DisjointCache<A>, AllocError>) -> Option<bool> {
    match answer {
        Ok(_) => Some(true),
        Err(_) => None,
    }
}

#[test]
fn pairs_without_memory(rt: HostRuntime) {
    let heap = Refusing::new(rt.alloc());
    heap.refuse(1);
    assert!(&rt; was_refused(&rt, &heap, is_disjoint_cache(DisjointCache::new(&heap))));
    heap.refuse(2);
    assert!(&rt; !was_refused(&rt, &heap, is_disjoint_cache(DisjointCache::new(&heap))));
}

/// Whether a formula that is marked and repeated is then one of two entries.
fn is_repeated<'h>(
    heap: &'h Refusing<Global>,
    database: &Database<'static, &'h Refusing<Global>>,
) -> Result<bool, AllocError> {
    if database.symbol_count() < 3 {
        return Ok(false);
    }
    let mut machine = Machine::new(heap, database)?;
    let formula = [Sym::new(0), Sym::new(2), Sym::new(1)];
    machine.push(&formula)?;
    machine.mark(0)?;
    let alone = machine.has_one_entry() && machine.is_only(&formula)?;
    machine.repeat(0)?;
    Ok(alone && !machine.has_one_entry())
}

/// Whether `is_repeated` says so, or `None` if the machine ran out of memory.
pub(crate) fn repeated<'h>(
    heap: &'h Refusing<Global>,
    database: &Database<'static, &'h Refusing<Global>>,
) -> Option<bool> {
    match is_repeated(heap, database) {
        Ok(is_right) => Some(is_right),
        Err(_) => None,
    }
}

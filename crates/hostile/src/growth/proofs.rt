//! The calls that read and check proofs, on the first theorem of a database with two.

ghost use Rattle.std.specs.Prelude.{◌≡◌, [], IfSome, IsTrue};
ghost use Rattle.mm_spec.specs.Citation.{steps_at, reading_faults_at};
ghost use Rattle.mm_spec.specs.Output.{is_theorem_at};
ghost use Rattle.mm_steps.specs.TheoremSteps.{theorem_steps};

use super::lists::repeated;
use super::{MOST_GROWTHS, WITHOUT_OPEN, was_refused};
use crate::calls::{BY_ALL_NODES, all_checked, checked, checked_by};
use crate::heap::Refusing;
use crate::texts::CITED_TWICE;
use mm_board::{Board, BoardFault, Seat};
use mm_check::{CheckRefused, Checked, Checker, Rules};
use mm_lex::{Cuts, lex};
use mm_proof::{ProofRefused, Step, Steps, read_proof};
use mm_rules::rules_of;
use mm_stmt::{Database, read as read_statements};
use mm_work::{Citations, Judged, check_alone};
use std::alloc::{AllocError, Allocator, Global};
use std::process::Abort;
use std::sync::Wait;
use std::thread::Threads;

/// How many workers compile rules: so many that the text with two theorems has three stretches.
const WORKERS: u32 = 3;

/// How many growths a check has at least that makes a checker of its own.
const LEAST_OF_CHECK: u64 = 10;

/// How many growths the first check of a checker has at least. They are fewer, since the growths of
/// making the checker came before.
const LEAST_OF_FIRST_CHECK: u64 = 5;

/// The database of `CITED_TWICE`, which has two theorems.
pub(crate) fn cited_twice_database<R: Threads + Sync, A: Allocator + Copy + Send + Sync>(
    rt: &R,
    alloc: A,
) -> Result<Database<'static, A>, AllocError> {
    let cuts = Cuts::equal(alloc, CITED_TWICE.len(), 1)?;
    let lexed = lex(rt, alloc, CITED_TWICE, &cuts)?;
    read_statements(alloc, CITED_TWICE, &lexed, WITHOUT_OPEN)
}

/// The first theorem, if there is one.
fn first_theorem<A: Allocator>(database: &Database<'_, A>) -> Option<u32>
    ensures { IfSome result (λ k. IsTrue (is_theorem_at database.now.statements k)) }
{
    let theorems = database.theorems();
    if 0 < theorems.len() {
        Some(theorems[0])
    } else {
        None
    }
}

/// Whether these are the steps of the first theorem's proof.
fn are_steps<A: Allocator>(answer: Result<Steps<A>, ProofRefused>) -> Option<bool> {
    match answer {
        Ok(steps) => Some(
            steps.theorem() == 13
                && steps.len() == 9
                && steps.step(4) == Step::Label(12)
                && steps.step(8) == Step::Label(9),
        ),
        Err(ProofRefused::Fault(_)) => Some(false),
        Err(ProofRefused::Memory) => None,
    }
}

/// Whether this is what the first theorem cites.
fn is_checked<A: Allocator>(answer: Result<Checked<A>, CheckRefused>) -> Option<bool> {
    match answer {
        Ok(checked) => Some(checked.theorem() == 13 && checked.cites() == [4u32, 5, 9].as_slice()),
        Err(CheckRefused::Fault(_)) => Some(false),
        Err(CheckRefused::Memory) => None,
    }
}

/// Whether there are rules.
fn are_rules<A: Allocator>(answer: Result<Rules<A>, AllocError>) -> Option<bool> {
    match answer {
        Ok(_) => Some(true),
        Err(_) => None,
    }
}

/// Whether there is a checker.
fn is_checker<A: Allocator>(answer: Result<Checker<A>, AllocError>) -> Option<bool> {
    match answer {
        Ok(_) => Some(true),
        Err(_) => None,
    }
}

/// Refuses each growth of a check in turn.
fn checked_in_turn<'h, R: Abort>(
    rt: &R,
    heap: &'h Refusing<Global>,
    database: &Database<'static, &'h Refusing<Global>>,
    theorem: u32,
    steps: &Steps<&'h Refusing<Global>>,
) -> bool
    requires is_theorem { IsTrue (is_theorem_at database.now.statements theorem) }
    requires steps_are_read { steps.now ≡ theorem_steps theorem (steps_at database.now.statements
        theorem) }
    requires no_reading_faults { reading_faults_at database.now.statements theorem ≡ [] }
{
    for growth in 1..MOST_GROWTHS {
        heap.refuse(growth);
        let refused = was_refused(
            rt,
            heap,
            is_checked(checked(heap, database, theorem, steps)),
        );
        assert!(rt; is_checked(checked(heap, database, theorem, steps)) == Some(true));
        if !refused {
            return growth > LEAST_OF_CHECK;
        }
    }
    false
}

/// Refuses a growth of a checker's first check, and asserts that the checker is right afterwards.
/// Returns whether there was such a growth; `None` if there is no checker.
fn is_growth_refused<'h, R: Abort>(
    rt: &R,
    heap: &'h Refusing<Global>,
    database: &Database<'static, &'h Refusing<Global>>,
    theorem: u32,
    steps: &Steps<&'h Refusing<Global>>,
    growth: u64,
) -> Option<bool>
    requires is_theorem { IsTrue (is_theorem_at database.now.statements theorem) }
    requires steps_are_read { steps.now ≡ theorem_steps theorem (steps_at database.now.statements
        theorem) }
    requires no_reading_faults { reading_faults_at database.now.statements theorem ≡ [] }
{
    let rules = Rules::none(heap);
    let Ok(mut checker) = Checker::new(heap, database, &rules) else {
        return None;
    };
    heap.refuse(growth);
    let is_right = is_checked(checked_by(&mut checker, heap, database, theorem, steps));
    let refused = was_refused(rt, heap, is_right);
    let is_right_again = is_checked(checked_by(&mut checker, heap, database, theorem, steps));
    assert!(rt; is_right_again == Some(true));
    Some(refused)
}

/// Refuses each growth of a checker's first check in turn.
fn checkers_in_turn<'h, R: Abort>(
    rt: &R,
    heap: &'h Refusing<Global>,
    database: &Database<'static, &'h Refusing<Global>>,
    theorem: u32,
    steps: &Steps<&'h Refusing<Global>>,
) -> bool
    requires is_theorem { IsTrue (is_theorem_at database.now.statements theorem) }
    requires steps_are_read { steps.now ≡ theorem_steps theorem (steps_at database.now.statements
        theorem) }
    requires no_reading_faults { reading_faults_at database.now.statements theorem ≡ [] }
{
    for growth in 1..MOST_GROWTHS {
        match is_growth_refused(rt, heap, database, theorem, steps, growth) {
            Some(true) => {}
            Some(false) => return growth > LEAST_OF_FIRST_CHECK,
            None => return false,
        }
    }
    false
}

/// Refuses in turn each growth of a check of the first theorem, and of a checker's first check.
fn first_checked<'h, R: Abort>(
    rt: &R,
    heap: &'h Refusing<Global>,
    database: &Database<'static, &'h Refusing<Global>>,
) -> bool {
    let Some(theorem) = first_theorem(database) else {
        return false;
    };
    match read_proof(heap, database, theorem) {
        Ok(steps) => {
            checked_in_turn(rt, heap, database, theorem, &steps)
                && checkers_in_turn(rt, heap, database, theorem, &steps)
        }
        Err(_) => false,
    }
}

#[test]
fn a_proof_checked_without_memory_and_again_by_the_same_checker(
    rt: HostRuntime,
) -> Result<(), AllocError> {
    let heap = Refusing::new(rt.alloc());
    let database = cited_twice_database(&rt, &heap)?;
    assert!(&rt; first_checked(&rt, &heap, &database));
    Ok(())
}

/// Whether this is a board with its first seat.
pub(crate) fn is_board<A: Allocator>(answer: Result<(Board<A>, Seat), BoardFault>) -> Option<bool> {
    match answer {
        Ok((_board, seat)) => Some(seat.share() == 64 && seat.held().is_none() && seat.seen() == 3),
        Err(BoardFault::Memory) => None,
        Err(_) => Some(false),
    }
}

/// Whether this is what both theorems cite.
pub(crate) fn are_cited<A: Allocator>(citations: &Citations<A>) -> bool {
    citations.theorems() == [13u32, 17].as_slice()
        && citations.of(0) == [4u32, 5, 9].as_slice()
        && citations.of(1) == [4u32, 13].as_slice()
}

/// Whether both proofs were found valid, with what they cite.
pub(crate) fn is_judged<A: Allocator>(answer: Result<Judged<A>, AllocError>) -> Option<bool> {
    match answer {
        Ok(Judged::Valid(citations)) => Some(citations.rows() == 2 && are_cited(&citations)),
        Ok(Judged::Faulty(_)) => Some(false),
        Err(_) => None,
    }
}

/// Whether the steps of the first theorem's proof are read.
fn is_first_read<'h>(
    heap: &'h Refusing<Global>,
    database: &Database<'static, &'h Refusing<Global>>,
) -> Option<bool> {
    match first_theorem(database) {
        Some(theorem) => are_steps(read_proof(heap, database, theorem)),
        None => Some(false),
    }
}

/// Whether a checker is made that has no rules yet.
fn is_checker_made<'h>(
    heap: &'h Refusing<Global>,
    database: &Database<'static, &'h Refusing<Global>>,
) -> Option<bool> {
    let rules = Rules::none(heap);
    is_checker(Checker::new(heap, database, &rules))
}

/// A call on the database.
#[derive(Clone, Copy)]
enum DatabaseCall {
    ReadProof,
    Rules,
    RulesByWorkers,
    MakeChecker,
    CheckAll,
    CheckAlone,
    Repeat,
}

/// The calls, and how many growths each has at least.
const CALLS: [(DatabaseCall, u64, &str); 7] = [
    (DatabaseCall::ReadProof, 1, "a proof is read"),
    (DatabaseCall::Rules, 5, "rules are made"),
    (
        DatabaseCall::RulesByWorkers,
        10,
        "rules are made by workers",
    ),
    (DatabaseCall::MakeChecker, 3, "a checker is made"),
    (DatabaseCall::CheckAll, 10, "all proofs are checked"),
    (
        DatabaseCall::CheckAlone,
        10,
        "all proofs are checked on one thread",
    ),
    (DatabaseCall::Repeat, 10, "a formula is marked and repeated"),
];

/// Whether the answer of such a call is right.
fn answer<'h, R: Threads + Wait + Sync>(
    rt: &R,
    heap: &'h Refusing<Global>,
    database: &Database<'static, &'h Refusing<Global>>,
    call: DatabaseCall,
) -> Option<bool> {
    match call {
        DatabaseCall::ReadProof => is_first_read(heap, database),
        DatabaseCall::Rules => are_rules(Rules::new(heap, database)),
        DatabaseCall::RulesByWorkers => are_rules(rules_of(rt, heap, database, WORKERS)),
        DatabaseCall::MakeChecker => is_checker_made(heap, database),
        DatabaseCall::CheckAll => is_judged(all_checked(rt, heap, database, 2)),
        DatabaseCall::CheckAlone => is_judged(check_alone(heap, database, BY_ALL_NODES)),
        DatabaseCall::Repeat => repeated(heap, database),
    }
}

/// Refuses each growth of such a call in turn. Returns whether the last one met no refusal, and the
/// first `least` of them did.
fn call_in_turn<'h, R: Abort + Threads + Wait + Sync>(
    rt: &R,
    heap: &'h Refusing<Global>,
    database: &Database<'static, &'h Refusing<Global>>,
    call: DatabaseCall,
    least: u64,
) -> bool {
    for growth in 1..MOST_GROWTHS {
        heap.refuse(growth);
        let refused = was_refused(rt, heap, answer(rt, heap, database, call));
        assert!(rt; answer(rt, heap, database, call) == Some(true));
        if !refused {
            return growth > least;
        }
    }
    false
}

/// Refuses each growth of each of these calls in turn.
fn all_in_turn<'h, R: Abort + Threads + Wait + Sync>(
    rt: &R,
    heap: &'h Refusing<Global>,
    database: &Database<'static, &'h Refusing<Global>>,
) {
    for (call, least, what) in CALLS {
        assert!(rt; call_in_turn(rt, heap, database, call, least), "{what}");
    }
}

#[test]
fn calls_on_a_database_without_memory(rt: HostRuntime) -> Result<(), AllocError> {
    let heap = Refusing::new(rt.alloc());
    let database = cited_twice_database(&rt, &heap)?;
    all_in_turn(&rt, &heap, &database);
    Ok(())
}

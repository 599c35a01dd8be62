//! The calls that take options of a request, each in one place.

ghost use Rattle.std.specs.Prelude.{◌≡◌, ◌≤◌, [], IfOk, IsTrue};
ghost use Rattle.mm_spec.specs.Citation.{steps_at, reading_faults_at};
ghost use Rattle.mm_spec.specs.Output.{is_theorem_at};
ghost use Rattle.mm_steps.specs.TheoremSteps.{theorem_steps};
ghost use Rattle.mm_check.specs.Checker.{IsMadeFor};

use mm_check::{CheckRefused, Checked, Checker, check};
use mm_plan::{Cutting, Plan};
use mm_proof::Steps;
use mm_run::{RunEnd, run};
use mm_spec::Sections;
use mm_stmt::Database;
use mm_work::{Judged, Open, check_all};
use std::alloc::{AllocError, Allocator, Global};
use std::io::{Read, Write};
use std::sync::Wait;
use std::thread::Threads;

/// How many pieces a text is cut into.
pub(crate) const PIECES: u32 = 3;

/// How many workers a run has.
pub(crate) const WORKERS: u32 = 2;

/// A theorem cites by all nodes of its proof.
pub(crate) const BY_ALL_NODES: bool = false;

/// A plan that cuts the text in this way, checks proofs with `workers` workers, and writes these
/// sections.
pub(crate) fn plan_of<A: Allocator>(cuts: Cutting<A>, workers: u32, sections: Sections) -> Plan<A> {
    let mut plan = Plan::without_options(cuts, workers);
    plan.choice = sections;
    plan
}

/// How a run ends; `None` if the plan isn't lawful.
pub(crate) fn ended<R: Threads + Wait + Sync, A: Allocator + Copy + Send + Sync, I: Read, O: Write>(
    rt: &R,
    alloc: A,
    plan: &Plan<A>,
    from: &mut I,
    to: &mut O,
) -> Option<RunEnd> {
    if plan.is_lawful() {
        Some(run(rt, alloc, plan, from, to))
    } else {
        None
    }
}

/// How a run on the text ends, and what it writes.
pub(crate) fn run_on<R: Threads + Wait + Sync>(
    rt: &R,
    alloc: Global,
    cuts: Cutting<Global>,
    mut text: &[u8],
) -> (Option<RunEnd>, Vec<u8>) {
    let plan = plan_of(cuts, WORKERS, Sections::by_default());
    let mut written = Vec::new(alloc);
    let end = ended(rt, alloc, &plan, &mut text, &mut written);
    (end, written)
}

/// What a theorem cites, or why its proof wasn't found valid.
pub(crate) fn checked<A: Allocator + Copy>(
    alloc: A,
    database: &Database<'_, A>,
    theorem: u32,
    steps: &Steps<A>,
) -> Result<Checked<A>, CheckRefused>
    requires is_theorem { IsTrue (is_theorem_at database.now.statements theorem) }
    requires steps_are_read { steps.now ≡ theorem_steps theorem (steps_at database.now.statements
        theorem) }
    requires no_reading_faults { reading_faults_at database.now.statements theorem ≡ [] }
{
    check(alloc, database, theorem, steps, BY_ALL_NODES)
}

/// What a theorem cites, or why its proof wasn't found valid, by this checker.
pub(crate) fn checked_by<A: Allocator + Copy>(
    checker: &mut Checker<'_, A>,
    alloc: A,
    database: &Database<'_, A>,
    theorem: u32,
    steps: &Steps<A>,
) -> Result<Checked<A>, CheckRefused>
    requires made_for { IsMadeFor database.now.statements checker.old }
    requires is_theorem { IsTrue (is_theorem_at database.now.statements theorem) }
    requires steps_are_read { steps.now ≡ theorem_steps theorem (steps_at database.now.statements
        theorem) }
    requires no_reading_faults { reading_faults_at database.now.statements theorem ≡ [] }
    ensures made_for { IsMadeFor database.now.statements checker.new }
{
    checker.check(alloc, database, theorem, steps, BY_ALL_NODES)
}

/// What all theorems cite, or the fault of the first proof that has one, by `workers` workers.
pub(crate) fn all_checked<R: Threads + Wait + Sync, A: Allocator + Copy + Send + Sync>(
    rt: &R,
    alloc: A,
    database: &Database<'_, A>,
    workers: u32,
) -> Result<Judged<A>, AllocError>
    requires { (1 ≤ workers) × (workers ≤ 64) }
{
    check_all(rt, alloc, database, workers, BY_ALL_NODES, &Open)
}

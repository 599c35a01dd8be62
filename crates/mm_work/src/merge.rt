//! Combining what the workers found, in the order of the theorems.

ghost use Rattle.std.specs.Prelude.{◌≡◌, ◌<◌, ◌≤◌, ◌⊎◌, ℕ, All, IfOk, length, slice_get};
ghost use Rattle.mm_spec.specs.Output.{theorems};
ghost use Rattle.mm_work.specs.Judged.{HaveCitationsUpTo, HasFault};
ghost use Rattle.mm_work.specs.Workers.{AreFindings, IsFoundValid, IsFoundFaulty, theorem_of};
ghost use Rattle.mm_work.specs.Positions.{IsWithWorker, HasPosition};

use crate::worker::Findings;
use mm_database::Database;
use mm_lists::Lists;
use mm_spec::Fault;
use std::alloc::{AllocError, Allocator};

/// Where the citations of a theorem are.
#[derive(Clone, Copy)]
pub(crate) struct ListPosition {
    /// Which worker's findings have them.
    pub worker: usize,
    /// The index of their list among the lists of these findings.
    pub list: usize,
}

/// Sets the positions of the citations of the theorems that a worker found valid, which have the
/// indices `valid`.
fn set_positions(positions: &mut [ListPosition], worker: usize, valid: &[u32])
    requires { All (λ i. i < length positions.old) valid.now }
    ensures length_stays { length positions.new ≡ length positions.old }
    ensures are_with_worker { All (λ i. IsWithWorker positions.new worker valid.now i) valid.now }
    ensures others_stay { (i : ℕ)
        → IsWithWorker positions.new worker valid.now i
        ⊎ (slice_get positions.new i ≡ slice_get positions.old i) }
{
    for (list, index) in valid.iter().enumerate() {
        positions[*index as usize] = ListPosition { worker, list };
    }
}

/// Where the citations of each theorem are.
fn positions_of<A: Allocator + Copy>(
    alloc: A,
    all_findings: &[Findings<A>],
    count: usize,
) -> Result<Vec<ListPosition, A>, AllocError>
    requires { All (λ f. All (λ i. i < count) f.valid.items) all_findings.now }
    ensures length_is { IfOk result (λ positions. length positions.items ≡ count) }
    ensures have_positions { IfOk result
        (λ positions. (i : ℕ) → IsFoundValid all_findings.now i
        → HasPosition positions.items all_findings.now i) }
{
    let mut positions = Vec::new(alloc);
    positions.resize(count, ListPosition { worker: 0, list: 0 })?;
    for (worker, findings) in all_findings.iter().enumerate() {
        set_positions(&mut positions, worker, &findings.valid);
    }
    Ok(positions)
}

/// How many citations the workers found together.
fn citation_count<A: Allocator>(all_findings: &[Findings<A>]) -> usize {
    let mut count = 0usize;
    for findings in all_findings {
        count = count.saturating_add(findings.cites.item_count());
    }
    count
}

/// What each theorem cites, in file order.
pub(crate) fn merge<'d, A: Allocator + Copy>(
    alloc: A,
    database: &Database<'d, A>,
    essential: bool,
    all_findings: &[Findings<A>],
) -> Result<Lists<u32, A>, AllocError>
    requires are_findings { All (AreFindings database.now.statements essential) all_findings.now }
    requires each_is_found_valid { (i : ℕ) → i < length (theorems database.now.statements)
        → IsFoundValid all_findings.now i }
    ensures { IfOk result
        (λ lists. HaveCitationsUpTo database.now.statements essential
        (theorems database.now.statements)
        (length (theorems database.now.statements)) lists) }
{
    // Only the contract uses `essential`: it says by which nodes the citations were found.
    let _ = essential;
    let positions = positions_of(alloc, all_findings, database.theorems().len())?;
    let mut lists = Lists::with_expected_capacity(
        alloc,
        positions.len(),
        citation_count(all_findings),
    );
    for position in &positions {
        lists.push(all_findings[position.worker].cites.get(position.list))?;
    }
    Ok(lists)
}

/// The fault of the theorem with this index.
pub(crate) fn found_fault<'d, A: Allocator>(
    database: &Database<'d, A>,
    essential: bool,
    all_findings: &[Findings<A>],
    index: u32,
) -> Fault
    requires are_findings { All (AreFindings database.now.statements essential) all_findings.now }
    requires is_found_faulty { IsFoundFaulty all_findings.now index }
    ensures { HasFault database.now.statements (theorem_of database.now.statements index) result }
{
    // Only the contract uses these two: they say what the findings are about.
    let _ = database;
    let _ = essential;
    for findings in all_findings {
        if let Some(faulty) = findings.faulty
            && faulty.index == index
        {
            return faulty.fault;
        }
    }
    unreachable!("the index that was reported is that of a fault")
}

//! The steps of theorems' proofs.

ghost use Rattle.std.specs.Prelude.{◌≡◌, ◌<◌, [], All, IfOk, IsTrue, OnOk, length, map};
ghost use Rattle.std.specs.Prelude.{slice_index_or};
ghost use Rattle.mm_spec.specs.Citation.{reading_faults_at};
ghost use Rattle.mm_spec.specs.Output.{is_theorem_at, theorems};
ghost use Rattle.mm_spec.specs.ProofLine.{proof_steps};
ghost use Rattle.mm_steps.specs.TheoremSteps.{as_step};

use mm_database::Database;
use mm_lists::Lists;
use mm_proof::{ProofRefused, read_proof};
use mm_steps::{Step, Steps};
use std::alloc::{AllocError, Allocator};
use std::marker::Model;

/// For each theorem of a database, in file order, the steps of its proof.
pub struct StepLists<A: Allocator> {
    lists: Lists<Step, A>,
}

/// Dropped in one call: docs/PROOFS.md, "What a check costs".
impl<A: Allocator> Drop for StepLists<A> {
    fn drop(self) {
        let Self { lists: _ } = self;
    }
}

impl<A: Allocator> Model for StepLists<A> {
    ghost use Rattle.std.specs.Prelude.{List, map};
    ghost use Rattle.mm_spec.specs.Steps as spec;
    ghost use Rattle.mm_steps.specs.TheoremSteps.{as_step};

    ghost Value = { List (List spec.Step) };

    ghost view = { λ l. map (map as_step) l.lists };
}

/// Reads the proof of a theorem, which has no reading fault.
fn read_faultless<A: Allocator + Copy>(
    alloc: A,
    database: &Database<'_, A>,
    theorem: u32,
) -> Result<Steps<A>, AllocError>
    requires is_theorem { IsTrue (is_theorem_at database.now.statements theorem) }
    requires has_no_fault { reading_faults_at database.now.statements theorem ≡ [] }
    ensures { IfOk result
        (λ s. map (λ p. p.step) s.steps ≡ proof_steps database.now.statements theorem) }
{
    match read_proof(alloc, database, theorem) {
        Ok(steps) => Ok(steps),
        Err(ProofRefused::Memory) => Err(AllocError),
        Err(ProofRefused::Fault(_)) => unreachable!("the proof has no reading fault"),
    }
}

/// Lists the steps without their places. Replaces what `into` has.
fn list_steps<A: Allocator>(steps: &Steps<A>, into: &mut Vec<Step, A>) -> Result<(), AllocError>
    ensures { OnOk result (map as_step into.new.items ≡ map (λ p. p.step) steps.now.steps) }
{
    into.clear();
    for index in 0..steps.len() {
        into.push(steps.step(index))?;
    }
    Ok(())
}

impl<A: Allocator + Copy> StepLists<A> {
    /// Those of no theorem.
    pub fn none(alloc: A) -> StepLists<A>
        ensures { result ≡ [] }
    {
        StepLists {
            lists: Lists::new(alloc),
        }
    }

    /// Reads the proofs of all theorems of a database, none of which has a reading fault. Fails
    /// only if out of memory, or if they have 2^32 steps or more.
    pub fn new(alloc: A, database: &Database<'_, A>) -> Result<StepLists<A>, AllocError>
        requires { All (λ t. reading_faults_at database.now.statements t ≡ [])
            (theorems database.now.statements) }
        ensures { IfOk result
            (λ l. l
            ≡ map (proof_steps database.now.statements) (theorems database.now.statements)) }
    {
        let mut lists = Lists::new(alloc);
        let mut listed = Vec::new(alloc);
        for theorem in database.theorems() {
            let steps = read_faultless(alloc, database, *theorem)?;
            list_steps(&steps, &mut listed)?;
            lists.push(&listed)?;
        }
        Ok(StepLists { lists })
    }
}

impl<A: Allocator> StepLists<A> {
    /// Returns the steps of the theorem with this index in file order.
    pub fn steps(&self, index: usize) -> &[Step]
        requires { index < length self.now }
        ensures { map as_step result.now ≡ slice_index_or self.now index [] }
    {
        self.lists.get(index)
    }
}

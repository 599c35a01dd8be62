//! One proof.

ghost use Rattle.std.specs.Prelude.{◌≡◌, IfOk, IfErr, IsTrue};
ghost use Rattle.mm_check.specs.Checker.{IsMadeFor};
ghost use Rattle.mm_spec.specs.Output.{is_theorem_at};
ghost use Rattle.mm_work.specs.Judged.{HasCitations, IsVerifyRefusalOf};

use mm_check::{CheckRefused, Checked, Checker};
use mm_database::Database;
use mm_proof::{ProofRefused, read_proof};
use mm_spec::Fault;
use std::alloc::Allocator;

/// Why a proof wasn't found valid.
#[derive(Clone, Copy)]
pub(crate) enum VerifyRefused {
    /// It has this fault.
    Fault(Fault),
    /// Out of memory.
    Memory,
}

/// Reads and checks the proof of a theorem. Returns what it cites, with `essential` only by its
/// essential nodes, or why it wasn't found valid.
pub(crate) fn verify<'a, A: Allocator + Copy>(
    alloc: A,
    database: &Database<'a, A>,
    checker: &mut Checker<'_, A>,
    theorem: u32,
    essential: bool,
) -> Result<Checked<A>, VerifyRefused>
    requires made_for { IsMadeFor database.now.statements checker.old }
    requires is_theorem { IsTrue (is_theorem_at database.now.statements theorem) }
    ensures made_for { IsMadeFor database.now.statements checker.new }
    ensures has_citations { IfOk result
        (λ checked. HasCitations database.now.statements essential theorem checked.cites) }
    ensures refusal_is_right { IfErr result
        (λ e. IsVerifyRefusalOf database.now.statements theorem e) }
{
    let steps = match read_proof(alloc, database, theorem) {
        Ok(steps) => steps,
        Err(ProofRefused::Fault(fault)) => return Err(VerifyRefused::Fault(fault)),
        Err(ProofRefused::Memory) => return Err(VerifyRefused::Memory),
    };
    match checker.check(alloc, database, theorem, &steps, essential) {
        Ok(checked) => Ok(checked),
        Err(CheckRefused::Fault(fault)) => Err(VerifyRefused::Fault(fault)),
        Err(CheckRefused::Memory) => Err(VerifyRefused::Memory),
    }
}

//! Checking all proofs on the calling thread alone.

ghost use Rattle.std.specs.Prelude.{◌≡◌, IfOk, length};
ghost use Rattle.mm_rules.specs.Rules.{AreRules};
ghost use Rattle.mm_work.specs.Judged.{IsJudgement, HaveCitationsUpTo};
ghost use Rattle.mm_spec.specs.Output.{theorems};

use crate::capacity::citation_capacity;
use crate::judged::Judged;
use crate::proof::{VerifyRefused, verify};
use mm_check::Checker;
use mm_cites::Citations;
use mm_database::Database;
use mm_lists::Lists;
use mm_rules::Rules;
use std::alloc::{AllocError, Allocator};

/// The answer if all proofs are valid. `lists` has what each theorem cites, in file order.
pub(crate) fn judged_valid<'a, A: Allocator + Copy>(
    alloc: A,
    database: &Database<'a, A>,
    essential: bool,
    lists: Lists<u32, A>,
) -> Result<Judged<A>, AllocError>
    requires { HaveCitationsUpTo database.now.statements essential
        (theorems database.now.statements)
        (length (theorems database.now.statements)) lists }
    ensures { IfOk result (λ judged. IsJudgement database.now.statements essential judged) }
{
    // The number isn't needed, but the proof needs what `len` promises of the database.
    let _ = database.len();
    // Only the contract uses `essential`: it says by which nodes the lists were found.
    let _ = essential;
    let theorems = database.theorems().to_vec(alloc)?;
    Ok(Judged::Valid(Citations::new(theorems, lists)))
}

/// Checks the proofs in file order, up to the first that isn't valid.
pub(crate) fn check_in_order<'a, A: Allocator + Copy>(
    alloc: A,
    database: &Database<'a, A>,
    rules: &Rules<A>,
    essential: bool,
) -> Result<Judged<A>, AllocError>
    requires { AreRules database.now.statements rules.now }
    ensures { IfOk result (λ judged. IsJudgement database.now.statements essential judged) }
{
    // The number isn't needed, but the proof needs what `len` promises of the database.
    let _ = database.len();
    let mut checker = Checker::new(alloc, database, rules)?;
    let mut lists = Lists::with_expected_capacity(
        alloc,
        database.theorems().len(),
        citation_capacity(database),
    );
    let theorems = database.theorems();
    for theorem in theorems {
        match verify(alloc, database, &mut checker, *theorem, essential) {
            Ok(checked) => lists.push(checked.cites())?,
            Err(VerifyRefused::Fault(fault)) => return Ok(Judged::Faulty(fault)),
            Err(VerifyRefused::Memory) => return Err(AllocError),
        }
    }
    judged_valid(alloc, database, essential, lists)
}

/// Checks the proofs of all theorems on the calling thread alone, in file order, with the answer of
/// `check_all`. Fails only if out of memory.
pub fn check_alone<'a, A: Allocator + Copy>(
    alloc: A,
    database: &Database<'a, A>,
    essential: bool,
) -> Result<Judged<A>, AllocError>
    ensures { IfOk result (λ judged. IsJudgement database.now.statements essential judged) }
{
    let rules = Rules::new(alloc, database)?;
    check_in_order(alloc, database, &rules, essential)
}

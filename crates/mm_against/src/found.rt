//! What one database has and another one hasn't.

ghost use Rattle.std.specs.Prelude.{IfOk};
ghost use Rattle.std.specs.Option.{option_copied};
ghost use Rattle.mm_shifts.specs.Resting.{Resting};
ghost use Rattle.mm_against.specs.Lists.{AreListsOf};

use mm_compare::list_only_in;
use mm_lists::Lists;
use mm_shifts::{Marked, list_shifts};
use mm_tell::Dummies;
use std::alloc::{AllocError, Allocator};

/// What one database has and another one hasn't: its own assertions, and for each theorem the
/// axioms on which it rests there alone; and the dummy variables of its own assertions.
pub struct Found<A: Allocator> {
    pub own: Vec<u32, A>,
    pub dummy_lists: Dummies<A>,
    pub shifts: Lists<u32, A>,
}

/// Dropped in one call: docs/PROOFS.md, "What a check costs".
impl<A: Allocator> Drop for Found<A> {
    fn drop(self) {
        let Self {
            own: _,
            dummy_lists: _,
            shifts: _,
        } = self;
    }
}

/// Finds what a database has and another one hasn't. Fails only if out of memory, or if there are
/// 2^32 marks or more.
pub fn find_differences<A: Allocator + Copy, D: Allocator, E: Allocator>(
    alloc: A,
    this: &Marked<'_, '_, A, D>,
    only: Option<&[u8]>,
    other: &Marked<'_, '_, A, E>,
) -> Result<Found<A>, AllocError>
    ensures { IfOk result
        (λ f. AreListsOf this.now other.now (option_copied only.entry) f.own.items f.dummy_lists
        f.shifts) }
{
    let own = list_only_in(alloc, this.database(), only, other.database())?;
    let dummy_lists = Dummies::new(alloc, this.database(), only)?;
    let shifts = list_shifts(alloc, this, only, other)?;
    Ok(Found {
        own,
        dummy_lists,
        shifts,
    })
}

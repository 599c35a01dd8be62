//! A block that no one uses.

ghost use Rattle.std.specs.Prelude.{◌≡◌, ℕ, ◌*◌, ◌^◌, ◌<◌, IfSome};
ghost use Rattle.mm_room.specs.Units.{block_at};

use crate::room::UNIT;
use std::alloc::Allocator;
use std::marker::{Model, PhantomData};

/// A block that an allocator gave, of a number of units that only its owner knows. Whoever has the
/// value owns the block, and nothing lies in it. It leaks if the value is let go.
#[derive(Drop)]
pub(crate) struct Block<A: Allocator> {
    pub(crate) address: *mut u8,
    pub(crate) given_by: PhantomData<A>,
    ghost alloc: { A },
    ghost units: { ℕ },
}

impl<A: Allocator> Model for Block<A> {
    ghost also_owns = { λ b. block_at (A.dealloc_token b.alloc) b.units b.address };
}

impl<A: Allocator> Block<A> {
    /// A new block of `units` units, if the allocator has memory for it.
    pub(crate) fn allocate(alloc: &A, units: usize) -> Option<Block<A>>
        requires { units * 16 < 2 ^ 63 }
        ensures { IfSome result (λ b. (b.alloc ≡ alloc.now) × (b.units ≡ units)) }
    {
        match alloc.allocate(units * UNIT, UNIT) {
            Ok(address) => Some(Block {
                address,
                given_by: PhantomData,
            }),
            Err(_) => None,
        }
    }

    /// Gives the block of `units` units back to the allocator.
    pub(crate) fn free(self, alloc: &A, units: usize)
        requires alloc_is { self.alloc ≡ alloc.now }
        requires units_are { self.units ≡ units }
        requires size_lt_limit { units * 16 < 2 ^ 63 }
    {
        let Block {
            address,
            given_by: _,
        } = self;
        unsafe { alloc.deallocate(address, units * UNIT, UNIT) }
    }
}

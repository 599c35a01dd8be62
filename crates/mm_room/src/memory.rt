//! Memory by its address.

ghost use Rattle.std.specs.Prelude.{◌≡◌, ℕ, ◌*◌, ◌^◌, ◌<◌, IfSome};
ghost use Rattle.mm_room.specs.Units.{units_at};

use crate::room::UNIT;
use std::alloc::Allocator;
use std::marker::Model;
use std::ptr::null_mut;

/// Memory of a number of units that only its owner knows. Whoever has the value owns the memory,
/// and nothing lies in it. It leaks if the value is let go.
#[repr(C)]
#[derive(Drop)]
pub(crate) struct Memory {
    pub(crate) address: *mut u8,
    ghost units: { ℕ },
}

impl Model for Memory {
    ghost also_owns = { λ m. units_at m.address m.units };
}

impl Memory {
    /// No memory.
    pub(crate) fn none() -> Memory
        ensures { result.units ≡ 0 }
    {
        Memory {
            address: null_mut(),
        }
    }

    /// New memory of `units` units, if the allocator has it. The allocator never gets it back.
    pub(crate) fn leaked<A: Allocator>(alloc: &A, units: usize) -> Option<Memory>
        requires { units * 16 < 2 ^ 63 }
        ensures { IfSome result (λ m. m.units ≡ units) }
    {
        match alloc.allocate(units * UNIT, UNIT) {
            Ok(address) => Some(Memory { address }),
            Err(_) => None,
        }
    }
}

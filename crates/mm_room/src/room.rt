//! Memory that is lent.

ghost use Rattle.std.specs.Prelude.{◌≡◌, IfSome};

use crate::memory::Memory;
use std::alloc::Allocator;

/// The bytes of a unit, and the alignment of the first.
pub(crate) const UNIT: usize = 16;

/// The most units that memory can have.
pub(crate) const MOST_UNITS: usize = isize::MAX as usize / UNIT;

/// Memory that is lent: an address, a multiple of 16, and the number of units of 16 bytes that lie
/// there. Whoever has the value owns the memory, and nothing lies in it. With no unit there is no
/// memory, and the address may be null. The memory leaks if the value is let go.
#[repr(C)]
#[derive(Drop)]
pub struct Room {
    pub(crate) memory: Memory,
    pub(crate) units: usize,
    ghost memory_has_units: { memory.units ≡ units },
}

impl Room {
    /// A room of no unit.
    pub fn none() -> Room
        ensures { result.units ≡ 0 }
    {
        Room {
            memory: Memory::none(),
            units: 0,
        }
    }

    /// A room of `units` units that an allocator gives for good: it never gets them back. `None` if
    /// it hasn't that much. A caller in C makes its room itself.
    pub fn leaked<A: Allocator>(alloc: &A, units: usize) -> Option<Room>
        ensures { IfSome result (λ room. room.units ≡ units) }
    {
        if units > MOST_UNITS {
            return None;
        }
        let memory = Memory::leaked(alloc, units)?;
        Some(Room { memory, units })
    }

    /// How many units of 16 bytes the room has.
    pub fn units(&self) -> usize
        ensures { result ≡ self.now.units }
    {
        self.units
    }
}

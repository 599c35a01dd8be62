//! The allocator over a room.

ghost use Rattle.std.specs.Prelude.{◌≡◌, ◌*◌, ◌^◌, ◌<◌, ◌≤◌, IfSome};
ghost use Rattle.mm_room.specs.Units.{way_back};

use crate::memory::Memory;
use crate::room::{Room, UNIT};
use bumpalo::Bump;
use std::alloc::{AllocError, Allocator};
use std::cell::Cell;

/// The units of a page of 4,096 bytes. The chunk of an arena is a number of pages less one unit.
const UNITS_OF_PAGE: usize = 256;

/// How many bytes of its pages an arena of `bumpalo` has no capacity for: 48 for the footer of the
/// chunk, and the 16 that the system's allocator typically keeps beside a block (`OVERHEAD` there).
const ARENA_OVERHEAD: usize = 64;

/// An allocator that gives its whole room to one block at a time, whatever the size of the block.
/// While that block is out, each request is refused.
#[derive(Drop)]
pub struct Lender {
    units: usize,
    room: Cell<Option<Room>>,
}

impl Lender {
    /// The allocator over a room.
    pub fn new(room: Room) -> Lender
        ensures { result.units ≡ room.units }
    {
        Lender {
            units: room.units,
            room: Cell::new(Some(room)),
        }
    }

    /// An arena whose one chunk is as much of the room as whole pages of 4,096 bytes cover. A freed
    /// block is used again only if it was allocated last; the others come back at the arena's end.
    /// Fails if a block is out.
    pub fn arena(&self) -> Result<Bump<&Lender>, AllocError> {
        let pages = self.units.saturating_add(1) / UNITS_OF_PAGE;
        let size = pages.saturating_mul(UNITS_OF_PAGE * UNIT);
        Bump::try_with_capacity(self, size.saturating_sub(ARENA_OVERHEAD))
    }

    /// The room back, whole. `None` if a block is still out: then the room is lost.
    pub fn into_room(self) -> Option<Room>
        ensures { IfSome result (λ room. room.units ≡ self.units) }
    {
        let Lender { units, room } = self;
        match room.into_inner() {
            Some(room) if room.units == units => Some(room),
            _ => None,
        }
    }

    /// The whole memory, if it is here and a block of this size in bytes fits.
    fn take_memory(&self, size: usize) -> Option<Memory>
        ensures { IfSome result (λ m. (m.units ≡ self.now.units) × (0 < m.units)
            × (size ≤ m.units * 16) × (size < 2 ^ 63)) }
    {
        let fits = size <= self.units.saturating_mul(UNIT);
        if self.units == 0 || size > isize::MAX as usize || !fits {
            return None;
        }
        match self.room.replace(None) {
            Some(Room { memory, units }) if units == self.units => Some(memory),
            _ => None,
        }
    }

    /// Puts the memory back.
    fn put_back(&self, memory: Memory)
        requires { memory.units ≡ self.now.units }
    {
        let units = self.units;
        self.room.set(Some(Room { memory, units }));
    }
}

unsafe impl Allocator for Lender {
    ghost dealloc_token = { λ lender. way_back lender.units };

    // No type has a greater alignment than a unit.
    fn allocate(&self, size: usize, _align: usize) -> Result<*mut u8, AllocError> {
        match self.take_memory(size) {
            Some(Memory { address }) => Ok(address),
            None => Err(AllocError),
        }
    }

    unsafe fn deallocate(&self, ptr: *mut u8, _size: usize, _align: usize) {
        self.put_back(Memory { address: ptr });
    }
}

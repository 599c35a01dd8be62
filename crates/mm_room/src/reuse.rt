//! An allocator that uses freed blocks again.

ghost use Rattle.std.specs.Prelude.{◌≡◌, ◌*◌, ◌^◌, ◌<◌, ◌≤◌, All, IfErr, IfOk, IfSome};
ghost use Rattle.mm_room.specs.Units.{block_units, block_back};

use crate::block::Block;
use crate::free_list::FreeList;
use crate::room::{MOST_UNITS, UNIT};
use counted_slot::{Counted, FREE, TAKEN};
use std::alloc::{AllocError, Allocator};
use std::marker::PhantomData;

/// The lowest of the three highest bits of 64. Of the units of a block, only the three highest bits
/// from the first set one on are not zero.
const THIRD_HIGHEST_BIT: u32 = 61;

/// So there are four sizes of blocks from one power of two to the next.
const SIZES_TO_NEXT_POWER: usize = 4;

/// How many lists there are: for each place of the first set bit, one for each of the four sizes.
const LISTS: usize = 64 * SIZES_TO_NEXT_POWER;

/// An allocator over another, which keeps freed blocks in lists and uses them again for requests of
/// about the same size. The other allocator gets a block back early only if no list takes it, and
/// the rest at the end. A block has the size of the request, rounded up by a quarter at most, in
/// units of 16 bytes.
pub struct Reusing<A: Allocator> {
    alloc: A,
    lists: Vec<Counted<Option<FreeList<A>>>, A>,
    ghost lists_have_alloc: { All (λ list. list ≡ alloc) lists.items },
}

/// The units of a block for `size` bytes.
fn units_for(size: usize) -> usize
    ensures { result ≡ block_units size }
{
    let units = size.div_ceil(UNIT).max(1);
    let step = 1 << THIRD_HIGHEST_BIT.saturating_sub(units.leading_zeros());
    units.next_multiple_of(step)
}

/// The index of the list for blocks of `units` units. Blocks of two sizes have two lists.
fn list_index(units: usize) -> usize {
    let zeros = units.leading_zeros();
    let three_bits = units.wrapping_shl(zeros) >> THIRD_HIGHEST_BIT;
    zeros as usize * SIZES_TO_NEXT_POWER + three_bits % SIZES_TO_NEXT_POWER
}

/// Takes the list out of its slot. `None` if another thread has it.
fn take_list<A: Allocator>(slot: &Counted<Option<FreeList<A>>>) -> Option<FreeList<A>>
    ensures { IfSome result (λ list. list.alloc ≡ slot.now) }
{
    let (found, claim) = slot.turn(FREE, TAKEN);
    if found == FREE {
        claim.put(None, FREE)
    } else {
        claim.done();
        None
    }
}

/// Puts the list that was taken out of its slot back there.
fn put_back<A: Allocator>(slot: &Counted<Option<FreeList<A>>>, list: FreeList<A>)
    requires { list.alloc ≡ slot.now }
{
    let (found, claim) = slot.turn(FREE, TAKEN);
    if found == FREE {
        // The slot was empty, so nothing comes out of it.
        let _ = claim.put(Some(list), FREE);
    } else {
        claim.done();
    }
}

impl<A: Allocator> Reusing<A> {
    /// Empty lists. Fails only if the other allocator has no memory for them.
    pub fn new(alloc: A) -> Result<Reusing<A>, AllocError>
    where
        A: Copy,
    {
        let mut lists = Vec::new(alloc);
        for _ in 0..LISTS {
            lists.push(Counted::new(Some(FreeList::new(alloc)), &alloc))?;
        }
        Ok(Reusing { alloc, lists })
    }

    /// Takes a freed block of `units` units out of its list, if there is one.
    fn take_freed(&self, units: usize) -> Option<Block<A>>
        ensures { IfSome result (λ b. (b.alloc ≡ self.now.alloc) × (b.units ≡ units)) }
    {
        let slot = self.lists.get(list_index(units))?;
        let mut list = take_list(slot)?;
        let block = list.take_block(units);
        put_back(slot, list);
        block
    }

    /// A block for `size` bytes: a freed one, or else a new one. `None` if there is no memory.
    fn take_block(&self, size: usize) -> Option<Block<A>>
        ensures { IfSome result (λ b. (b.alloc ≡ self.now.alloc) × (b.units ≡ block_units size)
            × (size ≤ b.units * 16) × (size < 2 ^ 63)) }
    {
        if size > isize::MAX as usize {
            return None;
        }
        let units = units_for(size);
        if units > MOST_UNITS || size > units * UNIT {
            return None;
        }
        match self.take_freed(units) {
            Some(block) => Some(block),
            None => Block::allocate(&self.alloc, units),
        }
    }

    /// Adds a block for `size` bytes to its list. If no list takes it, the other allocator gets it
    /// back.
    fn give_back(&self, block: Block<A>, size: usize)
        requires alloc_is { block.alloc ≡ self.now.alloc }
        requires units_are { block.units ≡ block_units size }
    {
        let units = units_for(size);
        if units > MOST_UNITS {
            return;
        }
        let Some(slot) = self.lists.get(list_index(units)) else {
            return block.free(&self.alloc, units);
        };
        let Some(mut list) = take_list(slot) else {
            return block.free(&self.alloc, units);
        };
        if let Err(block) = list.put_block(block, units) {
            block.free(&self.alloc, units);
        }
        put_back(slot, list);
    }
}

/// Gives all freed blocks back to the other allocator.
impl<A: Allocator> Drop for Reusing<A> {
    fn drop(self) {
        let Reusing { alloc: _, lists } = self;
        for slot in lists {
            if let Some(list) = slot.into_inner() {
                list.free_blocks();
            }
        }
    }
}

unsafe impl<A: Allocator> Allocator for Reusing<A> {
    ghost dealloc_token = { λ lists. block_back (A.dealloc_token lists.alloc) };

    // No type has a greater alignment than a unit.
    fn allocate(&self, size: usize, _align: usize) -> Result<*mut u8, AllocError> {
        match self.take_block(size) {
            Some(
                Block {
                    address,
                    given_by: _,
                },
            ) => Ok(address),
            None => Err(AllocError),
        }
    }

    unsafe fn deallocate(&self, ptr: *mut u8, size: usize, _align: usize) {
        let given_by = PhantomData;
        self.give_back(
            Block {
                address: ptr,
                given_by,
            },
            size,
        );
    }
}

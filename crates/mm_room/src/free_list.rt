//! Blocks of one size that no one uses.

ghost use Rattle.std.specs.Prelude.{◌≡◌, ◌*◌, ◌^◌, ◌<◌, All, IfErr, IfSome};

use crate::block::Block;
use counted_slot::Fits;
use std::alloc::Allocator;

/// Blocks of one number of units, all from one allocator.
#[derive(Drop)]
pub(crate) struct FreeList<A: Allocator> {
    pub(crate) alloc: A,
    pub(crate) units: usize,
    blocks: Vec<Block<A>, A>,
    ghost size_lt_limit: { units * 16 < 2 ^ 63 },
    ghost blocks_match: { All (λ b. (b.alloc ≡ alloc) × (b.units ≡ units)) blocks.items },
}

/// A slot's tag is an allocator. A list fits into the slot if its blocks are from that allocator.
impl<A: Allocator> Fits for FreeList<A> {
    type Tag = A;

    ghost fits = { λ alloc list. list.alloc ≡ alloc };
}

impl<A: Allocator> FreeList<A> {
    /// An empty list.
    pub(crate) fn new(alloc: A) -> FreeList<A>
    where
        A: Copy,
        ensures { result.alloc ≡ alloc }
    {
        FreeList {
            alloc,
            units: 0,
            blocks: Vec::new(alloc),
        }
    }

    /// Takes a block of `units` units from the list, if it has one.
    pub(crate) fn take_block(&mut self, units: usize) -> Option<Block<A>>
        ensures alloc_stays { self.new.alloc ≡ self.old.alloc }
        ensures block_is { IfSome result (λ b. (b.alloc ≡ self.old.alloc) × (b.units ≡ units)) }
    {
        if self.units == units {
            self.blocks.pop()
        } else {
            None
        }
    }

    /// Adds a block of `units` units to the list. Returns it if the list has blocks of another
    /// size, or if there is no memory for the list.
    pub(crate) fn put_block(&mut self, block: Block<A>, units: usize) -> Result<(), Block<A>>
        requires alloc_is { block.alloc ≡ self.old.alloc }
        requires units_are { block.units ≡ units }
        requires size_lt_limit { units * 16 < 2 ^ 63 }
        ensures alloc_stays { self.new.alloc ≡ self.old.alloc }
        ensures block_is_back { IfErr result (λ b. (b.alloc ≡ block.alloc) × (b.units ≡
            block.units)) }
    {
        if self.blocks.is_empty() {
            self.units = units;
        }
        if self.units != units {
            return Err(block);
        }
        match self.blocks.push(block) {
            Ok(()) => Ok(()),
            Err(refused) => Err(refused.value),
        }
    }

    /// Gives all blocks back to their allocator.
    pub(crate) fn free_blocks(self) {
        let FreeList {
            alloc,
            units,
            blocks,
        } = self;
        for block in blocks {
            block.free(&alloc, units);
        }
    }
}

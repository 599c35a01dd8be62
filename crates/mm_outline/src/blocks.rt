//! The blocks in which statements are.

ghost use Rattle.std.specs.Prelude.{◌≡◌, ◌<◌, ◌^◌, ◌-◌, length, OnOk, IfOk};
ghost use Rattle.std.specs.Prelude.{All, nat_le, slice_index};
ghost use Rattle.mm_outline.specs.Blocks.{BlockLists, block_lists, pushed, no_blocks, end_of};
ghost use Rattle.mm_outline.specs.Blocks.{is_open_in};

use crate::parts::Kind;
use std::alloc::{AllocError, Allocator};
use std::marker::Model;

/// The end of a block that is still open.
pub const NEVER: u32 = 4_294_967_295;

/// The block of each statement, the end of each block, and the blocks that are open, the outermost
/// first.
pub struct Blocks<A: Allocator> {
    block_of: Vec<u32, A>,
    ends: Vec<u32, A>,
    open_blocks: Vec<u32, A>,
}

/// Dropped in one call: docs/PROOFS.md, "What a check costs".
impl<A: Allocator> Drop for Blocks<A> {
    fn drop(self) {
        let Self {
            block_of: _,
            ends: _,
            open_blocks: _,
        } = self;
    }
}

impl<A: Allocator> Model for Blocks<A> {
    ghost use Rattle.mm_outline.specs.Blocks.{BlockLists, block_lists};

    ghost Value = { BlockLists };

    ghost view = { λ b. block_lists b.block_of.items b.ends.items b.open_blocks.items };
}

/// The blocks before the first statement: the outermost one alone, which is open.
pub fn no_blocks<A: Allocator + Copy>(alloc: A) -> Result<Blocks<A>, AllocError>
    ensures { IfOk result (λ b. b ≡ no_blocks) }
{
    let block_of = Vec::new(alloc);
    let mut ends = Vec::new(alloc);
    ends.push(NEVER)?;
    let mut open_blocks = Vec::new(alloc);
    open_blocks.push(0)?;
    Ok(Blocks {
        block_of,
        ends,
        open_blocks,
    })
}

impl<A: Allocator> Blocks<A> {
    /// Appends a statement.
    pub fn push(&mut self, kind: Kind) -> Result<(), AllocError>
        requires some_block_is_open { 0 < length self.old.open_blocks }
        requires open_blocks_have_ends { All (λ b. b < length self.old.ends) self.old.open_blocks }
        requires statements_lt_2_31 { length self.old.block_of < 2 ^ 31 }
        requires blocks_lt_2_32 { length self.old.ends < 2 ^ 32 }
        ensures { OnOk result (self.new ≡ pushed kind self.old) }
    {
        let innermost = self.open_blocks[self.open_blocks.len() - 1];
        let statement = self.block_of.len() as u32;
        self.block_of.push(innermost)?;
        match kind {
            Kind::Open => {
                let block = self.ends.len() as u32;
                self.ends.push(NEVER)?;
                self.open_blocks.push(block)?;
            }
            Kind::Close => {
                self.open_blocks.pop();
                self.ends[innermost as usize] = statement;
            }
            _ => {}
        }
        Ok(())
    }

    /// The number of statements.
    pub fn len(&self) -> u32
        requires { length self.now.block_of < 2 ^ 31 }
        ensures { result ≡ length self.now.block_of }
    {
        self.block_of.len() as u32
    }

    /// Whether the statement is known and its block is still open.
    pub fn is_still_open(&self, statement: u32) -> bool
        ensures { result ≡ is_open_in self.now statement }
    {
        match self.block_of.get(statement as usize) {
            Some(block) => match self.ends.get(*block as usize) {
                Some(end) => *end == NEVER,
                None => false,
            },
            None => false,
        }
    }

    /// The end of the block of the statement: the number of its `$}`, or `NEVER`.
    pub fn end_of(&self, statement: u32) -> u32
        requires statement_lt_count { statement < length self.now.block_of }
        requires block_has_end { slice_index self.now.block_of statement < length self.now.ends }
        ensures { result ≡ end_of self.now statement }
    {
        self.ends[self.block_of[statement as usize] as usize]
    }

    /// Whether the block of the statement is open before the statement `at`, which comes later.
    pub fn is_block_open(&self, statement: u32, at: u32) -> bool
        requires statement_lt_count { statement < length self.now.block_of }
        requires block_has_end { slice_index self.now.block_of statement < length self.now.ends }
        ensures { result ≡ nat_le at (end_of self.now statement) }
    {
        at <= self.end_of(statement)
    }
}

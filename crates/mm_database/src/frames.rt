//! What is kept beside the statements: the frames of the assertions, and the `$d` by variables.

ghost use Rattle.std.specs.Prelude.{◌≡◌, ◌≢◌, ◌<◌, ◌+◌, ◌^◌, ◌++◌, ◌∷◌, [], Some, None};
ghost use Rattle.std.specs.Prelude.{IfOk, OnOk, IsSome, get_or, length, true};
ghost use Rattle.mm_database.specs.Frames.{mandatory_in, shifted_index};
ghost use Rattle.mm_outline.specs.Blocks.{never};

use crate::capacity::with_expected_capacity;
use crate::disjoint_index::DisjointIndex;
use mm_outline::blocks::NEVER;
use mm_outline::symbol::Sym;
use std::alloc::{AllocError, Allocator};
use std::marker::Model;

/// The frame of an assertion (Metamath book, "Frames").
#[derive(Drop)]
pub struct Frame<A: Allocator> {
    /// The mandatory hypotheses, by their statements, in order of appearance.
    pub hyps: Vec<u32, A>,
    /// The mandatory pairs of disjoint variables: the lower symbol first, in ascending order, each
    /// once.
    pub pairs: Vec<(Sym, Sym), A>,
}

/// Returns the index of a frame in a list that has `shift` frames more before it, or `NEVER`.
fn shifted_index(index: u32, shift: u32) -> u32
    requires { index ≢ never → index + shift < 2 ^ 32 }
    ensures { result ≡ shifted_index shift index }
{
    if index == NEVER { NEVER } else { index + shift }
}

/// The frame of each statement that is an assertion.
pub struct Frames<A: Allocator> {
    /// The frames, in file order. Neighbouring assertions with equal frames share one.
    list: Vec<Frame<A>, A>,
    /// For each statement the index of its frame in the list, or `NEVER` if it is no assertion.
    indices: Vec<u32, A>,
}

/// Dropped in one call: docs/PROOFS.md, "What a check costs".
impl<A: Allocator> Drop for Frames<A> {
    fn drop(self) {
        let Self {
            list: _,
            indices: _,
        } = self;
    }
}

impl<A: Allocator> Model for Frames<A> {
    ghost use Rattle.std.specs.Prelude.{List, Option, length};
    ghost use Rattle.mm_database.specs.Frames.{Mandatory, frames_at, AreFrameIndices};

    ghost Value = { List (Option Mandatory) };

    ghost view = { λ f. frames_at f.list.items f.indices.items };

    ghost invariant = { λ f. AreFrameIndices (length f.list.items) f.indices.items };
}

impl<A: Allocator + Copy> Frames<A> {
    /// Returns the frames before the first statement: none. There is room for those of `statements`
    /// statements if there is that much memory, so that the lists needn't be moved as they grow.
    pub fn none(alloc: A, statements: usize) -> Frames<A>
        ensures { result ≡ [] }
    {
        Frames {
            list: with_expected_capacity(alloc, statements),
            indices: with_expected_capacity(alloc, statements),
        }
    }
}

impl<A: Allocator> Frames<A> {
    /// Adds the next statement, an assertion, with its frame.
    pub fn add(&mut self, frame: Frame<A>) -> Result<(), AllocError>
        requires { length self.old < 2 ^ 31 }
        ensures { OnOk result (self.new ≡ self.old ++ Some (mandatory_in frame) ∷ []) }
    {
        let index = self.list.len() as u32;
        self.indices.push(index)?;
        if self.list.push(frame).is_err() {
            self.indices.pop();
            return Err(AllocError);
        }
        Ok(())
    }

    /// Adds the next statement, an assertion, with the frame of an earlier one: the two share it.
    pub fn add_shared(&mut self, earlier: u32) -> Result<(), AllocError>
        requires { IsSome (get_or self.old earlier None) }
        ensures { OnOk result (self.new ≡ self.old ++ get_or self.old earlier None ∷ []) }
    {
        let index = self.indices[earlier as usize];
        self.indices.push(index)?;
        Ok(())
    }

    /// Adds the next statement, which is no assertion.
    pub fn add_none(&mut self) -> Result<(), AllocError>
        ensures { OnOk result (self.new ≡ self.old ++ None ∷ []) }
    {
        self.indices.push(NEVER)?;
        Ok(())
    }

    /// Returns these frames, and behind them those of the statements that come next. Fails only if
    /// out of memory.
    pub fn joined(self, later: Frames<A>) -> Result<Frames<A>, AllocError>
        requires { length self + length later < 2 ^ 31 }
        ensures { IfOk result (λ f. f ≡ self ++ later) }
    {
        let Frames {
            mut list,
            mut indices,
        } = self;
        let Frames {
            list: mut later_list,
            indices: later_indices,
        } = later;
        let shift = list.len() as u32;
        for index in &later_indices {
            indices.push(shifted_index(*index, shift))?;
        }
        list.append(&mut later_list)?;
        Ok(Frames { list, indices })
    }

    /// Whether two assertions share a frame. Others may have equal frames.
    pub fn are_shared(&self, one: u32, other: u32) -> bool
        requires one_is_assertion { IsSome (get_or self.now one None) }
        requires other_is_assertion { IsSome (get_or self.now other None) }
        ensures { result ≡ true → get_or self.now one None ≡ get_or self.now other None }
    {
        self.indices[one as usize] == self.indices[other as usize]
    }

    /// Returns the frame of an assertion.
    #[inline(always)]
    pub fn of(&self, assertion: u32) -> &Frame<A>
        requires { IsSome (get_or self.now assertion None) }
        ensures { get_or self.now assertion None ≡ Some (mandatory_in result.now) }
    {
        let index = self.indices[assertion as usize];
        &self.list[index as usize]
    }
}

/// What is kept beside the statements: the `$d` by their variables, and the frames.
#[derive(Drop)]
pub struct FrameTables<A: Allocator> {
    pub disjoint_index: DisjointIndex<A>,
    pub frames: Frames<A>,
}

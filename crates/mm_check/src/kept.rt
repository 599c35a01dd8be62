//! The long formulas that a proof has pushed.

ghost use Rattle.std.specs.Prelude.{◌≡◌, ◌<◌, ◌++◌, ◌∷◌, [], ℕ, length, get_or, IfSome, OnOk};

use mm_rule::{empty, put_number};
use std::alloc::{AllocError, Allocator};
use std::marker::Model;

/// A formula of so many symbols that is pushed again isn't made again: the step that pushed it
/// first is marked. A letter of a proof so costs no more than to make a formula that has fewer.
pub const LONG_FORMULA: usize = 64;

/// The statements whose long formulas a proof has pushed, each with the index of the mark of the
/// step that pushed it first. It is kept from proof to proof so that its memory is reused.
#[derive(Drop)]
pub struct KeptFormulas<A: Allocator> {
    /// The statements with the indices of their marks, in the order in which they were pushed.
    kept: Vec<(u32, usize), A>,
    /// For each statement the index at which it may be in `kept`. There are none until a formula is
    /// kept, since most databases have no such proof.
    slots: Vec<u32, A>,
}

impl<A: Allocator> Model for KeptFormulas<A> {
    ghost use Rattle.std.specs.Prelude.{ℕ, List};

    ghost Value = { List (ℕ × ℕ) };

    ghost view = { λ k. k.kept.items };
}

impl<A: Allocator> KeptFormulas<A> {
    /// No formulas.
    pub fn new(alloc: A) -> Self
    where
        A: Copy,
        ensures { result ≡ [] }
    {
        KeptFormulas {
            kept: Vec::new(alloc),
            slots: Vec::new(alloc),
        }
    }

    /// Removes all, and keeps the memory, except that of a long list.
    pub fn clear(&mut self)
        ensures { self.new ≡ [] }
    {
        empty(&mut self.kept);
    }

    /// Returns the index of the mark of a statement's formula, if it is kept.
    pub fn find(&self, statement: u32) -> Option<usize>
        ensures { IfSome result
            (λ mark. (i : ℕ) × (i < length self.now)
            × (get_or self.now i (0, 0) ≡ (statement, mark))) }
    {
        let slot = *self.slots.get(statement as usize)?;
        let (other, mark) = *self.kept.get(slot as usize)?;
        if other == statement { Some(mark) } else { None }
    }

    /// Keeps the formula of a statement, one of so many, which the mark with this index has.
    pub fn add(&mut self, statement: u32, mark: usize, count: usize) -> Result<(), AllocError>
        ensures { OnOk result (self.new ≡ self.old ++ (statement, mark) ∷ []) }
    {
        if self.slots.is_empty() {
            self.slots.resize(count, 0)?;
        }
        put_number(&mut self.slots, statement as usize, self.kept.len());
        self.kept.push((statement, mark))?;
        Ok(())
    }
}

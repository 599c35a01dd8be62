//! The indices of statements in an ascending list of statements.

ghost use Rattle.std.specs.Prelude.{◌≡◌, ◌<◌, ℕ, length, slice_index, IfOk, IfSome, IfNone};
ghost use Rattle.mm_cites.specs.Citing.{IsStatementList};
ghost use Rattle.mm_rows.specs.Bits.{words_for};
ghost use Rattle.mm_rows.specs.Indices.{AreIndices};

use std::alloc::{AllocError, Allocator};
use std::marker::Model;

/// Stands for the index of a statement that isn't in the list.
const NO_INDEX: u32 = 4_294_967_295;

/// An ascending list of statements, and for each statement up to the last one in the list its index
/// there, or `NO_INDEX`. So the index of a statement is found in one step.
#[derive(Drop)]
pub struct StatementIndices<'a, A: Allocator> {
    statements: &'a [u32],
    indices: Vec<u32, A>,
}

impl<'a, A: Allocator> Model for StatementIndices<'a, A> {
    ghost use Rattle.std.specs.Prelude.{ℕ, List};
    ghost use Rattle.mm_cites.specs.Citing.{IsStatementList};
    ghost use Rattle.mm_rows.specs.Indices.{AreIndices};

    ghost Value = { List ℕ };

    ghost view = { λ p. p.statements.now };

    ghost invariant = { λ p.
        IsStatementList p.statements.now × AreIndices p.statements.now p.indices.items };
}

/// Returns 1 more than the last statement of an ascending list, and 0 for none.
fn count_through_last(statements: &[u32]) -> usize
    requires { IsStatementList statements.now }
    ensures { (i : ℕ) → i < length statements.now → slice_index statements.now i < result }
{
    match statements.last() {
        Some(last) => *last as usize + 1,
        None => 0,
    }
}

/// Writes the indices of the statements of an ascending list into `indices`, which has none yet.
fn set_indices(statements: &[u32], indices: &mut [u32])
    requires statements_rise { IsStatementList statements.now }
    requires fits { (i : ℕ) → i < length statements.now
        → slice_index statements.now i < length indices.old }
    requires none_set { (s : ℕ) → s < length indices.old → slice_index indices.old s ≡ NO_INDEX }
    ensures { AreIndices statements.now indices.new }
{
    for (index, statement) in statements.iter().enumerate() {
        indices[*statement as usize] = index as u32;
    }
}

impl<'a, A: Allocator + Copy> StatementIndices<'a, A> {
    /// Returns the indices of the statements of an ascending list.
    pub fn new(alloc: A, statements: &'a [u32]) -> Result<StatementIndices<'a, A>, AllocError>
        requires { IsStatementList statements.now }
        ensures { IfOk result (λ p. p ≡ statements.now) }
    {
        let mut indices = Vec::new(alloc);
        indices.resize(count_through_last(statements), NO_INDEX)?;
        set_indices(statements, &mut indices);
        Ok(StatementIndices {
            statements,
            indices,
        })
    }
}

impl<'a, A: Allocator> StatementIndices<'a, A> {
    /// Returns the number of words that have a bit for each statement of the list.
    pub(crate) fn words(&self) -> usize
        ensures { result ≡ words_for (length self.now) }
    {
        self.statements.len().div_ceil(64)
    }

    /// Returns the index of a statement in the list, or `None` if it isn't there.
    pub fn find(&self, statement: u32) -> Option<usize>
        ensures statements_rise { IsStatementList self.now }
        ensures is_index { IfSome result (λ i. (i < length self.now)
            × (slice_index self.now i ≡ statement)) }
        ensures is_missing { IfNone result ((i : ℕ) → i < length self.now
            → slice_index self.now i ≡ statement → ⊥) }
    {
        let number = statement as usize;
        if self.indices.len() <= number || self.indices[number] == NO_INDEX {
            return None;
        }
        Some(self.indices[number] as usize)
    }
}

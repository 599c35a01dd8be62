//! The active `$e` and their variables, which neighbouring assertions have in common.

ghost use Rattle.std.specs.Prelude.{◌≡◌, ◌≢◌, ◌<◌, ℕ, IfOk, OnOk, length, slice_index, true};
ghost use Rattle.mm_spec.specs.Frame.{symbol_names};
ghost use Rattle.mm_frame.specs.Sources.{AreSources};
ghost use Rattle.mm_frame.specs.Hypotheses.{IsFresh};
ghost use Rattle.mm_outline.specs.Blocks.{never};
ghost use Rattle.mm_frame.specs.Neighbours.{AreEssentialLists, IsSameScope};

use crate::active::active_essentials;
use crate::hypotheses::list_essential_variables;
use crate::sources::FrameSources;
use mm_outline::blocks::NEVER;
use mm_outline::symbol::Sym;
use std::alloc::{AllocError, Allocator};

/// The active `$e`, and their variables, which have a stamp.
pub(crate) struct EssentialLists<A: Allocator> {
    /// For each symbol the last stamp that it was given, or 0.
    pub(crate) stamps: Vec<u32, A>,
    /// 1 more than the assertion for which the lists were made.
    pub(crate) stamp: u32,
    pub(crate) essentials: Vec<u32, A>,
    pub(crate) variables: Vec<Sym, A>,
}

/// Dropped in one call: docs/PROOFS.md, "What a check costs".
impl<A: Allocator> Drop for EssentialLists<A> {
    fn drop(self) {
        let Self {
            stamps: _,
            stamp: _,
            essentials: _,
            variables: _,
        } = self;
    }
}

/// Returns a list that has `value` the given number of times.
pub(crate) fn filled<A: Allocator + Copy>(
    alloc: A,
    value: u32,
    count: u32,
) -> Result<Vec<u32, A>, AllocError>
    ensures length_is { IfOk result (λ v. length v.items ≡ count) }
    ensures each_is_value { IfOk result (λ v. (i : ℕ) → i < count → slice_index v.items i ≡ value) }
{
    vec![in alloc; value; count as usize]
}

impl<A: Allocator + Copy> EssentialLists<A> {
    /// Returns the lists before the first assertion.
    pub(crate) fn new(alloc: A, symbol_count: u32) -> Result<EssentialLists<A>, AllocError>
        ensures { IfOk result (λ s. (at : ℕ) → IsFresh symbol_count at s.stamps.items) }
    {
        let stamps = filled(alloc, 0, symbol_count)?;
        Ok(EssentialLists {
            stamps,
            stamp: 0,
            essentials: Vec::new(alloc),
            variables: Vec::new(alloc),
        })
    }
}

/// Lists the `$e` that are active at an assertion, and their variables. Replaces what the lists
/// have.
pub(crate) fn list_essentials<A: Allocator>(
    sources: &FrameSources<A>,
    assertion: u32,
    essential_lists: &mut EssentialLists<A>,
) -> Result<(), AllocError>
    requires are_sources { AreSources sources.now }
    requires assertion_lt_length { assertion < length sources.now.statements.now.list }
    requires are_fresh { IsFresh
        (length (symbol_names sources.now.statements.now.list)) assertion
        essential_lists.old.stamps.items }
    ensures { OnOk result
        (AreEssentialLists sources.now.statements.now.list assertion essential_lists.new) }
{
    active_essentials(
        sources.statements,
        sources.essentials,
        assertion,
        &mut essential_lists.essentials,
    )?;
    list_essential_variables(
        sources.statements,
        &essential_lists.essentials,
        assertion,
        &mut essential_lists.stamps,
        &mut essential_lists.variables,
    )?;
    essential_lists.stamp = assertion + 1;
    Ok(())
}

/// Whether the same `$d`, `$e` and `$f` are active at an assertion as at the one before it, which
/// may be `NEVER`. They are if the last one is the same, since blocks are nested.
pub(crate) fn is_same_scope<A: Allocator>(
    sources: &FrameSources<A>,
    previous: u32,
    assertion: u32,
) -> bool
    requires are_sources { AreSources sources.now }
    requires assertion_lt_length { assertion < length sources.now.statements.now.list }
    requires previous_lt_assertion { previous ≢ never → previous < assertion }
    ensures { result ≡ true
        → (previous ≢ never) × IsSameScope sources.now.statements.now.list previous assertion }
{
    if previous == NEVER {
        return false;
    }
    sources.frame_parts[previous as usize] == sources.frame_parts[assertion as usize]
}

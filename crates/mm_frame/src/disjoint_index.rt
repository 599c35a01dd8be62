//! How the index of the `$d` statements by their variables is made.

ghost use Rattle.std.specs.Prelude.{◌≡◌, ◌<◌, ◌≤◌, ◌-◌, ◌++◌, ◌&&◌, ℕ, List, All, IfOk, OnOk};
ghost use Rattle.std.specs.Prelude.{length, map, get_or, nat_eq, nat_le, true, false};
ghost use Rattle.mm_spec.specs.Derivation.{is_member};
ghost use Rattle.mm_spec.specs.Frame.{formula_at};
ghost use Rattle.mm_outline.specs.Blocks.{end_of};
ghost use Rattle.mm_database.specs.DisjointIndex.{HaveBlocks, AreSkips, IsDisjointIndex};
ghost use Rattle.mm_database.specs.DisjointIndex.{IsRow, IsRowOfPairs, row_of, has_narrow_pair};
ghost use Rattle.mm_database.specs.DisjointIndex.{has_symbol_by_width};
ghost use Rattle.mm_frame.specs.Chains.{AreChains, AreLinked, IsChainOf};
ghost use Rattle.mm_database.specs.Pairs.{has_pair, AreRising};
ghost use Rattle.mm_database.specs.Starts.{AreStarts};

use crate::chains::pairs_by_symbol;
use crate::disjoint_rows::disjoint_rows;
use mm_database::disjoint_index::DisjointIndex;
use mm_database::statements::Statements;
use mm_outline::blocks::Blocks;
use std::alloc::{AllocError, Allocator};

/// Sorts the pairs, and removes duplicates.
pub(crate) fn sort_and_dedup_pairs<A: Allocator>(pairs: &mut Vec<(u32, u32), A>)
    ensures rising { AreRising pairs.new.items }
    ensures members_stay { (x y : ℕ) → has_pair pairs.new.items x y ≡ has_pair pairs.old.items x y }
{
    pairs.sort_unstable();
    pairs.dedup();
}

/// Whether `pair` has the symbol of the pair `covering`, and a block that ends no later.
pub(crate) fn is_covered<A: Allocator>(
    blocks: &Blocks<A>,
    pair: (u32, u32),
    covering: (u32, u32),
) -> bool
    requires pair_has_block { (pair.1 < length blocks.now.block_of)
        × (get_or blocks.now.block_of pair.1 0 < length blocks.now.ends) }
    requires covering_has_block { (covering.1 < length blocks.now.block_of)
        × (get_or blocks.now.block_of covering.1 0 < length blocks.now.ends) }
    ensures { result
        ≡ (nat_eq pair.0 covering.0
        && nat_le (end_of blocks.now pair.1) (end_of blocks.now covering.1)) }
{
    pair.0 == covering.0 && blocks.end_of(pair.1) <= blocks.end_of(covering.1)
}

/// Returns for each pair the index from which on all pairs up to it are covered by it.
fn skips_of<A: Allocator + Copy>(
    alloc: A,
    blocks: &Blocks<A>,
    by_symbol: &[(u32, u32)],
) -> Result<Vec<usize, A>, AllocError>
    requires all_have_blocks { HaveBlocks blocks.now by_symbol.now }
    ensures { IfOk result (λ v. AreSkips blocks.now by_symbol.now v.items) }
{
    let mut skips = Vec::new(alloc);
    for index in 0..by_symbol.len() {
        let mut covered_from = index;
        while covered_from > 0
            && is_covered(blocks, by_symbol[covered_from - 1], by_symbol[index])
        {
            covered_from = skips[covered_from - 1];
        }
        skips.push(covered_from)?;
    }
    Ok(skips)
}

/// Returns for each symbol up to the last that has pairs the number of pairs of symbols before it.
fn starts_of<A: Allocator + Copy>(
    alloc: A,
    by_symbol: &[(u32, u32)],
) -> Result<Vec<usize, A>, AllocError>
    requires { AreRising by_symbol.now }
    ensures { IfOk result (λ v. AreStarts by_symbol.now v.items) }
{
    let mut starts = Vec::new(alloc);
    for index in 0..by_symbol.len() {
        while starts.len() <= by_symbol[index].0 as usize {
            starts.push(index)?;
        }
    }
    Ok(starts)
}

/// Returns the index of the `$d` statements by their variables.
pub(crate) fn disjoint_index_of<A: Allocator + Copy>(
    alloc: A,
    statements: &Statements<A>,
) -> Result<DisjointIndex<A>, AllocError>
    ensures { IfOk result
        (λ m. IsDisjointIndex statements.now.list statements.now.blocks m) }
{
    let rows = disjoint_rows(alloc, statements)?;
    let by_symbol = pairs_by_symbol(alloc, statements)?;
    let skips = skips_of(alloc, statements.blocks(), &by_symbol)?;
    let starts = starts_of(alloc, &by_symbol)?;
    Ok(DisjointIndex::new(by_symbol, skips, starts, rows))
}

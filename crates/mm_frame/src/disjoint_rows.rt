//! The rows of the narrow `$d`: for each symbol the pairs of a higher symbol and a `$d` that has
//! both, in ascending order. They come of lists that have for each symbol the lower ones, in the
//! order of the statements: these are gone through symbol by symbol, and each pair is appended to
//! the row of the lower one. So no row is sorted.

ghost use Rattle.std.specs.Prelude.{◌≡◌, ◌<◌, ◌≤◌, ◌-◌, ◌^◌, ℕ, IfOk, OnOk, length, get_or};
ghost use Rattle.std.specs.Prelude.{true, false};
ghost use Rattle.mm_outline.specs.Blocks.{end_of};
ghost use Rattle.mm_database.specs.DisjointIndex.{HaveBlocks, IsRow, IsRowOfPairs, row_of};
ghost use Rattle.mm_database.specs.DisjointIndex.{has_narrow_pair, has_symbol_by_width};
ghost use Rattle.mm_frame.specs.LowerLists.{AreLowerLists, DoStatementsRise};
ghost use Rattle.mm_frame.specs.Rows.{AddsListToRows, AddsToRow, AreAllKnown, AreRowsFor, HasBlock};

use crate::disjoint_index::is_covered;
use crate::lower_lists::{empty_lists, lower_lists};
use mm_database::statements::Statements;
use mm_lists::Lists;
use mm_outline::blocks::Blocks;
use std::alloc::{AllocError, Allocator};

/// Whether the last pair of a row, if there is one, covers the pair.
fn is_covered_by_last<A: Allocator>(
    blocks: &Blocks<A>,
    row: &[(u32, u32)],
    pair: (u32, u32),
) -> bool
    requires row_has_blocks { HaveBlocks blocks.now row.now }
    requires pair_has_block { (pair.1 < length blocks.now.block_of)
        × (get_or blocks.now.block_of pair.1 0 < length blocks.now.ends) }
    ensures covered_if_true { result ≡ true
        → (0 < length row.now)
        × (pair.0 ≡ (get_or row.now (length row.now - 1) (0, 0)).0)
        × (end_of blocks.now pair.1
        ≤ end_of blocks.now (get_or row.now (length row.now - 1) (0, 0)).1) }
    ensures ends_later_if_false { result ≡ false
        → 0 < length row.now
        → pair.0 ≡ (get_or row.now (length row.now - 1) (0, 0)).0
        → end_of blocks.now (get_or row.now (length row.now - 1) (0, 0)).1
        < end_of blocks.now pair.1 }
{
    row.len() > 0 && is_covered(blocks, pair, row[row.len() - 1])
}

/// Appends a pair to a row, unless the row's last pair covers it.
fn add_to_row<A: Allocator>(
    blocks: &Blocks<A>,
    pair: (u32, u32),
    row: &mut Vec<(u32, u32), A>,
) -> Result<(), AllocError>
    requires row_has_blocks { HaveBlocks blocks.now row.old.items }
    requires pair_has_block { HasBlock blocks.now pair }
    ensures row_has_blocks { OnOk result (HaveBlocks blocks.now row.new.items) }
    ensures adds_to_row { OnOk result (AddsToRow blocks.now pair row.old.items row.new.items) }
{
    if !is_covered_by_last(blocks, row, pair) {
        row.push(pair)?;
    }
    Ok(())
}

/// Appends the pairs of the list of the symbol `high` to the rows of the lower symbols.
fn add_list_to_rows<A: Allocator>(
    blocks: &Blocks<A>,
    high: u32,
    list: &[(u32, u32)],
    rows: &mut [Vec<(u32, u32), A>],
) -> Result<(), AllocError>
    requires all_have_rows { (p : ℕ) → p < length list.now
        → (get_or list.now p (0, 0)).0 < length rows.old }
    requires statements_rise { DoStatementsRise list.now }
    requires list_has_blocks { HaveBlocks blocks.now list.now }
    requires are_known { AreAllKnown blocks.now rows.old }
    ensures row_count_stays { length rows.new ≡ length rows.old }
    ensures are_known { OnOk result (AreAllKnown blocks.now rows.new) }
    ensures adds_list { OnOk result
        (AddsListToRows blocks.now high list.now rows.old rows.new) }
{
    for pair in list {
        add_to_row(blocks, (high, pair.1), &mut rows[pair.0 as usize])?;
    }
    Ok(())
}

/// Returns the rows of the symbols, by the lists of the lower symbols, which are given back.
fn rows_of_lists<A: Allocator + Copy>(
    alloc: A,
    statements: &Statements<A>,
    lists: Vec<Vec<(u32, u32), A>, A>,
) -> Result<Vec<Vec<(u32, u32), A>, A>, AllocError>
    requires all_have_lists { (x j : ℕ)
        → has_symbol_by_width statements.now.list true x j ≡ true → x < length lists.items }
    requires few_lists { length lists.items ≤ 2 ^ 32 }
    requires are_lists { AreLowerLists (λ y x j. has_narrow_pair statements.now.list x y j)
        (length statements.now.list) lists.items }
    ensures count_stays { IfOk result (λ v. length v.items ≡ length lists.items) }
    ensures are_rows { IfOk result
        (λ v. AreRowsFor statements.now.blocks (has_narrow_pair statements.now.list) v.items) }
{
    let mut rows = empty_lists(alloc, lists.len())?;
    for high in 0..lists.len() {
        add_list_to_rows(statements.blocks(), high as u32, &lists[high], &mut rows)?;
    }
    Ok(rows)
}

/// Returns the row of each symbol. Symbols behind the last row have none.
pub(crate) fn disjoint_rows<A: Allocator + Copy>(
    alloc: A,
    statements: &Statements<A>,
) -> Result<Lists<(u32, u32), A>, AllocError>
    ensures { IfOk result
        (λ r. (x : ℕ) → IsRow statements.now.blocks (row_of r x)
        × IsRowOfPairs statements.now.blocks (has_narrow_pair statements.now.list x) (row_of r x)) }
{
    let lists = lower_lists(alloc, statements)?;
    let rows = rows_of_lists(alloc, statements, lists)?;
    let mut joined = Lists::new(alloc);
    for row in &rows {
        joined.push(row)?;
    }
    Ok(joined)
}

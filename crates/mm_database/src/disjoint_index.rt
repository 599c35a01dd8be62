//! The `$d` statements by their variables. Two variables are looked up by one binary search among
//! the narrow `$d` of the lower of them. Of wide `$d`, which have too many pairs of variables to
//! list them, the cost depends on those that have one of the two.
//! Here `at` is the number of the statement at which something is active, not a place of the text.

ghost use Rattle.std.specs.Prelude.{◌≡◌, ◌≢◌, ◌<◌, ◌≤◌, ◌+◌, ◌-◌, ◌&&◌, ◌||◌, ℕ, OnOk};
ghost use Rattle.std.specs.Prelude.{length, get_or, nat_eq, nat_lt, nat_le, true, false};
ghost use Rattle.mm_outline.specs.Blocks.{end_of};
ghost use Rattle.mm_database.specs.DisjointIndex.{pair_lists, is_active_local, IsWellFormed};
ghost use Rattle.mm_database.specs.DisjointIndex.{is_narrow, is_active_in_row, is_active_pair};
ghost use Rattle.mm_database.specs.DisjointIndex.{IsRow, row_of};
ghost use Rattle.mm_database.specs.Pairs.{has_pair, AreRising, is_pair_before};
ghost use Rattle.mm_database.specs.Starts.{IsStart, AreStarts};

use mm_lists::Lists;
use mm_outline::blocks::Blocks;
use mm_outline::symbol::Sym;
use std::alloc::{AllocError, Allocator};
use std::marker::Model;

/// The maximum number of symbols of a narrow `$d`: all pairs of its symbols are listed, which are
/// at most 8 for each symbol.
const MAX_NARROW: usize = 16;

/// Whether a `$d` of these symbols is narrow.
pub fn is_narrow(symbols: &[Sym]) -> bool
    ensures { result ≡ is_narrow symbols.now }
{
    symbols.len() <= MAX_NARROW
}

/// The `$d` statements by their variables.
pub struct DisjointIndex<A: Allocator> {
    /// For each variable and each wide `$d` that has it the two, the variable first, in ascending
    /// order.
    by_symbol: Vec<(u32, u32), A>,
    /// For each pair the index of an earlier one, or its own. All pairs from there up to it have
    /// its variable, and their blocks end no later than its own. So if its block is closed, all of
    /// them are skipped at once.
    skips: Vec<usize, A>,
    /// For each symbol up to the last that has pairs, the number of pairs of symbols before it.
    starts: Vec<usize, A>,
    /// For each symbol up to the last that needs it a row: the higher symbols with which a narrow
    /// `$d` has it, each paired with the `$d`, in ascending order. A pair is left out if the one
    /// before it has the same symbol and a block that ends no earlier.
    rows: Lists<(u32, u32), A>,
}

/// Dropped in one call: docs/PROOFS.md, "What a check costs".
impl<A: Allocator> Drop for DisjointIndex<A> {
    fn drop(self) {
        let Self {
            by_symbol: _,
            skips: _,
            starts: _,
            rows: _,
        } = self;
    }
}

impl<A: Allocator> Model for DisjointIndex<A> {
    ghost use Rattle.mm_database.specs.DisjointIndex.{PairLists, pair_lists};
    ghost use Rattle.mm_database.specs.Starts.{AreStarts};

    ghost Value = { PairLists };

    ghost view = { λ i. pair_lists i.by_symbol.items i.skips.items i.rows };

    ghost invariant = { λ i. AreStarts i.by_symbol.items i.starts.items };
}

impl<A: Allocator> DisjointIndex<A> {
    /// Returns the index with these pairs, skips, starts and rows.
    pub fn new(
        by_symbol: Vec<(u32, u32), A>,
        skips: Vec<usize, A>,
        starts: Vec<usize, A>,
        rows: Lists<(u32, u32), A>,
    ) -> DisjointIndex<A>
        requires { AreStarts by_symbol.items starts.items }
        ensures { result ≡ pair_lists by_symbol.items skips.items rows }
    {
        DisjointIndex {
            by_symbol,
            skips,
            starts,
            rows,
        }
    }

    /// Returns the row of a symbol: the higher symbols with which a narrow `$d` has it, each paired
    /// with the `$d`.
    #[inline(always)]
    pub fn row(&self, symbol: Sym) -> &[(u32, u32)]
        ensures { result.now ≡ row_of self.now.rows symbol }
    {
        let index = symbol.number() as usize;
        if index < self.rows.len() {
            self.rows.get(index)
        } else {
            &[]
        }
    }
}

/// Returns the number of pairs of a row before the pair of `symbol` and the statement `at`.
#[inline(always)]
fn count_in_row(row: &[(u32, u32)], symbol: u32, at: u32) -> usize
    requires { AreRising row.now }
    ensures result_le_length { result ≤ length row.now }
    ensures earlier_are_before { (p : ℕ)
        → p < result → is_pair_before (get_or row.now p (0, 0)) symbol at ≡ true }
    ensures later_are_not_before { (p : ℕ) → result ≤ p → p < length row.now
        → is_pair_before (get_or row.now p (0, 0)) symbol at ≡ false }
{
    row.partition_point(
        |pair: &(u32, u32)| -> bool
            ensures { result ≡ is_pair_before pair.now symbol at }
        { pair.0 < symbol || (pair.0 == symbol && pair.1 < at) },
    )
}

/// Whether a row has the symbol with a `$d` that is active at the statement `at`.
pub fn is_active_in_row<A: Allocator>(
    blocks: &Blocks<A>,
    row: &[(u32, u32)],
    symbol: u32,
    at: u32,
) -> bool
    requires { IsRow blocks.now row.now }
    ensures { result ≡ is_active_in_row blocks.now row.now symbol at }
{
    let count = count_in_row(row, symbol, at);
    last_has_symbol(row, count, symbol) && blocks.is_block_open(row[count - 1].1, at)
}

/// Whether a narrow `$d` that is active at the statement `at` has both symbols.
fn is_active_pair<A: Allocator>(
    blocks: &Blocks<A>,
    disjoint_index: &DisjointIndex<A>,
    x: Sym,
    y: Sym,
    at: u32,
) -> bool
    requires { IsWellFormed blocks.now disjoint_index.now }
    ensures { result ≡ is_active_pair blocks.now disjoint_index.now.rows x y at }
{
    if x.number() < y.number() {
        is_active_in_row(blocks, disjoint_index.row(x), y.number(), at)
    } else {
        is_active_in_row(blocks, disjoint_index.row(y), x.number(), at)
    }
}

/// Returns the number of pairs of symbols before a symbol.
fn start_of(by_symbol: &[(u32, u32)], starts: &[usize], symbol: usize) -> usize
    requires { AreStarts by_symbol.now starts.now }
    ensures { IsStart by_symbol.now symbol result }
{
    match starts.get(symbol) {
        Some(start) => *start,
        None => by_symbol.len(),
    }
}

/// Returns the number of pairs before the pair of `symbol` and the statement `at`.
fn count_before(by_symbol: &[(u32, u32)], starts: &[usize], symbol: u32, at: u32) -> usize
    requires rising { AreRising by_symbol.now }
    requires are_starts { AreStarts by_symbol.now starts.now }
    ensures result_le_length { result ≤ length by_symbol.now }
    ensures earlier_are_before { (p : ℕ)
        → p < result → is_pair_before (get_or by_symbol.now p (0, 0)) symbol at ≡ true }
    ensures later_are_not_before { (p : ℕ) → result ≤ p → p < length by_symbol.now
        → is_pair_before (get_or by_symbol.now p (0, 0)) symbol at ≡ false }
{
    let from = start_of(by_symbol, starts, symbol as usize);
    let to = start_of(by_symbol, starts, symbol as usize + 1);
    let earlier = by_symbol[from..to].partition_point(
        |pair: &(u32, u32)| -> bool
            ensures { result ≡ nat_lt pair.now.1 at }
        { pair.1 < at },
    );
    from + earlier
}

/// Whether the last of the first `end` pairs, if there is one, has the symbol.
fn last_has_symbol(pairs: &[(u32, u32)], end: usize, symbol: u32) -> bool
    requires { end ≤ length pairs.now }
    ensures has_if_true { result ≡ true
        → (0 < end) × ((get_or pairs.now (end - 1) (0, 0)).0 ≡ symbol) }
    ensures differs_if_false { result ≡ false → 0 < end
        → (get_or pairs.now (end - 1) (0, 0)).0 ≢ symbol }
{
    end > 0 && pairs[end - 1].0 == symbol
}

/// Returns how many of the first `end` pairs are still to be looked at once the last of them has
/// been. If the block of its `$d` is closed at the statement `at`, those of the pairs that it
/// covers are closed too, and are skipped with it.
fn skip_last<A: Allocator>(
    blocks: &Blocks<A>,
    disjoint_index: &DisjointIndex<A>,
    end: usize,
    at: u32,
) -> usize
    requires end_gt_0 { 0 < end }
    requires end_le_length { end ≤ length disjoint_index.now.by_symbol }
    requires well_formed { IsWellFormed blocks.now disjoint_index.now }
    ensures result_lt_end { result < end }
    ensures skipped_are_closed { (p : ℕ) → result ≤ p → p + 1 < end
        → nat_le at (end_of blocks.now (get_or disjoint_index.now.by_symbol p (0, 0)).1) ≡ false }
{
    if blocks.is_block_open(disjoint_index.by_symbol[end - 1].1, at) {
        end - 1
    } else {
        disjoint_index.skips[end - 1]
    }
}

/// Appends each wide `$d` that is active at the statement `at` and has the symbol, paired with the
/// symbol: the `$d` first.
pub fn append_active_wide<A: Allocator>(
    blocks: &Blocks<A>,
    disjoint_index: &DisjointIndex<A>,
    symbol: Sym,
    at: u32,
    by_statement: &mut Vec<(u32, u32), A>,
) -> Result<(), AllocError>
    requires well_formed { IsWellFormed blocks.now disjoint_index.now }
    ensures { OnOk result
        ((j y : ℕ)
        → has_pair by_statement.new.items j y
        ≡ (has_pair by_statement.old.items j y
        || (nat_eq y symbol
        && (has_pair disjoint_index.now.by_symbol symbol j && is_active_local blocks.now j at)))) }
{
    let by_symbol = disjoint_index.by_symbol.as_slice();
    let starts = disjoint_index.starts.as_slice();
    let mut end = count_before(by_symbol, starts, symbol.number(), at);
    while last_has_symbol(by_symbol, end, symbol.number()) {
        let statement = by_symbol[end - 1].1;
        if blocks.is_block_open(statement, at) {
            by_statement.push((statement, symbol.number()))?;
        }
        end = skip_last(blocks, disjoint_index, end, at);
    }
    Ok(())
}

/// Whether a wide `$d` that is active at the statement `at` has both symbols.
#[inline(never)]
fn are_together<A: Allocator>(
    blocks: &Blocks<A>,
    disjoint_index: &DisjointIndex<A>,
    x: Sym,
    y: Sym,
    at: u32,
) -> bool
    requires well_formed { IsWellFormed blocks.now disjoint_index.now }
    ensures are_together_if_true { result ≡ true
        → (j : ℕ) × (has_pair disjoint_index.now.by_symbol x j ≡ true)
        × (has_pair disjoint_index.now.by_symbol y j ≡ true)
        × (is_active_local blocks.now j at ≡ true) }
    ensures none_if_false { result ≡ false
        → (j : ℕ) → has_pair disjoint_index.now.by_symbol x j ≡ true
        → has_pair disjoint_index.now.by_symbol y j ≡ true
        → is_active_local blocks.now j at ≡ false }
{
    let by_symbol = disjoint_index.by_symbol.as_slice();
    let starts = disjoint_index.starts.as_slice();
    let mut x_end = count_before(by_symbol, starts, x.number(), at);
    let mut y_end = count_before(by_symbol, starts, y.number(), at);
    while last_has_symbol(by_symbol, x_end, x.number())
        && last_has_symbol(by_symbol, y_end, y.number())
    {
        let x_statement = by_symbol[x_end - 1].1;
        let y_statement = by_symbol[y_end - 1].1;
        if x_statement == y_statement && blocks.is_block_open(x_statement, at) {
            return true;
        }
        if x_statement < y_statement {
            y_end = skip_last(blocks, disjoint_index, y_end, at);
        } else {
            x_end = skip_last(blocks, disjoint_index, x_end, at);
        }
    }
    false
}

/// Whether a `$d` that is active at the statement `at`, narrow or wide, has both symbols, which are
/// different.
pub(crate) fn are_in_one<A: Allocator>(
    blocks: &Blocks<A>,
    disjoint_index: &DisjointIndex<A>,
    x: Sym,
    y: Sym,
    at: u32,
) -> bool
    requires { IsWellFormed blocks.now disjoint_index.now }
    ensures narrow_is_found { is_active_pair blocks.now disjoint_index.now.rows x y at ≡ true
        → result ≡ true }
    ensures wide_if_true { result ≡ true
        → is_active_pair blocks.now disjoint_index.now.rows x y at ≡ false
        → (j : ℕ) × (has_pair disjoint_index.now.by_symbol x j ≡ true)
        × (has_pair disjoint_index.now.by_symbol y j ≡ true)
        × (is_active_local blocks.now j at ≡ true) }
    ensures none_if_false { result ≡ false
        → (j : ℕ) → has_pair disjoint_index.now.by_symbol x j ≡ true
        → has_pair disjoint_index.now.by_symbol y j ≡ true
        → is_active_local blocks.now j at ≡ false }
{
    is_active_pair(blocks, disjoint_index, x, y, at)
        || are_together(blocks, disjoint_index, x, y, at)
}

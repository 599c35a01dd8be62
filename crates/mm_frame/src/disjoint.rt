//! The mandatory pairs of disjoint variables of assertions.
//!
//! Here `at` is the number of the statement at which something is active, not a place of the text.
//! A `$d` of at most 16 symbols is narrow, and another one is wide. The stamp of an assertion is 1
//! more than the number of its statement, and `stamps` has for each symbol the last stamp that it
//! was given. So a symbol is one of the variables of an assertion if it has the assertion's stamp.
//! The disjoint end of a symbol is the last of the ends of the blocks of all `$d` that have it
//! (`symbol_facts.rt`).

ghost use Rattle.std.specs.Prelude.{◌≡◌, ◌<◌, ◌+◌, ◌&&◌, ◌||◌, ℕ, OnOk, IfOk, All, length};
ghost use Rattle.std.specs.Prelude.{get_or, map, nat_eq, nat_le, nat_lt, slice_index};
ghost use Rattle.std.specs.List.{list_any};
ghost use Rattle.mm_spec.specs.Derivation.{is_member, pair};
ghost use Rattle.mm_spec.specs.Frame.{mandatory_variables, mandatory_pairs, symbol_names};
ghost use Rattle.mm_database.specs.DisjointIndex.{is_active_local, is_active_in_row, IsWellFormed};
ghost use Rattle.mm_database.specs.DisjointIndex.{IsRow, row_of};
ghost use Rattle.mm_frame.specs.Hypotheses.{AreStamps};
ghost use Rattle.mm_frame.specs.Sources.{AreSources};
ghost use Rattle.mm_frame.specs.SymbolFacts.{AreDisjointVariables};
ghost use Rattle.mm_frame.specs.Together.{has_later, is_higher_variable_in_row};
ghost use Rattle.mm_frame.specs.Together.{is_higher_variable_in_rows};
ghost use Rattle.mm_database.specs.Pairs.{has_pair, AreRising};

use crate::disjoint_index::sort_and_dedup_pairs;
use crate::sources::FrameSources;
use mm_database::disjoint_index::{DisjointIndex, append_active_wide, is_active_in_row};
use mm_outline::blocks::Blocks;
use mm_outline::symbol::Sym;
use std::alloc::{AllocError, Allocator};

/// Appends the pairs of the variable at `index` and the later variables of the same statement.
fn add_later_pairs<A: Allocator>(
    by_statement: &[(u32, u32)],
    index: usize,
    pairs: &mut Vec<(u32, u32), A>,
) -> Result<(), AllocError>
    requires rising { AreRising by_statement.now }
    requires index_lt_length { index < length by_statement.now }
    ensures { OnOk result
        ((x y : ℕ)
        → has_pair pairs.new.items x y
        ≡ (has_pair pairs.old.items x y
        || has_later by_statement.now (get_or by_statement.now index (0, 0)) x y)) }
{
    let mut later = index + 1;
    while later < by_statement.len() && by_statement[later].0 == by_statement[index].0 {
        pairs.push((by_statement[index].1, by_statement[later].1))?;
        later += 1;
    }
    Ok(())
}

/// Appends all pairs of variables that are in the same statement, the lower variable first.
/// `by_statement` has pairs of a statement and a variable that it has.
fn add_pairs_by_statement<A: Allocator>(
    by_statement: &[(u32, u32)],
    pairs: &mut Vec<(u32, u32), A>,
) -> Result<(), AllocError>
    requires rising { AreRising by_statement.now }
    ensures { OnOk result
        ((x y : ℕ)
        → has_pair pairs.new.items x y
        ≡ (has_pair pairs.old.items x y
        || list_any (λ p. has_later by_statement.now p x y) by_statement.now)) }
{
    for index in 0..by_statement.len() {
        add_later_pairs(by_statement, index, pairs)?;
    }
    Ok(())
}

/// Appends each wide `$d` that is active at the statement `at`, paired with each of the symbols
/// that it has: the `$d` first.
fn append_all_active_wide<A: Allocator>(
    blocks: &Blocks<A>,
    disjoint_index: &DisjointIndex<A>,
    symbols: &[Sym],
    at: u32,
    by_statement: &mut Vec<(u32, u32), A>,
) -> Result<(), AllocError>
    requires well_formed { IsWellFormed blocks.now disjoint_index.now }
    ensures { OnOk result
        ((j y : ℕ)
        → has_pair by_statement.new.items j y
        ≡ (has_pair by_statement.old.items j y
        || (is_member symbols.now y
        && (has_pair disjoint_index.now.by_symbol y j && is_active_local blocks.now j at)))) }
{
    for symbol in symbols {
        append_active_wide(blocks, disjoint_index, *symbol, at, by_statement)?;
    }
    Ok(())
}

/// Returns the pairs of numbers as pairs of symbols.
pub(crate) fn symbol_pairs<A: Allocator + Copy>(
    alloc: A,
    pairs: &[(u32, u32)],
) -> Result<Vec<(Sym, Sym), A>, AllocError>
    ensures { IfOk result
        (λ v. map (λ p. pair p.0 p.1) v.items ≡ map (λ p. pair p.0 p.1) pairs.now) }
{
    let mut symbols = Vec::with_capacity(alloc, pairs.len())?;
    for (low, high) in pairs {
        symbols.push((Sym::new(*low), Sym::new(*high)))?;
    }
    Ok(symbols)
}

/// Lists those of the variables whose disjoint end isn't before the statement `at`. The others are
/// in no `$d` that is active there. Replaces what `disjoint_variables` has.
pub(crate) fn list_disjoint_variables<A: Allocator>(
    disjoint_ends: &[u32],
    variables: &[Sym],
    at: u32,
    disjoint_variables: &mut Vec<Sym, A>,
) -> Result<(), AllocError>
    requires { All (λ s. s < length disjoint_ends.now) variables.now }
    ensures { OnOk result
        ((x : ℕ)
        → is_member disjoint_variables.new.items x
        ≡ (is_member variables.now x && nat_le at (slice_index disjoint_ends.now x))) }
{
    disjoint_variables.clear();
    for variable in variables {
        if at <= disjoint_ends[variable.number() as usize] {
            disjoint_variables.push(*variable)?;
        }
    }
    Ok(())
}

/// Whether a symbol is higher than `low`, whose row has it with an active `$d`.
fn is_higher_in_row<A: Allocator>(
    blocks: &Blocks<A>,
    row: &[(u32, u32)],
    low: u32,
    high: u32,
    at: u32,
) -> bool
    requires { IsRow blocks.now row.now }
    ensures { result ≡ (nat_lt low high && is_active_in_row blocks.now row.now high at) }
{
    low < high && is_active_in_row(blocks, row, high, at)
}

/// Appends the pairs of a symbol and those of the variables that are higher and that its row has
/// with an active `$d`. Each variable is looked up in the row.
fn add_looked_up<A: Allocator>(
    blocks: &Blocks<A>,
    row: &[(u32, u32)],
    low: u32,
    variables: &[Sym],
    at: u32,
    pairs: &mut Vec<(u32, u32), A>,
) -> Result<(), AllocError>
    requires { IsRow blocks.now row.now }
    ensures { OnOk result
        ((x y : ℕ)
        → has_pair pairs.new.items x y
        ≡ (has_pair pairs.old.items x y
        || (nat_eq x low && is_higher_variable_in_row blocks.now row.now low variables.now at y))) }
{
    for variable in variables {
        if is_higher_in_row(blocks, row, low, variable.number(), at) {
            pairs.push((low, variable.number()))?;
        }
    }
    Ok(())
}

/// Whether a symbol is one of the variables, which have the stamp.
fn has_stamp(stamps: &[u32], stamp: u32, variables: &[Sym], symbol: u32) -> bool
    requires variables_lt_count { All (λ s. s < length stamps.now) variables.now }
    requires are_stamps { AreStamps (length stamps.now) stamp stamps.now variables.now }
    ensures { result ≡ is_member variables.now symbol }
{
    match stamps.get(symbol as usize) {
        Some(last) => *last == stamp,
        None => false,
    }
}

/// Whether a pair of a row has an active `$d` and a variable that is higher than `low`. The
/// variables have the stamp.
fn is_active_higher_pair<A: Allocator>(
    blocks: &Blocks<A>,
    low: u32,
    stamps: &[u32],
    stamp: u32,
    variables: &[Sym],
    at: u32,
    pair: (u32, u32),
) -> bool
    requires variables_lt_count { All (λ s. s < length stamps.now) variables.now }
    requires are_stamps { AreStamps (length stamps.now) stamp stamps.now variables.now }
    requires pair_has_block { (pair.1 < length blocks.now.block_of)
        × (get_or blocks.now.block_of pair.1 0 < length blocks.now.ends) }
    ensures { result
        ≡ (nat_lt low pair.0
        && (is_member variables.now pair.0 && is_active_local blocks.now pair.1 at)) }
{
    low < pair.0
        && has_stamp(stamps, stamp, variables, pair.0)
        && (pair.1 < at && blocks.is_block_open(pair.1, at))
}

/// The same as [`add_looked_up`] by a walk over the row. The variables have the stamp.
fn add_walked<A: Allocator>(
    blocks: &Blocks<A>,
    row: &[(u32, u32)],
    low: u32,
    stamps: &[u32],
    stamp: u32,
    variables: &[Sym],
    at: u32,
    pairs: &mut Vec<(u32, u32), A>,
) -> Result<(), AllocError>
    requires is_row { IsRow blocks.now row.now }
    requires variables_lt_count { All (λ s. s < length stamps.now) variables.now }
    requires are_stamps { AreStamps (length stamps.now) stamp stamps.now variables.now }
    ensures { OnOk result
        ((x y : ℕ)
        → has_pair pairs.new.items x y
        ≡ (has_pair pairs.old.items x y
        || (nat_eq x low && is_higher_variable_in_row blocks.now row.now low variables.now at y))) }
{
    for pair in row {
        if is_active_higher_pair(blocks, low, stamps, stamp, variables, at, *pair) {
            pairs.push((low, pair.0))?;
        }
    }
    Ok(())
}

/// Appends the pairs of variables, the lower one first, that a narrow `$d` has that is active at
/// the statement `at`. The variables have the stamp, and only the disjoint variables may be in such
/// a `$d`. For each of these the cost is one step for each pair of its row, or one look-up for each
/// of them, whichever are fewer.
fn add_narrow<A: Allocator>(
    blocks: &Blocks<A>,
    disjoint_index: &DisjointIndex<A>,
    stamps: &[u32],
    stamp: u32,
    variables: &[Sym],
    disjoint_variables: &[Sym],
    at: u32,
    pairs: &mut Vec<(u32, u32), A>,
) -> Result<(), AllocError>
    requires well_formed { IsWellFormed blocks.now disjoint_index.now }
    requires variables_lt_count { All (λ s. s < length stamps.now) variables.now }
    requires are_stamps { AreStamps (length stamps.now) stamp stamps.now variables.now }
    requires higher_are_disjoint_variables { (x y : ℕ)
        → is_higher_variable_in_row blocks.now (row_of disjoint_index.now.rows x) x variables.now
        at y
        ≡ is_higher_variable_in_row blocks.now (row_of disjoint_index.now.rows x) x
        disjoint_variables.now at y }
    ensures { OnOk result
        ((x y : ℕ)
        → has_pair pairs.new.items x y
        ≡ (has_pair pairs.old.items x y
        || is_higher_variable_in_rows blocks.now disjoint_index.now.rows disjoint_variables.now at x
        y)) }
{
    for variable in disjoint_variables {
        let row = disjoint_index.row(*variable);
        let low = variable.number();
        if row.len() <= disjoint_variables.len() {
            add_walked(blocks, row, low, stamps, stamp, variables, at, pairs)?;
        } else {
            add_looked_up(blocks, row, low, disjoint_variables, at, pairs)?;
        }
    }
    Ok(())
}

/// Lists the mandatory pairs of an assertion in `pairs`, by its mandatory variables, which have the
/// stamp 1 more than the assertion. Only the disjoint variables among them may be in an active
/// `$d`, so nothing is looked up for the others. For wide `$d` the cost is one step for each active
/// one of each disjoint variable, and one for each pair in each of these `$d`. What the lists had
/// before is removed.
pub(crate) fn list_pairs<A: Allocator>(
    sources: &FrameSources<A>,
    variables: &[Sym],
    disjoint_variables: &[Sym],
    stamps: &[u32],
    assertion: u32,
    variables_by_statement: &mut Vec<(u32, u32), A>,
    pairs: &mut Vec<(u32, u32), A>,
) -> Result<(), AllocError>
    requires are_sources { AreSources sources.now }
    requires assertion_lt_length { assertion < length sources.now.statements.now.list }
    requires are_mandatory { (x : ℕ)
        → is_member variables.now x
        ≡ is_member (mandatory_variables sources.now.statements.now.list assertion) x }
    requires are_disjoint_variables { AreDisjointVariables sources.now.statements.now.list
        sources.now.statements.now.blocks assertion variables.now disjoint_variables.now }
    requires are_stamps { AreStamps (length (symbol_names sources.now.statements.now.list))
        (assertion + 1) stamps.now variables.now }
    ensures { OnOk result
        (map (λ p. pair p.0 p.1) pairs.new.items
        ≡ mandatory_pairs sources.now.statements.now.list assertion) }
{
    let blocks = sources.statements.blocks();
    let disjoint_index = sources.disjoint_index;
    variables_by_statement.clear();
    append_all_active_wide(
        blocks,
        disjoint_index,
        disjoint_variables,
        assertion,
        variables_by_statement,
    )?;
    sort_and_dedup_pairs(variables_by_statement);
    pairs.clear();
    add_narrow(
        blocks,
        disjoint_index,
        stamps,
        assertion + 1,
        variables,
        disjoint_variables,
        assertion,
        pairs,
    )?;
    add_pairs_by_statement(variables_by_statement, pairs)?;
    sort_and_dedup_pairs(pairs);
    Ok(())
}

//! For each symbol the lower symbols with which a narrow `$d` has it, each paired with the `$d`, in
//! the order of the statements. The rows of the narrow `$d` are made from these lists.

ghost use Rattle.std.specs.Prelude.{◌≡◌, ◌<◌, ◌≤◌, ◌^◌, ◌&&◌, [], ℕ, IfOk, OnOk, length, get_or};
ghost use Rattle.std.specs.Prelude.{All, nat_eq, nat_lt, true};
ghost use Rattle.mm_spec.specs.Derivation.{is_member};
ghost use Rattle.mm_database.specs.DisjointIndex.{has_narrow_pair, has_symbol_by_width};
ghost use Rattle.mm_frame.specs.LowerLists.{AddsToLists, AreLowerLists};

use crate::chains::is_disjoint_by_width;
use mm_database::statements::Statements;
use mm_outline::symbol::Sym;
use std::alloc::{AllocError, Allocator};

/// The least count of lists, and at least `count`, with which each of the symbols has one.
fn count_with(symbols: &[Sym], count: usize) -> usize
    ensures count_le_result { count ≤ result }
    ensures all_have_lists { (x : ℕ) → is_member symbols.now x ≡ true → x < result }
    ensures few_lists { count ≤ 2 ^ 32 → result ≤ 2 ^ 32 }
{
    let mut most = count;
    for symbol in symbols {
        most = most.max(symbol.number() as usize + 1);
    }
    most
}

/// The number of lists that are needed: no symbol that a narrow `$d` has is higher than the last.
fn list_count<A: Allocator>(statements: &Statements<A>) -> usize
    ensures all_have_lists { (x j : ℕ)
        → has_symbol_by_width statements.now.list true x j ≡ true → x < result }
    ensures few_lists { result ≤ 2 ^ 32 }
{
    let mut count = 0;
    for statement in 0..statements.len() {
        if is_disjoint_by_width(statements, statement, true) {
            count = count_with(statements.formula(statement), count);
        }
    }
    count
}

/// So many lists without pairs.
pub(crate) fn empty_lists<A: Allocator + Copy>(
    alloc: A,
    count: usize,
) -> Result<Vec<Vec<(u32, u32), A>, A>, AllocError>
    ensures count_is { IfOk result (λ v. length v.items ≡ count) }
    ensures are_empty { IfOk result
        (λ v. (x : ℕ) (d : _) → x < length v.items → (get_or v.items x d).items ≡ []) }
{
    let mut lists = Vec::with_capacity(alloc, count)?;
    for _ in 0..count {
        lists.push(Vec::new(alloc))?;
    }
    Ok(lists)
}

/// Appends the symbol `low`, paired with the statement, to the lists of those of the symbols that
/// are higher.
fn add_to_higher<A: Allocator>(
    low: Sym,
    statement: u32,
    symbols: &[Sym],
    lists: &mut [Vec<(u32, u32), A>],
) -> Result<(), AllocError>
    requires { All (λ s. s < length lists.old) symbols.now }
    ensures list_count_stays { length lists.new ≡ length lists.old }
    ensures adds_to_lists { OnOk result
        (AddsToLists (λ y x. nat_eq x low && (nat_lt x y && is_member symbols.now y)) statement
        lists.old lists.new) }
{
    for symbol in symbols {
        if low.number() < symbol.number() {
            lists[symbol.number() as usize].push((low.number(), statement))?;
        }
    }
    Ok(())
}

/// Appends the lower of each two symbols of a statement, paired with it, to the list of the higher.
fn add_all_pairs<A: Allocator>(
    statement: u32,
    symbols: &[Sym],
    lists: &mut [Vec<(u32, u32), A>],
) -> Result<(), AllocError>
    requires { All (λ s. s < length lists.old) symbols.now }
    ensures list_count_stays { length lists.new ≡ length lists.old }
    ensures adds_to_lists { OnOk result
        (AddsToLists
        (λ y x. is_member symbols.now x && (nat_lt x y && is_member symbols.now y)) statement
        lists.old lists.new) }
{
    for low in symbols {
        add_to_higher(*low, statement, symbols, lists)?;
    }
    Ok(())
}

/// Returns the list of each symbol. Symbols behind the last list are in no narrow `$d`.
pub(crate) fn lower_lists<A: Allocator + Copy>(
    alloc: A,
    statements: &Statements<A>,
) -> Result<Vec<Vec<(u32, u32), A>, A>, AllocError>
    ensures all_have_lists { IfOk result
        (λ v. (x j : ℕ) → has_symbol_by_width statements.now.list true x j ≡ true
        → x < length v.items) }
    ensures few_lists { IfOk result (λ v. length v.items ≤ 2 ^ 32) }
    ensures are_lists { IfOk result
        (λ v. AreLowerLists (λ y x j. has_narrow_pair statements.now.list x y j)
        (length statements.now.list) v.items) }
{
    let mut lists = empty_lists(alloc, list_count(statements))?;
    for statement in 0..statements.len() {
        if is_disjoint_by_width(statements, statement, true) {
            add_all_pairs(statement, statements.formula(statement), &mut lists)?;
        }
    }
    Ok(lists)
}

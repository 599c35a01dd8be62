//! Which variables have to be distinct, in two databases.

ghost use Rattle.std.specs.Prelude.{◌≡◌, ◌<◌, ◌≤◌, length, map, true};
ghost use Rattle.std.specs.List.{list_any, list_all};
ghost use Rattle.mm_spec.specs.Scope.{statement_at};
ghost use Rattle.mm_spec.specs.Citation.{is_assertion};
ghost use Rattle.mm_spec.specs.Derivation.{pair};
ghost use Rattle.mm_spec.specs.Frame.{symbol_names};
ghost use Rattle.mm_spec.specs.Comparison.{is_distinct_there, are_distinct_there};
ghost use Rattle.mm_compare.specs.Bounds.{AreSymbolPairs};

use mm_database::{Database, Sym};
use std::alloc::Allocator;

/// Whether a `$d` of the other, active at its statement `at`, has the variables of these names.
fn is_distinct_there<D: Allocator, E: Allocator>(
    database: &Database<'_, D>,
    low: Sym,
    high: Sym,
    other: &Database<'_, E>,
    at: u32,
) -> bool
    requires low_lt_count { low < length (symbol_names database.now.statements) }
    requires high_lt_count { high < length (symbol_names database.now.statements) }
    requires at_le_length { at ≤ length other.now.statements }
    ensures { result
        ≡ is_distinct_there database.now.statements other.now.statements at (pair low high) }
{
    let x = other.symbol(database.name(low));
    let y = other.symbol(database.name(high));
    other.disjoint_at(at, x, y)
}

/// The same of each of these pairs.
fn are_pairs_distinct_there<D: Allocator, E: Allocator>(
    database: &Database<'_, D>,
    pairs: &[(Sym, Sym)],
    other: &Database<'_, E>,
    at: u32,
) -> bool
    requires are_pairs { AreSymbolPairs database.now.statements
        (map (λ p. pair p.0 p.1) pairs.now) }
    requires at_le_length { at ≤ length other.now.statements }
    ensures { result
        ≡ list_all (is_distinct_there database.now.statements other.now.statements at)
        (map (λ p. pair p.0 p.1) pairs.now) }
{
    for i in 0..pairs.len() {
        let (low, high) = pairs[i];
        if !is_distinct_there(database, low, high, other, at) {
            return false;
        }
    }
    true
}

/// Whether each two variables that have to be distinct in an assertion have to be distinct at a
/// statement of the other, too.
pub(crate) fn are_distinct_there<D: Allocator, E: Allocator>(
    database: &Database<'_, D>,
    assertion: u32,
    other: &Database<'_, E>,
    at: u32,
) -> bool
    requires is_assertion { list_any is_assertion (statement_at database.now.statements assertion)
        ≡ true }
    requires at_le_length { at ≤ length other.now.statements }
    ensures { result
        ≡ are_distinct_there database.now.statements other.now.statements assertion at }
{
    are_pairs_distinct_there(database, &database.frame(assertion).pairs, other, at)
}

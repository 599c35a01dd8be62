//! Hypotheses of two databases, compared word for word.

ghost use Rattle.std.specs.Prelude.{◌≡◌, ◌<◌, All, length};
ghost use Rattle.std.specs.Cmp.Lexicographic.{pointwise};
ghost use Rattle.std.specs.List.{list_any};
ghost use Rattle.mm_spec.specs.Scope.{statement_at};
ghost use Rattle.mm_spec.specs.Frame.{is_floating};
ghost use Rattle.mm_spec.specs.Comparison.{is_same_hypothesis};

use crate::symbols::are_same_symbols;
use mm_database::{Database, Kind};
use std::alloc::Allocator;

/// Whether a statement is a `$f`.
fn is_floating<D: Allocator>(database: &Database<'_, D>, statement: u32) -> bool
    requires { statement < length database.now.statements }
    ensures { result ≡ list_any is_floating (statement_at database.now.statements statement) }
{
    match database.kind(statement) {
        Kind::Floating => true,
        _ => false,
    }
}

/// Whether two hypotheses are both `$f` or both `$e`, and are the same word for word.
fn is_same_hypothesis<D: Allocator, E: Allocator>(
    database: &Database<'_, D>,
    i: u32,
    other: &Database<'_, E>,
    j: u32,
) -> bool
    requires i_lt_length { i < length database.now.statements }
    requires j_lt_length { j < length other.now.statements }
    ensures { result ≡ is_same_hypothesis database.now.statements other.now.statements i j }
{
    is_floating(database, i) == is_floating(other, j)
        && are_same_symbols(database, database.formula(i), other, other.formula(j))
}

/// Whether two lists of hypotheses are the same word for word, in their order.
pub(crate) fn are_same_hypotheses<D: Allocator, E: Allocator>(
    database: &Database<'_, D>,
    hypotheses: &[u32],
    other: &Database<'_, E>,
    others: &[u32],
) -> bool
    requires hypotheses_lt_length { All (λ i. i < length database.now.statements) hypotheses.now }
    requires others_lt_length { All (λ j. j < length other.now.statements) others.now }
    ensures { result
        ≡ pointwise (is_same_hypothesis database.now.statements other.now.statements)
        hypotheses.now others.now }
{
    if hypotheses.len() != others.len() {
        return false;
    }
    for i in 0..hypotheses.len() {
        if !is_same_hypothesis(database, hypotheses[i], other, others[i]) {
            return false;
        }
    }
    true
}

//! Assertions of two databases.

ghost use Rattle.std.specs.Prelude.{◌≡◌, ◌<◌, length, true};
ghost use Rattle.std.specs.List.{list_any};
ghost use Rattle.mm_spec.specs.Scope.{statement_at};
ghost use Rattle.mm_spec.specs.Frame.{formula_at};
ghost use Rattle.mm_spec.specs.Citation.{is_assertion};
ghost use Rattle.mm_spec.specs.Comparison.{has_same_formulas, says_same, are_same_symbols};
ghost use Rattle.mm_compare.specs.Frames.{AreKnown};

use crate::frames::finds_same_frame;
use crate::hypotheses::are_same_hypotheses;
use crate::pairs::are_distinct_there;
use crate::symbols::are_same_symbols;
use mm_database::Database;
use std::alloc::Allocator;

/// Whether two assertions have the same mandatory hypotheses, in order, and the same formula.
fn has_same_formulas<D: Allocator, E: Allocator>(
    database: &Database<'_, D>,
    k: u32,
    other: &Database<'_, E>,
    j: u32,
) -> bool
    requires k_is_assertion { list_any is_assertion (statement_at database.now.statements k)
        ≡ true }
    requires j_is_assertion { list_any is_assertion (statement_at other.now.statements j) ≡ true }
    ensures { result ≡ has_same_formulas database.now.statements k other.now.statements j }
{
    let (frame, other_frame) = (database.frame(k), other.frame(j));
    are_same_hypotheses(database, &frame.hyps, other, &other_frame.hyps)
        && are_same_symbols(database, database.formula(k), other, other.formula(j))
}

/// Whether two assertions have the same formula.
fn has_same_formula<D: Allocator, E: Allocator>(
    database: &Database<'_, D>,
    k: u32,
    other: &Database<'_, E>,
    j: u32,
) -> bool
    requires k_lt_length { k < length database.now.statements }
    requires j_lt_length { j < length other.now.statements }
    ensures { result
        ≡ are_same_symbols database.now.statements other.now.statements
        (formula_at database.now.statements k) (formula_at other.now.statements j) }
{
    are_same_symbols(database, database.formula(k), other, other.formula(j))
}

/// The same as [`says_same`] for frames that aren't the same word for word: the pairs of variables
/// may come in another order, since symbols may have other numbers.
fn says_same_in_another_order<D: Allocator, E: Allocator>(
    database: &Database<'_, D>,
    k: u32,
    other: &Database<'_, E>,
    j: u32,
) -> bool
    requires k_is_assertion { list_any is_assertion (statement_at database.now.statements k)
        ≡ true }
    requires j_is_assertion { list_any is_assertion (statement_at other.now.statements j) ≡ true }
    ensures { result ≡ says_same database.now.statements k other.now.statements j }
{
    has_same_formulas(database, k, other, j)
        && are_distinct_there(database, k, other, j)
        && are_distinct_there(other, j, database, k)
}

/// Whether two assertions say the same: the same mandatory hypotheses in order, the same formula,
/// and the same variables that have to be distinct, all by their names. `known` are two assertions
/// with the same frame, if any are known; what is found is kept there, so that no frame that
/// neighbours share is compared again for each of them.
pub fn says_same<D: Allocator, E: Allocator>(
    database: &Database<'_, D>,
    k: u32,
    other: &Database<'_, E>,
    j: u32,
    known: &mut Option<(u32, u32)>,
) -> bool
    requires k_is_assertion { list_any is_assertion (statement_at database.now.statements k)
        ≡ true }
    requires j_is_assertion { list_any is_assertion (statement_at other.now.statements j) ≡ true }
    requires are_known { AreKnown database.now.statements other.now.statements known.old }
    ensures are_known { AreKnown database.now.statements other.now.statements known.new }
    ensures says_same { result ≡ says_same database.now.statements k other.now.statements j }
{
    if finds_same_frame(database, k, other, j, known) {
        has_same_formula(database, k, other, j)
    } else {
        says_same_in_another_order(database, k, other, j)
    }
}

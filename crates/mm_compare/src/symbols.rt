//! Formulas of two databases, compared word for word.

ghost use Rattle.std.specs.Prelude.{◌≡◌, ◌<◌, All, length};
ghost use Rattle.mm_spec.specs.Frame.{symbol_names};
ghost use Rattle.mm_spec.specs.Comparison.{are_same_symbols, has_same_name};

use mm_database::{Database, Sym};
use std::alloc::Allocator;

/// Whether a symbol of the one has the name of a symbol of the other.
pub(crate) fn has_same_name<D: Allocator, E: Allocator>(
    database: &Database<'_, D>,
    x: Sym,
    other: &Database<'_, E>,
    y: Sym,
) -> bool
    requires x_lt_count { x < length (symbol_names database.now.statements) }
    requires y_lt_count { y < length (symbol_names other.now.statements) }
    ensures { result ≡ has_same_name database.now.statements other.now.statements x y }
{
    database.name(x) == other.name(y)
}

/// Whether two formulas are the same word for word.
pub(crate) fn are_same_symbols<D: Allocator, E: Allocator>(
    database: &Database<'_, D>,
    xs: &[Sym],
    other: &Database<'_, E>,
    ys: &[Sym],
) -> bool
    requires xs_lt_count { All (λ x. x < length (symbol_names database.now.statements)) xs.now }
    requires ys_lt_count { All (λ y. y < length (symbol_names other.now.statements)) ys.now }
    ensures { result
        ≡ are_same_symbols database.now.statements other.now.statements xs.now ys.now }
{
    if xs.len() != ys.len() {
        return false;
    }
    for i in 0..xs.len() {
        if !has_same_name(database, xs[i], other, ys[i]) {
            return false;
        }
    }
    true
}

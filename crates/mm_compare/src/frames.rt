//! Frames of two databases, compared word for word. Neighbouring assertions mostly share a frame,
//! and two frames that were the same needn't be compared again.

ghost use Rattle.std.specs.Prelude.{◌≡◌, ◌<◌, length, map, true};
ghost use Rattle.std.specs.Cmp.Lexicographic.{pointwise};
ghost use Rattle.std.specs.List.{list_any};
ghost use Rattle.mm_spec.specs.Scope.{statement_at};
ghost use Rattle.mm_spec.specs.Derivation.{pair};
ghost use Rattle.mm_spec.specs.Citation.{is_assertion};
ghost use Rattle.mm_compare.specs.Bounds.{AreSymbolPairs};
ghost use Rattle.mm_compare.specs.Frames.{is_same_pair, has_same_frame, AreKnown};

use crate::hypotheses::are_same_hypotheses;
use crate::symbols::has_same_name;
use mm_database::{Database, Sym};
use std::alloc::Allocator;

/// Whether two lists of pairs name the same variables, pair by pair.
fn are_same_pairs<D: Allocator, E: Allocator>(
    database: &Database<'_, D>,
    pairs: &[(Sym, Sym)],
    other: &Database<'_, E>,
    others: &[(Sym, Sym)],
) -> bool
    requires are_pairs { AreSymbolPairs database.now.statements
        (map (λ p. pair p.0 p.1) pairs.now) }
    requires are_others { AreSymbolPairs other.now.statements
        (map (λ p. pair p.0 p.1) others.now) }
    ensures { result
        ≡ pointwise (is_same_pair database.now.statements other.now.statements)
        (map (λ p. pair p.0 p.1) pairs.now) (map (λ p. pair p.0 p.1) others.now) }
{
    if pairs.len() != others.len() {
        return false;
    }
    for i in 0..pairs.len() {
        let (low, high) = pairs[i];
        let (other_low, other_high) = others[i];
        if !has_same_name(database, low, other, other_low)
            || !has_same_name(database, high, other, other_high)
        {
            return false;
        }
    }
    true
}

/// Whether two assertions have the same mandatory hypotheses and pairs of disjoint variables, each
/// in order.
fn has_same_frame<D: Allocator, E: Allocator>(
    database: &Database<'_, D>,
    k: u32,
    other: &Database<'_, E>,
    j: u32,
) -> bool
    requires k_is_assertion { list_any is_assertion (statement_at database.now.statements k)
        ≡ true }
    requires j_is_assertion { list_any is_assertion (statement_at other.now.statements j) ≡ true }
    ensures { result ≡ has_same_frame database.now.statements k other.now.statements j }
{
    let (frame, other_frame) = (database.frame(k), other.frame(j));
    are_same_hypotheses(database, &frame.hyps, other, &other_frame.hyps)
        && are_same_pairs(database, &frame.pairs, other, &other_frame.pairs)
}

/// Whether two assertions share their frames with two that are known to have the same one.
fn is_known<D: Allocator, E: Allocator>(
    database: &Database<'_, D>,
    k: u32,
    other: &Database<'_, E>,
    j: u32,
    known: Option<(u32, u32)>,
) -> bool
    requires k_is_assertion { list_any is_assertion (statement_at database.now.statements k)
        ≡ true }
    requires j_is_assertion { list_any is_assertion (statement_at other.now.statements j) ≡ true }
    requires are_known { AreKnown database.now.statements other.now.statements known }
    ensures { result ≡ true
        → has_same_frame database.now.statements k other.now.statements j ≡ true }
{
    match known {
        Some((first, second)) => { database.share_frame(first, k) && other.share_frame(second, j) }
        None => false,
    }
}

/// Whether two assertions have the same frame, word for word. `known` are two that have, if any are
/// known; then they are these two.
pub(crate) fn finds_same_frame<D: Allocator, E: Allocator>(
    database: &Database<'_, D>,
    k: u32,
    other: &Database<'_, E>,
    j: u32,
    known: &mut Option<(u32, u32)>,
) -> bool
    requires k_is_assertion { list_any is_assertion (statement_at database.now.statements k)
        ≡ true }
    requires j_is_assertion { list_any is_assertion (statement_at other.now.statements j) ≡ true }
    requires are_known { AreKnown database.now.statements other.now.statements known.old }
    ensures are_known { AreKnown database.now.statements other.now.statements known.new }
    ensures has_same_frame { result
        ≡ has_same_frame database.now.statements k other.now.statements j }
{
    if is_known(database, k, other, j, *known) {
        return true;
    }
    if !has_same_frame(database, k, other, j) {
        return false;
    }
    *known = Some((k, j));
    true
}

//! What a step asks the database of its assertion or hypothesis.

ghost use Rattle.std.specs.Prelude.{◌≡◌, ◌<◌, ◌^◌, ℕ, All, length, map, true};
ghost use Rattle.std.specs.List.{list_any};
ghost use Rattle.mm_spec.specs.Scope.{statement_at};
ghost use Rattle.mm_spec.specs.Frame.{is_essential, symbol_names};
ghost use Rattle.mm_spec.specs.Frame.{mandatory_hypotheses as mandatory_hypotheses_of};
ghost use Rattle.mm_spec.specs.Frame.{mandatory_pairs, formula_at};
ghost use Rattle.mm_spec.specs.Derivation.{are_disjoint};
ghost use Rattle.mm_spec.specs.Citation.{context_at};
ghost use Rattle.mm_rule.specs.Assertions.{as_pairs};
ghost use Rattle.mm_rule.specs.Assertions.{is_assertion_at};

use mm_database::{Database, Kind, Sym};
use std::alloc::Allocator;

/// Whether a statement is an assertion.
pub fn is_assertion<A: Allocator>(database: &Database<A>, statement: u32) -> bool
    requires { statement < length database.now.statements }
    ensures { result ≡ is_assertion_at database.now.statements statement }
{
    match database.kind(statement) {
        Kind::Axiom | Kind::Theorem => true,
        _ => false,
    }
}

/// Whether a statement is a `$e`.
pub fn is_essential_hypothesis<A: Allocator>(database: &Database<A>, hypothesis: u32) -> bool
    requires { hypothesis < length database.now.statements }
    ensures { result ≡ list_any is_essential (statement_at database.now.statements hypothesis) }
{
    match database.kind(hypothesis) {
        Kind::Essential => true,
        _ => false,
    }
}

/// The mandatory hypotheses of an assertion.
pub fn mandatory_hypotheses<'b, A: Allocator>(
    database: &'b Database<A>,
    assertion: u32,
) -> &'b [u32]
    requires { is_assertion_at database.now.statements assertion ≡ true }
    ensures hypotheses_are { result.now
        ≡ mandatory_hypotheses_of database.now.statements assertion }
    ensures hypotheses_lt_length { All (λ h. h < length database.now.statements) result.now }
    ensures count_lt_2_31 { length result.now < 2 ^ 31 }
{
    database.frame(assertion).hyps.as_slice()
}

/// The symbols of an assertion.
pub fn formula<'b, A: Allocator>(database: &'b Database<A>, assertion: u32) -> &'b [Sym]
    requires { is_assertion_at database.now.statements assertion ≡ true }
    ensures formula_is { result.now ≡ formula_at database.now.statements assertion }
    ensures symbols_in_range { All (λ s. s < length (symbol_names database.now.statements))
        result.now }
{
    database.formula(assertion)
}

/// The mandatory pairs of an assertion.
pub fn pairs<'b, A: Allocator>(database: &'b Database<A>, assertion: u32) -> &'b [(Sym, Sym)]
    requires { is_assertion_at database.now.statements assertion ≡ true }
    ensures pairs_are { as_pairs result.now ≡ mandatory_pairs database.now.statements assertion }
    ensures pairs_are_disjoint { All
        (λ (p : ℕ × ℕ). are_disjoint (context_at database.now.statements assertion) p.0 p.1 ≡ true)
        result.now }
    ensures pairs_in_range { All
        (λ (p : ℕ × ℕ). (p.0 < length (symbol_names database.now.statements))
        × (p.1 < length (symbol_names database.now.statements))) result.now }
{
    database.frame(assertion).pairs.as_slice()
}

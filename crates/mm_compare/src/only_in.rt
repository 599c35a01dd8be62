//! The assertions that one database has and another one hasn't.

ghost use Rattle.std.specs.Prelude.{◌≡◌, ◌<◌, ℕ, Option, IfSome, IfNone, IfOk, IsTrue, length};
ghost use Rattle.std.specs.Prelude.{true, false, not};
ghost use Rattle.std.specs.Option.{option_copied};
ghost use Rattle.std.specs.List.{list_any};
ghost use Rattle.mm_spec.specs.Scope.{statement_at};
ghost use Rattle.mm_spec.specs.Citation.{is_assertion};
ghost use Rattle.mm_spec.specs.Assertion.{is_told, is_axiom_at, label_at};
ghost use Rattle.mm_spec.specs.Comparison.{is_same, is_same_kind, is_there, is_only_in, only_in};
ghost use Rattle.mm_compare.specs.Frames.{AreKnown};
ghost use Rattle.mm_compare.specs.Sides.{side_of, IsTheSame};

use crate::assertions::says_same;
use mm_database::{Database, Kind, has_chosen_typecode};
use std::alloc::{AllocError, Allocator};

/// Whether a statement is an assertion.
fn is_assertion<D: Allocator>(database: &Database<'_, D>, statement: u32) -> bool
    requires { statement < length database.now.statements }
    ensures { result ≡ list_any is_assertion (statement_at database.now.statements statement) }
{
    match database.kind(statement) {
        Kind::Axiom | Kind::Theorem => true,
        _ => false,
    }
}

/// Whether a statement counts as a `$a`.
fn is_axiom_at<D: Allocator>(database: &Database<'_, D>, statement: u32) -> bool
    requires { statement < length database.now.statements }
    ensures { result ≡ is_axiom_at database.now.statements statement }
{
    match database.kind(statement) {
        Kind::Axiom => true,
        _ => false,
    }
}

/// Returns the label of a statement, which is empty if it has none.
pub fn label_of<'a, D: Allocator>(database: &Database<'a, D>, statement: u32) -> &'a [u8]
    requires { statement < length database.now.statements }
    ensures { result.now ≡ label_at database.now.statements statement }
{
    match database.label(statement) {
        Some(label) => label,
        None => &[],
    }
}

/// Whether both are axioms, or both open theorems that count as axioms, or both theorems.
fn is_same_kind<D: Allocator, E: Allocator>(
    database: &Database<'_, D>,
    k: u32,
    other: &Database<'_, E>,
    j: u32,
) -> bool
    requires k_lt_length { k < length database.now.statements }
    requires j_lt_length { j < length other.now.statements }
    ensures { result ≡ is_same_kind (side_of database.now) k (side_of other.now) j }
{
    is_axiom_at(database, k) == is_axiom_at(other, j) && database.is_open(k) == other.is_open(j)
}

/// Returns the statement of the other that is this assertion: it has its label, is of its kind, and
/// says the same. `None` if the other hasn't it. `known` are two assertions with the same frame, if
/// any are known, so that it isn't compared again.
pub fn find_same<D: Allocator, E: Allocator>(
    database: &Database<'_, D>,
    k: u32,
    other: &Database<'_, E>,
    known: &mut Option<(u32, u32)>,
) -> Option<u32>
    requires k_lt_length { k < length database.now.statements }
    requires is_assertion { list_any is_assertion (statement_at database.now.statements k) ≡ true }
    requires are_known { AreKnown database.now.statements other.now.statements known.old }
    ensures are_known { AreKnown database.now.statements other.now.statements known.new }
    ensures is_the_same { IsTheSame (side_of database.now) k (side_of other.now) result }
    ensures is_below_length { IfSome result (λ j. j < length other.now.statements) }
{
    let Some(j) = other.find(label_of(database, k)) else {
        return None;
    };
    if is_assertion(other, j)
        && is_same_kind(database, k, other, j)
        && says_same(database, k, other, j, known)
    {
        Some(j)
    } else {
        None
    }
}

/// Whether the other has an assertion. `known` are two assertions with the same frame, if any are
/// known, so that it isn't compared again.
fn is_there<D: Allocator, E: Allocator>(
    database: &Database<'_, D>,
    k: u32,
    other: &Database<'_, E>,
    known: &mut Option<(u32, u32)>,
) -> bool
    requires k_lt_length { k < length database.now.statements }
    requires is_assertion { list_any is_assertion (statement_at database.now.statements k) ≡ true }
    requires are_known { AreKnown database.now.statements other.now.statements known.old }
    ensures are_known { AreKnown database.now.statements other.now.statements known.new }
    ensures is_there { result ≡ is_there (side_of database.now) k (side_of other.now) }
{
    find_same(database, k, other, known).is_some()
}

/// Whether a statement has a line: it is an assertion, and has the typecode if one is chosen.
fn is_told<D: Allocator>(database: &Database<'_, D>, only: Option<&[u8]>, statement: u32) -> bool
    requires { statement < length database.now.statements }
    ensures told { result ≡ is_told database.now.statements (option_copied only.entry) statement }
    ensures is_assertion { result ≡ true
        → list_any is_assertion (statement_at database.now.statements statement) ≡ true }
{
    is_assertion(database, statement) && has_chosen_typecode(database, only, statement)
}

/// Whether a statement is an assertion that the other hasn't, and has the typecode if one is
/// chosen. `known` are two assertions with the same frame, if any are known, so that it isn't
/// compared again.
fn is_only_in<D: Allocator, E: Allocator>(
    database: &Database<'_, D>,
    only: Option<&[u8]>,
    other: &Database<'_, E>,
    k: u32,
    known: &mut Option<(u32, u32)>,
) -> bool
    requires k_lt_length { k < length database.now.statements }
    requires are_known { AreKnown database.now.statements other.now.statements known.old }
    ensures are_known { AreKnown database.now.statements other.now.statements known.new }
    ensures is_only_in { result
        ≡ is_only_in (side_of database.now) (option_copied only.entry) (side_of other.now) k }
{
    is_told(database, only, k) && !is_there(database, k, other, known)
}

/// Lists the assertions that the other hasn't, or those of them that have the typecode if one is
/// chosen, in file order. Fails only if out of memory.
pub fn list_only_in<A: Allocator, D: Allocator, E: Allocator>(
    alloc: A,
    database: &Database<'_, D>,
    only: Option<&[u8]>,
    other: &Database<'_, E>,
) -> Result<Vec<u32, A>, AllocError>
    ensures { IfOk result
        (λ v. v.items
        ≡ only_in (side_of database.now) (option_copied only.entry) (side_of other.now)) }
{
    let mut listed = Vec::new(alloc);
    let mut known = None;
    for k in 0..database.len() {
        if is_only_in(database, only, other, k, &mut known) {
            listed.push(k)?;
        }
    }
    Ok(listed)
}

//! The last active `$e` at each statement. The others are found from it, since blocks are nested.
//! The same of all statements of which frames are made.
//! Here `at` is the number of the statement at which something is active, not a place of the text.

ghost use Rattle.std.specs.Prelude.{◌≡◌, ◌<◌, ◌≤◌, ℕ, IfOk, OnOk, length, slice_index};
ghost use Rattle.std.specs.List.{list_any};
ghost use Rattle.mm_spec.specs.Scope.{statement_at};
ghost use Rattle.mm_spec.specs.Derivation.{is_member};
ghost use Rattle.mm_spec.specs.Frame.{active_of, is_essential};
ghost use Rattle.mm_frame.specs.Latest.{is_part, is_part_kind, IsCandidate, IsLatest, AreLatest};

use mm_database::statements::Statements;
use mm_outline::blocks::NEVER;
use mm_outline::parts::Kind;
use std::alloc::{AllocError, Allocator};

/// Whether a statement of this kind is a `$d`, `$e` or `$f`, or a `$e` if these alone count.
fn is_part_kind(kind: Kind, essentials_alone: bool) -> bool
    ensures { result ≡ is_part_kind essentials_alone kind }
{
    match kind {
        Kind::Essential => true,
        Kind::Disjoint | Kind::Floating => !essentials_alone,
        _ => false,
    }
}

/// The same of the statement.
fn is_part<A: Allocator>(statements: &Statements<A>, statement: u32, essentials_alone: bool) -> bool
    requires { statement < length statements.now.list }
    ensures { result
        ≡ list_any (is_part essentials_alone) (statement_at statements.now.list statement) }
{
    is_part_kind(statements.kind(statement), essentials_alone)
}

/// Returns the last `$d`, `$e` or `$f` that is active at the statement `at`, or `NEVER`; the last
/// `$e` if these alone count. None after the candidate is active there, so it goes back from
/// `candidate`.
fn latest_part<A: Allocator>(
    statements: &Statements<A>,
    latest: &[u32],
    candidate: u32,
    at: u32,
    essentials_alone: bool,
) -> u32
    requires at_le_length { at ≤ length statements.now.list }
    requires at_le_latest { at ≤ length latest.now }
    requires are_latest { (k : ℕ) → k < at
        → IsLatest (is_part essentials_alone) statements.now.list k (slice_index latest.now k) }
    requires is_candidate { IsCandidate (is_part essentials_alone) statements.now.list at
        candidate }
    ensures { IsLatest (is_part essentials_alone) statements.now.list at result }
{
    let mut part = candidate;
    while part != NEVER && !statements.is_block_open(part, at) {
        part = latest[part as usize];
    }
    part
}

/// Returns, for each statement and for the end, the last `$d`, `$e` or `$f` that is active there,
/// or `NEVER`; the last `$e` if these alone count.
pub(crate) fn latest_parts<A: Allocator + Copy>(
    alloc: A,
    statements: &Statements<A>,
    essentials_alone: bool,
) -> Result<Vec<u32, A>, AllocError>
    ensures { IfOk result
        (λ v. AreLatest (is_part essentials_alone) statements.now.list v.items) }
{
    let mut latest = Vec::new(alloc);
    latest.push(NEVER)?;
    for statement in 0..statements.len() {
        let candidate = if is_part(statements, statement, essentials_alone) {
            statement
        } else {
            latest[statement as usize]
        };
        let part = latest_part(
            statements,
            &latest,
            candidate,
            statement + 1,
            essentials_alone,
        );
        latest.push(part)?;
    }
    Ok(latest)
}

/// Lists the `$e` that are active at the statement `at`, in some order. Replaces what `into` has.
pub(crate) fn active_essentials<A: Allocator>(
    statements: &Statements<A>,
    latest: &[u32],
    at: u32,
    into: &mut Vec<u32, A>,
) -> Result<(), AllocError>
    requires at_le_length { at ≤ length statements.now.list }
    requires are_latest { AreLatest is_essential statements.now.list latest.now }
    ensures { OnOk result
        ((i : ℕ)
        → is_member into.new.items i
        ≡ is_member (active_of is_essential statements.now.list at) i) }
{
    into.clear();
    let mut essential = latest[at as usize];
    while essential != NEVER {
        into.push(essential)?;
        essential = latest[essential as usize];
    }
    Ok(())
}

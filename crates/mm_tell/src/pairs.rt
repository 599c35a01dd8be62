//! The pairs of distinct variables of which one is a dummy.

ghost use Rattle.std.specs.Prelude.{◌≡◌, ◌<◌, ◌≤◌, ◌++◌, ℕ, OnOk, length, map, flat_map};
ghost use Rattle.std.specs.Prelude.{if◌then◌else◌};
ghost use Rattle.std.specs.List.{filter};
ghost use Rattle.std.specs.List.Sorted.{IsStrictlyIncreasing};
ghost use Rattle.mm_spec.specs.Derivation.{pair, is_member};
ghost use Rattle.mm_spec.specs.Assertion.{dummies, used, is_with_dummy, dummy_pairs};

use crate::rising_lists::has_number;
use mm_database::Database;
use mm_outline::symbol::Sym;
use std::alloc::{AllocError, Allocator};

/// Whether an active `$d` has both variables, the first is lower, and one of them is a dummy.
fn is_with_dummy<D: Allocator>(
    database: &Database<'_, D>,
    theorem: u32,
    dummy_variables: &[u32],
    low: u32,
    high: u32,
) -> bool
    requires theorem_le_length { theorem ≤ length database.now.statements }
    requires are_dummies { dummy_variables.now ≡ dummies database.now.statements theorem }
    ensures { result ≡ is_with_dummy database.now.statements theorem (pair low high) }
{
    low < high
        && (has_number(dummy_variables, low) || has_number(dummy_variables, high))
        && database.disjoint_at(theorem, Sym::new(low), Sym::new(high))
}

/// Appends the pairs of this lower variable with these others.
fn add_pairs_with<A: Allocator, D: Allocator>(
    database: &Database<'_, D>,
    theorem: u32,
    dummy_variables: &[u32],
    low: u32,
    others: &[u32],
    into: &mut Vec<(Sym, Sym), A>,
) -> Result<(), AllocError>
    requires theorem_le_length { theorem ≤ length database.now.statements }
    requires are_dummies { dummy_variables.now ≡ dummies database.now.statements theorem }
    ensures { OnOk result
        (map (λ p. pair p.0 p.1) into.new.items
        ≡ map (λ p. pair p.0 p.1) into.old.items
        ++ filter (is_with_dummy database.now.statements theorem)
        (map (pair low) others.now)) }
{
    for high in others {
        if is_with_dummy(database, theorem, dummy_variables, low, *high) {
            into.push((Sym::new(low), Sym::new(*high)))?;
        }
    }
    Ok(())
}

/// Returns the variables with which a variable can make pairs: a dummy with all that are used, any
/// other variable with the dummies.
fn partners<'v>(dummy_variables: &'v [u32], used_variables: &'v [u32], variable: u32) -> &'v [u32]
    requires { IsStrictlyIncreasing dummy_variables.now }
    ensures { result.now
        ≡ (if is_member dummy_variables.now variable then used_variables.now
        else dummy_variables.now) }
{
    if has_number(dummy_variables, variable) {
        used_variables
    } else {
        dummy_variables
    }
}

/// Lists the pairs of variables that a theorem uses and of which one is a dummy, if an active `$d`
/// has both: the lower first, in ascending order. Replaces what `into` has. An active `$d` is
/// looked for at most twice for each dummy and each variable that is used.
pub(crate) fn list_pairs<A: Allocator, D: Allocator>(
    database: &Database<'_, D>,
    theorem: u32,
    dummy_variables: &[u32],
    used_variables: &[u32],
    into: &mut Vec<(Sym, Sym), A>,
) -> Result<(), AllocError>
    requires theorem_le_length { theorem ≤ length database.now.statements }
    requires are_dummies { dummy_variables.now ≡ dummies database.now.statements theorem }
    requires are_used { used_variables.now ≡ used database.now.statements theorem }
    ensures { OnOk result
        (map (λ p. pair p.0 p.1) into.new.items ≡ dummy_pairs database.now.statements theorem) }
{
    into.clear();
    for low in used_variables {
        let others = partners(dummy_variables, used_variables, *low);
        add_pairs_with(database, theorem, dummy_variables, *low, others, into)?;
    }
    Ok(())
}

//! The dummy variables of a theorem, and all variables that it uses.

ghost use Rattle.std.specs.Prelude.{◌≡◌, ◌<◌, ◌≤◌, ◌||◌, ◌++◌, ℕ, All, OnOk, IfSome, length};
ghost use Rattle.std.specs.Prelude.{flat_map};
ghost use Rattle.std.specs.Option.{option_to_list};
ghost use Rattle.std.specs.List.{list_any};
ghost use Rattle.std.specs.List.Sorted.{IsStrictlyIncreasing};
ghost use Rattle.mm_spec.specs.Text.{words as words_of};
ghost use Rattle.mm_spec.specs.Derivation.{is_member};
ghost use Rattle.mm_spec.specs.Frame.{mandatory_hypotheses, symbol_names};
ghost use Rattle.mm_spec.specs.Assertion.{dummies, dummy_floats, is_variable_of, used};
ghost use Rattle.mm_outline.specs.Parts.{as_tokens, AreWithin};
ghost use Rattle.mm_tell.specs.Named.{float_variable, names_dummy};

use crate::proof_labels::label_words;
use crate::rising_lists::{has_number, sort_and_dedup};
use mm_database::Database;
use mm_outline::parts::Kind;
use mm_spec::Word;
use std::alloc::{AllocError, Allocator};

/// The variable of a `$f`, by its number. `None` if the statement is no `$f`.
fn typed_variable<D: Allocator>(database: &Database<'_, D>, statement: u32) -> Option<u32>
    requires { statement < length database.now.statements }
    ensures variable_is { option_to_list result ≡ float_variable database.now.statements statement }
    ensures variable_lt_count { IfSome result
        (λ v. v < length (symbol_names database.now.statements)) }
{
    match database.kind(statement) {
        Kind::Floating => match database.formula(statement).get(1) {
            Some(variable) => Some(variable.number()),
            None => None,
        },
        _ => None,
    }
}

/// The variable of the active `$f` that has this label, if it isn't a mandatory hypothesis of the
/// theorem. `None` if there is no such `$f`.
fn dummy_variable<D: Allocator>(
    database: &Database<'_, D>,
    theorem: u32,
    hypotheses: &[u32],
    label: &[u8],
) -> Option<u32>
    requires theorem_le_length { theorem ≤ length database.now.statements }
    requires are_hypotheses { hypotheses.now
        ≡ mandatory_hypotheses database.now.statements theorem }
    requires rise { IsStrictlyIncreasing hypotheses.now }
    ensures names_dummy { (x : ℕ) → is_member (option_to_list result) x
        ≡ names_dummy database.now.statements theorem label.now x }
    ensures variable_lt_count { IfSome result
        (λ v. v < length (symbol_names database.now.statements)) }
{
    let Some(statement) = database.find(label) else {
        return None;
    };
    // Most labels are those of assertions, of which no more is asked.
    let Some(variable) = typed_variable(database, statement) else {
        return None;
    };
    if database.active_at(statement, theorem) && !has_number(hypotheses, statement) {
        Some(variable)
    } else {
        None
    }
}

/// Appends the variable of each dummy `$f` that has one of these labels.
fn add_dummies<A: Allocator, D: Allocator>(
    database: &Database<'_, D>,
    theorem: u32,
    hypotheses: &[u32],
    labels: &[Word],
    into: &mut Vec<u32, A>,
) -> Result<(), AllocError>
    requires theorem_le_length { theorem ≤ length database.now.statements }
    requires are_hypotheses { hypotheses.now
        ≡ mandatory_hypotheses database.now.statements theorem }
    requires rise { IsStrictlyIncreasing hypotheses.now }
    requires are_within { AreWithin database.now.text labels.now }
    requires variables_lt_count { All (λ v. v < length (symbol_names database.now.statements))
        into.old.items }
    ensures members_are { OnOk result
        ((x : ℕ)
        → is_member into.new.items x
        ≡ (is_member into.old.items x
        || list_any (λ l. names_dummy database.now.statements theorem l x)
        (words_of (as_tokens database.now.text labels.now)))) }
    ensures variables_lt_count { OnOk result
        (All (λ v. v < length (symbol_names database.now.statements)) into.new.items) }
{
    for word in labels {
        let label = word.bytes(database.text());
        if let Some(variable) = dummy_variable(database, theorem, hypotheses, label) {
            into.push(variable)?;
        }
    }
    Ok(())
}

/// Lists the dummy variables of a theorem, in ascending order. Replaces what `into` has.
pub(crate) fn list_dummies<A: Allocator, D: Allocator>(
    database: &Database<'_, D>,
    theorem: u32,
    hypotheses: &[u32],
    into: &mut Vec<u32, A>,
) -> Result<(), AllocError>
    requires theorem_lt_length { theorem < length database.now.statements }
    requires are_hypotheses { hypotheses.now
        ≡ mandatory_hypotheses database.now.statements theorem }
    ensures dummies_are { OnOk result
        (into.new.items ≡ dummies database.now.statements theorem) }
    ensures members_are { OnOk result
        ((x : ℕ)
        → is_member into.new.items x
        ≡ is_variable_of database.now.statements
        (dummy_floats database.now.statements theorem) x) }
{
    into.clear();
    let labels = label_words(database.text(), database.proof_words(theorem));
    add_dummies(database, theorem, hypotheses, labels, into)?;
    sort_and_dedup(into);
    Ok(())
}

/// Appends the variable of each `$f` among these statements.
fn add_typed<A: Allocator, D: Allocator>(
    database: &Database<'_, D>,
    statements: &[u32],
    into: &mut Vec<u32, A>,
) -> Result<(), AllocError>
    requires statements_lt_length { All (λ k. k < length database.now.statements) statements.now }
    requires variables_lt_count { All (λ v. v < length (symbol_names database.now.statements))
        into.old.items }
    ensures variables_are { OnOk result
        (into.new.items
        ≡ into.old.items ++ flat_map (float_variable database.now.statements) statements.now) }
    ensures variables_lt_count { OnOk result
        (All (λ v. v < length (symbol_names database.now.statements)) into.new.items) }
{
    for statement in statements {
        if let Some(variable) = typed_variable(database, *statement) {
            into.push(variable)?;
        }
    }
    Ok(())
}

/// Lists the mandatory variables and the dummy variables of a theorem, in ascending order. Replaces
/// what `into` has.
pub(crate) fn list_used<A: Allocator, D: Allocator>(
    database: &Database<'_, D>,
    theorem: u32,
    hypotheses: &[u32],
    dummy_variables: &[u32],
    into: &mut Vec<u32, A>,
) -> Result<(), AllocError>
    requires theorem_lt_length { theorem < length database.now.statements }
    requires are_hypotheses { hypotheses.now
        ≡ mandatory_hypotheses database.now.statements theorem }
    requires are_dummies { dummy_variables.now ≡ dummies database.now.statements theorem }
    requires members_are { (x : ℕ) → is_member dummy_variables.now x
        ≡ is_variable_of database.now.statements
        (dummy_floats database.now.statements theorem) x }
    ensures { OnOk result (into.new.items ≡ used database.now.statements theorem) }
{
    into.clear();
    add_typed(database, hypotheses, into)?;
    into.extend_from_slice(dummy_variables)?;
    sort_and_dedup(into);
    Ok(())
}

//! The mandatory variables and hypotheses of assertions.

ghost use Rattle.std.specs.Prelude.{◌≡◌, ◌<◌, ◌≤◌, ◌+◌, ◌^◌, ◌&&◌, ◌||◌, ℕ, All, OnOk, length};
ghost use Rattle.std.specs.Prelude.{nat_eq, not, slice_index};
ghost use Rattle.std.specs.List.{list_any};
ghost use Rattle.std.specs.List.Sorted.{IsStrictlyIncreasing};
ghost use Rattle.mm_spec.specs.Derivation.{is_member};
ghost use Rattle.mm_spec.specs.Frame.{symbol_names, is_variable_number, is_essential, active_of};
ghost use Rattle.mm_spec.specs.Frame.{mandatory_variables, mandatory_hypotheses, formula_at};
ghost use Rattle.mm_database.specs.ParsedStatements.{IsSound};
ghost use Rattle.mm_frame.specs.Hypotheses.{AreStamps, AreLastFloats, IsFresh};
ghost use Rattle.mm_frame.specs.Hypotheses.{is_float_of};

use mm_database::statements::Statements;
use mm_outline::blocks::NEVER;
use mm_outline::symbol::Sym;
use std::alloc::{AllocError, Allocator};

/// Stamps and lists a symbol if it is a variable and doesn't have the stamp yet.
fn add_variable<A: Allocator>(
    statements: &Statements<A>,
    symbol: Sym,
    stamp: u32,
    stamps: &mut Vec<u32, A>,
    variables: &mut Vec<Sym, A>,
) -> Result<(), AllocError>
    requires symbol_lt_count { symbol < length (symbol_names statements.now.list) }
    requires are_stamps { AreStamps
        (length (symbol_names statements.now.list)) stamp stamps.old.items variables.old.items }
    ensures are_stamps { OnOk result
        (AreStamps (length (symbol_names statements.now.list)) stamp stamps.new.items
        variables.new.items) }
    ensures variable_is_added { OnOk result
        ((x : ℕ)
        → is_member variables.new.items x
        ≡ (is_member variables.old.items x ||
        (is_variable_number statements.now.list x && nat_eq x symbol))) }
{
    if statements.is_variable(symbol) {
        let index = symbol.number() as usize;
        if stamps[index] != stamp {
            stamps[index] = stamp;
            variables.push(symbol)?;
        }
    }
    Ok(())
}

/// Stamps and lists the variables of a formula.
fn add_variables<A: Allocator>(
    statements: &Statements<A>,
    symbols: &[Sym],
    stamp: u32,
    stamps: &mut Vec<u32, A>,
    variables: &mut Vec<Sym, A>,
) -> Result<(), AllocError>
    requires symbols_lt_count { All
        (λ s. s < length (symbol_names statements.now.list)) symbols.now }
    requires are_stamps { AreStamps
        (length (symbol_names statements.now.list)) stamp stamps.old.items variables.old.items }
    ensures are_stamps { OnOk result
        (AreStamps (length (symbol_names statements.now.list)) stamp stamps.new.items
        variables.new.items) }
    ensures variables_are_added { OnOk result
        ((x : ℕ)
        → is_member variables.new.items x
        ≡ (is_member variables.old.items x
        || (is_variable_number statements.now.list x && is_member symbols.now x))) }
{
    for symbol in symbols {
        add_variable(statements, *symbol, stamp, stamps, variables)?;
    }
    Ok(())
}

/// Stamps the variables of the `$e`, and lists them in `variables`. Replaces what `variables` has.
pub(crate) fn list_essential_variables<A: Allocator>(
    statements: &Statements<A>,
    essentials: &[u32],
    assertion: u32,
    stamps: &mut Vec<u32, A>,
    variables: &mut Vec<Sym, A>,
) -> Result<(), AllocError>
    requires few_statements { length statements.now.list < 2 ^ 31 }
    requires assertion_lt_length { assertion < length statements.now.list }
    requires are_active { (i : ℕ)
        → is_member essentials.now i
        ≡ is_member (active_of is_essential statements.now.list assertion) i }
    requires are_fresh { IsFresh
        (length (symbol_names statements.now.list)) assertion stamps.old.items }
    ensures are_stamps { OnOk result
        (AreStamps (length (symbol_names statements.now.list))
        (assertion + 1) stamps.new.items variables.new.items) }
    ensures variables_are { OnOk result
        ((x : ℕ)
        → is_member variables.new.items x
        ≡ (is_variable_number statements.now.list x
        && list_any (λ j. is_member (formula_at statements.now.list j) x) essentials.now)) }
{
    variables.clear();
    for essential in essentials {
        add_variables(
            statements,
            statements.formula(*essential),
            assertion + 1,
            stamps,
            variables,
        )?;
    }
    Ok(())
}

/// Whether a symbol is a variable that doesn't have the stamp.
fn is_further<A: Allocator>(
    statements: &Statements<A>,
    symbol: Sym,
    stamp: u32,
    stamps: &[u32],
) -> bool
    requires as_many_stamps { length stamps.now ≡ length (symbol_names statements.now.list) }
    requires symbol_lt_count { symbol < length (symbol_names statements.now.list) }
    ensures { result
        ≡ (is_variable_number statements.now.list symbol
        && not (nat_eq (slice_index stamps.now symbol) stamp)) }
{
    statements.is_variable(symbol) && stamps[symbol.number() as usize] != stamp
}

/// Lists the variables of a formula that don't have the stamp, in ascending order. Replaces what
/// `further` has.
pub(crate) fn list_further_variables<A: Allocator>(
    statements: &Statements<A>,
    symbols: &[Sym],
    stamp: u32,
    stamps: &[u32],
    further: &mut Vec<u32, A>,
) -> Result<(), AllocError>
    requires as_many_stamps { length stamps.now ≡ length (symbol_names statements.now.list) }
    requires symbols_lt_count { All
        (λ s. s < length (symbol_names statements.now.list)) symbols.now }
    ensures { OnOk result
        ((x : ℕ)
        → is_member further.new.items x
        ≡ (is_member symbols.now x
        && (is_variable_number statements.now.list x
        && not (nat_eq (slice_index stamps.now x) stamp)))) }
{
    further.clear();
    for symbol in symbols {
        if is_further(statements, *symbol, stamp, stamps) {
            further.push(symbol.number())?;
        }
    }
    sort_and_dedup_numbers(further);
    Ok(())
}

/// Stamps the mandatory variables of an assertion, and lists them in `variables`. Replaces what
/// `variables` has.
pub(crate) fn list_mandatory_variables<A: Allocator>(
    statements: &Statements<A>,
    essential_variables: &[Sym],
    assertion: u32,
    stamps: &mut Vec<u32, A>,
    variables: &mut Vec<Sym, A>,
) -> Result<(), AllocError>
    requires few_statements { length statements.now.list < 2 ^ 31 }
    requires assertion_lt_length { assertion < length statements.now.list }
    requires are_variables { (x : ℕ)
        → is_member essential_variables.now x
        ≡ (is_variable_number statements.now.list x
        && list_any (λ j. is_member (formula_at statements.now.list j) x)
        (active_of is_essential statements.now.list assertion)) }
    requires are_fresh { IsFresh
        (length (symbol_names statements.now.list)) assertion stamps.old.items }
    ensures are_stamps { OnOk result
        (AreStamps (length (symbol_names statements.now.list))
        (assertion + 1) stamps.new.items variables.new.items) }
    ensures are_mandatory { OnOk result
        ((x : ℕ)
        → is_member variables.new.items x
        ≡ is_member (mandatory_variables statements.now.list assertion) x) }
{
    variables.clear();
    let formula = statements.formula(assertion);
    add_variables(statements, formula, assertion + 1, stamps, variables)?;
    add_variables(
        statements,
        essential_variables,
        assertion + 1,
        stamps,
        variables,
    )
}

/// Appends the active `$f` statements of the variables.
fn add_floats<A: Allocator>(
    statements: &Statements<A>,
    last_floats: &[u32],
    at: u32,
    variables: &[Sym],
    hypotheses: &mut Vec<u32, A>,
) -> Result<(), AllocError>
    requires at_le_length { at ≤ length statements.now.list }
    requires are_last_floats { AreLastFloats statements.now.list at last_floats.now }
    requires variables_lt_count { All
        (λ s. s < length (symbol_names statements.now.list)) variables.now }
    ensures { OnOk result
        ((j : ℕ)
        → is_member hypotheses.new.items j
        ≡ (is_member hypotheses.old.items j
        || list_any (is_float_of statements.now.list at last_floats.now j) variables.now)) }
{
    for symbol in variables {
        let floating = last_floats[symbol.number() as usize];
        if floating != NEVER {
            if statements.is_block_open(floating, at) {
                hypotheses.push(floating)?;
            }
        }
    }
    Ok(())
}

/// Sorts the numbers in ascending order, and removes duplicates.
fn sort_and_dedup_numbers<A: Allocator>(numbers: &mut Vec<u32, A>)
    ensures rising { IsStrictlyIncreasing numbers.new.items }
    ensures members_stay { (a : ℕ) → is_member numbers.new.items a ≡ is_member numbers.old.items a }
{
    numbers.sort_unstable();
    numbers.dedup();
}

/// Lists the mandatory hypotheses of an assertion in `hypotheses`. Replaces what it has.
pub(crate) fn list_hypotheses<A: Allocator>(
    statements: &Statements<A>,
    last_floats: &[u32],
    assertion: u32,
    essentials: &[u32],
    variables: &[Sym],
    hypotheses: &mut Vec<u32, A>,
) -> Result<(), AllocError>
    requires is_sound { IsSound statements.now.list }
    requires assertion_lt_length { assertion < length statements.now.list }
    requires are_last_floats { AreLastFloats statements.now.list assertion last_floats.now }
    requires are_active { (i : ℕ)
        → is_member essentials.now i
        ≡ is_member (active_of is_essential statements.now.list assertion) i }
    requires are_mandatory { (x : ℕ)
        → is_member variables.now x
        ≡ is_member (mandatory_variables statements.now.list assertion) x }
    ensures { OnOk result
        (hypotheses.new.items ≡ mandatory_hypotheses statements.now.list assertion) }
{
    hypotheses.clear();
    hypotheses.extend_from_slice(essentials)?;
    add_floats(statements, last_floats, assertion, variables, hypotheses)?;
    sort_and_dedup_numbers(hypotheses);
    Ok(())
}

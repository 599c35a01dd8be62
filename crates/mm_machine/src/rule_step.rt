//! The step of an assertion on the entries of the stack.

ghost use Rattle.std.specs.Prelude.{◌≡◌, ◌<◌, ◌≤◌, ◌∷◌, All, length, take, drop, vec_len, OnOk};
ghost use Rattle.std.specs.Prelude.{OnErr, IfErr, Ok, ℕ};
ghost use Rattle.mm_nodes.specs.Strings.{first_node, Extends};
ghost use Rattle.mm_spec.specs.Frame.{symbol_names};
ghost use Rattle.mm_rule.specs.declared.rule.RulePart.TheVariants.{Constant};
ghost use Rattle.mm_rule.specs.Rule.{IsVariableBelow, IsConstantBelow, IsCompiled};
ghost use Rattle.mm_machine.specs.DisjointCache.{AreDisjointAt};
ghost use Rattle.mm_machine.specs.Entries.{IsStack, AreInRange, entry_formulas};
ghost use Rattle.mm_machine.specs.Masks.{AreVariablesOf, AreAllMasked, StayMasked, entry_masks};
ghost use Rattle.mm_machine.specs.State.{applied};
ghost use Rattle.mm_machine.specs.Applied.{IsStepRefusalOf, entries_after};

use crate::disjoint_cache::DisjointCache;
use crate::distinct::DistinctVariables;
use crate::entry::{Entry, fill};
use crate::entry_match::first_constant;
use crate::entry_stack::{nodes_to_keep, replace_by_symbols, replace_entries};
use crate::owners::{OTHERS, Owners};
use crate::reason::{Reason, StepRefused};
use crate::rule_conditions::test_rule;
use crate::symbol_lists::{SymbolLists, list_filled_symbols};
use mm_database::{Database, Sym};
use mm_nodes::{Body, Nodes};
use mm_rule::{PackedPart, Rule};
use mm_spec::FORMULA_LIMIT;
use std::alloc::{AllocError, Allocator};

/// How much longer than required the list of bodies becomes when it grows.
const SPARE_ROOM: usize = 256;

/// The mask of a formula whose variables nobody looked for: the last bit stands for any of them.
const ANY_VARIABLES: u64 = 1u64 << OTHERS;

/// Makes a list at least so long.
#[inline(always)]
fn make_room<A: Allocator>(least: usize, list: &mut Vec<Body, A>) -> Result<(), AllocError>
    ensures { OnOk result (least ≤ length list.new.items) }
{
    if least <= list.len() {
        return Ok(());
    }
    list.resize(least.saturating_add(SPARE_ROOM), Body::none())
}

/// Replaces the entries from index `below` on by the formula of a step that takes them as its
/// premises. The formula may begin with a variable. No formula of a database does, so this needn't
/// be fast.
#[cold]
#[inline(never)]
fn replace_by_listed<A: Allocator>(
    below: usize,
    formula: &[PackedPart],
    floor: usize,
    nodes: &mut Nodes<A>,
    stack: &mut Vec<Entry, A>,
    symbols: &mut Vec<Body, A>,
) -> Result<(), StepRefused>
    requires is_stack { IsStack nodes.old stack.old.items }
    requires below_le_length { below ≤ vec_len stack.old }
    requires floor_le_count { floor ≤ length nodes.old }
    requires variables_in_range { All (IsVariableBelow (length (drop below stack.old.items)))
        formula.now }
    ensures is_stack { IsStack nodes.new stack.new.items }
    ensures nodes_are_kept { Extends (take floor nodes.old) nodes.new }
    ensures entries_are { OnOk result
        (entries_after nodes.old stack.old.items below formula.now
        ≡ Ok (entry_formulas nodes.new stack.new.items)) }
    ensures refusal_is_right { IfErr result
        (λ e. IsStepRefusalOf e (entries_after nodes.old stack.old.items below formula.now)) }
    ensures stay_in_range { OnErr result ((w : ℕ)
        → AreInRange w (entry_formulas nodes.old stack.old.items)
        → AreInRange w (entry_formulas nodes.new stack.new.items)) }
    ensures stay_masked { StayMasked formula.now nodes.old stack.old.items nodes.new
        stack.new.items }
{
    let is_within_limit = list_filled_symbols(nodes, &stack[below..], formula, symbols)?;
    if !is_within_limit {
        return Err(StepRefused::Fault(Reason::TooLong));
    }
    let keep = nodes_to_keep(nodes, stack, below, floor);
    replace_by_symbols(nodes, stack, below, keep, symbols, ANY_VARIABLES)?;
    Ok(())
}

/// Replaces the entries from index `below` on by the formula of a step that takes them as its
/// premises: a typecode and parts. The first `floor` nodes stay.
#[inline(always)]
fn replace_by_parts<A: Allocator>(
    below: usize,
    typecode: Sym,
    parts: &[PackedPart],
    floor: usize,
    nodes: &mut Nodes<A>,
    stack: &mut Vec<Entry, A>,
    buffer: &mut [Body],
) -> Result<(), StepRefused>
    requires is_stack { IsStack nodes.old stack.old.items }
    requires below_le_length { below ≤ vec_len stack.old }
    requires floor_le_count { floor ≤ length nodes.old }
    requires typecode_is_symbol { typecode < first_node }
    requires variables_in_range { All (IsVariableBelow (length (drop below stack.old.items)))
        parts.now }
    requires has_room { length parts.now ≤ length buffer.old }
    ensures is_stack { IsStack nodes.new stack.new.items }
    ensures nodes_are_kept { Extends (take floor nodes.old) nodes.new }
    ensures entries_are { OnOk result
        (entries_after nodes.old stack.old.items below (Constant typecode ∷ parts.now)
        ≡ Ok (entry_formulas nodes.new stack.new.items)) }
    ensures refusal_is_right { IfErr result
        (λ e. IsStepRefusalOf e
        (entries_after nodes.old stack.old.items below (Constant typecode ∷ parts.now))) }
    ensures stay_in_range { OnErr result ((w : ℕ)
        → AreInRange w (entry_formulas nodes.old stack.old.items)
        → AreInRange w (entry_formulas nodes.new stack.new.items)) }
    ensures stay_masked { StayMasked (Constant typecode ∷ parts.now) nodes.old stack.old.items
        nodes.new stack.new.items }
{
    match fill(nodes, &stack[below..], parts, buffer) {
        None => Err(StepRefused::Fault(Reason::TooLong)),
        Some(filled) => {
            if filled.length >= FORMULA_LIMIT {
                return Err(StepRefused::Fault(Reason::TooLong));
            }
            let least = floor.max(filled.needed);
            let keep = nodes_to_keep(nodes, stack, below, least);
            let bodies = &buffer[..filled.count];
            let first = Body::symbol(typecode.number());
            let count = filled.length as u32;
            replace_entries(nodes, stack, below, keep, first, bodies, count, filled.mask)?;
            Ok(())
        }
    }
}

/// Replaces the entries from index `below` on by the formula of a step that takes them as its
/// premises. The first `floor` nodes stay.
#[inline(always)]
fn replace_by_formula<A: Allocator>(
    below: usize,
    formula: &[PackedPart],
    floor: usize,
    nodes: &mut Nodes<A>,
    stack: &mut Vec<Entry, A>,
    buffer: &mut [Body],
    symbols: &mut Vec<Body, A>,
) -> Result<(), StepRefused>
    requires is_stack { IsStack nodes.old stack.old.items }
    requires below_le_length { below ≤ vec_len stack.old }
    requires floor_le_count { floor ≤ length nodes.old }
    requires variables_in_range { All (IsVariableBelow (length (drop below stack.old.items)))
        formula.now }
    requires has_room { length formula.now ≤ length buffer.old }
    ensures is_stack { IsStack nodes.new stack.new.items }
    ensures nodes_are_kept { Extends (take floor nodes.old) nodes.new }
    ensures entries_are { OnOk result
        (entries_after nodes.old stack.old.items below formula.now
        ≡ Ok (entry_formulas nodes.new stack.new.items)) }
    ensures refusal_is_right { IfErr result
        (λ e. IsStepRefusalOf e (entries_after nodes.old stack.old.items below formula.now)) }
    ensures stay_in_range { OnErr result ((w : ℕ)
        → AreInRange w (entry_formulas nodes.old stack.old.items)
        → AreInRange w (entry_formulas nodes.new stack.new.items)) }
    ensures stay_masked { StayMasked formula.now nodes.old stack.old.items nodes.new
        stack.new.items }
{
    match first_constant(formula) {
        None => replace_by_listed(below, formula, floor, nodes, stack, symbols),
        Some(typecode) => {
            replace_by_parts(below, typecode, &formula[1..], floor, nodes, stack, buffer)
        }
    }
}

/// Performs the step of an assertion on the entries that are its premises. The first `floor` nodes
/// stay.
#[inline(always)]
pub fn apply_rule<A: Allocator>(
    database: &Database<A>,
    theorem: u32,
    rule: &Rule,
    floor: usize,
    nodes: &mut Nodes<A>,
    stack: &mut Vec<Entry, A>,
    buffer: &mut Vec<Body, A>,
    lists: &mut SymbolLists<A>,
    distinct: &mut DistinctVariables<A>,
    owners: &Owners<A>,
    cache: &mut DisjointCache<A>,
) -> Result<(), StepRefused>
    requires theorem_lt_length { theorem < length database.now.statements }
    requires is_compiled { IsCompiled database.now.statements rule.now }
    requires is_stack { IsStack nodes.old stack.old.items }
    requires floor_le_count { floor ≤ length nodes.old }
    requires formulas_in_range { AreInRange (length (symbol_names database.now.statements))
        (entry_formulas nodes.old stack.old.items) }
    requires are_variables { AreVariablesOf database.now.statements owners.now.variable_flags }
    requires owners_in_range { All (λ s. s < length (symbol_names database.now.statements))
        owners.now.symbols }
    requires are_masked { AreAllMasked owners.now.variable_flags owners.now.symbols
        (entry_masks stack.old.items) (entry_formulas nodes.old stack.old.items) }
    requires cached_are_disjoint { AreDisjointAt database.now.statements theorem cache.old }
    ensures are_masked { AreAllMasked owners.now.variable_flags owners.now.symbols
        (entry_masks stack.new.items) (entry_formulas nodes.new stack.new.items) }
    ensures is_stack { IsStack nodes.new stack.new.items }
    ensures nodes_are_kept { Extends (take floor nodes.old) nodes.new }
    ensures formulas_in_range { AreInRange (length (symbol_names database.now.statements))
        (entry_formulas nodes.new stack.new.items) }
    ensures cached_are_disjoint { AreDisjointAt database.now.statements theorem cache.new }
    ensures entries_are { OnOk result
        (applied database.now.statements theorem rule.now.assertion
        (entry_formulas nodes.old stack.old.items)
        ≡ Ok (entry_formulas nodes.new stack.new.items)) }
    ensures has_entry { OnOk result (0 < length (entry_formulas nodes.new stack.new.items)) }
    ensures refusal_is_right { IfErr result
        (λ e. IsStepRefusalOf e
        (applied database.now.statements theorem rule.now.assertion
        (entry_formulas nodes.old stack.old.items))) }
{
    let formula = rule.formula();
    make_room(rule.parts.len().max(formula.len()), buffer)?;
    match test_rule(
        database, theorem, rule, nodes, stack, buffer, lists, distinct, owners, cache,
    ) {
        Err(refused) => Err(refused),
        Ok(below) => {
            let symbols = &mut lists.bodies;
            replace_by_formula(below, formula, floor, nodes, stack, buffer, symbols)
        }
    }
}

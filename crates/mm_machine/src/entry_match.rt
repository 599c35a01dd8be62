//! Whether entries are what the hypotheses of a rule require.

ghost use Rattle.std.specs.Prelude.{◌≡◌, ◌≤◌, ◌<◌, ◌∷◌, [], All, length, map, IfOk, bytes_eq};
ghost use Rattle.std.specs.Prelude.{IfSome, drop};
ghost use Rattle.mm_spec.specs.Limits.{formula_limit};
ghost use Rattle.mm_spec.specs.Laws.Stack.{are_equal};
ghost use Rattle.mm_nodes.specs.Strings.{first_node, string_of};
ghost use Rattle.mm_rule.specs.declared.rule.RulePart.TheVariants.{Constant};
ghost use Rattle.mm_rule.specs.Rule.{IsVariableBelow, all_parts, total_stored_part_count};
ghost use Rattle.mm_machine.specs.Entries.{IsEntry, entry_formula};
ghost use Rattle.mm_machine.specs.Filled.{filled_parts};

use crate::entry::{Entry, fill};
use crate::symbol_lists::list_filled_symbols;
use mm_database::Sym;
use mm_nodes::{Body, Nodes};
use mm_rule::{Hypothesis, PackedPart, Rule, RulePart};
use std::alloc::{AllocError, Allocator};

/// Whether the body of an entry is parts with their variables replaced.
#[inline(always)]
fn is_body_of<A: Allocator>(
    nodes: &mut Nodes<A>,
    premises: &[Entry],
    parts: &[PackedPart],
    premise: &Entry,
    list: &mut [Body],
) -> Result<bool, AllocError>
    requires are_entries { All (IsEntry nodes.old) premises.now }
    requires is_entry { IsEntry nodes.old premise.now }
    requires variables_in_range { All (IsVariableBelow (length premises.now)) parts.now }
    requires has_room { length parts.now ≤ length list.old }
    ensures nodes_unchanged { nodes.new ≡ nodes.old }
    ensures length_stays { length list.new ≡ length list.old }
    ensures tells_equal { IfOk result
        (λ r. r ≡ bytes_eq (string_of nodes.old premise.now.body)
        (filled_parts nodes.old premises.now parts.now)) }
{
    match fill(nodes, premises, parts, list) {
        None => Ok(false),
        Some(filled) => {
            let bodies = &list[..filled.count];
            nodes.is_equal(bodies, filled.length as u32, premise.body)
        }
    }
}

/// The constant with which parts begin; `None` if they begin with a variable, or there are none.
#[inline(always)]
pub fn first_constant(parts: &[PackedPart]) -> Option<Sym>
    ensures is_first { IfSome result (λ s. parts.now ≡ Constant s ∷ drop 1 parts.now) }
    ensures is_symbol { IfSome result (λ s. s < first_node) }
{
    if parts.is_empty() {
        return None;
    }
    let first = parts[0];
    match first.to_part() {
        RulePart::Variable(_) => None,
        RulePart::Constant(symbol) => Some(symbol),
    }
}

/// Whether the formula of an entry is these symbols.
pub fn has_symbols<A: Allocator>(
    nodes: &mut Nodes<A>,
    premise: &Entry,
    symbols: &[Body],
) -> Result<bool, AllocError>
    requires is_entry { IsEntry nodes.old premise.now }
    requires are_symbols { All (λ s. s < first_node) symbols.now }
    requires length_le_limit { length symbols.now ≤ formula_limit }
    ensures nodes_unchanged { nodes.new ≡ nodes.old }
    ensures tells_equal { IfOk result
        (λ r. r ≡ bytes_eq (entry_formula nodes.old premise.now) symbols.now) }
{
    if symbols.is_empty() {
        return Ok(has_no_symbols(nodes, premise));
    }
    let first = symbols[0];
    if !begins_with_typecode(nodes, Sym::new(first.number()), premise) {
        return Ok(false);
    }
    let count = symbols.len() - 1;
    nodes.is_equal(&symbols[1..], count as u32, premise.body)
}

/// Whether an entry is the wanted formula with its variables replaced. The formula may begin with a
/// variable. No formula of a database does, so this needn't be fast.
#[cold]
#[inline(never)]
fn is_wanted_by_symbols<A: Allocator>(
    nodes: &mut Nodes<A>,
    premises: &[Entry],
    wanted: &[PackedPart],
    premise: &Entry,
    symbols: &mut Vec<Body, A>,
) -> Result<bool, AllocError>
    requires are_entries { All (IsEntry nodes.old) premises.now }
    requires is_entry { IsEntry nodes.old premise.now }
    requires variables_in_range { All (IsVariableBelow (length premises.now)) wanted.now }
    ensures nodes_unchanged { nodes.new ≡ nodes.old }
    ensures tells_equal { IfOk result
        (λ r. r ≡ bytes_eq (entry_formula nodes.old premise.now)
        (filled_parts nodes.old premises.now wanted.now)) }
{
    let is_within_limit = list_filled_symbols(nodes, premises, wanted, symbols)?;
    if !is_within_limit {
        return Ok(false);
    }
    has_symbols(nodes, premise, symbols)
}

/// Whether an entry is the wanted formula with its variables replaced.
#[inline(always)]
fn is_wanted_formula<A: Allocator>(
    nodes: &mut Nodes<A>,
    premises: &[Entry],
    wanted: &[PackedPart],
    premise: &Entry,
    list: &mut [Body],
    symbols: &mut Vec<Body, A>,
) -> Result<bool, AllocError>
    requires are_entries { All (IsEntry nodes.old) premises.now }
    requires is_entry { IsEntry nodes.old premise.now }
    requires variables_in_range { All (IsVariableBelow (length premises.now)) wanted.now }
    requires has_room { length wanted.now ≤ length list.old }
    ensures nodes_unchanged { nodes.new ≡ nodes.old }
    ensures length_stays { length list.new ≡ length list.old }
    ensures tells_equal { IfOk result
        (λ r. r ≡ bytes_eq (entry_formula nodes.old premise.now)
        (filled_parts nodes.old premises.now wanted.now)) }
{
    match first_constant(wanted) {
        None => is_wanted_by_symbols(nodes, premises, wanted, premise, symbols),
        Some(typecode) => {
            if !begins_with_typecode(nodes, typecode, premise) {
                return Ok(false);
            }
            is_body_of(nodes, premises, &wanted[1..], premise, list)
        }
    }
}

/// Whether the formula of an entry has no symbols.
fn has_no_symbols<A: Allocator>(_nodes: &Nodes<A>, premise: &Entry) -> bool
    requires is_entry { IsEntry _nodes.now premise.now }
    ensures { result ≡ bytes_eq (entry_formula _nodes.now premise.now) [] }
{
    !premise.typecode.is_symbol()
}

/// Whether an entry begins with the typecode.
#[inline(always)]
fn begins_with_typecode<A: Allocator>(_nodes: &Nodes<A>, typecode: Sym, premise: &Entry) -> bool
    requires is_entry { IsEntry _nodes.now premise.now }
    ensures { result
        ≡ bytes_eq (entry_formula _nodes.now premise.now)
        (typecode ∷ string_of _nodes.now premise.now.body) }
{
    premise.typecode.number() == typecode.number() && premise.typecode.is_symbol()
}

/// Whether each entry is what its hypothesis requires, with the variables replaced.
#[inline(always)]
pub fn premises_match<A: Allocator>(
    nodes: &mut Nodes<A>,
    rule: &Rule,
    premises: &[Entry],
    list: &mut [Body],
    symbols: &mut Vec<Body, A>,
) -> Result<bool, AllocError>
    requires are_entries { All (IsEntry nodes.old) premises.now }
    requires premise_count_is { length premises.now ≡ length rule.now.hypotheses }
    requires part_count_is { total_stored_part_count rule.now.hypotheses ≡ length rule.now.parts }
    requires variables_in_range { All (IsVariableBelow (length premises.now)) rule.now.parts }
    requires has_room { length rule.now.parts ≤ length list.old }
    ensures nodes_unchanged { nodes.new ≡ nodes.old }
    ensures length_stays { length list.new ≡ length list.old }
    ensures tells_match { IfOk result
        (λ r. r ≡ are_equal (map (entry_formula nodes.old) premises.now)
        (map (filled_parts nodes.old premises.now)
        (all_parts rule.now.parts 0 rule.now.hypotheses))) }
{
    let mut part_index = 0;
    for (j, hypothesis) in rule.hypotheses.iter().enumerate() {
        let is_fitting = match *hypothesis {
            Hypothesis::Floating(typecode) => begins_with_typecode(nodes, typecode, &premises[j]),
            Hypothesis::Essential(part_count) => {
                let end = part_index + part_count as usize;
                let wanted = &rule.parts[part_index..end];
                part_index = end;
                is_wanted_formula(nodes, premises, wanted, &premises[j], list, symbols)?
            }
        };
        if !is_fitting {
            return Ok(false);
        }
    }
    Ok(true)
}

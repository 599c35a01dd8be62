//! Entries are pushed, and nodes that none needs are given up.

ghost use Rattle.std.specs.Prelude.{◌≡◌, ◌<◌, ◌≤◌, ◌+◌, ◌++◌, ◌∷◌, [], All, length, take, vec_len};
ghost use Rattle.std.specs.Prelude.{OnOk, OnErr};
ghost use Rattle.mm_spec.specs.Limits.{formula_limit};
ghost use Rattle.mm_nodes.specs.Strings.{first_node, joined_string_of, Extends};
ghost use Rattle.mm_machine.specs.Entries.{IsEntry, IsStack, entry_formula, entry_formulas};
ghost use Rattle.mm_machine.specs.Masks.{entry_masks};

use crate::entry::Entry;
use mm_nodes::{Body, Nodes};
use std::alloc::{AllocError, Allocator};

/// How many nodes the first `below` entries need.
#[inline(always)]
fn needed_below<A: Allocator>(_nodes: &Nodes<A>, stack: &[Entry], below: usize) -> usize
    requires is_stack { IsStack _nodes.now stack.now }
    requires below_le_length { below ≤ length stack.now }
    ensures needed_by_each { All (λ e. e.needed ≤ result) (take below stack.now) }
    ensures needed_le_count { result ≤ length _nodes.now }
{
    if below == 0 {
        return 0;
    }
    let last = below - 1;
    let entry = stack[last];
    entry.needed as usize
}

/// How many nodes to keep for the first `below` entries, at least so many.
#[inline(always)]
pub fn nodes_to_keep<A: Allocator>(
    nodes: &Nodes<A>,
    stack: &[Entry],
    below: usize,
    least: usize,
) -> usize
    requires is_stack { IsStack nodes.now stack.now }
    requires below_le_length { below ≤ length stack.now }
    requires least_le_count { least ≤ length nodes.now }
    ensures least_le { least ≤ result }
    ensures entries_are_kept { All (λ e. e.needed ≤ result) (take below stack.now) }
    ensures le_count { result ≤ length nodes.now }
{
    let needed = needed_below(nodes, stack, below);
    needed.max(least)
}

/// The entry for the top of the stack, where all nodes are needed for it and the entries below it.
#[inline(always)]
pub fn for_top<A: Allocator>(nodes: &Nodes<A>, entry: Entry) -> Entry
    requires { IsEntry nodes.now entry }
    ensures is_entry { IsEntry nodes.now result }
    ensures formula_stays { entry_formula nodes.now result ≡ entry_formula nodes.now entry }
    ensures mask_stays { result.mask ≡ entry.mask }
    ensures needs_all { result.needed ≡ length nodes.now }
{
    Entry {
        typecode: entry.typecode,
        body: entry.body,
        length: entry.length,
        needed: nodes.count() as u32,
        mask: entry.mask,
    }
}

/// The entry for no stack, where only the nodes of its formula are needed for it.
#[inline(always)]
pub fn for_itself<A: Allocator>(_nodes: &Nodes<A>, entry: Entry) -> Entry
    requires { IsEntry _nodes.now entry }
    ensures is_entry { IsEntry _nodes.now result }
    ensures formula_stays { entry_formula _nodes.now result ≡ entry_formula _nodes.now entry }
    ensures mask_stays { result.mask ≡ entry.mask }
{
    let needed = needed_for_body(entry.body, entry.needed);
    Entry {
        typecode: entry.typecode,
        body: entry.body,
        length: entry.length,
        needed,
        mask: entry.mask,
    }
}

/// How many nodes there have to be for a body that is one of the first `needed` nodes, or none.
fn needed_for_body(body: Body, needed: u32) -> u32
    ensures needed_le { result ≤ needed }
    ensures body_is_among { body < first_node + needed → body < first_node + result }
{
    match body.index() {
        None => 0,
        Some(index) => {
            if index < needed as usize {
                index as u32 + 1
            } else {
                0
            }
        }
    }
}

/// Replaces the entries from index `below` on by one whose formula is a typecode and bodies. The
/// first `keep` nodes stay, which the bodies and the entries below need, and the others are given
/// up.
#[inline(always)]
pub fn replace_entries<A: Allocator>(
    nodes: &mut Nodes<A>,
    stack: &mut Vec<Entry, A>,
    below: usize,
    keep: usize,
    typecode: Body,
    bodies: &[Body],
    symbol_count: u32,
    mask: u64,
) -> Result<(), AllocError>
    requires is_stack { IsStack nodes.old stack.old.items }
    requires below_le_length { below ≤ vec_len stack.old }
    requires keep_le_count { keep ≤ length nodes.old }
    requires entries_are_kept { All (λ e. e.needed ≤ keep) (take below stack.old.items) }
    requires typecode_is_symbol { typecode < first_node }
    requires bodies_are_kept { All (λ b. b < first_node + keep) bodies.now }
    requires symbol_count_is { symbol_count ≡ length (joined_string_of nodes.old bodies.now) }
    requires symbol_count_lt_limit { symbol_count < formula_limit }
    ensures is_stack { IsStack nodes.new stack.new.items }
    ensures nodes_are_kept { Extends (take keep nodes.old) nodes.new }
    ensures formulas_are { OnOk result
        (entry_formulas nodes.new stack.new.items
        ≡ take below (entry_formulas nodes.old stack.old.items)
        ++ (typecode ∷ joined_string_of nodes.old bodies.now) ∷ []) }
    ensures formulas_below_stay { OnErr result
        (entry_formulas nodes.new stack.new.items
        ≡ take below (entry_formulas nodes.old stack.old.items)) }
    ensures masks_are { OnOk result
        (entry_masks stack.new.items ≡ take below (entry_masks stack.old.items) ++ mask ∷ []) }
    ensures masks_below_stay { OnErr result
        (entry_masks stack.new.items ≡ take below (entry_masks stack.old.items)) }
{
    stack.truncate(below);
    nodes.truncate(keep);
    let body = nodes.make(bodies, symbol_count)?;
    let entry = Entry {
        typecode,
        body,
        length: symbol_count,
        needed: nodes.count() as u32,
        mask,
    };
    stack.push(entry)?;
    Ok(())
}

/// Replaces the entries from index `below` on by one whose formula has no symbols.
#[cold]
#[inline(never)]
fn replace_by_empty_formula<A: Allocator>(
    nodes: &Nodes<A>,
    stack: &mut Vec<Entry, A>,
    below: usize,
    mask: u64,
) -> Result<(), AllocError>
    requires is_stack { IsStack nodes.now stack.old.items }
    requires below_le_length { below ≤ vec_len stack.old }
    ensures is_stack { IsStack nodes.now stack.new.items }
    ensures formulas_are { OnOk result
        (entry_formulas nodes.now stack.new.items
        ≡ take below (entry_formulas nodes.now stack.old.items) ++ [] ∷ []) }
    ensures formulas_below_stay { OnErr result
        (entry_formulas nodes.now stack.new.items
        ≡ take below (entry_formulas nodes.now stack.old.items)) }
    ensures masks_are { OnOk result
        (entry_masks stack.new.items ≡ take below (entry_masks stack.old.items) ++ mask ∷ []) }
    ensures masks_below_stay { OnErr result
        (entry_masks stack.new.items ≡ take below (entry_masks stack.old.items)) }
{
    stack.truncate(below);
    let nothing = Body::none();
    let entry = Entry {
        typecode: nothing,
        body: nothing,
        length: 0,
        needed: nodes.count() as u32,
        mask,
    };
    stack.push(entry)?;
    Ok(())
}

/// Replaces the entries from index `below` on by one whose formula is a typecode and one symbol, as
/// most hypotheses are.
#[inline(always)]
pub fn replace_by_pair<A: Allocator>(
    nodes: &Nodes<A>,
    stack: &mut Vec<Entry, A>,
    below: usize,
    typecode: Body,
    symbol: Body,
    mask: u64,
) -> Result<(), AllocError>
    requires is_stack { IsStack nodes.now stack.old.items }
    requires below_le_length { below ≤ vec_len stack.old }
    requires typecode_is_symbol { typecode < first_node }
    requires is_symbol { symbol < first_node }
    ensures is_stack { IsStack nodes.now stack.new.items }
    ensures formulas_are { OnOk result
        (entry_formulas nodes.now stack.new.items
        ≡ take below (entry_formulas nodes.now stack.old.items) ++ (typecode ∷ symbol ∷ []) ∷ []) }
    ensures formulas_below_stay { OnErr result
        (entry_formulas nodes.now stack.new.items
        ≡ take below (entry_formulas nodes.now stack.old.items)) }
    ensures masks_are { OnOk result
        (entry_masks stack.new.items ≡ take below (entry_masks stack.old.items) ++ mask ∷ []) }
    ensures masks_below_stay { OnErr result
        (entry_masks stack.new.items ≡ take below (entry_masks stack.old.items)) }
{
    stack.truncate(below);
    let entry = Entry {
        typecode,
        body: symbol,
        length: 1,
        needed: nodes.count() as u32,
        mask,
    };
    stack.push(entry)?;
    Ok(())
}

/// Replaces the entries from index `below` on by one whose formula is these symbols. The first
/// `keep` nodes stay, which the entries below need.
#[inline(always)]
pub fn replace_by_symbols<A: Allocator>(
    nodes: &mut Nodes<A>,
    stack: &mut Vec<Entry, A>,
    below: usize,
    keep: usize,
    symbols: &[Body],
    mask: u64,
) -> Result<(), AllocError>
    requires is_stack { IsStack nodes.old stack.old.items }
    requires below_le_length { below ≤ vec_len stack.old }
    requires keep_le_count { keep ≤ length nodes.old }
    requires entries_are_kept { All (λ e. e.needed ≤ keep) (take below stack.old.items) }
    requires are_symbols { All (λ s. s < first_node) symbols.now }
    requires length_le_limit { length symbols.now ≤ formula_limit }
    ensures is_stack { IsStack nodes.new stack.new.items }
    ensures nodes_are_kept { Extends (take keep nodes.old) nodes.new }
    ensures formulas_are { OnOk result
        (entry_formulas nodes.new stack.new.items
        ≡ take below (entry_formulas nodes.old stack.old.items) ++ symbols.now ∷ []) }
    ensures formulas_below_stay { OnErr result
        (entry_formulas nodes.new stack.new.items
        ≡ take below (entry_formulas nodes.old stack.old.items)) }
    ensures masks_are { OnOk result
        (entry_masks stack.new.items ≡ take below (entry_masks stack.old.items) ++ mask ∷ []) }
    ensures masks_below_stay { OnErr result
        (entry_masks stack.new.items ≡ take below (entry_masks stack.old.items)) }
{
    if symbols.is_empty() {
        return replace_by_empty_formula(nodes, stack, below, mask);
    }
    let count = symbols.len() - 1;
    let first = symbols[0];
    replace_entries(
        nodes,
        stack,
        below,
        keep,
        first,
        &symbols[1..],
        count as u32,
        mask,
    )
}

//! The conditions of an assertion's step: that each entry of the stack is what its hypothesis
//! requires, and that the variables that have to be disjoint are.

ghost use Rattle.std.specs.Prelude.{◌≡◌, ◌<◌, ◌≤◌, ℕ, All, length, IfOk, true};
ghost use Rattle.std.specs.List.{list_all};
ghost use Rattle.mm_spec.specs.Derivation.{are_all_disjoint as disjoint_lists};
ghost use Rattle.mm_spec.specs.Derivation.{is_disjoint_from as disjoint_symbol};
ghost use Rattle.mm_spec.specs.Derivation.{are_disjoint as disjoint_pair};
ghost use Rattle.mm_spec.specs.Frame.{symbol_names};
ghost use Rattle.mm_spec.specs.Citation.{context_at};
ghost use Rattle.mm_machine.specs.DisjointCache.{AreDisjointAt};
ghost use Rattle.mm_machine.specs.FlagRows.{AreColumnsOf};
ghost use Rattle.mm_rule.specs.Rule.{IsCompiled};
ghost use Rattle.mm_nodes.specs.Strings.{string_of};
ghost use Rattle.std.specs.List.{Contains};
ghost use Rattle.mm_machine.specs.Distinct.{HasBoth, HaveVariables, HaveSameVariables};
ghost use Rattle.mm_machine.specs.Distinct.{are_bodies_disjoint, are_strings_disjoint};
ghost use Rattle.mm_machine.specs.State.{IsRising};
ghost use Rattle.mm_machine.specs.Entries.{IsEntry, AreInRange, entry_formulas};
ghost use Rattle.mm_machine.specs.Masks.{AreVariablesOf, AreAllMasked, AreMasked, entry_masks};
ghost use Rattle.mm_machine.specs.Masks.{IsDisjointFromMask, AreDisjointMasks};
ghost use Rattle.mm_machine.specs.Applied.{TestsRule};

use crate::disjoint_cache::DisjointCache;
use crate::distinct::{DistinctVariables, index_of_body};
use crate::entry::Entry;
use crate::entry_match::premises_match;
use crate::owners::{OTHERS, Owners};
use crate::reason::{Reason, StepRefused};
use crate::symbol_lists::{SymbolLists, append_body};
use mm_database::{Database, Sym};
use mm_nodes::{Body, Nodes, Segment};
use mm_rule::Rule;
use std::alloc::{AllocError, Allocator};

/// How many pairs of symbols, or of bits of masks, a step tests at most before it looks for the
/// variables of its premises first, each once.
const MAX_SYMBOL_PAIRS: usize = 4_096;

/// Whether two symbols are disjoint at the theorem: they aren't both variables, or an active `$d`
/// has both. The first pairs that are found to be disjoint are added to `cache`.
#[inline(always)]
fn are_disjoint<A: Allocator>(
    database: &Database<A>,
    theorem: u32,
    first: Sym,
    second: Sym,
    cache: &mut DisjointCache<A>,
) -> bool
    requires theorem_lt_length { theorem < length database.now.statements }
    requires first_is_symbol { first < length (symbol_names database.now.statements) }
    requires second_is_symbol { second < length (symbol_names database.now.statements) }
    requires cached_are_disjoint { AreDisjointAt database.now.statements theorem cache.old }
    ensures tells_disjoint { result
        ≡ disjoint_pair (context_at database.now.statements theorem) first second }
    ensures cached_are_disjoint { AreDisjointAt database.now.statements theorem cache.new }
    ensures rows_stay { cache.new.rows ≡ cache.old.rows }
{
    if cache.has(first, second) {
        return true;
    }
    if !are_disjoint_in_database(database, theorem, first, second) {
        return false;
    }
    cache.insert(first, second);
    true
}

/// Whether two symbols are disjoint at the theorem, found without a cache.
#[inline(never)]
fn are_disjoint_in_database<A: Allocator>(
    database: &Database<A>,
    theorem: u32,
    first: Sym,
    second: Sym,
) -> bool
    requires theorem_lt_length { theorem < length database.now.statements }
    requires first_is_symbol { first < length (symbol_names database.now.statements) }
    requires second_is_symbol { second < length (symbol_names database.now.statements) }
    ensures { result ≡ disjoint_pair (context_at database.now.statements theorem) first second }
{
    !(database.is_variable(first) && database.is_variable(second))
        || (!(first == second) && database.disjoint_at(theorem, first, second))
}

/// Whether a symbol is disjoint from each of the others.
#[inline(always)]
fn is_disjoint_from<A: Allocator>(
    database: &Database<A>,
    theorem: u32,
    symbol: Sym,
    others: &[Sym],
    cache: &mut DisjointCache<A>,
) -> bool
    requires theorem_lt_length { theorem < length database.now.statements }
    requires is_symbol { symbol < length (symbol_names database.now.statements) }
    requires others_are_symbols { All (λ symbol. symbol < length (symbol_names
        database.now.statements)) others.now }
    requires cached_are_disjoint { AreDisjointAt database.now.statements theorem cache.old }
    ensures tells_disjoint { result
        ≡ disjoint_symbol (context_at database.now.statements theorem) symbol others.now }
    ensures cached_are_disjoint { AreDisjointAt database.now.statements theorem cache.new }
    ensures rows_stay { cache.new.rows ≡ cache.old.rows }
{
    if !database.is_variable(symbol) {
        return true;
    }
    for other in others {
        if database.is_variable(*other) && !are_disjoint(database, theorem, symbol, *other, cache) {
            return false;
        }
    }
    true
}

/// Whether each variable of `first` is disjoint from each variable of `second`.
#[inline(always)]
fn are_all_disjoint<A: Allocator>(
    database: &Database<A>,
    theorem: u32,
    first: &[Sym],
    second: &[Sym],
    cache: &mut DisjointCache<A>,
) -> bool
    requires theorem_lt_length { theorem < length database.now.statements }
    requires first_are_symbols { All (λ symbol. symbol < length (symbol_names
        database.now.statements)) first.now }
    requires second_are_symbols { All (λ symbol. symbol < length (symbol_names
        database.now.statements)) second.now }
    requires cached_are_disjoint { AreDisjointAt database.now.statements theorem cache.old }
    ensures tells_disjoint { result
        ≡ disjoint_lists (context_at database.now.statements theorem) first.now second.now }
    ensures cached_are_disjoint { AreDisjointAt database.now.statements theorem cache.new }
{
    for symbol in first {
        if !is_disjoint_from(database, theorem, *symbol, second, cache) {
            return false;
        }
    }
    true
}

/// Whether a symbol is disjoint from each of the others, whose columns are listed.
fn is_disjoint_by_row<A: Allocator>(
    database: &Database<A>,
    theorem: u32,
    symbol: Sym,
    others: &[Sym],
    columns: &[u64],
    cache: &mut DisjointCache<A>,
) -> bool
    requires theorem_lt_length { theorem < length database.now.statements }
    requires is_symbol { symbol < length (symbol_names database.now.statements) }
    requires others_are_symbols { All (λ symbol. symbol < length (symbol_names
        database.now.statements)) others.now }
    requires cached_are_disjoint { AreDisjointAt database.now.statements theorem cache.old }
    requires are_columns { AreColumnsOf cache.old.rows.symbols columns.now others.now }
    ensures tells_disjoint { result
        ≡ disjoint_symbol (context_at database.now.statements theorem) symbol others.now }
    ensures cached_are_disjoint { AreDisjointAt database.now.statements theorem cache.new }
    ensures are_columns { AreColumnsOf cache.new.rows.symbols columns.now others.now }
{
    if cache.has_flags(symbol, columns) {
        return true;
    }
    if !is_disjoint_from(database, theorem, symbol, others, cache) {
        return false;
    }
    cache.insert_in_rows(symbol, others);
    true
}

/// Whether each variable of `first` is disjoint from each variable of `second`. What is known of
/// a symbol of `first` is asked at once for all of `second`, whose columns are listed in `columns`.
/// If there is no room for these columns, each pair is tested.
#[cold]
#[inline(never)]
fn are_all_disjoint_by_rows<A: Allocator>(
    database: &Database<A>,
    theorem: u32,
    first: &[Sym],
    second: &[Sym],
    columns: &mut Vec<u64, A>,
    cache: &mut DisjointCache<A>,
) -> bool
    requires theorem_lt_length { theorem < length database.now.statements }
    requires first_are_symbols { All (λ symbol. symbol < length (symbol_names
        database.now.statements)) first.now }
    requires second_are_symbols { All (λ symbol. symbol < length (symbol_names
        database.now.statements)) second.now }
    requires cached_are_disjoint { AreDisjointAt database.now.statements theorem cache.old }
    ensures tells_disjoint { result
        ≡ disjoint_lists (context_at database.now.statements theorem) first.now second.now }
    ensures cached_are_disjoint { AreDisjointAt database.now.statements theorem cache.new }
{
    if !cache.list_columns(second, columns) {
        return are_all_disjoint(database, theorem, first, second, cache);
    }
    for symbol in first {
        if !is_disjoint_by_row(database, theorem, *symbol, second, columns, cache) {
            return false;
        }
    }
    true
}

/// Whether each variable of `first` is disjoint from each variable of `second`, which both may be
/// long.
#[inline(always)]
fn lists_are_disjoint<A: Allocator>(
    database: &Database<A>,
    theorem: u32,
    first: &[Sym],
    second: &[Sym],
    columns: &mut Vec<u64, A>,
    cache: &mut DisjointCache<A>,
) -> bool
    requires theorem_lt_length { theorem < length database.now.statements }
    requires first_are_symbols { All (λ symbol. symbol < length (symbol_names
        database.now.statements)) first.now }
    requires second_are_symbols { All (λ symbol. symbol < length (symbol_names
        database.now.statements)) second.now }
    requires cached_are_disjoint { AreDisjointAt database.now.statements theorem cache.old }
    ensures tells_disjoint { result
        ≡ disjoint_lists (context_at database.now.statements theorem) first.now second.now }
    ensures cached_are_disjoint { AreDisjointAt database.now.statements theorem cache.new }
{
    if first.len().saturating_mul(second.len()) > MAX_SYMBOL_PAIRS {
        are_all_disjoint_by_rows(database, theorem, first, second, columns, cache)
    } else {
        are_all_disjoint(database, theorem, first, second, cache)
    }
}

/// The variables of a body that is listed.
fn variables_of<'a, A: Allocator>(
    _database: &Database<A>,
    _nodes: &Nodes<A>,
    listed: &[u32],
    symbols: &'a [Sym],
    segments: &[Segment],
    body: u32,
) -> &'a [Sym]
    requires listed_rise { IsRising listed.now }
    requires is_listed { Contains listed.now body }
    requires have_variables { HaveVariables _database.now.statements _nodes.now listed.now
        symbols.now segments.now }
    ensures are_symbols { All (λ symbol. symbol < length (symbol_names
        _database.now.statements)) result.now }
    ensures have_same_variables { HaveSameVariables _database.now.statements
        (string_of _nodes.now body) result.now }
{
    let segment = segments[index_of_body(listed, body)];
    &symbols[segment.start..segment.end]
}

/// Whether for each pair of bodies, each variable of the first is disjoint from each variable of
/// the second. A pair that comes again isn't asked again: what a step finds of two bodies holds
/// for the step, and equal pairs are neighbours.
fn pairs_are_disjoint<A: Allocator>(
    database: &Database<A>,
    theorem: u32,
    _nodes: &Nodes<A>,
    asked: &[(u32, u32)],
    listed: &[u32],
    symbols: &[Sym],
    segments: &[Segment],
    columns: &mut Vec<u64, A>,
    cache: &mut DisjointCache<A>,
) -> bool
    requires theorem_lt_length { theorem < length database.now.statements }
    requires listed_rise { IsRising listed.now }
    requires are_listed { All (HasBoth listed.now) asked.now }
    requires have_variables { HaveVariables database.now.statements _nodes.now listed.now
        symbols.now segments.now }
    requires cached_are_disjoint { AreDisjointAt database.now.statements theorem cache.old }
    ensures tells_disjoint { result
        ≡ list_all (are_strings_disjoint database.now.statements theorem _nodes.now) asked.now }
    ensures cached_are_disjoint { AreDisjointAt database.now.statements theorem cache.new }
{
    for (index, pair) in asked.iter().enumerate() {
        if index > 0 && asked[index - 1] == *pair {
            continue;
        }
        let first = variables_of(database, _nodes, listed, symbols, segments, pair.0);
        let second = variables_of(database, _nodes, listed, symbols, segments, pair.1);
        if !lists_are_disjoint(database, theorem, first, second, columns, cache) {
            return false;
        }
    }
    true
}

/// Whether for each pair of variables, each variable in what replaces the first is disjoint from
/// each variable in what replaces the second. Two formulas are asked about once, and a variable of
/// a formula is looked at once.
#[cold]
#[inline(never)]
fn long_formulas_are_disjoint<A: Allocator>(
    database: &Database<A>,
    theorem: u32,
    nodes: &mut Nodes<A>,
    premises: &[Entry],
    pairs: &[(u32, u32)],
    bodies: &mut Vec<Body, A>,
    distinct: &mut DistinctVariables<A>,
    cache: &mut DisjointCache<A>,
) -> Result<bool, AllocError>
    requires theorem_lt_length { theorem < length database.now.statements }
    requires formulas_in_range { AreInRange (length (symbol_names database.now.statements))
        (entry_formulas nodes.old premises.now) }
    requires pairs_in_range { All
        (λ (p : ℕ × ℕ). (p.0 < length premises.now) × (p.1 < length premises.now)) pairs.now }
    requires cached_are_disjoint { AreDisjointAt database.now.statements theorem cache.old }
    ensures nodes_unchanged { nodes.new ≡ nodes.old }
    ensures tells_disjoint { IfOk result
        (λ r. r
        ≡ list_all
        (are_bodies_disjoint database.now.statements theorem nodes.old premises.now) pairs.now) }
    ensures cached_are_disjoint { AreDisjointAt database.now.statements theorem cache.new }
{
    distinct.collect(database, nodes, premises, pairs, bodies)?;
    let asked = &distinct.asked;
    let listed = &distinct.listed;
    let symbols = &distinct.symbols;
    let segments = &distinct.segments;
    let columns = &mut distinct.columns;
    Ok(pairs_are_disjoint(
        database, theorem, nodes, asked, listed, symbols, segments, columns, cache,
    ))
}

/// Whether each variable of a body's string is disjoint from each variable of another's.
#[inline(always)]
fn bodies_are_disjoint<A: Allocator>(
    database: &Database<A>,
    theorem: u32,
    nodes: &mut Nodes<A>,
    first: Body,
    second: Body,
    lists: &mut SymbolLists<A>,
    cache: &mut DisjointCache<A>,
) -> Result<bool, AllocError>
    requires theorem_lt_length { theorem < length database.now.statements }
    requires first_are_symbols { All (λ symbol. symbol < length (symbol_names
        database.now.statements)) (string_of nodes.old first) }
    requires second_are_symbols { All (λ symbol. symbol < length (symbol_names
        database.now.statements)) (string_of nodes.old second) }
    requires cached_are_disjoint { AreDisjointAt database.now.statements theorem cache.old }
    ensures nodes_unchanged { nodes.new ≡ nodes.old }
    ensures tells_disjoint { IfOk result
        (λ r. r
        ≡ disjoint_lists (context_at database.now.statements theorem) (string_of nodes.old first)
        (string_of nodes.old second)) }
    ensures cached_are_disjoint { AreDisjointAt database.now.statements theorem cache.new }
{
    lists.symbols.clear();
    append_body(nodes, first, &mut lists.bodies, &mut lists.symbols)?;
    let middle = lists.symbols.len();
    append_body(nodes, second, &mut lists.bodies, &mut lists.symbols)?;
    let symbols = lists.symbols.as_slice();
    let (front, rest) = symbols.split_at(middle);
    Ok(are_all_disjoint(database, theorem, front, rest, cache))
}

/// Whether a symbol is known to be disjoint from all variables of a mask: each has its own bit.
#[inline(always)]
fn is_disjoint_by_mask<A: Allocator>(
    database: &Database<A>,
    theorem: u32,
    symbol: Sym,
    owners: &[Sym],
    mask: u64,
    cache: &mut DisjointCache<A>,
) -> bool
    requires theorem_lt_length { theorem < length database.now.statements }
    requires is_symbol { symbol < length (symbol_names database.now.statements) }
    requires owners_in_range { All (λ s. s < length (symbol_names database.now.statements))
        owners.now }
    requires cached_are_disjoint { AreDisjointAt database.now.statements theorem cache.old }
    ensures are_apart { result ≡ true
        → IsDisjointFromMask database.now.statements theorem owners.now symbol mask }
    ensures cached_are_disjoint { AreDisjointAt database.now.statements theorem cache.new }
{
    let mut rest = mask;
    for _bit in 0..OTHERS {
        if rest == 0 {
            return true;
        }
        let index = rest.trailing_zeros() as usize;
        if index >= OTHERS || index >= owners.len() {
            return false;
        }
        if !are_disjoint(database, theorem, symbol, owners[index], cache) {
            return false;
        }
        rest &= !(1u64 << index);
    }
    rest == 0
}

/// Whether all variables of a mask are known to be disjoint from all variables of another: each has
/// a bit of its own.
#[inline(always)]
fn are_disjoint_by_masks<A: Allocator>(
    database: &Database<A>,
    theorem: u32,
    owners: &[Sym],
    first: u64,
    second: u64,
    cache: &mut DisjointCache<A>,
) -> bool
    requires theorem_lt_length { theorem < length database.now.statements }
    requires owners_in_range { All (λ s. s < length (symbol_names database.now.statements))
        owners.now }
    requires cached_are_disjoint { AreDisjointAt database.now.statements theorem cache.old }
    ensures are_apart { result ≡ true
        → AreDisjointMasks database.now.statements theorem owners.now first second }
    ensures cached_are_disjoint { AreDisjointAt database.now.statements theorem cache.new }
{
    if (first | second) >> OTHERS != 0 {
        return false;
    }
    let mut rest = first;
    for _bit in 0..OTHERS {
        if rest == 0 {
            return true;
        }
        let index = rest.trailing_zeros() as usize;
        if index >= OTHERS || index >= owners.len() {
            return false;
        }
        if !is_disjoint_by_mask(database, theorem, owners[index], owners, second, cache) {
            return false;
        }
        rest &= !(1u64 << index);
    }
    rest == 0
}

/// How many pairs of a bit of one mask and a bit of the other there are.
#[inline(always)]
fn bit_pairs(first: u64, second: u64) -> usize {
    (first.count_ones() as usize).saturating_mul(second.count_ones() as usize)
}

/// Whether for each pair of variables, each variable in what replaces the first is disjoint from
/// each variable in what replaces the second. Where there are many pairs of symbols, those of each
/// formula that are variables are looked for first.
#[inline(always)]
fn keeps_disjoint<A: Allocator>(
    database: &Database<A>,
    theorem: u32,
    nodes: &mut Nodes<A>,
    premises: &[Entry],
    pairs: &[(u32, u32)],
    lists: &mut SymbolLists<A>,
    distinct: &mut DistinctVariables<A>,
    owners: &Owners<A>,
    cache: &mut DisjointCache<A>,
) -> Result<bool, AllocError>
    requires theorem_lt_length { theorem < length database.now.statements }
    requires formulas_in_range { AreInRange (length (symbol_names database.now.statements))
        (entry_formulas nodes.old premises.now) }
    requires pairs_in_range { All
        (λ (p : ℕ × ℕ). (p.0 < length premises.now) × (p.1 < length premises.now)) pairs.now }
    requires are_variables { AreVariablesOf database.now.statements owners.now.variable_flags }
    requires owners_in_range { All (λ s. s < length (symbol_names database.now.statements))
        owners.now.symbols }
    requires are_masked { AreAllMasked owners.now.variable_flags owners.now.symbols
        (entry_masks premises.now) (entry_formulas nodes.old premises.now) }
    requires cached_are_disjoint { AreDisjointAt database.now.statements theorem cache.old }
    ensures nodes_unchanged { nodes.new ≡ nodes.old }
    ensures tells_disjoint { IfOk result
        (λ r. r
        ≡ list_all
        (are_bodies_disjoint database.now.statements theorem nodes.old premises.now) pairs.now) }
    ensures cached_are_disjoint { AreDisjointAt database.now.statements theorem cache.new }
{
    let mut count: usize = 0;
    for pair in pairs {
        let first = premises[pair.0 as usize];
        let second = premises[pair.1 as usize];
        count = count.saturating_add(bit_pairs(first.mask, second.mask));
        if count <= MAX_SYMBOL_PAIRS
            && are_disjoint_by_masks(
                database,
                theorem,
                owners.symbols(),
                first.mask,
                second.mask,
                cache,
            )
        {
            continue;
        }
        let symbol_pairs = (first.length as usize).saturating_mul(second.length as usize);
        count = count.saturating_add(symbol_pairs);
        if count > MAX_SYMBOL_PAIRS {
            let bodies = &mut lists.bodies;
            return long_formulas_are_disjoint(
                database, theorem, nodes, premises, pairs, bodies, distinct, cache,
            );
        }
        let are_disjoint = bodies_are_disjoint(
            database,
            theorem,
            nodes,
            first.body,
            second.body,
            lists,
            cache,
        )?;
        if !are_disjoint {
            return Ok(false);
        }
    }
    Ok(true)
}

/// Tests an assertion's step on the entries of the stack, except for the length of its formula.
/// Returns how many of the entries stay.
#[inline(always)]
pub fn test_rule<A: Allocator>(
    database: &Database<A>,
    theorem: u32,
    rule: &Rule,
    nodes: &mut Nodes<A>,
    stack: &[Entry],
    buffer: &mut [Body],
    lists: &mut SymbolLists<A>,
    distinct: &mut DistinctVariables<A>,
    owners: &Owners<A>,
    cache: &mut DisjointCache<A>,
) -> Result<usize, StepRefused>
    requires theorem_lt_length { theorem < length database.now.statements }
    requires is_compiled { IsCompiled database.now.statements rule.now }
    requires are_entries { All (IsEntry nodes.old) stack.now }
    requires formulas_in_range { AreInRange (length (symbol_names database.now.statements))
        (entry_formulas nodes.old stack.now) }
    requires has_room { length rule.now.parts ≤ length buffer.old }
    requires are_variables { AreVariablesOf database.now.statements owners.now.variable_flags }
    requires owners_in_range { All (λ s. s < length (symbol_names database.now.statements))
        owners.now.symbols }
    requires are_masked { AreAllMasked owners.now.variable_flags owners.now.symbols
        (entry_masks stack.now) (entry_formulas nodes.old stack.now) }
    requires cached_are_disjoint { AreDisjointAt database.now.statements theorem cache.old }
    ensures nodes_unchanged { nodes.new ≡ nodes.old }
    ensures length_stays { length buffer.new ≡ length buffer.old }
    ensures cached_are_disjoint { AreDisjointAt database.now.statements theorem cache.new }
    ensures tests_rule { TestsRule database.now.statements theorem rule.now nodes.old stack.now
        result }
{
    let hypotheses = rule.hypotheses();
    if stack.len() < hypotheses.len() {
        return Err(StepRefused::Fault(Reason::TooFew));
    }
    let below = stack.len() - hypotheses.len();
    let premises = &stack[below..];
    let is_match = premises_match(nodes, rule, premises, buffer, &mut lists.bodies)?;
    if !is_match {
        return Err(StepRefused::Fault(Reason::Unmatched));
    }
    let pairs = rule.pairs();
    let is_disjoint = keeps_disjoint(
        database, theorem, nodes, premises, pairs, lists, distinct, owners, cache,
    )?;
    if !is_disjoint {
        return Err(StepRefused::Fault(Reason::NotDisjoint));
    }
    Ok(below)
}

//! The variables of long formulas, each once, and the pairs of formulas that a step asks about.

ghost use Rattle.std.specs.Prelude.{◌≡◌, ◌<◌, ◌++◌, ◌∷◌, [], ℕ, All, length, drop, true, OnOk};
ghost use Rattle.std.specs.Prelude.{map, get_or};
ghost use Rattle.std.specs.List.{Contains};
ghost use Rattle.std.specs.List.Sorted.{IsPermutation};
ghost use Rattle.mm_spec.specs.Frame.{symbol_names};
ghost use Rattle.mm_nodes.specs.Strings.{string_of};
ghost use Rattle.mm_machine.specs.Entries.{AreInRange, entry_formulas};
ghost use Rattle.mm_machine.specs.Distinct.{AppendsIfNew, AppendsVariables, AppendsSegment};
ghost use Rattle.mm_machine.specs.Distinct.{HaveVariables, HasBoth, HasSymbols, AsksAbout};
ghost use Rattle.mm_machine.specs.Distinct.{body_pair};
ghost use Rattle.mm_machine.specs.State.{IsRising};

use crate::entry::Entry;
use mm_database::{Database, Sym};
use mm_nodes::{Body, Nodes, Segment};
use mm_rule::{empty, put_number};
use std::alloc::{AllocError, Allocator};

/// The pairs of bodies that a step asks about, and the variables of these bodies, each once for a
/// body. The lists are kept from step to step, so that their memory is reused.
pub struct DistinctVariables<A: Allocator> {
    /// The pairs of bodies, by their numbers, in ascending order: equal ones are neighbours.
    pub asked: Vec<(u32, u32), A>,
    /// The bodies of these pairs, in ascending order, each once.
    pub listed: Vec<u32, A>,
    /// The variables of the bodies, those of one after those of the other.
    pub symbols: Vec<Sym, A>,
    /// For each listed body the segment of its variables in `symbols`.
    pub segments: Vec<Segment, A>,
    /// The columns of a list of symbols in the rows of a `DisjointCache`, as bits.
    pub columns: Vec<u64, A>,
    /// For each symbol the index at which it may be in `symbols`.
    slots: Vec<u32, A>,
}

/// Dropped in one call: docs/PROOFS.md, "What a check costs".
impl<A: Allocator> Drop for DistinctVariables<A> {
    fn drop(self) {
        let Self {
            asked: _,
            listed: _,
            symbols: _,
            segments: _,
            columns: _,
            slots: _,
        } = self;
    }
}

impl<A: Allocator> DistinctVariables<A> {
    /// No variables, with slots for `symbol_count` symbols.
    pub fn new(alloc: A, symbol_count: usize) -> Result<Self, AllocError>
    where
        A: Copy,
    {
        Ok(DistinctVariables {
            asked: Vec::new(alloc),
            listed: Vec::new(alloc),
            symbols: Vec::new(alloc),
            segments: Vec::new(alloc),
            columns: Vec::new(alloc),
            slots: vec![in alloc; 0; symbol_count]?,
        })
    }

    /// Removes all variables, and frees the memory of long lists.
    pub fn empty(&mut self) {
        empty(&mut self.asked);
        empty(&mut self.listed);
        empty(&mut self.symbols);
        empty(&mut self.segments);
        empty(&mut self.columns);
    }

    /// Lists the pairs of bodies that pairs of premises have, and the variables of these bodies.
    /// The symbols of each body are listed in `bodies` first.
    pub fn collect(
        &mut self,
        database: &Database<A>,
        nodes: &mut Nodes<A>,
        premises: &[Entry],
        pairs: &[(u32, u32)],
        bodies: &mut Vec<Body, A>,
    ) -> Result<(), AllocError>
        requires formulas_in_range { AreInRange (length (symbol_names database.now.statements))
            (entry_formulas nodes.old premises.now) }
        requires pairs_in_range { All
            (λ (p : ℕ × ℕ). (p.0 < length premises.now) × (p.1 < length premises.now)) pairs.now }
        ensures nodes_unchanged { nodes.new ≡ nodes.old }
        ensures asks_about { OnOk result
            (AsksAbout database.now.statements nodes.old premises.now pairs.now
            self.new.asked.items self.new.listed.items self.new.symbols.items
            self.new.segments.items) }
    {
        list_asked(premises, pairs, &mut self.asked)?;
        list_bodies(database, nodes, &self.asked, &mut self.listed)?;
        collect_variables(
            database,
            nodes,
            &self.listed,
            bodies,
            &mut self.symbols,
            &mut self.segments,
            &mut self.slots,
        )
    }
}

/// Lists the pairs of bodies that pairs of premises have, in ascending order.
fn list_asked<A: Allocator>(
    premises: &[Entry],
    pairs: &[(u32, u32)],
    asked: &mut Vec<(u32, u32), A>,
) -> Result<(), AllocError>
    requires { All (λ (p : ℕ × ℕ). (p.0 < length premises.now) × (p.1 < length premises.now))
        pairs.now }
    ensures { OnOk result
        (IsPermutation (map (body_pair premises.now) pairs.now) asked.new.items) }
{
    asked.clear();
    for pair in pairs {
        let first = premises[pair.0 as usize];
        let second = premises[pair.1 as usize];
        asked.push((first.body.number(), second.body.number()))?;
    }
    asked.sort_unstable();
    Ok(())
}

/// Lists the bodies of pairs in ascending order, each once.
fn list_bodies<A: Allocator>(
    _database: &Database<A>,
    _nodes: &Nodes<A>,
    asked: &[(u32, u32)],
    listed: &mut Vec<u32, A>,
) -> Result<(), AllocError>
    requires { All (λ (p : ℕ × ℕ). HasSymbols _database.now.statements _nodes.now p.0
        × HasSymbols _database.now.statements _nodes.now p.1) asked.now }
    ensures rise { OnOk result (IsRising listed.new.items) }
    ensures are_listed { OnOk result (All (HasBoth listed.new.items) asked.now) }
    ensures have_symbols { OnOk result
        (All (HasSymbols _database.now.statements _nodes.now) listed.new.items) }
{
    listed.clear();
    for pair in asked {
        listed.push(pair.0)?;
        listed.push(pair.1)?;
    }
    listed.sort_unstable();
    listed.dedup();
    Ok(())
}

/// The index of a body among those that are listed.
pub fn index_of_body(listed: &[u32], body: u32) -> usize
    requires listed_rise { IsRising listed.now }
    requires is_listed { Contains listed.now body }
    ensures index_lt_length { result < length listed.now }
    ensures finds_body { get_or listed.now result 0 ≡ body }
{
    match listed.binary_search(&body) {
        Ok(found) => found,
        Err(gap) => gap,
    }
}

/// Replaces a list by the variables of bodies.
fn collect_variables<A: Allocator>(
    database: &Database<A>,
    nodes: &mut Nodes<A>,
    listed: &[u32],
    bodies: &mut Vec<Body, A>,
    list: &mut Vec<Sym, A>,
    segments: &mut Vec<Segment, A>,
    slots: &mut [u32],
) -> Result<(), AllocError>
    requires { All (HasSymbols database.now.statements nodes.old) listed.now }
    ensures nodes_unchanged { nodes.new ≡ nodes.old }
    ensures have_variables { OnOk result
        (HaveVariables database.now.statements nodes.old listed.now list.new.items
        segments.new.items) }
{
    list.clear();
    segments.clear();
    for number in listed {
        let body = Body::symbol(*number);
        append_segment(database, nodes, body, bodies, list, segments, slots)?;
    }
    Ok(())
}

/// Appends the variables of a body, each once, and the segment of them.
fn append_segment<A: Allocator>(
    database: &Database<A>,
    nodes: &mut Nodes<A>,
    body: Body,
    bodies: &mut Vec<Body, A>,
    list: &mut Vec<Sym, A>,
    segments: &mut Vec<Segment, A>,
    slots: &mut [u32],
) -> Result<(), AllocError>
    requires { All (λ symbol. symbol < length (symbol_names database.now.statements))
        (string_of nodes.old body) }
    ensures nodes_unchanged { nodes.new ≡ nodes.old }
    ensures appends_segment { OnOk result
        (AppendsSegment database.now.statements (string_of nodes.old body) list.old.items
        list.new.items segments.old.items segments.new.items) }
{
    nodes.list_symbols(body, bodies)?;
    let start = list.len();
    append_variables(database, bodies, list, slots)?;
    let end = list.len();
    segments.push(Segment { start, end })?;
    Ok(())
}

/// Appends the variables of a formula, each once, to a list.
fn append_variables<A: Allocator>(
    database: &Database<A>,
    formula: &[Body],
    list: &mut Vec<Sym, A>,
    slots: &mut [u32],
) -> Result<(), AllocError>
    requires { All (λ symbol. symbol < length (symbol_names database.now.statements)) formula.now }
    ensures { OnOk result
        (AppendsVariables database.now.statements formula.now list.old.items list.new.items) }
{
    let start = list.len();
    for symbol in formula {
        append_variable(database, start, Sym::new(symbol.number()), list, slots)?;
    }
    Ok(())
}

/// Appends a symbol to a list if it is a variable that the list doesn't have from index `start` on.
fn append_variable<A: Allocator>(
    database: &Database<A>,
    start: usize,
    symbol: Sym,
    list: &mut Vec<Sym, A>,
    slots: &mut [u32],
) -> Result<(), AllocError>
    requires { symbol < length (symbol_names database.now.statements) }
    ensures { OnOk result
        (AppendsIfNew database.now.statements start symbol list.old.items list.new.items) }
{
    if !database.is_variable(symbol) || has_from(start, symbol, list, slots) {
        return Ok(());
    }
    put_number(slots, symbol.number() as usize, list.len());
    list.push(symbol)?;
    Ok(())
}

/// Whether the list has a symbol from index `start` on, where the slots say.
fn has_from(start: usize, symbol: Sym, list: &[Sym], slots: &[u32]) -> bool
    ensures { result ≡ true → Contains (drop start list.now) symbol }
{
    let slot = symbol.number() as usize;
    if slot >= slots.len() {
        return false;
    }
    let index = slots[slot] as usize;
    if index < start {
        return false;
    }
    index < list.len() && list[index] == symbol
}

//! Strings of nodes as lists of symbols.

ghost use Rattle.std.specs.Prelude.{◌≡◌, ◌<◌, ◌++◌, All, OnOk, IfOk, length};
ghost use Rattle.std.specs.Prelude.{true, false};
ghost use Rattle.mm_spec.specs.Limits.{formula_limit};
ghost use Rattle.mm_nodes.specs.Strings.{first_node, string_of};
ghost use Rattle.mm_rule.specs.Rule.{IsVariableBelow};
ghost use Rattle.mm_machine.specs.Filled.{filled_part, filled_parts, IsListed};

use crate::entry::Entry;
use mm_database::Sym;
use mm_nodes::{Body, Nodes};
use mm_rule::{PackedPart, RulePart, empty};
use mm_spec::FORMULA_LIMIT;
use std::alloc::{AllocError, Allocator};

/// Where the symbols of strings are listed. The lists are kept from step to step, so that their
/// memory is reused.
pub struct SymbolLists<A: Allocator> {
    /// Symbols as bodies.
    pub bodies: Vec<Body, A>,
    pub symbols: Vec<Sym, A>,
}

/// Dropped in one call: docs/PROOFS.md, "What a check costs".
impl<A: Allocator> Drop for SymbolLists<A> {
    fn drop(self) {
        let Self {
            bodies: _,
            symbols: _,
        } = self;
    }
}

impl<A: Allocator> SymbolLists<A> {
    /// Empty lists.
    pub fn new(alloc: A) -> Self
    where
        A: Copy,
    {
        SymbolLists {
            bodies: Vec::new(alloc),
            symbols: Vec::new(alloc),
        }
    }

    /// Empties the lists, and frees the memory of long ones.
    pub fn empty(&mut self) {
        empty(&mut self.bodies);
        empty(&mut self.symbols);
    }
}

/// Lists the symbols of a formula as bodies.
#[inline(always)]
pub fn list_symbols<A: Allocator>(
    formula: &[Sym],
    bodies: &mut Vec<Body, A>,
) -> Result<(), AllocError>
    ensures { OnOk result (bodies.new.items ≡ formula.now) }
{
    bodies.clear();
    for symbol in formula {
        bodies.push(Body::symbol(symbol.number()))?;
    }
    Ok(())
}

/// Appends the symbols of a part with its variable replaced.
fn append_part<A: Allocator>(
    nodes: &mut Nodes<A>,
    premises: &[Entry],
    part: PackedPart,
    bodies: &mut Vec<Body, A>,
) -> Result<(), AllocError>
    requires { IsVariableBelow (length premises.now) part }
    ensures nodes_unchanged { nodes.new ≡ nodes.old }
    ensures appends_part { OnOk result
        (bodies.new.items ≡ bodies.old.items ++ filled_part nodes.old premises.now part) }
    ensures are_symbols { All (λ s. s < first_node) (filled_part nodes.old premises.now part) }
{
    match part.to_part() {
        RulePart::Constant(symbol) => {
            bodies.push(Body::symbol(symbol.number()))?;
            Ok(())
        }
        RulePart::Variable(floating_index) => {
            nodes.append_symbols(premises[floating_index as usize].body, bodies)
        }
    }
}

/// Lists the symbols of parts whose variables are replaced by the premises, as bodies, and returns
/// whether they are within the limit. Only then are they complete.
pub fn list_filled_symbols<A: Allocator>(
    nodes: &mut Nodes<A>,
    premises: &[Entry],
    parts: &[PackedPart],
    bodies: &mut Vec<Body, A>,
) -> Result<bool, AllocError>
    requires variables_in_range { All (IsVariableBelow (length premises.now)) parts.now }
    ensures nodes_unchanged { nodes.new ≡ nodes.old }
    ensures is_listed { IfOk result (λ r. r ≡ true → IsListed nodes.old premises.now parts.now
        bodies.new.items) }
    ensures is_too_long { IfOk result (λ r. r ≡ false
        → formula_limit < length (filled_parts nodes.old premises.now parts.now)) }
{
    bodies.clear();
    for part in parts {
        append_part(nodes, premises, *part, bodies)?;
        if bodies.len() > FORMULA_LIMIT {
            return Ok(false);
        }
    }
    Ok(true)
}

/// Appends the symbols that are listed as bodies.
fn append_bodies<A: Allocator>(bodies: &[Body], symbols: &mut Vec<Sym, A>) -> Result<(), AllocError>
    ensures { OnOk result (symbols.new.items ≡ symbols.old.items ++ bodies.now) }
{
    for body in bodies {
        symbols.push(Sym::new(body.number()))?;
    }
    Ok(())
}

/// Appends the symbols of a body's string to a list. Those of a node are listed in `bodies` first.
#[inline(always)]
pub fn append_body<A: Allocator>(
    nodes: &mut Nodes<A>,
    body: Body,
    bodies: &mut Vec<Body, A>,
    symbols: &mut Vec<Sym, A>,
) -> Result<(), AllocError>
    ensures nodes_unchanged { nodes.new ≡ nodes.old }
    ensures appends_string { OnOk result
        (symbols.new.items ≡ symbols.old.items ++ string_of nodes.old body) }
{
    if body.is_symbol() {
        symbols.push(Sym::new(body.number()))?;
        return Ok(());
    }
    bodies.clear();
    nodes.append_symbols(body, bodies)?;
    append_bodies(bodies, symbols)
}

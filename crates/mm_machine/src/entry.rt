//! The entries of the stack, and the formula of a rule with its variables replaced.

ghost use Rattle.std.specs.Prelude.{◌≡◌, ◌<◌, ◌≤◌, ◌+◌, ◌++◌, ◌∷◌, [], All, length, take, IfSome};
ghost use Rattle.std.specs.Prelude.{IfNone, ◌⊎◌};
ghost use Rattle.mm_nodes.specs.Strings.{first_node};
ghost use Rattle.mm_spec.specs.Limits.{formula_limit};
ghost use Rattle.mm_rule.specs.Rule.{IsVariableBelow};
ghost use Rattle.mm_machine.specs.Entries.{IsEntry};
ghost use Rattle.mm_machine.specs.Filled.{IsFilled, filled_parts};

use mm_nodes::{Body, Nodes};
use mm_rule::{PackedPart, RulePart};
use mm_spec::FORMULA_LIMIT;
use std::alloc::Allocator;

/// An entry. Its formula is the string of `typecode` and then that of `body`.
#[derive(Clone, Copy, Drop)]
pub struct Entry {
    /// The first symbol; none, if the formula has no symbols.
    pub typecode: Body,
    /// The symbols after the first.
    pub body: Body,
    /// How many symbols the body has.
    pub length: u32,
    /// How many nodes there are for this entry and those below it.
    pub needed: u32,
    /// The variables of its formula, as `Owners` tells them.
    pub mask: u64,
}

/// How many bodies stand for a formula, and how many symbols they have.
#[derive(Clone, Copy, Drop)]
pub struct Filled {
    pub count: usize,
    pub length: usize,
    /// How many nodes there are for these bodies.
    pub needed: usize,
    /// The variables of the formula, as `Owners` tells them.
    pub mask: u64,
}

/// Writes a body at an index of a list.
#[inline(always)]
fn put_body(body: Body, list: &mut [Body], index: usize)
    requires { index < length list.old }
    ensures length_stays { length list.new ≡ length list.old }
    ensures is_written { take (index + 1) list.new ≡ take index list.old ++ body ∷ [] }
{
    list[index] = body;
}

/// The one of two bodies that has the greater number. A node's number is greater than a symbol's,
/// and than those of the nodes before it.
#[inline(always)]
fn greater(first: Body, second: Body) -> Body
    ensures first_le { first ≤ result }
    ensures second_le { second ≤ result }
    ensures is_one_of_both { (result ≡ first) ⊎ (result ≡ second) }
{
    if first.number() < second.number() {
        second
    } else {
        first
    }
}

/// Writes bodies at the start of a list that stand for parts with their variables replaced. Returns
/// `None` if they have more symbols than the limit.
#[inline(always)]
pub fn fill<A: Allocator>(
    _nodes: &Nodes<A>,
    premises: &[Entry],
    parts: &[PackedPart],
    list: &mut [Body],
) -> Option<Filled>
    requires are_entries { All (IsEntry _nodes.now) premises.now }
    requires variables_in_range { All (IsVariableBelow (length premises.now)) parts.now }
    requires has_room { length parts.now ≤ length list.old }
    ensures length_stays { length list.new ≡ length list.old }
    ensures is_filled { IfSome result (λ f. IsFilled _nodes.now premises.now parts.now list.new f) }
    ensures is_too_long { IfNone result
        (formula_limit < length (filled_parts _nodes.now premises.now parts.now)) }
{
    let mut count: usize = 0;
    // How many symbols there are beyond one for each body.
    let mut more: usize = 0;
    let mut greatest = Body::symbol(0);
    let mut mask: u64 = 0;
    for part in parts {
        match part.to_part() {
            RulePart::Constant(symbol) => {
                put_body(Body::symbol(symbol.number()), list, count);
                count += 1;
            }
            RulePart::Variable(floating_index) => {
                let premise = premises[floating_index as usize];
                mask |= premise.mask;
                if premise.length > 0 {
                    put_body(premise.body, list, count);
                    count += 1;
                    more += premise.length as usize - 1;
                    greatest = greater(greatest, premise.body);
                    if more > FORMULA_LIMIT {
                        return None;
                    }
                }
            }
        }
    }
    let length = count.saturating_add(more);
    if length > FORMULA_LIMIT {
        return None;
    }
    Some(Filled {
        count,
        length,
        needed: nodes_for(greatest),
        mask,
    })
}

/// How many nodes there have to be for a body.
#[inline(always)]
pub fn nodes_for(body: Body) -> usize
    ensures needed_by_node { first_node ≤ body → first_node + result ≡ body + 1 }
    ensures not_by_symbol { body < first_node → result ≡ 0 }
{
    match body.index() {
        None => 0,
        Some(index) => index + 1,
    }
}

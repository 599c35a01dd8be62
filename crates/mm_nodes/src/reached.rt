//! The symbols of a string, by its nodes: a node is gone through once, however often the string has
//! it.

ghost use Rattle.std.specs.Prelude.{◌≡◌, ◌<◌, ◌≤◌, ℕ, [], length, get_or, true, false, OnOk, nat_lt};
ghost use Rattle.std.specs.List.{Contains, list_all};
ghost use Rattle.mm_nodes.specs.Strings.{strings_of, HaveSameSymbols};
ghost use Rattle.mm_nodes.specs.Store.{AreNodes, nodes_of};
ghost use Rattle.mm_nodes.specs.Reached.{ReachesToo, ReachesBodies};

use crate::body::Body;
use crate::heads::Head;
use crate::walk::bodies_of;
use std::alloc::{AllocError, Allocator};
use std::marker::Model;

/// Nodes that were reached, each once, in the order in which they were.
pub struct Reached<A: Allocator> {
    /// Their indices.
    nodes: Vec<usize, A>,
    /// For each node the index at which it may be in `nodes`.
    slots: Vec<usize, A>,
}

/// Dropped in one call: docs/PROOFS.md, "What a check costs".
impl<A: Allocator> Drop for Reached<A> {
    fn drop(self) {
        let Self { nodes: _, slots: _ } = self;
    }
}

impl<A: Allocator> Model for Reached<A> {
    ghost use Rattle.std.specs.Prelude.{ℕ, List};
    ghost use Rattle.mm_nodes.specs.Reached.{HaveSlots};

    ghost Value = { List ℕ };

    ghost view = { λ r. r.nodes.items };

    ghost invariant = { λ r. HaveSlots r.nodes.items r.slots.items };
}

impl<A: Allocator> Reached<A> {
    /// No nodes.
    pub fn new(alloc: A) -> Self
    where
        A: Copy,
        ensures { result ≡ [] }
    {
        Reached {
            nodes: Vec::new(alloc),
            slots: Vec::new(alloc),
        }
    }

    /// Removes all nodes.
    pub fn empty(&mut self)
        ensures { self.new ≡ [] }
    {
        self.nodes.clear();
    }

    /// Removes all nodes, and frees the memory of lists with more than `most_kept` elements.
    pub fn clear(&mut self, most_kept: usize)
        ensures { self.new ≡ [] }
    {
        self.nodes.clear();
        self.nodes.shrink_to(most_kept);
        if self.slots.len() > most_kept {
            self.slots.clear();
            self.slots.shrink_to(most_kept);
        }
    }

    /// How many nodes were reached: no more than there are, if they are all below `_count`.
    fn len(&self, _count: usize) -> usize
        requires { list_all (λ n. nat_lt n _count) self.now ≡ true }
        ensures is_length { result ≡ length self.now }
        ensures le_count { result ≤ _count }
    {
        self.nodes.len()
    }

    /// The node that was reached as the one with this index.
    fn at(&self, index: usize) -> usize
        requires { index < length self.now }
        ensures { result ≡ get_or self.now index 0 }
    {
        self.nodes[index]
    }

    /// Whether a node was reached.
    fn has(&self, node: usize) -> bool
        ensures has_node { result ≡ true → Contains self.now node }
        ensures lacks_node { result ≡ false → Contains self.now node → ⊥ }
    {
        if node >= self.slots.len() {
            return false;
        }
        let index = self.slots[node];
        index < self.nodes.len() && self.nodes[index] == node
    }

    /// Adds a node, unless it was reached before.
    fn add(&mut self, node: usize) -> Result<(), AllocError>
        ensures { OnOk result (ReachesToo node self.old self.new) }
    {
        if self.has(node) {
            return Ok(());
        }
        add_slots(node.saturating_add(1), &mut self.slots)?;
        let index = self.nodes.len();
        self.nodes.push(node)?;
        self.slots[node] = index;
        Ok(())
    }
}

/// Makes a list of slots at least so long.
fn add_slots<A: Allocator>(least: usize, slots: &mut Vec<usize, A>) -> Result<(), AllocError>
    ensures is_long { OnOk result (least ≤ length slots.new.items) }
    ensures slots_stay { (k : ℕ) → k < length slots.old.items
        → (k < length slots.new.items)
        × (get_or slots.new.items k 0 ≡ get_or slots.old.items k 0) }
{
    if least > slots.len() {
        slots.resize(least, 0)?;
    }
    Ok(())
}

/// Appends the bodies of a node that are symbols to a list, and reaches the others.
fn reach_bodies<A: Allocator>(
    bodies: &[Body],
    reached: &mut Reached<A>,
    list: &mut Vec<Body, A>,
) -> Result<(), AllocError>
    ensures { OnOk result
        (ReachesBodies bodies.now reached.old list.old.items reached.new list.new.items) }
{
    for body in bodies {
        match body.index() {
            None => list.push(*body)?,
            Some(node) => reached.add(node)?,
        }
    }
    Ok(())
}

/// Lists the symbols of a node's string, those of each of its nodes once.
pub fn list_symbols<A: Allocator>(
    heads: &[Head],
    bodies: &[Body],
    node: usize,
    reached: &mut Reached<A>,
    list: &mut Vec<Body, A>,
) -> Result<(), AllocError>
    requires are_nodes { AreNodes bodies.now heads.now }
    requires node_lt_length { node < length heads.now }
    requires none_reached { reached.old ≡ [] }
    requires list_empty { list.old.items ≡ [] }
    ensures { OnOk result
        (HaveSameSymbols (get_or (strings_of (nodes_of bodies.now heads.now)) node [])
        list.new.items) }
{
    reached.add(node)?;
    let mut index = 0usize;
    while index < reached.len(heads.len()) {
        let next = reached.at(index);
        reach_bodies(bodies_of(heads, bodies, next), reached, list)?;
        index += 1;
    }
    Ok(())
}

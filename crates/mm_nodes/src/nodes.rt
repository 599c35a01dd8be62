//! The nodes.

ghost use Rattle.std.specs.Prelude.{◌≡◌, ◌<◌, ◌≤◌, ◌++◌, ◌∷◌, [], length, take, All, OnOk, OnErr};
ghost use Rattle.std.specs.Prelude.{IfOk, IfSome, bytes_eq, true, List, ℕ};
ghost use Rattle.mm_nodes.specs.Strings.{first_node, string_of, joined_string_of, IsBody, IsMade};
ghost use Rattle.mm_nodes.specs.Strings.{Extends, HaveSameSymbols};
ghost use Rattle.mm_nodes.specs.Store.{nodes_of, AreNodes, IsBodySegment, segment_string};

use crate::body::Body;
use crate::body_list::BodyList;
use crate::facts::{Overlap, are_equal_by_parts};
use crate::heads::{Head, Segment};
use crate::reached::{Reached, list_symbols};
use crate::walk::{append_all, are_equal, bodies_of, length_of, segment_of};
use std::alloc::{AllocError, Allocator};
use std::marker::Model;

/// How many nodes there may be: one less than the numbers that stand for nodes.
const MAX_NODES: usize = 2_147_483_647;

/// Strings of so many symbols are compared by their parts first. If that takes as many steps as
/// they have symbols, they are compared by their symbols.
const LONG_STRING: usize = 4_096;

/// How many elements of a list stay allocated from one use to the next.
const MAX_ELEMENTS_KEPT: usize = 65_536;

/// Nodes, each by the list of its bodies.
pub struct Nodes<A: Allocator> {
    /// The bodies of the nodes, those of one node after those of the other.
    bodies: BodyList<A>,
    heads: Vec<Head, A>,
    /// What is to come of a string that is read, or of the first of two that are compared.
    left: Vec<Segment, A>,
    /// What is to come of the second string.
    right: Vec<Segment, A>,
    /// What two long strings come to that are compared by their parts.
    pending: Vec<Overlap, A>,
    /// What of that was seen before.
    seen: Vec<Overlap, A>,
    /// The nodes of a string whose symbols are listed once.
    reached: Reached<A>,
}

/// Dropped in one call: docs/PROOFS.md, "What a check costs".
impl<A: Allocator> Drop for Nodes<A> {
    fn drop(self) {
        let Self {
            bodies: _,
            heads: _,
            left: _,
            right: _,
            pending: _,
            seen: _,
            reached: _,
        } = self;
    }
}

impl<A: Allocator> Model for Nodes<A> {
    ghost use Rattle.std.specs.Prelude.{ℕ, List};
    ghost use Rattle.mm_nodes.specs.Store.{nodes_of, IsStore};

    ghost Value = { List (List ℕ) };

    ghost view = { λ n. nodes_of n.bodies n.heads.items };

    ghost invariant = { λ n. IsStore n.bodies n.heads.items };
}

/// Empties a list, and frees the memory of a long one.
fn empty<T: Drop, A: Allocator>(list: &mut Vec<T, A>)
    ensures { list.new.items ≡ [] }
{
    list.clear();
    list.shrink_to(MAX_ELEMENTS_KEPT);
}

impl<A: Allocator> Nodes<A> {
    /// No nodes.
    pub fn new(alloc: A) -> Self
    where
        A: Copy,
        ensures { result ≡ [] }
    {
        Nodes {
            bodies: BodyList::new(alloc),
            heads: Vec::new(alloc),
            left: Vec::new(alloc),
            right: Vec::new(alloc),
            pending: Vec::new(alloc),
            seen: Vec::new(alloc),
            reached: Reached::new(alloc),
        }
    }

    /// Removes all nodes, and frees the memory of long lists.
    pub fn clear(&mut self)
        ensures { self.new ≡ [] }
    {
        self.bodies.empty();
        empty(&mut self.heads);
        empty(&mut self.left);
        empty(&mut self.right);
        empty(&mut self.pending);
        empty(&mut self.seen);
        self.reached.clear(MAX_ELEMENTS_KEPT);
    }

    /// How many nodes there are.
    #[inline(always)]
    pub fn count(&self) -> usize
        ensures count_is { result ≡ length self.now }
        ensures count_lt { result < first_node }
    {
        self.heads.len()
    }

    /// Keeps the first `count` nodes.
    #[inline(always)]
    pub fn truncate(&mut self, count: usize)
        ensures nodes_are_taken { self.new ≡ take count self.old }
        ensures count_lt { length self.new < first_node }
    {
        if count < self.heads.len() {
            let end = self.heads[count].start as usize;
            self.heads.truncate(count);
            self.bodies.truncate(end);
        }
    }

    /// How many symbols the string of a body has.
    #[inline(always)]
    pub fn length(&self, body: Body) -> u32
        ensures { result ≡ length (string_of self.now body) }
    {
        length_of(&self.heads, self.bodies.as_slice(), body)
    }

    /// A body for the strings of other bodies, one after the other, which have `symbol_count`
    /// symbols together: one of them, if there is no other, or else a node. Fails only if out of
    /// memory, or if there are 2^31 - 1 nodes or their bodies are 2^32 or more, and then changes
    /// nothing.
    #[inline(always)]
    pub fn make(&mut self, bodies: &[Body], symbol_count: u32) -> Result<Body, AllocError>
        requires are_bodies { All (IsBody self.old) bodies.now }
        requires length_is { symbol_count ≡ length (joined_string_of self.old bodies.now) }
        ensures nodes_stay { Extends self.old self.new }
        ensures nodes_unchanged { OnErr result (self.new ≡ self.old) }
        ensures is_made { IfOk result (λ b. IsMade self.old self.new bodies.now b) }
    {
        if self.count() >= MAX_NODES {
            return Err(AllocError);
        }
        if bodies.len() > 1 {
            return self.push(bodies, symbol_count);
        }
        if bodies.is_empty() {
            Ok(Body::none())
        } else {
            Ok(bodies[0])
        }
    }

    /// Makes a node.
    #[inline(always)]
    fn push(&mut self, bodies: &[Body], symbol_count: u32) -> Result<Body, AllocError>
        requires has_room { length self.old < MAX_NODES }
        requires has_bodies { 0 < length bodies.now }
        requires are_bodies { All (IsBody self.old) bodies.now }
        requires length_is { symbol_count ≡ length (joined_string_of self.old bodies.now) }
        ensures nodes_stay { Extends self.old self.new }
        ensures nodes_unchanged { OnErr result (self.new ≡ self.old) }
        ensures is_made { IfOk result (λ b. IsMade self.old self.new bodies.now b) }
    {
        let start = self.bodies.len();
        let index = self.heads.len();
        if start.saturating_add(bodies.len()) > 4_294_967_295 {
            return Err(AllocError);
        }
        self.bodies.append(bodies)?;
        let head = Head {
            start: start as u32,
            end: self.bodies.len() as u32,
            length: symbol_count,
        };
        match self.heads.push(head) {
            Ok(()) => Ok(Body::node(index as u32)),
            Err(_) => {
                self.bodies.truncate(start);
                Err(AllocError)
            }
        }
    }

    /// Whether the string of a body is that of other bodies, one after the other, which have
    /// `symbol_count` symbols together. Fails only if out of memory.
    #[inline(always)]
    pub fn is_equal(
        &mut self,
        wanted: &[Body],
        symbol_count: u32,
        body: Body,
    ) -> Result<bool, AllocError>
        requires are_bodies { All (IsBody self.old) wanted.now }
        requires length_is { symbol_count ≡ length (joined_string_of self.old wanted.now) }
        ensures nodes_unchanged { self.new ≡ self.old }
        ensures tells_equal { IfOk result
            (λ r. r ≡ bytes_eq (string_of self.old body) (joined_string_of self.old wanted.now)) }
    {
        if symbol_count != self.length(body) {
            return Ok(false);
        }
        if symbol_count == 0 {
            return Ok(true);
        }
        if self.is_listed(wanted, body) {
            return Ok(true);
        }
        self.is_equal_by_symbols(wanted, symbol_count, body)
    }

    /// The bodies of a node; `None` for a body that is no node.
    #[inline(always)]
    pub fn bodies(&self, body: Body) -> Option<&[Body]>
        ensures { IfSome result (λ bs. string_of self.now body ≡ joined_string_of self.now bs.now) }
    {
        match body.index() {
            None => None,
            Some(index) => {
                if index >= self.heads.len() {
                    return None;
                }
                Some(bodies_of(&self.heads, self.bodies.as_slice(), index))
            }
        }
    }

    /// Whether these bodies are those of a node, or the body itself alone.
    #[inline(always)]
    fn is_listed(&self, wanted: &[Body], body: Body) -> bool
        ensures { result ≡ true → string_of self.now body ≡ joined_string_of self.now wanted.now }
    {
        match body.index() {
            None => wanted.len() == 1 && wanted[0] == body,
            Some(index) => {
                if index >= self.heads.len() {
                    return false;
                }
                bodies_of(&self.heads, self.bodies.as_slice(), index) == wanted
            }
        }
    }

    /// Whether the string of a body is that of other bodies, by a walk over both. By
    /// `symbol_count`, which is how many symbols they have, it chooses the walk.
    #[inline(never)]
    fn is_equal_by_symbols(
        &mut self,
        wanted: &[Body],
        symbol_count: u32,
        body: Body,
    ) -> Result<bool, AllocError>
        requires are_bodies { All (IsBody self.old) wanted.now }
        requires is_body { IsBody self.old body }
        requires lengths_equal { length (joined_string_of self.old wanted.now)
            ≡ length (string_of self.old body) }
        ensures nodes_unchanged { self.new ≡ self.old }
        ensures tells_equal { IfOk result
            (λ r. r ≡ bytes_eq (string_of self.old body) (joined_string_of self.old wanted.now)) }
    {
        let start = self.bodies.len();
        let answer = append_and_compare(
            &self.heads,
            &mut self.bodies,
            wanted,
            symbol_count,
            body,
            &mut self.left,
            &mut self.right,
            &mut self.pending,
            &mut self.seen,
        );
        self.bodies.truncate(start);
        answer
    }

    /// Appends the symbols of a body's string to a list.
    pub fn append_symbols(&mut self, body: Body, list: &mut Vec<Body, A>) -> Result<(), AllocError>
        ensures nodes_unchanged { self.new ≡ self.old }
        ensures symbols_are { OnOk result
            (list.new.items ≡ list.old.items ++ string_of self.old body) }
    {
        match body.index() {
            None => {
                list.push(body)?;
                Ok(())
            }
            Some(index) => {
                if index >= self.heads.len() {
                    return Ok(());
                }
                let opened = segment_of(&self.heads, index);
                let bodies = self.bodies.as_slice();
                append_all(&self.heads, bodies, opened, &mut self.left, list)
            }
        }
    }

    /// Replaces a list by the symbols of a body's string. Those of a node are listed once, however
    /// often the string has the node, so that this takes no more steps than the nodes have bodies.
    pub fn list_symbols(&mut self, body: Body, list: &mut Vec<Body, A>) -> Result<(), AllocError>
        ensures nodes_unchanged { self.new ≡ self.old }
        ensures symbols_are_same { OnOk result
            (HaveSameSymbols (string_of self.old body) list.new.items) }
    {
        list.clear();
        match body.index() {
            None => {
                list.push(body)?;
                Ok(())
            }
            Some(index) => {
                if index >= self.heads.len() {
                    return Ok(());
                }
                self.reached.empty();
                let bodies = self.bodies.as_slice();
                list_symbols(&self.heads, bodies, index, &mut self.reached, list)
            }
        }
    }
}

/// Returns where the bodies are whose strings are that of a body: those of its node, or the body
/// itself, if it is a symbol, which is appended.
#[inline(always)]
fn place_of<A: Allocator>(
    heads: &[Head],
    bodies: &mut BodyList<A>,
    body: Body,
) -> Result<Segment, AllocError>
    requires are_nodes { AreNodes bodies.old heads.now }
    requires is_body { IsBody (nodes_of bodies.old heads.now) body }
    ensures bodies_stay { (more : List ℕ) × (bodies.new ≡ bodies.old ++ more) }
    ensures is_segment { IfOk result (IsBodySegment bodies.new heads.now) }
    ensures has_string { IfOk result
        (λ s. segment_string bodies.new heads.now s
        ≡ string_of (nodes_of bodies.old heads.now) body) }
{
    match body.index() {
        Some(index) => Ok(segment_of(heads, index)),
        None => {
            let start = bodies.len();
            bodies.append(&[body])?;
            Ok(Segment {
                start,
                end: bodies.len(),
            })
        }
    }
}

/// Whether the string of `wanted` is that of `body`. Appends `wanted`, and a symbol, to the bodies
/// of the nodes, so that each string is that of a segment of one list; the caller takes them away
/// again.
fn append_and_compare<A: Allocator>(
    heads: &[Head],
    bodies: &mut BodyList<A>,
    wanted: &[Body],
    symbol_count: u32,
    body: Body,
    left: &mut Vec<Segment, A>,
    right: &mut Vec<Segment, A>,
    pending: &mut Vec<Overlap, A>,
    seen: &mut Vec<Overlap, A>,
) -> Result<bool, AllocError>
    requires are_nodes { AreNodes bodies.old heads.now }
    requires are_bodies { All (IsBody (nodes_of bodies.old heads.now)) wanted.now }
    requires is_body { IsBody (nodes_of bodies.old heads.now) body }
    requires lengths_equal { length (joined_string_of (nodes_of bodies.old heads.now) wanted.now)
        ≡ length (string_of (nodes_of bodies.old heads.now) body) }
    ensures bodies_stay { take (length bodies.old) bodies.new ≡ bodies.old }
    ensures tells_equal { IfOk result
        (λ r. r ≡ bytes_eq (string_of (nodes_of bodies.old heads.now) body)
        (joined_string_of (nodes_of bodies.old heads.now) wanted.now)) }
{
    let start = bodies.len();
    bodies.append(wanted)?;
    let first = Segment {
        start,
        end: bodies.len(),
    };
    let second = place_of(heads, bodies, body)?;
    compare(
        heads,
        bodies.as_slice(),
        first,
        second,
        symbol_count,
        body,
        left,
        right,
        pending,
        seen,
    )
}

/// Whether two strings are equal, of which the second is that of a body. They have the same length,
/// which is `symbol_count`: it decides only how they are compared.
fn compare<A: Allocator>(
    heads: &[Head],
    bodies: &[Body],
    first: Segment,
    second: Segment,
    symbol_count: u32,
    body: Body,
    left: &mut Vec<Segment, A>,
    right: &mut Vec<Segment, A>,
    pending: &mut Vec<Overlap, A>,
    seen: &mut Vec<Overlap, A>,
) -> Result<bool, AllocError>
    requires are_nodes { AreNodes bodies.now heads.now }
    requires first_is_segment { IsBodySegment bodies.now heads.now first }
    requires second_is_segment { IsBodySegment bodies.now heads.now second }
    requires is_body { IsBody (nodes_of bodies.now heads.now) body }
    requires second_is_body { segment_string bodies.now heads.now second
        ≡ string_of (nodes_of bodies.now heads.now) body }
    requires lengths_equal { length (segment_string bodies.now heads.now first)
        ≡ length (segment_string bodies.now heads.now second) }
    ensures { IfOk result
        (λ b. b ≡ bytes_eq (segment_string bodies.now heads.now second)
        (segment_string bodies.now heads.now first)) }
{
    let steps = symbol_count as usize;
    if steps >= LONG_STRING {
        let found = are_equal_by_parts(heads, bodies, first, body, steps, pending, seen)?;
        if let Some(answer) = found {
            return Ok(answer);
        }
    }
    are_equal(heads, bodies, first, second, left, right)
}

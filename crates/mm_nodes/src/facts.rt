//! Comparing long strings by their parts. That two strings are equal is a fact about how they lie
//! over each other, and it follows from such facts about their parts. Each fact is taken apart
//! once: strings that are made of the same nodes again and again come to few different facts,
//! however many symbols they have.

ghost use Rattle.std.specs.Prelude.{◌≡◌, ◌<◌, ◌≤◌, ◌+◌, ◌^◌, All, IfOk, IfSome, OnOk, length};
ghost use Rattle.std.specs.Prelude.{bytes_eq, [], List, ℕ, true, false};
ghost use Rattle.mm_nodes.specs.Strings.{string_of, IsBody, first_node};
ghost use Rattle.mm_nodes.specs.Store.{AreNodes, IsBodySegment, nodes_of, segment_string};
ghost use Rattle.mm_nodes.specs.Store.{segment_bodies};
ghost use Rattle.mm_nodes.specs.Overlaps.{Agree, IsOverlap, Holds, Comes};

use crate::body::Body;
use crate::heads::{Head, Segment};
use crate::walk::{length_of, segment_of};
use std::alloc::{AllocError, Allocator};

/// For how many steps there is a slot for a fact that was seen.
const STEPS_PER_SLOT: usize = 16;

/// The least number of slots for facts that were seen.
const MIN_SLOTS: usize = 256;

/// The greatest number of slots for facts that were seen.
const MAX_SLOTS: usize = 16_384;

/// That a string is the same as another from one of the other's symbols on, as far as both go.
#[derive(Clone, Copy, PartialEq, Eq)]
pub struct Overlap {
    /// The body that begins first.
    pub first: Body,
    /// The number of symbols of the first before the second begins.
    pub offset: u32,
    pub second: Body,
}

/// A fact that holds for any nodes.
fn any_symbol() -> Overlap
    ensures { (nodes : List (List ℕ)) → Holds nodes result }
{
    Overlap {
        first: Body::symbol(0),
        offset: 0,
        second: Body::symbol(0),
    }
}

/// The slot of a fact, by its numbers mixed. The factors are odd numbers whose bits look random:
/// the first is of xxHash, the others are as in MurmurHash's last step. Any would do, since a slot
/// only says where to look.
fn slot_of(overlap: Overlap, slots: usize) -> usize
    requires { 0 < slots }
    ensures { result < slots }
{
    let mixed = overlap.first.number().wrapping_mul(0x9E37_79B1)
        ^ overlap.offset.wrapping_mul(0x85EB_CA6B)
        ^ overlap.second.number().wrapping_mul(0xC2B2_AE35);
    (mixed ^ (mixed >> 15)) as usize % slots
}

/// Puts a fact off, unless it was seen or says that a string is itself.
fn require<A: Allocator>(
    overlap: Overlap,
    seen: &mut [Overlap],
    pending: &mut Vec<Overlap, A>,
) -> Result<(), AllocError>
    requires { 0 < length seen.old }
    ensures { OnOk result
        ((nodes : List (List ℕ)) → IsOverlap nodes overlap → (n : ℕ)
        → overlap.first + overlap.second < n
        → Comes nodes n (Holds nodes overlap) pending.old.items pending.new.items seen.old
        seen.new) }
{
    if overlap.offset == 0 && overlap.first == overlap.second {
        return Ok(());
    }
    let slot = slot_of(overlap, seen.len());
    if seen[slot] == overlap {
        return Ok(());
    }
    pending.push(overlap)?;
    seen[slot] = overlap;
    Ok(())
}

/// Puts off the facts from which it follows that bodies, of which the first begins at symbol
/// `start`, have the same symbols as a body that begins at symbol `other_start`.
fn require_parts<A: Allocator>(
    heads: &[Head],
    bodies: &[Body],
    parts: Segment,
    start: usize,
    other: Body,
    other_start: usize,
    seen: &mut [Overlap],
    pending: &mut Vec<Overlap, A>,
) -> Result<(), AllocError>
    requires are_nodes { AreNodes bodies.now heads.now }
    requires are_parts { IsBodySegment bodies.now heads.now parts }
    requires is_body { IsBody (nodes_of bodies.now heads.now) other }
    requires some_slots { 0 < length seen.old }
    requires other_start_lt { other_start < 2 ^ 32 }
    ensures { OnOk result
        ((n : ℕ) → All (λ b. b + other < n) (segment_bodies bodies.now parts)
        → Comes (nodes_of bodies.now heads.now) n
        (Agree (segment_string bodies.now heads.now parts) start
        (string_of (nodes_of bodies.now heads.now) other) other_start)
        pending.old.items pending.new.items seen.old seen.new) }
{
    let other_end = other_start + length_of(heads, bodies, other) as usize;
    let mut rest = parts;
    let mut at = start;
    while rest.start < rest.end && at < other_end {
        let body = bodies[rest.start];
        let end = at + length_of(heads, bodies, body) as usize;
        if at < end && other_start < end {
            require(between(body, at, other, other_start), seen, pending)?;
        }
        at = end;
        rest.start += 1;
    }
    Ok(())
}

/// How two bodies lie over each other that begin at these symbols.
fn between(one: Body, at: usize, other: Body, other_at: usize) -> Overlap
    requires at_lt { at < other_at + 2 ^ 32 }
    requires other_at_lt { other_at < at + 2 ^ 32 }
    ensures begins_first { at ≤ other_at
        → (result.first ≡ one) × (result.second ≡ other) × (at + result.offset ≡ other_at) }
    ensures begins_second { other_at < at
        → (result.first ≡ other) × (result.second ≡ one) × (other_at + result.offset ≡ at) }
{
    if at <= other_at {
        Overlap {
            first: one,
            offset: (other_at - at) as u32,
            second: other,
        }
    } else {
        Overlap {
            first: other,
            offset: (at - other_at) as u32,
            second: one,
        }
    }
}

/// Puts off the facts from which a fact follows, by the bodies of the first, which is a node.
fn take_first_apart<A: Allocator>(
    heads: &[Head],
    bodies: &[Body],
    overlap: Overlap,
    index: usize,
    seen: &mut [Overlap],
    pending: &mut Vec<Overlap, A>,
) -> Result<(), AllocError>
    requires are_nodes { AreNodes bodies.now heads.now }
    requires is_overlap { IsOverlap (nodes_of bodies.now heads.now) overlap }
    requires is_node { overlap.first ≡ first_node + index }
    requires some_slots { 0 < length seen.old }
    ensures { OnOk result (Comes (nodes_of bodies.now heads.now) (overlap.first + overlap.second)
        (Holds (nodes_of bodies.now heads.now) overlap) pending.old.items pending.new.items seen.old
        seen.new) }
{
    let opened = segment_of(heads, index);
    let offset = overlap.offset as usize;
    require_parts(
        heads,
        bodies,
        opened,
        0,
        overlap.second,
        offset,
        seen,
        pending,
    )
}

/// Puts off the facts from which a fact follows, by the bodies of the second, which is a node.
fn take_second_apart<A: Allocator>(
    heads: &[Head],
    bodies: &[Body],
    overlap: Overlap,
    index: usize,
    seen: &mut [Overlap],
    pending: &mut Vec<Overlap, A>,
) -> Result<(), AllocError>
    requires are_nodes { AreNodes bodies.now heads.now }
    requires is_overlap { IsOverlap (nodes_of bodies.now heads.now) overlap }
    requires is_node { overlap.second ≡ first_node + index }
    requires some_slots { 0 < length seen.old }
    ensures { OnOk result (Comes (nodes_of bodies.now heads.now) (overlap.first + overlap.second)
        (Holds (nodes_of bodies.now heads.now) overlap) pending.old.items pending.new.items seen.old
        seen.new) }
{
    let opened = segment_of(heads, index);
    let offset = overlap.offset as usize;
    require_parts(
        heads,
        bodies,
        opened,
        offset,
        overlap.first,
        0,
        seen,
        pending,
    )
}

/// Puts off the facts from which a fact follows. Returns `false` if it doesn't hold.
fn take_apart<A: Allocator>(
    heads: &[Head],
    bodies: &[Body],
    overlap: Overlap,
    seen: &mut [Overlap],
    pending: &mut Vec<Overlap, A>,
) -> Result<bool, AllocError>
    requires are_nodes { AreNodes bodies.now heads.now }
    requires is_overlap { IsOverlap (nodes_of bodies.now heads.now) overlap }
    requires some_slots { 0 < length seen.old }
    ensures comes_to_parts { IfOk result (λ r. r ≡ true
        → Comes (nodes_of bodies.now heads.now) (overlap.first + overlap.second)
        (Holds (nodes_of bodies.now heads.now) overlap) pending.old.items pending.new.items seen.old
        seen.new) }
    ensures does_not_hold { IfOk result (λ r. r ≡ false
        → Holds (nodes_of bodies.now heads.now) overlap → ⊥) }
{
    let first_length = length_of(heads, bodies, overlap.first);
    let second_length = length_of(heads, bodies, overlap.second);
    if first_length >= second_length {
        if let Some(index) = overlap.first.index() {
            take_first_apart(heads, bodies, overlap, index, seen, pending)?;
            return Ok(true);
        }
    }
    match overlap.second.index() {
        Some(index) => {
            take_second_apart(heads, bodies, overlap, index, seen, pending)?;
            Ok(true)
        }
        None => Ok(overlap.first == overlap.second),
    }
}

/// Of how many bodies a body is made.
fn part_count(heads: &[Head], body: Body) -> usize {
    match body.index() {
        None => 1,
        Some(index) => {
            if index >= heads.len() {
                return 0;
            }
            let opened = segment_of(heads, index);
            opened.end.saturating_sub(opened.start)
        }
    }
}

/// Whether the string of a segment of bodies is that of a body. They have the same length, and all
/// that was seen holds. `None` if it takes more than so many steps to find out.
fn are_equal_by_facts<A: Allocator>(
    heads: &[Head],
    bodies: &[Body],
    parts: Segment,
    body: Body,
    steps: usize,
    seen: &mut [Overlap],
    pending: &mut Vec<Overlap, A>,
) -> Result<Option<bool>, AllocError>
    requires are_nodes { AreNodes bodies.now heads.now }
    requires are_parts { IsBodySegment bodies.now heads.now parts }
    requires is_body { IsBody (nodes_of bodies.now heads.now) body }
    requires lengths_equal { length (segment_string bodies.now heads.now parts)
        ≡ length (string_of (nodes_of bodies.now heads.now) body) }
    requires some_slots { 0 < length seen.old }
    requires seen_hold { All (Holds (nodes_of bodies.now heads.now)) seen.old }
    requires none_pending { pending.old.items ≡ [] }
    ensures { IfOk result (λ r. IfSome r
        (λ b. b ≡ bytes_eq (string_of (nodes_of bodies.now heads.now) body)
        (segment_string bodies.now heads.now parts))) }
{
    require_parts(heads, bodies, parts, 0, body, 0, seen, pending)?;
    let mut left = steps;
    while let Some(overlap) = pending.pop() {
        // A step for each part that may be looked at, and one for the fact itself.
        let cost = part_count(heads, overlap.first)
            .saturating_add(part_count(heads, overlap.second))
            .saturating_add(1);
        if left < cost {
            return Ok(None);
        }
        left -= cost;
        if !take_apart(heads, bodies, overlap, seen, pending)? {
            return Ok(Some(false));
        }
    }
    Ok(Some(true))
}

/// Whether the string of a segment of bodies is that of a body. They have the same length. `None`
/// if it takes more than so many steps to find out.
pub fn are_equal_by_parts<A: Allocator>(
    heads: &[Head],
    bodies: &[Body],
    parts: Segment,
    body: Body,
    steps: usize,
    pending: &mut Vec<Overlap, A>,
    seen: &mut Vec<Overlap, A>,
) -> Result<Option<bool>, AllocError>
    requires are_nodes { AreNodes bodies.now heads.now }
    requires are_parts { IsBodySegment bodies.now heads.now parts }
    requires is_body { IsBody (nodes_of bodies.now heads.now) body }
    requires lengths_equal { length (segment_string bodies.now heads.now parts)
        ≡ length (string_of (nodes_of bodies.now heads.now) body) }
    ensures { IfOk result (λ r. IfSome r
        (λ b. b ≡ bytes_eq (string_of (nodes_of bodies.now heads.now) body)
        (segment_string bodies.now heads.now parts))) }
{
    let slots = (steps / STEPS_PER_SLOT).clamp(MIN_SLOTS, MAX_SLOTS);
    seen.clear();
    seen.resize(slots, any_symbol())?;
    pending.clear();
    are_equal_by_facts(heads, bodies, parts, body, steps, seen, pending)
}

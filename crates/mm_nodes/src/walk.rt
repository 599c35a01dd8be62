//! Walks over strings, without recursion. What is still to be read is put off in lists that the
//! caller lends and that are emptied first (`later`), so that their memory is used again. `heads`
//! has for each node where its bodies are (`heads.rt`).

ghost use Rattle.std.specs.Prelude.{◌≡◌, ◌<◌, ◌≤◌, ◌+◌, ◌-◌, ◌++◌, [], ◌∷◌, length, OnOk, IfOk};
ghost use Rattle.std.specs.Prelude.{get_or, slice_index_or, List, bytes_eq, IfNone, IfSome, min};
ghost use Rattle.mm_nodes.specs.Strings.{first_node, strings_of, string_of};
ghost use Rattle.mm_nodes.specs.Store.{AreNodes, IsBodySegment, nodes_of, segment_string, no_head};
ghost use Rattle.mm_nodes.specs.Store.{MayPutOff, segment, IsSegmentOf, AreSame};
ghost use Rattle.mm_nodes.specs.Store.{IsFirstDifference};

use crate::body::Body;
use crate::heads::{Head, Segment};
use std::alloc::{AllocError, Allocator};

/// How many symbols a body's string has.
#[inline(always)]
pub fn length_of(heads: &[Head], _bodies: &[Body], body: Body) -> u32
    requires { AreNodes _bodies.now heads.now }
    ensures { result ≡ length (string_of (nodes_of _bodies.now heads.now) body) }
{
    match body.index() {
        None => 1,
        Some(index) => {
            if index < heads.len() {
                heads[index].length
            } else {
                0
            }
        }
    }
}

/// Where the bodies of a node are.
#[inline(always)]
pub fn segment_of(heads: &[Head], index: usize) -> Segment
    requires { index < length heads.now }
    ensures { IsSegmentOf heads.now index result }
{
    let head = heads[index];
    Segment {
        start: head.start as usize,
        end: head.end as usize,
    }
}

/// The bodies of a node.
#[inline(always)]
pub fn bodies_of<'a>(heads: &[Head], bodies: &'a [Body], index: usize) -> &'a [Body]
    requires are_nodes { AreNodes bodies.now heads.now }
    requires index_lt_length { index < length heads.now }
    ensures { result.now ≡ slice_index_or (nodes_of bodies.now heads.now) index [] }
{
    let opened = segment_of(heads, index);
    &bodies[opened.start..opened.end]
}

/// Puts off what a segment has after its first body, if it has more.
#[inline(always)]
fn put_off<A: Allocator>(from: Segment, later: &mut Vec<Segment, A>) -> Result<(), AllocError>
    requires { from.start < from.end }
    ensures { OnOk result (MayPutOff from later.old.items later.new.items) }
{
    let start = from.start + 1;
    if start < from.end {
        later.push(Segment {
            start,
            end: from.end,
        })?;
    }
    Ok(())
}

/// At which of the first bodies of two segments they differ first; `None` if they don't differ, as
/// far as both go.
#[inline(always)]
fn first_difference(bodies: &[Body], left: Segment, right: Segment) -> Option<usize>
    requires left_has_bodies { left.start < left.end }
    requires left_is_in { left.end ≤ length bodies.now }
    requires right_has_bodies { right.start < right.end }
    requires right_is_in { right.end ≤ length bodies.now }
    ensures none_differs { IfNone result
        (AreSame bodies.now left.start right.start
        (min (left.end - left.start) (right.end - right.start))) }
    ensures is_first { IfSome result (IsFirstDifference bodies.now left right) }
{
    let both = (left.end - left.start).min(right.end - right.start);
    let mut same = 0;
    // Both have a first body, so that the end is tested after it.
    loop {
        if !(bodies[left.start + same] == bodies[right.start + same]) {
            return Some(same);
        }
        same += 1;
        if same == both {
            return None;
        }
    }
}

/// Whether two strings are equal. They have the same length.
pub fn are_equal<A: Allocator>(
    heads: &[Head],
    bodies: &[Body],
    first: Segment,
    second: Segment,
    left_later: &mut Vec<Segment, A>,
    right_later: &mut Vec<Segment, A>,
) -> Result<bool, AllocError>
    requires are_nodes { AreNodes bodies.now heads.now }
    requires first_is_segment { IsBodySegment bodies.now heads.now first }
    requires second_is_segment { IsBodySegment bodies.now heads.now second }
    requires lengths_equal { length (segment_string bodies.now heads.now first)
        ≡ length (segment_string bodies.now heads.now second) }
    ensures { IfOk result
        (λ b. b ≡ bytes_eq (segment_string bodies.now heads.now second)
        (segment_string bodies.now heads.now first)) }
{
    left_later.clear();
    right_later.clear();
    let mut left = first;
    let mut right = second;
    loop {
        if left.start >= left.end {
            match left_later.pop() {
                None => return Ok(true),
                Some(next) => left = next,
            }
        } else if right.start >= right.end {
            match right_later.pop() {
                None => return Ok(true),
                Some(next) => right = next,
            }
        } else {
            let same = match first_difference(bodies, left, right) {
                None => {
                    let both = (left.end - left.start).min(right.end - right.start);
                    left.start += both;
                    right.start += both;
                    continue;
                }
                Some(same) => same,
            };
            left.start += same;
            right.start += same;
            let a = bodies[left.start];
            let b = bodies[right.start];
            match (a.index(), b.index()) {
                (None, None) => return Ok(false),
                (Some(index), None) => {
                    put_off(left, left_later)?;
                    left = segment_of(heads, index);
                }
                (None, Some(index)) => {
                    put_off(right, right_later)?;
                    right = segment_of(heads, index);
                }
                (Some(i), Some(j)) => {
                    if length_of(heads, bodies, a) >= length_of(heads, bodies, b) {
                        put_off(left, left_later)?;
                        left = segment_of(heads, i);
                    } else {
                        put_off(right, right_later)?;
                        right = segment_of(heads, j);
                    }
                }
            }
        }
    }
}

/// Appends the symbols of a segment of bodies to a list.
pub fn append_all<A: Allocator>(
    heads: &[Head],
    bodies: &[Body],
    all: Segment,
    later: &mut Vec<Segment, A>,
    list: &mut Vec<Body, A>,
) -> Result<(), AllocError>
    requires are_nodes { AreNodes bodies.now heads.now }
    requires is_segment { IsBodySegment bodies.now heads.now all }
    ensures { OnOk result
        (list.new.items ≡ list.old.items ++ segment_string bodies.now heads.now all) }
{
    later.clear();
    let mut rest = all;
    loop {
        if rest.start >= rest.end {
            match later.pop() {
                None => return Ok(()),
                Some(next) => rest = next,
            }
        } else {
            let body = bodies[rest.start];
            match body.index() {
                None => {
                    list.push(body)?;
                    rest.start += 1;
                }
                Some(index) => {
                    put_off(rest, later)?;
                    rest = segment_of(heads, index);
                }
            }
        }
    }
}

//! A list of bodies to which bodies are appended by a few instructions.

ghost use Rattle.std.specs.Prelude.{◌≡◌, ◌≤◌, ◌+◌, ◌++◌, [], length, take, vec_len, OnOk, OnErr};

use crate::body::Body;
use crate::copy::put_bodies;
use std::alloc::{AllocError, Allocator};
use std::marker::Model;

/// How much longer than required the buffer becomes when it grows.
const SPARE_ROOM: usize = 256;

/// The maximum length of a buffer that stays allocated from proof to proof.
const MAX_RETAINED_LEN: usize = 65_536;

/// A list of bodies. Its buffer is mostly longer, so an append mostly only writes.
#[derive(Drop)]
pub struct BodyList<A: Allocator> {
    /// The bodies, and behind them any others, which will be written over.
    buffer: Vec<Body, A>,
    /// How many bodies there are.
    count: usize,
}

impl<A: Allocator> Model for BodyList<A> {
    ghost use Rattle.std.specs.Prelude.{◌≤◌, ℕ, List, length, take};

    ghost Value = { List ℕ };

    ghost view = { λ l. take l.count l.buffer.items };

    ghost invariant = { λ l. l.count ≤ length l.buffer.items };
}

/// Makes room in the buffer for at least `more` bodies after the first `count`.
#[cold]
#[inline(never)]
fn make_room<A: Allocator>(
    buffer: &mut Vec<Body, A>,
    count: usize,
    more: usize,
) -> Result<(), AllocError>
    requires { count ≤ vec_len buffer.old }
    ensures has_room { OnOk result (count + more ≤ vec_len buffer.new) }
    ensures length_grows { vec_len buffer.old ≤ vec_len buffer.new }
    ensures bodies_stay { take count buffer.new.items ≡ take count buffer.old.items }
{
    match count.checked_add(more) {
        None => Err(AllocError),
        Some(least) => {
            if least <= buffer.len() {
                return Ok(());
            }
            buffer.resize(least.saturating_add(SPARE_ROOM), Body::symbol(0))
        }
    }
}

impl<A: Allocator> BodyList<A> {
    /// No bodies.
    pub fn new(alloc: A) -> Self
        ensures { result ≡ [] }
    {
        BodyList {
            buffer: Vec::new(alloc),
            count: 0,
        }
    }

    /// How many bodies there are.
    pub fn len(&self) -> usize
        ensures { result ≡ length self.now }
    {
        self.count
    }

    /// The bodies.
    pub fn as_slice(&self) -> &[Body]
        ensures { result.now ≡ self.now }
    {
        &self.buffer[..self.count]
    }

    /// Appends bodies.
    #[inline(always)]
    pub fn append(&mut self, bodies: &[Body]) -> Result<(), AllocError>
        ensures appends_bodies { OnOk result (self.new ≡ self.old ++ bodies.now) }
        ensures unchanged_if_err { OnErr result (self.new ≡ self.old) }
    {
        if bodies.len() > self.buffer.len() - self.count {
            make_room(&mut self.buffer, self.count, bodies.len())?;
        }
        put_bodies(bodies, &mut self.buffer, self.count);
        self.count += bodies.len();
        Ok(())
    }

    /// Keeps the first `count` bodies.
    pub fn truncate(&mut self, count: usize)
        ensures { self.new ≡ take count self.old }
    {
        if count < self.count {
            self.count = count;
        }
    }

    /// Removes all bodies, and frees the memory of a long list.
    pub fn empty(&mut self)
        ensures { self.new ≡ [] }
    {
        self.count = 0;
        if self.buffer.len() > MAX_RETAINED_LEN {
            self.buffer.clear();
            self.buffer.shrink_to(MAX_RETAINED_LEN);
        }
    }
}

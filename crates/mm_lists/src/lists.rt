//! Lists, concatenated.

ghost use Rattle.std.specs.Prelude.{◌≡◌, ◌<◌, ◌≤◌, ◌^◌, ◌++◌, ◌∷◌, [], OnOk, OnErr, length};
ghost use Rattle.std.specs.Prelude.{slice_index_or, slice_range, sum_by};
ghost use Rattle.mm_lists.specs.Lists.{cut, joined, with_end, AreBounds};

use std::alloc::{AllocError, Allocator};
use std::marker::Model;

/// A growing list of lists. They are concatenated into one, so a short list costs no allocation of
/// its own. `bounds` is a 0 and then the index in `items` at which each list ends: so the bound at
/// a list's index is where it begins, and the next bound is where it ends. As long as there are no
/// lists, `bounds` may be empty: the 0 comes with the first of them. A bound has 32 bits.
pub struct Lists<T, A: Allocator> {
    items: Vec<T, A>,
    bounds: Vec<u32, A>,
}

/// Dropped in one call: docs/PROOFS.md, "What a check costs".
impl<T: Drop, A: Allocator> Drop for Lists<T, A> {
    fn drop(self) {
        let Self {
            items: _,
            bounds: _,
        } = self;
    }
}

impl<T, A: Allocator> Model for Lists<T, A> {
    ghost use Rattle.std.specs.Prelude.{List, length};
    ghost use Rattle.mm_lists.specs.Lists.{cut, AreBounds};

    ghost Value = { List (List T) };

    ghost view = { λ l. cut l.bounds.items l.items.items };

    ghost invariant = { λ l. AreBounds l.bounds.items (length l.items.items) };
}

/// Appends to `bounds` that a list ends where these elements do, and if it is the first one, that
/// it begins at 0. Fails only if out of memory, or if there are 2^32 elements or more, and then
/// changes nothing.
pub fn end_list<T, A: Allocator>(
    items: &Vec<T, A>,
    bounds: &mut Vec<u32, A>,
) -> Result<(), AllocError>
    ensures bound_is_added { OnOk result
        (bounds.new.items ≡ with_end bounds.old.items (length items.now.items)) }
    ensures bounds_unchanged { OnErr result (bounds.new.items ≡ bounds.old.items) }
{
    let Ok(end) = u32::try_from(items.len()) else {
        return Err(AllocError);
    };
    if bounds.is_empty() {
        bounds.extend_from_slice(&[0, end])?;
    } else {
        bounds.push(end)?;
    }
    Ok(())
}

/// The elements from index `from` up to, but not including, index `to`.
#[inline(always)]
fn items_between<T, A: Allocator>(items: &Vec<T, A>, from: usize, to: usize) -> &[T]
    requires from_le_to { from ≤ to }
    requires to_le_length { to ≤ length items.now.items }
    ensures { result.now ≡ slice_range items.now.items from to }
{
    &items[from..to]
}

impl<T, A: Allocator> Lists<T, A> {
    /// No lists.
    pub fn new(alloc: A) -> Self
    where
        A: Copy,
        ensures { result ≡ [] }
    {
        Lists {
            items: Vec::new(alloc),
            bounds: Vec::new(alloc),
        }
    }

    /// No lists, with capacity for so many lists that have so many elements together, so that they
    /// needn't be moved as they grow. Capacity that is never used takes no physical memory. If
    /// there isn't memory for it, the lists begin without it.
    pub fn with_expected_capacity(alloc: A, list_count: usize, item_count: usize) -> Self
    where
        A: Copy,
        ensures { result ≡ [] }
    {
        let mut lists = Lists::new(alloc);
        match lists.items.reserve(item_count) {
            Ok(()) => {}
            Err(_) => {}
        }
        match lists.bounds.reserve(list_count.saturating_add(1)) {
            Ok(()) => {}
            Err(_) => {}
        }
        lists
    }

    /// The lists whose ends [`end_list`] noted in `bounds`.
    pub fn from_ends(items: Vec<T, A>, bounds: Vec<u32, A>) -> Self
        requires { AreBounds bounds.items (length items.items) }
        ensures { result ≡ cut bounds.items items.items }
    {
        Lists { items, bounds }
    }

    /// How many lists there are.
    pub fn len(&self) -> usize
        ensures { result ≡ length self.now }
    {
        self.bounds.len().saturating_sub(1)
    }

    /// How many elements the lists have together.
    pub fn item_count(&self) -> usize
        ensures { result ≡ sum_by length self.now }
    {
        self.items.len()
    }

    /// Appends a list. Fails only if out of memory, or if there are then 2^32 elements or more, and
    /// then changes nothing.
    pub fn push(&mut self, list: &[T]) -> Result<(), AllocError>
    where
        T: Copy,
        ensures list_is_added { OnOk result (self.new ≡ self.old ++ list.now ∷ []) }
        ensures lists_unchanged { OnErr result (self.new ≡ self.old) }
    {
        let before = self.items.len();
        self.items.extend_from_slice(list)?;
        match end_list(&self.items, &mut self.bounds) {
            Ok(()) => Ok(()),
            Err(_) => {
                self.items.truncate(before);
                Err(AllocError)
            }
        }
    }

    /// The list with this index, counted from 0.
    #[inline(always)]
    pub fn get(&self, index: usize) -> &[T]
        requires { index < length self.now }
        ensures is_list { result.now ≡ slice_index_or self.now index [] }
        ensures length_lt_2_32 { length result.now < 2 ^ 32 }
    {
        // The end is read first: the test that its index is in range is one for the beginning too.
        let end = self.bounds[index + 1] as usize;
        items_between(&self.items, self.bounds[index] as usize, end)
    }

    /// The lists with indices from `from` up to, but not including, `to`, joined into one.
    pub fn between(&self, from: usize, to: usize) -> &[T]
        requires from_le_to { from ≤ to }
        requires to_le_count { to ≤ length self.now }
        ensures { result.now ≡ joined (slice_range self.now from to) }
    {
        // Where there are no lists yet, there may be no bounds.
        if from == to {
            return &[];
        }
        items_between(
            &self.items,
            self.bounds[from] as usize,
            self.bounds[to] as usize,
        )
    }
}

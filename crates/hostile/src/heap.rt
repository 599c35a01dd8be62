//! An allocator that refuses one growth of memory.

use std::alloc::{AllocError, Allocator};
use std::sync::atomic::{AtomicU64, Ordering};

/// How many growths there are up to the refused one if none is to be refused: more than any test
/// has.
pub(crate) const NONE_REFUSED: u64 = 0x4000_0000_0000_0000;

/// An allocator that passes each call on to another one, except for one growth of memory, which it
/// refuses. A call gets a `&` to it, and so do the call's threads: a growth of any of them counts.
pub struct Refusing<B: Allocator> {
    inner: B,
    /// How many growths there are up to the refused one. After that it goes below 0, and so wraps
    /// to the greatest number.
    growths_left: AtomicU64,
}

impl<B: Allocator> Refusing<B> {
    /// An allocator that refuses no growth yet.
    pub(crate) fn new(inner: B) -> Refusing<B> {
        Refusing {
            inner,
            growths_left: AtomicU64::new(NONE_REFUSED),
        }
    }

    /// From here on refuses only this growth, counted from the next one, which is 1.
    pub(crate) fn refuse(&self, growth: u64) {
        self.growths_left.store(growth, Ordering::SeqCst);
    }

    /// Refuses no growth from here on.
    pub(crate) fn refuse_none(&self) {
        self.growths_left.store(NONE_REFUSED, Ordering::SeqCst);
    }

    /// A number that each growth changes, and that nothing else changes.
    pub(crate) fn count(&self) -> u64 {
        self.growths_left.load(Ordering::SeqCst)
    }

    /// Whether the growth that was to be refused came, and was refused.
    pub(crate) fn has_refused(&self) -> bool {
        let growths_left = self.count();
        growths_left == 0 || growths_left > NONE_REFUSED
    }
}

impl<B: Allocator> Drop for Refusing<B> {
    fn drop(self) {
        let Self {
            inner: _,
            growths_left: _,
        } = self;
    }
}

/// Counts a growth, and returns whether it is the one to refuse.
fn count_growth(growths_left: &AtomicU64) -> bool {
    growths_left.fetch_sub(1, Ordering::SeqCst) == 1
}

unsafe impl<B: Allocator> Allocator for Refusing<B> {
    ghost dealloc_token = { λ heap ty ptr. B.dealloc_token heap.inner ty ptr };

    fn allocate(&self, size: usize, align: usize) -> Result<*mut u8, AllocError> {
        if count_growth(&self.growths_left) {
            return Err(AllocError);
        }
        self.inner.allocate(size, align)
    }

    unsafe fn deallocate(&self, ptr: *mut u8, size: usize, align: usize) {
        self.inner.deallocate(ptr, size, align);
    }
}

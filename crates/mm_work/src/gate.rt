//! What a worker passes between its claim and its look.

/// A gate that each worker passes after each successful claim, before it looks whether the theorem
/// is still wanted. With it, tests make sure that workers run at the same time.
pub trait Gate: Sync {
    /// Called when a worker has drawn a theorem. `worker` is 0 for the calling thread; `theorem` is
    /// an index among the theorems, counted from 0.
    fn enter(&self, worker: u32, theorem: u32);
}

/// The gate that is always open: it does nothing.
#[derive(Clone, Copy, Debug)]
pub struct Open;

impl Gate for Open {
    fn enter(&self, _worker: u32, _theorem: u32) {}
}

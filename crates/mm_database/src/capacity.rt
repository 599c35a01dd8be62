//! Lists with capacity for what is expected.

ghost use Rattle.std.specs.Prelude.{◌≡◌, []};

use std::alloc::Allocator;

/// Returns an empty list, with capacity for `count` elements if there is that much memory, so that
/// it needn't be moved as it grows.
pub fn with_expected_capacity<T, A: Allocator>(alloc: A, count: usize) -> Vec<T, A>
    ensures { result.items ≡ [] }
{
    let mut list = Vec::new(alloc);
    match list.reserve(count) {
        Ok(()) => {}
        Err(_) => {}
    }
    list
}

//! Rising lists of numbers.

ghost use Rattle.std.specs.Prelude.{◌≡◌, ℕ};
ghost use Rattle.std.specs.List.Sorted.{IsStrictlyIncreasing};
ghost use Rattle.mm_spec.specs.Derivation.{is_member};

use std::alloc::Allocator;

/// Sorts the numbers, and removes duplicates.
pub(crate) fn sort_and_dedup<A: Allocator>(numbers: &mut Vec<u32, A>)
    ensures rises { IsStrictlyIncreasing numbers.new.items }
    ensures members_stay { (x : ℕ) → is_member numbers.new.items x ≡ is_member numbers.old.items x }
{
    numbers.sort_unstable();
    numbers.dedup();
}

/// Whether the number is among these.
pub(crate) fn has_number(numbers: &[u32], number: u32) -> bool
    requires { IsStrictlyIncreasing numbers.now }
    ensures { result ≡ is_member numbers.now number }
{
    numbers.binary_search(&number).is_ok()
}

//! Lists that are used from proof to proof.

ghost use Rattle.std.specs.Prelude.{◌≡◌, []};

use std::alloc::Allocator;

/// How many elements of a list stay allocated from proof to proof.
const MAX_ELEMENTS_KEPT: usize = 65_536;

/// Empties a list, and frees the memory of a long one. Otherwise one proof with long formulas would
/// hold it until all proofs are checked.
pub fn empty<T: Drop, A: Allocator>(list: &mut Vec<T, A>)
    ensures { list.new.items ≡ [] }
{
    list.clear();
    list.shrink_to(MAX_ELEMENTS_KEPT);
}

/// Writes `number` at an index, if the list has that index and the number fits in 32 bits.
pub fn put_number(numbers: &mut [u32], index: usize, number: usize) {
    if index < numbers.len() && number < 4_294_967_296 {
        numbers[index] = number as u32;
    }
}

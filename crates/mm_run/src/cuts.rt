//! The cuts of a text that a plan requests.

ghost use Rattle.std.specs.Prelude.{◌≡◌, ◌<◌, ◌≤◌, ◌^◌, ℕ, IfOk, length, slice_index};
ghost use Rattle.mm_plan.specs.Plans.{IsLawfulCutting};

use mm_lex::Cuts;
use mm_plan::Cutting;
use std::alloc::{AllocError, Allocator};

/// How many places are within the length, up to the first that isn't.
fn count_within(places: &[u32], len: usize) -> usize
    ensures count_le_length { result ≤ length places.now }
    ensures places_le_len { (i : ℕ) → i < result → slice_index places.now i ≤ len }
{
    for (i, place) in places.iter().enumerate() {
        if *place as usize > len {
            return i;
        }
    }
    places.len()
}

/// Returns the cuts of a text of `len` bytes, at most 2,147,483,648. Places past its end are
/// dropped. Fails only if out of memory.
pub fn cuts_of<A: Allocator + Copy>(
    cutting: &Cutting<A>,
    alloc: A,
    len: usize,
) -> Result<Cuts<A>, AllocError>
    requires is_lawful { IsLawfulCutting cutting.now }
    requires len_le_2_31 { len ≤ 2 ^ 31 }
    ensures { IfOk result (λ cuts. cuts.len ≡ len) }
{
    match cutting {
        Cutting::Count(count) => Cuts::equal(alloc, len, *count),
        Cutting::Places(places) => {
            let mut places_within = Vec::new(alloc);
            places_within.extend_from_slice(&places[..count_within(places, len)])?;
            match Cuts::from_places(places_within, len) {
                Ok(cuts) => Ok(cuts),
                Err(_) => unreachable!("the places of a lawful plan are sorted"),
            }
        }
    }
}

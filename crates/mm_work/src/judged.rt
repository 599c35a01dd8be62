//! What the checking of all proofs finds.

use mm_cites::Citations;
use mm_spec::Fault;
use std::alloc::Allocator;

/// What checking all proofs finds.
#[derive(Drop)]
pub enum Judged<A: Allocator> {
    /// All proofs are valid, and this is what the theorems cite.
    Valid(Citations<A>),
    /// The first proof that isn't valid has this fault.
    Faulty(Fault),
}
